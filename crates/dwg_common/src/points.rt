//! Points as bits: each word by a code of its own (Open Design Specification, "Bit codes").

ghost use Rattle.std.specs.Prelude.{◌≡◌, ◌<◌, ⊤};
ghost use Rattle.dwg_grammar.specs.Codes.{IsPoint3};
ghost use Rattle.dwg_grammar.proofs.PointLemmas.{rd2_is_code, dd2_is_code};
ghost use Rattle.dwg_grammar.specs.Versions.{extrusion, thickness};
ghost use Rattle.dwg_grammar.specs.Points.{IsPoint2, rd2, dd2};
ghost use Rattle.dwg_common.specs.Parsing.{Keeps, Parses};

use crate::part_reading::parse_code;
use dwg_base::Version;
use dwg_bits::{BitCursor, BitSink};
use dwg_codes::{BitCode, CodeDD, CodeRD, Point2, Point3};

/// The words of a point lie in the range of their type: it finds nothing out, and gives the proof what holds of every point.
pub fn point_with_range(point: &Point3)
    ensures { IsPoint3 point.now }
{
    let _x = point.x;
    let _y = point.y;
    let _z = point.z;
}

/// A word is a thickness in each version: as [`point_with_range`].
#[tactic(auto, using(dwg_grammar::proofs::VersionLemmas::thickness_value))]
pub fn known_thickness(version: Version, word: u64)
    ensures { (thickness version).IsValue word }
{
    let _newer = version.is_newer();
    let _word = word;
}

/// A point is an extrusion in each version: as [`point_with_range`].
#[tactic(auto, using(dwg_grammar::proofs::VersionLemmas::extrusion_value))]
pub fn known_extrusion(version: Version, point: &Point3)
    ensures { (extrusion version).IsValue point.now }
{
    let _newer = version.is_newer();
    point_with_range(point);
}

/// The words of a point of the plane lie in the range of their type: as [`point_with_range`].
pub fn known_place(place: &Point2)
    ensures { IsPoint2 place.now }
{
    let _x = place.x;
    let _y = place.y;
}

/// Reads two RDs, as they are parsed.
fn read_two(cursor: &mut BitCursor<'_>) -> Option<Point2>
    ensures parsed { Parses rd2 result cursor.old cursor.new }
    ensures kept { Keeps cursor.old cursor.new }
{
    let x = parse_code::<CodeRD>(&(), cursor)?;
    let y = parse_code::<CodeRD>(&(), cursor)?;
    Some(Point2 { x, y })
}

/// 2RD: an RD for each word of a point of the plane, x first.
pub struct Code2RD;

impl BitCode for Code2RD {
    type Context = ();

    type Value = Point2;

    ghost grammar = { λ context. rd2 };

    ghost IsContext = { λ context. ⊤ };

    #[tactic(auto, using(crate::proofs::PartReading::part_read, crate::proofs::PartReading::part_unread, dwg_grammar::proofs::BodyReading::parsed_value, dwg_grammar::proofs::PointLemmas::rd2_is_code))]
    fn read(_context: &(), cursor: &mut BitCursor<'_>) -> Option<Point2> {
        let mut ahead = *cursor;
        let point = read_two(&mut ahead)?;
        *cursor = ahead;
        Some(point)
    }

    #[tactic(auto, using(dwg_grammar::proofs::NumberLemmas::length_of_rd))]
    fn length(_context: &(), value: &Point2) -> u64 {
        CodeRD::length(&(), &value.x) + CodeRD::length(&(), &value.y)
    }

    fn write(_context: &(), value: &Point2, sink: &mut BitSink) {
        CodeRD::write(&(), &value.x, sink);
        CodeRD::write(&(), &value.y, sink);
    }

    ghost laws = { λ context is. rd2_is_code };
}

/// Reads two DDs, each against a word of the default, as they are parsed.
fn read_two_against(default: Point2, cursor: &mut BitCursor<'_>) -> Option<Point2>
    ensures parsed { Parses (dd2 default) result cursor.old cursor.new }
    ensures kept { Keeps cursor.old cursor.new }
{
    let x = parse_code::<CodeDD>(&default.x, cursor)?;
    let y = parse_code::<CodeDD>(&default.y, cursor)?;
    Some(Point2 { x, y })
}

/// 2DD: a DD for each word of a point of the plane against the word of a default, x first.
pub struct Code2DD;

impl BitCode for Code2DD {
    type Context = Point2;

    type Value = Point2;

    ghost grammar = { dd2 };

    ghost IsContext = { IsPoint2 };

    #[tactic(auto, using(crate::proofs::PointReading::dd2_read, crate::proofs::PointReading::dd2_value))]
    fn read(context: &Point2, cursor: &mut BitCursor<'_>) -> Option<Point2> {
        // The laws of a DD ask that its default is a word.
        let _x = context.x;
        let _y = context.y;
        let mut ahead = *cursor;
        let point = read_two_against(*context, &mut ahead)?;
        *cursor = ahead;
        Some(point)
    }

    #[tactic(auto, using(dwg_grammar::proofs::Bounds::dd_at_most))]
    fn length(context: &Point2, value: &Point2) -> u64 {
        CodeDD::length(&context.x, &value.x) + CodeDD::length(&context.y, &value.y)
    }

    fn write(context: &Point2, value: &Point2, sink: &mut BitSink) {
        CodeDD::write(&context.x, &value.x, sink);
        CodeDD::write(&context.y, &value.y, sink);
    }

    ghost laws = { λ default is. dd2_is_code default is };
}
