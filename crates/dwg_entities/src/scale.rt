//! The scale of an insert as bits (Open Design Specification, "INSERT").

ghost use Rattle.std.specs.Prelude.{◌≡◌, ◌<◌, ◌≤◌, ⊤, length};
ghost use Rattle.dwg_bits.specs.Sink.{Extends};
ghost use Rattle.dwg_grammar.specs.Codes.{IsPoint3};
ghost use Rattle.dwg_common.specs.Parsing.{Keeps, Parses};
ghost use Rattle.dwg_entities.specs.Scale.{newer_scale, scale, scale_beside_one, scale_by, scale_even, scale_free, scale_tag};
ghost use Rattle.dwg_entities.specs.ScaleLaws.{newer_scale_is_code, scale_is_code};

use dwg_base::Version;
use dwg_bits::{BitCursor, BitSink};
use dwg_codes::{BitCode, Code3BD, CodeBB, CodeDD, CodeRD, ONE_WORD, Point3};
use dwg_common::{parse_code, point_with_range};

/// The tag of a scale of any words.
const FREE: u8 = 0;

/// The tag of a scale whose x is 1.0.
const BESIDE_ONE: u8 = 1;

/// The tag of a scale of one word.
const EVEN: u8 = 2;

/// The tag of a scale of 1.0 alone.
const WHOLE: u8 = 3;

/// Reads a scale of any words, as it is parsed.
fn read_free(cursor: &mut BitCursor<'_>) -> Option<Point3>
    ensures parsed { Parses scale_free result cursor.old cursor.new }
    ensures kept { Keeps cursor.old cursor.new }
{
    let x = parse_code::<CodeRD>(&(), cursor)?;
    let y = parse_code::<CodeDD>(&x, cursor)?;
    let z = parse_code::<CodeDD>(&x, cursor)?;
    Some(Point3 { x, y, z })
}

/// Reads a scale whose x is 1.0, as it is parsed.
fn read_beside_one(cursor: &mut BitCursor<'_>) -> Option<Point3>
    ensures parsed { Parses scale_beside_one result cursor.old cursor.new }
    ensures kept { Keeps cursor.old cursor.new }
{
    let y = parse_code::<CodeDD>(&ONE_WORD, cursor)?;
    let z = parse_code::<CodeDD>(&ONE_WORD, cursor)?;
    Some(Point3 { x: ONE_WORD, y, z })
}

/// Reads a scale of one word, as it is parsed.
fn read_even(cursor: &mut BitCursor<'_>) -> Option<Point3>
    ensures parsed { Parses scale_even result cursor.old cursor.new }
    ensures kept { Keeps cursor.old cursor.new }
{
    let x = parse_code::<CodeRD>(&(), cursor)?;
    Some(Point3 { x, y: x, z: x })
}

/// Reads what is after a tag, as it is parsed.
#[tactic(auto, using(crate::proofs::ScaleReading::none_after))]
fn read_payload(tag: u8, cursor: &mut BitCursor<'_>) -> Option<Point3>
    ensures parsed { Parses (scale_by tag) result cursor.old cursor.new }
    ensures kept { Keeps cursor.old cursor.new }
{
    match tag {
        FREE => read_free(cursor),
        BESIDE_ONE => read_beside_one(cursor),
        EVEN => read_even(cursor),
        WHOLE => Some(Point3 {
            x: ONE_WORD,
            y: ONE_WORD,
            z: ONE_WORD,
        }),
        _ => None,
    }
}

/// Reads a scale, as it is parsed.
#[tactic(auto, unfolding(crate::specs::Scale::newer_scale))]
fn read_scale(cursor: &mut BitCursor<'_>) -> Option<Point3>
    ensures parsed { Parses newer_scale result cursor.old cursor.new }
    ensures kept { Keeps cursor.old cursor.new }
{
    let tag = parse_code::<CodeBB>(&(), cursor)?;
    read_payload(tag, cursor)
}

/// The tag under which a scale is written: the first of 11, 01, 10 and 00 that applies.
fn scale_tag(point: &Point3) -> u8
    ensures tag { result ≡ scale_tag point.now }
    ensures fits { result < 4 }
{
    if point.x == ONE_WORD {
        if point.y != ONE_WORD {
            return BESIDE_ONE;
        }
        if point.z != ONE_WORD {
            return BESIDE_ONE;
        }
        return WHOLE;
    }
    if point.y != point.x {
        return FREE;
    }
    if point.z != point.x {
        return FREE;
    }
    EVEN
}

/// How many bits are written of a scale after a tag.
#[tactic(auto, using(dwg_grammar::proofs::Bounds::dd_at_most, dwg_grammar::proofs::NumberLemmas::length_of_rd))]
fn bits_after(tag: u8, point: &Point3) -> u64
    requires tag { tag < 4 }
    requires point { IsPoint3 point.now }
    ensures length { result ≡ length ((scale_by tag).short point.now) }
    ensures few { result ≤ 196 }
{
    match tag {
        FREE => {
            CodeRD::length(&(), &point.x)
                + CodeDD::length(&point.x, &point.y)
                + CodeDD::length(&point.x, &point.z)
        }
        BESIDE_ONE => { CodeDD::length(&ONE_WORD, &point.y) + CodeDD::length(&ONE_WORD, &point.z) }
        EVEN => CodeRD::length(&(), &point.x),
        _ => 0,
    }
}

/// Writes a scale after a tag.
fn write_payload(tag: u8, point: &Point3, sink: &mut BitSink)
    requires tag { tag < 4 }
    requires point { IsPoint3 point.now }
    requires room { length ((scale_by tag).short point.now) ≤ sink.old.spare }
    ensures { Extends sink.old sink.new ((scale_by tag).short point.now) }
{
    match tag {
        FREE => {
            CodeRD::write(&(), &point.x, sink);
            CodeDD::write(&point.x, &point.y, sink);
            CodeDD::write(&point.x, &point.z, sink);
        }
        BESIDE_ONE => {
            CodeDD::write(&ONE_WORD, &point.y, sink);
            CodeDD::write(&ONE_WORD, &point.z, sink);
        }
        EVEN => CodeRD::write(&(), &point.x, sink),
        _ => {}
    }
}

/// The scale of an insert in AC1015: BB 11 for 1.0 along each axis; 01 where x is 1.0, and y and z each a DD against 1.0; 10 and an RD
/// for all three; 00 and an RD x, and y and z each a DD against x.
struct CodeNewerScale;

impl BitCode for CodeNewerScale {
    type Context = ();

    type Value = Point3;

    ghost grammar = { λ context. newer_scale };

    ghost IsContext = { λ context. ⊤ };

    #[tactic(auto, using(dwg_common::proofs::PartReading::part_read, dwg_common::proofs::PartReading::part_unread, dwg_grammar::proofs::BodyReading::parsed_value, crate::specs::ScaleLaws::newer_scale_is_code))]
    fn read(_context: &(), cursor: &mut BitCursor<'_>) -> Option<Point3> {
        let mut ahead = *cursor;
        let point = read_scale(&mut ahead)?;
        *cursor = ahead;
        Some(point)
    }

    #[tactic(auto, unfolding(crate::specs::Scale::newer_scale), using(dwg_bits::proofs::BitLaws::length_of_low_bits))]
    fn length(_context: &(), value: &Point3) -> u64 {
        let tag = scale_tag(value);
        CodeBB::length(&(), &tag) + bits_after(tag, value)
    }

    #[tactic(auto, unfolding(crate::specs::Scale::newer_scale))]
    fn write(_context: &(), value: &Point3, sink: &mut BitSink) {
        let tag = scale_tag(value);
        CodeBB::write(&(), &tag, sink);
        write_payload(tag, value, sink);
    }

    ghost laws = { λ context is. newer_scale_is_code };
}

/// The scale of an insert: in AC1014 3BD.
pub(crate) struct CodeScale;

impl BitCode for CodeScale {
    type Context = Version;

    type Value = Point3;

    ghost grammar = { scale };

    ghost IsContext = { λ version. ⊤ };

    fn read(context: &Version, cursor: &mut BitCursor<'_>) -> Option<Point3> {
        match *context {
            Version::Ac1014 => Code3BD::read(&(), cursor),
            Version::Ac1015 => CodeNewerScale::read(&(), cursor),
        }
    }

    #[tactic(auto, using(crate::specs::ScaleLaws::scale_point))]
    fn length(context: &Version, value: &Point3) -> u64 {
        match *context {
            Version::Ac1014 => Code3BD::length(&(), value),
            Version::Ac1015 => CodeNewerScale::length(&(), value),
        }
    }

    #[tactic(auto, using(crate::specs::ScaleLaws::scale_point))]
    fn write(context: &Version, value: &Point3, sink: &mut BitSink) {
        match *context {
            Version::Ac1014 => Code3BD::write(&(), value, sink),
            Version::Ac1015 => CodeNewerScale::write(&(), value, sink),
        }
    }

    ghost laws = { λ version is. scale_is_code version };
}

/// A point is a scale in each version: it finds nothing out, as `point_with_range`.
#[tactic(auto, using(crate::specs::ScaleLaws::scale_value))]
pub(crate) fn known_scale(version: Version, point: &Point3)
    ensures { (scale version).IsValue point.now }
{
    let _newer = version.is_newer();
    point_with_range(point);
}
