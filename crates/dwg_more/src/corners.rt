//! The corners of a face, as bits (Open Design Specification, "3DFACE").

ghost use Rattle.std.specs.Prelude.{◌≡◌, ◌==◌, ◌^◌, ◌<◌, ◌≤◌, ⊤, length};
ghost use Rattle.dwg_bits.specs.Sink.{Extends};
ghost use Rattle.dwg_grammar.specs.Codes.{IsPoint3};
ghost use Rattle.dwg_common.specs.Parsing.{Keeps, Parses};
ghost use Rattle.dwg_more.specs.CornerLaws.{first_corner_is_code, dd3_is_code};
ghost use Rattle.dwg_more.specs.Faces.{height, corner_by, first_corner, dd3};

use dwg_bits::{BitCursor, BitSink};
use dwg_codes::{BitCode, CodeB, CodeDD, CodeRD, Point3};
use dwg_common::{parse_code, point_with_range};

/// Reads the z word of a first corner, as it is parsed: no bit where z-zero is 1.
fn read_height(z_zero: bool, cursor: &mut BitCursor<'_>) -> Option<u64>
    ensures parsed { Parses (height z_zero) result cursor.old cursor.new }
    ensures kept { Keeps cursor.old cursor.new }
{
    if z_zero {
        return Some(0);
    }
    parse_code::<CodeRD>(&(), cursor)
}

/// Reads a first corner after its z-zero, as it is parsed.
fn read_corner_by(z_zero: bool, cursor: &mut BitCursor<'_>) -> Option<Point3>
    ensures parsed { Parses (corner_by z_zero) result cursor.old cursor.new }
    ensures kept { Keeps cursor.old cursor.new }
{
    let x = parse_code::<CodeRD>(&(), cursor)?;
    let y = parse_code::<CodeRD>(&(), cursor)?;
    let z = read_height(z_zero, cursor)?;
    Some(Point3 { x, y, z })
}

/// Reads a first corner, as it is parsed.
fn read_first(cursor: &mut BitCursor<'_>) -> Option<Point3>
    ensures parsed { Parses first_corner result cursor.old cursor.new }
    ensures kept { Keeps cursor.old cursor.new }
{
    let z_zero = parse_code::<CodeB>(&(), cursor)?;
    read_corner_by(z_zero, cursor)
}

/// Whether the z word of a corner is 0; then it isn't written.
#[tactic(auto, using(crate::proofs::CornerWords::flat_value, crate::proofs::CornerWords::steep_value))]
fn is_flat(corner: &Point3) -> bool
    requires { IsPoint3 corner.now }
    ensures is { result ≡ (corner.now.z == 0) }
    ensures value { (corner_by result).IsValue corner.now }
{
    corner.z == 0
}

/// How many bits the z word of a first corner is written by.
#[tactic(auto, using(dwg_grammar::proofs::NumberLemmas::length_of_rd))]
fn height_bits(z_zero: bool, z: u64) -> u64
    requires { (height z_zero).IsValue z }
    ensures length { result ≡ length ((height z_zero).short z) }
    ensures few { result ≤ 64 }
{
    if z_zero {
        return 0;
    }
    CodeRD::length(&(), &z)
}

/// Writes the z word of a first corner: no bit where z-zero is 1.
fn write_height(z_zero: bool, z: u64, sink: &mut BitSink)
    requires value { (height z_zero).IsValue z }
    requires room { length ((height z_zero).short z) ≤ sink.old.spare }
    ensures { Extends sink.old sink.new ((height z_zero).short z) }
{
    if z_zero {
        return;
    }
    CodeRD::write(&(), &z, sink);
}

/// The first corner of a face: B z-zero; RD x; RD y; and RD z where z-zero is 0, which is written exactly where z isn't 0.
pub(crate) struct CodeFirstCorner;

impl BitCode for CodeFirstCorner {
    type Context = ();

    type Value = Point3;

    ghost grammar = { λ context. first_corner };

    ghost IsContext = { λ context. ⊤ };

    #[tactic(auto, using(dwg_common::proofs::PartReading::part_read, dwg_common::proofs::PartReading::part_unread, dwg_grammar::proofs::BodyReading::parsed_value, crate::specs::CornerLaws::first_corner_is_code))]
    fn read(_context: &(), cursor: &mut BitCursor<'_>) -> Option<Point3> {
        let mut ahead = *cursor;
        let corner = read_first(&mut ahead)?;
        *cursor = ahead;
        Some(corner)
    }

    #[tactic(auto, using(dwg_grammar::proofs::NumberLemmas::length_of_rd, dwg_bits::proofs::BitLaws::length_of_low_bits))]
    fn length(_context: &(), value: &Point3) -> u64 {
        let z_zero = is_flat(value);
        CodeB::length(&(), &z_zero)
            + CodeRD::length(&(), &value.x)
            + CodeRD::length(&(), &value.y)
            + height_bits(z_zero, value.z)
    }

    fn write(_context: &(), value: &Point3, sink: &mut BitSink) {
        let z_zero = is_flat(value);
        CodeB::write(&(), &z_zero, sink);
        CodeRD::write(&(), &value.x, sink);
        CodeRD::write(&(), &value.y, sink);
        write_height(z_zero, value.z, sink);
    }

    ghost laws = { λ context is. first_corner_is_code };
}

/// Reads three DDs, each against a word of the default, as they are parsed.
fn read_three_against(default: Point3, cursor: &mut BitCursor<'_>) -> Option<Point3>
    ensures parsed { Parses (dd3 default) result cursor.old cursor.new }
    ensures kept { Keeps cursor.old cursor.new }
{
    let x = parse_code::<CodeDD>(&default.x, cursor)?;
    let y = parse_code::<CodeDD>(&default.y, cursor)?;
    let z = parse_code::<CodeDD>(&default.z, cursor)?;
    Some(Point3 { x, y, z })
}

/// 3DD: a DD for each word of a point of space against the word of a default, x first.
pub(crate) struct Code3DD;

impl BitCode for Code3DD {
    type Context = Point3;

    type Value = Point3;

    ghost grammar = { dd3 };

    ghost IsContext = { IsPoint3 };

    #[tactic(auto, using(crate::proofs::CornerReading::dd3_read, crate::proofs::CornerReading::dd3_unread, crate::proofs::CornerReading::dd3_value))]
    fn read(context: &Point3, cursor: &mut BitCursor<'_>) -> Option<Point3> {
        // The laws of a DD ask that its default is a word.
        point_with_range(context);
        let mut ahead = *cursor;
        let point = read_three_against(*context, &mut ahead)?;
        *cursor = ahead;
        Some(point)
    }

    #[tactic(auto, using(dwg_grammar::proofs::Bounds::dd_at_most))]
    fn length(context: &Point3, value: &Point3) -> u64 {
        CodeDD::length(&context.x, &value.x)
            + CodeDD::length(&context.y, &value.y)
            + CodeDD::length(&context.z, &value.z)
    }

    fn write(context: &Point3, value: &Point3, sink: &mut BitSink) {
        CodeDD::write(&context.x, &value.x, sink);
        CodeDD::write(&context.y, &value.y, sink);
        CodeDD::write(&context.z, &value.z, sink);
    }

    ghost laws = { λ default is. dd3_is_code default is };
}
