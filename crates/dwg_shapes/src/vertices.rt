//! The points of a lightweight polyline, as bits (Open Design Specification, "LWPOLYLINE").

ghost use Rattle.std.specs.Prelude.{◌≡◌, ◌^◌, ◌<◌, ◌≤◌, length, IfOk};
ghost use Rattle.dwg_bits.specs.Sink.{Extends};
ghost use Rattle.dwg_shapes.specs.LwPolylines.{before_next, vertex, vertices};
ghost use Rattle.dwg_common.specs.Parsing.{Keeps, Parses};

use dwg_base::{Items, NoMemory, Version};
use dwg_bits::{BitCursor, BitSink};
use dwg_codes::{BitCode, Point2};
use dwg_common::{Code2DD, Code2RD, known_place, parse_code};
use std::alloc::Global;

/// The point against which the one after a point is given.
fn before_next(version: Version, point: Point2) -> Option<Point2>
    ensures { result ≡ before_next version point }
{
    match version {
        Version::Ac1014 => None,
        Version::Ac1015 => Some(point),
    }
}

/// Reads a point after the one before it, as it is parsed.
fn read_vertex(before: Option<Point2>, cursor: &mut BitCursor<'_>) -> Option<Point2>
    ensures parsed { Parses (vertex before) result cursor.old cursor.new }
    ensures kept { Keeps cursor.old cursor.new }
{
    match before {
        None => parse_code::<Code2RD>(&(), cursor),
        Some(point) => {
            known_place(&point);
            parse_code::<Code2DD>(&point, cursor)
        }
    }
}

/// Reads so many points, as they are parsed. Err: out of memory, which is taken only for points that are there.
#[tactic(auto, using(dwg_common::proofs::ChainReading::none_begun, dwg_common::proofs::ChainReading::all_begun), unfolding(dwg_grammar::specs::Combinators::chain))]
pub(crate) fn read_vertices(
    alloc: Global,
    version: Version,
    count: u32,
    cursor: &mut BitCursor<'_>,
) -> Result<Option<Items<Point2>>, NoMemory>
    ensures parsed { IfOk result (λ found. Parses (vertices version count) found cursor.old cursor.new) }
    ensures kept { Keeps cursor.old cursor.new }
{
    let mut before = None;
    let mut found = Items::new(alloc);
    'points: for _ in 0..count {
        let Some(point) = read_vertex(before, cursor) else {
            return Ok(None);
        };
        found.try_push(point)?;
        before = before_next(version, point);
    }
    Ok(Some(found))
}

/// The words of points lie in the range of their type.
#[tactic(auto, using(crate::proofs::Known::none_known, crate::proofs::VertexLoops::vertices_known))]
pub(crate) fn known_vertices(version: Version, points: &[Point2])
    ensures { (vertices version (length points.now)).IsValue points.now }
{
    let _newer = version.is_newer();
    // It finds nothing out: a turn gives the proof of one point what holds of every value of its type.
    'points: for point in points {
        known_place(point);
    }
}

/// How many bits a point is written by after the one before it.
fn vertex_bits(before: Option<Point2>, point: &Point2) -> u64
    requires { (vertex before).IsValue point.now }
    ensures length { result ≡ length ((vertex before).short point.now) }
    ensures few { result < 2 ^ 33 }
{
    match before {
        None => Code2RD::length(&(), point),
        Some(last) => {
            known_place(&last);
            Code2DD::length(&last, point)
        }
    }
}

/// How many bits points are written by.
#[tactic(auto, unfolding(dwg_grammar::specs::Combinators::chain))]
pub(crate) fn vertices_bits(version: Version, points: &[Point2]) -> u64
    requires value { (vertices version (length points.now)).IsValue points.now }
    requires few { length ((vertices version (length points.now)).short points.now) < 2 ^ 62 }
    ensures { result ≡ length ((vertices version (length points.now)).short points.now) }
{
    let mut bits = 0;
    let mut before = None;
    'points: for point in points {
        bits += vertex_bits(before, point);
        before = before_next(version, *point);
    }
    bits
}

/// Writes a point after the one before it.
fn write_vertex(before: Option<Point2>, point: &Point2, sink: &mut BitSink)
    requires value { (vertex before).IsValue point.now }
    requires room { length ((vertex before).short point.now) ≤ sink.old.spare }
    ensures { Extends sink.old sink.new ((vertex before).short point.now) }
{
    match before {
        None => Code2RD::write(&(), point, sink),
        Some(last) => {
            known_place(&last);
            Code2DD::write(&last, point, sink);
        }
    }
}

/// Writes points, each after the one before it.
#[tactic(auto, unfolding(dwg_grammar::specs::Combinators::chain))]
pub(crate) fn write_vertices(version: Version, points: &[Point2], sink: &mut BitSink)
    requires value { (vertices version (length points.now)).IsValue points.now }
    requires room { length ((vertices version (length points.now)).short points.now) ≤ sink.old.spare }
    ensures { Extends sink.old sink.new ((vertices version (length points.now)).short points.now) }
{
    let mut before = None;
    'points: for point in points {
        write_vertex(before, point, sink);
        before = before_next(version, *point);
    }
}
