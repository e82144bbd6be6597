//! Light polylines: polylines of a plane.

ghost use Rattle.std.specs.Prelude.{◌≡◌, ◌==◌, ◌^◌, ◌<◌, ◌≤◌, ◌↔◌, length, option_map, IsTrue};
ghost use Rattle.std.specs.List.{AllByRecursion};
ghost use Rattle.dwg_bits.specs.Sink.{Extends};
ghost use Rattle.dwg_grammar.specs.Codes.{bd, bd3};
ghost use Rattle.dwg_grammar.specs.Combinators.{when};
ghost use Rattle.dwg_grammar.specs.Flags.{has};
ghost use Rattle.dwg_base.specs.declared.version.Version.TheVariants.{Ac1014};
ghost use Rattle.dwg_common.proofs.LayoutLemmas.{same_alike};
ghost use Rattle.dwg_common.specs.Parsing.{Keeps, Parses};
ghost use Rattle.dwg_shapes.specs.LwPolylines.{counts_of, items_where, lists_of, lwpolyline_body, polyline_counts, polyline_lists, polyline_start, start_of, width_pair};
ghost use Rattle.dwg_shapes.specs.PolylineReading.{start_read};
ghost use Rattle.dwg_shapes.specs.ShapeLaws.{lwpolyline_is_body, lwpolyline_narrower};

use crate::lists::{
    count_fits_when, count_when, list_bits_where, parse_list_where, write_list_where,
};
use crate::vertices::{known_vertices, read_vertices, vertices_bits, write_vertices};
use crate::width::{CodeWidth, known_widths};
use dwg_base::{Handle, Items, NoMemory, Version};
use dwg_bits::{BitCursor, BitSink};
use dwg_codes::{
    BitCode, Code3BD, CodeBD, CodeBL, CodeBS, Point2, Point3, length_when, write_when,
};
use dwg_common::{
    BodyCode, BodyCode14, Layout, Lengths, TOO_MANY, parse_code, parse_when, point_with_range,
};
use std::alloc::Global;

/// How wide a lightweight polyline is from one point to the next (Open Design Specification, "LWPOLYLINE").
#[derive(Clone, Copy, Debug, PartialEq, Eq)]
pub struct Width {
    /// At the point, the word of a floating-point number.
    pub start: u64,
    /// Before the next point, the word of a floating-point number.
    pub end: u64,
}

/// A lightweight polyline (Open Design Specification, "LWPOLYLINE").
#[derive(Drop)]
pub struct LwPolyline {
    /// Bits that say which of the parts below there are: 4 a width, 8 an elevation, 2 a thickness, 1 a normal, 16 bulges, 32
    /// widths. Its other bits are kept without meaning.
    pub flag: u16,
    /// How wide it is throughout, the word of a floating-point number.
    pub width: Option<u64>,
    /// The height of its plane, the word of a floating-point number.
    pub elevation: Option<u64>,
    /// How thick it is, the word of a floating-point number.
    pub thickness: Option<u64>,
    /// The direction in which it is thick.
    pub normal: Option<Point3>,
    /// Its points in its plane, fewer than 2^32.
    pub points: Items<Point2>,
    /// How much it bulges after each point, words of floating-point numbers, fewer than 2^32.
    pub bulges: Option<Items<u64>>,
    /// How wide it is after each point, fewer than 2^32.
    pub widths: Option<Items<Width>>,
}

/// What is read of a lightweight polyline before the counts of its lists.
#[derive(Clone, Copy)]
struct Start {
    /// Its flag.
    flag: u16,
    /// How wide it is throughout.
    width: Option<u64>,
    /// The height of its plane.
    elevation: Option<u64>,
    /// How thick it is.
    thickness: Option<u64>,
    /// The direction in which it is thick.
    normal: Option<Point3>,
}

/// The bit of the flag of a lightweight polyline that has a width.
const WIDTH: u16 = 4;

/// Of one that has an elevation.
const ELEVATION: u16 = 8;

/// Of one that has a thickness.
const THICKNESS: u16 = 2;

/// Of one that has a normal.
const NORMAL: u16 = 1;

/// Of one that has bulges.
const BULGES: u16 = 16;

/// Of one that has widths.
const WIDTHS: u16 = 32;

/// Whether the bit of a flag that is worth so much is set.
fn has(flag: u16, weight: u16) -> bool
    requires { 0 < weight }
    ensures { result ≡ has flag weight }
{
    flag / weight % 2 == 1
}

/// Whether a word is there exactly where it is present.
fn word_fits_when(present: bool, value: Option<u64>) -> bool
    ensures { IsTrue result ↔ (when present bd).IsValue value }
{
    match value {
        Some(_word) => present,
        None => !present,
    }
}

/// Whether a point is there exactly where it is present.
fn point_fits_when(present: bool, value: &Option<Point3>) -> bool
    ensures { IsTrue result ↔ (when present bd3).IsValue value.now }
{
    match value {
        Some(point) => {
            point_with_range(point);
            present
        }
        None => !present,
    }
}

/// Words lie in the range of their type.
#[tactic(auto, using(crate::proofs::WhereCounted::words_known))]
fn known_words(words: &[u64])
    ensures { AllByRecursion bd.IsValue words.now }
{}

/// So do the bulges of a lightweight polyline.
fn known_bulges(bulges: &Option<Items<u64>>)
    ensures { (items_where bd (option_map length bulges.now)).IsValue bulges.now }
{
    if let Some(many) = bulges {
        known_words(many.as_slice());
    }
}

/// And its widths.
fn known_widths_where(widths: &Option<Items<Width>>)
    ensures { (items_where width_pair (option_map length widths.now)).IsValue widths.now }
{
    if let Some(many) = widths {
        known_widths(many.as_slice());
    }
}

/// Reads what a lightweight polyline begins with, as it is parsed.
fn read_start(cursor: &mut BitCursor<'_>) -> Option<Start>
    ensures parsed { Parses polyline_start (option_map start_read result) cursor.old cursor.new }
    ensures kept { Keeps cursor.old cursor.new }
{
    let flag = parse_code::<CodeBS>(&(), cursor)?;
    let width = parse_when::<CodeBD>(&(), has(flag, WIDTH), cursor)?;
    let elevation = parse_when::<CodeBD>(&(), has(flag, ELEVATION), cursor)?;
    let thickness = parse_when::<CodeBD>(&(), has(flag, THICKNESS), cursor)?;
    let normal = parse_when::<Code3BD>(&(), has(flag, NORMAL), cursor)?;
    Some(Start {
        flag,
        width,
        elevation,
        thickness,
        normal,
    })
}

/// Writes what a lightweight polyline begins with.
fn write_start(polyline: &LwPolyline, sink: &mut BitSink)
    requires value { polyline_start.IsValue (start_of polyline.now) }
    requires room { length (polyline_start.short (start_of polyline.now)) ≤ sink.old.spare }
    ensures { Extends sink.old sink.new (polyline_start.short (start_of polyline.now)) }
{
    CodeBS::write(&(), &polyline.flag, sink);
    write_when::<CodeBD>(&(), has(polyline.flag, WIDTH), &polyline.width, sink);
    write_when::<CodeBD>(
        &(),
        has(polyline.flag, ELEVATION),
        &polyline.elevation,
        sink,
    );
    write_when::<CodeBD>(
        &(),
        has(polyline.flag, THICKNESS),
        &polyline.thickness,
        sink,
    );
    write_when::<Code3BD>(&(), has(polyline.flag, NORMAL), &polyline.normal, sink);
}

/// Writes the counts of its lists.
fn write_counts(polyline: &LwPolyline, sink: &mut BitSink)
    requires value { (polyline_counts polyline.now.flag).IsValue (counts_of (lists_of polyline.now)) }
    requires room { length ((polyline_counts polyline.now.flag).short (counts_of (lists_of polyline.now))) ≤ sink.old.spare }
    ensures { Extends sink.old sink.new ((polyline_counts polyline.now.flag).short (counts_of (lists_of polyline.now))) }
{
    let points = polyline.points.as_slice().len() as u32;
    let bulges = count_when(has(polyline.flag, BULGES), &polyline.bulges);
    let widths = count_when(has(polyline.flag, WIDTHS), &polyline.widths);
    CodeBL::write(&(), &points, sink);
    write_when::<CodeBL>(&(), has(polyline.flag, BULGES), &bulges, sink);
    write_when::<CodeBL>(&(), has(polyline.flag, WIDTHS), &widths, sink);
}

/// Writes its lists.
fn write_lists(polyline: &LwPolyline, version: Version, sink: &mut BitSink)
    requires value { (polyline_lists version (counts_of (lists_of polyline.now))).IsValue (lists_of polyline.now) }
    requires room { length ((polyline_lists version (counts_of (lists_of polyline.now))).short (lists_of polyline.now)) ≤ sink.old.spare }
    ensures { Extends sink.old sink.new ((polyline_lists version (counts_of (lists_of polyline.now))).short (lists_of polyline.now)) }
{
    write_vertices(version, polyline.points.as_slice(), sink);
    write_list_where::<CodeBD>(&(), &polyline.bulges, sink);
    write_list_where::<CodeWidth>(&(), &polyline.widths, sink);
}

impl BodyCode for LwPolyline {
    ghost grammar = { λ layout. lwpolyline_body layout.version };

    #[tactic(auto, unfolding(crate::specs::LwPolylines::lwpolyline_main))]
    fn parse(
        alloc: Global,
        layout: Layout,
        main: &mut BitCursor<'_>,
        _refs: &mut BitCursor<'_>,
        _base: Handle,
    ) -> Result<Option<LwPolyline>, NoMemory> {
        let Some(start) = read_start(main) else {
            return Ok(None);
        };
        let Some(points_count) = parse_code::<CodeBL>(&(), main) else {
            return Ok(None);
        };
        let Some(bulges_count) = parse_when::<CodeBL>(&(), has(start.flag, BULGES), main) else {
            return Ok(None);
        };
        let Some(widths_count) = parse_when::<CodeBL>(&(), has(start.flag, WIDTHS), main) else {
            return Ok(None);
        };
        let Some(points) = read_vertices(alloc, layout.version, points_count, main)? else {
            return Ok(None);
        };
        let Some(bulges) = parse_list_where::<CodeBD>(alloc, &(), bulges_count, main)? else {
            return Ok(None);
        };
        let Some(widths) = parse_list_where::<CodeWidth>(alloc, &(), widths_count, main)? else {
            return Ok(None);
        };
        Ok(Some(LwPolyline {
            flag: start.flag,
            width: start.width,
            elevation: start.elevation,
            thickness: start.thickness,
            normal: start.normal,
            points,
            bulges,
            widths,
        }))
    }

    #[tactic(auto, unfolding(crate::specs::LwPolylines::lwpolyline_main))]
    fn fits_in(&self, layout: Layout, _base: Handle) -> bool {
        if !word_fits_when(has(self.flag, WIDTH), self.width) {
            return false;
        }
        if !word_fits_when(has(self.flag, ELEVATION), self.elevation) {
            return false;
        }
        if !word_fits_when(has(self.flag, THICKNESS), self.thickness) {
            return false;
        }
        if !point_fits_when(has(self.flag, NORMAL), &self.normal) {
            return false;
        }
        if self.points.as_slice().len() >= TOO_MANY {
            return false;
        }
        if !count_fits_when(has(self.flag, BULGES), &self.bulges) {
            return false;
        }
        if !count_fits_when(has(self.flag, WIDTHS), &self.widths) {
            return false;
        }
        known_vertices(layout.version, self.points.as_slice());
        known_bulges(&self.bulges);
        known_widths_where(&self.widths);
        true
    }

    #[tactic(auto, unfolding(crate::specs::LwPolylines::lwpolyline_main))]
    fn lengths_in(&self, layout: Layout, _base: Handle) -> Lengths {
        let points = self.points.as_slice().len() as u32;
        let bulges = count_when(has(self.flag, BULGES), &self.bulges);
        let widths = count_when(has(self.flag, WIDTHS), &self.widths);
        Lengths {
            main: CodeBS::length(&(), &self.flag)
                + length_when::<CodeBD>(&(), has(self.flag, WIDTH), &self.width)
                + length_when::<CodeBD>(&(), has(self.flag, ELEVATION), &self.elevation)
                + length_when::<CodeBD>(&(), has(self.flag, THICKNESS), &self.thickness)
                + length_when::<Code3BD>(&(), has(self.flag, NORMAL), &self.normal)
                + CodeBL::length(&(), &points)
                + length_when::<CodeBL>(&(), has(self.flag, BULGES), &bulges)
                + length_when::<CodeBL>(&(), has(self.flag, WIDTHS), &widths)
                + vertices_bits(layout.version, self.points.as_slice())
                + list_bits_where::<CodeBD>(&(), &self.bulges)
                + list_bits_where::<CodeWidth>(&(), &self.widths),
            refs: 0,
        }
    }

    #[tactic(auto, unfolding(crate::specs::LwPolylines::lwpolyline_main))]
    fn write_main_in(&self, layout: Layout, _base: Handle, sink: &mut BitSink) {
        write_start(self, sink);
        write_counts(self, sink);
        write_lists(self, layout.version, sink);
    }

    fn write_refs_in(&self, _layout: Layout, _base: Handle, _sink: &mut BitSink) {}

    ghost laws = { λ layout base few small. lwpolyline_is_body layout.version base };
}

impl BodyCode14 for LwPolyline {
    ghost narrower = { lwpolyline_narrower };

    ghost sizes_alike = { λ size base value. same_alike (lwpolyline_body Ac1014 base) value };
}
