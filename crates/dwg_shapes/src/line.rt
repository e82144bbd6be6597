//! Lines.

ghost use Rattle.std.specs.Prelude.{◌≡◌, ◌^◌, ◌<◌, ◌≤◌, length, option_map};
ghost use Rattle.dwg_bits.specs.Sink.{Extends};
ghost use Rattle.dwg_base.specs.declared.version.Version.TheVariants.{Ac1014};
ghost use Rattle.dwg_common.proofs.LayoutLemmas.{same_alike};
ghost use Rattle.dwg_common.specs.Parsing.{Keeps, Parses};
ghost use Rattle.dwg_shapes.specs.Lines.{ends_of, ends_read, newer_ends, older_ends, heights, is_flat, line_body, line_ends, line_main};
ghost use Rattle.dwg_shapes.specs.ShapeLaws.{line_is_body, line_narrower};

use dwg_base::{Handle, NoMemory, Version};
use dwg_bits::{BitCursor, BitSink};
use dwg_codes::{BitCode, Code3BD, CodeB, CodeDD, CodeExtrusion, CodeRD, CodeThickness, Point3};
use dwg_common::{
    BodyCode, BodyCode14, Layout, Lengths, known_extrusion, known_thickness, parse_code,
    point_with_range,
};
use std::alloc::Global;

/// A line (Open Design Specification, "LINE").
#[derive(Clone, Copy, Debug, PartialEq, Eq)]
pub struct Line {
    /// Where it starts.
    pub start: Point3,
    /// Where it ends.
    pub end: Point3,
    /// How thick it is, the word of a floating-point number.
    pub thickness: u64,
    /// The direction in which it is thick.
    pub extrusion: Point3,
}

/// Reads the z words of both ends, as they are parsed: none where z-zero is 1.
fn read_heights(z_zero: bool, cursor: &mut BitCursor<'_>) -> Option<(u64, u64)>
    ensures parsed { Parses (heights z_zero) result cursor.old cursor.new }
    ensures kept { Keeps cursor.old cursor.new }
{
    if z_zero {
        return Some((0, 0));
    }
    let start_z = parse_code::<CodeRD>(&(), cursor)?;
    let end_z = parse_code::<CodeDD>(&start_z, cursor)?;
    Some((start_z, end_z))
}

/// Reads both ends of a line, as they are parsed after z-zero.
fn read_newer_ends(cursor: &mut BitCursor<'_>) -> Option<(Point3, Point3)>
    ensures parsed { Parses newer_ends (option_map ends_read result) cursor.old cursor.new }
    ensures kept { Keeps cursor.old cursor.new }
{
    let z_zero = parse_code::<CodeB>(&(), cursor)?;
    let start_x = parse_code::<CodeRD>(&(), cursor)?;
    let end_x = parse_code::<CodeDD>(&start_x, cursor)?;
    let start_y = parse_code::<CodeRD>(&(), cursor)?;
    let end_y = parse_code::<CodeDD>(&start_y, cursor)?;
    let z = read_heights(z_zero, cursor)?;
    let start = Point3 {
        x: start_x,
        y: start_y,
        z: z.0,
    };
    let end = Point3 {
        x: end_x,
        y: end_y,
        z: z.1,
    };
    Some((start, end))
}

/// Reads both ends of a line, as they are parsed.
fn read_ends(version: Version, cursor: &mut BitCursor<'_>) -> Option<(Point3, Point3)>
    ensures parsed { Parses (line_ends version) (option_map ends_read result) cursor.old cursor.new }
    ensures kept { Keeps cursor.old cursor.new }
{
    match version {
        Version::Ac1014 => {
            let start = parse_code::<Code3BD>(&(), cursor)?;
            let end = parse_code::<Code3BD>(&(), cursor)?;
            Some((start, end))
        }
        Version::Ac1015 => read_newer_ends(cursor),
    }
}

/// Reads a line, as it is parsed.
#[tactic(auto, unfolding(crate::specs::Lines::line_main))]
fn read_line(version: Version, cursor: &mut BitCursor<'_>) -> Option<Line>
    ensures parsed { Parses (line_main version) result cursor.old cursor.new }
    ensures kept { Keeps cursor.old cursor.new }
{
    let ends = read_ends(version, cursor)?;
    let thickness = parse_code::<CodeThickness>(&version, cursor)?;
    let extrusion = parse_code::<CodeExtrusion>(&version, cursor)?;
    Some(Line {
        start: ends.0,
        end: ends.1,
        thickness,
        extrusion,
    })
}

/// Whether both z words are 0; then they aren't written.
fn is_flat(line: &Line) -> bool
    ensures { result ≡ is_flat (ends_of line.now) }
{
    if line.start.z != 0 {
        return false;
    }
    line.end.z == 0
}

/// How many bits the z words of both ends are written by.
fn heights_bits(z_zero: bool, start_z: u64, end_z: u64) -> u64
    ensures length { result ≡ length ((heights z_zero).short (start_z, end_z)) }
    ensures few { result < 2 ^ 33 }
{
    if z_zero {
        return 0;
    }
    CodeRD::length(&(), &start_z) + CodeDD::length(&start_z, &end_z)
}

/// Writes the z words of both ends: none where z-zero is 1.
fn write_heights(z_zero: bool, start_z: u64, end_z: u64, sink: &mut BitSink)
    requires { length ((heights z_zero).short (start_z, end_z)) ≤ sink.old.spare }
    ensures { Extends sink.old sink.new ((heights z_zero).short (start_z, end_z)) }
{
    if z_zero {
        return;
    }
    CodeRD::write(&(), &start_z, sink);
    CodeDD::write(&start_z, &end_z, sink);
}

/// Both ends of a line have a spelling.
#[tactic(auto, using(crate::specs::EndLaws::ends_value))]
fn known_ends(line: &Line, version: Version)
    ensures { (line_ends version).IsValue (ends_of line.now) }
{
    let _newer = version.is_newer();
    point_with_range(&line.start);
    point_with_range(&line.end);
}

/// How many bits the ends of a line are written by after z-zero.
fn newer_ends_bits(line: &Line) -> u64
    ensures length { result ≡ length (newer_ends.short (ends_of line.now)) }
    ensures few { result < 2 ^ 36 }
{
    point_with_range(&line.start);
    point_with_range(&line.end);
    let z_zero = is_flat(line);
    CodeB::length(&(), &z_zero)
        + CodeRD::length(&(), &line.start.x)
        + CodeDD::length(&line.start.x, &line.end.x)
        + CodeRD::length(&(), &line.start.y)
        + CodeDD::length(&line.start.y, &line.end.y)
        + heights_bits(z_zero, line.start.z, line.end.z)
}

/// How many bits the ends of a line are written by in AC1014.
fn older_ends_bits(line: &Line) -> u64
    ensures length { result ≡ length (older_ends.short (ends_of line.now)) }
    ensures few { result < 2 ^ 36 }
{
    point_with_range(&line.start);
    point_with_range(&line.end);
    Code3BD::length(&(), &line.start) + Code3BD::length(&(), &line.end)
}

/// How many bits the ends of a line are written by.
fn ends_bits(line: &Line, version: Version) -> u64
    ensures length { result ≡ length ((line_ends version).short (ends_of line.now)) }
    ensures few { result < 2 ^ 37 }
{
    match version {
        Version::Ac1014 => older_ends_bits(line),
        Version::Ac1015 => newer_ends_bits(line),
    }
}

/// Writes the ends of a line after z-zero.
fn write_newer_ends(line: &Line, sink: &mut BitSink)
    requires room { length (newer_ends.short (ends_of line.now)) ≤ sink.old.spare }
    ensures { Extends sink.old sink.new (newer_ends.short (ends_of line.now)) }
{
    point_with_range(&line.start);
    point_with_range(&line.end);
    let z_zero = is_flat(line);
    CodeB::write(&(), &z_zero, sink);
    CodeRD::write(&(), &line.start.x, sink);
    CodeDD::write(&line.start.x, &line.end.x, sink);
    CodeRD::write(&(), &line.start.y, sink);
    CodeDD::write(&line.start.y, &line.end.y, sink);
    write_heights(z_zero, line.start.z, line.end.z, sink);
}

/// Writes the ends of a line in AC1014.
fn write_older_ends(line: &Line, sink: &mut BitSink)
    requires room { length (older_ends.short (ends_of line.now)) ≤ sink.old.spare }
    ensures { Extends sink.old sink.new (older_ends.short (ends_of line.now)) }
{
    point_with_range(&line.start);
    point_with_range(&line.end);
    Code3BD::write(&(), &line.start, sink);
    Code3BD::write(&(), &line.end, sink);
}

/// Writes the ends of a line.
fn write_ends(line: &Line, version: Version, sink: &mut BitSink)
    requires room { length ((line_ends version).short (ends_of line.now)) ≤ sink.old.spare }
    ensures { Extends sink.old sink.new ((line_ends version).short (ends_of line.now)) }
{
    match version {
        Version::Ac1014 => write_older_ends(line, sink),
        Version::Ac1015 => write_newer_ends(line, sink),
    }
}

impl BodyCode for Line {
    ghost grammar = { λ layout. line_body layout.version };

    fn parse(
        _alloc: Global,
        layout: Layout,
        main: &mut BitCursor<'_>,
        _refs: &mut BitCursor<'_>,
        _base: Handle,
    ) -> Result<Option<Line>, NoMemory> {
        Ok(read_line(layout.version, main))
    }

    #[tactic(auto, unfolding(crate::specs::Lines::line_main))]
    fn fits_in(&self, layout: Layout, _base: Handle) -> bool {
        known_ends(self, layout.version);
        known_thickness(layout.version, self.thickness);
        known_extrusion(layout.version, &self.extrusion);
        true
    }

    #[tactic(auto, unfolding(crate::specs::Lines::line_main))]
    fn lengths_in(&self, layout: Layout, _base: Handle) -> Lengths {
        Lengths {
            main: ends_bits(self, layout.version)
                + CodeThickness::length(&layout.version, &self.thickness)
                + CodeExtrusion::length(&layout.version, &self.extrusion),
            refs: 0,
        }
    }

    #[tactic(auto, unfolding(crate::specs::Lines::line_main))]
    fn write_main_in(&self, layout: Layout, _base: Handle, sink: &mut BitSink) {
        write_ends(self, layout.version, sink);
        CodeThickness::write(&layout.version, &self.thickness, sink);
        CodeExtrusion::write(&layout.version, &self.extrusion, sink);
    }

    fn write_refs_in(&self, _layout: Layout, _base: Handle, _sink: &mut BitSink) {}

    ghost laws = { λ layout base few small. line_is_body layout.version base };
}

impl BodyCode14 for Line {
    ghost narrower = { line_narrower };

    ghost sizes_alike = { λ size base value. same_alike (line_body Ac1014 base) value };
}
