//! Ellipses, rays and lines without ends, solids and traces, faces, polylines and vertices in space, and groups.

use crate::tests::fields::{
    Fields, put_plane, put_ref, put_refs, put_some, put_space, put_text, wide,
};
use crate::tests::table::{Body, own};
use dwg_more::{Ellipse, Face3d, Group, Polyline3d, Ray, Solid, Trace, Vertex3d, XLine};
use dwg_testkit::{Report, hold};
use std::test::Fail;

impl Fields for Ellipse {
    fn put(&self, report: &mut Report) {
        put_space(report, &self.centre);
        put_space(report, &self.axis);
        put_space(report, &self.extrusion);
        report.hexes(&[self.ratio, self.start_angle, self.end_angle]);
    }
}

/// Centre, axis, extrusion, ratio, start and end angles: in 24 bits, and the same by longer codes; cut short; every number another one.
#[test]
fn ellipses_are_reported_and_written(rt: HostRuntime) -> Result<(), Fail> {
    let cases = "
        A9 AA 59 / - | = | 0 0 0 x3FF^ 0 0 0 0 x3FF^ x3FF^ 0 x3FF^
        '10 '10 '10 '00 ^F03F '10 '10 '00 ^ '10 '01 '01 '10 '00 ^F03F / - | A9 AA 59 / - | 0 0 0 x3FF^ 0 0 0 0 x3FF^ x3FF^ 0 x3FF^
        A9 AA '010110 / - | none
        '00 01^ '00 02^ '00 03^ '00 04^ '00 05^ '00 06^ '00 07^ '00 08^ '00 09^ '00 0A^ '00 0B^ '00 0C^ / - | = | 1 2 3 4 5 6 7 8 9 xA xB xC";
    hold::<Body<Ellipse>>(rt.alloc(), cases)
}

impl Fields for Ray {
    fn put(&self, report: &mut Report) {
        put_space(report, &self.point);
        put_space(report, &self.vector);
    }
}

impl Fields for XLine {
    fn put(&self, report: &mut Report) {
        put_space(report, &self.point);
        put_space(report, &self.vector);
    }
}

/// Point, vector: of each of the two the second is cut short, and in the third every number is another one.
#[test]
fn rays_and_lines_without_ends_are_reported_and_written(rt: HostRuntime) -> Result<(), Fail> {
    let rays = "
        '01 '10 '10 '10 '10 '01 / - | = | x3FF^ 0 0 0 0 x3FF^
        '01 '10 '10 '10 '10 '00 00000000000000 / - | none
        '00 01^ '00 02^ '00 03^ '00 04^ '00 05^ '00 06^ / - | = | 1 2 3 4 5 6";
    let x_lines = "
        '01 '10 '10 '10 '10 '01 / - | = | x3FF^ 0 0 0 0 x3FF^
        '01 '10 '10 '10 '10 '00 00000000000000 / - | none
        '00 01^ '00 02^ '00 03^ '00 04^ '00 05^ '00 06^ / - | = | 1 2 3 4 5 6";
    hold::<Body<Ray>>(rt.alloc(), rays)?;
    hold::<Body<XLine>>(rt.alloc(), x_lines)
}

impl Fields for Solid {
    fn put(&self, report: &mut Report) {
        report.hexes(&[self.thickness, self.elevation]);
        put_plane(report, &self.first);
        put_plane(report, &self.second);
        put_plane(report, &self.third);
        put_plane(report, &self.fourth);
        put_space(report, &self.extrusion);
    }
}

impl Fields for Trace {
    fn put(&self, report: &mut Report) {
        report.hexes(&[self.thickness, self.elevation]);
        put_plane(report, &self.first);
        put_plane(report, &self.second);
        put_plane(report, &self.third);
        put_plane(report, &self.fourth);
        put_space(report, &self.extrusion);
    }
}

/// Thickness, elevation, the four corners, extrusion: by the shortest codes, and of the solid the same by longer ones; cut short; every
/// number another one.
#[test]
fn solids_and_traces_are_reported_and_written(rt: HostRuntime) -> Result<(), Fail> {
    let solids = "
        '1 '10 ^ ^ ^F03F ^ ^ ^F03F ^F03F ^F03F '1 / - | = | 0 0 0 0 x3FF^ 0 0 x3FF^ x3FF^ x3FF^ 0 0 x3FF^
        '0 '10 '00 ^F03F ^ ^ ^F03F ^ ^ ^F03F ^F03F ^F03F '0 '10 '10 '01 / - | '1 '01 ^ ^ ^F03F ^ ^ ^F03F ^F03F ^F03F '1 / - \
            | 0 x3FF^ 0 0 x3FF^ 0 0 x3FF^ x3FF^ x3FF^ 0 0 x3FF^
        '1 '10 ^ ^ ^F03F ^ ^ ^F03F ^F03F ^ / - | none
        '0 '00 01^ '00 02^ 03^ 04^ 05^ 06^ 07^ 08^ 09^ 0A^ '0 '00 0B^ '00 0C^ '00 0D^ / - | = | 1 2 3 4 5 6 7 8 9 xA xB xC xD";
    let traces = "
        '1 '10 ^ ^ ^F03F ^ ^ ^F03F ^F03F ^F03F '1 / - | = | 0 0 0 0 x3FF^ 0 0 x3FF^ x3FF^ x3FF^ 0 0 x3FF^
        '1 '10 ^ ^ ^F03F ^ ^ ^F03F ^F03F ^ / - | none
        '0 '00 01^ '00 02^ 03^ 04^ 05^ 06^ 07^ 08^ 09^ 0A^ '0 '00 0B^ '00 0C^ '00 0D^ / - | = | 1 2 3 4 5 6 7 8 9 xA xB xC xD";
    hold::<Body<Solid>>(rt.alloc(), solids)?;
    hold::<Body<Trace>>(rt.alloc(), traces)
}

impl Fields for Face3d {
    fn put(&self, report: &mut Report) {
        put_space(report, &self.first);
        put_space(report, &self.second);
        put_space(report, &self.third);
        put_space(report, &self.fourth);
        put_some(report, &[wide(self.invisible)]);
    }
}

/// The four corners, and which edges aren't seen: without flags; with flags, also with those that are 0; each corner against the one before
/// it; the first z the word of negative zero, which isn't 0; the first z by its word 0, and the same without it; flags cut short; every
/// number another one.
#[test]
fn faces_are_reported_and_written(rt: HostRuntime) -> Result<(), Fail> {
    let cases = "
        '1 '1 ^F03F ^ '000000 '000000 '000000 / - | = | x3FF^ 0 0 x3FF^ 0 0 x3FF^ 0 0 x3FF^ 0 0 -
        '0 '1 ^F03F ^ '000000 '000000 '000000 '01 05 / - | = | x3FF^ 0 0 x3FF^ 0 0 x3FF^ 0 0 x3FF^ 0 0 5
        '0 '1 ^F03F ^ '000000 '000000 '000000 '10 / - | = | x3FF^ 0 0 x3FF^ 0 0 x3FF^ 0 0 x3FF^ 0 0 0
        '1 '0 ^F03F ^40 ^0840 '11 ^40 '00 '00 '00 '11 ^F03F '00 '00 '00 '11 ^ / - | = | x3FF^ x4^ x4008^ x4^ x4^ x4008^ x4^ x3FF^ x4008^ x4^ x3FF^ 0 -
        '1 '0 ^F03F ^ ^80 '000000 '000000 '000000 / - | = | x3FF^ 0 x8^ x3FF^ 0 x8^ x3FF^ 0 x8^ x3FF^ 0 x8^ -
        '1 '0 ^F03F ^ ^ '000000 '000000 '000000 / - | '1 '1 ^F03F ^ '000000 '000000 '000000 / - | x3FF^ 0 0 x3FF^ 0 0 x3FF^ 0 0 x3FF^ 0 0 -
        '0 '1 ^F03F ^ '000000 '000000 '000000 / - | none
        '0 '0 01^ 02^ 03^ '01 04000000 '01 05000000 '01 06000000 '01 07000000 '01 08000000 '01 09000000 '01 0A000000 '01 0B000000 '01 0C000000 '01 \
            0D / - | = | 1 2 3 4 5 6 7 8 9 xA xB xC xD";
    hold::<Body<Face3d>>(rt.alloc(), cases)
}

impl Fields for Polyline3d {
    fn put(&self, report: &mut Report) {
        report.hexes(&[u64::from(self.flags_a), u64::from(self.flags_b)]);
        put_ref(report, &self.first);
        put_ref(report, &self.last);
        put_ref(report, &self.seqend);
    }
}

impl Fields for Vertex3d {
    fn put(&self, report: &mut Report) {
        report.hexes(&[u64::from(self.flags)]);
        put_space(report, &self.place);
    }
}

/// Polylines: flags, first, last, seqend; the same by more bytes; cut short in both places. Vertices: flags, place; the second is cut
/// short. In the last of each every number is another one.
#[test]
fn polylines_and_vertices_in_space_are_reported_and_written(rt: HostRuntime) -> Result<(), Fail> {
    let polyline3ds = "
        00 01 / 4.81 4.85 3.86 | = | 0 1 4.81 4.85 3.86
        00 01 / 420081 43000085 320086 | 00 01 / 4.81 4.85 3.86 | 0 1 4.81 4.85 3.86
        00 / 4.81 4.85 3.86 | none
        00 01 / 4.81 4.85 | none
        02 03 / 4.61 5.62 3.63 | = | 2 3 4.61 5.62 3.63";
    let vertex3ds = "
        20 '01 '10 '00 ^40 / - | = | x20 x3FF^ 0 x4^
        20 '01 '10 '00 00000000000000 / - | none
        01 '00 02^ '00 03^ '00 04^ / - | = | 1 2 3 4";
    hold::<Body<Polyline3d>>(rt.alloc(), polyline3ds)?;
    hold::<Body<Vertex3d>>(rt.alloc(), vertex3ds)
}

impl Fields for Group {
    fn put(&self, report: &mut Report) {
        put_text(report, &self.name);
        report.hexes(&[u64::from(self.unnamed), u64::from(self.selectable)]);
        put_refs(report, self.entries.as_slice());
    }
}

/// Name, unnamed, selectable, entries: none; a name and two entries; one by longer codes; cut short in the name, before the count, and
/// among the entries; every number another one.
#[test]
fn groups_are_reported_and_written(rt: HostRuntime) -> Result<(), Fail> {
    let cases = "
        '10 '10 '10 '10 / - | = | '' 0 0 [ ]
        '01 05 4E4F544553 '01 01 '01 01 '01 02 / 5.81 5.82 | = | 'NOTES' 1 1 [ 5.81 5.82 ]
        '00 0100 61 '00 0000 '00 0100 '00 01000000 / 520081 | '01 01 61 '10 '01 01 '01 01 / 5.81 | 'a' 0 1 [ 5.81 ]
        '01 05 4E4F5445 / - | none
        '01 01 61 '01 01 '01 01 '000000 / - | none
        '01 01 61 '01 01 '01 01 '01 02 / 5.81 | none
        '01 02 6263 '01 02 '01 03 '01 02 / 2.61 3.62 | = | 'bc' 2 3 [ 2.61 3.62 ]";
    hold::<Body<Group>>(rt.alloc(), cases)
}

/// Code 6 reports the next handle and no other: of the objects 80 and 7F it is that of 81 in the first alone.
#[test]
fn polylines_and_groups_that_no_bits_report_do_not_fit(rt: HostRuntime) -> Result<(), Fail> {
    let polylines = "
        at x80 00 01 / 4.81 6.0 3.83 | yes
        at x7F 00 01 / 4.81 6.0 3.83 | no";
    let groups = "
        at x80 '10 '01 01 '01 01 '01 01 / 6.0 | yes
        at x7F '10 '01 01 '01 01 '01 01 / 6.0 | no";
    hold::<Body<Polyline3d>>(rt.alloc(), polylines)?;
    hold::<Body<Group>>(rt.alloc(), groups)
}
