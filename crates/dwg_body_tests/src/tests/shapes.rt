//! Lines, points, circles, arcs and lightweight polylines.

use crate::tests::fields::{Fields, put_plane, put_some, put_space};
use crate::tests::table::BothVersions;
use dwg_base::Items;
use dwg_codes::{Point2, Point3};
use dwg_shapes::{Arc, Circle, Line, LwPolyline, Point, Width};
use dwg_testkit::{Report, hold};
use std::test::Fail;

impl Fields for Line {
    fn put(&self, report: &mut Report) {
        put_space(report, &self.start);
        put_space(report, &self.end);
        report.hexes(&[self.thickness]);
        put_space(report, &self.extrusion);
    }
}

impl Fields for Point {
    fn put(&self, report: &mut Report) {
        put_space(report, &self.place);
        report.hexes(&[self.thickness]);
        put_space(report, &self.extrusion);
        report.hexes(&[self.angle]);
    }
}

/// Lines: start, end, thickness, extrusion. From (1.0, 2.0, 0) to (1.0, 3.0, 0), and the same by the longest codes; from (1.0, 0, 3.0) to
/// (2.0, 0, 1.0) of thickness 2.0; cut short; every number another one. Points: place, thickness, extrusion, angle; the second is cut
/// short. In both versions, of lines: from (0, 0, 0) to (1.0, 0, 0) of the usual extrusion, which are the 20 bits A9AA9 in AC1014; every
/// number another one; cut short by a bit. Points: every number another one; of thickness 0 and the usual extrusion; cut short in the
/// angle.
#[test]
fn lines_and_points_are_reported_and_written(rt: HostRuntime) -> Result<(), Fail> {
    let lines = "
        '1 ^F03F '00 ^40 '11 ^0840 '1 '1 / - | = | x3FF^ x4^ 0 x3FF^ x4008^ 0 0 0 0 x3FF^
        '0 ^F03F '11 ^F03F ^40 '11 ^0840 ^ '00 '0 '00 ^ '0 '10 '10 '01 / - | '1 ^F03F '00 ^40 '11 ^0840 '1 '1 / - \
            | x3FF^ x4^ 0 x3FF^ x4008^ 0 0 0 0 x3FF^
        '0 ^F03F '11 ^40 ^ '00 ^0840 '11 ^F03F '0 '00 ^40 '0 '01 '10 '10 / - | = | x3FF^ 0 x4008^ x4^ 0 x3FF^ x4^ x3FF^ 0 0
        '1 ^F03F '00 ^40 '11 00000000000008 '010 / - | none
        '0 01^ '11 02^ 03^ '11 04^ 05^ '11 06^ '0 '00 07^ '0 '00 08^ '00 09^ '00 0A^ / - \
            | '0 01^ '01 02000000 03^ '01 04000000 05^ '01 06000000 '0 '00 07^ '0 '00 08^ '00 09^ '00 0A^ / - | 1 3 5 2 4 6 7 8 9 xA
        '1 ^ '11 ^F03F ^ '00 '1 '1 / - | = | A9AA9 / - | 0 0 0 x3FF^ 0 0 0 0 0 x3FF^
        '0 01^ '01 02000000 03^ '01 04000000 05^ '01 06000000 '0 '00 07^ '0 '00 08^ '00 09^ '00 0A^ / - | = \
            | '00 01^ '00 03^ '00 05^ '00 02^ '00 04^ '00 06^ '00 07^ '00 08^ '00 09^ '00 0A^ / - | 1 3 5 2 4 6 7 8 9 xA
        older A9AA '100 / - | none";
    let points = "
        '01 '10 '00 ^40 '1 '1 '00 ^0840 / - | = | '01 '10 '00 ^40 '10 '10 '10 '01 '00 ^0840 / - | x3FF^ 0 x4^ 0 0 0 x3FF^ x4008^
        '01 '10 '00 ^40 '1 '1 '00 00000000000008 '010000 / - | none
        '00 01^ '00 02^ '00 03^ '0 '00 04^ '0 '00 05^ '00 06^ '00 07^ '00 08^ / - | = \
            | '00 01^ '00 02^ '00 03^ '00 04^ '00 05^ '00 06^ '00 07^ '00 08^ / - | 1 2 3 4 5 6 7 8
        older '01 '10 '00 ^40 '10 '10 '10 '01 '00 00000000000008 / - | none";
    hold::<BothVersions<Line>>(rt.alloc(), lines)?;
    hold::<BothVersions<Point>>(rt.alloc(), points)
}

impl Fields for Circle {
    fn put(&self, report: &mut Report) {
        put_space(report, &self.centre);
        report.hexes(&[self.radius, self.thickness]);
        put_space(report, &self.extrusion);
    }
}

impl Fields for Arc {
    fn put(&self, report: &mut Report) {
        put_space(report, &self.centre);
        report.hexes(&[self.radius, self.thickness]);
        put_space(report, &self.extrusion);
        report.hexes(&[self.start_angle, self.end_angle]);
    }
}

/// Circles: centre, radius, thickness, extrusion. Arcs: the same, and the start and end angles. Of each the second is cut short, and in the
/// third every number is another one. In both versions, of each: every number another one; of thickness 0 and the usual extrusion; cut
/// short in the last number.
#[test]
fn circles_and_arcs_are_reported_and_written(rt: HostRuntime) -> Result<(), Fail> {
    let circles = "
        '01 '00 ^40 '10 '00 ^0840 '0 '01 '0 '10 '01 '10 / - | = | x3FF^ x4^ 0 x4008^ x3FF^ 0 x3FF^ 0
        '01 '00 ^40 '10 '00 ^0840 '0 '01 '0 '10 '01 / - | none
        '00 01^ '00 02^ '00 03^ '00 04^ '0 '00 05^ '0 '00 06^ '00 07^ '00 08^ / - | = \
            | '00 01^ '00 02^ '00 03^ '00 04^ '00 05^ '00 06^ '00 07^ '00 08^ / - | 1 2 3 4 5 6 7 8
        '01 '00 ^40 '10 '00 ^0840 '1 '1 / - | = | '01 '00 ^40 '10 '00 ^0840 '10 '10 '10 '01 / - | x3FF^ x4^ 0 x4008^ 0 0 0 x3FF^
        older '01 '00 ^40 '10 '00 ^0840 '10 '10 '10 / - | none";
    let arcs = "
        '01 '00 ^40 '10 '00 ^0840 '1 '1 '10 '01 / - | = | '01 '00 ^40 '10 '00 ^0840 '10 '10 '10 '01 '10 '01 / - \
            | x3FF^ x4^ 0 x4008^ 0 0 0 x3FF^ 0 x3FF^
        '01 '00 ^40 '10 '00 ^0840 / - | none
        '00 01^ '00 02^ '00 03^ '00 04^ '0 '00 05^ '0 '00 06^ '00 07^ '00 08^ '00 09^ '00 0A^ / - | = \
            | '00 01^ '00 02^ '00 03^ '00 04^ '00 05^ '00 06^ '00 07^ '00 08^ '00 09^ '00 0A^ / - | 1 2 3 4 5 6 7 8 9 xA
        older '01 '00 ^40 '10 '00 ^0840 '10 '10 '10 '01 '10 / - | none";
    hold::<BothVersions<Circle>>(rt.alloc(), circles)?;
    hold::<BothVersions<Arc>>(rt.alloc(), arcs)
}

/// Reports a point of space that may not be there.
fn put_normal(report: &mut Report, normal: Option<Point3>) {
    match normal {
        Some(point) => put_space(report, &point),
        None => report.word("-"),
    }
}

/// Reports a list of points.
fn put_points(report: &mut Report, points: &[Point2]) {
    report.word("[");
    for point in points {
        put_plane(report, point);
    }
    report.word("]");
}

/// Reports a list of numbers that may not be there.
fn put_bulges(report: &mut Report, bulges: &Option<Items<u64>>) {
    let Some(bulges) = bulges else {
        return report.word("-");
    };
    report.word("[");
    report.hexes(bulges.as_slice());
    report.word("]");
}

/// Reports a list of widths that may not be there.
fn put_widths(report: &mut Report, widths: &Option<Items<Width>>) {
    let Some(widths) = widths else {
        return report.word("-");
    };
    report.word("[");
    for width in widths.as_slice() {
        report.hexes(&[width.start, width.end]);
    }
    report.word("]");
}

impl Fields for LwPolyline {
    fn put(&self, report: &mut Report) {
        report.hexes(&[u64::from(self.flag)]);
        put_some(report, &[self.width, self.elevation, self.thickness]);
        put_normal(report, self.normal);
        put_points(report, self.points.as_slice());
        put_bulges(report, &self.bulges);
        put_widths(report, &self.widths);
    }
}

/// Flag, width, elevation, thickness, normal, points, bulges, widths: with every part, with none, with a bulge alone; cut short, and with a
/// count of 2^32 - 1 points of which none is there; every number another one. In both versions: with every part and every number another
/// one; of three points, of which each has a word of the one before it; of none; cut short in the last point, and with a count of 2^32 - 1
/// points of which none is there.
#[test]
fn lightweight_polylines_are_reported_and_written(rt: HostRuntime) -> Result<(), Fail> {
    let cases = "
        '00 FF01 '01 '00 ^40 '10 '10 '10 '01 '01 03 '01 01 '01 02 ^F03F ^40 '00 '11 ^0840 '11 ^0840 '00 '00 ^40 '10 '01 '01 '00 ^40 / - | = \
            | x1FF x3FF^ x4^ 0 0 0 x3FF^ [ x3FF^ x4^ x3FF^ x4008^ x4008^ x4008^ ] [ x4^ ] [ 0 x3FF^ x3FF^ x4^ ]
        '10 '10 / - | = | = | 0 - - - - [ ] - -
        '01 10 '10 '01 01 '01 / - | = | x10 - - - - [ ] [ x3FF^ ] -
        '00 FF01 '01 '00 ^40 '10 '10 '10 '01 '01 03 '01 01 '01 02 ^F03F ^40 '00 '11 ^0840 '11 ^0840 '00 '00 ^40 '10 '01 '01 '00 00000000000000 '01 / \
            - | none
        '10 '00 FFFFFFFF '0000 / - | none
        '00 3F02 '00 01^ '00 02^ '00 03^ '00 04^ '00 05^ '00 06^ '01 02 '01 01 '01 01 07^ 08^ '11 09^ '11 0A^ '00 0B^ '00 0C^ '00 0D^ / - \
            | '00 3F02 '00 01^ '00 02^ '00 03^ '00 04^ '00 05^ '00 06^ '01 02 '01 01 '01 01 07^ 08^ '01 09000000 '01 0A000000 '00 0B^ '00 0C^ '00 \
            0D^ / - | x23F 1 2 3 4 5 6 [ 7 8 9 xA ] [ xB ] [ xC xD ]
        '00 3F02 '00 01^ '00 02^ '00 03^ '00 04^ '00 05^ '00 06^ '01 02 '01 01 '01 01 07^ 08^ '01 09000000 '01 0A000000 '00 0B^ '00 0C^ '00 0D^ / - \
            | = | '00 3F02 '00 01^ '00 02^ '00 03^ '00 04^ '00 05^ '00 06^ '01 02 '01 01 '01 01 07^ 08^ 09^ 0A^ '00 0B^ '00 0C^ '00 0D^ / - \
            | x23F 1 2 3 4 5 6 [ 7 8 9 xA ] [ xB ] [ xC xD ]
        '10 '01 03 01^ 02^ '00 '01 03000000 '01 04000000 '00 / - | = | '10 '01 03 01^ 02^ 01^ 03^ 04^ 03^ / - | 0 - - - - [ 1 2 1 3 4 3 ] - -
        older '10 '01 02 01^ 02^ 03^ 04000000000000 / - | none
        older '10 '00 FFFFFFFF '0000 / - | none";
    hold::<BothVersions<LwPolyline>>(rt.alloc(), cases)
}
