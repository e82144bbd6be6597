//! The fields of shapes, in the order of their structs.

ghost use Rattle.dwg_show.specs.BodyFields as fields;

use crate::fields::{Print, print_member};
use dwg_base::Sink;
use dwg_shapes::{Arc, Circle, Line, LwPolyline, Point, Width};
use dwg_text::TextWriter;

impl Print for Line {
    ghost lines = { fields.line_fields };

    #[tactic(auto, using(dwg_text::proofs::Writing::writes_more), unfolding(crate::specs::BodyFields::line_fields))]
    fn print<W: Sink>(&self, path: &str, writer: &mut TextWriter, sink: &mut W) {
        print_member(&self.start, path, "start", writer, sink);
        print_member(&self.end, path, "end", writer, sink);
        print_member(&self.thickness, path, "thickness", writer, sink);
        print_member(&self.extrusion, path, "extrusion", writer, sink);
    }
}

impl Print for Point {
    ghost lines = { fields.point_fields };

    #[tactic(auto, using(dwg_text::proofs::Writing::writes_more), unfolding(crate::specs::BodyFields::point_fields))]
    fn print<W: Sink>(&self, path: &str, writer: &mut TextWriter, sink: &mut W) {
        print_member(&self.place, path, "place", writer, sink);
        print_member(&self.thickness, path, "thickness", writer, sink);
        print_member(&self.extrusion, path, "extrusion", writer, sink);
        print_member(&self.angle, path, "angle", writer, sink);
    }
}

impl Print for Circle {
    ghost lines = { fields.circle_fields };

    #[tactic(auto, using(dwg_text::proofs::Writing::writes_more), unfolding(crate::specs::BodyFields::circle_fields))]
    fn print<W: Sink>(&self, path: &str, writer: &mut TextWriter, sink: &mut W) {
        print_member(&self.centre, path, "centre", writer, sink);
        print_member(&self.radius, path, "radius", writer, sink);
        print_member(&self.thickness, path, "thickness", writer, sink);
        print_member(&self.extrusion, path, "extrusion", writer, sink);
    }
}

impl Print for Arc {
    ghost lines = { fields.arc_fields };

    #[tactic(auto, using(dwg_text::proofs::Writing::writes_more), unfolding(crate::specs::BodyFields::arc_fields))]
    fn print<W: Sink>(&self, path: &str, writer: &mut TextWriter, sink: &mut W) {
        print_member(&self.centre, path, "centre", writer, sink);
        print_member(&self.radius, path, "radius", writer, sink);
        print_member(&self.thickness, path, "thickness", writer, sink);
        print_member(&self.extrusion, path, "extrusion", writer, sink);
        print_member(&self.start_angle, path, "start_angle", writer, sink);
        print_member(&self.end_angle, path, "end_angle", writer, sink);
    }
}

impl Print for Width {
    ghost lines = { fields.width_fields };

    #[tactic(auto, using(dwg_text::proofs::Writing::writes_more), unfolding(crate::specs::BodyFields::width_fields))]
    fn print<W: Sink>(&self, path: &str, writer: &mut TextWriter, sink: &mut W) {
        print_member(&self.start, path, "start", writer, sink);
        print_member(&self.end, path, "end", writer, sink);
    }
}

impl Print for LwPolyline {
    ghost lines = { fields.lwpolyline_fields };

    #[tactic(auto, using(dwg_text::proofs::Writing::writes_more), unfolding(crate::specs::BodyFields::lwpolyline_fields))]
    fn print<W: Sink>(&self, path: &str, writer: &mut TextWriter, sink: &mut W) {
        print_member(&self.flag, path, "flag", writer, sink);
        print_member(&self.width, path, "width", writer, sink);
        print_member(&self.elevation, path, "elevation", writer, sink);
        print_member(&self.thickness, path, "thickness", writer, sink);
        print_member(&self.normal, path, "normal", writer, sink);
        print_member(&self.points, path, "points", writer, sink);
        print_member(&self.bulges, path, "bulges", writer, sink);
        print_member(&self.widths, path, "widths", writer, sink);
    }
}
