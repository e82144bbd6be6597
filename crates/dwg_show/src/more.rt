//! The fields of ellipses, rays, solids, faces, polylines and vertices in space, and groups, in the order of their structs.

ghost use Rattle.dwg_show.specs.BodyFields as fields;

use crate::fields::{Print, print_member};
use dwg_base::Sink;
use dwg_more::{Ellipse, Face3d, Group, Polyline3d, Ray, Solid, Trace, Vertex3d, XLine};
use dwg_text::TextWriter;

impl Print for Vertex3d {
    ghost lines = { fields.vertex_fields };

    #[tactic(auto, using(dwg_text::proofs::Writing::writes_more), unfolding(crate::specs::BodyFields::vertex_fields))]
    fn print<W: Sink>(&self, path: &str, writer: &mut TextWriter, sink: &mut W) {
        print_member(&self.flags, path, "flags", writer, sink);
        print_member(&self.place, path, "place", writer, sink);
    }
}

impl Print for Polyline3d {
    ghost lines = { fields.polyline_fields };

    #[tactic(auto, using(dwg_text::proofs::Writing::writes_more), unfolding(crate::specs::BodyFields::polyline_fields))]
    fn print<W: Sink>(&self, path: &str, writer: &mut TextWriter, sink: &mut W) {
        print_member(&self.flags_a, path, "flags_a", writer, sink);
        print_member(&self.flags_b, path, "flags_b", writer, sink);
        print_member(&self.first, path, "first", writer, sink);
        print_member(&self.last, path, "last", writer, sink);
        print_member(&self.seqend, path, "seqend", writer, sink);
    }
}

impl Print for Face3d {
    ghost lines = { fields.face_fields };

    #[tactic(auto, using(dwg_text::proofs::Writing::writes_more), unfolding(crate::specs::BodyFields::face_fields))]
    fn print<W: Sink>(&self, path: &str, writer: &mut TextWriter, sink: &mut W) {
        print_member(&self.first, path, "first", writer, sink);
        print_member(&self.second, path, "second", writer, sink);
        print_member(&self.third, path, "third", writer, sink);
        print_member(&self.fourth, path, "fourth", writer, sink);
        print_member(&self.invisible, path, "invisible", writer, sink);
    }
}

impl Print for Solid {
    ghost lines = { fields.solid_fields };

    #[tactic(auto, using(dwg_text::proofs::Writing::writes_more), unfolding(crate::specs::BodyFields::solid_fields))]
    fn print<W: Sink>(&self, path: &str, writer: &mut TextWriter, sink: &mut W) {
        print_member(&self.thickness, path, "thickness", writer, sink);
        print_member(&self.elevation, path, "elevation", writer, sink);
        print_member(&self.first, path, "first", writer, sink);
        print_member(&self.second, path, "second", writer, sink);
        print_member(&self.third, path, "third", writer, sink);
        print_member(&self.fourth, path, "fourth", writer, sink);
        print_member(&self.extrusion, path, "extrusion", writer, sink);
    }
}

impl Print for Trace {
    ghost lines = { fields.trace_fields };

    #[tactic(auto, using(dwg_text::proofs::Writing::writes_more), unfolding(crate::specs::BodyFields::trace_fields))]
    fn print<W: Sink>(&self, path: &str, writer: &mut TextWriter, sink: &mut W) {
        print_member(&self.thickness, path, "thickness", writer, sink);
        print_member(&self.elevation, path, "elevation", writer, sink);
        print_member(&self.first, path, "first", writer, sink);
        print_member(&self.second, path, "second", writer, sink);
        print_member(&self.third, path, "third", writer, sink);
        print_member(&self.fourth, path, "fourth", writer, sink);
        print_member(&self.extrusion, path, "extrusion", writer, sink);
    }
}

impl Print for Ellipse {
    ghost lines = { fields.ellipse_fields };

    #[tactic(auto, using(dwg_text::proofs::Writing::writes_more), unfolding(crate::specs::BodyFields::ellipse_fields))]
    fn print<W: Sink>(&self, path: &str, writer: &mut TextWriter, sink: &mut W) {
        print_member(&self.centre, path, "centre", writer, sink);
        print_member(&self.axis, path, "axis", writer, sink);
        print_member(&self.extrusion, path, "extrusion", writer, sink);
        print_member(&self.ratio, path, "ratio", writer, sink);
        print_member(&self.start_angle, path, "start_angle", writer, sink);
        print_member(&self.end_angle, path, "end_angle", writer, sink);
    }
}

impl Print for Ray {
    ghost lines = { fields.ray_fields };

    #[tactic(auto, using(dwg_text::proofs::Writing::writes_more), unfolding(crate::specs::BodyFields::ray_fields))]
    fn print<W: Sink>(&self, path: &str, writer: &mut TextWriter, sink: &mut W) {
        print_member(&self.point, path, "point", writer, sink);
        print_member(&self.vector, path, "vector", writer, sink);
    }
}

impl Print for XLine {
    ghost lines = { fields.xline_fields };

    #[tactic(auto, using(dwg_text::proofs::Writing::writes_more), unfolding(crate::specs::BodyFields::xline_fields))]
    fn print<W: Sink>(&self, path: &str, writer: &mut TextWriter, sink: &mut W) {
        print_member(&self.point, path, "point", writer, sink);
        print_member(&self.vector, path, "vector", writer, sink);
    }
}

impl Print for Group {
    ghost lines = { fields.group_fields };

    #[tactic(auto, using(dwg_text::proofs::Writing::writes_more), unfolding(crate::specs::BodyFields::group_fields))]
    fn print<W: Sink>(&self, path: &str, writer: &mut TextWriter, sink: &mut W) {
        print_member(&self.name, path, "name", writer, sink);
        print_member(&self.unnamed, path, "unnamed", writer, sink);
        print_member(&self.selectable, path, "selectable", writer, sink);
        print_member(&self.entries, path, "entries", writer, sink);
    }
}
