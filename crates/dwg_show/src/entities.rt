//! The fields of texts, attributes, inserts and the marks of blocks, in the order of their structs.

ghost use Rattle.dwg_show.specs.BodyFields as fields;

use crate::fields::{Print, print_member};
use dwg_base::Sink;
use dwg_entities::{Attdef, Attrib, Attributes, Block, EndBlk, Insert, MInsert, SeqEnd, Text};
use dwg_text::TextWriter;

impl Print for Text {
    ghost lines = { fields.text_fields };

    #[tactic(auto, using(dwg_text::proofs::Writing::writes_more), unfolding(crate::specs::BodyFields::text_fields))]
    fn print<W: Sink>(&self, path: &str, writer: &mut TextWriter, sink: &mut W) {
        print_member(&self.elevation, path, "elevation", writer, sink);
        print_member(&self.insertion, path, "insertion", writer, sink);
        print_member(&self.alignment, path, "alignment", writer, sink);
        print_member(&self.extrusion, path, "extrusion", writer, sink);
        print_member(&self.thickness, path, "thickness", writer, sink);
        print_member(&self.oblique, path, "oblique", writer, sink);
        print_member(&self.rotation, path, "rotation", writer, sink);
        print_member(&self.height, path, "height", writer, sink);
        print_member(&self.width, path, "width", writer, sink);
        print_member(&self.text, path, "text", writer, sink);
        print_member(&self.generation, path, "generation", writer, sink);
        print_member(&self.horizontal, path, "horizontal", writer, sink);
        print_member(&self.vertical, path, "vertical", writer, sink);
        print_member(&self.style, path, "style", writer, sink);
    }
}

impl Print for Attrib {
    ghost lines = { fields.attrib_fields };

    #[tactic(auto, using(dwg_text::proofs::Writing::writes_more), unfolding(crate::specs::BodyFields::attrib_fields))]
    fn print<W: Sink>(&self, path: &str, writer: &mut TextWriter, sink: &mut W) {
        print_member(&self.text, path, "text", writer, sink);
        print_member(&self.tag, path, "tag", writer, sink);
        print_member(&self.length, path, "length", writer, sink);
        print_member(&self.flags, path, "flags", writer, sink);
    }
}

impl Print for Attdef {
    ghost lines = { fields.attdef_fields };

    #[tactic(auto, using(dwg_text::proofs::Writing::writes_more), unfolding(crate::specs::BodyFields::attdef_fields))]
    fn print<W: Sink>(&self, path: &str, writer: &mut TextWriter, sink: &mut W) {
        print_member(&self.attrib, path, "attrib", writer, sink);
        print_member(&self.prompt, path, "prompt", writer, sink);
    }
}

impl Print for Attributes {
    ghost lines = { fields.attributes_fields };

    #[tactic(auto, using(dwg_text::proofs::Writing::writes_more), unfolding(crate::specs::BodyFields::attributes_fields))]
    fn print<W: Sink>(&self, path: &str, writer: &mut TextWriter, sink: &mut W) {
        print_member(&self.first, path, "first", writer, sink);
        print_member(&self.last, path, "last", writer, sink);
        print_member(&self.seqend, path, "seqend", writer, sink);
    }
}

impl Print for Insert {
    ghost lines = { fields.insert_fields };

    #[tactic(auto, using(dwg_text::proofs::Writing::writes_more), unfolding(crate::specs::BodyFields::insert_fields))]
    fn print<W: Sink>(&self, path: &str, writer: &mut TextWriter, sink: &mut W) {
        print_member(&self.place, path, "place", writer, sink);
        print_member(&self.scale, path, "scale", writer, sink);
        print_member(&self.rotation, path, "rotation", writer, sink);
        print_member(&self.extrusion, path, "extrusion", writer, sink);
        print_member(&self.block, path, "block", writer, sink);
        print_member(&self.attributes, path, "attributes", writer, sink);
    }
}

impl Print for MInsert {
    ghost lines = { fields.minsert_fields };

    #[tactic(auto, unfolding(crate::specs::BodyFields::minsert_fields))]
    fn print<W: Sink>(&self, path: &str, writer: &mut TextWriter, sink: &mut W) {
        print_member(&self.insert, path, "insert", writer, sink);
        print_member(&self.columns, path, "columns", writer, sink);
        print_member(&self.rows, path, "rows", writer, sink);
        print_member(&self.column_spacing, path, "column_spacing", writer, sink);
        print_member(&self.row_spacing, path, "row_spacing", writer, sink);
    }
}

impl Print for Block {
    ghost lines = { fields.block_fields };

    #[tactic(auto, using(dwg_text::proofs::Writing::writes_more), unfolding(crate::specs::BodyFields::block_fields))]
    fn print<W: Sink>(&self, path: &str, writer: &mut TextWriter, sink: &mut W) {
        print_member(&self.name, path, "name", writer, sink);
    }
}

impl Print for EndBlk {
    ghost lines = { fields.endblk_fields };

    #[tactic(auto, using(dwg_text::proofs::Writing::writes_nothing), unfolding(crate::specs::BodyFields::endblk_fields))]
    fn print<W: Sink>(&self, _path: &str, _page: &mut TextWriter, _sink: &mut W) {}
}

impl Print for SeqEnd {
    ghost lines = { fields.seqend_fields };

    #[tactic(auto, using(dwg_text::proofs::Writing::writes_nothing), unfolding(crate::specs::BodyFields::seqend_fields))]
    fn print<W: Sink>(&self, _path: &str, _page: &mut TextWriter, _sink: &mut W) {}
}
