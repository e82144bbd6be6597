//! The fields of entries of tables, in the order of their structs.

ghost use Rattle.dwg_show.specs.BodyFields as fields;

use crate::bytes::print_bytes;
use crate::fields::{Print, print_member};
use dwg_base::Sink;
use dwg_tables::{AppId, BlockHeader, Dash, Ends, Entry, InsertMark, Layer, Ltype, Style};
use dwg_text::TextWriter;

impl Print for Entry {
    ghost lines = { fields.entry_fields };

    #[tactic(auto, using(dwg_text::proofs::Writing::writes_more), unfolding(crate::specs::BodyFields::entry_fields))]
    fn print<W: Sink>(&self, path: &str, writer: &mut TextWriter, sink: &mut W) {
        print_member(&self.name, path, "name", writer, sink);
        print_member(&self.flag64, path, "flag64", writer, sink);
        print_member(&self.xref_index, path, "xref_index", writer, sink);
        print_member(&self.xref_dependent, path, "xref_dependent", writer, sink);
        print_member(&self.xref, path, "xref", writer, sink);
    }
}

impl Print for Layer {
    ghost lines = { fields.layer_fields };

    #[tactic(auto, using(dwg_text::proofs::Writing::writes_more), unfolding(crate::specs::BodyFields::layer_fields))]
    fn print<W: Sink>(&self, path: &str, writer: &mut TextWriter, sink: &mut W) {
        print_member(&self.entry, path, "entry", writer, sink);
        print_member(&self.values, path, "values", writer, sink);
        print_member(&self.colour, path, "colour", writer, sink);
        print_member(&self.plotstyle, path, "plotstyle", writer, sink);
        print_member(&self.linetype, path, "linetype", writer, sink);
    }
}

impl Print for Style {
    ghost lines = { fields.style_fields };

    #[tactic(auto, using(dwg_text::proofs::Writing::writes_more), unfolding(crate::specs::BodyFields::style_fields))]
    fn print<W: Sink>(&self, path: &str, writer: &mut TextWriter, sink: &mut W) {
        print_member(&self.entry, path, "entry", writer, sink);
        print_member(&self.flag_a, path, "flag_a", writer, sink);
        print_member(&self.flag_b, path, "flag_b", writer, sink);
        print_member(&self.height, path, "height", writer, sink);
        print_member(&self.width, path, "width", writer, sink);
        print_member(&self.oblique, path, "oblique", writer, sink);
        print_member(&self.generation, path, "generation", writer, sink);
        print_member(&self.last_height, path, "last_height", writer, sink);
        print_member(&self.font, path, "font", writer, sink);
        print_member(&self.big_font, path, "big_font", writer, sink);
    }
}

impl Print for Dash {
    ghost lines = { fields.dash_fields };

    #[tactic(auto, using(dwg_text::proofs::Writing::writes_more), unfolding(crate::specs::BodyFields::dash_fields))]
    fn print<W: Sink>(&self, path: &str, writer: &mut TextWriter, sink: &mut W) {
        print_member(&self.length, path, "length", writer, sink);
        print_member(&self.code, path, "code", writer, sink);
        print_member(&self.x, path, "x", writer, sink);
        print_member(&self.y, path, "y", writer, sink);
        print_member(&self.scale, path, "scale", writer, sink);
        print_member(&self.rotation, path, "rotation", writer, sink);
        print_member(&self.flag, path, "flag", writer, sink);
        print_member(&self.style, path, "style", writer, sink);
    }
}

impl Print for Ltype {
    ghost lines = { fields.ltype_fields };

    #[tactic(auto, using(dwg_text::proofs::Writing::writes_more), unfolding(crate::specs::BodyFields::ltype_fields))]
    fn print<W: Sink>(&self, path: &str, writer: &mut TextWriter, sink: &mut W) {
        print_member(&self.entry, path, "entry", writer, sink);
        print_member(&self.description, path, "description", writer, sink);
        print_member(&self.length, path, "length", writer, sink);
        print_member(&self.alignment, path, "alignment", writer, sink);
        print_member(&self.dashes, path, "dashes", writer, sink);
        print_bytes(&self.texts, path, "texts", writer, sink);
    }
}

impl Print for AppId {
    ghost lines = { fields.app_id_fields };

    #[tactic(auto, using(dwg_text::proofs::Writing::writes_more), unfolding(crate::specs::BodyFields::app_id_fields))]
    fn print<W: Sink>(&self, path: &str, writer: &mut TextWriter, sink: &mut W) {
        print_member(&self.entry, path, "entry", writer, sink);
        print_member(&self.extra, path, "extra", writer, sink);
    }
}

impl Print for InsertMark {
    ghost lines = { fields.insert_mark_fields };

    #[tactic(auto, using(dwg_text::proofs::Writing::writes_more), unfolding(crate::specs::BodyFields::insert_mark_fields))]
    fn print<W: Sink>(&self, path: &str, writer: &mut TextWriter, sink: &mut W) {
        print_member(&self.count, path, "count", writer, sink);
        print_member(&self.target, path, "target", writer, sink);
    }
}

impl Print for Ends {
    ghost lines = { fields.ends_fields };

    #[tactic(auto, using(dwg_text::proofs::Writing::writes_more), unfolding(crate::specs::BodyFields::ends_fields))]
    fn print<W: Sink>(&self, path: &str, writer: &mut TextWriter, sink: &mut W) {
        print_member(&self.first, path, "first", writer, sink);
        print_member(&self.last, path, "last", writer, sink);
    }
}

impl Print for BlockHeader {
    ghost lines = { fields.block_header_fields };

    #[tactic(auto, using(dwg_text::proofs::Writing::writes_more), unfolding(crate::specs::BodyFields::block_header_fields))]
    fn print<W: Sink>(&self, path: &str, writer: &mut TextWriter, sink: &mut W) {
        print_member(&self.entry, path, "entry", writer, sink);
        print_member(&self.anonymous, path, "anonymous", writer, sink);
        print_member(&self.has_attributes, path, "has_attributes", writer, sink);
        print_member(&self.is_xref, path, "is_xref", writer, sink);
        print_member(&self.overlaid, path, "overlaid", writer, sink);
        print_member(&self.loaded, path, "loaded", writer, sink);
        print_member(&self.base, path, "base", writer, sink);
        print_member(&self.path, path, "path", writer, sink);
        print_member(&self.inserts, path, "inserts", writer, sink);
        print_member(&self.description, path, "description", writer, sink);
        print_bytes(&self.preview, path, "preview", writer, sink);
        print_member(&self.block, path, "block", writer, sink);
        print_member(&self.ends, path, "ends", writer, sink);
        print_member(&self.endblk, path, "endblk", writer, sink);
        print_member(&self.layout, path, "layout", writer, sink);
    }
}
