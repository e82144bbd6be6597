//! The fields of controls, dictionaries and records, in the order of their structs.

ghost use Rattle.dwg_show.specs.BodyFields as fields;

use crate::bytes::print_bytes;
use crate::fields::{Print, print_member};
use dwg_base::Sink;
use dwg_dicts::{
    AppIdControl, BlockControl, DictItem, Dictionary, LayerControl, LtypeControl, StyleControl,
    XRecord,
};
use dwg_text::TextWriter;

impl Print for BlockControl {
    ghost lines = { fields.block_control_fields };

    #[tactic(auto, using(dwg_text::proofs::Writing::writes_more), unfolding(crate::specs::BodyFields::block_control_fields))]
    fn print<W: Sink>(&self, path: &str, writer: &mut TextWriter, sink: &mut W) {
        print_member(&self.entries, path, "entries", writer, sink);
        print_member(&self.model, path, "model", writer, sink);
        print_member(&self.paper, path, "paper", writer, sink);
    }
}

impl Print for LayerControl {
    ghost lines = { fields.layer_control_fields };

    #[tactic(auto, using(dwg_text::proofs::Writing::writes_more), unfolding(crate::specs::BodyFields::layer_control_fields))]
    fn print<W: Sink>(&self, path: &str, writer: &mut TextWriter, sink: &mut W) {
        print_member(&self.entries, path, "entries", writer, sink);
    }
}

impl Print for StyleControl {
    ghost lines = { fields.style_control_fields };

    #[tactic(auto, using(dwg_text::proofs::Writing::writes_more), unfolding(crate::specs::BodyFields::style_control_fields))]
    fn print<W: Sink>(&self, path: &str, writer: &mut TextWriter, sink: &mut W) {
        print_member(&self.entries, path, "entries", writer, sink);
    }
}

impl Print for LtypeControl {
    ghost lines = { fields.ltype_control_fields };

    #[tactic(auto, using(dwg_text::proofs::Writing::writes_more), unfolding(crate::specs::BodyFields::ltype_control_fields))]
    fn print<W: Sink>(&self, path: &str, writer: &mut TextWriter, sink: &mut W) {
        print_member(&self.entries, path, "entries", writer, sink);
        print_member(&self.first, path, "first", writer, sink);
        print_member(&self.second, path, "second", writer, sink);
    }
}

impl Print for AppIdControl {
    ghost lines = { fields.appid_control_fields };

    #[tactic(auto, using(dwg_text::proofs::Writing::writes_more), unfolding(crate::specs::BodyFields::appid_control_fields))]
    fn print<W: Sink>(&self, path: &str, writer: &mut TextWriter, sink: &mut W) {
        print_member(&self.entries, path, "entries", writer, sink);
    }
}

impl Print for DictItem {
    ghost lines = { fields.dict_item_fields };

    #[tactic(auto, using(dwg_text::proofs::Writing::writes_more), unfolding(crate::specs::BodyFields::dict_item_fields))]
    fn print<W: Sink>(&self, path: &str, writer: &mut TextWriter, sink: &mut W) {
        print_member(&self.name, path, "name", writer, sink);
        print_member(&self.target, path, "target", writer, sink);
    }
}

impl Print for Dictionary {
    ghost lines = { fields.dictionary_fields };

    #[tactic(auto, using(dwg_text::proofs::Writing::writes_more), unfolding(crate::specs::BodyFields::dictionary_fields))]
    fn print<W: Sink>(&self, path: &str, writer: &mut TextWriter, sink: &mut W) {
        print_member(&self.cloning, path, "cloning", writer, sink);
        print_member(&self.hard_owner, path, "hard_owner", writer, sink);
        print_member(&self.items, path, "items", writer, sink);
    }
}

impl Print for XRecord {
    ghost lines = { fields.xrecord_fields };

    #[tactic(auto, using(dwg_text::proofs::Writing::writes_more), unfolding(crate::specs::BodyFields::xrecord_fields))]
    fn print<W: Sink>(&self, path: &str, writer: &mut TextWriter, sink: &mut W) {
        print_bytes(&self.bytes, path, "bytes", writer, sink);
        print_member(&self.cloning, path, "cloning", writer, sink);
        print_member(&self.targets, path, "targets", writer, sink);
    }
}
