//! The fields of the common parts of objects, in the order of their structs.

ghost use Rattle.dwg_show.specs.CommonFields as fields;

use crate::bytes::{print_bytes, print_bytes_where};
use crate::fields::{Print, print_member};
use dwg_base::Sink;
use dwg_common::{AppData, EntityCommon, Links, ObjectCommon};
use dwg_text::TextWriter;

impl Print for AppData {
    ghost lines = { fields.app_data_fields };

    #[tactic(auto, unfolding(crate::specs::CommonFields::app_data_fields))]
    fn print<W: Sink>(&self, path: &str, writer: &mut TextWriter, sink: &mut W) {
        print_member(&self.application, path, "application", writer, sink);
        print_bytes(&self.bytes, path, "bytes", writer, sink);
    }
}

impl Print for Links {
    ghost lines = { fields.links_fields };

    #[tactic(auto, using(dwg_text::proofs::Writing::writes_more), unfolding(crate::specs::CommonFields::links_fields))]
    fn print<W: Sink>(&self, path: &str, writer: &mut TextWriter, sink: &mut W) {
        print_member(&self.previous, path, "previous", writer, sink);
        print_member(&self.next, path, "next", writer, sink);
    }
}

impl Print for EntityCommon {
    ghost lines = { fields.entity_common_fields };

    #[tactic(auto, unfolding(crate::specs::CommonFields::entity_common_fields))]
    fn print<W: Sink>(&self, path: &str, writer: &mut TextWriter, sink: &mut W) {
        print_member(&self.app, path, "app", writer, sink);
        print_bytes_where(&self.graphic, path, "graphic", writer, sink);
        print_member(&self.mode, path, "mode", writer, sink);
        print_member(&self.owner, path, "owner", writer, sink);
        print_member(&self.reactors, path, "reactors", writer, sink);
        print_member(&self.xdict, path, "xdict", writer, sink);
        print_member(&self.links, path, "links", writer, sink);
        print_member(&self.colour, path, "colour", writer, sink);
        print_member(&self.linetype_scale, path, "linetype_scale", writer, sink);
        print_member(&self.linetype_flag, path, "linetype_flag", writer, sink);
        print_member(&self.linetype, path, "linetype", writer, sink);
        print_member(&self.plotstyle_flag, path, "plotstyle_flag", writer, sink);
        print_member(&self.plotstyle, path, "plotstyle", writer, sink);
        print_member(&self.invisible, path, "invisible", writer, sink);
        print_member(&self.lineweight, path, "lineweight", writer, sink);
        print_member(&self.layer, path, "layer", writer, sink);
    }
}

impl Print for ObjectCommon {
    ghost lines = { fields.object_common_fields };

    #[tactic(auto, using(dwg_text::proofs::Writing::writes_more), unfolding(crate::specs::CommonFields::object_common_fields))]
    fn print<W: Sink>(&self, path: &str, writer: &mut TextWriter, sink: &mut W) {
        print_member(&self.app, path, "app", writer, sink);
        print_member(&self.reactors, path, "reactors", writer, sink);
        print_member(&self.owner, path, "owner", writer, sink);
        print_member(&self.xdict, path, "xdict", writer, sink);
    }
}
