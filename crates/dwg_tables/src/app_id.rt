//! Names of applications.

ghost use Rattle.dwg_common.proofs.LayoutLemmas.{same_alike};
ghost use Rattle.dwg_tables.specs.AppIdBody.{app_id_body};
ghost use Rattle.dwg_tables.specs.TableLaws.{app_id_is_body};

use crate::entry::{Entry, entry_of};
use crate::table_field;
use dwg_base::{Handle, NoMemory};
use dwg_bits::{BitCursor, BitSink};
use dwg_codes::CodeRC;
use dwg_common::{BodyCode, BodyCode14, Layout, Lengths, field, reference, row};
use std::alloc::Global;

/// The name of an application that keeps data with objects (Open Design Specification, "APPID").
#[derive(Drop)]
pub struct AppId {
    /// Its name, and where it is from.
    pub entry: Entry,
    /// A byte kept without meaning.
    pub extra: u8,
}

/// What is done with the fields of the name of an application.
macro_rules! app_id_row {
    ($($done:tt)*) => {
        row!(table_field [AppId { entry: entry_of(entry, xref), extra };
            entry: Title,
            extra: CodeRC;
            xref = entry.xref
        ] $($done)*)
    };
}

#[tactic(auto, unfolding(crate::specs::AppIdBody::app_id_body, dwg_grammar::specs::ReferenceCodes::reference))]
impl BodyCode for AppId {
    ghost grammar = { λ layout. app_id_body };

    fn parse(
        alloc: Global,
        layout: Layout,
        main: &mut BitCursor<'_>,
        refs: &mut BitCursor<'_>,
        base: Handle,
    ) -> Result<Option<AppId>, NoMemory> {
        app_id_row!(parse alloc, layout.version, main, refs, base)
    }

    fn fits_in(&self, layout: Layout, base: Handle) -> bool {
        app_id_row!(fits self, layout.version, base)
    }

    fn lengths_in(&self, layout: Layout, base: Handle) -> Lengths {
        Lengths {
            main: app_id_row!(bits self, layout.version),
            refs: app_id_row!(refs_bits self, layout.version, base),
        }
    }

    fn write_main_in(&self, layout: Layout, _base: Handle, sink: &mut BitSink) {
        app_id_row!(write self, layout.version, sink);
    }

    fn write_refs_in(&self, layout: Layout, base: Handle, sink: &mut BitSink) {
        app_id_row!(write_refs self, layout.version, base, sink);
    }

    ghost laws = { λ layout base few small. app_id_is_body base small };
}

impl BodyCode14 for AppId {
    ghost narrower = { λ base value fits. fits };

    ghost sizes_alike = { λ size base value. same_alike (app_id_body base) value };
}
