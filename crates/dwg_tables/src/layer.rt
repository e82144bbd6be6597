//! Layers.

ghost use Rattle.dwg_base.specs.declared.version.Version.TheVariants.{Ac1014};
ghost use Rattle.dwg_common.proofs.LayoutLemmas.{same_alike};
ghost use Rattle.dwg_tables.specs.LayerBody.{layer_body};
ghost use Rattle.dwg_tables.specs.TableLaws.{layer_is_body, layer_narrower};

use crate::entry::{Entry, entry_of};
use crate::table_field;
use dwg_base::{Handle, NoMemory};
use dwg_bits::{BitCursor, BitSink};
use dwg_codes::CodeBS;
use dwg_common::{BodyCode, BodyCode14, Layout, Lengths, field, reference, row};
use dwg_handles::Ref;
use std::alloc::Global;

/// A layer (Open Design Specification, "LAYER").
#[derive(Drop)]
pub struct Layer {
    /// Its name, and where it is from.
    pub entry: Entry,
    /// Whether it is frozen, on, frozen in new viewports and locked, and whether it is plotted and by which line weight, each
    /// in bits of its own.
    pub values: u16,
    /// The number of its colour.
    pub colour: u16,
    /// Its plot style.
    pub plotstyle: Ref,
    /// Its linetype.
    pub linetype: Ref,
}

/// What is done with the fields of a layer.
macro_rules! layer_row {
    ($($done:tt)*) => {
        row!(table_field [Layer { entry: entry_of(entry, xref), values, colour, plotstyle, linetype };
            entry: Title,
            values: Values,
            colour: CodeBS;
            xref = entry.xref,
            plotstyle = plotstyle since AC1015,
            linetype = linetype
        ] $($done)*)
    };
}

#[tactic(auto, unfolding(crate::specs::LayerBody::layer_body, dwg_grammar::specs::ReferenceCodes::reference))]
impl BodyCode for Layer {
    ghost grammar = { λ layout. layer_body layout.version };

    fn parse(
        alloc: Global,
        layout: Layout,
        main: &mut BitCursor<'_>,
        refs: &mut BitCursor<'_>,
        base: Handle,
    ) -> Result<Option<Layer>, NoMemory> {
        layer_row!(parse alloc, layout.version, main, refs, base)
    }

    fn fits_in(&self, layout: Layout, base: Handle) -> bool {
        layer_row!(fits self, layout.version, base)
    }

    fn lengths_in(&self, layout: Layout, base: Handle) -> Lengths {
        Lengths {
            main: layer_row!(bits self, layout.version),
            refs: layer_row!(refs_bits self, layout.version, base),
        }
    }

    fn write_main_in(&self, layout: Layout, _base: Handle, sink: &mut BitSink) {
        layer_row!(write self, layout.version, sink);
    }

    fn write_refs_in(&self, layout: Layout, base: Handle, sink: &mut BitSink) {
        layer_row!(write_refs self, layout.version, base, sink);
    }

    ghost laws = { λ layout base few small. layer_is_body layout.version base small };
}

impl BodyCode14 for Layer {
    ghost narrower = { layer_narrower };

    ghost sizes_alike = { λ size base value. same_alike (layer_body Ac1014 base) value };
}
