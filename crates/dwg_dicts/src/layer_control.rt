//! The control of layers.

ghost use Rattle.dwg_common.proofs.LayoutLemmas.{same_alike};
ghost use Rattle.dwg_dicts.specs.DictLaws.{layer_control_is_body};
ghost use Rattle.dwg_dicts.specs.Entries.{layer_control_body};

use dwg_base::{Handle, Items, NoMemory};
use dwg_bits::{BitCursor, BitSink};
use dwg_codes::CodeBL;
use dwg_common::{
    BodyCode, BodyCode14, Layout, Lengths, count_bits, count_fits, parse_code, parse_refs,
    write_count,
};
use dwg_handles::{Ref, refs_bits, refs_fit, write_refs};
use std::alloc::Global;

/// The control of layers (Open Design Specification, "LAYER CONTROL").
#[derive(Drop)]
pub struct LayerControl {
    /// The layers, fewer than 2^32.
    pub entries: Items<Ref>,
}

#[tactic(auto, unfolding(crate::specs::Entries::layer_control_body, dwg_grammar::specs::Combinators::chain))]
impl BodyCode for LayerControl {
    ghost grammar = { λ layout. layer_control_body };

    fn parse(
        alloc: Global,
        _layout: Layout,
        main: &mut BitCursor<'_>,
        refs: &mut BitCursor<'_>,
        base: Handle,
    ) -> Result<Option<LayerControl>, NoMemory> {
        let Some(count) = parse_code::<CodeBL>(&(), main) else {
            return Ok(None);
        };
        let Some(entries) = parse_refs(alloc, refs, base, count)? else {
            return Ok(None);
        };
        Ok(Some(LayerControl { entries }))
    }

    fn fits_in(&self, _layout: Layout, base: Handle) -> bool {
        let entries = self.entries.as_slice();
        if !count_fits(entries) {
            return false;
        }
        refs_fit(entries, base)
    }

    fn lengths_in(&self, _layout: Layout, base: Handle) -> Lengths {
        let entries = self.entries.as_slice();
        Lengths {
            main: count_bits(entries),
            refs: refs_bits(entries, base),
        }
    }

    fn write_main_in(&self, _layout: Layout, _base: Handle, sink: &mut BitSink) {
        write_count(self.entries.as_slice(), sink);
    }

    fn write_refs_in(&self, _layout: Layout, base: Handle, sink: &mut BitSink) {
        write_refs(self.entries.as_slice(), base, sink);
    }

    ghost laws = { λ layout base few small. layer_control_is_body base small };
}

impl BodyCode14 for LayerControl {
    ghost narrower = { λ base value fits. fits };

    ghost sizes_alike = { λ size base value. same_alike (layer_control_body base) value };
}
