//! The control of blocks.

ghost use Rattle.dwg_common.proofs.LayoutLemmas.{same_alike};
ghost use Rattle.dwg_dicts.specs.DictLaws.{block_control_is_body};
ghost use Rattle.dwg_dicts.specs.EntriesAndTwo.{block_control_body};

use dwg_base::{Handle, Items, NoMemory};
use dwg_bits::{BitCursor, BitSink};
use dwg_codes::CodeBL;
use dwg_common::{
    BodyCode, BodyCode14, Layout, Lengths, count_bits, count_fits, parse_code, parse_ref,
    parse_refs, write_count,
};
use dwg_handles::{Ref, ref_bits, refs_bits, refs_fit, write_ref, write_refs};
use std::alloc::Global;

/// The control of blocks (Open Design Specification, "BLOCK CONTROL").
#[derive(Drop)]
pub struct BlockControl {
    /// The headers of blocks, fewer than 2^32.
    pub entries: Items<Ref>,
    /// The header of the model space.
    pub model: Ref,
    /// The header of the paper space.
    pub paper: Ref,
}

#[tactic(auto, unfolding(crate::specs::EntriesAndTwo::block_control_body, dwg_grammar::specs::Combinators::chain, dwg_grammar::specs::ReferenceCodes::reference))]
impl BodyCode for BlockControl {
    ghost grammar = { λ layout. block_control_body };

    fn parse(
        alloc: Global,
        _layout: Layout,
        main: &mut BitCursor<'_>,
        refs: &mut BitCursor<'_>,
        base: Handle,
    ) -> Result<Option<BlockControl>, NoMemory> {
        let Some(count) = parse_code::<CodeBL>(&(), main) else {
            return Ok(None);
        };
        let Some(entries) = parse_refs(alloc, refs, base, count)? else {
            return Ok(None);
        };
        let Some(model) = parse_ref(refs, base) else {
            return Ok(None);
        };
        let Some(paper) = parse_ref(refs, base) else {
            return Ok(None);
        };
        Ok(Some(BlockControl {
            entries,
            model,
            paper,
        }))
    }

    fn fits_in(&self, _layout: Layout, base: Handle) -> bool {
        let entries = self.entries.as_slice();
        if !count_fits(entries) {
            return false;
        }
        if !refs_fit(entries, base) {
            return false;
        }
        if !self.model.fits(base) {
            return false;
        }
        self.paper.fits(base)
    }

    fn lengths_in(&self, _layout: Layout, base: Handle) -> Lengths {
        let entries = self.entries.as_slice();
        Lengths {
            main: count_bits(entries),
            refs: refs_bits(entries, base)
                + ref_bits(self.model, base)
                + ref_bits(self.paper, base),
        }
    }

    fn write_main_in(&self, _layout: Layout, _base: Handle, sink: &mut BitSink) {
        write_count(self.entries.as_slice(), sink);
    }

    fn write_refs_in(&self, _layout: Layout, base: Handle, sink: &mut BitSink) {
        write_refs(self.entries.as_slice(), base, sink);
        write_ref(self.model, base, sink);
        write_ref(self.paper, base, sink);
    }

    ghost laws = { λ layout base few small. block_control_is_body base small };
}

impl BodyCode14 for BlockControl {
    ghost narrower = { λ base value fits. fits };

    ghost sizes_alike = { λ size base value. same_alike (block_control_body base) value };
}
