//! The control of linetypes.

ghost use Rattle.dwg_common.proofs.LayoutLemmas.{same_alike};
ghost use Rattle.dwg_dicts.specs.DictLaws.{ltype_control_is_body};
ghost use Rattle.dwg_dicts.specs.EntriesAndTwo.{ltype_control_body};

use dwg_base::{Handle, Items, NoMemory};
use dwg_bits::{BitCursor, BitSink};
use dwg_codes::CodeBL;
use dwg_common::{
    BodyCode, BodyCode14, Layout, Lengths, count_bits, count_fits, parse_code, parse_ref,
    parse_refs, write_count,
};
use dwg_handles::{Ref, ref_bits, refs_bits, refs_fit, write_ref, write_refs};
use std::alloc::Global;

/// The control of linetypes (Open Design Specification, "LTYPE CONTROL").
#[derive(Drop)]
pub struct LtypeControl {
    /// The linetypes, fewer than 2^32.
    pub entries: Items<Ref>,
    /// The first of two linetypes that stand beside them.
    pub first: Ref,
    /// The second of the two.
    pub second: Ref,
}

#[tactic(auto, unfolding(crate::specs::EntriesAndTwo::ltype_control_body, dwg_grammar::specs::Combinators::chain, dwg_grammar::specs::ReferenceCodes::reference))]
impl BodyCode for LtypeControl {
    ghost grammar = { λ layout. ltype_control_body };

    fn parse(
        alloc: Global,
        _layout: Layout,
        main: &mut BitCursor<'_>,
        refs: &mut BitCursor<'_>,
        base: Handle,
    ) -> Result<Option<LtypeControl>, NoMemory> {
        let Some(count) = parse_code::<CodeBL>(&(), main) else {
            return Ok(None);
        };
        let Some(entries) = parse_refs(alloc, refs, base, count)? else {
            return Ok(None);
        };
        let Some(first) = parse_ref(refs, base) else {
            return Ok(None);
        };
        let Some(second) = parse_ref(refs, base) else {
            return Ok(None);
        };
        Ok(Some(LtypeControl {
            entries,
            first,
            second,
        }))
    }

    fn fits_in(&self, _layout: Layout, base: Handle) -> bool {
        let entries = self.entries.as_slice();
        if !count_fits(entries) {
            return false;
        }
        if !refs_fit(entries, base) {
            return false;
        }
        if !self.first.fits(base) {
            return false;
        }
        self.second.fits(base)
    }

    fn lengths_in(&self, _layout: Layout, base: Handle) -> Lengths {
        let entries = self.entries.as_slice();
        Lengths {
            main: count_bits(entries),
            refs: refs_bits(entries, base)
                + ref_bits(self.first, base)
                + ref_bits(self.second, base),
        }
    }

    fn write_main_in(&self, _layout: Layout, _base: Handle, sink: &mut BitSink) {
        write_count(self.entries.as_slice(), sink);
    }

    fn write_refs_in(&self, _layout: Layout, base: Handle, sink: &mut BitSink) {
        write_refs(self.entries.as_slice(), base, sink);
        write_ref(self.first, base, sink);
        write_ref(self.second, base, sink);
    }

    ghost laws = { λ layout base few small. ltype_control_is_body base small };
}

impl BodyCode14 for LtypeControl {
    ghost narrower = { λ base value fits. fits };

    ghost sizes_alike = { λ size base value. same_alike (ltype_control_body base) value };
}
