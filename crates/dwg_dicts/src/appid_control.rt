//! The control of applications.

ghost use Rattle.dwg_common.proofs.LayoutLemmas.{same_alike};
ghost use Rattle.dwg_dicts.specs.DictLaws.{appid_control_is_body};
ghost use Rattle.dwg_dicts.specs.Entries.{appid_control_body};

use dwg_base::{Handle, Items, NoMemory};
use dwg_bits::{BitCursor, BitSink};
use dwg_codes::CodeBL;
use dwg_common::{
    BodyCode, BodyCode14, Layout, Lengths, count_bits, count_fits, parse_code, parse_refs,
    write_count,
};
use dwg_handles::{Ref, refs_bits, refs_fit, write_refs};
use std::alloc::Global;

/// The control of applications (Open Design Specification, "APPID CONTROL").
#[derive(Drop)]
pub struct AppIdControl {
    /// The applications, fewer than 2^32.
    pub entries: Items<Ref>,
}

#[tactic(auto, unfolding(crate::specs::Entries::appid_control_body, dwg_grammar::specs::Combinators::chain))]
impl BodyCode for AppIdControl {
    ghost grammar = { λ layout. appid_control_body };

    fn parse(
        alloc: Global,
        _layout: Layout,
        main: &mut BitCursor<'_>,
        refs: &mut BitCursor<'_>,
        base: Handle,
    ) -> Result<Option<AppIdControl>, NoMemory> {
        let Some(count) = parse_code::<CodeBL>(&(), main) else {
            return Ok(None);
        };
        let Some(entries) = parse_refs(alloc, refs, base, count)? else {
            return Ok(None);
        };
        Ok(Some(AppIdControl { entries }))
    }

    fn fits_in(&self, _layout: Layout, base: Handle) -> bool {
        let entries = self.entries.as_slice();
        if !count_fits(entries) {
            return false;
        }
        refs_fit(entries, base)
    }

    fn lengths_in(&self, _layout: Layout, base: Handle) -> Lengths {
        let entries = self.entries.as_slice();
        Lengths {
            main: count_bits(entries),
            refs: refs_bits(entries, base),
        }
    }

    fn write_main_in(&self, _layout: Layout, _base: Handle, sink: &mut BitSink) {
        write_count(self.entries.as_slice(), sink);
    }

    fn write_refs_in(&self, _layout: Layout, base: Handle, sink: &mut BitSink) {
        write_refs(self.entries.as_slice(), base, sink);
    }

    ghost laws = { λ layout base few small. appid_control_is_body base small };
}

impl BodyCode14 for AppIdControl {
    ghost narrower = { λ base value fits. fits };

    ghost sizes_alike = { λ size base value. same_alike (appid_control_body base) value };
}
