//! What closes others: the end of a block and the end of a sequence, entities that have nothing beside the common part.

ghost use Rattle.dwg_common.proofs.LayoutLemmas.{same_alike};
ghost use Rattle.dwg_entities.specs.Closing.{endblk_body, seqend_body};
ghost use Rattle.dwg_entities.specs.BodiesLaws.{endblk_is_body, seqend_is_body};

use dwg_base::{Handle, NoMemory};
use dwg_bits::{BitCursor, BitSink};
use dwg_common::{BodyCode, BodyCode14, Layout, Lengths};
use std::alloc::Global;

/// The end of a block (Open Design Specification, "ENDBLK").
#[derive(Clone, Copy, Debug, PartialEq, Eq)]
pub struct EndBlk;

/// The end of a sequence, as of the attributes of an insert (Open Design Specification, "SEQEND").
#[derive(Clone, Copy, Debug, PartialEq, Eq)]
pub struct SeqEnd;

impl BodyCode for EndBlk {
    ghost grammar = { λ layout. endblk_body };

    #[tactic(auto, unfolding(crate::specs::Closing::endblk_body))]
    fn parse(
        _alloc: Global,
        _layout: Layout,
        _main: &mut BitCursor<'_>,
        _refs: &mut BitCursor<'_>,
        _base: Handle,
    ) -> Result<Option<EndBlk>, NoMemory> {
        Ok(Some(EndBlk))
    }

    #[tactic(auto, unfolding(crate::specs::Closing::endblk_body))]
    fn fits_in(&self, _layout: Layout, _base: Handle) -> bool {
        true
    }

    #[tactic(auto, unfolding(crate::specs::Closing::endblk_body))]
    fn lengths_in(&self, _layout: Layout, _base: Handle) -> Lengths {
        Lengths { main: 0, refs: 0 }
    }

    #[tactic(auto, unfolding(crate::specs::Closing::endblk_body), using(dwg_bits::proofs::SinkLemmas::extends_by_none))]
    fn write_main_in(&self, _layout: Layout, _base: Handle, _sink: &mut BitSink) {}

    #[tactic(auto, unfolding(crate::specs::Closing::endblk_body), using(dwg_bits::proofs::SinkLemmas::extends_by_none))]
    fn write_refs_in(&self, _layout: Layout, _base: Handle, _sink: &mut BitSink) {}

    ghost laws = { λ layout base few small. endblk_is_body base small };
}

impl BodyCode14 for EndBlk {
    ghost narrower = { λ base value fits. fits };

    ghost sizes_alike = { λ size base value. same_alike (endblk_body base) value };
}

impl BodyCode for SeqEnd {
    ghost grammar = { λ layout. seqend_body };

    #[tactic(auto, unfolding(crate::specs::Closing::seqend_body))]
    fn parse(
        _alloc: Global,
        _layout: Layout,
        _main: &mut BitCursor<'_>,
        _refs: &mut BitCursor<'_>,
        _base: Handle,
    ) -> Result<Option<SeqEnd>, NoMemory> {
        Ok(Some(SeqEnd))
    }

    #[tactic(auto, unfolding(crate::specs::Closing::seqend_body))]
    fn fits_in(&self, _layout: Layout, _base: Handle) -> bool {
        true
    }

    #[tactic(auto, unfolding(crate::specs::Closing::seqend_body))]
    fn lengths_in(&self, _layout: Layout, _base: Handle) -> Lengths {
        Lengths { main: 0, refs: 0 }
    }

    #[tactic(auto, unfolding(crate::specs::Closing::seqend_body), using(dwg_bits::proofs::SinkLemmas::extends_by_none))]
    fn write_main_in(&self, _layout: Layout, _base: Handle, _sink: &mut BitSink) {}

    #[tactic(auto, unfolding(crate::specs::Closing::seqend_body), using(dwg_bits::proofs::SinkLemmas::extends_by_none))]
    fn write_refs_in(&self, _layout: Layout, _base: Handle, _sink: &mut BitSink) {}

    ghost laws = { λ layout base few small. seqend_is_body base small };
}

impl BodyCode14 for SeqEnd {
    ghost narrower = { λ base value fits. fits };

    ghost sizes_alike = { λ size base value. same_alike (seqend_body base) value };
}
