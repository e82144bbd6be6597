//! The begin of a block.

ghost use Rattle.std.specs.Prelude.{◌≡◌};
ghost use Rattle.dwg_common.proofs.LayoutLemmas.{same_alike};
ghost use Rattle.dwg_entities.specs.BlockBody.{block_body};
ghost use Rattle.dwg_entities.specs.BodiesLaws.{block_is_body};

use dwg_base::{ByteRun, Handle, NoMemory};
use dwg_bits::{BitCursor, BitSink};
use dwg_common::{BodyCode, BodyCode14, Layout, Lengths, parse_tv, tv_bits, tv_fits, write_tv};
use std::alloc::Global;

/// The begin of a block (Open Design Specification, "BLOCK").
#[derive(Drop)]
pub struct Block {
    /// Its name, at most 65,535 bytes.
    pub name: ByteRun,
}

impl BodyCode for Block {
    ghost grammar = { λ layout. block_body };

    #[tactic(auto, unfolding(crate::specs::BlockBody::block_body))]
    fn parse(
        alloc: Global,
        _layout: Layout,
        main: &mut BitCursor<'_>,
        _refs: &mut BitCursor<'_>,
        _base: Handle,
    ) -> Result<Option<Block>, NoMemory> {
        let Some(name) = parse_tv(alloc, main)? else {
            return Ok(None);
        };
        Ok(Some(Block { name }))
    }

    #[tactic(auto, unfolding(crate::specs::BlockBody::block_body))]
    fn fits_in(&self, _layout: Layout, _base: Handle) -> bool {
        tv_fits(self.name.as_slice())
    }

    #[tactic(auto, unfolding(crate::specs::BlockBody::block_body))]
    fn lengths_in(&self, _layout: Layout, _base: Handle) -> Lengths {
        Lengths {
            main: tv_bits(self.name.as_slice()),
            refs: 0,
        }
    }

    #[tactic(auto, unfolding(crate::specs::BlockBody::block_body))]
    fn write_main_in(&self, _layout: Layout, _base: Handle, sink: &mut BitSink) {
        write_tv(self.name.as_slice(), sink);
    }

    #[tactic(auto, unfolding(crate::specs::BlockBody::block_body), using(dwg_bits::proofs::SinkLemmas::extends_by_none))]
    fn write_refs_in(&self, _layout: Layout, _base: Handle, _sink: &mut BitSink) {}

    ghost laws = { λ layout base few small. block_is_body base small };
}

impl BodyCode14 for Block {
    ghost narrower = { λ base value fits. fits };

    ghost sizes_alike = { λ size base value. same_alike (block_body base) value };
}
