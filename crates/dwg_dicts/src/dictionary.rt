//! Dictionaries: names of objects.

ghost use Rattle.dwg_base.specs.declared.version.Version.TheVariants.{Ac1014};
ghost use Rattle.dwg_common.proofs.LayoutLemmas.{same_alike};
ghost use Rattle.dwg_common.specs.Parsing.{Keeps, Parses};
ghost use Rattle.dwg_dicts.specs.DictLaws.{dictionary_is_body, dictionary_narrower};
ghost use Rattle.dwg_dicts.specs.Dictionaries.{dictionary_body, dictionary_start};

use crate::cloning::{CodeCloning, cloning_fits};
use crate::dict_items::{
    items_fit, names_bits, read_items, targets_bits, write_names, write_targets,
};
use dwg_base::{ByteRun, Handle, Items, NoMemory, Version};
use dwg_bits::{BitCursor, BitSink};
use dwg_codes::{BitCode, CodeBL, CodeRC};
use dwg_common::{
    BodyCode, BodyCode14, Layout, Lengths, count_bits, count_fits, parse_code, write_count,
};
use dwg_handles::Ref;
use std::alloc::Global;

/// An object and its name in a dictionary (Open Design Specification, "DICTIONARY").
#[derive(Drop)]
pub struct DictItem {
    /// The name, at most 65,535 bytes.
    pub name: ByteRun,
    /// The object.
    pub target: Ref,
}

/// A dictionary (Open Design Specification, "DICTIONARY").
#[derive(Drop)]
pub struct Dictionary {
    /// What becomes of an item whose name is there already when dictionaries are merged.
    pub cloning: u16,
    /// Not 0 where it owns its objects.
    pub hard_owner: u8,
    /// Its items, fewer than 2^32.
    pub items: Items<DictItem>,
}

/// Reads what a dictionary begins with, as it is parsed: how many items it has, and its two flags.
fn read_start(version: Version, cursor: &mut BitCursor<'_>) -> Option<(u32, (u16, u8))>
    ensures parsed { Parses (dictionary_start version) result cursor.old cursor.new }
    ensures kept { Keeps cursor.old cursor.new }
{
    let count = parse_code::<CodeBL>(&(), cursor)?;
    let cloning = parse_code::<CodeCloning>(&version, cursor)?;
    let hard_owner = parse_code::<CodeRC>(&(), cursor)?;
    Some((count, (cloning, hard_owner)))
}

#[tactic(auto, unfolding(crate::specs::Dictionaries::dictionary_body, dwg_grammar::specs::Combinators::chain), using(dwg_common::proofs::MemberLemmas::parts_counted))]
impl BodyCode for Dictionary {
    ghost grammar = { λ layout. dictionary_body layout.version };

    fn parse(
        alloc: Global,
        layout: Layout,
        main: &mut BitCursor<'_>,
        refs: &mut BitCursor<'_>,
        base: Handle,
    ) -> Result<Option<Dictionary>, NoMemory> {
        let Some(start) = read_start(layout.version, main) else {
            return Ok(None);
        };
        let Some(items) = read_items(alloc, start.0, main, refs, base)? else {
            return Ok(None);
        };
        Ok(Some(Dictionary {
            cloning: start.1.0,
            hard_owner: start.1.1,
            items,
        }))
    }

    fn fits_in(&self, layout: Layout, base: Handle) -> bool {
        // Each number of its type can be given.
        let _hard_owner = self.hard_owner;
        if !cloning_fits(layout.version, self.cloning) {
            return false;
        }
        let items = self.items.as_slice();
        if !count_fits(items) {
            return false;
        }
        items_fit(items, base)
    }

    fn lengths_in(&self, layout: Layout, base: Handle) -> Lengths {
        let items = self.items.as_slice();
        Lengths {
            main: count_bits(items)
                + CodeCloning::length(&layout.version, &self.cloning)
                + CodeRC::length(&(), &self.hard_owner)
                + names_bits(items),
            refs: targets_bits(items, base),
        }
    }

    fn write_main_in(&self, layout: Layout, _base: Handle, sink: &mut BitSink) {
        let items = self.items.as_slice();
        write_count(items, sink);
        CodeCloning::write(&layout.version, &self.cloning, sink);
        CodeRC::write(&(), &self.hard_owner, sink);
        write_names(items, sink);
    }

    fn write_refs_in(&self, _layout: Layout, base: Handle, sink: &mut BitSink) {
        write_targets(self.items.as_slice(), base, sink);
    }

    ghost laws = { λ layout base few small. dictionary_is_body layout.version base small };
}

impl BodyCode14 for Dictionary {
    ghost narrower = { dictionary_narrower };

    ghost sizes_alike = { λ size base value. same_alike (dictionary_body Ac1014 base) value };
}
