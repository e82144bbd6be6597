//! The items of a dictionary as bits: their names among the main bits, and their targets among the references (Open Design
//! Specification, "DICTIONARY").

ghost use Rattle.std.specs.Prelude.{◌≡◌, ◌^◌, ◌<◌, ◌≤◌, ◌↔◌, length, IfOk, IsTrue};
ghost use Rattle.dwg_bits.specs.Sink.{Extends};
ghost use Rattle.dwg_grammar.specs.Codes.{tv};
ghost use Rattle.dwg_grammar.specs.ToEnd.{AreValues, short_all};
ghost use Rattle.dwg_grammar.specs.ReferenceCodes.{reference};
ghost use Rattle.dwg_common.specs.Parsing.{Keeps, ParsesBody};
ghost use Rattle.dwg_dicts.specs.Dictionaries.{AreItems, IsItem, items_alone, names_of, targets_of};

use crate::dictionary::DictItem;
use dwg_base::{Handle, Items, NoMemory};
use dwg_bits::{BitCursor, BitSink};
use dwg_common::{parse_ref, parse_tv, tv_bits, tv_fits, write_tv};
use dwg_handles::{ref_bits, write_ref};
use std::alloc::Global;

/// Reads so many items, as they are parsed. Err: out of memory, which is taken only for items that are there.
#[tactic(auto, using(dwg_common::proofs::ChainReading::none_begun))]
pub(crate) fn read_items(
    alloc: Global,
    count: u32,
    main: &mut BitCursor<'_>,
    refs: &mut BitCursor<'_>,
    base: Handle,
) -> Result<Option<Items<DictItem>>, NoMemory>
    ensures parsed { IfOk result (λ found. ParsesBody (items_alone base count) found main.old main.new refs.old refs.new) }
    ensures kept { Keeps main.old main.new }
    ensures refs_kept { Keeps refs.old refs.new }
{
    let mut found = Items::new(alloc);
    'items: for _ in 0..count {
        let Some(name) = parse_tv(alloc, main)? else {
            return Ok(None);
        };
        let Some(target) = parse_ref(refs, base) else {
            return Ok(None);
        };
        found.try_push(DictItem { name, target })?;
    }
    Ok(Some(found))
}

/// Whether an item can be given from the dictionary of the handle `base`.
#[tactic(auto, unfolding(dwg_grammar::specs::ReferenceCodes::reference))]
fn item_fits(item: &DictItem, base: Handle) -> bool
    ensures { IsTrue result ↔ IsItem base item.now }
{
    if !tv_fits(item.name.as_slice()) {
        return false;
    }
    item.target.fits(base)
}

/// Whether items can be given from the dictionary of the handle `base`: each name has at most 65,535 bytes, and each reference
/// reaches its target.
pub(crate) fn items_fit(items: &[DictItem], base: Handle) -> bool
    ensures { IsTrue result ↔ AreItems base items.now }
{
    'items: for item in items {
        if !item_fits(item, base) {
            return false;
        }
    }
    true
}

/// How many bits the names of items are written by.
pub(crate) fn names_bits(items: &[DictItem]) -> u64
    requires names { AreValues tv (names_of items.now) }
    requires few { length (short_all tv (names_of items.now)) < 2 ^ 62 }
    ensures { result ≡ length (short_all tv (names_of items.now)) }
{
    let mut bits = 0;
    'items: for item in items {
        bits += tv_bits(item.name.as_slice());
    }
    bits
}

/// How many bits the targets of items are written by.
#[tactic(auto, unfolding(dwg_grammar::specs::ReferenceCodes::reference))]
pub(crate) fn targets_bits(items: &[DictItem], base: Handle) -> u64
    requires targets { AreValues (reference base) (targets_of items.now) }
    requires few { length (short_all (reference base) (targets_of items.now)) < 2 ^ 62 }
    ensures { result ≡ length (short_all (reference base) (targets_of items.now)) }
{
    let mut bits = 0;
    'items: for item in items {
        bits += ref_bits(item.target, base);
    }
    bits
}

/// Writes the names of items, one after the other.
pub(crate) fn write_names(items: &[DictItem], sink: &mut BitSink)
    requires names { AreValues tv (names_of items.now) }
    requires room { length (short_all tv (names_of items.now)) ≤ sink.old.spare }
    ensures { Extends sink.old sink.new (short_all tv (names_of items.now)) }
{
    'items: for item in items {
        write_tv(item.name.as_slice(), sink);
    }
}

/// Writes the targets of items, one after the other.
#[tactic(auto, unfolding(dwg_grammar::specs::ReferenceCodes::reference))]
pub(crate) fn write_targets(items: &[DictItem], base: Handle, sink: &mut BitSink)
    requires targets { AreValues (reference base) (targets_of items.now) }
    requires room { length (short_all (reference base) (targets_of items.now)) ≤ sink.old.spare }
    ensures { Extends sink.old sink.new (short_all (reference base) (targets_of items.now)) }
{
    'items: for item in items {
        write_ref(item.target, base, sink);
    }
}
