//! Items read from bytes.

ghost use Rattle.std.specs.Prelude.{◌≡◌, ◌≤◌, List, length, take, IfOk, IfSome, IfNone};
ghost use Rattle.std.specs.List.{AllByRecursion};
ghost use Rattle.std.specs.Option.{option_map};
ghost use Rattle.dwg_bits.specs.Cursor.{rest};
ghost use Rattle.dwg_grammar.specs.Codes.{rc};
ghost use Rattle.dwg_grammar.specs.Combinators.{items};
ghost use Rattle.dwg_appitems.specs.declared.item.AppItem.{AppItem};
ghost use Rattle.dwg_appitems.specs.AppFindings.{items_in};
ghost use Rattle.dwg_appitems.specs.ItemPrefix.{ReadsItem};
ghost use Rattle.dwg_appitems.specs.ItemLists.{AreItems, CanBeWritten, items_bytes};
ghost use Rattle.dwg_appitems.specs.Items.{item, item_by};

use crate::handle::CodeHandle;
use crate::item::AppItem;
use dwg_base::{Items, NoMemory, bytes_after};
use dwg_bits::BitCursor;
use dwg_codes::{CodeRC, CodeRD, CodeRL, CodeRS, Point3};
use dwg_common::{parse_bytes, parse_code};
use std::alloc::Global;

/// Reads a mark: two bytes.
#[tactic(auto, unfolding(dwg_grammar::specs::Combinators::chain))]
fn read_mark(cursor: &mut BitCursor<'_>) -> Option<[u8; 2]>
    ensures parsed { (items rc 2).parse (rest cursor.old) ≡ option_map (λ mark. (mark, rest cursor.new)) result }
    ensures same_bytes { cursor.new.bytes.now ≡ cursor.old.bytes.now }
    ensures same_end { cursor.new.end ≡ cursor.old.end }
{
    let first = parse_code::<CodeRC>(&(), cursor)?;
    let second = parse_code::<CodeRC>(&(), cursor)?;
    Some([first, second])
}

/// Reads a text after its code byte.
#[tactic(auto, unfolding(crate::specs::Items::item_by))]
fn read_text(alloc: Global, cursor: &mut BitCursor<'_>) -> Result<Option<AppItem>, NoMemory>
    ensures parsed { IfOk result (λ found. (item_by 0).parse (rest cursor.old) ≡ option_map (λ value. (value, rest cursor.new)) found) }
    ensures same_bytes { cursor.new.bytes.now ≡ cursor.old.bytes.now }
    ensures same_end { cursor.new.end ≡ cursor.old.end }
{
    let Some(count) = parse_code::<CodeRC>(&(), cursor) else {
        return Ok(None);
    };
    let Some(mark) = read_mark(cursor) else {
        return Ok(None);
    };
    let Some(text) = parse_bytes(alloc, u32::from(count), cursor)? else {
        return Ok(None);
    };
    Ok(Some(AppItem::Text { mark, text }))
}

/// Reads a brace after its code byte: 0 opens, 1 closes, and no other byte is one.
#[tactic(auto, unfolding(crate::specs::Items::item_by))]
fn read_brace(cursor: &mut BitCursor<'_>) -> Option<AppItem>
    ensures parsed { (item_by 2).parse (rest cursor.old) ≡ option_map (λ value. (value, rest cursor.new)) result }
    ensures same_bytes { cursor.new.bytes.now ≡ cursor.old.bytes.now }
    ensures same_end { cursor.new.end ≡ cursor.old.end }
{
    let byte = parse_code::<CodeRC>(&(), cursor)?;
    if byte < 2 {
        return Some(AppItem::Brace { close: byte == 1 });
    }
    None
}

/// Reads counted bytes after their code byte.
#[tactic(auto, unfolding(crate::specs::Items::item_by))]
fn read_counted(alloc: Global, cursor: &mut BitCursor<'_>) -> Result<Option<AppItem>, NoMemory>
    ensures parsed { IfOk result (λ found. (item_by 4).parse (rest cursor.old) ≡ option_map (λ value. (value, rest cursor.new)) found) }
    ensures same_bytes { cursor.new.bytes.now ≡ cursor.old.bytes.now }
    ensures same_end { cursor.new.end ≡ cursor.old.end }
{
    let Some(count) = parse_code::<CodeRC>(&(), cursor) else {
        return Ok(None);
    };
    let Some(bytes) = parse_bytes(alloc, u32::from(count), cursor)? else {
        return Ok(None);
    };
    Ok(Some(AppItem::Bytes { bytes }))
}

/// Reads a point after its code byte.
#[tactic(auto, using(crate::proofs::ItemReading::point_after))]
fn read_point(code: u8, cursor: &mut BitCursor<'_>) -> Option<AppItem>
    requires from { 10 ≤ code }
    requires to { code ≤ 13 }
    ensures parsed { (item_by code).parse (rest cursor.old) ≡ option_map (λ value. (value, rest cursor.new)) result }
    ensures same_bytes { cursor.new.bytes.now ≡ cursor.old.bytes.now }
    ensures same_end { cursor.new.end ≡ cursor.old.end }
{
    let x = parse_code::<CodeRD>(&(), cursor)?;
    let y = parse_code::<CodeRD>(&(), cursor)?;
    let z = parse_code::<CodeRD>(&(), cursor)?;
    Some(AppItem::Point {
        code,
        words: Point3 { x, y, z },
    })
}

/// Reads a word after its code byte.
#[tactic(auto, using(crate::proofs::ItemReading::word_after))]
fn read_word(code: u8, cursor: &mut BitCursor<'_>) -> Option<AppItem>
    requires from { 40 ≤ code }
    requires to { code ≤ 42 }
    ensures parsed { (item_by code).parse (rest cursor.old) ≡ option_map (λ value. (value, rest cursor.new)) result }
    ensures same_bytes { cursor.new.bytes.now ≡ cursor.old.bytes.now }
    ensures same_end { cursor.new.end ≡ cursor.old.end }
{
    let value = parse_code::<CodeRD>(&(), cursor)?;
    Some(AppItem::Word { code, value })
}

/// Reads the handle of a layer after its code byte.
#[tactic(auto, unfolding(crate::specs::Items::item_by))]
fn read_layer(cursor: &mut BitCursor<'_>) -> Option<AppItem>
    ensures parsed { (item_by 3).parse (rest cursor.old) ≡ option_map (λ value. (value, rest cursor.new)) result }
    ensures same_bytes { cursor.new.bytes.now ≡ cursor.old.bytes.now }
    ensures same_end { cursor.new.end ≡ cursor.old.end }
{
    let handle = parse_code::<CodeHandle>(&(), cursor)?;
    Some(AppItem::Layer { handle })
}

/// Reads the handle of an object after its code byte.
#[tactic(auto, unfolding(crate::specs::Items::item_by))]
fn read_object(cursor: &mut BitCursor<'_>) -> Option<AppItem>
    ensures parsed { (item_by 5).parse (rest cursor.old) ≡ option_map (λ value. (value, rest cursor.new)) result }
    ensures same_bytes { cursor.new.bytes.now ≡ cursor.old.bytes.now }
    ensures same_end { cursor.new.end ≡ cursor.old.end }
{
    let handle = parse_code::<CodeHandle>(&(), cursor)?;
    Some(AppItem::Object { handle })
}

/// Reads a number of 16 bits after its code byte.
#[tactic(auto, unfolding(crate::specs::Items::item_by))]
fn read_short(cursor: &mut BitCursor<'_>) -> Option<AppItem>
    ensures parsed { (item_by 70).parse (rest cursor.old) ≡ option_map (λ value. (value, rest cursor.new)) result }
    ensures same_bytes { cursor.new.bytes.now ≡ cursor.old.bytes.now }
    ensures same_end { cursor.new.end ≡ cursor.old.end }
{
    let value = parse_code::<CodeRS>(&(), cursor)?;
    Some(AppItem::Short { value })
}

/// Reads a number of 32 bits after its code byte.
#[tactic(auto, unfolding(crate::specs::Items::item_by))]
fn read_long(cursor: &mut BitCursor<'_>) -> Option<AppItem>
    ensures parsed { (item_by 71).parse (rest cursor.old) ≡ option_map (λ value. (value, rest cursor.new)) result }
    ensures same_bytes { cursor.new.bytes.now ≡ cursor.old.bytes.now }
    ensures same_end { cursor.new.end ≡ cursor.old.end }
{
    let value = parse_code::<CodeRL>(&(), cursor)?;
    Some(AppItem::Long { value })
}

/// Reads what follows a code byte. None exactly where no prefix of the rest spells it. Err: out of memory.
#[tactic(auto, using(crate::proofs::ItemReading::none_after))]
fn read_after(
    alloc: Global,
    code: u8,
    cursor: &mut BitCursor<'_>,
) -> Result<Option<AppItem>, NoMemory>
    ensures parsed { IfOk result (λ found. (item_by code).parse (rest cursor.old) ≡ option_map (λ value. (value, rest cursor.new)) found) }
    ensures same_bytes { cursor.new.bytes.now ≡ cursor.old.bytes.now }
    ensures same_end { cursor.new.end ≡ cursor.old.end }
{
    match code {
        0 => read_text(alloc, cursor),
        2 => Ok(read_brace(cursor)),
        3 => Ok(read_layer(cursor)),
        4 => read_counted(alloc, cursor),
        5 => Ok(read_object(cursor)),
        10..=13 => Ok(read_point(code, cursor)),
        40..=42 => Ok(read_word(code, cursor)),
        70 => Ok(read_short(cursor)),
        71 => Ok(read_long(cursor)),
        _ => Ok(None),
    }
}

/// Reads an item: its code byte, and what follows it. None exactly where no prefix of the rest spells one. Err: out of memory.
#[tactic(auto, unfolding(crate::specs::Items::item))]
fn read_item(alloc: Global, cursor: &mut BitCursor<'_>) -> Result<Option<AppItem>, NoMemory>
    ensures parsed { IfOk result (λ found. item.parse (rest cursor.old) ≡ option_map (λ value. (value, rest cursor.new)) found) }
    ensures same_bytes { cursor.new.bytes.now ≡ cursor.old.bytes.now }
    ensures same_end { cursor.new.end ≡ cursor.old.end }
{
    let Some(code) = parse_code::<CodeRC>(&(), cursor) else {
        return Ok(None);
    };
    read_after(alloc, code, cursor)
}

/// The most bytes that an item has: a text of 255 bytes after its code byte, its count and its mark.
const LONGEST: usize = 259;

/// The first bytes, as many as an item can have.
fn first_bytes(bytes: &[u8]) -> &[u8]
    ensures first { result.now ≡ take 259 bytes.now }
    ensures few { length result.now ≤ 259 }
{
    if bytes.len() <= LONGEST {
        return bytes;
    }
    &bytes[..LONGEST]
}

/// Reads the item at the begin of bytes, and says how many it is. None exactly where no item is there. Err: out of memory.
///
/// It looks at no more bytes than an item can have, so their bits are counted in a `u64` however many bytes there are.
fn read_prefix(alloc: Global, bytes: &[u8]) -> Result<Option<(AppItem, usize)>, NoMemory>
    ensures { IfOk result (λ found. ReadsItem found bytes.now) }
{
    let first = first_bytes(bytes);
    let mut cursor = BitCursor::new(first, 0, 8 * first.len() as u64);
    let Some(item) = read_item(alloc, &mut cursor)? else {
        return Ok(None);
    };
    Ok(Some((item, (cursor.place / 8) as usize)))
}

/// Reads the items that bytes are. None exactly where they are no items one after the other. Err: out of memory, which is taken
/// only for items that are there. What is read can be written, and is written by the same bytes.
pub fn read_items(alloc: Global, bytes: &[u8]) -> Result<Option<Items<AppItem>>, NoMemory>
    ensures items { IfOk result (λ found. IfSome found (λ all. AreItems all bytes.now)) }
    ensures computed { IfOk result (λ found. found ≡ items_in bytes.now) }
    ensures writable { IfOk result (λ found. IfSome found (λ all. AllByRecursion CanBeWritten all)) }
    ensures again { IfOk result (λ found. IfSome found (λ all. items_bytes all ≡ bytes.now)) }
    ensures none { IfOk result (λ found. IfNone found ((all : List AppItem) → AreItems all bytes.now → ⊥)) }
{
    let mut found = Items::new(alloc);
    let mut place = 0;
    'items: while place < bytes.len() {
        let Some((item, count)) = read_prefix(alloc, bytes_after(bytes, place))? else {
            return Ok(None);
        };
        found.try_push(item)?;
        place += count;
    }
    Ok(Some(found))
}
