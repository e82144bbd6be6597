//! The application data of an object as bits (Open Design Specification, "Extended object data").

ghost use Rattle.std.specs.Prelude.{◌≡◌, ◌<◌, ◌≤◌, ◌^◌, ◌↔◌, length, IfOk, IsTrue};
ghost use Rattle.dwg_base.specs.Bytes.{AreBytes};
ghost use Rattle.dwg_bits.specs.Sink.{Extends};
ghost use Rattle.dwg_common.specs.Parsing.{Keeps, Parses};
ghost use Rattle.dwg_common.specs.AppList.{IsAppData, app_item, app_list, item_short};

use crate::app_data::AppData;
use crate::part_reading::{parse_bytes, parse_code, parse_ref};
use dwg_base::{Handle, Items, NoMemory};
use dwg_bits::{BitCursor, BitSink};
use dwg_codes::{BitCode, CodeBS, bytes_length, write_bytes};
use dwg_handles::{ref_bits, write_ref};
use std::alloc::Global;

/// The size that no item has, which ends the list.
const MARK: u16 = 0;

/// Reads an item of so many bytes. Err: out of memory.
fn read_item(
    alloc: Global,
    size: u16,
    cursor: &mut BitCursor<'_>,
    base: Handle,
) -> Result<Option<AppData>, NoMemory>
    ensures parsed { IfOk result (λ found. Parses (app_item base size) found cursor.old cursor.new) }
    ensures kept { Keeps cursor.old cursor.new }
{
    let Some(application) = parse_ref(cursor, base) else {
        return Ok(None);
    };
    let Some(bytes) = parse_bytes(alloc, u32::from(size), cursor)? else {
        return Ok(None);
    };
    Ok(Some(AppData { application, bytes }))
}

/// Reads items up to their mark. None exactly where no prefix of the rest spells them. Err: out of memory.
#[tactic(auto, unfolding(crate::specs::AppList::app_list, dwg_grammar::specs::Combinators::until), using(crate::proofs::UntilReading::after_none))]
pub(crate) fn read_items(
    alloc: Global,
    cursor: &mut BitCursor<'_>,
    base: Handle,
) -> Result<Option<Items<AppData>>, NoMemory>
    ensures parsed { IfOk result (λ found. Parses (app_list base) found cursor.old cursor.new) }
    ensures kept { Keeps cursor.old cursor.new }
{
    let mut found = Items::new(alloc);
    'items: loop {
        let Some(size) = parse_code::<CodeBS>(&(), cursor) else {
            return Ok(None);
        };
        if size == MARK {
            return Ok(Some(found));
        }
        let Some(item) = read_item(alloc, size, cursor, base)? else {
            return Ok(None);
        };
        found.try_push(item)?;
    }
}

/// Whether an item has 1 to 65,535 bytes.
#[tactic(auto, using(dwg_base::proofs::ByteLists::are_bytes))]
fn size_fits(bytes: &[u8]) -> bool
    ensures size { IsTrue result ↔ (1 ≤ length bytes.now) × (length bytes.now < 2 ^ 16) }
    ensures bytes { AreBytes bytes.now }
{
    let size = bytes.len();
    0 < size && size < 1 << 16
}

/// Whether an item has a spelling in the object of the handle `base`.
fn item_fits(item: &AppData, base: Handle) -> bool
    ensures { IsTrue result ↔ IsAppData base item.now }
{
    if !size_fits(item.bytes.as_slice()) {
        return false;
    }
    item.application.fits(base)
}

/// Whether application data have a spelling in the object of the handle `base`: each item has 1 to 65,535 bytes, and the code
/// of its reference reaches the application.
#[tactic(auto, unfolding(crate::specs::AppList::app_list, dwg_grammar::specs::Combinators::until))]
pub(crate) fn app_fits(app: &[AppData], base: Handle) -> bool
    ensures { IsTrue result ↔ (app_list base).IsValue app.now }
{
    'items: for item in app {
        if !item_fits(item, base) {
            return false;
        }
    }
    true
}

/// How many bits an item and its size are written by.
#[tactic(auto, using(crate::proofs::AppWriting::length_of_item))]
fn item_bits(item: &AppData, base: Handle) -> u64
    requires { IsAppData base item.now }
    ensures length { result ≡ length (item_short base item.now) }
    ensures few { result < 2 ^ 33 }
{
    let bytes = item.bytes.as_slice();
    CodeBS::length(&(), &(bytes.len() as u16))
        + ref_bits(item.application, base)
        + bytes_length(bytes)
}

/// How many bits application data are written by in the object of the handle `base`, fewer than 2^62.
#[tactic(auto, unfolding(crate::specs::AppList::app_list, dwg_grammar::specs::Combinators::until))]
pub(crate) fn app_length(app: &[AppData], base: Handle) -> u64
    requires value { (app_list base).IsValue app.now }
    requires few { length ((app_list base).short app.now) < 2 ^ 62 }
    ensures { result ≡ length ((app_list base).short app.now) }
{
    let mut bits = 0;
    'items: for item in app {
        bits += item_bits(item, base);
    }
    bits + CodeBS::length(&(), &MARK)
}

/// Writes an item after its size.
#[tactic(auto, unfolding(dwg_grammar::specs::Combinators::chain), using(crate::proofs::AppWriting::length_of_item))]
fn write_item(item: &AppData, base: Handle, sink: &mut BitSink)
    requires item { IsAppData base item.now }
    requires room { length (item_short base item.now) ≤ sink.old.spare }
    ensures { Extends sink.old sink.new (item_short base item.now) }
{
    let bytes = item.bytes.as_slice();
    CodeBS::write(&(), &(bytes.len() as u16), sink);
    write_ref(item.application, base, sink);
    write_bytes(bytes, sink);
}

/// Writes application data in the object of the handle `base`, each item after its size, and the mark after them.
#[tactic(auto, unfolding(crate::specs::AppList::app_list, dwg_grammar::specs::Combinators::until))]
pub(crate) fn write_app(app: &[AppData], base: Handle, sink: &mut BitSink)
    requires value { (app_list base).IsValue app.now }
    requires room { length ((app_list base).short app.now) ≤ sink.old.spare }
    ensures { Extends sink.old sink.new ((app_list base).short app.now) }
{
    'items: for item in app {
        write_item(item, base, sink);
    }
    CodeBS::write(&(), &MARK, sink);
}
