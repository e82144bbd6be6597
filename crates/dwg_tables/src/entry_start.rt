//! What the main bits of an entry give before those of its own kind, as bits (Open Design Specification, "LAYER",
//! "SHAPEFILE", "LTYPE", "APPID" and "BLOCK HEADER").
#![tactic(auto, unfolding(crate::specs::Entries::entry_main))]

ghost use Rattle.std.specs.Prelude.{◌≡◌, ◌^◌, ◌<◌, ◌≤◌, ◌↔◌, length, option_map, IfOk, IsTrue};
ghost use Rattle.dwg_bits.specs.Sink.{Extends};
ghost use Rattle.dwg_common.specs.Parsing.{Keeps, Parses};
ghost use Rattle.dwg_tables.specs.Entries.{entry_main, title_of};
ghost use Rattle.dwg_tables.specs.TableReading.{title_read};

use crate::entry::{Entry, Title};
use dwg_base::NoMemory;
use dwg_bits::{BitCursor, BitSink};
use dwg_codes::{CodeB, CodeBS};
use dwg_common::{field, row};
use std::alloc::Global;

/// What is done with the fields that every entry begins with.
macro_rules! title_row {
    ($($done:tt)*) => {
        row!([Title { name: Tv, flag64: CodeB, xref_index: CodeBS, xref_dependent: CodeB }] $($done)*)
    };
}

/// Reads what the main bits of an entry give, as it is parsed. Err: out of memory, which is taken only for bytes that are there.
pub(crate) fn read_title(
    alloc: Global,
    cursor: &mut BitCursor<'_>,
) -> Result<Option<Title>, NoMemory>
    ensures parsed { IfOk result (λ found. Parses entry_main (option_map title_read found) cursor.old cursor.new) }
    ensures kept { Keeps cursor.old cursor.new }
{
    title_row!(parse alloc, (), cursor, (), ())
}

/// Whether the main bits of an entry can be given: its name has at most 65,535 bytes.
pub(crate) fn title_fits(entry: &Entry) -> bool
    ensures { IsTrue result ↔ entry_main.IsValue (title_of entry.now) }
{
    title_row!(fits entry, (), ())
}

/// How many bits the main bits of an entry are.
pub(crate) fn title_bits(entry: &Entry) -> u64
    requires { entry_main.IsValue (title_of entry.now) }
    ensures length { result ≡ length (entry_main.short (title_of entry.now)) }
    ensures few { result < 2 ^ 36 }
{
    title_row!(bits entry, ())
}

/// Writes the main bits of an entry.
pub(crate) fn write_title(entry: &Entry, sink: &mut BitSink)
    requires value { entry_main.IsValue (title_of entry.now) }
    requires room { length (entry_main.short (title_of entry.now)) ≤ sink.old.spare }
    ensures { Extends sink.old sink.new (entry_main.short (title_of entry.now)) }
{
    title_row!(write entry, (), sink);
}
