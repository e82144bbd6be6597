//! The parts of a class, read as they are parsed.

ghost use Rattle.std.specs.Prelude.{◌≡◌, IfOk};
ghost use Rattle.std.specs.Option.{option_map};
ghost use Rattle.dwg_bits.specs.Cursor.{rest};
ghost use Rattle.dwg_grammar.specs.Codes.{bs, tv, b};

use dwg_base::{ByteRun, NoMemory};
use dwg_bits::BitCursor;
use dwg_codes::{BitCode, CodeB, CodeBS, read_text};
use std::alloc::Global;

/// A number of a class.
#[tactic(auto, using(crate::proofs::ClassReading::bs_parsed))]
pub fn read_number(cursor: &mut BitCursor<'_>) -> Option<u16>
    ensures parsed { bs.parse (rest cursor.old) ≡ option_map (λ number. (number, rest cursor.new)) result }
    ensures same_bytes { cursor.new.bytes.now ≡ cursor.old.bytes.now }
    ensures same_end { cursor.new.end ≡ cursor.old.end }
{
    CodeBS::read(&(), cursor)
}

/// Whether a class was a proxy.
#[tactic(auto, using(crate::proofs::ClassReading::b_parsed))]
pub fn read_proxy(cursor: &mut BitCursor<'_>) -> Option<bool>
    ensures parsed { b.parse (rest cursor.old) ≡ option_map (λ proxy. (proxy, rest cursor.new)) result }
    ensures same_bytes { cursor.new.bytes.now ≡ cursor.old.bytes.now }
    ensures same_end { cursor.new.end ≡ cursor.old.end }
{
    CodeB::read(&(), cursor)
}

/// A text of a class. Err: out of memory.
#[tactic(auto, using(crate::proofs::ClassReading::tv_parsed))]
pub fn read_name(alloc: Global, cursor: &mut BitCursor<'_>) -> Result<Option<ByteRun>, NoMemory>
    ensures parsed { IfOk result (λ found. tv.parse (rest cursor.old) ≡ option_map (λ name. (name, rest cursor.new)) found) }
    ensures same_bytes { cursor.new.bytes.now ≡ cursor.old.bytes.now }
    ensures same_end { cursor.new.end ≡ cursor.old.end }
{
    read_text(alloc, cursor)
}
