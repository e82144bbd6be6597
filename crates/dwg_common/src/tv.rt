//! Texts as bits: at most 65,535 bytes (Open Design Specification, "Bit codes").

ghost use Rattle.std.specs.Prelude.{◌≡◌, ◌^◌, ◌<◌, ◌≤◌, ◌↔◌, length, IfOk, IsTrue};
ghost use Rattle.dwg_bits.specs.Sink.{Extends};
ghost use Rattle.dwg_grammar.specs.Codes.{tv};
ghost use Rattle.dwg_common.specs.Parsing.{Keeps, Parses};

use dwg_base::{ByteRun, NoMemory};
use dwg_bits::{BitCursor, BitSink};
use dwg_codes::{read_text, text_length, write_text};
use std::alloc::Global;

/// How many bytes can't be given: their count is a BS.
const TOO_MANY_BYTES: usize = 1 << 16;

/// Reads a TV, as it is parsed. Err: out of memory, which is taken only for bytes that are there.
#[tactic(auto, using(dwg_grammar::proofs::BodyReading::parsed, dwg_grammar::proofs::TableLemmas::tv_is_code))]
pub fn parse_tv(alloc: Global, cursor: &mut BitCursor<'_>) -> Result<Option<ByteRun>, NoMemory>
    ensures parsed { IfOk result (λ found. Parses tv found cursor.old cursor.new) }
    ensures kept { Keeps cursor.old cursor.new }
{
    read_text(alloc, cursor)
}

/// Whether bytes can be given by a TV: they are at most 65,535.
#[tactic(auto, using(dwg_base::proofs::ByteLists::are_bytes, dwg_grammar::proofs::TableLemmas::tv_has, dwg_grammar::proofs::TableLemmas::tv_bytes))]
pub fn tv_fits(text: &[u8]) -> bool
    ensures { IsTrue result ↔ tv.IsValue text.now }
{
    text.len() < TOO_MANY_BYTES
}

/// How many bits a TV is written by.
#[tactic(auto, using(dwg_grammar::proofs::TableLemmas::tv_bytes))]
pub fn tv_bits(text: &[u8]) -> u64
    requires { tv.IsValue text.now }
    ensures length { result ≡ length (tv.short text.now) }
    ensures few { result < 2 ^ 32 }
{
    text_length(text)
}

/// Writes a TV.
#[tactic(auto, using(dwg_grammar::proofs::TableLemmas::tv_bytes))]
pub fn write_tv(text: &[u8], sink: &mut BitSink)
    requires value { tv.IsValue text.now }
    requires room { length (tv.short text.now) ≤ sink.old.spare }
    ensures { Extends sink.old sink.new (tv.short text.now) }
{
    write_text(text, sink);
}
