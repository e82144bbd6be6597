//! Bytes after their size as bits: the size is an RL or a BL (Open Design Specification, "Common entity data", "BLOCK HEADER"
//! and "XRECORD").

ghost use Rattle.std.specs.Prelude.{◌≡◌, ◌^◌, ◌<◌, ◌≤◌, ◌↔◌, length, IfOk, IsTrue};
ghost use Rattle.dwg_bits.specs.Sink.{Extends};
ghost use Rattle.dwg_grammar.specs.Codes.{bl, rc};
ghost use Rattle.dwg_grammar.specs.Combinators.{counted};
ghost use Rattle.dwg_common.specs.Parsing.{Keeps, Parses};

use crate::counts::count_fits;
use crate::part_reading::{parse_bytes, parse_code};
use dwg_base::{ByteRun, NoMemory};
use dwg_bits::{BitCursor, BitSink};
use dwg_codes::{BitCode, CodeBL, bytes_length, write_bytes};
use std::alloc::Global;

/// Reads a size in its code and so many bytes, as they are parsed. Err: out of memory, which is taken only for
/// bytes that are there.
pub(crate) fn parse_sized_by<S: BitCode<Context = (), Value = u32>>(
    alloc: Global,
    cursor: &mut BitCursor<'_>,
) -> Result<Option<ByteRun>, NoMemory>
    requires { S.IsContext tt }
    ensures parsed { IfOk result (λ found. Parses (counted (S.grammar tt) rc) found cursor.old cursor.new) }
    ensures kept { Keeps cursor.old cursor.new }
{
    let Some(size) = parse_code::<S>(&(), cursor) else {
        return Ok(None);
    };
    let Some(bytes) = parse_bytes(alloc, size, cursor)? else {
        return Ok(None);
    };
    Ok(Some(bytes))
}

/// Reads a size and so many bytes, as they are parsed. Err: out of memory, which is taken only for bytes that
/// are there.
pub fn parse_sized(alloc: Global, cursor: &mut BitCursor<'_>) -> Result<Option<ByteRun>, NoMemory>
    ensures parsed { IfOk result (λ found. Parses (counted bl rc) found cursor.old cursor.new) }
    ensures kept { Keeps cursor.old cursor.new }
{
    parse_sized_by::<CodeBL>(alloc, cursor)
}

/// Whether a size can give how many bytes there are: fewer than 2^32.
#[tactic(auto, using(dwg_base::proofs::ByteLists::are_bytes, crate::proofs::SizedParts::bl_value))]
pub fn sized_fits(bytes: &[u8]) -> bool
    ensures { IsTrue result ↔ (counted bl rc).IsValue bytes.now }
{
    count_fits(bytes)
}

/// How many bits a size in its code and so many bytes are written by.
#[tactic(auto, unfolding(dwg_grammar::specs::Combinators::chain))]
pub(crate) fn sized_bits_by<S: BitCode<Context = (), Value = u32>>(bytes: &[u8]) -> u64
    requires context { S.IsContext tt }
    requires value { (counted (S.grammar tt) rc).IsValue bytes.now }
    requires few { length bytes.now < 2 ^ 32 }
    ensures length { result ≡ length ((counted (S.grammar tt) rc).short bytes.now) }
    ensures few { result < 2 ^ 36 }
{
    S::length(&(), &(bytes.len() as u32)) + bytes_length(bytes)
}

/// How many bits a size and so many bytes are written by.
pub fn sized_bits(bytes: &[u8]) -> u64
    requires { (counted bl rc).IsValue bytes.now }
    ensures length { result ≡ length ((counted bl rc).short bytes.now) }
    ensures few { result < 2 ^ 36 }
{
    sized_bits_by::<CodeBL>(bytes)
}

/// Writes a size in its code and so many bytes.
#[tactic(auto, unfolding(dwg_grammar::specs::Combinators::chain), using(crate::proofs::SizedParts::sized_length))]
pub(crate) fn write_sized_by<S: BitCode<Context = (), Value = u32>>(
    bytes: &[u8],
    sink: &mut BitSink,
)
    requires context { S.IsContext tt }
    requires value { (counted (S.grammar tt) rc).IsValue bytes.now }
    requires few { length bytes.now < 2 ^ 32 }
    requires room { length ((counted (S.grammar tt) rc).short bytes.now) ≤ sink.old.spare }
    ensures { Extends sink.old sink.new ((counted (S.grammar tt) rc).short bytes.now) }
{
    S::write(&(), &(bytes.len() as u32), sink);
    write_bytes(bytes, sink);
}

/// Writes a size and so many bytes.
pub fn write_sized(bytes: &[u8], sink: &mut BitSink)
    requires value { (counted bl rc).IsValue bytes.now }
    requires room { length ((counted bl rc).short bytes.now) ≤ sink.old.spare }
    ensures { Extends sink.old sink.new ((counted bl rc).short bytes.now) }
{
    write_sized_by::<CodeBL>(bytes, sink);
}
