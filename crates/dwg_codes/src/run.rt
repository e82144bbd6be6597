//! Runs of bytes of a count that is known from elsewhere, each byte an RC (Open Design Specification, "Bit codes").

ghost use Rattle.std.specs.Prelude.{◌≡◌, ◌-◌, ◌*◌, ◌^◌, ◌<◌, ◌≤◌, ◌↔◌, ◌++◌, ℕ, List, Ok, None, length, IfOk, IfErr, IfSome};
ghost use Rattle.dwg_base.specs.Bytes.{AreBytes};
ghost use Rattle.dwg_bits.specs.Bits.{bits};
ghost use Rattle.dwg_bits.specs.Cursor.{rest};
ghost use Rattle.dwg_bits.specs.Sink.{Extends};
ghost use Rattle.dwg_grammar.specs.Codes.{rc};
ghost use Rattle.dwg_grammar.specs.Combinators.{items};
ghost use Rattle.dwg_grammar.specs.Grammar.{Reads};
ghost use Rattle.dwg_grammar.specs.ToEnd.{short_all};

use dwg_base::{ByteRun, NoMemory};
use dwg_bits::{BitCursor, BitSink};
use std::alloc::Global;

/// Takes so many bytes. Err: out of memory.
fn take_bytes(alloc: Global, count: u32, cursor: &mut BitCursor<'_>) -> Result<Vec<u8>, NoMemory>
    requires { 8 * count ≤ cursor.old.end - cursor.old.place }
    ensures prefix { IfOk result (λ bytes. rest cursor.old ≡ bits bytes.items ++ rest cursor.new) }
    ensures small { IfOk result (λ bytes. AreBytes bytes.items) }
    ensures counted { IfOk result (λ bytes. length bytes.items ≡ count) }
    ensures same_bytes { cursor.new.bytes.now ≡ cursor.old.bytes.now }
    ensures same_end { cursor.new.end ≡ cursor.old.end }
{
    let Some(span) = cursor.run(8 * u64::from(count)) else {
        unreachable!()
    };
    match span.to_bytes(alloc) {
        Some(bytes) => Ok(bytes),
        None => Err(NoMemory),
    }
}

/// Reads so many bytes. None, with nothing moved, exactly where fewer are left. Err: out of memory, which moves nothing either and
/// is taken only for bytes that are there.
#[tactic(auto, using(crate::proofs::RunReading::run_values))]
pub fn read_bytes(
    alloc: Global,
    count: u32,
    cursor: &mut BitCursor<'_>,
) -> Result<Option<ByteRun>, NoMemory>
    ensures reads { IfOk result (λ found. Reads (items rc count) found (rest cursor.old) (rest cursor.new)) }
    ensures value { IfOk result (λ found. IfSome found (items rc count).IsValue) }
    ensures counted { IfOk result (λ found. IfSome found (λ run. length run ≡ count)) }
    ensures unmoved { result ≡ Ok None → cursor.new.place ≡ cursor.old.place }
    ensures refused { IfErr result (λ _. cursor.new.place ≡ cursor.old.place) }
    ensures same_bytes { cursor.new.bytes.now ≡ cursor.old.bytes.now }
    ensures same_end { cursor.new.end ≡ cursor.old.end }
{
    if cursor.left() < 8 * u64::from(count) {
        return Ok(None);
    }
    let mut ahead = *cursor;
    let bytes = take_bytes(alloc, count, &mut ahead)?;
    *cursor = ahead;
    Ok(Some(ByteRun::from_vec(bytes)))
}

/// How many bits bytes are written by.
#[tactic(auto, using(crate::proofs::RunReading::length_of_run))]
pub fn bytes_length(bytes: &[u8]) -> u64
    requires { length bytes.now < 2 ^ 58 }
    ensures length { result ≡ length (short_all rc bytes.now) }
    ensures few { result ≡ 8 * length bytes.now }
{
    8 * bytes.len() as u64
}

/// Writes bytes, one after the other.
pub fn write_bytes(bytes: &[u8], sink: &mut BitSink)
    requires room { 8 * length bytes.now ≤ sink.old.spare }
    ensures { Extends sink.old sink.new (short_all rc bytes.now) }
{
    sink.push_bytes(bytes);
}

/// What holds of runs of bytes: what is written of one are its bits, and the values of so many RCs are the lists of so many
/// bytes.
pub fn byte_run_laws()
    ensures short { (bytes : List ℕ) → short_all rc bytes ≡ bits bytes }
    ensures values { (count : ℕ) (run : List ℕ) → (items rc count).IsValue run ↔ ((length run ≡ count) × AreBytes run) }
{}
