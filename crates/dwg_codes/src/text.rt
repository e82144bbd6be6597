//! Texts: a count of bytes, and the bytes (Open Design Specification, "Bit codes").

ghost use Rattle.std.specs.Prelude.{◌≡◌, ◌+◌, ◌*◌, ◌≤◌, Ok, None, length, IfOk, IfErr, IfSome};
ghost use Rattle.dwg_bits.specs.Cursor.{rest};
ghost use Rattle.dwg_bits.specs.Sink.{Extends};
ghost use Rattle.dwg_grammar.specs.Codes.{tv};
ghost use Rattle.dwg_grammar.specs.Grammar.{Reads};

use crate::code::BitCode;
use crate::run::{bytes_length, read_bytes, write_bytes};
use crate::tagged::CodeBS;
use dwg_base::{ByteRun, NoMemory};
use dwg_bits::{BitCursor, BitSink};
use std::alloc::Global;

/// Reads a text: at most 65,535 bytes. None, with nothing moved, exactly where no prefix of the rest spells one. Err: out of
/// memory, which moves nothing either and is taken only for bytes that are there.
pub fn read_text(alloc: Global, cursor: &mut BitCursor<'_>) -> Result<Option<ByteRun>, NoMemory>
    ensures reads { IfOk result (λ found. Reads tv found (rest cursor.old) (rest cursor.new)) }
    ensures value { IfOk result (λ found. IfSome found (λ run. length run ≤ 65535)) }
    ensures unmoved { result ≡ Ok None → cursor.new.place ≡ cursor.old.place }
    ensures refused { IfErr result (λ _. cursor.new.place ≡ cursor.old.place) }
    ensures same_bytes { cursor.new.bytes.now ≡ cursor.old.bytes.now }
    ensures same_end { cursor.new.end ≡ cursor.old.end }
{
    let mut ahead = *cursor;
    let Some(count) = CodeBS::read(&(), &mut ahead) else {
        return Ok(None);
    };
    let Some(run) = read_bytes(alloc, u32::from(count), &mut ahead)? else {
        return Ok(None);
    };
    *cursor = ahead;
    Ok(Some(run))
}

/// How many bits a text is written by.
#[tactic(auto, using(crate::proofs::TextReading::length_of_tv, dwg_grammar::proofs::Bounds::bs_at_most))]
pub fn text_length(text: &[u8]) -> u64
    requires { length text.now ≤ 65535 }
    ensures length { result ≡ length (tv.short text.now) }
    ensures few { result ≤ 18 + 8 * length text.now }
{
    CodeBS::length(&(), &(text.len() as u16)) + bytes_length(text)
}

/// Writes a text of at most 65,535 bytes.
#[tactic(auto, using(crate::proofs::TextReading::tv_written, crate::proofs::TextReading::length_of_tv, dwg_grammar::proofs::Bounds::bs_at_most))]
pub fn write_text(text: &[u8], sink: &mut BitSink)
    requires value { length text.now ≤ 65535 }
    requires room { length (tv.short text.now) ≤ sink.old.spare }
    ensures { Extends sink.old sink.new (tv.short text.now) }
{
    CodeBS::write(&(), &(text.len() as u16), sink);
    write_bytes(text, sink);
}
