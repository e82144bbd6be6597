//! What references and own handles are spelled by: a code, a count of bytes, and so many bytes of a number.

ghost use Rattle.std.specs.Prelude.{◌≡◌, ◌+◌, ◌*◌, ◌^◌, ◌<◌, ◌≤◌, ◌++◌, ℕ, length, IfSome, IfNone};
ghost use Rattle.dwg_bits.specs.Bits.{low_bits};
ghost use Rattle.dwg_bits.specs.Cursor.{rest};
ghost use Rattle.dwg_bits.specs.Sink.{Extends};
ghost use Rattle.dwg_grammar.specs.Grammar.{Reads};
ghost use Rattle.dwg_handles.specs.PartsCode.{IsOwn, parts};
ghost use Rattle.dwg_grammar.specs.ReferenceCodes.{byte_count, counted_number};

use dwg_base::Handle;
use dwg_bits::{BitCursor, BitSink};

/// The most bytes that give a number.
const MOST_BYTES: u64 = 8;

/// A code, a count of bytes, and the number in them.
#[derive(Clone, Copy)]
pub(crate) struct ReferenceParts {
    /// What the number is for, below 16.
    pub(crate) code: u8,
    /// How many bytes give the number, at most eight.
    pub(crate) count: u32,
    /// The number.
    pub(crate) number: u64,
}

impl ReferenceParts {
    /// Reads four bits of code, four bits of a count of at most eight, and so many bytes, the most significant first. None,
    /// with nothing moved, exactly where these aren't there.
    pub(crate) fn read(cursor: &mut BitCursor<'_>) -> Option<ReferenceParts>
        ensures reads { Reads parts result (rest cursor.old) (rest cursor.new) }
        ensures unmoved { IfNone result (cursor.new.place ≡ cursor.old.place) }
        ensures same_bytes { cursor.new.bytes.now ≡ cursor.old.bytes.now }
        ensures same_end { cursor.new.end ≡ cursor.old.end }
    {
        let mut ahead = *cursor;
        let code = ahead.take(4)?;
        let count = ahead.take(4)?;
        if count > MOST_BYTES {
            return None;
        }
        let count = count as u32;
        let number = ahead.take(8 * count)?;
        *cursor = ahead;
        Some(ReferenceParts {
            code: code as u8,
            count,
            number,
        })
    }

    /// The own handle that the parts give. None exactly where the code isn't 0, or the number 0 or not below 2^63.
    pub(crate) fn own(&self) -> Option<Handle>
        ensures resolved { IfSome result (λ own. IsOwn self.now × (own ≡ self.now.number)) }
        ensures unresolved { IfNone result (IsOwn self.now → ⊥) }
    {
        if self.code != 0 || self.number == 0 {
            return None;
        }
        Handle::new(self.number)
    }
}

/// How many bytes a number is written by: the fewest that hold it, none for 0.
#[tactic(auto, unfolding(dwg_grammar::specs::ReferenceCodes::byte_count), using(dwg_grammar::proofs::CountedLemmas::byte_count_fits))]
fn byte_count(number: u64) -> u32
    ensures count { result ≡ byte_count number }
    ensures few { result ≤ 8 }
    ensures fits { number < 2 ^ (8 * result) }
{
    match number {
        0 => 0,
        1..=0xFF => 1,
        0x100..=0xFFFF => 2,
        0x1_0000..=0xFF_FFFF => 3,
        0x100_0000..=0xFFFF_FFFF => 4,
        0x1_0000_0000..=0xFF_FFFF_FFFF => 5,
        0x100_0000_0000..=0xFFFF_FFFF_FFFF => 6,
        0x1_0000_0000_0000..=0xFF_FFFF_FFFF_FFFF => 7,
        _ => 8,
    }
}

/// How many bits a code and a number after it are written by.
#[tactic(auto, using(crate::proofs::PartsWriting::written_length))]
pub(crate) fn parts_bits(code: u8, number: u64) -> u64
    ensures length { result ≡ length (low_bits 4 code ++ counted_number.short number) }
    ensures few { result ≤ 72 }
{
    8 + 8 * u64::from(byte_count(number))
}

/// Writes a code, the count of a number's bytes, and these bytes, the most significant first.
#[tactic(auto, using(crate::proofs::PartsWriting::written_length, dwg_bits::proofs::BitLaws::length_of_low_bits))]
pub(crate) fn write_parts(code: u8, number: u64, sink: &mut BitSink)
    requires code { code < 16 }
    requires room { length (low_bits 4 code ++ counted_number.short number) ≤ sink.old.spare }
    ensures { Extends sink.old sink.new (low_bits 4 code ++ counted_number.short number) }
{
    let count = byte_count(number);
    sink.push(u64::from(code), 4);
    sink.push(u64::from(count), 4);
    sink.push(number, 8 * count);
}
