//! A cursor over bits.

ghost use Rattle.std.specs.Prelude.{◌≡◌, ◌+◌, ◌-◌, ◌*◌, ◌^◌, ◌<◌, ◌≤◌, ◌↔◌, ◌++◌, length, IsSome, IfSome, is_some, if◌then◌else◌};

use crate::part::BitSpan;
use crate::words::number_at;

/// A place among the bits of a slice of bytes, and the place where they end.
///
/// Both places count bits from the start of the slice, the highest bit of each byte first (Open Design Specification,
/// "Bit codes").
#[derive(Clone, Copy)]
pub struct BitCursor<'a> {
    /// The bytes whose bits are read.
    pub bytes: &'a [u8],
    /// The place of the next bit.
    pub place: u64,
    /// The place after the last bit.
    pub end: u64,
    pub ghost ordered: { place ≤ end },
    pub ghost within: { end ≤ 8 * length bytes.now },
}

impl<'a> BitCursor<'a> {
    ghost use Rattle.dwg_bits.specs.Bits.{num, low_bits};
    ghost use Rattle.dwg_bits.specs.Cursor.{bits_between, rest};

    /// A cursor over the bits of `bytes` from the place `from` to the place `to`.
    pub fn new(bytes: &'a [u8], from: u64, to: u64) -> BitCursor<'a>
        requires ordered { from ≤ to }
        requires within { to ≤ 8 * length bytes.now }
        ensures bytes { result.bytes.now ≡ bytes.now }
        ensures place { result.place ≡ from }
        ensures end { result.end ≡ to }
    {
        BitCursor {
            bytes,
            place: from,
            end: to,
        }
    }

    /// How many bits are left.
    pub fn left(&self) -> u64
        ensures { result ≡ self.now.end - self.now.place }
    {
        self.end - self.place
    }

    /// The place of the next bit.
    pub fn at(&self) -> u64
        ensures { result ≡ self.now.place }
    {
        self.place
    }

    /// Takes the next `count` bits as a number, the first of them highest. None, with nothing moved, exactly where fewer
    /// are left.
    #[tactic(auto, using(crate::proofs::BitLaws::taken_prefix, crate::proofs::WordParts::count_fits))]
    pub fn take(&mut self, count: u32) -> Option<u64>
        requires { count ≤ 64 }
        ensures there { IsSome result ↔ (count ≤ self.old.end - self.old.place) }
        ensures value { IfSome result (λ value. value ≡ num (bits_between self.old.bytes.now self.old.place (self.old.place + count))) }
        ensures prefix { IfSome result (λ value. rest self.old ≡ low_bits count value ++ rest self.new) }
        ensures bound { IfSome result (λ value. value < 2 ^ count) }
        ensures moved { self.new.place ≡ (if is_some result then self.old.place + count else self.old.place) }
        ensures same_bytes { self.new.bytes.now ≡ self.old.bytes.now }
        ensures same_end { self.new.end ≡ self.old.end }
    {
        if self.left() < u64::from(count) {
            return None;
        }
        let value = number_at(self.bytes, self.place, count);
        self.place += u64::from(count);
        Some(value)
    }

    /// Takes the next `count` bits as a span of the same bytes. None, with nothing moved, exactly where fewer are left.
    #[tactic(auto, using(crate::proofs::BitLaws::bits_between_joined, crate::proofs::BitLaws::run_counted))]
    pub fn run(&mut self, count: u64) -> Option<BitSpan<'a>>
        ensures there { IsSome result ↔ (count ≤ self.old.end - self.old.place) }
        ensures span { IfSome result (λ span. span ≡ bits_between self.old.bytes.now self.old.place (self.old.place + count)) }
        ensures counted { IfSome result (λ span. length span ≡ count) }
        ensures prefix { IfSome result (λ span. rest self.old ≡ span ++ rest self.new) }
        ensures moved { self.new.place ≡ (if is_some result then self.old.place + count else self.old.place) }
        ensures same_bytes { self.new.bytes.now ≡ self.old.bytes.now }
        ensures same_end { self.new.end ≡ self.old.end }
    {
        if self.left() < count {
            return None;
        }
        let from = self.place;
        self.place += count;
        Some(BitSpan::new(self.bytes, from, self.place))
    }
}
