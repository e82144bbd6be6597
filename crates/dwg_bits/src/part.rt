//! Lists of bits in hand: owned, or lent from a slice of bytes.

ghost use Rattle.std.specs.Prelude.{◌≡◌, ◌*◌, ◌%◌, ◌≤◌, length, IfSome};
ghost use Rattle.dwg_base.specs.Bytes.{AreBytes};
ghost use Rattle.dwg_bits.specs.Bits.{bits};
ghost use Rattle.dwg_bits.specs.Cursor.{bits_between};
ghost use Rattle.dwg_bits.specs.Parts.{part_bits};

use crate::sink::BitSink;
use dwg_base::bytes_with_range;
use std::alloc::Global;
use std::marker::Model;

/// An owned list of bits.
#[derive(Drop)]
pub struct BitRun {
    bytes: Vec<u8>,
    count: u64,
}

impl Model for BitRun {
    ghost use Rattle.std.specs.Prelude.{Bool, List, ◌*◌, ◌≤◌, length};

    ghost Value = { List Bool };

    ghost use Rattle.dwg_bits.specs.Cursor.{bits_between};

    ghost view = { λ run. bits_between run.bytes.items 0 run.count };

    ghost invariant = { λ run. run.count ≤ 8 * length run.bytes.items };
}

impl BitRun {
    /// A copy of the bits. None: out of memory.
    pub fn copy(alloc: Global, part: &BitPart<'_>) -> Option<BitRun>
        ensures { IfSome result (λ run. run ≡ part_bits part.now) }
    {
        let mut sink = BitSink::vec_with_capacity(alloc, part.length())?;
        sink.push_part(part);
        Some(sink.into_run())
    }

    /// The first `count` bits of the bytes, without taking memory.
    pub(crate) fn of_bytes(bytes: Vec<u8>, count: u64) -> BitRun
        requires { count ≤ 8 * length bytes.items }
        ensures { result ≡ bits_between bytes.items 0 count }
    {
        BitRun { bytes, count }
    }
}

/// A part of a slice of bytes, from any bit to any bit.
#[derive(Drop)]
pub struct BitSpan<'a> {
    bytes: &'a [u8],
    from: u64,
    to: u64,
}

impl<'a> Model for BitSpan<'a> {
    ghost use Rattle.std.specs.Prelude.{Bool, List, ◌*◌, ◌≤◌, length};

    ghost Value = { List Bool };

    ghost use Rattle.dwg_bits.specs.Cursor.{bits_between};

    ghost view = { λ span. bits_between span.bytes.now span.from span.to };

    ghost invariant = { λ span. (span.from ≤ span.to) × (span.to ≤ 8 * length span.bytes.now) };
}

impl<'a> BitSpan<'a> {
    /// The bits of `bytes` from the place `from` to the place `to`.
    pub(crate) fn new(bytes: &'a [u8], from: u64, to: u64) -> BitSpan<'a>
        requires ordered { from ≤ to }
        requires within { to ≤ 8 * length bytes.now }
        ensures { result ≡ bits_between bytes.now from to }
    {
        BitSpan { bytes, from, to }
    }

    /// A copy of the bits as bytes, where they are whole ones. None: out of memory.
    #[tactic(auto, using(crate::proofs::BitLaws::length_of_bits_between))]
    pub fn to_bytes(&self, alloc: Global) -> Option<Vec<u8>>
        requires { length self.now % 8 ≡ 0 }
        ensures bits { IfSome result (λ bytes. bits bytes.items ≡ self.now) }
        ensures small { IfSome result (λ bytes. AreBytes bytes.items) }
    {
        let mut sink = BitSink::vec_with_capacity(alloc, self.to - self.from)?;
        sink.push_between(self.bytes, self.from, self.to);
        let bytes = sink.into_bytes();
        let _bounded = bytes_with_range(bytes.as_slice());
        Some(bytes)
    }
}

/// A list of bits, owned or lent.
#[derive(Drop)]
pub enum BitPart<'a> {
    /// Bits of its own.
    Owned(BitRun),
    /// Bits of a slice of bytes.
    Lent(BitSpan<'a>),
}

impl BitPart<'_> {
    /// How many bits there are.
    #[tactic(auto, using(crate::proofs::BitLaws::length_of_bits_between))]
    pub fn length(&self) -> u64
        ensures { result ≡ length (part_bits self.now) }
    {
        match self {
            BitPart::Owned(run) => run.count,
            BitPart::Lent(span) => span.to - span.from,
        }
    }

    /// The bytes that hold the bits, and the places from where to where they stand there.
    pub(crate) fn places(&self) -> (&[u8], u64, u64)
        ensures ordered { result.1 ≤ result.2 }
        ensures within { result.2 ≤ 8 * length result.0.now }
        ensures bits { bits_between result.0.now result.1 result.2 ≡ part_bits self.now }
    {
        match self {
            BitPart::Owned(run) => (run.bytes.as_slice(), 0, run.count),
            BitPart::Lent(span) => (span.bytes, span.from, span.to),
        }
    }
}
