//! A sink of bits: bytes that are filled from their highest bit down.

ghost use Rattle.std.specs.Prelude.{◌≡◌, ◌+◌, ◌-◌, ◌*◌, ◌%◌, ◌^◌, ◌<◌, ◌≤◌, [], length, IsTrue, IfSome};
ghost use Rattle.std.specs.Bool.{OnTrue};
ghost use Rattle.dwg_bits.specs.Bits.{bits, low_bits};
ghost use Rattle.dwg_bits.specs.Cursor.{bits_between};
ghost use Rattle.dwg_bits.specs.Parts.{part_bits};
ghost use Rattle.dwg_bits.specs.Sink.{Extends, padding};

use crate::fill::put;
use crate::part::{BitPart, BitRun};
use crate::words::{next_count, number_at};
use std::alloc::Global;
use std::marker::Model;

/// A list of bits that grows at its end, and the room for more.
///
/// Contracts see the bits and the spare: for how many more bits there is room without taking memory.
#[derive(Drop)]
pub struct BitSink {
    bytes: Vec<u8>,
    count: u64,
}

impl Model for BitSink {
    ghost use Rattle.std.specs.Prelude.{◌-◌, ◌≤◌, vec_capacity};
    ghost use Rattle.dwg_bits.specs.Cursor.{bits_between};
    ghost use Rattle.dwg_bits.specs.Sink.{Written};
    ghost use Rattle.dwg_bits.specs.Filled.{AreFilled, room_of};

    ghost Value = { Written };

    ghost view = { λ s. record { written = bits_between s.bytes.items 0 s.count; spare = room_of (vec_capacity s.bytes) - s.count } };

    ghost invariant = { λ s. AreFilled s.bytes.items s.count × (s.count ≤ room_of (vec_capacity s.bytes)) };
}

impl BitSink {
    /// An empty sink, which takes no memory yet.
    #[tactic(auto, using(crate::proofs::Filling::none_filled, crate::proofs::BitLaws::bits_between_none))]
    pub fn new(alloc: Global) -> BitSink
        ensures { result.written ≡ [] }
    {
        BitSink {
            bytes: Vec::new(alloc),
            count: 0,
        }
    }

    /// An empty sink with room for `bits`. None: out of memory.
    #[tactic(auto, using(crate::proofs::Filling::none_filled, crate::proofs::BitLaws::bits_between_none))]
    pub(crate) fn vec_with_capacity(alloc: Global, bits: u64) -> Option<BitSink>
        ensures empty { IfSome result (λ sink. sink.written ≡ []) }
        ensures room { IfSome result (λ sink. bits ≤ sink.spare) }
    {
        match Vec::with_capacity(alloc, bits.div_ceil(8) as usize) {
            Ok(bytes) => Some(BitSink { bytes, count: 0 }),
            Err(_) => None,
        }
    }

    /// The bits as a list of its own, without taking memory.
    pub(crate) fn into_run(self) -> BitRun
        ensures { result ≡ self.written }
    {
        BitRun::of_bytes(self.bytes, self.count)
    }

    /// Makes the spare at least `bits`, and takes memory only where it is less. False: out of memory. The bits stay
    /// as they were, and the spare never falls.
    #[tactic(auto, using(crate::proofs::Filling::length_held))]
    pub fn reserve(&mut self, bits: u64) -> bool
        requires { length self.old.written + bits < 2 ^ 62 }
        ensures room { OnTrue result (bits ≤ self.new.spare) }
        ensures there { bits ≤ self.old.spare → IsTrue result }
        ensures same_bits { self.new.written ≡ self.old.written }
        ensures spare { self.old.spare ≤ self.new.spare }
    {
        let bytes = (self.count + bits).div_ceil(8) as usize;
        match self.bytes.reserve(bytes - self.bytes.len()) {
            Ok(()) => true,
            Err(_) => false,
        }
    }

    /// Appends the low `count` bits of `value`, the highest of them first.
    #[tactic(auto, using(crate::proofs::Filling::length_held, crate::proofs::BitLaws::length_of_low_bits))]
    pub fn push(&mut self, value: u64, count: u32)
        requires count { count ≤ 64 }
        requires room { count ≤ self.old.spare }
        requires value { value < 2 ^ count }
        ensures { Extends self.old self.new (low_bits count value) }
    {
        put(&mut self.bytes, self.count, value, count);
        self.count += u64::from(count);
    }

    /// Appends whole bytes as they are, where the sink ends with a whole byte.
    #[tactic(auto, using(crate::proofs::Filling::length_held, crate::proofs::Pushing::bytes_held, crate::proofs::Pushing::bytes_filled, crate::proofs::BitLaws::length_of_bits))]
    fn push_whole(&mut self, bytes: &[u8])
        requires whole { length self.old.written % 8 ≡ 0 }
        requires room { 8 * length bytes.now ≤ self.old.spare }
        ensures { Extends self.old self.new (bits bytes.now) }
    {
        match self.bytes.extend_from_slice(bytes) {
            Ok(()) => {}
            Err(_) => unreachable!(),
        }
        self.count += 8 * bytes.len() as u64;
    }

    /// Appends the bits between two places of bytes, a word's at a time.
    fn push_words(&mut self, bytes: &[u8], from: u64, to: u64)
        requires ordered { from ≤ to }
        requires within { to ≤ 8 * length bytes.now }
        requires room { to - from ≤ self.old.spare }
        ensures { Extends self.old self.new (bits_between bytes.now from to) }
    {
        let mut place = from;
        'words: while place < to {
            let count = next_count(to - place);
            self.push(number_at(bytes, place, count), count);
            place += u64::from(count);
        }
    }

    /// Appends the bits between two places of bytes; whole bytes as bytes, where both begin with one.
    pub(crate) fn push_between(&mut self, bytes: &[u8], from: u64, to: u64)
        requires ordered { from ≤ to }
        requires within { to ≤ 8 * length bytes.now }
        requires room { to - from ≤ self.old.spare }
        ensures { Extends self.old self.new (bits_between bytes.now from to) }
    {
        if self.count % 8 != 0 || from % 8 != 0 {
            self.push_words(bytes, from, to);
            return;
        }
        self.push_whole(&bytes[(from / 8) as usize..(to / 8) as usize]);
        self.push_words(bytes, to - to % 8, to);
    }

    /// Appends the bits of bytes.
    #[tactic(auto, using(crate::proofs::BitLaws::bits_between_all))]
    pub fn push_bytes(&mut self, bytes: &[u8])
        requires { 8 * length bytes.now ≤ self.old.spare }
        ensures { Extends self.old self.new (bits bytes.now) }
    {
        if self.count % 8 == 0 {
            self.push_whole(bytes);
            return;
        }
        self.push_words(bytes, 0, 8 * bytes.len() as u64);
    }

    /// Appends the bits of a list in hand.
    #[tactic(auto, using(crate::proofs::Pushing::part_long))]
    pub fn push_part(&mut self, part: &BitPart<'_>)
        requires { length (part_bits part.now) ≤ self.old.spare }
        ensures { Extends self.old self.new (part_bits part.now) }
    {
        let (bytes, from, to) = part.places();
        self.push_between(bytes, from, to);
    }

    /// Appends zero bits up to the next whole byte.
    #[tactic(auto, using(crate::proofs::Filling::length_held, crate::proofs::Filling::pad_held, crate::proofs::Filling::pad_filled, crate::proofs::Filling::length_padding))]
    pub fn pad(&mut self)
        requires { length (padding self.old.written) ≤ self.old.spare }
        ensures { Extends self.old self.new (padding self.old.written) }
    {
        self.count += (8 - self.count % 8) % 8;
    }

    /// Takes all bits away and keeps the room.
    #[tactic(auto, using(crate::proofs::Filling::length_held, crate::proofs::Filling::none_filled, crate::proofs::BitLaws::bits_between_none))]
    pub fn clear(&mut self)
        ensures empty { self.new.written ≡ [] }
        ensures room { self.old.spare + length self.old.written ≤ self.new.spare }
    {
        self.bytes.clear();
        self.count = 0;
    }

    /// How many bits were appended.
    #[tactic(auto, using(crate::proofs::Filling::length_held))]
    pub fn length(&self) -> u64
        ensures { result ≡ length self.now.written }
    {
        self.count
    }

    /// The bits as bytes.
    #[tactic(auto, using(crate::proofs::Filling::all_held))]
    pub fn as_bytes(&self) -> &[u8]
        requires { length self.now.written % 8 ≡ 0 }
        ensures { bits result.now ≡ self.now.written }
    {
        self.bytes.as_slice()
    }

    /// The bits as bytes of their own, without taking memory.
    #[tactic(auto, using(crate::proofs::Filling::all_held))]
    pub(crate) fn into_bytes(self) -> Vec<u8>
        requires { length self.written % 8 ≡ 0 }
        ensures { bits result.items ≡ self.written }
    {
        self.bytes
    }
}
