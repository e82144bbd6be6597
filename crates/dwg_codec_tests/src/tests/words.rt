//! Numbers and lent lists of up to 64 bits at each place, and check words of up to 40 bytes, against single bits.

use crate::tests::bits::{copy_lent, copy_number};
use crate::tests::sinks::{bytes_in, cursor_of, cursor_over, pad, push_low};
use dwg_bits::BitSink;
use dwg_check::check;
use dwg_testkit::{Bits, bytes_of};
use std::alloc::Global;

/// What is tried at a place of a run of bytes, with so many bits or bytes.
trait Trial {
    /// Whether that gives what single bits give.
    fn holds(alloc: Global, run: &[u8], place: u64, count: u64) -> bool;
}

/// The first of so many counts with which a trial fails at a place.
fn wrong_count<T: Trial>(alloc: Global, run: &[u8], place: u64, counts: u64) -> Option<u64> {
    for count in 0..counts {
        if !T::holds(alloc, run, place, count) {
            return Some(count);
        }
    }
    None
}

/// The first of so many places at which a trial fails, and the first of so many counts with which it does there.
fn first_wrong<T: Trial>(
    alloc: Global,
    run: &[u8],
    places: u64,
    counts: u64,
) -> Option<(u64, u64)> {
    for place in 0..places {
        if let Some(count) = wrong_count::<T>(alloc, run, place, counts) {
            return Some((place, count));
        }
    }
    None
}

/// The bit at a place of a run, the highest of each byte first. None after its end.
fn single_bit(run: &[u8], place: u64) -> Option<u64> {
    let byte = *run.get((place / 8) as usize)?;
    Some(u64::from((byte >> (7 - place % 8)) & 1))
}

/// The number that so many single bits spell. None where the run has fewer.
fn number_by_bits(run: &[u8], place: u64, count: u64) -> Option<u64> {
    let mut number = 0u64;
    for at in place..place.saturating_add(count) {
        number = number.wrapping_mul(2) | single_bit(run, at)?;
    }
    Some(number)
}

/// So many bits, taken as one number.
struct Takes;

impl Trial for Takes {
    fn holds(_alloc: Global, run: &[u8], place: u64, count: u64) -> bool {
        let mut cursor = cursor_of(run, place, u64::MAX);
        cursor.take(count.min(64) as u32) == number_by_bits(run, place, count)
    }
}

/// A sink with the first bits of a run, so many, pushed one by one.
fn begun(alloc: Global, run: &[u8], held: u64) -> BitSink {
    let mut cursor = cursor_over(run);
    let mut sink = BitSink::new(alloc);
    for _ in 0..held {
        copy_number(&mut cursor, &mut sink, 1);
    }
    sink
}

/// The bytes of so many first bits of a run, of so many from a place of it on, and of 00101, by a list of single bits.
fn wanted(alloc: Global, run: &[u8], held: u64, place: u64, count: u64) -> Option<Vec<u8>> {
    let mut bits = Bits::new(alloc);
    bits.push(number_by_bits(run, 0, held)?, held.min(64) as u32)?;
    bits.push(number_by_bits(run, place, count)?, count.min(64) as u32)?;
    bits.push(0b00101, 5)?;
    bits.to_bytes(alloc)
}

/// Whether a sink, with 00101 and padding put after its bits, has these bytes.
fn ends_as(sink: &mut BitSink, bytes: &[u8]) -> bool {
    push_low(sink, 0b00101, 5);
    pad(sink);
    bytes_in(sink) == bytes
}

/// So many bits, pushed as one number after as many others as stand before them in the run.
struct Pushes;

impl Trial for Pushes {
    fn holds(alloc: Global, run: &[u8], place: u64, count: u64) -> bool {
        let mut cursor = cursor_of(run, place, u64::MAX);
        let mut sink = begun(alloc, run, place);
        copy_number(&mut cursor, &mut sink, count);
        match wanted(alloc, run, place, place, count) {
            Some(bytes) => ends_as(&mut sink, bytes.as_slice()),
            None => false,
        }
    }
}

/// Whether so many bits, or those that are left, are pushed as a lent list after so many others.
fn is_lent(alloc: Global, run: &[u8], held: u64, place: u64, count: u64) -> bool {
    let mut cursor = cursor_of(run, place, u64::MAX);
    let count = count.min(cursor.left());
    let mut sink = begun(alloc, run, held);
    copy_lent(&mut cursor, &mut sink, count);
    match wanted(alloc, run, held, place, count) {
        Some(bytes) => ends_as(&mut sink, bytes.as_slice()),
        None => false,
    }
}

/// So many bits, or those that are left, pushed as a lent list after 0, 3 and 5 others.
struct Lends;

impl Trial for Lends {
    fn holds(alloc: Global, run: &[u8], place: u64, count: u64) -> bool {
        is_lent(alloc, run, 0, place, count)
            && is_lent(alloc, run, 3, place, count)
            && is_lent(alloc, run, 5, place, count)
    }
}

/// Whether bytes are those that stand from a place of a run on.
fn are_from(run: &[u8], place: u64, bytes: &[u8]) -> bool {
    for (at, byte) in bytes.iter().enumerate() {
        let bit = place.saturating_add((at as u64).saturating_mul(8));
        if number_by_bits(run, bit, 8) != Some(u64::from(*byte)) {
            return false;
        }
    }
    true
}

/// So many whole bytes, or none where fewer are left, copied from a lent list that begins at the place.
struct Copies;

impl Trial for Copies {
    fn holds(alloc: Global, run: &[u8], place: u64, count: u64) -> bool {
        let count = count.min(64);
        let mut cursor = cursor_of(run, place, u64::MAX);
        let Some(span) = cursor.run(8 * count) else {
            return number_by_bits(run, place, 8 * count).is_none();
        };
        match span.to_bytes(alloc) {
            Some(bytes) => bytes.len() as u64 == count && are_from(run, place, &bytes),
            None => false,
        }
    }
}

/// The check word after one more bit: shifted right, then xored with A001 where the leaving bit isn't the coming one.
fn after_bit(word: u16, bit: u8) -> u16 {
    if word % 2 == u16::from(bit) {
        return word >> 1;
    }
    (word >> 1) ^ 0xA001
}

/// The check word after the bits of a byte, the lowest first.
fn after_byte(start: u16, byte: u8) -> u16 {
    let mut word = start;
    for at in 0..8u32 {
        word = after_bit(word, (byte >> at) & 1);
    }
    word
}

/// The check word after bytes, bit by bit.
fn word_by_bits(start: u16, bytes: &[u8]) -> u16 {
    let mut word = start;
    for byte in bytes {
        word = after_byte(word, *byte);
    }
    word
}

/// The check words of so many bytes, begun as C0C1 and as 0.
struct Checks;

impl Trial for Checks {
    fn holds(_alloc: Global, run: &[u8], place: u64, count: u64) -> bool {
        let Some(bytes) = run.get(place as usize..place.saturating_add(count) as usize) else {
            return false;
        };
        check(0xC0C1, bytes) == word_by_bits(0xC0C1, bytes)
            && check(0, bytes) == word_by_bits(0, bytes)
    }
}

#[test]
fn takes_and_pushes_0_to_64_bits_at_each_place_as_single_bits(rt: HostRuntime) {
    let alloc = rt.alloc();
    // The digits of pi after the point: 17 bytes, so that 64 bits from each of the places 0 to 63 are there.
    let run = bytes_of(alloc, "243F6A8885A308D313198A2E03707344A4").unwrap_or(Vec::new(alloc));
    assert_eq!(rt; run.len(), 17);
    // All places up to the end: from 73 on fewer than 64 bits are left, and from 80 on fewer than eight bytes.
    assert_eq!(rt; first_wrong::<Takes>(alloc, &run, 137, 65), None);
    // Bytes too few for a word, just enough for one, and one more.
    for short in 0..10usize {
        let few = run.get(17 - short..17).unwrap_or(&[]);
        assert_eq!(rt; few.len(), short);
        assert_eq!(rt;
            first_wrong::<Takes>(alloc, few, 8 * short as u64 + 1, 65),
            None
        );
    }
    assert_eq!(rt; first_wrong::<Pushes>(alloc, &run, 64, 65), None);
    assert_eq!(rt; first_wrong::<Lends>(alloc, &run, 137, 65), None);
}

#[test]
fn copies_0_to_17_bytes_from_each_place_as_single_bits(rt: HostRuntime) {
    let alloc = rt.alloc();
    let run = bytes_of(alloc, "243F6A8885A308D313198A2E03707344A4").unwrap_or(Vec::new(alloc));
    assert_eq!(rt; run.len(), 17);
    assert_eq!(rt; first_wrong::<Copies>(alloc, &run, 137, 18), None);
}

#[test]
fn check_words_of_0_to_40_bytes_are_those_by_single_bits(rt: HostRuntime) {
    let alloc = rt.alloc();
    // The digits of pi after the point: 48 bytes, one more than 40 from the last of the offsets 0 to 7 on.
    let run = bytes_of(
        alloc,
        "243F6A88 85A308D3 13198A2E 03707344 A4093822 299F31D0 \
         082EFA98 EC4E6C89 452821E6 38D01377 BE5466CF 34E90C6C",
    )
    .unwrap_or(Vec::new(alloc));
    assert_eq!(rt; run.len(), 48);
    assert_eq!(rt; first_wrong::<Checks>(alloc, &run, 8, 41), None);
}
