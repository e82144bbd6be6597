//! Bits: the cursor, the sink and lists of bits, at each bit position from 0 to 15.

use crate::tests::sinks::{cursor_of, cursor_over, has_room, pad, push_low, report_sink};
use dwg_bits::{BitCursor, BitPart, BitRun, BitSink};
use dwg_testkit::{Case, Line, Report, hold, read_number};
use std::alloc::Global;
use std::test::Fail;

/// So many bits as a span, and how many it has.
fn take_span(cursor: &mut BitCursor<'_>, count: u64) -> Option<u64> {
    let span = cursor.run(count)?;
    Some(BitPart::Lent(span).length())
}

/// So many bits.
fn take(cursor: &mut BitCursor<'_>, count: &str) -> Option<u64> {
    if let Some(count) = count.strip_prefix("s") {
        return take_span(cursor, read_number(count)?);
    }
    let count = read_number(count)?;
    cursor.take(count.min(64) as u32)
}

/// Writes what so many bits are, and where the cursor then stands.
fn report_taken(cursor: &mut BitCursor<'_>, count: &str, report: &mut Report) {
    match take(cursor, count) {
        Some(number) => report.hex(number),
        None => report.word("none"),
    }
    report.number(cursor.at());
}

/// `take FROM END | BYTES | COUNTS`: what each count of bits gives, and the place where the cursor then stands; how many bits are left: a
/// number, or none where fewer bits are left. `s18` takes 18 bits as a span, and gives how many it has.
fn case_take(line: &mut Line<'_>, report: &mut Report) -> Option<()> {
    let [from, end, ..] = line.numbers()?;
    let bytes = line.bytes(1)?;
    let mut cursor = cursor_of(&bytes, from, end);
    for count in line.field(2)?.split_whitespace() {
        report_taken(&mut cursor, count, report);
    }
    report.number(cursor.left());
    Some(())
}

/// Copies bits as a number.
pub fn copy_number(cursor: &mut BitCursor<'_>, sink: &mut BitSink, count: u64) {
    let count = count.min(64) as u32;
    if !has_room(sink, 64) {
        return;
    }
    if let Some(value) = cursor.take(count) {
        sink.push(value, count);
    }
}

/// Writes a list of so many bits.
fn push_list(sink: &mut BitSink, part: &BitPart<'_>, count: u64) {
    let length = part.length();
    if length == count && has_room(sink, length) {
        sink.push_part(part);
    }
}

/// Copies bits as a lent list.
pub fn copy_lent(cursor: &mut BitCursor<'_>, sink: &mut BitSink, count: u64) {
    if let Some(span) = cursor.run(count) {
        push_list(sink, &BitPart::Lent(span), count);
    }
}

/// An owned copy of a list.
fn owned_copy(alloc: Global, cursor: &mut BitCursor<'_>, count: u64) -> Option<BitRun> {
    let span = cursor.run(count)?;
    BitRun::copy(alloc, &BitPart::Lent(span))
}

/// Copies bits as an owned list.
fn copy_owned(alloc: Global, cursor: &mut BitCursor<'_>, sink: &mut BitSink, count: u64) {
    if let Some(run) = owned_copy(alloc, cursor, count) {
        push_list(sink, &BitPart::Owned(run), count);
    }
}

/// `copy COUNT LENT OWNED | BYTES`: the bytes, copied from a cursor to a sink: so many bits as a number, then 13, so many as a lent list,
/// and so many as an owned one.
fn case_copy(line: &mut Line<'_>, report: &mut Report) -> Option<()> {
    let [count, lent, owned, ..] = line.numbers()?;
    let bytes = line.bytes(1)?;
    let mut cursor = cursor_over(&bytes);
    let mut sink = BitSink::new(line.alloc);
    copy_number(&mut cursor, &mut sink, count);
    copy_number(&mut cursor, &mut sink, 13);
    copy_lent(&mut cursor, &mut sink, lent);
    copy_owned(line.alloc, &mut cursor, &mut sink, owned);
    report_sink(&sink, report);
    Some(())
}

/// Reports the bytes of a sink with three bits, bytes and padding, and clears it.
fn report_padded(sink: &mut BitSink, number: u64, bytes: &[u8], report: &mut Report) {
    push_low(sink, number, 3);
    if bytes.len() < 8 && has_room(sink, 64) {
        sink.push_bytes(bytes);
    }
    pad(sink);
    report_sink(sink, report);
    sink.clear();
}

/// `pad FIRST SECOND | BYTES`: the bytes of a sink with the low three bits of the first number, these bytes and padding, and with those of
/// the second after it was cleared
fn case_pad(line: &mut Line<'_>, report: &mut Report) -> Option<()> {
    let [first, second, ..] = line.numbers()?;
    let bytes = line.bytes(1)?;
    let mut sink = BitSink::new(line.alloc);
    report_padded(&mut sink, first, &bytes, report);
    report_padded(&mut sink, second, &bytes, report);
    Some(())
}

/// What is tried is told at the functions.
struct BitCases;

impl Case for BitCases {
    fn report(line: &mut Line<'_>, report: &mut Report) -> Option<()> {
        match line.name() {
            "take" => case_take(line, report),
            "copy" => case_copy(line, report),
            "pad" => case_pad(line, report),
            _ => None,
        }
    }
}

#[test]
fn takes_numbers_at_each_bit_position_but_no_more_than_are_left(
    rt: HostRuntime,
) -> Result<(), Fail> {
    let cases = "
        take 0 72 | 12 34 56 78 9A BC DE F0 0F | 64 | x123456789ABCDEF0 64 8
        take 1 72 | 12 34 56 78 9A BC DE F0 0F | 1 | 0 2 70
        take 2 72 | 12 34 56 78 9A BC DE F0 0F | 7 | x24 9 63
        take 3 72 | 12 34 56 78 9A BC DE F0 0F | 8 | x91 11 61
        take 4 72 | 12 34 56 78 9A BC DE F0 0F | 13 | x468 17 55
        take 5 72 | 12 34 56 78 9A BC DE F0 0F | 64 | x468ACF13579BDE01 69 3
        take 6 72 | 12 34 56 78 9A BC DE F0 0F | 31 | x468ACF13 37 35
        take 7 72 | 12 34 56 78 9A BC DE F0 0F | 33 | x3456789A 40 32
        take 8 72 | 12 34 56 78 9A BC DE F0 0F | 64 | x3456789ABCDEF00F 72 0
        take 9 72 | 12 34 56 78 9A BC DE F0 0F | 1 | 0 10 62
        take 10 72 | 12 34 56 78 9A BC DE F0 0F | 8 | xD1 18 54
        take 11 72 | 12 34 56 78 9A BC DE F0 0F | 16 | xA2B3 27 45
        take 12 72 | 12 34 56 78 9A BC DE F0 0F | 24 | x456789 36 36
        take 13 72 | 12 34 56 78 9A BC DE F0 0F | 32 | x8ACF1357 45 27
        take 14 72 | 12 34 56 78 9A BC DE F0 0F | 3 | 0 17 55
        take 15 72 | 12 34 56 78 9A BC DE F0 0F | 57 | x56789ABCDEF00F 72 0
        take 3 20 | 12 34 56 78 9A BC DE F0 0F | 18 s18 17 0 1 | none 3 none 3 x12345 20 0 20 none 20 0";
    hold::<BitCases>(rt.alloc(), cases)
}

#[test]
fn writes_what_it_reads_at_each_bit_position_and_pads_to_a_whole_byte(
    rt: HostRuntime,
) -> Result<(), Fail> {
    let cases = "
        copy 0 19 40 | 12 34 56 78 9A BC DE F0 0F | :123456789ABCDEF00F
        copy 1 19 39 | 12 34 56 78 9A BC DE F0 0F | :123456789ABCDEF00F
        copy 2 19 38 | 12 34 56 78 9A BC DE F0 0F | :123456789ABCDEF00F
        copy 3 19 37 | 12 34 56 78 9A BC DE F0 0F | :123456789ABCDEF00F
        copy 4 19 36 | 12 34 56 78 9A BC DE F0 0F | :123456789ABCDEF00F
        copy 5 19 35 | 12 34 56 78 9A BC DE F0 0F | :123456789ABCDEF00F
        copy 6 19 34 | 12 34 56 78 9A BC DE F0 0F | :123456789ABCDEF00F
        copy 7 19 33 | 12 34 56 78 9A BC DE F0 0F | :123456789ABCDEF00F
        copy 8 19 32 | 12 34 56 78 9A BC DE F0 0F | :123456789ABCDEF00F
        copy 9 19 31 | 12 34 56 78 9A BC DE F0 0F | :123456789ABCDEF00F
        copy 10 19 30 | 12 34 56 78 9A BC DE F0 0F | :123456789ABCDEF00F
        copy 11 19 29 | 12 34 56 78 9A BC DE F0 0F | :123456789ABCDEF00F
        copy 12 19 28 | 12 34 56 78 9A BC DE F0 0F | :123456789ABCDEF00F
        copy 13 19 27 | 12 34 56 78 9A BC DE F0 0F | :123456789ABCDEF00F
        copy 14 19 26 | 12 34 56 78 9A BC DE F0 0F | :123456789ABCDEF00F
        copy 15 19 25 | 12 34 56 78 9A BC DE F0 0F | :123456789ABCDEF00F
        pad 5 6 | - | :A0 :C0
        pad 5 5 | 1234 | :A24680 :A24680";
    hold::<BitCases>(rt.alloc(), cases)
}
