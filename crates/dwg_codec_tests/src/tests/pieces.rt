//! Lists, bytes and values under a test, by the codes of their members.

use crate::tests::listed::report_list;
use crate::tests::sinks::{cursor_over, has_room, report_sink};
use dwg_base::{ByteRun, NoMemory};
use dwg_bits::{BitCursor, BitSink};
use dwg_codes::{
    CodeBS, CodeRC, bytes_length, length_when, read_bytes, read_list, read_when, write_bytes,
    write_when,
};
use dwg_testkit::{Case, Line, Report, hold};
use std::alloc::Global;
use std::test::Fail;

/// Writes what is read as so many BSs.
fn report_shorts(alloc: Global, cursor: &mut BitCursor<'_>, count: u64, report: &mut Report) {
    let count = count.min(4_294_967_295) as u32;
    report_list(read_list::<CodeBS>(alloc, &(), count, cursor), report);
}

/// Writes what is read as a BS under a test.
fn report_when(cursor: &mut BitCursor<'_>, present: bool, report: &mut Report) {
    match read_when::<CodeBS>(&(), present, cursor) {
        Some(Some(number)) => report.number(u64::from(number)),
        Some(None) => report.word("absent"),
        None => report.word("none"),
    }
}

/// So many bytes.
fn bytes_after(
    alloc: Global,
    cursor: &mut BitCursor<'_>,
    count: u64,
) -> Result<Option<ByteRun>, NoMemory> {
    read_bytes(alloc, count.min(4_294_967_295) as u32, cursor)
}

/// Writes what is read as so many bytes.
fn report_bytes(alloc: Global, cursor: &mut BitCursor<'_>, count: u64, report: &mut Report) {
    match bytes_after(alloc, cursor, count) {
        Ok(Some(run)) => report.bytes(run.as_slice()),
        Ok(None) => report.word("none"),
        Err(NoMemory) => report.word("no memory"),
    }
}

/// `read COUNT MORE MOST FEW | BYTES`: what one cursor reads of them: so many BSs, a BS under a test that holds, one under a test that
/// fails, and three times so many bytes.
fn case_read(line: &mut Line<'_>, report: &mut Report) -> Option<()> {
    let [count, more, most, few, ..] = line.numbers()?;
    let bytes = line.bytes(1)?;
    let mut cursor = cursor_over(&bytes);
    report_shorts(line.alloc, &mut cursor, count, report);
    report_when(&mut cursor, true, report);
    report_when(&mut cursor, false, report);
    report_bytes(line.alloc, &mut cursor, more, report);
    report_bytes(line.alloc, &mut cursor, most, report);
    report_bytes(line.alloc, &mut cursor, few, report);
    Some(())
}

/// What is tried is told at the functions.
struct PieceCases;

impl Case for PieceCases {
    fn report(line: &mut Line<'_>, report: &mut Report) -> Option<()> {
        match line.name() {
            "read" => case_read(line, report),
            "when" => case_when(line, report),
            "write" => case_write(line, report),
            _ => None,
        }
    }
}

#[test]
fn lists_bytes_and_options_are_read(rt: HostRuntime) -> Result<(), Fail> {
    let cases = "
        # The numbers 0, 256 and 7, a 7 that stands under a test, and two bytes, by their parts and by their digits.
        read 3 3 4294967295 2 | '10 '11 '01 07 '01 07 AB CD | 0 256 7 7 absent none none :ABCD
        read 3 3 4294967295 2 | B4 1D 07 AB CD | 0 256 7 7 absent none none :ABCD";
    hold::<PieceCases>(rt.alloc(), cases)
}

/// Reports how many bits values under a test have.
fn report_lengths(value: u8, report: &mut Report) {
    report.number(length_when::<CodeBS>(&(), false, &None));
    report.number(length_when::<CodeBS>(&(), true, &Some(u16::from(value))));
    report.number(length_when::<CodeRC>(&(), true, &Some(value)));
}

/// Writes an RC.
fn push_present(sink: &mut BitSink, value: u8) {
    let bits = length_when::<CodeRC>(&(), true, &Some(value));
    if has_room(sink, bits) {
        write_when::<CodeRC>(&(), true, &Some(value), sink);
    }
}

/// Writes no RC.
fn push_absent(sink: &mut BitSink) {
    let bits = length_when::<CodeRC>(&(), false, &None);
    if has_room(sink, bits) {
        write_when::<CodeRC>(&(), false, &None, sink);
    }
}

/// `when VALUE`: how many bits a BS has whose test fails, a BS of the value and an RC of the value; and the bytes of such an RC with one
/// after it whose test fails
fn case_when(line: &mut Line<'_>, report: &mut Report) -> Option<()> {
    let [value, ..] = line.numbers()?;
    let value = value.min(255) as u8;
    report_lengths(value, report);
    let mut sink = BitSink::new(line.alloc);
    push_present(&mut sink, value);
    push_absent(&mut sink);
    report_sink(&sink, report);
    Some(())
}

/// Writes bytes, and says by how many bits.
fn push_bytes(sink: &mut BitSink, bytes: &[u8]) -> u64 {
    if bytes.len() > 1_000 {
        return 0;
    }
    let bits = bytes_length(bytes);
    if has_room(sink, bits) {
        write_bytes(bytes, sink);
    }
    bits
}

/// `write | BYTES`: by how many bits they are written, and by which bytes
fn case_write(line: &mut Line<'_>, report: &mut Report) -> Option<()> {
    let mut sink = BitSink::new(line.alloc);
    report.number(push_bytes(&mut sink, &line.bytes(1)?));
    report_sink(&sink, report);
    Some(())
}

#[test]
fn values_under_a_test_and_bytes_are_written(rt: HostRuntime) -> Result<(), Fail> {
    let cases = "
        when 7 | 0 10 8 :07
        write | AB CD | 16 :ABCD";
    hold::<PieceCases>(rt.alloc(), cases)
}
