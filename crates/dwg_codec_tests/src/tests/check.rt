//! Check words.

ghost use Rattle.std.specs.Prelude.{◌≡◌, ◌≤◌, ◌<◌, length};

use dwg_check::{CHECK_SEED, SpanChecks, check, header_word, shift};
use dwg_steps::Steps;
use dwg_testkit::{Case, Line, Report, hold};
use std::alloc::Global;
use std::marker::Brand;
use std::sync::ledger::{Blank, Ledger};
use std::test::Fail;

/// `word START | BYTES`: their check word
fn case_word(line: &mut Line<'_>, report: &mut Report) -> Option<()> {
    let [start, ..] = line.numbers()?;
    let word = check((start % 65_536) as u16, &line.bytes(1)?);
    report.hex(u64::from(word));
    Some(())
}

/// `header COUNT | BYTES`: the check word of a header with so many locators after these bytes
fn case_header(line: &mut Line<'_>, report: &mut Report) -> Option<()> {
    let [count, ..] = line.numbers()?;
    let word = header_word(count.clamp(3, 6) as u32, &line.bytes(1)?);
    report.hex(u64::from(word));
    Some(())
}

/// The word after so many zero bytes, byte by byte.
fn after_each(start: u16, zeros: u64) -> u16 {
    let mut word = start;
    for _ in 0..zeros {
        word = check(word, &[0]);
    }
    word
}

/// `shift START COUNT ZEROS`: the word after a shift by the count, and whether that is the check word of so many zero bytes
fn case_shift(line: &mut Line<'_>, report: &mut Report) -> Option<()> {
    let [start, count, zeros, ..] = line.numbers()?;
    let start = (start % 65_536) as u16;
    report.hex(u64::from(shift(start, count)));
    report.hex(u64::from(after_each(start, zeros)));
    Some(())
}

/// The word of a span, with a counter of the ledger that the blank opens.
fn span_counted<L: Ledger>(
    checks: &SpanChecks<'_>,
    start: u16,
    from: usize,
    to: usize,
    blank: Blank,
) -> u16
    requires name { blank.name ≡ L.name }
    requires parts { blank.parts ≡ L.parts }
    requires some { 0 < blank.parts }
    requires order { from ≤ to }
    requires within { to ≤ length checks.now }
{
    let mut steps = Steps::<L>::new(blank);
    checks.of(start, from, to, &mut steps)
}

/// The word of a span.
fn span_word(checks: &SpanChecks<'_>, start: u16, from: usize, to: usize) -> u16
    requires order { from ≤ to }
    requires within { to ≤ length checks.now }
{
    span_counted::<Brand>(checks, start, from, to, Blank::new(1))
}

/// Reports the word of a span by the words of prefixes.
fn report_span(alloc: Global, bytes: &[u8], from: usize, to: usize, report: &mut Report) {
    if from > to || to > bytes.len() {
        return;
    }
    match SpanChecks::build(alloc, bytes) {
        Ok(checks) => report.hex(u64::from(span_word(&checks, 0xC0C1, from, to))),
        Err(_) => report.word("no memory"),
    }
}

/// Reports the word of a span byte by byte.
fn report_bytes(bytes: &[u8], from: usize, to: usize, report: &mut Report) {
    if let Some(span) = bytes.get(from..to) {
        report.hex(u64::from(check(0xC0C1, span)));
    }
}

/// `span FROM TO | BYTES`: the check word of this span of the bytes, begun as C0C1, by the words of prefixes, and byte by byte
fn case_span(line: &mut Line<'_>, report: &mut Report) -> Option<()> {
    let [from, to, ..] = line.numbers()?;
    let from = from.min(1_000) as usize;
    let to = to.min(1_000) as usize;
    let bytes = line.bytes(1)?;
    report_span(line.alloc, &bytes, from, to, report);
    report_bytes(&bytes, from, to, report);
    Some(())
}

/// How many of the first `count` places stand before one from which the check word of the span up to `to` isn't that of a shift by as many
/// zeros.
fn spans_like_shifts(checks: &SpanChecks<'_>, count: usize, to: usize) -> usize
    requires order { count ≤ to }
    requires within { to ≤ length checks.now }
{
    'places: for from in 0..count {
        let zeros = (to - from) as u64;
        if span_word(checks, CHECK_SEED, from, to) != shift(CHECK_SEED, zeros) {
            return from;
        }
    }
    count
}

/// The same of the first `count` places and the end of the bytes. None: out of memory, and where there are fewer bytes.
fn spans_to_the_end(alloc: Global, bytes: &[u8], count: usize) -> Option<usize> {
    if count > bytes.len() {
        return None;
    }
    match SpanChecks::build(alloc, bytes) {
        Ok(checks) => Some(spans_like_shifts(&checks, count, bytes.len())),
        Err(_) => None,
    }
}

/// The same of so many zero bytes.
fn spans_of_zeros(alloc: Global, zeros: usize, count: usize) -> Option<usize> {
    let bytes = vec![in alloc; 0; zeros].ok()?;
    spans_to_the_end(alloc, &bytes, count)
}

/// What is tried is told at the functions.
struct CheckCases;

impl Case for CheckCases {
    fn report(line: &mut Line<'_>, report: &mut Report) -> Option<()> {
        match line.name() {
            "word" => case_word(line, report),
            "header" => case_header(line, report),
            "shift" => case_shift(line, report),
            "span" => case_span(line, report),
            _ => None,
        }
    }
}

#[test]
fn check_words_shifts_and_spans_are_those_of_the_polynomial(rt: HostRuntime) -> Result<(), Fail> {
    let cases = "
        # The third is the end of a map: a page of size 2. Nine zero bytes lead from the constant of a count of locators to that of the
        # next.
        word 0 | 313233343536373839 | xBB3D
        word xC0C1 | - | xC0C1
        word xC0C1 | 0002 | x1D0
        word xA598 | 000000000000000000 | x8101
        word x8101 | 000000000000000000 | x3CC4
        word x3CC4 | 000000000000000000 | x8461
        # The words of the digits 1 to 9 are BB3D xor the constants.
        header 3 | - | xA598
        header 4 | - | x8101
        header 5 | - | x3CC4
        header 6 | - | x8461
        header 3 | 313233343536373839 | x1EA5
        header 4 | 313233343536373839 | x3A3C
        header 5 | 313233343536373839 | x87F9
        header 6 | 313233343536373839 | x3F5C
        # 32,767 zero bytes leave each word, and the largest count is 15 more than a multiple of that.
        shift xA598 9 9 | x8101 x8101
        shift x8101 9 9 | x3CC4 x3CC4
        shift x3CC4 9 9 | x8461 x8461
        shift xC0C1 0 0 | xC0C1 xC0C1
        shift xC0C1 1 1 | x9001 x9001
        shift xC0C1 2 2 | xC051 xC051
        shift xC0C1 15 15 | x90C1 x90C1
        shift xC0C1 16 16 | x9051 x9051
        shift xC0C1 255 255 | xFCC1 xFCC1
        shift xC0C1 32766 32766 | 1 1
        shift xC0C1 32767 32767 | xC0C1 xC0C1
        shift xC0C1 32768 32768 | x9001 x9001
        shift xC0C1 65535 65535 | x9001 x9001
        shift xC0C1 18446744073709551615 15 | x90C1 x90C1
        # The size and the check word of the page that ends a map.
        span 0 2 | 00 02 01 D0 | x1D0 x1D0
        span 0 0 | 00 02 01 D0 | xC0C1 xC0C1
        span 0 4 | 00 02 01 D0 | xC9C xC9C
        span 1 3 | 00 02 01 D0 | x6091 x6091
        span 2 4 | 00 02 01 D0 | xCC51 xCC51
        span 3 4 | 00 02 01 D0 | xC00 xC00
        span 4 4 | 00 02 01 D0 | xC0C1 xC0C1";
    hold::<CheckCases>(rt.alloc(), cases)
}

#[test]
fn long_spans_of_zeros_are_shifts(rt: HostRuntime) {
    // Byte by byte that would take more than 130,000 million turns.
    assert_eq!(rt; spans_of_zeros(rt.alloc(), 2_097_152, 65_536), Some(65_536));
}
