//! Cursors and sinks whose conditions are tested.

ghost use Rattle.std.specs.Prelude.{◌≡◌, ◌≤◌, []};
ghost use Rattle.std.specs.Bool.{OnTrue};

use dwg_bits::{BitCursor, BitSink};
use dwg_testkit::Report;

/// The most bits that a test writes at a time.
const MOST: u64 = 10_000;

/// A cursor over the bits of bytes from one place to another, both at most where the bits end.
pub fn cursor_of(bytes: &[u8], from: u64, end: u64) -> BitCursor<'_> {
    let end = end.min(bytes.len().min(1_000) as u64 * 8);
    BitCursor::new(bytes, from.min(end), end)
}

/// A cursor over all bits of bytes.
pub fn cursor_over(bytes: &[u8]) -> BitCursor<'_> {
    cursor_of(bytes, 0, u64::MAX)
}

/// Makes room for more bits; false also for more than a test writes.
pub fn has_room(sink: &mut BitSink, bits: u64) -> bool
    ensures room { OnTrue result (bits ≤ sink.new.spare) }
    ensures same { sink.new.written ≡ sink.old.written }
{
    if sink.length() > MOST || bits > MOST {
        return false;
    }
    sink.reserve(bits)
}

/// Adds the low bits of a number, at most 32.
pub fn push_low(sink: &mut BitSink, number: u64, count: u64) {
    if count > 32 || number >= 1 << count || !has_room(sink, 64) {
        return;
    }
    sink.push(number, count as u32);
}

/// Adds zero bits up to a whole byte.
pub fn pad(sink: &mut BitSink) {
    if has_room(sink, 8) {
        sink.pad();
    }
}

/// The bytes of a sink that ends at a whole byte; none of another.
pub fn bytes_in(sink: &BitSink) -> &[u8] {
    if sink.length() % 8 != 0 {
        return &[];
    }
    sink.as_bytes()
}

/// Reports the bytes of a sink that ends at a whole byte.
pub fn report_sink(sink: &BitSink, report: &mut Report) {
    report.bytes(bytes_in(sink));
}
