//! Values that are read again where they are written, at each of the bit positions 0 to 15.

use crate::tests::sinks::{bytes_in, cursor_of, pad, push_low};
use dwg_bits::{BitCursor, BitSink};
use dwg_testkit::Report;
use std::alloc::Global;

/// What is written by bits and read again.
pub trait Traveller {
    // The value has a spelling.
    ghost IsSpelled: { Self → Type 0 };

    /// Writes the value, and says by how many bits.
    fn write(&self, sink: &mut BitSink) -> u64
        requires { IsSpelled self.now };

    /// Whether the value is read.
    fn is_read(&self, cursor: &mut BitCursor<'_>) -> bool;
}

/// Whether the value is read from a place up to its end, but not where its last bit is missing.
fn is_there<V: Traveller>(value: &V, bytes: &[u8], place: u64, end: u64) -> bool {
    let mut whole = cursor_of(bytes, place, end);
    let mut cut = cursor_of(bytes, place, end.saturating_sub(1));
    value.is_read(&mut whole) && whole.at() == end && !value.is_read(&mut cut) && cut.at() == place
}

/// By how many bits the value is written after so many bits; None where it isn't read again.
fn bits_at<V: Traveller>(alloc: Global, value: &V, place: u64) -> Option<u64>
    requires { V.IsSpelled value.now }
{
    let mut sink = BitSink::new(alloc);
    push_low(&mut sink, 0, place);
    let bits = value.write(&mut sink);
    let end = sink.length();
    pad(&mut sink);
    if end == place.saturating_add(bits) && is_there(value, bytes_in(&sink), place, end) {
        return Some(bits);
    }
    None
}

/// Reports by how many bits a value is written, the same at each bit position, or that it isn't read again.
pub fn report_travel<V: Traveller>(alloc: Global, value: &V, report: &mut Report)
    requires { V.IsSpelled value.now }
{
    let bits = bits_at(alloc, value, 0);
    for place in 1..16u64 {
        if bits_at(alloc, value, place) != bits {
            return report.word("lost");
        }
    }
    match bits {
        Some(bits) => report.number(bits),
        None => report.word("lost"),
    }
}
