//! Bytes that are no text, which are written as their digits.

ghost use Rattle.std.specs.Prelude.{◌≡◌, ◌+◌, ◌≤◌, IfOk, drop, flat_map, length, string_bytes, take};
ghost use Rattle.dwg_text.specs.Lines.{byte_digits};
ghost use Rattle.dwg_text.specs.Writing.{WritesText};
ghost use Rattle.dwg_text.specs.Values.{bytes_text};

use crate::text_writer::TextWriter;
use dwg_base::Sink;
use std::alloc::{AllocError, Global};

/// How many bytes are written at once.
const RUN: usize = 4096;

/// The digits of bytes.
#[tactic(auto, using(crate::proofs::WrittenDigits::digits_of_bytes))]
fn digits(alloc: Global, bytes: &[u8]) -> Result<String, AllocError>
    ensures { IfOk result (λ text. string_bytes text ≡ flat_map byte_digits bytes.now) }
{
    hex::encode(alloc, bytes)
}

/// Writes the digits of a few bytes.
#[tactic(auto, using(crate::proofs::Writing::writes_idle))]
fn write_run<W: Sink>(bytes: &[u8], writer: &mut TextWriter, sink: &mut W)
    ensures { WritesText writer.old writer.new (W.taken sink.old) (W.taken sink.new) (W.faults sink.old) (W.faults sink.new) (flat_map byte_digits bytes.now) }
{
    if writer.fault.is_some() {
        return;
    }
    match digits(writer.alloc, bytes) {
        Ok(text) => writer.write(&text, sink),
        Err(_) => writer.fail_no_memory(),
    }
}

/// So many bytes from a place on.
fn run_at(bytes: &[u8], at: usize, count: usize) -> &[u8]
    requires { at + count ≤ length bytes.now }
    ensures { result.now ≡ take count (drop at bytes.now) }
{
    &bytes[at..at + count]
}

/// Writes the digits of bytes, a run at a time.
#[tactic(auto, using(crate::proofs::Writing::writes_nothing))]
fn write_digits<W: Sink>(bytes: &[u8], writer: &mut TextWriter, sink: &mut W)
    ensures { WritesText writer.old writer.new (W.taken sink.old) (W.taken sink.new) (W.faults sink.old) (W.faults sink.new) (flat_map byte_digits bytes.now) }
{
    let mut at = 0;
    'runs: while at < bytes.len() {
        let count = (bytes.len() - at).min(RUN);
        write_run(run_at(bytes, at, count), writer, sink);
        at += count;
    }
}

/// Writes bytes: their digits, or a hyphen where there are none.
#[tactic(auto, unfolding(crate::specs::Values::bytes_text))]
pub fn write_bytes<W: Sink>(bytes: &[u8], writer: &mut TextWriter, sink: &mut W)
    ensures { WritesText writer.old writer.new (W.taken sink.old) (W.taken sink.new) (W.faults sink.old) (W.faults sink.new) (bytes_text bytes.now) }
{
    if bytes.is_empty() {
        writer.write("-", sink);
    } else {
        write_digits(bytes, writer, sink);
    }
}
