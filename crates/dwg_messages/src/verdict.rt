//! The line by which an audit ends.

ghost use Rattle.dwg_messages.specs.Verdict.{verdict};
ghost use Rattle.dwg_text.specs.Writing.{WritesText};

use dwg_base::Sink;
use dwg_text::{Count, TextWriter, write_line};

/// Writes what is audited, and yes where nothing is found, else no with the count of findings.
pub(crate) fn write_verdict<T, W: Sink>(
    audited: &str,
    found: &[T],
    writer: &mut TextWriter,
    sink: &mut W,
)
    ensures { WritesText writer.old writer.new (W.taken sink.old) (W.taken sink.new) (W.faults sink.old) (W.faults sink.new) (verdict audited.now found.now) }
{
    writer.write(audited, sink);
    if found.is_empty() {
        writer.write(" yes\n", sink);
    } else {
        write_line(" no ", &Count(found.len() as u64), writer, sink);
    }
}
