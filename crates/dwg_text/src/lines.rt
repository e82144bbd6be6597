//! Lines of a value each, written to a writer.

ghost use Rattle.std.specs.Prelude.{◌++◌};
ghost use Rattle.dwg_text.specs.Lines.{line};
ghost use Rattle.dwg_text.specs.Writing.{WritesText};

use crate::text_writer::TextWriter;
use crate::values::Value;
use dwg_base::Sink;

/// Writes a line: what stands before a value, and the value.
pub fn write_line<T: Value, W: Sink>(prefix: &str, value: &T, writer: &mut TextWriter, sink: &mut W)
    ensures { WritesText writer.old writer.new (W.taken sink.old) (W.taken sink.new) (W.faults sink.old) (W.faults sink.new) (line (prefix.now ++ T.printed value.now)) }
{
    writer.write(prefix, sink);
    writer.write_value(value, sink);
    writer.write("\n", sink);
}
