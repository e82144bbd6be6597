//! Runs of bytes, which are printed as their digits.

ghost use Rattle.dwg_text.specs.Writing.{WritesText};
ghost use Rattle.dwg_show.specs.Fields as printers;

use crate::fields::{Print, print_member};
use dwg_base::{ByteRun, Sink};
use dwg_text::{TextWriter, write_bytes};

/// Bytes that are no text.
#[derive(Clone, Copy)]
struct Bytes<'b>(pub &'b [u8]);

impl Print for Bytes<'_> {
    ghost lines = { λ path bytes. printers.bytes path bytes.0.now };

    #[tactic(auto, unfolding(crate::specs::Fields::field_line))]
    fn print<W: Sink>(&self, path: &str, writer: &mut TextWriter, sink: &mut W) {
        writer.write("  ", sink);
        writer.write(path, sink);
        writer.write(" ", sink);
        write_bytes(self.0, writer, sink);
        writer.write("\n", sink);
    }
}

/// Prints a member of what stands at a path: bytes that are no text.
pub(crate) fn print_slice<W: Sink>(
    bytes: &[u8],
    path: &str,
    name: &str,
    writer: &mut TextWriter,
    sink: &mut W,
)
    ensures { WritesText writer.old writer.new (W.taken sink.old) (W.taken sink.new) (W.faults sink.old) (W.faults sink.new) (printers.member path.now name.now printers.bytes bytes.now) }
{
    print_member(&Bytes(bytes), path, name, writer, sink);
}

/// Prints a member of what stands at a path: a run of bytes that is no text.
pub(crate) fn print_bytes<W: Sink>(
    bytes: &ByteRun,
    path: &str,
    name: &str,
    writer: &mut TextWriter,
    sink: &mut W,
)
    ensures { WritesText writer.old writer.new (W.taken sink.old) (W.taken sink.new) (W.faults sink.old) (W.faults sink.new) (printers.member path.now name.now printers.bytes bytes.now) }
{
    print_slice(bytes.as_slice(), path, name, writer, sink);
}

/// Prints a member of what stands at a path: a run of bytes that is no text, where there is one.
#[tactic(auto, using(dwg_text::proofs::Writing::writes_nothing))]
pub(crate) fn print_bytes_where<W: Sink>(
    bytes: &Option<ByteRun>,
    path: &str,
    name: &str,
    writer: &mut TextWriter,
    sink: &mut W,
)
    ensures { WritesText writer.old writer.new (W.taken sink.old) (W.taken sink.new) (W.faults sink.old) (W.faults sink.new) (printers.member path.now name.now (printers.optional printers.bytes) bytes.now) }
{
    match bytes {
        Some(run) => print_bytes(run, path, name, writer, sink),
        None => {}
    }
}
