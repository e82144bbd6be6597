//! What is printed by lines of its own: an unknown section, an object.

ghost use Rattle.std.specs.Prelude.{List, ℕ, flat_map};
ghost use Rattle.std.specs.List.{AllByRecursion};
ghost use Rattle.dwg_text.specs.Writing.{WritesText};

use dwg_base::Sink;
use dwg_text::TextWriter;

/// What is printed by lines of its own.
pub(crate) trait Paragraph {
    /// It can be written.
    ghost can_write: { Self → Type 0 };

    /// Its lines.
    ghost written: { Self → List ℕ };

    /// Writes them.
    fn write<W: Sink>(&self, writer: &mut TextWriter, sink: &mut W)
        requires { can_write self.now }
        ensures { WritesText writer.old writer.new (W.taken sink.old) (W.taken sink.new) (W.faults sink.old) (W.faults sink.new) (written self.now) };
}

/// Writes some of them, one after the other.
#[tactic(auto, using(dwg_text::proofs::Writing::writes_nothing))]
pub(crate) fn write_all<T: Paragraph, W: Sink>(
    paragraphs: &[T],
    writer: &mut TextWriter,
    sink: &mut W,
)
    requires { AllByRecursion T.can_write paragraphs.now }
    ensures { WritesText writer.old writer.new (W.taken sink.old) (W.taken sink.new) (W.faults sink.old) (W.faults sink.new) (flat_map T.written paragraphs.now) }
{
    'paragraphs: for index in 0..paragraphs.len() {
        paragraphs[index].write(writer, sink);
    }
}
