//! What a recovery notes: why the input spells no drawing, what is lost, and what is kept.

ghost use Rattle.std.specs.Prelude.{◌≡◌, ◌≤◌, ◌++◌, codes, decimal, IsErrOf, OnOk};
ghost use Rattle.dwg_base.specs.Devices.{LAST_COUNT, Rose, Sends};
ghost use Rattle.dwg_messages.specs.RecoveryNote as texts;
ghost use Rattle.dwg_text.specs.Lines.{line};
ghost use Rattle.dwg_text.specs.Writing.{WritesText};

use crate::paragraphs::{Paragraph, write_all};
use dwg_base::{Handle, Refusal, Sink};
use dwg_recover::{Kept, Loss};
use dwg_text::{Count, Hexadecimal, ShowFault, TextWriter, Value, refusal_line, write_line};
use std::alloc::Global;

/// Writes a line: what stands before a value, the value, and a place.
fn write_placed<T: Value, W: Sink>(
    prefix: &str,
    value: &T,
    place: u64,
    writer: &mut TextWriter,
    sink: &mut W,
)
    ensures { WritesText writer.old writer.new (W.taken sink.old) (W.taken sink.new) (W.faults sink.old) (W.faults sink.new) (line (prefix.now ++ T.printed value.now ++ codes " at " ++ decimal place)) }
{
    writer.write(prefix, sink);
    writer.write_value(value, sink);
    writer.write(" at ", sink);
    writer.write_value(&Count(place), sink);
    writer.write("\n", sink);
}

/// Writes the object of a pair that is lost.
fn write_lost_object<W: Sink>(handle: Handle, place: u64, writer: &mut TextWriter, sink: &mut W)
    ensures { WritesText writer.old writer.new (W.taken sink.old) (W.taken sink.new) (W.faults sink.old) (W.faults sink.new) (texts.loss_line (Loss.Object handle place)) }
{
    write_placed(
        "lost: object ",
        &Hexadecimal(handle.value()),
        place,
        writer,
        sink,
    );
}

impl Paragraph for Loss {
    ghost written = { texts.loss_line };

    #[tactic(auto, unfolding(crate::specs::RecoveryNote::loss_line))]
    fn write<W: Sink>(&self, writer: &mut TextWriter, sink: &mut W) {
        match self {
            Loss::Header => writer.write("lost: file header\n", sink),
            Loss::Variables => writer.write("lost: header variables\n", sink),
            Loss::Classes => writer.write("lost: classes\n", sink),
            Loss::Section { number, place } => {
                write_placed("lost: section ", number, *place, writer, sink);
            }
            Loss::Page { index, place } => {
                write_placed("lost: map page ", &Count(*index), *place, writer, sink);
            }
            Loss::MapEnd { place } => {
                write_line("lost: map end at ", &Count(*place), writer, sink);
            }
            Loss::Object { handle, place } => write_lost_object(*handle, *place, writer, sink),
        }
    }
}

/// A frame that is kept without a pair; one that is kept for a pair has no line.
impl Paragraph for Kept {
    ghost written = { texts.found_line };

    #[tactic(auto, using(dwg_text::proofs::Writing::writes_nothing), unfolding(crate::specs::RecoveryNote::found_line))]
    fn write<W: Sink>(&self, writer: &mut TextWriter, sink: &mut W) {
        if self.mapped {
            return;
        }
        write_placed(
            "found: object ",
            &Hexadecimal(self.handle.value()),
            self.from,
            writer,
            sink,
        );
    }
}

/// Writes what a recovery notes.
fn write_recovery<W: Sink>(
    refusal: Refusal,
    losses: &[Loss],
    kept: &[Kept],
    writer: &mut TextWriter,
    sink: &mut W,
)
    ensures { WritesText writer.old writer.new (W.taken sink.old) (W.taken sink.new) (W.faults sink.old) (W.faults sink.new) (texts.recovery_note refusal losses.now kept.now) }
{
    writer.write_made(refusal_line(writer.alloc, refusal), sink);
    write_all(losses, writer, sink);
    write_all(kept, writer, sink);
    write_line("kept ", &Count(kept.len() as u64), writer, sink);
}

/// Writes the note of a recovery, a piece at a time: why the input spells no drawing, the losses in their order, the frames that are kept
/// without a pair in order of place, and how many objects are kept, a line each. A write fault comes only where the sink's count of
/// faults rose; the only other refusal is out of memory. After either the sink took a prefix of the note.
#[tactic(auto, unfolding(dwg_text::specs::Writing::WritesTextBy))]
pub fn print_recovery<W: Sink>(
    alloc: Global,
    refusal: Refusal,
    losses: &[Loss],
    kept: &[Kept],
    sink: &mut W,
) -> Result<(), ShowFault>
    ensures bytes { Sends (W.taken sink.old) (W.taken sink.new) (texts.recovery_note refusal losses.now kept.now) result }
    ensures never_falls { W.faults sink.old ≤ W.faults sink.new }
    ensures stands { W.faults sink.old ≡ LAST_COUNT → W.faults sink.new ≡ LAST_COUNT }
    ensures ok { OnOk result (W.faults sink.new ≡ W.faults sink.old) }
    ensures no_memory { IsErrOf result ShowFault.NoMemory → W.faults sink.new ≡ W.faults sink.old }
    ensures write_fault { IsErrOf result ShowFault.WriteFault → Rose (W.faults sink.old) (W.faults sink.new) }
{
    let mut writer = TextWriter::new(alloc);
    write_recovery(refusal, losses, kept, &mut writer, sink);
    writer.end(sink)
}
