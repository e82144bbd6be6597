//! What is printed of a drill.

ghost use Rattle.std.specs.Prelude.{◌≡◌, ◌≤◌, ◌++◌, IfSome, IsErrOf, OnOk, codes, decimal};
ghost use Rattle.dwg_base.specs.Devices.{LAST_COUNT, Rose, Sends};
ghost use Rattle.dwg_messages.specs.DrillText as texts;
ghost use Rattle.dwg_text.specs.Lines.{line};
ghost use Rattle.dwg_text.specs.Writing.{WritesText};

use dwg_base::{Refusal, Sink};
use dwg_drill::DrillReport;
use dwg_text::{Count, ShowFault, TextWriter, Value, refusal_words, write_line};
use std::alloc::{AllocError, Global};

/// A check word, as it is printed.
#[derive(Clone, Copy)]
struct CheckWord(u16);

impl Value for CheckWord {
    ghost printed = { λ word. texts.check_text word.0 };

    #[tactic(auto, using(crate::proofs::CheckWords::check_padded))]
    fn push(&self, text: &mut String) -> Result<(), AllocError> {
        let word = self.0;
        write!(text, "{word:04X}")
    }
}

/// Writes the first fault of a changed file.
#[tactic(auto, unfolding(crate::specs::DrillText::fault_text))]
fn write_fault<W: Sink>(fault: Option<Refusal>, writer: &mut TextWriter, sink: &mut W)
    ensures { WritesText writer.old writer.new (W.taken sink.old) (W.taken sink.new) (W.faults sink.old) (W.faults sink.new) (texts.fault_text fault) }
{
    match fault {
        None => writer.write("none", sink),
        Some(refusal) => writer.write_made(refusal_words(writer.alloc, refusal), sink),
    }
}

/// Writes what became of the changed file, as a line.
fn write_changed<W: Sink>(
    middle: u64,
    fault: Option<Refusal>,
    writer: &mut TextWriter,
    sink: &mut W,
)
    ensures { WritesText writer.old writer.new (W.taken sink.old) (W.taken sink.new) (W.faults sink.old) (W.faults sink.new) (line (codes "changed " ++ decimal middle ++ codes " " ++ texts.fault_text fault)) }
{
    writer.write("changed ", sink);
    writer.write_value(&Count(middle), sink);
    writer.write(" ", sink);
    write_fault(fault, writer, sink);
    writer.write("\n", sink);
}

/// Writes what a drill found out.
fn write_report<W: Sink>(report: &DrillReport, writer: &mut TextWriter, sink: &mut W)
    ensures { WritesText writer.old writer.new (W.taken sink.old) (W.taken sink.new) (W.faults sink.old) (W.faults sink.new) (texts.drill_text report.now) }
{
    write_line("drill ", &report.entities, writer, sink);
    write_line("objects ", &Count(report.objects), writer, sink);
    write_line("bytes ", &Count(report.size), writer, sink);
    write_line("check ", &CheckWord(report.check), writer, sink);
    write_changed(report.middle, report.fault, writer, sink);
    write_line("findings ", &Count(report.findings), writer, sink);
}

/// Writes the text of a drill, a piece at a time: what it found out, a line for each. A write fault comes only where the sink's count
/// of faults rose; the only other refusal is out of memory. After either the sink took a prefix of the text.
#[tactic(auto, unfolding(dwg_text::specs::Writing::WritesTextBy))]
pub fn print_drill<W: Sink>(
    alloc: Global,
    report: &DrillReport,
    sink: &mut W,
) -> Result<(), ShowFault>
    ensures bytes { Sends (W.taken sink.old) (W.taken sink.new) (texts.drill_text report.now) result }
    ensures never_falls { W.faults sink.old ≤ W.faults sink.new }
    ensures stands { W.faults sink.old ≡ LAST_COUNT → W.faults sink.new ≡ LAST_COUNT }
    ensures ok { OnOk result (W.faults sink.new ≡ W.faults sink.old) }
    ensures no_memory { IsErrOf result ShowFault.NoMemory → W.faults sink.new ≡ W.faults sink.old }
    ensures write_fault { IsErrOf result ShowFault.WriteFault → Rose (W.faults sink.old) (W.faults sink.new) }
{
    let mut writer = TextWriter::new(alloc);
    write_report(report, &mut writer, sink);
    writer.end(sink)
}
