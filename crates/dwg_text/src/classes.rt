//! The text of a file's classes.

ghost use Rattle.std.specs.Prelude.{◌≡◌, ◌≤◌, flat_map, IsErrOf, OnOk};
ghost use Rattle.dwg_base.specs.Devices.{LAST_COUNT, Rose, Sends};
ghost use Rattle.dwg_text.specs.Classes as texts;
ghost use Rattle.dwg_text.specs.Writing.{WritesText};

use crate::lines::write_line;
use crate::text_writer::{ShowFault, TextWriter};
use crate::values::Count;
use dwg_base::Sink;
use dwg_classes::Class;
use std::alloc::Global;

/// Writes what a class says, as a line.
fn write_class_line<W: Sink>(class: &Class, writer: &mut TextWriter, sink: &mut W)
    ensures { WritesText writer.old writer.new (W.taken sink.old) (W.taken sink.new) (W.faults sink.old) (W.faults sink.new) (texts.class_line class.now) }
{
    writer.write("class ", sink);
    writer.write_value(&class.number, sink);
    writer.write(" version ", sink);
    writer.write_value(&class.version, sink);
    writer.write(" proxy ", sink);
    writer.write_value(&class.proxy, sink);
    writer.write(" item ", sink);
    writer.write_value(&class.item, sink);
    writer.write(" app ", sink);
    writer.write_value(&class.application, sink);
    writer.write(" cpp ", sink);
    writer.write_value(&class.cpp_name, sink);
    writer.write(" dxf ", sink);
    writer.write_value(&class.dxf_name, sink);
    writer.write("\n", sink);
}

/// Writes classes, one after the other.
#[tactic(auto, using(crate::proofs::Writing::writes_nothing))]
fn write_class_lines<W: Sink>(classes: &[Class], writer: &mut TextWriter, sink: &mut W)
    ensures { WritesText writer.old writer.new (W.taken sink.old) (W.taken sink.new) (W.faults sink.old) (W.faults sink.new) (flat_map texts.class_line classes.now) }
{
    'classes: for index in 0..classes.len() {
        write_class_line(&classes[index], writer, sink);
    }
}

/// Writes the count of the classes, and the classes in file order, a line each.
pub fn write_classes<W: Sink>(classes: &[Class], writer: &mut TextWriter, sink: &mut W)
    ensures { WritesText writer.old writer.new (W.taken sink.old) (W.taken sink.new) (W.faults sink.old) (W.faults sink.new) (texts.classes_text classes.now) }
{
    write_line("classes ", &Count(classes.len() as u64), writer, sink);
    write_class_lines(classes, writer, sink);
}

/// Writes the text of the classes, a piece at a time: their count, and the classes in file order, a line each. A write fault comes
/// only where the sink's count of faults rose; the only other refusal is out of memory. After either the sink took a prefix of the
/// text.
#[tactic(auto, unfolding(crate::specs::Writing::WritesTextBy))]
pub fn print_classes<W: Sink>(
    alloc: Global,
    classes: &[Class],
    sink: &mut W,
) -> Result<(), ShowFault>
    ensures bytes { Sends (W.taken sink.old) (W.taken sink.new) (texts.classes_text classes.now) result }
    ensures never_falls { W.faults sink.old ≤ W.faults sink.new }
    ensures stands { W.faults sink.old ≡ LAST_COUNT → W.faults sink.new ≡ LAST_COUNT }
    ensures ok { OnOk result (W.faults sink.new ≡ W.faults sink.old) }
    ensures no_memory { IsErrOf result ShowFault.NoMemory → W.faults sink.new ≡ W.faults sink.old }
    ensures write_fault { IsErrOf result ShowFault.WriteFault → Rose (W.faults sink.old) (W.faults sink.new) }
{
    let mut writer = TextWriter::new(alloc);
    write_classes(classes, &mut writer, sink);
    writer.end(sink)
}
