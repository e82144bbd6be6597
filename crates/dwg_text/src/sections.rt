//! The text of a file's sections.

ghost use Rattle.std.specs.Prelude.{◌≡◌, ◌≤◌, flat_map, IsErrOf, OnOk};
ghost use Rattle.dwg_base.specs.Devices.{LAST_COUNT, Rose, Sends};
ghost use Rattle.dwg_base.specs.Versions.{version_bytes};
ghost use Rattle.dwg_text.specs.Sections as texts;
ghost use Rattle.dwg_text.specs.Writing.{WritesText};

use crate::lines::write_line;
use crate::text_writer::{ShowFault, TextWriter};
use dwg_base::{Sink, Version};
use dwg_sections::{FileHeader, Locator};
use std::alloc::Global;

/// The word of a version, as its files begin.
pub fn version_word(version: Version) -> &'static str
    ensures { result.now ≡ version_bytes version }
{
    match version {
        Version::Ac1014 => "AC1014",
        Version::Ac1015 => "AC1015",
    }
}

/// Writes a locator, as a line.
fn write_section_line<W: Sink>(locator: &Locator, writer: &mut TextWriter, sink: &mut W)
    ensures { WritesText writer.old writer.new (W.taken sink.old) (W.taken sink.new) (W.faults sink.old) (W.faults sink.new) (texts.section_line locator.now) }
{
    writer.write("section ", sink);
    writer.write_value(&locator.number, sink);
    writer.write(" at ", sink);
    writer.write_value(&locator.place, sink);
    writer.write(" size ", sink);
    writer.write_value(&locator.size, sink);
    writer.write("\n", sink);
}

/// Writes locators, a line each.
#[tactic(auto, using(crate::proofs::Writing::writes_nothing))]
fn write_locators<W: Sink>(locators: &[Locator], writer: &mut TextWriter, sink: &mut W)
    ensures { WritesText writer.old writer.new (W.taken sink.old) (W.taken sink.new) (W.faults sink.old) (W.faults sink.new) (flat_map texts.section_line locators.now) }
{
    'locators: for index in 0..locators.len() {
        write_section_line(&locators[index], writer, sink);
    }
}

/// Writes what a file header says of its sections.
fn write_header<W: Sink>(header: &FileHeader, writer: &mut TextWriter, sink: &mut W)
    ensures { WritesText writer.old writer.new (W.taken sink.old) (W.taken sink.new) (W.faults sink.old) (W.faults sink.new) (texts.sections_text header.now) }
{
    write_line("version ", &header.version, writer, sink);
    write_line("codepage ", &header.code_page, writer, sink);
    write_line("preview ", &header.preview, writer, sink);
    write_locators(header.locators.as_slice(), writer, sink);
}

/// Writes the text of the sections, a piece at a time: the version, the code page, the place of the preview, and the locators in
/// file order, a line each. A write fault comes only where the sink's count of faults rose; the only other refusal is out of memory.
/// After either the sink took a prefix of the text.
#[tactic(auto, unfolding(crate::specs::Writing::WritesTextBy))]
pub fn print_sections<W: Sink>(
    alloc: Global,
    header: &FileHeader,
    sink: &mut W,
) -> Result<(), ShowFault>
    ensures bytes { Sends (W.taken sink.old) (W.taken sink.new) (texts.sections_text header.now) result }
    ensures never_falls { W.faults sink.old ≤ W.faults sink.new }
    ensures stands { W.faults sink.old ≡ LAST_COUNT → W.faults sink.new ≡ LAST_COUNT }
    ensures ok { OnOk result (W.faults sink.new ≡ W.faults sink.old) }
    ensures no_memory { IsErrOf result ShowFault.NoMemory → W.faults sink.new ≡ W.faults sink.old }
    ensures write_fault { IsErrOf result ShowFault.WriteFault → Rose (W.faults sink.old) (W.faults sink.new) }
{
    let mut writer = TextWriter::new(alloc);
    write_header(header, &mut writer, sink);
    writer.end(sink)
}
