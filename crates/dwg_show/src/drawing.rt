//! The text of a drawing.

ghost use Rattle.std.specs.Prelude.{◌≡◌, ⊤, ◌≤◌, ◌++◌, codes, decimal, flat_map, IsErrOf, IfOk, OnOk, map, string_bytes};
ghost use Rattle.std.specs.List.{AllByRecursion};
ghost use Rattle.dwg_base.specs.Devices.{LAST_COUNT, Rose, Sends};
ghost use Rattle.dwg_base.specs.Versions.{version_bytes};
ghost use Rattle.dwg_file.specs.Contents.{contents_of, other_value};
ghost use Rattle.dwg_file.specs.Valid.{IsValid};
ghost use Rattle.dwg_object.specs.Objects.{value_of};
ghost use Rattle.dwg_text.specs.Lines.{line};
ghost use Rattle.dwg_show.specs.DrawingText as texts;
ghost use Rattle.dwg_show.specs.FewBits.{HasFewBits};
ghost use Rattle.dwg_text.specs.Writing.{WritesText};

use crate::paragraphs::{Paragraph, write_all};
use dwg_base::{Sink, Version};
use dwg_file::{Drawing, Other, Parts};
use dwg_object::Object;
use dwg_text::{ShowFault, TextWriter, version_word, write_bytes, write_classes};
use std::alloc::{AllocError, Global};

/// The prefix of the line of an unknown section.
fn other_prefix(alloc: Global, number: u8) -> Result<String, AllocError>
    ensures { IfOk result (λ text. string_bytes text ≡ codes "section " ++ decimal number ++ codes " ") }
{
    format!(in alloc; "section {number} ")
}

/// Writes an unknown section.
fn write_other<W: Sink>(number: u8, bytes: &[u8], writer: &mut TextWriter, sink: &mut W)
    ensures { WritesText writer.old writer.new (W.taken sink.old) (W.taken sink.new) (W.faults sink.old) (W.faults sink.new) (texts.other_line (record { number = number; bytes = bytes.now })) }
{
    writer.write_made(other_prefix(writer.alloc, number), sink);
    write_bytes(bytes, writer, sink);
    writer.write("\n", sink);
}

impl Paragraph for Other<'_> {
    ghost can_write = { λ other. ⊤ };

    ghost written = { λ other. texts.other_line (other_value other) };

    fn write<W: Sink>(&self, writer: &mut TextWriter, sink: &mut W) {
        write_other(self.number, self.bytes.as_slice(), writer, sink);
    }
}

/// The prefix of the line that a drawing begins with.
fn drawing_prefix(alloc: Global, version: Version, code_page: u16) -> Result<String, AllocError>
    ensures { IfOk result (λ text. string_bytes text ≡ codes "drawing " ++ version_bytes version ++ codes " codepage " ++ decimal code_page ++ codes " lead ") }
{
    let version = version_word(version);
    format!(in alloc; "drawing {version} codepage {code_page} lead ")
}

/// Writes the version, the code page, and the bytes that are kept without meaning.
fn write_drawing_line<W: Sink>(parts: &Parts<'_>, writer: &mut TextWriter, sink: &mut W)
    ensures { WritesText writer.old writer.new (W.taken sink.old) (W.taken sink.new) (W.faults sink.old) (W.faults sink.new) (texts.drawing_line (contents_of parts.now)) }
{
    writer.write_made(
        drawing_prefix(writer.alloc, parts.version, parts.code_page),
        sink,
    );
    write_bytes(&parts.lead, writer, sink);
    writer.write(" mark ", sink);
    write_bytes(&parts.mark, writer, sink);
    writer.write("\n", sink);
}

/// Writes the header variables.
fn write_variables<W: Sink>(variables: &[u8], writer: &mut TextWriter, sink: &mut W)
    ensures { WritesText writer.old writer.new (W.taken sink.old) (W.taken sink.new) (W.faults sink.old) (W.faults sink.new) (texts.variables_line variables.now) }
{
    writer.write("variables ", sink);
    write_bytes(variables, writer, sink);
    writer.write("\n", sink);
}

/// The line that writes how many there are of something.
fn count_line(alloc: Global, name: &str, count: usize) -> Result<String, AllocError>
    ensures { IfOk result (λ text. string_bytes text ≡ line (name.now ++ codes " " ++ decimal count)) }
{
    let mut text = format!(in alloc; "{name} {count}")?;
    text.push_str("\n")?;
    Ok(text)
}

/// Writes the unknown sections.
fn write_others<W: Sink>(others: &[Other<'_>], writer: &mut TextWriter, sink: &mut W)
    ensures { WritesText writer.old writer.new (W.taken sink.old) (W.taken sink.new) (W.faults sink.old) (W.faults sink.new) (flat_map texts.other_line (map other_value others.now)) }
{
    write_all(others, writer, sink);
}

/// Writes the objects.
fn write_objects<W: Sink>(objects: &[Object<'_>], writer: &mut TextWriter, sink: &mut W)
    requires { AllByRecursion HasFewBits (map value_of objects.now) }
    ensures { WritesText writer.old writer.new (W.taken sink.old) (W.taken sink.new) (W.faults sink.old) (W.faults sink.new) (texts.objects_text (map value_of objects.now)) }
{
    writer.write_made(count_line(writer.alloc, "objects", objects.len()), sink);
    write_all(objects, writer, sink);
}

/// Writes a drawing.
fn write_drawing<W: Sink>(parts: &Parts<'_>, writer: &mut TextWriter, sink: &mut W)
    requires { IsValid (contents_of parts.now) }
    ensures { WritesText writer.old writer.new (W.taken sink.old) (W.taken sink.new) (W.faults sink.old) (W.faults sink.new) (texts.show_text (contents_of parts.now)) }
{
    write_drawing_line(parts, writer, sink);
    write_variables(parts.variables.as_slice(), writer, sink);
    write_classes(parts.classes.as_slice(), writer, sink);
    write_others(parts.others.as_slice(), writer, sink);
    write_objects(parts.objects.as_slice(), writer, sink);
}

/// Writes the text of a drawing, a piece at a time: what its header says, the header variables, the classes, the unknown
/// sections, and the objects in order of handle, each with all its fields. A write fault comes only where the sink's count of
/// faults rose; the only other refusal is out of memory. After either the sink took a prefix of the text.
#[tactic(auto, unfolding(dwg_text::specs::Writing::WritesTextBy))]
pub fn show<W: Sink>(alloc: Global, drawing: &Drawing<'_>, sink: &mut W) -> Result<(), ShowFault>
    ensures bytes { Sends (W.taken sink.old) (W.taken sink.new) (texts.show_text (contents_of drawing.now)) result }
    ensures never_falls { W.faults sink.old ≤ W.faults sink.new }
    ensures stands { W.faults sink.old ≡ LAST_COUNT → W.faults sink.new ≡ LAST_COUNT }
    ensures ok { OnOk result (W.faults sink.new ≡ W.faults sink.old) }
    ensures no_memory { IsErrOf result ShowFault.NoMemory → W.faults sink.new ≡ W.faults sink.old }
    ensures write_fault { IsErrOf result ShowFault.WriteFault → Rose (W.faults sink.old) (W.faults sink.new) }
{
    let mut writer = TextWriter::new(alloc);
    write_drawing(drawing.parts(), &mut writer, sink);
    writer.end(sink)
}
