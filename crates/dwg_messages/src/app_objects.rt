//! The application data of objects, and the text of all.

ghost use Rattle.std.specs.Prelude.{◌≡◌, ◌≤◌, IsErrOf, OnOk, map};
ghost use Rattle.dwg_appitems.specs.AppFindings.{apps_of};
ghost use Rattle.dwg_base.specs.Devices.{LAST_COUNT, Rose, Sends};
ghost use Rattle.dwg_object.specs.Objects.{handle_of, value_of};
ghost use Rattle.dwg_text.specs.Numbered.{numbered};
ghost use Rattle.dwg_text.specs.Writing.{WritesText};
ghost use Rattle.dwg_messages.specs.AppText as texts;

use crate::app_findings::write_app_findings;
use crate::app_items::write_bytes_line;
use crate::paragraphs::{Paragraph, write_all};
use dwg_appitems::{AppFinding, AppItem, apps_of, read_items};
use dwg_base::{Handle, NoMemory, Sink};
use dwg_common::AppData;
use dwg_handles::Ref;
use dwg_object::Object;
use dwg_text::{Count, Hexadecimal, ShowFault, TextWriter, write_line};
use std::alloc::Global;

/// Writes whose application data of which number it is, and of which application.
fn write_prefix<W: Sink>(
    handle: Handle,
    index: u64,
    application: &Ref,
    writer: &mut TextWriter,
    sink: &mut W,
)
    ensures { WritesText writer.old writer.new (W.taken sink.old) (W.taken sink.new) (W.faults sink.old) (W.faults sink.new) (texts.app_prefix handle index application.now) }
{
    writer.write("app ", sink);
    writer.write_value(&Hexadecimal(handle.value()), sink);
    writer.write(" ", sink);
    writer.write_value(&Count(index), sink);
    writer.write(" ", sink);
    writer.write_value(application, sink);
    writer.write(" ", sink);
}

/// Writes how many items there are, and the items.
fn write_counted<W: Sink>(items: &[AppItem], writer: &mut TextWriter, sink: &mut W)
    ensures { WritesText writer.old writer.new (W.taken sink.old) (W.taken sink.new) (W.faults sink.old) (W.faults sink.new) (texts.items_text items.now) }
{
    write_line("", &Count(items.len() as u64), writer, sink);
    write_all(items, writer, sink);
}

/// Writes what bytes are: items, or bytes that are no items. The items are read for that, and given back.
#[tactic(auto, unfolding(crate::specs::AppText::app_after))]
fn write_after<W: Sink>(bytes: &[u8], writer: &mut TextWriter, sink: &mut W)
    ensures { WritesText writer.old writer.new (W.taken sink.old) (W.taken sink.new) (W.faults sink.old) (W.faults sink.new) (texts.app_after bytes.now) }
{
    match read_items(writer.alloc, bytes) {
        Ok(Some(items)) => write_counted(items.as_slice(), writer, sink),
        Ok(None) => write_bytes_line("raw ", bytes, writer, sink),
        Err(NoMemory) => writer.fail_no_memory(),
    }
}

/// Writes the application data of a number of an object.
#[tactic(auto, using(dwg_text::proofs::Writing::writes_idle))]
fn write_app<W: Sink>(
    handle: Handle,
    index: u64,
    app: &AppData,
    writer: &mut TextWriter,
    sink: &mut W,
)
    ensures { WritesText writer.old writer.new (W.taken sink.old) (W.taken sink.new) (W.faults sink.old) (W.faults sink.new) (texts.app_text handle index app.now) }
{
    if writer.fault.is_some() {
        return;
    }
    write_prefix(handle, index, &app.application, writer, sink);
    write_after(app.bytes.as_slice(), writer, sink);
}

/// Writes application data, one after the other.
#[tactic(auto, using(dwg_text::proofs::Writing::writes_nothing))]
fn write_apps<W: Sink>(handle: Handle, apps: &[AppData], writer: &mut TextWriter, sink: &mut W)
    ensures { WritesText writer.old writer.new (W.taken sink.old) (W.taken sink.new) (W.faults sink.old) (W.faults sink.new) (numbered (texts.app_text handle) 0 apps.now) }
{
    'apps: for index in 0..apps.len() {
        write_app(handle, index as u64, &apps[index], writer, sink);
    }
}

/// The application data of an object.
impl Paragraph for Object<'_> {
    ghost written = { λ object. texts.apps_text (value_of object) };

    fn write<W: Sink>(&self, writer: &mut TextWriter, sink: &mut W) {
        write_apps(self.handle(), apps_of(self), writer, sink);
    }
}

/// Writes the text of the extended data of objects, a piece at a time: the application data of each, item by item, or its bytes where
/// these are no items; then these findings in their order, and the verdict. The items of one application data at a time are read for
/// that. A write fault comes only where the sink's count of faults rose; the only other refusal is out of memory. After either the
/// sink took a prefix of the text.
#[tactic(auto, unfolding(dwg_text::specs::Writing::WritesTextBy))]
pub fn appdata<W: Sink>(
    alloc: Global,
    objects: &[Object<'_>],
    findings: &[AppFinding],
    sink: &mut W,
) -> Result<(), ShowFault>
    ensures bytes { Sends (W.taken sink.old) (W.taken sink.new) (texts.appdata_text (map value_of objects.now) findings.now) result }
    ensures never_falls { W.faults sink.old ≤ W.faults sink.new }
    ensures stands { W.faults sink.old ≡ LAST_COUNT → W.faults sink.new ≡ LAST_COUNT }
    ensures ok { OnOk result (W.faults sink.new ≡ W.faults sink.old) }
    ensures no_memory { IsErrOf result ShowFault.NoMemory → W.faults sink.new ≡ W.faults sink.old }
    ensures write_fault { IsErrOf result ShowFault.WriteFault → Rose (W.faults sink.old) (W.faults sink.new) }
{
    let mut writer = TextWriter::new(alloc);
    write_all(objects, &mut writer, sink);
    write_app_findings(findings, &mut writer, sink);
    writer.end(sink)
}
