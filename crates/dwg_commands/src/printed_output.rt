//! Texts that are made as they are sent.

ghost use Rattle.std.specs.Prelude.{◌≡◌, ◌≤◌, IsErrOf, OnOk};
ghost use Rattle.dwg_base.specs.Devices.{Rose, Sends};
ghost use Rattle.dwg_file.specs.Contents.{contents_of};
ghost use Rattle.dwg_messages.specs.AppText.{appdata_text};
ghost use Rattle.dwg_commands.specs.PrintedOutputs.{text_of, text_status};

use crate::made::Drilled;
use crate::status::{Status, status_of};
use dwg_appitems::AppFinding;
use dwg_audit::Finding;
use dwg_base::{Items, Sink};
use dwg_classes::Class;
use dwg_file::Drawing;
use dwg_messages::{appdata, print_findings};
use dwg_sections::FileHeader;
use dwg_show::show;
use dwg_text::{ShowFault, print_classes, print_sections};
use std::alloc::Global;

/// What a text is made of.
#[derive(Drop)]
pub(crate) enum PrintedOutput<'a> {
    /// The text of a file's sections.
    Sections(FileHeader),
    /// The text of a file's classes.
    Classes(Items<Class>),
    /// The text of a drawing.
    Drawing(Drawing<'a>),
    /// The text of an audit: what the references of a drawing fail.
    Findings(Items<Finding>),
    /// The text of a drawing's extended data.
    Items {
        /// The drawing.
        drawing: Drawing<'a>,
        /// What its items refer to and isn't there.
        findings: Items<AppFinding>,
    },
    /// The text of a drill.
    Drill(Drilled),
}

/// Writes the text of a drawing's extended data, a piece at a time.
fn print_items<W: Sink>(
    alloc: Global,
    drawing: &Drawing<'_>,
    findings: &[AppFinding],
    sink: &mut W,
) -> Result<(), ShowFault>
    ensures bytes { Sends (W.taken sink.old) (W.taken sink.new) (appdata_text (contents_of drawing.now).objects findings.now) result }
    ensures never_falls { W.faults sink.old ≤ W.faults sink.new }
    ensures ok { OnOk result (W.faults sink.new ≡ W.faults sink.old) }
    ensures no_memory { IsErrOf result ShowFault.NoMemory → W.faults sink.new ≡ W.faults sink.old }
    ensures write_fault { IsErrOf result ShowFault.WriteFault → Rose (W.faults sink.old) (W.faults sink.new) }
{
    let parts = drawing.parts();
    appdata(alloc, parts.objects.as_slice(), findings, sink)
}

/// Writes a text, a piece at a time.
pub(crate) fn print_text<W: Sink>(
    alloc: Global,
    text: &PrintedOutput<'_>,
    sink: &mut W,
) -> Result<(), ShowFault>
    ensures bytes { Sends (W.taken sink.old) (W.taken sink.new) (text_of text.now) result }
    ensures never_falls { W.faults sink.old ≤ W.faults sink.new }
    ensures ok { OnOk result (W.faults sink.new ≡ W.faults sink.old) }
    ensures no_memory { IsErrOf result ShowFault.NoMemory → W.faults sink.new ≡ W.faults sink.old }
    ensures write_fault { IsErrOf result ShowFault.WriteFault → Rose (W.faults sink.old) (W.faults sink.new) }
{
    match text {
        PrintedOutput::Sections(header) => print_sections(alloc, header, sink),
        PrintedOutput::Classes(classes) => print_classes(alloc, classes.as_slice(), sink),
        PrintedOutput::Drawing(drawing) => show(alloc, drawing, sink),
        PrintedOutput::Findings(findings) => print_findings(alloc, findings.as_slice(), sink),
        PrintedOutput::Items { drawing, findings } => {
            print_items(alloc, drawing, findings.as_slice(), sink)
        }
        PrintedOutput::Drill(drilled) => drilled.print(alloc, sink),
    }
}

/// How the run ends whose output is a text.
pub(crate) fn text_status(text: &PrintedOutput<'_>) -> Status
    ensures { result ≡ text_status text.now }
{
    match text {
        PrintedOutput::Findings(findings) => status_of(findings.as_slice()),
        PrintedOutput::Items { findings, .. } => status_of(findings.as_slice()),
        _ => Status::Done,
    }
}
