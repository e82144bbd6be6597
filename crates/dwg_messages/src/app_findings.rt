//! What the audit of extended data finds, a line each, and the verdict.

ghost use Rattle.dwg_messages.specs.AppText as texts;
ghost use Rattle.dwg_text.specs.Writing.{WritesText};

use crate::paragraphs::{Paragraph, write_all};
use crate::verdict::write_verdict;
use dwg_appitems::AppFinding;
use dwg_base::Sink;
use dwg_text::{Count, Hexadecimal, TextWriter};

impl Paragraph for AppFinding {
    ghost written = { texts.app_finding_line };

    fn write<W: Sink>(&self, writer: &mut TextWriter, sink: &mut W) {
        writer.write("finding ", sink);
        writer.write_value(&Hexadecimal(self.handle.value()), sink);
        writer.write(" app ", sink);
        writer.write_value(&Count(self.index), sink);
        writer.write(" ", sink);
        writer.write_value(&Count(self.item), sink);
        writer.write(" ", sink);
        writer.write_value(&Hexadecimal(self.target), sink);
        writer.write("\n", sink);
    }
}

/// Writes the findings in their order, and the verdict.
pub(crate) fn write_app_findings<W: Sink>(
    findings: &[AppFinding],
    writer: &mut TextWriter,
    sink: &mut W,
)
    ensures { WritesText writer.old writer.new (W.taken sink.old) (W.taken sink.new) (W.faults sink.old) (W.faults sink.new) (texts.findings_text findings.now) }
{
    write_all(findings, writer, sink);
    write_verdict("appdata", findings, writer, sink);
}
