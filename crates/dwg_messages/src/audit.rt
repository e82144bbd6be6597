//! The text of an audit.

ghost use Rattle.std.specs.Prelude.{◌≡◌, ◌≤◌, IsErrOf, OnOk};
ghost use Rattle.dwg_base.specs.Devices.{LAST_COUNT, Rose, Sends};
ghost use Rattle.dwg_messages.specs.AuditText as texts;
ghost use Rattle.dwg_text.specs.Writing.{WritesText};

use crate::paragraphs::{Paragraph, write_all};
use crate::verdict::write_verdict;
use dwg_audit::{Finding, Rule};
use dwg_base::Sink;
use dwg_kinds::{Field, field_word};
use dwg_text::{Count, Hexadecimal, ShowFault, TextWriter};
use std::alloc::Global;

/// The word of a rule.
#[tactic(auto, unfolding(crate::specs::AuditText::rule_word))]
fn rule_word(rule: Rule) -> &'static str
    ensures { result.now ≡ texts.rule_word rule }
{
    match rule {
        Rule::Control => "control",
        Rule::Resolve => "resolve",
        Rule::Claim => "claim",
        Rule::Chain => "chain",
        Rule::Path => "path",
    }
}

/// The name of a field, or a hyphen where there is none.
#[tactic(auto, unfolding(crate::specs::AuditText::field_text))]
fn field_text(field: Option<Field>) -> &'static str
    ensures { result.now ≡ texts.field_text field }
{
    match field {
        Some(field) => field_word(field),
        None => "-",
    }
}

impl Paragraph for Finding {
    ghost written = { texts.finding_line };

    fn write<W: Sink>(&self, writer: &mut TextWriter, sink: &mut W) {
        writer.write("finding ", sink);
        writer.write_value(&Hexadecimal(self.handle.value()), sink);
        writer.write(" ", sink);
        writer.write(rule_word(self.rule), sink);
        writer.write(" ", sink);
        writer.write(field_text(self.field), sink);
        writer.write(" ", sink);
        writer.write_value(&Count(self.position), sink);
        writer.write(" ", sink);
        writer.write_value(&Hexadecimal(self.target.value()), sink);
        writer.write("\n", sink);
    }
}

/// Writes the findings in their order, and the verdict.
fn write_findings<W: Sink>(findings: &[Finding], writer: &mut TextWriter, sink: &mut W)
    ensures { WritesText writer.old writer.new (W.taken sink.old) (W.taken sink.new) (W.faults sink.old) (W.faults sink.new) (texts.audit_text findings.now) }
{
    write_all(findings, writer, sink);
    write_verdict("audit", findings, writer, sink);
}

/// Writes the text of an audit, a piece at a time: the findings in their order, a line each, and the verdict. A write fault comes only
/// where the sink's count of faults rose; the only other refusal is out of memory. After either the sink took a prefix of the text.
#[tactic(auto, unfolding(dwg_text::specs::Writing::WritesTextBy))]
pub fn print_findings<W: Sink>(
    alloc: Global,
    findings: &[Finding],
    sink: &mut W,
) -> Result<(), ShowFault>
    ensures bytes { Sends (W.taken sink.old) (W.taken sink.new) (texts.audit_text findings.now) result }
    ensures never_falls { W.faults sink.old ≤ W.faults sink.new }
    ensures stands { W.faults sink.old ≡ LAST_COUNT → W.faults sink.new ≡ LAST_COUNT }
    ensures ok { OnOk result (W.faults sink.new ≡ W.faults sink.old) }
    ensures no_memory { IsErrOf result ShowFault.NoMemory → W.faults sink.new ≡ W.faults sink.old }
    ensures write_fault { IsErrOf result ShowFault.WriteFault → Rose (W.faults sink.old) (W.faults sink.new) }
{
    let mut writer = TextWriter::new(alloc);
    write_findings(findings, &mut writer, sink);
    writer.end(sink)
}
