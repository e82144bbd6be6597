//! What `appdata` answers to an input within the limit.

ghost use Rattle.std.specs.Prelude.{◌≡◌, ◌<◌, ◌≤◌, IfErr, IfOk, length};
ghost use Rattle.dwg_appitems.specs.AppFindings.{app_findings};
ghost use Rattle.dwg_base.specs.Devices.{MOST_BYTES};
ghost use Rattle.dwg_file.specs.Contents.{contents_of};
ghost use Rattle.dwg_commands.specs.Outcome.{outcome_within};
ghost use Rattle.dwg_commands.specs.Pendings.{comes_to, IsRefused};

use crate::drawings::drawing_of;
use crate::pending::Pending;
use crate::printed_output::PrintedOutput;
use crate::words::Command;
use dwg_appitems::{AppFinding, app_audit};
use dwg_audit::auditable_laws;
use dwg_base::{Fault, Items, NoMemory};
use dwg_file::Drawing;
use dwg_steps::Steps;
use std::alloc::Global;
use std::marker::Brand;
use std::sync::ledger::{Blank, Ledger};

/// What the items of a drawing refer to and isn't there, with a counter of the ledger that the blank opens. Err: out of memory.
fn audit_counted<L: Ledger>(
    alloc: Global,
    drawing: &Drawing<'_>,
    blank: Blank,
) -> Result<Items<AppFinding>, NoMemory>
    requires name { blank.name ≡ L.name }
    requires parts { blank.parts ≡ L.parts }
    requires some { 0 < blank.parts }
    ensures { IfOk result (λ found. found ≡ app_findings (contents_of drawing.now).objects) }
{
    auditable_laws();
    let parts = drawing.parts();
    let mut steps = Steps::<L>::new(blank);
    app_audit(alloc, parts.objects.as_slice(), &mut steps)
}

/// What the items of a drawing refer to and isn't there. Err: out of memory.
fn audit_items(alloc: Global, drawing: &Drawing<'_>) -> Result<Items<AppFinding>, NoMemory>
    ensures { IfOk result (λ found. found ≡ app_findings (contents_of drawing.now).objects) }
{
    audit_counted::<Brand>(alloc, drawing, Blank::new(1))
}

/// What `appdata` answers.
#[tactic(auto, unfolding(crate::specs::Outcome::outcome_within, crate::specs::Commands::row_of, crate::specs::Answered::items_reported))]
pub(crate) fn appdata_pending<'a>(alloc: Global, bytes: &'a [u8]) -> Result<Pending<'a>, Fault>
    requires { length bytes.now ≤ MOST_BYTES }
    ensures reported { IfOk result (λ pending. comes_to pending ≡ outcome_within Command.Appdata bytes.now) }
    ensures refused { IfErr result (λ fault. IsRefused Command.Appdata bytes.now fault) }
{
    let drawing = drawing_of(alloc, bytes)?;
    let findings = audit_items(alloc, &drawing)?;
    Ok(Pending::Text(PrintedOutput::Items { drawing, findings }))
}
