//! What `audit` answers to an input within the limit.

ghost use Rattle.std.specs.Prelude.{◌≡◌, ◌≤◌, IfErr, IfOk, length};
ghost use Rattle.dwg_base.specs.Devices.{MOST_BYTES};
ghost use Rattle.dwg_commands.specs.Outcome.{outcome_within};
ghost use Rattle.dwg_commands.specs.Pendings.{comes_to, IsRefused};

use crate::drawings::drawing_of;
use crate::pending::Pending;
use crate::printed_output::PrintedOutput;
use crate::words::Command;
use dwg_audit::audit_drawing;
use dwg_base::Fault;
use std::alloc::Global;

/// What `audit` answers.
#[tactic(auto, unfolding(crate::specs::Outcome::outcome_within, crate::specs::Commands::row_of, crate::specs::Answered::audited))]
pub(crate) fn audit_pending<'a>(alloc: Global, bytes: &'a [u8]) -> Result<Pending<'a>, Fault>
    requires { length bytes.now ≤ MOST_BYTES }
    ensures reported { IfOk result (λ pending. comes_to pending ≡ outcome_within Command.Audit bytes.now) }
    ensures refused { IfErr result (λ fault. IsRefused Command.Audit bytes.now fault) }
{
    let drawing = drawing_of(alloc, bytes)?;
    let findings = audit_drawing(alloc, &drawing)?;
    Ok(Pending::Text(PrintedOutput::Findings(findings)))
}
