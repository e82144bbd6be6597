//! What `sections` and `classes` answer to an input within the limit.

ghost use Rattle.std.specs.Prelude.{◌≡◌, ◌≤◌, IfErr, IfOk, length};
ghost use Rattle.dwg_base.specs.Devices.{MOST_BYTES};
ghost use Rattle.dwg_commands.specs.Outcome.{outcome_within};
ghost use Rattle.dwg_commands.specs.Pendings.{comes_to, IsRefused};

use crate::pending::Pending;
use crate::printed_output::PrintedOutput;
use crate::words::Command;
use dwg_base::Fault;
use dwg_file::classes_of_file;
use dwg_sections::read_file_header;
use std::alloc::Global;

/// What `sections` answers.
#[tactic(auto, unfolding(crate::specs::Outcome::outcome_within, crate::specs::Commands::row_of))]
pub(crate) fn sections_pending<'a>(alloc: Global, bytes: &'a [u8]) -> Result<Pending<'a>, Fault>
    ensures reported { IfOk result (λ pending. comes_to pending ≡ outcome_within Command.Sections bytes.now) }
    ensures refused { IfErr result (λ fault. IsRefused Command.Sections bytes.now fault) }
{
    let header = read_file_header(alloc, bytes)?;
    Ok(Pending::Text(PrintedOutput::Sections(header)))
}

/// What `classes` answers.
#[tactic(auto, using(crate::proofs::Faults::refused_by_header), unfolding(crate::specs::Outcome::outcome_within, crate::specs::Commands::row_of))]
pub(crate) fn classes_pending<'a>(alloc: Global, bytes: &'a [u8]) -> Result<Pending<'a>, Fault>
    requires { length bytes.now ≤ MOST_BYTES }
    ensures reported { IfOk result (λ pending. comes_to pending ≡ outcome_within Command.Classes bytes.now) }
    ensures refused { IfErr result (λ fault. IsRefused Command.Classes bytes.now fault) }
{
    let header = read_file_header(alloc, bytes)?;
    let classes = classes_of_file(alloc, bytes, &header)?;
    Ok(Pending::Text(PrintedOutput::Classes(classes)))
}
