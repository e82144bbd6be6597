//! Running a job: what it comes to is made, and then sent.

ghost use Rattle.std.specs.Prelude.{◌≡◌, ◌≤◌, Option, IfErr, IfOk, length};
ghost use Rattle.dwg_base.specs.Refusal.{Refusal};
ghost use Rattle.dwg_base.specs.Refusals.{Reports};
ghost use Rattle.dwg_base.specs.Devices.{MOST_BYTES};
ghost use Rattle.dwg_commands.specs.Jobs.{asked, IsWithin};
ghost use Rattle.dwg_commands.specs.Answered.{noted};
ghost use Rattle.dwg_commands.specs.Outcome.{outcome_within, refused_or};
ghost use Rattle.dwg_commands.specs.declared.outcome.Outcome.{Outcome};
ghost use Rattle.dwg_commands.specs.Pendings.{comes_to, IsRefused};
ghost use Rattle.dwg_commands.specs.Run.{Sent, sinks};

use crate::appdata::appdata_pending;
use crate::audit::audit_pending;
use crate::carry::carry_pending;
use crate::certificates::{accept_pending, certify_pending};
use crate::drawings::{rewrite_pending, show_pending};
use crate::job::Job;
use crate::made::{drill_pending, make_pending};
use crate::outcome::refused_outcome;
use crate::pending::Pending;
use crate::recover::recover_pending;
use crate::sections::{classes_pending, sections_pending};
use crate::sending::send_pending;
use crate::status::Status;
use crate::words::Command;
use dwg_base::{Fault, NoMemory, Sink};
use dwg_text::{too_long_note, usage_note};
use std::alloc::Global;

/// What a command answers to an input within the limit, or the first of its lines that fails.
#[tactic(auto, using(crate::proofs::Unread::made_within, crate::proofs::Unread::drilled_within))]
fn pending_or_fault<'a>(
    alloc: Global,
    command: Command,
    bytes: &'a [u8],
) -> Result<Pending<'a>, Fault>
    requires { length bytes.now ≤ MOST_BYTES }
    ensures reported { IfOk result (λ pending. comes_to pending ≡ outcome_within command bytes.now) }
    ensures refused { IfErr result (λ fault. IsRefused command bytes.now fault) }
{
    match command {
        Command::Sections => sections_pending(alloc, bytes),
        Command::Classes => classes_pending(alloc, bytes),
        Command::Show => show_pending(alloc, bytes),
        Command::Rewrite => rewrite_pending(alloc, bytes),
        Command::Audit => audit_pending(alloc, bytes),
        Command::Recover => Ok(recover_pending(alloc, bytes)?),
        Command::Appdata => appdata_pending(alloc, bytes),
        Command::Certify => certify_pending(alloc, bytes),
        Command::Accept => accept_pending(alloc, bytes),
        Command::Carry => carry_pending(alloc, bytes),
        Command::Make { n, seed } => Ok(make_pending(alloc, n, seed)?),
        Command::Drill { n } => Ok(drill_pending(alloc, n)?),
    }
}

/// What is answered of a fault: its refusal. Err: out of memory.
fn refused_pending<'a>(alloc: Global, fault: Fault) -> Result<Pending<'a>, NoMemory>
    ensures { (first : Option Refusal) (answer : Outcome) → Reports fault first → IfOk result (λ pending. comes_to pending ≡ refused_or first answer) }
{
    match fault {
        Fault::Refused(refusal) => Ok(Pending::Whole(refused_outcome(alloc, refusal)?)),
        Fault::NoMemory => Err(NoMemory),
    }
}

/// What a command answers to an input within the limit: where one of its lines fails, the refusal. Err: out of memory.
#[tactic(auto, unfolding(crate::specs::Outcome::outcome_within))]
fn pending_within<'a>(
    alloc: Global,
    command: Command,
    bytes: &'a [u8],
) -> Result<Pending<'a>, NoMemory>
    requires { length bytes.now ≤ MOST_BYTES }
    ensures { IfOk result (λ pending. comes_to pending ≡ outcome_within command bytes.now) }
{
    match pending_or_fault(alloc, command, bytes) {
        Ok(pending) => Ok(pending),
        Err(fault) => refused_pending(alloc, fault),
    }
}

/// A note alone.
fn noted<'a>(note: &'static [u8], status: Status) -> Pending<'a>
    ensures { comes_to result ≡ noted note.now status }
{
    Pending::Fixed {
        output: b"",
        note,
        status,
    }
}

/// What a job comes to. Err: out of memory.
fn pending_of<'a>(alloc: Global, job: &'a Job) -> Result<Pending<'a>, NoMemory>
    requires { IsWithin job.now }
    ensures { IfOk result (λ pending. comes_to pending ≡ asked job.now) }
{
    match job {
        Job::Usage => Ok(noted(usage_note(), Status::Usage)),
        Job::TooLong => Ok(noted(too_long_note(), Status::TooLong)),
        Job::Run { command, bytes } => pending_within(alloc, *command, bytes.as_slice()),
    }
}

/// Runs a job: what it comes to is sent to output and notes.
pub fn run_job<W: Sink, N: Sink>(alloc: Global, job: &Job, output: &mut W, notes: &mut N) -> Status
    requires { IsWithin job.now }
    ensures never_fall { (W.faults output.old ≤ W.faults output.new) × (N.faults notes.old ≤ N.faults notes.new) }
    ensures sent { Sent (asked job.now) result (sinks W.taken W.faults output.old N.taken N.faults notes.old) (sinks W.taken W.faults output.new N.taken N.faults notes.new) }
{
    match pending_of(alloc, job) {
        Ok(pending) => send_pending(alloc, &pending, output, notes),
        Err(NoMemory) => Status::NoMemory,
    }
}
