//! The answer of a command to bytes in memory, in buffers of the caller's.

ghost use Rattle.std.specs.Prelude.{◌≡◌, ◌<◌, ◌≤◌, ◌⊎◌, length, IfOk, IsTrue};
ghost use Rattle.dwg_commands.specs.Outcome.{outcome_of_input};
ghost use Rattle.dwg_commands.specs.Jobs.{asked, IsWithin};
ghost use Rattle.dwg_commands.specs.Run.{IsSettled};
ghost use Rattle.dwg_commands.specs.Status.{code_of};
ghost use Rattle.dwg_c.specs.Answers.{Answers, Left};
ghost use Rattle.dwg_c.specs.Buffers.{Keeps};

use crate::caller_buffer::CallerBuffer;
use dwg_base::{ByteRun, LIMIT, NoMemory};
use dwg_commands::{Command, Job, Status, run_job};
use std::alloc::Global;

/// What a command is asked of an input. Err: out of memory.
#[tactic(auto, unfolding(dwg_commands::specs::Outcome::outcome_of_input))]
fn job_of(alloc: Global, command: Command, input: &[u8]) -> Result<Job, NoMemory>
    ensures within { IfOk result (λ job. IsWithin job) }
    ensures asked { IfOk result (λ job. asked job ≡ outcome_of_input command input.now) }
{
    if input.len() as u64 > LIMIT {
        return Ok(Job::TooLong);
    }
    Ok(Job::Run {
        command,
        bytes: ByteRun::from_slice(alloc, input)?,
    })
}

/// What was sent to both buffers: the status of the answer, and how many bytes it has for each.
#[derive(Clone, Copy)]
struct Sent {
    status: Status,
    written: usize,
    noted: usize,
}

/// Whether a run came to an end that its words and its input determine.
fn is_settled(status: &Status) -> bool
    ensures { IsTrue result → IsSettled status.now }
{
    match status {
        Status::ReadFault => false,
        Status::WriteFault => false,
        Status::NoMemory => false,
        _ => true,
    }
}

/// Runs a job over both buffers. Err: out of memory.
fn send(alloc: Global, job: &Job, output: &mut [u8], notes: &mut [u8]) -> Result<Sent, NoMemory>
    requires { IsWithin job.now }
    ensures settled { IfOk result (λ sent. IsSettled (asked job.now).status) }
    ensures status { IfOk result (λ sent. sent.status ≡ (asked job.now).status) }
    ensures written { IfOk result (λ sent. sent.written ≡ length (asked job.now).output) }
    ensures noted { IfOk result (λ sent. sent.noted ≡ length (asked job.now).note) }
    ensures output { IfOk result (λ sent. Keeps output.new (asked job.now).output) }
    ensures notes { IfOk result (λ sent. Keeps notes.new (asked job.now).note) }
{
    let mut whole = CallerBuffer::over(output);
    let mut note = CallerBuffer::over(notes);
    let status = run_job(alloc, job, &mut whole, &mut note);
    if !is_settled(&status) {
        return Err(NoMemory);
    }
    let Some(written) = whole.size() else {
        return Err(NoMemory);
    };
    let Some(noted) = note.size() else {
        return Err(NoMemory);
    };
    Ok(Sent {
        status,
        written,
        noted,
    })
}

/// Sends what a command answers to an input. Err: out of memory.
fn send_answer(
    alloc: Global,
    command: Command,
    input: &[u8],
    output: &mut [u8],
    notes: &mut [u8],
) -> Result<Sent, NoMemory>
    ensures settled { IfOk result (λ sent. IsSettled (outcome_of_input command input.now).status) }
    ensures status { IfOk result (λ sent. sent.status ≡ (outcome_of_input command input.now).status) }
    ensures written { IfOk result (λ sent. sent.written ≡ length (outcome_of_input command input.now).output) }
    ensures noted { IfOk result (λ sent. sent.noted ≡ length (outcome_of_input command input.now).note) }
    ensures output { IfOk result (λ sent. Keeps output.new (outcome_of_input command input.now).output) }
    ensures notes { IfOk result (λ sent. Keeps notes.new (outcome_of_input command input.now).note) }
{
    let job = job_of(alloc, command, input)?;
    send(alloc, &job, output, notes)
}

/// The status of a call whose buffers have so much room.
fn status_of(sent: &Sent, room: usize, note_room: usize) -> u8
    ensures { (result ≡ code_of Status.WriteFault) × ((room < sent.now.written) ⊎ (note_room < sent.now.noted))
        ⊎ (result ≡ code_of sent.now.status) × (sent.now.written ≤ room) × (sent.now.noted ≤ note_room) }
{
    if sent.written > room {
        return Status::WriteFault.code();
    }
    if sent.noted > note_room {
        return Status::WriteFault.code();
    }
    sent.status.code()
}

/// Answers a command as the program does.
pub(crate) fn answer(
    alloc: Global,
    command: Command,
    input: &[u8],
    output: &mut [u8],
    written: &mut usize,
    notes: &mut [u8],
    noted: &mut usize,
) -> u8
    ensures { Answers (outcome_of_input command input.now)
        (record { status = result; output = output.new; written = written.new; notes = notes.new; noted = noted.new }) }
{
    match send_answer(alloc, command, input, output, notes) {
        Ok(sent) => {
            *written = sent.written;
            *noted = sent.noted;
            status_of(&sent, output.len(), notes.len())
        }
        Err(NoMemory) => Status::NoMemory.code(),
    }
}
