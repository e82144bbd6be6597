//! What the words and the input ask for.

ghost use Rattle.std.specs.Prelude.{◌≡◌, ◌+◌, ◌≤◌, ◌⊎◌, IfOk, OnErr, length, List, Some, IsErrOf, IsTrue, ℕ};
ghost use Rattle.dwg_base.specs.Devices.{Came, Rose, MOST_BYTES};
ghost use Rattle.dwg_commands.specs.Commands.{reads};
ghost use Rattle.dwg_commands.specs.Words.{texts as words_of, command_of, IsReading, IsUsage};
ghost use Rattle.dwg_commands.specs.Outcome.{outcome_of_input, outcome};
ghost use Rattle.dwg_commands.specs.Jobs.{asked, IsWithin};
ghost use Rattle.dwg_commands.specs.Run.{Feeds, IsSettled, IsDrained, IsDrainedSource};

use crate::outcome::no_bytes;
use crate::status::Status;
use crate::words::{Command, read_words, reads};
use dwg_base::{ByteRun, Intake, LIMIT, Source, read_all};
use std::alloc::Global;

/// What the words and the input ask for, with the bytes that the input gave.
#[derive(Drop)]
pub enum Job {
    /// How the program is used: the words name no command.
    Usage,
    /// What it says to an input that is longer than the limit.
    TooLong,
    /// What a command says to an input within the limit.
    Run {
        /// The command.
        command: Command,
        /// The input, and no bytes where the command doesn't read it.
        bytes: ByteRun,
    },
}

/// Why there is no job.
#[derive(Clone, Copy)]
pub enum Stop {
    /// Out of memory.
    NoMemory,
    /// The input could not be read.
    ReadFault,
}

/// What the input asks of a command that reads.
fn job_from<R: Source>(alloc: Global, command: Command, input: &mut R) -> Result<Job, Stop>
    requires { IsTrue (reads command) }
    ensures answered { IfOk result (λ job. (bytes : List ℕ) → R.left input.old ≡ Some bytes → asked job ≡ outcome_of_input command bytes) }
    ensures came { IfOk result (λ job. Came (R.left input.old) (R.left input.new) (λ came. (length came ≤ MOST_BYTES + 1) × (asked job ≡ outcome_of_input command came))) }
    ensures gone { OnErr result (Came (R.left input.old) (R.left input.new) (λ came. length came ≤ MOST_BYTES + 1)) }
    ensures within { IfOk result (λ job. IsWithin job) }
    ensures status { IfOk result (λ job. ((asked job).status ≡ Status.TooLong) ⊎ IsDrained (asked job).status) }
    ensures read_fault { IsErrOf result Stop.ReadFault → Came (R.left input.old) (R.left input.new) (λ came. length came ≤ MOST_BYTES) }
    ensures rose { IsErrOf result Stop.ReadFault → Rose (R.faults input.old) (R.faults input.new) }
    ensures quiet { IsErrOf result Stop.ReadFault ⊎ (R.faults input.new ≡ R.faults input.old) }
    ensures never_falls { R.faults input.old ≤ R.faults input.new }
    ensures drained { IfOk result (λ job. IsDrained (asked job).status → IsDrainedSource (R.left input.old) (R.left input.new)) }
{
    match read_all(alloc, input, LIMIT) {
        Ok(bytes) => Ok(Job::Run { command, bytes }),
        Err(Intake::TooLong) => Ok(Job::TooLong),
        Err(Intake::ReadFault) => Err(Stop::ReadFault),
        Err(Intake::NoMemory) => Err(Stop::NoMemory),
    }
}

/// What the words and the input ask for.
pub fn job_for<R: Source>(alloc: Global, words: &[String], input: &mut R) -> Result<Job, Stop>
    ensures answered { IfOk result (λ job. (bytes : List ℕ) → Feeds (command_of (words_of words.now)) (R.left input.old) bytes →
        asked job ≡ outcome (words_of words.now) bytes) }
    ensures came { IfOk result (λ job. Came (R.left input.old) (R.left input.new) (λ came.
        (length came ≤ MOST_BYTES + 1) × (asked job ≡ outcome (words_of words.now) came))) }
    ensures gone { OnErr result (Came (R.left input.old) (R.left input.new) (λ came. length came ≤ MOST_BYTES + 1)) }
    ensures within { IfOk result (λ job. IsWithin job) }
    ensures settled { IfOk result (λ job. IsSettled (asked job).status) }
    ensures usage { IfOk result (λ job. (asked job).status ≡ Status.Usage → IsUsage (command_of (words_of words.now))) }
    ensures usage_reported { IsUsage (command_of (words_of words.now)) → IfOk result (λ job. (asked job).status ≡ Status.Usage) }
    ensures reading { IsErrOf result Stop.ReadFault → IsReading (command_of (words_of words.now)) }
    ensures read_fault { IsErrOf result Stop.ReadFault → Came (R.left input.old) (R.left input.new) (λ came. length came ≤ MOST_BYTES) }
    ensures rose { IsErrOf result Stop.ReadFault → Rose (R.faults input.old) (R.faults input.new) }
    ensures quiet { IsErrOf result Stop.ReadFault ⊎ (R.faults input.new ≡ R.faults input.old) }
    ensures never_falls { R.faults input.old ≤ R.faults input.new }
    ensures unread { (IsReading (command_of (words_of words.now)) → ⊥) → input.new ≡ input.old }
    ensures drained { IfOk result (λ job. IsDrained (asked job).status → IsReading (command_of (words_of words.now)) → IsDrainedSource (R.left input.old) (R.left input.new)) }
{
    match read_words(words) {
        None => Ok(Job::Usage),
        Some(command) => {
            if reads(command) {
                job_from(alloc, command, input)
            } else {
                Ok(Job::Run {
                    command,
                    bytes: no_bytes(alloc),
                })
            }
        }
    }
}
