//! The top call.

ghost use Rattle.std.specs.Prelude.{◌≡◌, ◌<◌, ◌⊎◌, ℕ, ◌≤◌, length, List, [], Some, IfSome};
ghost use Rattle.std.specs.Io.KnownBytes.{Appends};
ghost use Rattle.dwg_base.specs.Devices.{Came, Rose, AppendsPrefix, MOST_BYTES};
ghost use Rattle.dwg_text.specs.Notes as texts;
ghost use Rattle.dwg_commands.specs.Words.{texts as words_of, command_of, IsReading, IsUsage};
ghost use Rattle.dwg_commands.specs.Outcome.{outcome};
ghost use Rattle.dwg_commands.specs.Meaning.{Means};
ghost use Rattle.dwg_commands.specs.declared.words.Command.{Command};
ghost use Rattle.dwg_commands.specs.Run.{Feeds, AnswersTo, IsSettled, IsStopped, IsFailed, IsDrained, Delivers, DeliversPrefix, StopsAtFault};

use dwg_base::{Sink, Source, put_all};
use dwg_commands::{Status, Stop, job_for, run_job, status_laws};
use dwg_text::read_fault_note;
use std::alloc::Global;

/// Notes that the input failed.
fn report_read_fault<N: Sink>(notes: &mut N) -> Status
    ensures never_falls { N.faults notes.old ≤ N.faults notes.new }
    ensures reported { result ≡ Status.ReadFault → Appends (N.taken notes.old) (N.taken notes.new) texts.read_fault_note }
    ensures cut { IsStopped result → AppendsPrefix (N.taken notes.old) (N.taken notes.new) texts.read_fault_note }
    ensures ends { (result ≡ Status.ReadFault) × (N.faults notes.new ≡ N.faults notes.old) ⊎ (result ≡ Status.WriteFault) × Rose (N.faults notes.old) (N.faults notes.new) }
{
    match put_all(notes, read_fault_note()) {
        Ok(()) => Status::ReadFault,
        Err(_) => Status::WriteFault,
    }
}

/// Runs the program: `words` are the arguments after its name.
pub fn run<R: Source, W: Sink, N: Sink>(
    alloc: Global,
    words: &[String],
    input: &mut R,
    output: &mut W,
    notes: &mut N,
) -> Status
    // Where neither a device nor memory failed, status, output and notes are the defined ones: for the bytes that the
    // input reports, and, whatever it reports, for those that came.
    ensures outcome { IsSettled result → (bytes : List ℕ) → Feeds (command_of (words_of words.now)) (R.left input.old) bytes →
        (result ≡ (outcome (words_of words.now) bytes).status)
        × Delivers (outcome (words_of words.now) bytes) (W.taken output.old) (W.taken output.new) (N.taken notes.old) (N.taken notes.new) }
    ensures came { IsSettled result → Came (R.left input.old) (R.left input.new) (λ came.
        AnswersTo (words_of words.now) came result (W.taken output.old) (W.taken output.new) (N.taken notes.old) (N.taken notes.new)) }

    // What Done and Found of a command mean of the bytes that the input reports, and, whatever it reports, of those that came: which
    // drawing they spell, or hold after a certificate.
    ensures means { IsSettled result → (bytes : List ℕ) → R.left input.old ≡ Some bytes → (command : Command) → command_of (words_of words.now) ≡ Some command →
        Means result command bytes }
    ensures means_came { IsSettled result → Came (R.left input.old) (R.left input.new) (λ came. (command : Command) → command_of (words_of words.now) ≡ Some command →
        Means result command came) }

    // Usage comes only where the words stand in no line of the command table, or ask for a made drawing of no size that it has; and
    // there it comes, unless the run stopped. That is so whatever the devices report.
    ensures usage { result ≡ Status.Usage → IsUsage (command_of (words_of words.now)) }
    ensures usage_reported { IsUsage (command_of (words_of words.now)) → (result ≡ Status.Usage) ⊎ IsStopped result }

    // A read fault comes only where the command reads and the input's faults rose, and no more than the limit came before
    // it: nothing went to the output.
    ensures read_fault { result ≡ Status.ReadFault → IsReading (command_of (words_of words.now)) × Rose (R.faults input.old) (R.faults input.new) }
    ensures read_fault_came { result ≡ Status.ReadFault → Came (R.left input.old) (R.left input.new) (λ came. length came ≤ MOST_BYTES) }
    ensures read_fault_note { result ≡ Status.ReadFault →
        Appends (W.taken output.old) (W.taken output.new) [] × Appends (N.taken notes.old) (N.taken notes.new) texts.read_fault_note }
    ensures heeded_input { R.faults input.old < R.faults input.new → IsFailed result }

    // A write fault comes only where the faults of output or notes rose.
    ensures write_fault { result ≡ Status.WriteFault → Rose (W.faults output.old) (W.faults output.new) ⊎ Rose (N.faults notes.old) (N.faults notes.new) }

    // A run that stopped wrote a prefix of what is defined, or stopped at a fault of its input.
    ensures stopped { IsStopped result → (bytes : List ℕ) → Feeds (command_of (words_of words.now)) (R.left input.old) bytes →
        DeliversPrefix (outcome (words_of words.now) bytes) (W.taken output.old) (W.taken output.new) (N.taken notes.old) (N.taken notes.new)
        ⊎ StopsAtFault (command_of (words_of words.now)) (R.faults input.old) (R.faults input.new) (W.taken output.old) (W.taken output.new) (N.taken notes.old) (N.taken notes.new) }
    ensures stopped_came { IsStopped result → Came (R.left input.old) (R.left input.new) (λ came.
        DeliversPrefix (outcome (words_of words.now) came) (W.taken output.old) (W.taken output.new) (N.taken notes.old) (N.taken notes.new)
        ⊎ StopsAtFault (command_of (words_of words.now)) (R.faults input.old) (R.faults input.new) (W.taken output.old) (W.taken output.new) (N.taken notes.old) (N.taken notes.new)) }
    ensures stopped_at_fault { IsStopped result → R.faults input.old < R.faults input.new →
        StopsAtFault (command_of (words_of words.now)) (R.faults input.old) (R.faults input.new) (W.taken output.old) (W.taken output.new) (N.taken notes.old) (N.taken notes.new) }
    ensures heeded_output { W.faults output.old < W.faults output.new → result ≡ Status.WriteFault }
    ensures heeded_notes { N.faults notes.old < N.faults notes.new → result ≡ Status.WriteFault }
    ensures hides_nothing { result ≡ Status.NoMemory → (R.faults input.new ≡ R.faults input.old) × (W.faults output.new ≡ W.faults output.old) × (N.faults notes.new ≡ N.faults notes.old) }

    // Counts of faults never fall. They stay where neither a device nor memory failed, and those of the sinks where the input failed.
    ensures quiet { IsSettled result → (R.faults input.new ≡ R.faults input.old) × (W.faults output.new ≡ W.faults output.old) × (N.faults notes.new ≡ N.faults notes.old) }
    ensures quiet_sinks { result ≡ Status.ReadFault → (W.faults output.new ≡ W.faults output.old) × (N.faults notes.new ≡ N.faults notes.old) }
    ensures never_fall { (R.faults input.old ≤ R.faults input.new) × (W.faults output.old ≤ W.faults output.new) × (N.faults notes.old ≤ N.faults notes.new) }

    // What is left in the input.
    ensures unread { (IsReading (command_of (words_of words.now)) → ⊥) → input.new ≡ input.old }
    ensures drained { IsDrained result → IsReading (command_of (words_of words.now)) → IfSome (R.left input.old) (λ _. R.left input.new ≡ Some []) }

    // Where no count of faults rose, the run ends as defined, or wants memory.
    ensures complete { (Rose (R.faults input.old) (R.faults input.new) → ⊥) → (Rose (W.faults output.old) (W.faults output.new) → ⊥) → (Rose (N.faults notes.old) (N.faults notes.new) → ⊥) →
        (bytes : List ℕ) → Feeds (command_of (words_of words.now)) (R.left input.old) bytes →
        (result ≡ (outcome (words_of words.now) bytes).status) ⊎ (result ≡ Status.NoMemory) }
{
    match job_for(alloc, words, input) {
        Ok(job) => {
            status_laws();
            run_job(alloc, &job, output, notes)
        }
        Err(Stop::ReadFault) => report_read_fault(notes),
        Err(Stop::NoMemory) => Status::NoMemory,
    }
}
