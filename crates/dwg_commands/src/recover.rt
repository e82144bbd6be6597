//! What `recover` answers to an input within the limit.

ghost use Rattle.std.specs.Prelude.{◌≡◌, ◌≤◌, IfOk, IfSome, IsErrOf, OnOk, length};
ghost use Rattle.dwg_base.specs.Devices.{MOST_BYTES, Rose, Sends};
ghost use Rattle.dwg_recover.specs.Results.{recovered_value};
ghost use Rattle.dwg_commands.specs.Answered.{recovered_outcome, recovery_notes, recovery_status};
ghost use Rattle.dwg_commands.specs.Outcome.{outcome_within};
ghost use Rattle.dwg_commands.specs.Pendings.{comes_to, ends_by, note_of};

use crate::carry::Carrying;
use crate::pending::{Noting, Pending};
use crate::words::Command;
use dwg_base::{Items, NoMemory, Refusal, Sink};
use dwg_messages::print_recovery;
use dwg_recover::{Kept, Loss, Recovered, recover_input};
use dwg_text::ShowFault;
use std::alloc::Global;
use std::marker::Model;

/// What is noted of an input that spells no drawing. Contracts see the note.
#[derive(Drop)]
pub(crate) struct RecoveryNote {
    refusal: Refusal,
    losses: Items<Loss>,
    kept: Items<Kept>,
}

impl Model for RecoveryNote {
    ghost use Rattle.std.specs.Prelude.{List, ℕ};
    ghost use Rattle.dwg_messages.specs.RecoveryNote.{recovery_note};

    ghost Value = { List ℕ };

    ghost view = { λ note. recovery_note note.refusal note.losses note.kept };
}

impl RecoveryNote {
    /// Writes the note, a piece at a time.
    pub(crate) fn print<W: Sink>(&self, alloc: Global, sink: &mut W) -> Result<(), ShowFault>
        ensures bytes { Sends (W.taken sink.old) (W.taken sink.new) self.now result }
        ensures never_falls { W.faults sink.old ≤ W.faults sink.new }
        ensures ok { OnOk result (W.faults sink.new ≡ W.faults sink.old) }
        ensures no_memory { IsErrOf result ShowFault.NoMemory → W.faults sink.new ≡ W.faults sink.old }
        ensures write_fault { IsErrOf result ShowFault.WriteFault → Rose (W.faults sink.old) (W.faults sink.new) }
    {
        print_recovery(
            alloc,
            self.refusal,
            self.losses.as_slice(),
            self.kept.as_slice(),
            sink,
        )
    }
}

/// What is noted of a recovery: nothing where the input spells a drawing.
fn noting_of(refusal: Option<Refusal>, losses: Items<Loss>, kept: Items<Kept>) -> Noting
    ensures note { note_of result ≡ recovery_notes refusal losses kept }
    ensures status { ends_by result ≡ recovery_status refusal }
{
    match refusal {
        None => Noting::Fixed(b""),
        Some(refusal) => Noting::Recovery(RecoveryNote {
            refusal,
            losses,
            kept,
        }),
    }
}

/// What is answered of what was recovered.
#[tactic(auto, unfolding(crate::specs::Answered::recovered_outcome))]
fn recovered_pending<'a>(recovered: Recovered<'a>) -> Pending<'a>
    ensures { comes_to result ≡ recovered_outcome (recovered_value recovered.entry) }
{
    Pending::File {
        drawing: recovered.drawing,
        carrying: Carrying::none(),
        noting: noting_of(recovered.refusal, recovered.losses, recovered.kept),
    }
}

/// What `recover` answers.
#[tactic(auto, unfolding(crate::specs::Outcome::outcome_within, crate::specs::Commands::row_of))]
pub(crate) fn recover_pending<'a>(alloc: Global, bytes: &'a [u8]) -> Result<Pending<'a>, NoMemory>
    requires { length bytes.now ≤ MOST_BYTES }
    ensures { IfOk result (λ pending. comes_to pending ≡ outcome_within Command.Recover bytes.now) }
{
    let recovered = recover_input(alloc, bytes)?;
    Ok(recovered_pending(recovered))
}
