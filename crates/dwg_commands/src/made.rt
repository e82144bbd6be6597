//! What the commands that make a drawing answer.

ghost use Rattle.std.specs.Prelude.{◌≡◌, ◌≤◌, IfOk, IsErrOf, OnOk};
ghost use Rattle.dwg_base.specs.Devices.{Rose, Sends};
ghost use Rattle.dwg_commands.specs.Answered.{drill_outcome, made_outcome, noted};
ghost use Rattle.dwg_text.specs.Notes as texts;
ghost use Rattle.dwg_commands.specs.Pendings.{comes_to};

use crate::carry::Carrying;
use crate::outcome::too_large_outcome;
use crate::pending::{Noting, Pending};
use crate::printed_output::PrintedOutput;
use crate::status::Status;
use dwg_base::{NoMemory, Sink};
use dwg_drill::{DrillFault, DrillReport, drill};
use dwg_make::{MakeFault, make};
use dwg_messages::print_drill;
use dwg_text::{ShowFault, size_note};
use std::alloc::Global;
use std::marker::Model;

/// What a drill found out. Contracts see the text of it.
#[derive(Drop)]
pub(crate) struct Drilled {
    report: DrillReport,
}

impl Model for Drilled {
    ghost use Rattle.std.specs.Prelude.{List, ℕ};
    ghost use Rattle.dwg_messages.specs.DrillText.{drill_text};

    ghost Value = { List ℕ };

    ghost view = { λ drilled. drill_text drilled.report };
}

impl Drilled {
    /// Writes what was found out, a piece at a time.
    pub(crate) fn print<W: Sink>(&self, alloc: Global, sink: &mut W) -> Result<(), ShowFault>
        ensures bytes { Sends (W.taken sink.old) (W.taken sink.new) self.now result }
        ensures never_falls { W.faults sink.old ≤ W.faults sink.new }
        ensures ok { OnOk result (W.faults sink.new ≡ W.faults sink.old) }
        ensures no_memory { IsErrOf result ShowFault.NoMemory → W.faults sink.new ≡ W.faults sink.old }
        ensures write_fault { IsErrOf result ShowFault.WriteFault → Rose (W.faults sink.old) (W.faults sink.new) }
    {
        print_drill(alloc, &self.report, sink)
    }
}

/// The note on a size that no made drawing has.
fn no_size<'a>() -> Pending<'a>
    ensures { comes_to result ≡ noted texts.size_note Status.Usage }
{
    Pending::Fixed {
        output: b"",
        note: size_note(),
        status: Status::Usage,
    }
}

/// What `make` answers. Err: out of memory.
#[tactic(auto, using(crate::proofs::Makings::of_size, crate::proofs::Makings::of_no_size))]
pub(crate) fn make_pending<'a>(alloc: Global, n: u32, seed: u32) -> Result<Pending<'a>, NoMemory>
    ensures { IfOk result (λ pending. comes_to pending ≡ made_outcome n seed) }
{
    match make(alloc, n, seed) {
        Ok(drawing) => Ok(Pending::File {
            drawing,
            carrying: Carrying::none(),
            noting: Noting::Fixed(b""),
        }),
        Err(MakeFault::Size) => Ok(no_size()),
        Err(MakeFault::NoMemory) => Err(NoMemory),
    }
}

/// What `drill` answers. Err: out of memory.
#[tactic(auto, using(crate::proofs::Drills::drill_reported, crate::proofs::Drills::drill_too_large, crate::proofs::Drills::drill_of_no_size))]
pub(crate) fn drill_pending<'a>(alloc: Global, n: u32) -> Result<Pending<'a>, NoMemory>
    ensures { IfOk result (λ pending. comes_to pending ≡ drill_outcome n) }
{
    match drill(alloc, n) {
        Ok(report) => Ok(Pending::Text(PrintedOutput::Drill(Drilled { report }))),
        Err(DrillFault::Size) => Ok(no_size()),
        Err(DrillFault::TooLarge { size }) => Ok(Pending::Whole(too_large_outcome(alloc, size)?)),
        Err(DrillFault::NoMemory) => Err(NoMemory),
    }
}
