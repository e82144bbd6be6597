//! Sending an outcome: first all of the output, and then the note.

ghost use Rattle.std.specs.Prelude.{◌≡◌, ◌≤◌, ◌⊎◌, ℕ, List, [], Option};
ghost use Rattle.std.specs.Io.KnownBytes.{Appends};
ghost use Rattle.dwg_base.specs.Devices.{AppendsPrefix, Rose};
ghost use Rattle.dwg_file.specs.Contents.{contents_of};
ghost use Rattle.dwg_file.specs.Canonical.{canonical_with};
ghost use Rattle.dwg_commands.specs.Answered.{filed_with, noted};
ghost use Rattle.dwg_text.specs.Notes as texts;
ghost use Rattle.dwg_commands.specs.Pendings.{comes_to, ends_by, note_of};
ghost use Rattle.dwg_commands.specs.Run.{IsStopped, Sent, sinks};
ghost use Rattle.dwg_commands.specs.PrintedOutputs.{text_of, text_status};

use crate::carry::Carrying;
use crate::outcome::{Outcome, too_large_outcome};
use crate::pending::{Noting, Pending};
use crate::printed_output::{PrintedOutput, print_text, text_status};
use crate::recover::RecoveryNote;
use crate::status::Status;
use dwg_base::{NoMemory, Sink, WriteFault, put_all};
use dwg_file::{Drawing, Plan, PlanFault};
use dwg_text::ShowFault;
use std::alloc::Global;

/// Sends a note, after the whole output, and says how the run ends.
fn send_note<N: Sink>(note: &[u8], status: Status, notes: &mut N) -> Status
    ensures never_falls { N.faults notes.old ≤ N.faults notes.new }
    ensures ends { (result ≡ status) × Appends (N.taken notes.old) (N.taken notes.new) note.now × (N.faults notes.new ≡ N.faults notes.old)
        ⊎ (result ≡ Status.WriteFault) × AppendsPrefix (N.taken notes.old) (N.taken notes.new) note.now × Rose (N.faults notes.old) (N.faults notes.new) }
{
    match put_all(notes, note) {
        Ok(()) => status,
        Err(WriteFault) => Status::WriteFault,
    }
}

/// Sends the note of a recovery, after the whole output, as it is made.
fn send_recovery<N: Sink>(alloc: Global, note: &RecoveryNote, notes: &mut N) -> Status
    ensures never_falls { N.faults notes.old ≤ N.faults notes.new }
    ensures ends { (result ≡ Status.Found) × Appends (N.taken notes.old) (N.taken notes.new) note.now × (N.faults notes.new ≡ N.faults notes.old)
        ⊎ IsStopped result × AppendsPrefix (N.taken notes.old) (N.taken notes.new) note.now × (result ≡ Status.WriteFault → Rose (N.faults notes.old) (N.faults notes.new)) × (result ≡ Status.NoMemory → N.faults notes.new ≡ N.faults notes.old) }
{
    match note.print(alloc, notes) {
        Ok(()) => Status::Found,
        Err(ShowFault::WriteFault) => Status::WriteFault,
        Err(ShowFault::NoMemory) => Status::NoMemory,
    }
}

/// Sends what is noted of a canonical file, after that, and says how the run ends.
fn send_noting<N: Sink>(alloc: Global, noting: &Noting, notes: &mut N) -> Status
    ensures never_falls { N.faults notes.old ≤ N.faults notes.new }
    ensures ends { (result ≡ ends_by noting.now) × Appends (N.taken notes.old) (N.taken notes.new) (note_of noting.now) × (N.faults notes.new ≡ N.faults notes.old)
        ⊎ IsStopped result × AppendsPrefix (N.taken notes.old) (N.taken notes.new) (note_of noting.now) × (result ≡ Status.WriteFault → Rose (N.faults notes.old) (N.faults notes.new)) × (result ≡ Status.NoMemory → N.faults notes.new ≡ N.faults notes.old) }
{
    match noting {
        Noting::Fixed(note) => send_note(note, Status::Done, notes),
        Noting::Recovery(note) => send_recovery(alloc, note, notes),
    }
}

/// Sends these bytes, and then a note.
fn send<W: Sink, N: Sink>(
    text: &[u8],
    note: &[u8],
    status: Status,
    output: &mut W,
    notes: &mut N,
) -> Status
    ensures { Sent (record { output = text.now; note = note.now; status = status }) result
        (sinks W.taken W.faults output.old N.taken N.faults notes.old) (sinks W.taken W.faults output.new N.taken N.faults notes.new) }
{
    match put_all(output, text) {
        Ok(()) => send_note(note, status, notes),
        Err(WriteFault) => Status::WriteFault,
    }
}

/// Sends an outcome that is made whole.
fn send_whole<W: Sink, N: Sink>(outcome: &Outcome, output: &mut W, notes: &mut N) -> Status
    ensures { Sent outcome.now result
        (sinks W.taken W.faults output.old N.taken N.faults notes.old) (sinks W.taken W.faults output.new N.taken N.faults notes.new) }
{
    send(
        outcome.output.as_slice(),
        outcome.note.as_slice(),
        outcome.status,
        output,
        notes,
    )
}

/// Sends a text, as it is made.
fn send_text<W: Sink>(alloc: Global, text: &PrintedOutput<'_>, output: &mut W) -> Status
    ensures { (notes : Option (List ℕ)) (note_faults : ℕ) → Sent (record { output = text_of text.now; note = []; status = text_status text.now }) result
        (record { output = W.taken output.old; output_faults = W.faults output.old; notes = notes; note_faults = note_faults })
        (record { output = W.taken output.new; output_faults = W.faults output.new; notes = notes; note_faults = note_faults }) }
{
    match print_text(alloc, text, output) {
        Ok(()) => text_status(text),
        Err(ShowFault::WriteFault) => Status::WriteFault,
        Err(ShowFault::NoMemory) => Status::NoMemory,
    }
}

/// Sends a canonical file, and then what is noted of it.
fn send_plan<W: Sink, N: Sink>(
    alloc: Global,
    plan: &mut Plan<'_, '_>,
    noting: &Noting,
    output: &mut W,
    notes: &mut N,
) -> Status
    ensures { Sent (record { output = canonical_with plan.old.carried plan.old.drawing; note = note_of noting.now; status = ends_by noting.now }) result
        (sinks W.taken W.faults output.old N.taken N.faults notes.old) (sinks W.taken W.faults output.new N.taken N.faults notes.new) }
{
    match plan.write_to(output) {
        Ok(()) => send_noting(alloc, noting, notes),
        Err(WriteFault) => Status::WriteFault,
    }
}

/// Sends the note on a canonical file that would have so many bytes, too many.
#[tactic(auto, using(crate::proofs::Deliveries::sent_same))]
fn send_too_large<W: Sink, N: Sink>(
    alloc: Global,
    size: u64,
    output: &mut W,
    notes: &mut N,
) -> Status
    ensures { Sent (noted (texts.too_large_note size) (Status.TooLarge size)) result
        (sinks W.taken W.faults output.old N.taken N.faults notes.old) (sinks W.taken W.faults output.new N.taken N.faults notes.new) }
{
    match too_large_outcome(alloc, size) {
        Ok(outcome) => send_whole(&outcome, output, notes),
        Err(NoMemory) => Status::NoMemory,
    }
}

/// Sends the canonical file of a drawing and then what is noted of it, unless the file would be longer than the limit.
fn send_file<'a, W: Sink, N: Sink>(
    alloc: Global,
    drawing: &Drawing<'a>,
    carrying: &Carrying<'a>,
    noting: &Noting,
    output: &mut W,
    notes: &mut N,
) -> Status
    ensures { Sent (filed_with carrying.now (contents_of drawing.now) (note_of noting.now) (ends_by noting.now)) result
        (sinks W.taken W.faults output.old N.taken N.faults notes.old) (sinks W.taken W.faults output.new N.taken N.faults notes.new) }
{
    match Plan::prepare_with(alloc, drawing, carrying.preview()) {
        Ok(mut plan) => send_plan(alloc, &mut plan, noting, output, notes),
        Err(PlanFault::TooLarge { size }) => send_too_large(alloc, size, output, notes),
        Err(PlanFault::NoMemory) => Status::NoMemory,
    }
}

/// Sends the outcome that stands behind what is pending.
pub(crate) fn send_pending<W: Sink, N: Sink>(
    alloc: Global,
    pending: &Pending<'_>,
    output: &mut W,
    notes: &mut N,
) -> Status
    ensures { Sent (comes_to pending.now) result
        (sinks W.taken W.faults output.old N.taken N.faults notes.old) (sinks W.taken W.faults output.new N.taken N.faults notes.new) }
{
    match pending {
        Pending::Whole(outcome) => send_whole(outcome, output, notes),
        Pending::Fixed {
            output: text,
            note,
            status,
        } => send(text, note, *status, output, notes),
        Pending::Text(text) => send_text(alloc, text, output),
        Pending::File {
            drawing,
            carrying,
            noting,
        } => send_file(alloc, drawing, carrying, noting, output, notes),
    }
}
