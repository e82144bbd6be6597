//! The drawing of an input within the limit, and what `show` and `rewrite` answer to it.

ghost use Rattle.std.specs.Prelude.{◌≡◌, ◌≤◌, IfErr, IfOk, OnOk, None, length};
ghost use Rattle.dwg_base.specs.Devices.{MOST_BYTES};
ghost use Rattle.dwg_base.specs.Refusals.{first_fault};
ghost use Rattle.dwg_file.specs.Contents.{contents_of};
ghost use Rattle.dwg_file.specs.DrawingAt.{drawing_at};
ghost use Rattle.dwg_file.specs.FileLines.{ALL_LINES};
ghost use Rattle.dwg_commands.specs.Outcome.{outcome_within};
ghost use Rattle.dwg_commands.specs.Pendings.{comes_to, IsRefused, IsRefusedBy};

use crate::carry::Carrying;
use crate::pending::{Noting, Pending};
use crate::printed_output::PrintedOutput;
use crate::words::Command;
use dwg_base::Fault;
use dwg_file::{Drawing, drawing_laws, read_drawing};
use std::alloc::Global;

/// The drawing of an input in which no line fails. It has no more objects than an input may have bytes.
pub(crate) fn drawing_of<'a>(alloc: Global, bytes: &'a [u8]) -> Result<Drawing<'a>, Fault>
    requires { length bytes.now ≤ MOST_BYTES }
    ensures drawing { IfOk result (λ drawing. contents_of drawing ≡ drawing_at bytes.now) }
    ensures holds { OnOk result (first_fault ALL_LINES bytes.now ≡ None) }
    ensures few { IfOk result (λ drawing. length (contents_of drawing).objects ≤ MOST_BYTES) }
    ensures refused { IfErr result (λ fault. IsRefusedBy ALL_LINES bytes.now fault) }
{
    drawing_laws();
    let drawing = read_drawing(alloc, bytes)?;
    Ok(drawing)
}

/// What `show` answers.
#[tactic(auto, unfolding(crate::specs::Outcome::outcome_within, crate::specs::Commands::row_of))]
pub(crate) fn show_pending<'a>(alloc: Global, bytes: &'a [u8]) -> Result<Pending<'a>, Fault>
    requires { length bytes.now ≤ MOST_BYTES }
    ensures reported { IfOk result (λ pending. comes_to pending ≡ outcome_within Command.Show bytes.now) }
    ensures refused { IfErr result (λ fault. IsRefused Command.Show bytes.now fault) }
{
    let drawing = drawing_of(alloc, bytes)?;
    Ok(Pending::Text(PrintedOutput::Drawing(drawing)))
}

/// What `rewrite` answers.
#[tactic(auto, unfolding(crate::specs::Outcome::outcome_within, crate::specs::Commands::row_of))]
pub(crate) fn rewrite_pending<'a>(alloc: Global, bytes: &'a [u8]) -> Result<Pending<'a>, Fault>
    requires { length bytes.now ≤ MOST_BYTES }
    ensures reported { IfOk result (λ pending. comes_to pending ≡ outcome_within Command.Rewrite bytes.now) }
    ensures refused { IfErr result (λ fault. IsRefused Command.Rewrite bytes.now fault) }
{
    let drawing = drawing_of(alloc, bytes)?;
    Ok(Pending::File {
        drawing,
        carrying: Carrying::none(),
        noting: Noting::Fixed(b""),
    })
}
