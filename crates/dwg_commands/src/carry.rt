//! The preview that a canonical file carries, and what `carry` answers to an input within the limit.

ghost use Rattle.std.specs.Prelude.{◌≡◌, ◌≤◌, IfErr, IfOk, IfSome, length};
ghost use Rattle.dwg_base.specs.Devices.{MOST_BYTES};
ghost use Rattle.dwg_file.specs.Canonical.{NO_PICTURE, carried_of};
ghost use Rattle.dwg_preview.specs.ContentAt.{content_of};
ghost use Rattle.dwg_preview.specs.Previews.{IsContent};
ghost use Rattle.dwg_commands.specs.Answered.{carrying_note};
ghost use Rattle.dwg_commands.specs.Outcome.{outcome_within};
ghost use Rattle.dwg_commands.specs.Pendings.{comes_to, IsRefused};

use crate::drawings::drawing_of;
use crate::pending::{Noting, Pending};
use crate::words::Command;
use dwg_base::{Fault, bytes_with_range};
use dwg_preview::{Preview, read_preview};
use dwg_sections::read_file_header;
use dwg_text::preview_dropped_note;
use std::alloc::Global;
use std::marker::Model;

/// A preview that was read, or none. Contracts see what the file carries.
#[derive(Drop)]
pub(crate) struct Carrying<'a> {
    preview: Option<Preview<'a>>,
}

impl<'a> Model for Carrying<'a> {
    ghost use Rattle.std.specs.Prelude.{IfSome};
    ghost use Rattle.dwg_file.specs.Canonical.{Carried, carried_of};
    ghost use Rattle.dwg_preview.specs.Previews.{IsContent};

    ghost Value = { Carried };

    ghost view = { λ carrying. carried_of carrying.preview };

    ghost invariant = { λ carrying. IfSome carrying.preview (λ preview. IsContent preview.place preview.content.now) };
}

impl<'a> Carrying<'a> {
    /// No preview.
    pub(crate) fn none() -> Carrying<'a>
        ensures { result ≡ NO_PICTURE }
    {
        Carrying { preview: None }
    }

    /// The preview, if there is one.
    pub(crate) fn preview(&self) -> Option<Preview<'a>>
        ensures carried { carried_of result ≡ self.now }
        ensures read { IfSome result (λ preview. IsContent preview.place preview.content.now) }
    {
        self.preview
    }
}

/// What is noted of a preview that was read, or of none.
fn note_of(preview: &Option<Preview<'_>>) -> &'static [u8]
    ensures { result.now ≡ carrying_note (content_of preview.now) }
{
    match preview {
        Some(_) => b"",
        None => preview_dropped_note(),
    }
}

/// What `carry` answers.
#[tactic(auto, unfolding(crate::specs::Outcome::outcome_within, crate::specs::Commands::row_of))]
pub(crate) fn carry_pending<'a>(alloc: Global, bytes: &'a [u8]) -> Result<Pending<'a>, Fault>
    requires { length bytes.now ≤ MOST_BYTES }
    ensures reported { IfOk result (λ pending. comes_to pending ≡ outcome_within Command.Carry bytes.now) }
    ensures refused { IfErr result (λ fault. IsRefused Command.Carry bytes.now fault) }
{
    let drawing = drawing_of(alloc, bytes)?;
    let header = read_file_header(alloc, bytes)?;
    let preview = read_preview(bytes_with_range(bytes), header.preview);
    let note = note_of(&preview);
    Ok(Pending::File {
        drawing,
        carrying: Carrying { preview },
        noting: Noting::Fixed(note),
    })
}
