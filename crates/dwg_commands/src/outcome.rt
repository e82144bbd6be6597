//! The outcome of a run: bytes for the output, a note, and how the run ends.

ghost use Rattle.std.specs.Prelude.{◌≡◌, [], IfOk};
ghost use Rattle.dwg_text.specs.Notes as texts;
ghost use Rattle.dwg_commands.specs.Answered.{noted, printed};

use crate::status::Status;
use dwg_base::{ByteRun, NoMemory, Refusal};
use dwg_text::{refusal_note, too_large_note};
use std::alloc::Global;

/// What goes to the output and then to the notes, and how the run ends where both take it.
#[derive(Drop)]
pub struct Outcome {
    /// The bytes for the output.
    pub output: ByteRun,
    /// The bytes for the notes.
    pub note: ByteRun,
    /// How the run ends.
    pub status: Status,
}

/// No bytes.
pub(crate) fn no_bytes(alloc: Global) -> ByteRun
    ensures { result ≡ [] }
{
    ByteRun::from_vec(Vec::new(alloc))
}

/// An outcome of output alone.
pub(crate) fn printed_outcome(alloc: Global, output: ByteRun) -> Outcome
    ensures { result ≡ printed output }
{
    Outcome {
        output,
        note: no_bytes(alloc),
        status: Status::Done,
    }
}

/// The outcome of a refusal.
pub(crate) fn refused_outcome(alloc: Global, refusal: Refusal) -> Result<Outcome, NoMemory>
    ensures { IfOk result (λ outcome. outcome ≡ noted (texts.refusal_note refusal) (Status.Refused refusal)) }
{
    Ok(Outcome {
        output: no_bytes(alloc),
        note: refusal_note(alloc, refusal)?,
        status: Status::Refused(refusal),
    })
}

/// The outcome where the canonical file would have so many bytes, too many.
pub(crate) fn too_large_outcome(alloc: Global, size: u64) -> Result<Outcome, NoMemory>
    ensures { IfOk result (λ outcome. outcome ≡ noted (texts.too_large_note size) (Status.TooLarge size)) }
{
    Ok(Outcome {
        output: no_bytes(alloc),
        note: too_large_note(alloc, size)?,
        status: Status::TooLarge { size },
    })
}
