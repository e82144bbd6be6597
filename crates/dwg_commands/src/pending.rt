//! Outcomes on their way: as far as they are made before they are sent.

use crate::carry::Carrying;
use crate::outcome::Outcome;
use crate::printed_output::PrintedOutput;
use crate::recover::RecoveryNote;
use crate::status::Status;
use dwg_file::Drawing;

/// What stands for an outcome until that is sent. Texts and canonical files are made as they are sent.
#[derive(Drop)]
pub(crate) enum Pending<'a> {
    /// An outcome that is made whole.
    Whole(Outcome),
    /// An output and a note that stand in the program.
    Fixed {
        /// The output.
        output: &'static [u8],
        /// The note.
        note: &'static [u8],
        /// How the run ends.
        status: Status,
    },
    /// A text.
    Text(PrintedOutput<'a>),
    /// The canonical file of a drawing and then a note, unless the file would be longer than the limit.
    File {
        /// The drawing.
        drawing: Drawing<'a>,
        /// The preview that the file carries.
        carrying: Carrying<'a>,
        /// What is noted of it.
        noting: Noting,
    },
}

/// What is noted of a canonical file, and by that how the run ends.
#[derive(Drop)]
pub(crate) enum Noting {
    /// A note that stands in the program, or nothing: the run ends with Done.
    Fixed(&'static [u8]),
    /// That of a recovery: the run ends with Found.
    Recovery(RecoveryNote),
}
