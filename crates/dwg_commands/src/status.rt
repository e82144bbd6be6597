//! How a run of the program ends.

ghost use Rattle.std.specs.Prelude.{◌≡◌};
ghost use Rattle.dwg_commands.specs.Answered.{verdict_status};

use dwg_base::Refusal;

/// How a run of the program ends.
#[derive(Clone, Copy, Debug, PartialEq, Eq)]
pub enum Status {
    /// All went well.
    Done,
    /// All went well, and the audit has findings, items of extended data refer to what isn't there, the input of a recovery spells no
    /// drawing, a drawing that isn't sound has no certificate, or a certificate isn't accepted.
    Found,
    /// The words stand in no line of the command table, or ask for a made drawing of no size that it has.
    Usage,
    /// The input fails this line of the table of refusals.
    Refused(Refusal),
    /// The input could not be read.
    ReadFault,
    /// Output or notes could not be written.
    WriteFault,
    /// Out of memory.
    NoMemory,
    /// The input is longer than the limit.
    TooLong,
    /// The canonical file would be longer than the limit.
    TooLarge {
        /// How many bytes it would have.
        size: u64,
    },
}

impl Status {
    ghost use Rattle.dwg_commands.specs.Status.{code_of};

    /// The program's exit status.
    pub fn code(&self) -> u8
        ensures { result ≡ code_of self.now }
    {
        match self {
            Status::Done => 0,
            Status::Found => 1,
            Status::Usage => 2,
            Status::Refused(_) => 3,
            Status::ReadFault => 4,
            Status::WriteFault => 5,
            Status::NoMemory => 6,
            Status::TooLong => 7,
            Status::TooLarge { .. } => 8,
        }
    }
}

/// How an audit with these findings ends.
pub(crate) fn status_of<T>(found: &[T]) -> Status
    ensures { result ≡ verdict_status found.now }
{
    if found.is_empty() {
        Status::Done
    } else {
        Status::Found
    }
}
