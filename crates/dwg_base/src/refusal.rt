//! Refusals: which line of the table of refusals failed, and where.

ghost use Rattle.std.specs.Prelude.{◌≡◌, ◌≤◌};
ghost use Rattle.dwg_base.specs.declared.refusal.Fault.TheVariants.{NoMemory, Refused};
ghost use Rattle.dwg_base.specs.Refusal.{LAST_LINE};
ghost use Rattle.dwg_base.specs.Refusals.{part_word_of, reason_word_of};

use crate::device::NoMemory;
use crate::refusal_lines::words_of;
use std::alloc::AllocFailed;
use std::marker::Model;

/// The first line of the table of refusals that fails.
#[derive(Clone, Copy, Debug, PartialEq, Eq)]
pub struct Refusal {
    /// The line of the table, from 1 on: the first 33 are tried of a drawing, the last four of a certificate.
    pub line: u8,
    /// Which locator, class, page or pair of that part, or which entry of a certificate, counted from 0.
    pub index: u64,
    /// The place in the input, in bytes from its begin; of a drawing after a certificate, from the drawing's begin.
    pub place: u64,
}

impl Model for Refusal {
    ghost use Rattle.std.specs.Prelude.{◌≤◌};
    ghost use Rattle.dwg_base.specs.Refusal.{LAST_LINE, Refusal};

    ghost Value = { Refusal };

    ghost view = { λ refusal. record { line = refusal.line; index = refusal.index; place = refusal.place } };

    ghost invariant = { λ refusal. (1 ≤ refusal.line) × (refusal.line ≤ LAST_LINE) };

    ghost inverse = { λ refusal. record { line = refusal.line; index = refusal.index; place = refusal.place } };
}

impl Refusal {
    /// The refusal by a line of the table.
    pub fn new(line: u8, index: u64, place: u64) -> Refusal
        requires least { 1 ≤ line }
        requires most { line ≤ LAST_LINE }
        ensures { result ≡ record { line = line; index = index; place = place } }
    {
        Refusal { line, index, place }
    }
}

/// Why a part could not be read.
#[derive(Clone, Copy, Debug, PartialEq, Eq)]
pub enum Fault {
    /// Out of memory.
    NoMemory,
    /// The input fails a line of the table.
    Refused(Refusal),
}

impl From<NoMemory> for Fault {
    ghost from_gives = { λ _ fault. fault ≡ NoMemory };

    fn from(_error: NoMemory) -> Fault {
        Fault::NoMemory
    }
}

impl From<Refusal> for Fault {
    ghost from_gives = { λ refusal fault. fault ≡ Refused refusal };

    fn from(refusal: Refusal) -> Fault {
        Fault::Refused(refusal)
    }
}

/// What could not be stored is let go.
impl<T: Drop> From<AllocFailed<T>> for Fault {
    ghost from_gives = { λ _ fault. fault ≡ NoMemory };

    fn from(_error: AllocFailed<T>) -> Fault {
        Fault::NoMemory
    }
}

/// The part of the input that a line of the table speaks of.
pub fn part_word(line: u8) -> &'static str
    requires least { 1 ≤ line }
    requires most { line ≤ LAST_LINE }
    ensures { result.now ≡ part_word_of line }
{
    words_of(line).0
}

/// Why a line of the table refuses.
pub fn reason_word(line: u8) -> &'static str
    requires least { 1 ≤ line }
    requires most { line ≤ LAST_LINE }
    ensures { result.now ≡ reason_word_of line }
{
    words_of(line).1
}
