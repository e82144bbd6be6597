//! Parts that stand unless a flag is set, as bits (Open Design Specification, "TEXT").

ghost use Rattle.std.specs.Prelude.{◌≡◌, ◌<◌, ◌≤◌, ◌↔◌, IsTrue};
ghost use Rattle.dwg_grammar.specs.Codes.{bs};
ghost use Rattle.dwg_grammar.specs.Flags.{has};
ghost use Rattle.dwg_entities.specs.Flags.{unless, weight_unless};
ghost use Rattle.dwg_entities.specs.TextBody.{aligned, word};

use crate::text_numbers::{known_alignment, known_word};
use dwg_base::Version;
use dwg_codes::Point2;

/// Whether the bit of this worth is set.
pub(crate) fn has(flags: u8, weight: u8) -> bool
    requires { 0 < weight }
    ensures { result ≡ has flags weight }
{
    flags / weight % 2 == 1
}

/// The weight of a bit that is set exactly where a part is missing.
pub(crate) fn weight_unless<T>(part: &Option<T>, weight: u8) -> u8
    ensures weight { result ≡ weight_unless part.now weight }
    ensures bound { result ≤ weight }
{
    match part {
        Some(_) => 0,
        None => weight,
    }
}

/// Whether a number is there exactly where the bit of this worth isn't set.
pub(crate) fn word_fits(version: Version, flags: u8, weight: u8, number: Option<u64>) -> bool
    requires { 0 < weight }
    ensures { IsTrue result ↔ (unless flags weight (word version)).IsValue number }
{
    let missing = has(flags, weight);
    match number {
        Some(inner) => {
            known_word(version, inner);
            !missing
        }
        None => missing,
    }
}

/// Whether an alignment is there exactly where the bit of this worth isn't set.
pub(crate) fn alignment_fits(
    version: Version,
    flags: u8,
    weight: u8,
    insertion: Point2,
    alignment: Option<Point2>,
) -> bool
    requires { 0 < weight }
    ensures { IsTrue result ↔ (unless flags weight (aligned version insertion)).IsValue alignment }
{
    let missing = has(flags, weight);
    match alignment {
        Some(inner) => {
            known_alignment(version, insertion, inner);
            !missing
        }
        None => missing,
    }
}

/// Whether a number of 16 bits is there exactly where the bit of this worth isn't set.
pub(crate) fn number_fits(flags: u8, weight: u8, number: Option<u16>) -> bool
    requires { 0 < weight }
    ensures { IsTrue result ↔ (unless flags weight bs).IsValue number }
{
    let missing = has(flags, weight);
    match number {
        Some(_) => !missing,
        None => missing,
    }
}
