//! Unknown sections: those whose number is none of a section that is known.

ghost use Rattle.std.specs.Prelude.{◌≡◌, ◌≤◌, [], ◌∷◌, ◌++◌, take, drop, map, IfOk, IfSome, None, false};
ghost use Rattle.std.specs.List.{All};
ghost use Rattle.dwg_file.specs.Borrowed.{IsBorrowedSection};
ghost use Rattle.dwg_file.specs.Contents.{other_value};
ghost use Rattle.dwg_file.specs.FileLines.{is_cut, first_cut};
ghost use Rattle.dwg_file.specs.ReadAs.{sections_at, whole_locators};

use crate::drawing_parts::Other;
use dwg_base::refusal_lines::SECTION_SHORT;
use dwg_base::{Items, NoMemory, Refusal};
use dwg_codes::BytePart;
use dwg_sections::Locator;
use std::alloc::Global;

/// The least number of an unknown section.
const LEAST_NUMBER: u8 = 3;

/// Whether the bytes of a locator's unknown section pass the end of the input. A section without bytes passes none.
pub fn is_cut(bytes: &[u8], locator: &Locator) -> bool
    ensures { result ≡ is_cut bytes.now locator.now }
{
    if locator.number < LEAST_NUMBER {
        return false;
    }
    let size = u64::from(locator.size);
    if size == 0 {
        return false;
    }
    (bytes.len() as u64) < u64::from(locator.place) + size
}

/// Why the unknown sections are refused: the first, locator by locator, that passes the end of the input.
pub(crate) fn refusal_of_others(bytes: &[u8], locators: &[Locator]) -> Option<Refusal>
    ensures first { result ≡ first_cut bytes.now 0 locators.now }
{
    'locators: for index in 0..locators.len() {
        let locator = &locators[index];
        if is_cut(bytes, locator) {
            return Some(Refusal::new(SECTION_SHORT, index as u64, u64::from(locator.place)));
        }
    }
    None
}

/// The bytes of a locator's unknown section, which don't pass the end of the input.
fn bytes_of<'a>(bytes: &'a [u8], locator: &Locator) -> &'a [u8]
    requires known { 3 ≤ locator.now.number }
    requires within { is_cut bytes.now locator.now ≡ false }
    ensures { result.now ≡ take locator.now.size (drop locator.now.place bytes.now) }
{
    if locator.size == 0 {
        return &[];
    }
    let place = locator.place as usize;
    &bytes[place..place + locator.size as usize]
}

/// The unknown sections and that of one locator more, where its number is none that is known and its bytes don't pass the end
/// of the input. Err: out of memory.
#[tactic(auto, using(crate::proofs::Borrowing::section_lent))]
fn with_section<'a>(
    mut others: Items<Other<'a>>,
    bytes: &'a [u8],
    locator: &Locator,
) -> Result<Items<Other<'a>>, NoMemory>
    ensures value { IfOk result (λ more. map other_value more ≡ map other_value others.entry ++ sections_at bytes.now (whole_locators bytes.now (locator.now ∷ []))) }
    ensures lent { All IsBorrowedSection others.entry → IfOk result (All IsBorrowedSection) }
{
    if is_cut(bytes, locator) {
        return Ok(others);
    }
    if locator.number < LEAST_NUMBER {
        return Ok(others);
    }
    others.try_push(Other {
        number: locator.number,
        bytes: BytePart::Lent(bytes_of(bytes, locator)),
    })?;
    Ok(others)
}

/// The unknown sections of locators, in their order, but for those that pass the end of the input. Err: out of memory.
#[tactic(auto, using(crate::proofs::Borrowing::no_sections_lent))]
pub fn whole_others<'a>(
    alloc: Global,
    bytes: &'a [u8],
    locators: &[Locator],
) -> Result<Items<Other<'a>>, NoMemory>
    ensures value { IfOk result (λ others. map other_value others ≡ sections_at bytes.now (whole_locators bytes.now locators.now)) }
    ensures lent { IfOk result (All IsBorrowedSection) }
{
    let mut others = Items::new(alloc);
    'locators: for index in 0..locators.len() {
        others = with_section(others, bytes, &locators[index])?;
    }
    Ok(others)
}
