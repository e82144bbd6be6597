//! The lines of the table of refusals on the numbers of locators.

ghost use Rattle.std.specs.Prelude.{◌≡◌, ◌<◌, ◌≤◌, [], ◌∷◌, length, slice_index, find, IfSome};
ghost use Rattle.std.specs.List.{range_with_len};
ghost use Rattle.dwg_base.specs.Refusals.{first_fault};
ghost use Rattle.dwg_sections.specs.HeaderLines.{count_at, locators_end, numbers_at, stands_earlier, is_missing, repeated_line, missing_line};

use crate::header_places::{COUNT_PLACE, LOCATOR_SIZE, LOCATORS_PLACE};
use crate::refusals::refusal;
use crate::section_numbers::OBJECT_MAP_NUMBER;
use dwg_base::Refusal;
use dwg_base::refusal_lines::{LOCATOR_MISSING, LOCATOR_REPEATED};

/// The number of the locator at an index.
#[tactic(auto, using(crate::proofs::LocatorStep::number_is_read), unfolding(crate::specs::HeaderLines::locators_end))]
fn number_at(bytes: &[u8], index: u32) -> u8
    requires inside { index < count_at bytes.now }
    requires whole { locators_end bytes.now ≤ length bytes.now }
    ensures { result ≡ slice_index (numbers_at bytes.now) index }
{
    bytes[LOCATORS_PLACE + LOCATOR_SIZE * index as usize]
}

/// Whether the locator at an index has the number of an earlier one.
fn is_repeated(bytes: &[u8], index: u32) -> bool
    requires inside { index < count_at bytes.now }
    requires whole { locators_end bytes.now ≤ length bytes.now }
    ensures { result ≡ stands_earlier (numbers_at bytes.now) index }
{
    let number = number_at(bytes, index);
    'earlier_ones: for earlier in 0..index {
        if number_at(bytes, earlier) == number {
            return true;
        }
    }
    false
}

/// The first locator with the number of an earlier one.
#[tactic(auto, using(dwg_base::proofs::RangeSearch::found_here, dwg_base::proofs::RangeSearch::found_after, dwg_base::proofs::RangeSearch::found_nowhere))]
fn first_repeated(bytes: &[u8], count: u32) -> Option<u32>
    requires counted { count ≡ count_at bytes.now }
    requires whole { locators_end bytes.now ≤ length bytes.now }
    ensures { result ≡ find (stands_earlier (numbers_at bytes.now)) (range_with_len 0 (count_at bytes.now)) }
{
    'locators: for index in 0..count {
        if is_repeated(bytes, index) {
            return Some(index);
        }
    }
    None
}

/// Whether no locator has the number.
fn lacks(bytes: &[u8], count: u32, number: u32) -> bool
    requires counted { count ≡ count_at bytes.now }
    requires whole { locators_end bytes.now ≤ length bytes.now }
    ensures { result ≡ is_missing (numbers_at bytes.now) number }
{
    'locators: for index in 0..count {
        if u32::from(number_at(bytes, index)) == number {
            return false;
        }
    }
    true
}

/// The least of 0, 1 and 2 that is no locator's number.
#[tactic(auto, using(dwg_base::proofs::RangeSearch::found_here, dwg_base::proofs::RangeSearch::found_after, dwg_base::proofs::RangeSearch::found_nowhere))]
fn first_missing(bytes: &[u8], count: u32) -> Option<u32>
    requires counted { count ≡ count_at bytes.now }
    requires whole { locators_end bytes.now ≤ length bytes.now }
    ensures { result ≡ find (is_missing (numbers_at bytes.now)) (0 ∷ 1 ∷ 2 ∷ []) }
{
    let end = u32::from(OBJECT_MAP_NUMBER) + 1;
    'numbers: for number in 0..end {
        if lacks(bytes, count, number) {
            return Some(number);
        }
    }
    None
}

/// The first line on the numbers of locators that fails, where the input has all of them.
#[tactic(auto, unfolding(crate::specs::HeaderLines::repeated_line, crate::specs::HeaderLines::missing_line))]
pub fn refusal_of_locators(bytes: &[u8], count: u32) -> Option<Refusal>
    requires counted { count ≡ count_at bytes.now }
    requires few { count ≤ 6 }
    requires whole { locators_end bytes.now ≤ length bytes.now }
    ensures first { result ≡ first_fault (repeated_line ∷ missing_line ∷ []) bytes.now }
{
    if let Some(index) = first_repeated(bytes, count) {
        let place = LOCATORS_PLACE + LOCATOR_SIZE * index as usize;
        return Some(refusal(LOCATOR_REPEATED, index, place));
    }
    match first_missing(bytes, count) {
        Some(number) => Some(refusal(LOCATOR_MISSING, number, COUNT_PLACE)),
        None => None,
    }
}
