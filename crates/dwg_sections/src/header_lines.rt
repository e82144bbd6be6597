//! The lines of the table of refusals on the file header.

ghost use Rattle.std.specs.Prelude.{◌≡◌, ◌+◌, ◌≤◌, length, ◌==◌, IfNone, bytes_eq, take};
ghost use Rattle.dwg_base.specs.Refusals.{first_fault};
ghost use Rattle.dwg_check.specs.CheckWord.{header_check_word};
ghost use Rattle.dwg_sections.specs.FileHeader.{HEADER_SENTINEL};
ghost use Rattle.dwg_sections.specs.HeaderLines.{HEADER_LINES, begins_with_version, bytes_at, rs_at, count_at, locators_end};

use crate::fields::{piece, rl, rs};
use crate::header_places::{COUNT_PLACE, LOCATOR_SIZE, LOCATORS_PLACE};
use crate::header_sentinel::SENTINEL_BYTES;
use crate::locator_lines::refusal_of_locators;
use crate::refusals::refusal;
use dwg_base::refusal_lines::{
    HEADER_CHECK, HEADER_COUNT, HEADER_CUT, HEADER_END, HEADER_SHORT, HEADER_VERSION,
};
use dwg_base::{Refusal, Version};
use dwg_check::header_word;

/// The fewest locators of a header.
const LEAST_COUNT: u32 = 3;

/// The most locators of a header.
const MOST_COUNT: u32 = 6;

/// The bytes of the check word, which stands after the locators.
const CHECK_SIZE: usize = 2;

/// The bytes of the check word and of the sentinel after it.
const TAIL_SIZE: usize = 18;

/// Whether the input begins with the bytes of a version that is read.
fn has_version(bytes: &[u8]) -> bool
    ensures { result ≡ begins_with_version bytes.now }
{
    bytes.starts_with(&Version::Ac1014.bytes()) || bytes.starts_with(&Version::Ac1015.bytes())
}

/// The count of locators that the header says it has.
#[tactic(auto, unfolding(crate::specs::HeaderLines::count_at))]
pub fn count(bytes: &[u8]) -> u32
    requires { 25 ≤ length bytes.now }
    ensures { result ≡ count_at bytes.now }
{
    rl(bytes, COUNT_PLACE)
}

/// Whether the check word at the end of so many locators is that of all bytes before it.
fn has_header_word(bytes: &[u8], count: u32, end: usize) -> bool
    requires least { 3 ≤ count }
    requires most { count ≤ 6 }
    requires within { end + 2 ≤ length bytes.now }
    ensures { result ≡ (rs_at bytes.now end == header_check_word count (take end bytes.now)) }
{
    rs(bytes, end) == header_word(count, &bytes[..end])
}

/// Whether the sentinel stands at the place.
fn has_sentinel(bytes: &[u8], place: usize) -> bool
    requires { place + 16 ≤ length bytes.now }
    ensures { result ≡ bytes_eq (bytes_at bytes.now place 16) HEADER_SENTINEL }
{
    piece(bytes, place, SENTINEL_BYTES.len()) == SENTINEL_BYTES.as_slice()
}

/// The first line on the file header that fails. Where none fails, the input has all bytes of the header.
#[tactic(auto, unfolding(crate::specs::HeaderLines::short_line, crate::specs::HeaderLines::version_line, crate::specs::HeaderLines::count_line, crate::specs::HeaderLines::cut_line, crate::specs::HeaderLines::check_line, crate::specs::HeaderLines::sentinel_line, crate::specs::HeaderLines::locators_end))]
pub fn refusal_of_header(bytes: &[u8]) -> Option<Refusal>
    ensures first { result ≡ first_fault HEADER_LINES bytes.now }
    ensures whole { IfNone result (18 + locators_end bytes.now ≤ length bytes.now) }
{
    let length = bytes.len();
    if length < LOCATORS_PLACE {
        return Some(refusal(HEADER_SHORT, 0, length));
    }
    if !has_version(bytes) {
        return Some(refusal(HEADER_VERSION, 0, 0));
    }
    let count = count(bytes);
    if count < LEAST_COUNT || MOST_COUNT < count {
        return Some(refusal(HEADER_COUNT, 0, COUNT_PLACE));
    }
    let end = LOCATORS_PLACE + LOCATOR_SIZE * count as usize;
    if length < TAIL_SIZE + end {
        return Some(refusal(HEADER_CUT, 0, length));
    }
    if !has_header_word(bytes, count, end) {
        return Some(refusal(HEADER_CHECK, 0, end));
    }
    if !has_sentinel(bytes, CHECK_SIZE + end) {
        return Some(refusal(HEADER_END, 0, CHECK_SIZE + end));
    }
    refusal_of_locators(bytes, count)
}
