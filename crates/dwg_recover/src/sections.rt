//! Where the header variables and the classes are found: at the place of their locator, or where the first whole section stands.

ghost use Rattle.std.specs.Prelude.{◌≡◌, ◌+◌, ◌*◌, ◌^◌, ◌≤◌, ◌<◌, ℕ, length, false, true, IfOk, IfSome, IfNone, ◌==◌};
ghost use Rattle.std.specs.Option.{is_none};
ghost use Rattle.std.specs.Result.{is_ok};
ghost use Rattle.memchr.specs.Find.{OccursAt};
ghost use Rattle.dwg_base.specs.Devices.{MOST_BYTES};
ghost use Rattle.dwg_base.specs.Refusals.{first_fault};
ghost use Rattle.dwg_check.specs.CheckWord.{CHECK_SEED, check_word};
ghost use Rattle.dwg_classes.specs.ClassLines.{tried_classes};
ghost use Rattle.dwg_codes.specs.Parts.{part_bytes};
ghost use Rattle.dwg_recover.specs.Sections.{classes_of, first_whole, header_of, is_whole, locators_of, number_of_section, section_found, variables_of};
ghost use Rattle.dwg_sections.specs.Framed.{begin_sentinel};
ghost use Rattle.dwg_sections.specs.FramedLines.{BEFORE_CONTENT, content_at, framed_lines, size_at};
ghost use Rattle.dwg_sections.specs.HeaderLines.{bytes_at, place_of, rs_at};

use dwg_base::{Fault, Items, NoMemory, bytes_after};
use dwg_check::{CHECK_SEED, SpanChecks};
use dwg_classes::{Class, read_classes};
use dwg_codes::BytePart;
use dwg_sections::{
    CLASSES_NUMBER, CONTENT_PLACE, END_PLACE, FRAMED_SIZE, FileHeader, Framed, SIZE_PLACE,
    VARIABLES_NUMBER, begin_sentinel, has_begin, has_end, piece, read_file_header, rl, rs,
};
use dwg_steps::Steps;
use memchr::memmem;
use std::alloc::Global;
use std::sync::ledger::Ledger;

/// The file header, where no line on it fails. Err: out of memory.
#[tactic(auto, unfolding(crate::specs::Sections::header_of))]
pub(crate) fn header_of(alloc: Global, bytes: &[u8]) -> Result<Option<FileHeader>, NoMemory>
    ensures { IfOk result (λ header. header ≡ header_of bytes.now) }
{
    match read_file_header(alloc, bytes) {
        Ok(header) => Ok(Some(header)),
        Err(Fault::Refused(_)) => Ok(None),
        Err(Fault::NoMemory) => Err(NoMemory),
    }
}

/// The place in the locator of a number. None where the header is lost, or has no such locator.
pub(crate) fn place_located(header: &Option<FileHeader>, number: u8) -> Option<u32>
    ensures { result ≡ place_of number (locators_of header.now) }
{
    match header {
        Some(header) => header.place_of(number),
        None => None,
    }
}

/// Whether the check word after so many bytes of content is that of the size and the content, as `checks` reports it.
fn is_checked_section<L: Ledger>(
    bytes: &[u8],
    checks: &SpanChecks<'_>,
    place: usize,
    size: usize,
    steps: &mut Steps<L>,
) -> bool
    requires same { checks.now ≡ bytes.now }
    requires within { place + 22 + size ≤ length bytes.now }
    ensures test { result ≡ (rs_at bytes.now (place + 20 + size) == check_word CHECK_SEED (bytes_at bytes.now (place + 16) (4 + size))) }
    ensures steps { steps.new ≤ steps.old + 15 }
{
    let content = place + CONTENT_PLACE;
    let word = checks.of(CHECK_SEED, place + SIZE_PLACE, content + size, steps);
    rs(bytes, content + size) == word
}

/// Whether no line on a framed section fails at a place.
#[tactic(auto, unfolding(dwg_sections::specs::FramedLines::framed_short_line, dwg_sections::specs::FramedLines::begin_line, dwg_sections::specs::FramedLines::length_line, dwg_sections::specs::FramedLines::framed_check_line, dwg_sections::specs::FramedLines::end_line))]
fn is_framed<L: Ledger>(
    bytes: &[u8],
    checks: &SpanChecks<'_>,
    place: usize,
    which: Framed,
    steps: &mut Steps<L>,
) -> bool
    requires same { checks.now ≡ bytes.now }
    requires place { place < 2 ^ 32 }
    ensures framed { result ≡ is_none (first_fault (framed_lines which place) bytes.now) }
    ensures within { result ≡ true → place + 38 + size_at bytes.now place ≤ length bytes.now }
    ensures steps { steps.new ≤ steps.old + 15 }
{
    if bytes.len() < place + CONTENT_PLACE {
        return false;
    }
    if !has_begin(bytes, place, which) {
        return false;
    }
    let size = rl(bytes, place + SIZE_PLACE) as usize;
    if bytes.len() < place + FRAMED_SIZE + size {
        return false;
    }
    if !is_checked_section(bytes, checks, place, size, steps) {
        return false;
    }
    has_end(bytes, place + END_PLACE + size, which)
}

/// The content of a section that lies in the input.
fn content(bytes: &[u8], place: usize) -> &[u8]
    requires { place + 38 + size_at bytes.now place ≤ length bytes.now }
    ensures content { result.now ≡ content_at bytes.now place }
{
    let size = rl(bytes, place + SIZE_PLACE) as usize;
    piece(bytes, place + CONTENT_PLACE, size)
}

/// Whether the content of a section that lies in the input is cut into classes. Err: out of memory.
fn has_classes(alloc: Global, bytes: &[u8], place: usize) -> Result<bool, NoMemory>
    requires limit { length bytes.now ≤ MOST_BYTES }
    requires within { place + 38 + size_at bytes.now place ≤ length bytes.now }
    ensures { IfOk result (λ has. has ≡ is_ok (tried_classes (place + BEFORE_CONTENT) (content_at bytes.now place))) }
{
    match read_classes(alloc, content(bytes, place), (place + CONTENT_PLACE) as u64) {
        Ok(_) => Ok(true),
        Err(Fault::Refused(_)) => Ok(false),
        Err(Fault::NoMemory) => Err(NoMemory),
    }
}

/// Whether a section is whole at a place: no line on it fails there, and the content of the classes is cut into classes. Err: out
/// of memory.
#[tactic(auto, unfolding(crate::specs::Sections::is_whole))]
fn is_whole<L: Ledger>(
    alloc: Global,
    bytes: &[u8],
    checks: &SpanChecks<'_>,
    place: usize,
    which: Framed,
    steps: &mut Steps<L>,
) -> Result<bool, NoMemory>
    requires limit { length bytes.now ≤ MOST_BYTES }
    requires same { checks.now ≡ bytes.now }
    requires place { place < 2 ^ 32 }
    ensures whole { IfOk result (λ whole. whole ≡ is_whole which bytes.now place) }
    ensures steps { steps.new ≤ steps.old + 15 }
{
    if !is_framed(bytes, checks, place, which, steps) {
        return Ok(false);
    }
    match which {
        Framed::Variables => Ok(true),
        Framed::Classes => has_classes(alloc, bytes, place),
    }
}

/// The next place, from one on, at which the begin sentinel of a section stands. At those before it no section is whole, and
/// where there is none, at none after.
fn next_sentinel(bytes: &[u8], at: usize, which: Framed) -> Option<usize>
    requires { at ≤ length bytes.now }
    ensures found { IfSome result (λ place. (at ≤ place) × (place < length bytes.now) × ((other : ℕ) → at ≤ other → other < place → is_whole which bytes.now other ≡ false)) }
    ensures stands { IfSome result (λ place. OccursAt bytes.now (begin_sentinel which) place) }
    ensures none { IfNone result ((other : ℕ) → at ≤ other → is_whole which bytes.now other ≡ false) }
{
    let sentinel = begin_sentinel(which);
    match memmem::find(bytes_after(bytes, at), sentinel.as_slice()) {
        Some(found) => Some(at + found),
        None => None,
    }
}

/// The first place at which a section is whole. Err: out of memory.
fn first_whole<L: Ledger>(
    alloc: Global,
    bytes: &[u8],
    checks: &SpanChecks<'_>,
    which: Framed,
    steps: &mut Steps<L>,
) -> Result<Option<usize>, NoMemory>
    requires limit { length bytes.now ≤ MOST_BYTES }
    requires same { checks.now ≡ bytes.now }
    ensures first { IfOk result (λ found. found ≡ first_whole which bytes.now) }
    ensures steps { steps.new ≤ steps.old + 15 * length bytes.now }
{
    let mut at = 0;
    'places: for _ in 0..bytes.len() {
        let Some(place) = next_sentinel(bytes, at, which) else {
            return Ok(None);
        };
        if is_whole(alloc, bytes, checks, place, which, steps)? {
            return Ok(Some(place));
        }
        at = place + 1;
    }
    Ok(None)
}

/// The number of a section's locator.
fn number_of_section(which: Framed) -> u8
    ensures { result ≡ number_of_section which }
{
    match which {
        Framed::Variables => VARIABLES_NUMBER,
        Framed::Classes => CLASSES_NUMBER,
    }
}

/// Where a section is found: at the place of its locator, where it is whole there, or else at the first place where it is whole.
/// Err: out of memory.
#[tactic(auto, unfolding(crate::specs::Sections::section_found))]
pub(crate) fn section_found<L: Ledger>(
    alloc: Global,
    bytes: &[u8],
    checks: &SpanChecks<'_>,
    header: &Option<FileHeader>,
    which: Framed,
    steps: &mut Steps<L>,
) -> Result<Option<usize>, NoMemory>
    requires limit { length bytes.now ≤ MOST_BYTES }
    requires same { checks.now ≡ bytes.now }
    requires header { header.now ≡ header_of bytes.now }
    ensures found { IfOk result (λ found. found ≡ section_found which bytes.now) }
    ensures steps { steps.new ≤ steps.old + 15 * (length bytes.now + 1) }
{
    let Some(place) = place_located(header, number_of_section(which)) else {
        return first_whole(alloc, bytes, checks, which, steps);
    };
    if is_whole(alloc, bytes, checks, place as usize, which, steps)? {
        return Ok(Some(place as usize));
    }
    first_whole(alloc, bytes, checks, which, steps)
}

/// The content of the header variables that were found; without them there is none.
pub(crate) fn variables_at<'a>(bytes: &'a [u8], found: Option<usize>) -> BytePart<'a>
    requires { found ≡ section_found Framed.Variables bytes.now }
    ensures { part_bytes result ≡ variables_of bytes.now found }
{
    let content = match found {
        Some(place) => content(bytes, place),
        None => &[],
    };
    BytePart::Lent(content)
}

/// The classes that were found; without their section there are none. Err: out of memory.
pub(crate) fn classes_at(
    alloc: Global,
    bytes: &[u8],
    found: Option<usize>,
) -> Result<Items<Class>, NoMemory>
    requires limit { length bytes.now ≤ MOST_BYTES }
    requires found { found ≡ section_found Framed.Classes bytes.now }
    ensures { IfOk result (λ classes. classes ≡ classes_of bytes.now found) }
{
    let Some(place) = found else {
        return Ok(Items::new(alloc));
    };
    match read_classes(alloc, content(bytes, place), (place + CONTENT_PLACE) as u64) {
        Ok(classes) => Ok(classes),
        Err(Fault::Refused(_)) => Ok(Items::new(alloc)),
        Err(Fault::NoMemory) => Err(NoMemory),
    }
}
