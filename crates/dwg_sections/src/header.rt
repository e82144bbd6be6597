//! The file header: its locators say where each section lies.

ghost use Rattle.std.specs.Prelude.{◌≡◌, ◌+◌, ◌*◌, ◌≤◌, length, IfSome, IfNone, IfOk, IfErr, OnOk, None};
ghost use Rattle.dwg_base.specs.FirstItem.{HaveOther};
ghost use Rattle.dwg_base.specs.Refusals.{first_fault, Reports};
ghost use Rattle.dwg_sections.specs.FileHeader.{BeginsWithHeader};
ghost use Rattle.dwg_sections.specs.FirstLocator.{number_of, IsFirstPlace};
ghost use Rattle.dwg_sections.specs.HeaderLines.{HEADER_LINES, bytes_at, rs_at, rl_at, locator_at, locators_at, locators_end, header_at, place_of};

use crate::fields::{rl, rs};
use crate::header_lines::{count, refusal_of_header};
use crate::header_places::{
    CODE_PAGE_PLACE, LEAD_PLACE, LOCATOR_SIZE, LOCATORS_PLACE, MARK_PLACE, PREVIEW_PLACE,
};
use dwg_base::{Fault, Items, NoMemory, Version};
use std::alloc::Global;

/// Where a section lies (Open Design Specification, "R13 to R2000 file layout").
#[derive(Clone, Copy, Debug, PartialEq, Eq)]
pub struct Locator {
    /// 0 the header variables, 1 the classes, 2 the object map, any other an unknown section.
    pub number: u8,
    /// The section's place in the file, in bytes.
    pub place: u32,
    /// The section's size in bytes.
    pub size: u32,
}

/// The file header (Open Design Specification, "R13 to R2000 file layout").
#[derive(Drop)]
pub struct FileHeader {
    /// The version, by the six bytes with which the file begins.
    pub version: Version,
    /// Seven bytes after the version, kept without meaning.
    pub lead: [u8; 7],
    /// The place of the preview section.
    pub preview: u32,
    /// Two bytes before the code page, kept without meaning.
    pub mark: [u8; 2],
    /// The code page of the texts.
    pub code_page: u16,
    /// Three to six locators, in file order.
    pub locators: Items<Locator>,
}

impl FileHeader {
    /// The place of the section with this number: the first locator's that has it. None exactly where no locator has it.
    #[tactic(auto, using(crate::proofs::LocatorFinding::place_found, crate::proofs::LocatorFinding::place_not_found))]
    pub fn place_of(&self, number: u8) -> Option<u32>
        ensures place { result ≡ place_of number self.now.locators }
        ensures found { IfSome result (IsFirstPlace self.now.locators number) }
        ensures none { IfNone result (HaveOther number_of number self.now.locators) }
    {
        first_place(self.locators.as_slice(), number)
    }
}

/// The place of the first locator with this number.
fn first_place(locators: &[Locator], number: u8) -> Option<u32>
    ensures { result ≡ place_of number locators.now }
{
    locators
        .iter()
        .find(|locator| locator.number == number)
        .map(|locator| locator.place)
}

/// The seven bytes after the version.
fn lead(bytes: &[u8]) -> [u8; 7]
    requires { 25 ≤ length bytes.now }
    ensures { result ≡ bytes_at bytes.now 6 7 }
{
    [
        bytes[LEAD_PLACE],
        bytes[LEAD_PLACE + 1],
        bytes[LEAD_PLACE + 2],
        bytes[LEAD_PLACE + 3],
        bytes[LEAD_PLACE + 4],
        bytes[LEAD_PLACE + 5],
        bytes[LEAD_PLACE + 6],
    ]
}

/// The place of the preview section.
fn preview(bytes: &[u8]) -> u32
    requires { 25 ≤ length bytes.now }
    ensures { result ≡ rl_at bytes.now 13 }
{
    rl(bytes, PREVIEW_PLACE)
}

/// The two bytes before the code page.
fn mark(bytes: &[u8]) -> [u8; 2]
    requires { 25 ≤ length bytes.now }
    ensures { result ≡ bytes_at bytes.now 17 2 }
{
    [bytes[MARK_PLACE], bytes[MARK_PLACE + 1]]
}

/// The code page of the texts.
fn code_page(bytes: &[u8]) -> u16
    requires { 25 ≤ length bytes.now }
    ensures { result ≡ rs_at bytes.now 19 }
{
    rs(bytes, CODE_PAGE_PLACE)
}

/// The locator at the place: RC number, RL place, RL size.
fn read_locator(bytes: &[u8], place: usize) -> Locator
    requires { place + 9 ≤ length bytes.now }
    ensures { result ≡ locator_at bytes.now place }
{
    Locator {
        number: bytes[place],
        place: rl(bytes, place + 1),
        size: rl(bytes, place + 5),
    }
}

/// So many locators, one after the other. Err: out of memory.
#[tactic(auto, using(crate::proofs::LocatorStep::one_locator_less, crate::proofs::LocatorStep::no_locator_left))]
fn read_locators(alloc: Global, bytes: &[u8], count: u32) -> Result<Items<Locator>, NoMemory>
    requires { 25 + 9 * count ≤ length bytes.now }
    ensures { IfOk result (λ locators. locators ≡ locators_at count bytes.now 25) }
{
    let mut locators = Items::new(alloc);
    'locators: for i in 0..count {
        let place = LOCATORS_PLACE + LOCATOR_SIZE * i as usize;
        locators.try_push(read_locator(bytes, place))?;
    }
    Ok(locators)
}

/// The header by the places of its parts, where no line on it fails. Err: out of memory.
#[tactic(auto, unfolding(crate::specs::HeaderLines::header_at, crate::specs::HeaderLines::locators_end))]
fn read_parts(alloc: Global, bytes: &[u8]) -> Result<FileHeader, NoMemory>
    requires { 18 + locators_end bytes.now ≤ length bytes.now }
    ensures { IfOk result (λ header. header ≡ header_at bytes.now) }
{
    let locators = read_locators(alloc, bytes, count(bytes))?;
    Ok(FileHeader {
        version: Version::of_input(bytes),
        lead: lead(bytes),
        preview: preview(bytes),
        mark: mark(bytes),
        code_page: code_page(bytes),
        locators,
    })
}

/// Reads the file header at the begin of the input. It is refused by the first of its lines that fails: the input is
/// short, the version is neither AC1014 nor AC1015, the count of locators is another, the check word or the sentinel is wrong, a locator has the
/// number of an earlier one, or 0, 1 or 2 is no locator's number.
pub fn read_file_header(alloc: Global, bytes: &[u8]) -> Result<FileHeader, Fault>
    // The header that the input begins with; there is one exactly where no line on the header fails.
    ensures found { IfOk result (λ header. BeginsWithHeader bytes.now header) }
    ensures value { IfOk result (λ header. header ≡ header_at bytes.now) }
    ensures holds { OnOk result (first_fault HEADER_LINES bytes.now ≡ None) }

    // The first line that fails, or out of memory.
    ensures refused { IfErr result (λ fault. Reports fault (first_fault HEADER_LINES bytes.now)) }
{
    if let Some(refusal) = refusal_of_header(bytes) {
        return Err(Fault::Refused(refusal));
    }
    let header = read_parts(alloc, bytes)?;
    Ok(header)
}
