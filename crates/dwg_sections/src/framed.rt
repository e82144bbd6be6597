//! Framed sections: the header variables and the classes.

ghost use Rattle.std.specs.Prelude.{◌≡◌, ◌+◌, ◌≤◌, length, bytes_eq, ◌==◌, None, Some, IfOk, IfErr, OnOk, IfNone};
ghost use Rattle.dwg_base.specs.Refusals.{first_fault};
ghost use Rattle.dwg_check.specs.CheckWord.{CHECK_SEED, check_word};
ghost use Rattle.dwg_sections.specs.HeaderLines.{bytes_at, rs_at};
ghost use Rattle.dwg_sections.specs.Framed.{begin_sentinel, end_sentinel, FramedAt};
ghost use Rattle.dwg_sections.specs.FramedLines.{first_line, size_at, content_at, framed_lines};

use crate::fields::{piece, rl, rs};
use crate::refusals::refusal;
use dwg_base::Refusal;
use dwg_base::refusal_lines::{CLASSES_SHORT, VARIABLES_SHORT};
use dwg_check::{CHECK_SEED, check};

/// A section that stands between sentinels (Open Design Specification, "R13 to R2000 file layout").
#[derive(Clone, Copy, Debug, PartialEq, Eq)]
pub enum Framed {
    /// The header variables.
    Variables,
    /// The classes.
    Classes,
}

/// The bytes of a sentinel.
const SENTINEL_SIZE: usize = 16;

/// Where the size of the content stands in a framed section.
pub const SIZE_PLACE: usize = 16;

/// Where the content stands in a framed section: so many bytes of the section stand before it.
pub const CONTENT_PLACE: usize = 20;

/// How many bytes the size of the content has, over which the check word goes too.
const SIZE_BYTES: usize = 4;

/// Where the end sentinel stands in a section without content.
pub const END_PLACE: usize = 22;

/// The bytes of a section without content.
pub const FRAMED_SIZE: usize = 38;

/// What a section begins with.
pub fn begin_sentinel(which: Framed) -> [u8; 16]
    ensures { result ≡ begin_sentinel which }
{
    match which {
        Framed::Variables => [
            0xCF, 0x7B, 0x1F, 0x23, 0xFD, 0xDE, 0x38, 0xA9, 0x5F, 0x7C, 0x68, 0xB8, 0x4E, 0x6D,
            0x33, 0x5F,
        ],
        Framed::Classes => [
            0x8D, 0xA1, 0xC4, 0xB8, 0xC4, 0xA9, 0xF8, 0xC5, 0xC0, 0xDC, 0xF4, 0x5F, 0xE7, 0xCF,
            0xB6, 0x8A,
        ],
    }
}

/// What a section ends with: the complement of what it begins with.
pub fn end_sentinel(which: Framed) -> [u8; 16]
    ensures { result ≡ end_sentinel which }
{
    match which {
        Framed::Variables => [
            0x30, 0x84, 0xE0, 0xDC, 0x02, 0x21, 0xC7, 0x56, 0xA0, 0x83, 0x97, 0x47, 0xB1, 0x92,
            0xCC, 0xA0,
        ],
        Framed::Classes => [
            0x72, 0x5E, 0x3B, 0x47, 0x3B, 0x56, 0x07, 0x3A, 0x3F, 0x23, 0x0B, 0xA0, 0x18, 0x30,
            0x49, 0x75,
        ],
    }
}

/// The first of a section's five lines in the table of refusals.
fn first_line(which: Framed) -> u8
    ensures line { result ≡ first_line which }
    ensures least { 1 ≤ result }
    ensures most { result ≤ 14 }
{
    match which {
        Framed::Variables => VARIABLES_SHORT,
        Framed::Classes => CLASSES_SHORT,
    }
}

/// Whether the begin sentinel of a section stands at the place.
pub fn has_begin(bytes: &[u8], place: usize, which: Framed) -> bool
    requires { place + 16 ≤ length bytes.now }
    ensures { result ≡ bytes_eq (bytes_at bytes.now place 16) (begin_sentinel which) }
{
    piece(bytes, place, SENTINEL_SIZE) == begin_sentinel(which).as_slice()
}

/// Whether the end sentinel of a section stands at the place.
pub fn has_end(bytes: &[u8], place: usize, which: Framed) -> bool
    requires { place + 16 ≤ length bytes.now }
    ensures { result ≡ bytes_eq (bytes_at bytes.now place 16) (end_sentinel which) }
{
    piece(bytes, place, SENTINEL_SIZE) == end_sentinel(which).as_slice()
}

/// Whether the check word after so many bytes of content is that of the size and the content.
fn has_section_word(bytes: &[u8], place: usize, size: usize) -> bool
    requires { place + 22 + size ≤ length bytes.now }
    ensures { result ≡ (rs_at bytes.now (place + 20 + size) == check_word CHECK_SEED (bytes_at bytes.now (place + 16) (4 + size))) }
{
    let sized = piece(bytes, place + SIZE_PLACE, SIZE_BYTES + size);
    rs(bytes, place + CONTENT_PLACE + size) == check(CHECK_SEED, sized)
}

/// The first line on the section at a place that fails. Where none fails, the input has all bytes of the section.
#[tactic(auto, unfolding(crate::specs::FramedLines::framed_short_line, crate::specs::FramedLines::begin_line, crate::specs::FramedLines::length_line, crate::specs::FramedLines::framed_check_line, crate::specs::FramedLines::end_line))]
fn refusal_of_framed(bytes: &[u8], place: u32, which: Framed) -> Option<Refusal>
    ensures first { result ≡ first_fault (framed_lines which place) bytes.now }
    ensures whole { IfNone result (place + 38 + size_at bytes.now place ≤ length bytes.now) }
{
    let line = first_line(which);
    let place = place as usize;
    if bytes.len() < place + CONTENT_PLACE {
        return Some(refusal(line, 0, place));
    }
    if !has_begin(bytes, place, which) {
        return Some(refusal(line + 1, 0, place));
    }
    let size = rl(bytes, place + SIZE_PLACE) as usize;
    if bytes.len() < place + FRAMED_SIZE + size {
        return Some(refusal(line + 2, 0, place + SIZE_PLACE));
    }
    if !has_section_word(bytes, place, size) {
        return Some(refusal(line + 3, 0, place + CONTENT_PLACE + size));
    }
    if !has_end(bytes, place + END_PLACE + size, which) {
        return Some(refusal(line + 4, 0, place + END_PLACE + size));
    }
    None
}

/// The content of the section at a place, which a locator names. It is refused by the first of its lines that fails: the
/// input is short, the begin sentinel is another, the input is shorter than the section's size says, the check word is
/// wrong, the end sentinel is another (Open Design Specification, "R13 to R2000 file layout").
pub fn read_framed(bytes: &[u8], place: u32, which: Framed) -> Result<&[u8], Refusal>
    // The content of the section that stands there; one does exactly where no line on it fails.
    ensures found { IfOk result (λ content. FramedAt bytes.now place which content.now) }
    ensures value { IfOk result (λ content. content.now ≡ content_at bytes.now place) }
    ensures holds { OnOk result (first_fault (framed_lines which place) bytes.now ≡ None) }

    // The first line that fails.
    ensures refused { IfErr result (λ refusal. first_fault (framed_lines which place) bytes.now ≡ Some refusal) }
{
    match refusal_of_framed(bytes, place, which) {
        Some(refusal) => Err(refusal),
        None => {
            let place = place as usize;
            let size = rl(bytes, place + SIZE_PLACE) as usize;
            Ok(piece(bytes, place + CONTENT_PLACE, size))
        }
    }
}
