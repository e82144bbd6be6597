//! Reading the preview section.

ghost use Rattle.std.specs.Prelude.{◌≡◌, ◌+◌, ◌*◌, ◌^◌, ◌<◌, ◌≤◌, List, ℕ, length, IfNone, IfSome, IsTrue, ◌↔◌};
ghost use Rattle.dwg_base.specs.Bytes.{StandsAt};
ghost use Rattle.dwg_preview.specs.Previews.{IsContent, LiesBetween, PreviewAt, entry_at, preview_bytes};

use crate::places::{
    CONTENT_PLACE, ENTRIES_PLACE, ENTRY_SIZE, PICTURE_PLACE, PICTURE_SIZE_PLACE, SECTION_SIZE,
    SIZE_PLACE, entry_count,
};
use crate::preview::Preview;
use crate::sentinels::{has_begin, has_end};
use dwg_sections::{piece, rl};

/// What stands between the sentinels of the section at a place, after its size. None exactly where no such section stands there.
fn framed_content(bytes: &[u8], place: usize) -> Option<&[u8]>
    requires { place < 2 ^ 32 }
    ensures size { IfSome result (λ content. length content.now < 2 ^ 32) }
    ensures stands { IfSome result (λ content. StandsAt bytes.now place (preview_bytes content.now)) }
    ensures none { IfNone result ((content : List ℕ) → length content < 2 ^ 32 → StandsAt bytes.now place (preview_bytes content) → ⊥) }
{
    if bytes.len() < place + SECTION_SIZE {
        return None;
    }
    if !has_begin(bytes, place) {
        return None;
    }
    let size = rl(bytes, place + SIZE_PLACE) as usize;
    if bytes.len() < place + SECTION_SIZE + size {
        return None;
    }
    if !has_end(bytes, place + CONTENT_PLACE + size) {
        return None;
    }
    Some(piece(bytes, place + CONTENT_PLACE, size))
}

/// Whether the picture of the entry at a place of the content, where it has a byte, lies between two places of the file.
fn lies_between(content: &[u8], place: usize, from: u64, end: u64) -> bool
    requires { place + 9 ≤ length content.now }
    ensures { IsTrue result ↔ LiesBetween from end (entry_at content.now place) }
{
    let picture = u64::from(rl(content, place + PICTURE_PLACE));
    let size = u64::from(rl(content, place + PICTURE_SIZE_PLACE));
    if size == 0 {
        return true;
    }
    if picture < from {
        return false;
    }
    picture + size <= end
}

/// Whether the pictures of so many entries lie between two places of the file.
fn all_lie_between(content: &[u8], count: u8, from: u64, end: u64) -> bool
    requires { 1 + 9 * count ≤ length content.now }
    ensures { IsTrue result ↔ ((i : ℕ) → i < count → LiesBetween from end (entry_at content.now (1 + 9 * i))) }
{
    'entries: for i in 0..count {
        if !lies_between(content, ENTRIES_PLACE + ENTRY_SIZE * i as usize, from, end) {
            return false;
        }
    }
    true
}

/// Whether this is the content of a preview section at the place: it has a count, the entries end in it, and their pictures lie
/// after them and in it.
fn is_content(content: &[u8], place: u32) -> bool
    requires { length content.now < 2 ^ 32 }
    ensures { IsTrue result ↔ IsContent place content.now }
{
    if content.is_empty() {
        return false;
    }
    let count = entry_count(content);
    let entries_end = ENTRIES_PLACE + ENTRY_SIZE * count as usize;
    if content.len() < entries_end {
        return false;
    }
    let begin = u64::from(place) + CONTENT_PLACE as u64;
    all_lie_between(
        content,
        count,
        begin + entries_end as u64,
        begin + content.len() as u64,
    )
}

/// The preview section at a place of the input. None exactly where none stands there: its sentinels or its size are another, it
/// passes the end of the input, it has no byte for the count of entries, its entries pass its end, or one of them names a picture
/// that doesn't lie after the entries and in the section.
pub fn read_preview<'a>(bytes: &'a [u8], place: u32) -> Option<Preview<'a>>
    ensures some { IfSome result (λ preview. (preview.place ≡ place) × PreviewAt bytes.now place preview.content.now) }
    ensures none { IfNone result ((content : List ℕ) → PreviewAt bytes.now place content → ⊥) }
{
    let content = framed_content(bytes, place as usize)?;
    if !is_content(content, place) {
        return None;
    }
    Some(Preview { place, content })
}
