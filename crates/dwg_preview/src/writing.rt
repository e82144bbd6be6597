//! Writing the preview section.

ghost use Rattle.std.specs.Prelude.{◌≡◌, ℕ, ◌+◌, ◌-◌, ◌*◌, ◌%◌, ◌^◌, ◌<◌, ◌≤◌, if◌then◌else◌, length, nat_lt};
ghost use Rattle.dwg_bits.specs.Bits.{bits};
ghost use Rattle.dwg_bits.specs.Sink.{Extends};
ghost use Rattle.dwg_sections.specs.Writing.{Puts};
ghost use Rattle.dwg_preview.specs.Previews.{IsContent, LiesBetween, WITHOUT_CONTENT, entries_moved, entry_at, entry_bytes, prefix_bytes, moved, moved_entry, preview_bytes};

use crate::pieces::further;
use crate::places::{ENTRIES_PLACE, ENTRY_SIZE, PICTURE_PLACE, PICTURE_SIZE_PLACE, entry_count};
use crate::preview::Preview;
use crate::sentinels::{begin_sentinel, end_sentinel};
use dwg_bits::BitSink;
use dwg_sections::rl;

/// Appends bytes.
fn put(bytes: &[u8], sink: &mut BitSink)
    requires { 8 * length bytes.now ≤ sink.old.spare }
    ensures { Puts sink.old sink.new bytes.now }
{
    sink.push_bytes(bytes);
}

/// The place of a picture of so many bytes, once the section that stood at one place stands at another; 0 where it has no byte.
fn moved_place(picture: u32, size: u32, from: u32, to: u32) -> u32
    requires after { 0 < size → from ≤ picture }
    requires within { 0 < size → picture + to < from + 2 ^ 32 }
    ensures { result ≡ (if nat_lt 0 size then picture - from + to else 0) }
{
    if size == 0 {
        return 0;
    }
    let offset = picture - from;
    to + offset
}

/// Writes the entry at a place of the content as it is once the section that stood at one place stands at another.
fn write_entry(content: &[u8], place: usize, from: u32, to: u32, sink: &mut BitSink)
    requires there { place + 9 ≤ length content.now }
    requires lies { LiesBetween from (from + 20 + length content.now) (entry_at content.now place) }
    requires within { to + WITHOUT_CONTENT + length content.now < 2 ^ 32 }
    requires room { 72 ≤ sink.old.spare }
    ensures { Puts sink.old sink.new (entry_bytes (moved_entry from to (entry_at content.now place))) }
{
    let picture = rl(content, place + PICTURE_PLACE);
    let size = rl(content, place + PICTURE_SIZE_PLACE);
    put(&[content[place]], sink);
    put(&moved_place(picture, size, from, to).to_le_bytes(), sink);
    put(&size.to_le_bytes(), sink);
}

/// Writes so many entries of the content as they are once the section that stood at one place stands at another.
fn write_entries(content: &[u8], count: u8, from: u32, to: u32, sink: &mut BitSink)
    requires there { 1 + 9 * count ≤ length content.now }
    requires lie { (i : ℕ) → i < count → LiesBetween from (from + 20 + length content.now) (entry_at content.now (1 + 9 * i)) }
    requires within { to + WITHOUT_CONTENT + length content.now < 2 ^ 32 }
    requires room { 72 * count ≤ sink.old.spare }
    ensures puts { Puts sink.old sink.new (entries_moved from to count content.now 1) }
    ensures spare { sink.old.spare ≤ sink.new.spare + 72 * count }
{
    'entries: for i in 0..count {
        write_entry(
            content,
            ENTRIES_PLACE + ENTRY_SIZE * i as usize,
            from,
            to,
            sink,
        );
    }
}

/// Writes what stands before the further bytes of a preview section as it is at a place: the begin sentinel, the size, the count,
/// and the entries, the place of each that names a picture counted from the begin of the file that is written, and that of each
/// other entry 0. The caller sees to it that the preview was read, that the section ends below 2^32 at that place, that the sink
/// holds whole bytes, and that it has the spare.
pub fn write_prefix(preview: &Preview<'_>, place: u32, sink: &mut BitSink)
    requires read { IsContent preview.now.place preview.now.content.now }
    requires within { place + WITHOUT_CONTENT + length preview.now.content.now < 2 ^ 32 }
    requires aligned { length sink.old.written % 8 ≡ 0 }
    requires room { 8 * length (prefix_bytes preview.now.place place preview.now.content.now) ≤ sink.old.spare }
    ensures { Extends sink.old sink.new (bits (prefix_bytes preview.now.place place preview.now.content.now)) }
{
    let length = preview.content.len() as u32;
    let count = entry_count(preview.content);
    put(&begin_sentinel(), sink);
    put(&length.to_le_bytes(), sink);
    put(&[count], sink);
    write_entries(preview.content, count, preview.place, place, sink);
}

/// Writes a preview section as it is at a place: the place of each entry that names a picture is counted from the begin of the file
/// that is written, and that of each other entry is 0. The caller sees to it that the preview was read, that the section ends
/// below 2^32 at that place, that the sink holds whole bytes, and that it has the spare.
pub fn write_preview(preview: &Preview<'_>, place: u32, sink: &mut BitSink)
    requires read { IsContent preview.now.place preview.now.content.now }
    requires within { place + WITHOUT_CONTENT + length preview.now.content.now < 2 ^ 32 }
    requires aligned { length sink.old.written % 8 ≡ 0 }
    requires room { 8 * (WITHOUT_CONTENT + length preview.now.content.now) ≤ sink.old.spare }
    ensures { Extends sink.old sink.new (bits (preview_bytes (moved preview.now.place place preview.now.content.now))) }
{
    write_prefix(preview, place, sink);
    put(further(preview), sink);
    put(&end_sentinel(), sink);
}
