//! A preview section in pieces: a prefix, the further bytes of the content, and the end sentinel.

ghost use Rattle.std.specs.Prelude.{◌≡◌, ℕ, ◌+◌, ◌≤◌, drop, length};
ghost use Rattle.dwg_preview.specs.Previews.{IsContent, prefix_bytes, further_bytes};

use crate::places::{CONTENT_PLACE, further_place};
use crate::preview::Preview;

/// The bytes from a place on.
fn bytes_from(bytes: &[u8], place: usize) -> &[u8]
    requires { place ≤ length bytes.now }
    ensures { result.now ≡ drop place bytes.now }
{
    &bytes[place..]
}

/// How many bytes of the section stand before the further bytes of its content, wherever it is written: the begin sentinel, the
/// size, the count, and at most 255 entries. The caller sees to it that the preview was read.
pub fn prefix_length(preview: &Preview<'_>) -> u64
    requires read { IsContent preview.now.place preview.now.content.now }
    ensures length { (to : ℕ) → result ≡ length (prefix_bytes preview.now.place to preview.now.content.now) }
    ensures few { result ≤ 2316 }
    ensures within { result ≤ 20 + length preview.now.content.now }
{
    (CONTENT_PLACE + further_place(preview.content)) as u64
}

/// The further bytes of the content, as they are held: they stay the same wherever the section is written. The caller sees to it
/// that the preview was read.
pub fn further<'a>(preview: &Preview<'a>) -> &'a [u8]
    requires read { IsContent preview.now.place preview.now.content.now }
    ensures { result.now ≡ further_bytes preview.now.content.now }
{
    bytes_from(preview.content, further_place(preview.content))
}
