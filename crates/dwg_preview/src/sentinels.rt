//! What stands at both ends of a preview section (Open Design Specification, "R13 to R2000 file layout").

ghost use Rattle.std.specs.Prelude.{◌≡◌, ◌+◌, ◌≤◌, bytes_eq, length};
ghost use Rattle.dwg_sections.specs.Framed.{complemented};
ghost use Rattle.dwg_sections.specs.HeaderLines.{bytes_at};
ghost use Rattle.dwg_preview.specs.Previews.{PREVIEW_SENTINEL};

use dwg_sections::piece;

/// The bytes of a sentinel.
const SENTINEL_SIZE: usize = 16;

/// What a section begins with.
pub fn begin_sentinel() -> [u8; 16]
    ensures { result ≡ PREVIEW_SENTINEL }
{
    [
        0x1F, 0x25, 0x6D, 0x07, 0xD4, 0x36, 0x28, 0x28, 0x9D, 0x57, 0xCA, 0x3F, 0x9D, 0x44, 0x10,
        0x2B,
    ]
}

/// What a section ends with: the complement of what it begins with.
pub fn end_sentinel() -> [u8; 16]
    ensures { result ≡ complemented PREVIEW_SENTINEL }
{
    [
        0xE0, 0xDA, 0x92, 0xF8, 0x2B, 0xC9, 0xD7, 0xD7, 0x62, 0xA8, 0x35, 0xC0, 0x62, 0xBB, 0xEF,
        0xD4,
    ]
}

/// Whether the begin sentinel stands at the place.
pub fn has_begin(bytes: &[u8], place: usize) -> bool
    requires { place + 16 ≤ length bytes.now }
    ensures { result ≡ bytes_eq (bytes_at bytes.now place 16) PREVIEW_SENTINEL }
{
    piece(bytes, place, SENTINEL_SIZE) == begin_sentinel().as_slice()
}

/// Whether the end sentinel stands at the place.
pub fn has_end(bytes: &[u8], place: usize) -> bool
    requires { place + 16 ≤ length bytes.now }
    ensures { result ≡ bytes_eq (bytes_at bytes.now place 16) (complemented PREVIEW_SENTINEL) }
{
    piece(bytes, place, SENTINEL_SIZE) == end_sentinel().as_slice()
}
