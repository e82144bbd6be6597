//! What stands where in a preview section (Open Design Specification, "R13 to R2000 file layout").

ghost use Rattle.std.specs.Prelude.{◌≡◌, ◌+◌, ◌*◌, ◌<◌, length, slice_index};

/// Where the size of the content stands in a section.
pub const SIZE_PLACE: usize = 16;

/// Where the content stands in a section.
pub const CONTENT_PLACE: usize = 20;

/// The bytes of a section without content.
pub const SECTION_SIZE: usize = 36;

/// Where the entries stand in a content: after their count.
pub const ENTRIES_PLACE: usize = 1;

/// The bytes of an entry.
pub const ENTRY_SIZE: usize = 9;

/// Where in an entry the place of its picture stands: after the code.
pub const PICTURE_PLACE: usize = 1;

/// Where in an entry the size of its picture stands.
pub const PICTURE_SIZE_PLACE: usize = 5;

/// How many entries a content says that it has.
pub fn entry_count(content: &[u8]) -> u8
    requires { 0 < length content.now }
    ensures { result ≡ slice_index content.now 0 }
{
    content[0]
}

/// Where the further bytes stand in a content: after its entries.
pub fn further_place(content: &[u8]) -> usize
    requires { 0 < length content.now }
    ensures { result ≡ 1 + 9 * slice_index content.now 0 }
{
    ENTRIES_PLACE + ENTRY_SIZE * entry_count(content) as usize
}
