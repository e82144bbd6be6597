//! A preview section that was read.

ghost use Rattle.std.specs.Prelude.{◌≡◌, ◌+◌, length};
ghost use Rattle.dwg_preview.specs.Previews.{WITHOUT_CONTENT, preview_bytes};

/// A preview section (Open Design Specification, "R13 to R2000 file layout").
#[derive(Clone, Copy, Debug)]
pub struct Preview<'a> {
    /// The section's place in the file that it was read of, in bytes: the places in the content are counted from that file's begin.
    pub place: u32,
    /// What stands between the size and the end sentinel: the count of entries, the entries, further bytes.
    pub content: &'a [u8],
}

/// How many bytes a section has without its content.
const WITHOUT_CONTENT: u64 = 36;

/// How many bytes the section has.
pub fn preview_length(preview: &Preview<'_>) -> u64
    ensures counted { result ≡ WITHOUT_CONTENT + length preview.now.content.now }
    ensures length { result ≡ length (preview_bytes preview.now.content.now) }
{
    WITHOUT_CONTENT + preview.content.len() as u64
}
