//! Writing framed sections.

ghost use Rattle.std.specs.Prelude.{◌≡◌, ◌+◌, ◌*◌, ◌%◌, ◌^◌, ◌<◌, ◌≤◌, ◌++◌, length};
ghost use Rattle.dwg_bits.specs.Bits.{bits};
ghost use Rattle.dwg_bits.specs.Sink.{Extends};
ghost use Rattle.dwg_sections.specs.Framed.{framed_bytes};

use crate::appending::put;
use crate::framed::{Framed, begin_sentinel, end_sentinel};
use dwg_bits::BitSink;
use dwg_check::{CHECK_SEED, check};

/// What stands around the content of a framed section.
#[derive(Clone, Copy, Debug, PartialEq, Eq)]
pub struct FramedPieces {
    /// The begin sentinel.
    pub begin: [u8; 16],
    /// The size of the content, which stands before it.
    pub size: [u8; 4],
    /// The check word of size and content, which stands after it.
    pub word: [u8; 2],
    /// The end sentinel.
    pub end: [u8; 16],
}

/// What stands around this content, so that a section can be written without a copy of it: begin sentinel, size, content, check
/// word, end sentinel are the section (Open Design Specification, "R13 to R2000 file layout"). The caller sees to it that the
/// content has fewer than 2^32 bytes.
pub fn framed_pieces(which: Framed, content: &[u8]) -> FramedPieces
    requires { length content.now < 2 ^ 32 }
    ensures { result.begin ++ (result.size ++ content.now) ++ result.word ++ result.end ≡ framed_bytes which content.now }
{
    let size = (content.len() as u32).to_le_bytes();
    let word = check(check(CHECK_SEED, &size), content);
    FramedPieces {
        begin: begin_sentinel(which),
        size,
        word: word.to_le_bytes(),
        end: end_sentinel(which),
    }
}

/// Writes a framed section: begin sentinel, size of the content, content, check word, end sentinel (Open Design
/// Specification, "R13 to R2000 file layout"). The caller sees to it that the content has fewer than 2^32 bytes, that the
/// sink holds whole bytes, and that it has the spare: 38 bytes, and those of the content.
pub fn write_framed(which: Framed, content: &[u8], sink: &mut BitSink)
    requires size { length content.now < 2 ^ 32 }
    requires aligned { length sink.old.written % 8 ≡ 0 }
    requires room { 8 * (38 + length content.now) ≤ sink.old.spare }
    ensures { Extends sink.old sink.new (bits (framed_bytes which content.now)) }
{
    let pieces = framed_pieces(which, content);
    put(&pieces.begin, sink);
    put(&pieces.size, sink);
    put(content, sink);
    put(&pieces.word, sink);
    put(&pieces.end, sink);
}
