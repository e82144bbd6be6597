//! Frames of objects: a length, a body, a check word.

ghost use Rattle.std.specs.Prelude.{◌≡◌, ◌+◌, ◌≤◌, ℕ, List, length, IfOk, IfErr};
ghost use Rattle.std.specs.Int.{w16, from_le_bytes};
ghost use Rattle.dwg_object.specs.Forms.{FormOf};
ghost use Rattle.dwg_object.specs.FoundFrames.{AnswersFrame};
ghost use Rattle.dwg_object.specs.FrameLines.{bytes_from, has_check_word, span_body, tried_frame};
ghost use Rattle.dwg_object.specs.Frames.{FrameAt, SpanAt};
ghost use Rattle.dwg_object.specs.Objects.{IsBorrowedObject, value_of};

use crate::head::head_of;
use crate::object::Object;
use crate::reading::read_after_head;
use crate::span::{Span, span_at};
use dwg_base::refusal_lines::{FRAME_CHECK, FRAME_HEAD};
use dwg_base::{Fault, NoMemory, Refusal, Version};
use dwg_check::{CHECK_SEED, check};
use dwg_classes::{Class, Hints};
use std::alloc::Global;

/// An object that was read, and where its frame ends.
#[derive(Drop)]
pub struct Found<'a> {
    /// The object.
    pub object: Object<'a>,
    /// The place after its frame's check word.
    pub end: u64,
}

/// The bytes from one place to another.
fn piece(bytes: &[u8], from: u64, to: u64) -> &[u8]
    requires ordered { from ≤ to }
    requires within { to ≤ length bytes.now }
    ensures { result.now ≡ bytes_from bytes.now from to }
{
    &bytes[from as usize..to as usize]
}

/// The body of a span that lies in the input.
pub fn span_body<'a>(bytes: &'a [u8], span: &Span) -> &'a [u8]
    requires ordered { span.now.body ≤ span.now.body_end }
    requires within { span.now.body_end ≤ length bytes.now }
    ensures { result.now ≡ span_body bytes.now span.now }
{
    piece(bytes, span.body, span.body_end)
}

/// The check word after the body of a span that lies in the input: an RS, two bytes, the low one first.
pub fn span_word(bytes: &[u8], span: &Span) -> u16
    requires ends { span.now.end ≡ span.now.body_end + 2 }
    requires within { span.now.end ≤ length bytes.now }
    ensures { result ≡ from_le_bytes w16 (bytes_from bytes.now span.now.body_end span.now.end) }
{
    let word = piece(bytes, span.body_end, span.end);
    u16::from_le_bytes([word[0], word[1]])
}

/// Whether the check word of a span is that of its length and its body.
fn has_frame_word(bytes: &[u8], span: &Span) -> bool
    requires body { span.now.from ≤ span.now.body }
    requires body_end { span.now.body ≤ span.now.body_end }
    requires ends { span.now.end ≡ span.now.body_end + 2 }
    requires within { span.now.end ≤ length bytes.now }
    ensures { result ≡ has_check_word bytes.now span.now }
{
    let word = check(CHECK_SEED, piece(bytes, span.from, span.body_end));
    span_word(bytes, span) == word
}

/// Reads the frame of a span that stands in the input, of the pair of this index, by the rules of a version, whatever the input begins
/// with. It is refused where the check word is wrong, and where the body has no head, in this order.
pub fn read_span<'a>(
    alloc: Global,
    bytes: &'a [u8],
    span: &Span,
    index: u64,
    hints: &Hints<'_>,
    version: Version,
) -> Result<Found<'a>, Fault>
    requires { SpanAt bytes.now span.now }
    // The object of the frame that stands there; the free bits of a Plain one and the bytes of a Raw one are lent.
    ensures lent { IfOk result (λ found. IsBorrowedObject found.object) }
    ensures found { IfOk result (λ found. (body : List ℕ) × FrameAt bytes.now span.now.from body found.end × FormOf version hints.now body (value_of found.object)) }

    // What is found and what is refused is what is tried; there is out of memory beside.
    ensures tried { AnswersFrame result (tried_frame version span.now.from index bytes.now) }
{
    if !has_frame_word(bytes, span) {
        return Err(Fault::Refused(Refusal::new(FRAME_CHECK, index, span.from)));
    }
    let body = piece(bytes, span.body, span.body_end);
    let Some(head) = head_of(version, body) else {
        return Err(Fault::Refused(Refusal::new(FRAME_HEAD, index, span.from)));
    };
    let object = read_after_head(alloc, body, &head, hints, version)?;
    Ok(Found {
        object,
        end: span.end,
    })
}

/// Reads the frame at a place of the input, of the pair of this index, by the rules of a version, whatever the input begins with. It is refused where the place is after the input,
/// where no length is spelled there or the frame passes the end of the input, where the check word is wrong, and where the
/// body has no head, in this order.
///
/// It makes a table of the classes; who reads more than one frame makes it once and calls [`span_at`] and [`read_span`].
pub fn read_frame<'a>(
    alloc: Global,
    bytes: &'a [u8],
    place: u64,
    index: u64,
    classes: &[Class],
    version: Version,
) -> Result<Found<'a>, Fault>
    // The object of the frame that stands there; the free bits of a Plain one and the bytes of a Raw one are lent.
    ensures lent { IfOk result (λ found. IsBorrowedObject found.object) }
    ensures found { IfOk result (λ found. (body : List ℕ) × FrameAt bytes.now place body found.end × FormOf version classes.now body (value_of found.object)) }

    // What is found and what is refused is what is tried; there is out of memory beside.
    ensures tried { AnswersFrame result (tried_frame version place index bytes.now) }
{
    let span = span_at(bytes, place, index)?;
    let hints = Hints::build(alloc, classes)?;
    read_span(alloc, bytes, &span, index, &hints, version)
}
