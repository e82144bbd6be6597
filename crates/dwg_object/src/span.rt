//! Where the parts of a frame lie.

ghost use Rattle.std.specs.Prelude.{◌≡◌, ◌+◌, ◌≤◌, length, IfOk, IfErr};
ghost use Rattle.dwg_object.specs.Frames.{SpanAt};
ghost use Rattle.dwg_object.specs.FrameLines.{tried_span};

use dwg_base::refusal_lines::{FRAME_LENGTH, FRAME_PLACE};
use dwg_base::{Refusal, bytes_after};
use dwg_codes::read_ms;

/// The bytes of the check word, which stands after the body.
pub(crate) const CHECK_SIZE: u64 = 2;

/// The places of a frame in the input, in bytes (Open Design Specification, "R13 to R2000 file layout, object data").
#[derive(Clone, Copy, Debug, PartialEq, Eq)]
pub struct Span {
    /// The place of the frame.
    pub from: u64,
    /// The place of the body's first byte.
    pub body: u64,
    /// The place after the body.
    pub body_end: u64,
    /// The place after the check word.
    pub end: u64,
}

/// The span of the frame at a place of the input, of the pair of this index. It is refused where the place is after the
/// input, and where no length is spelled there or the frame passes the end of the input.
#[tactic(auto, using(crate::proofs::SpanReading::span_after))]
pub fn span_at(bytes: &[u8], place: u64, index: u64) -> Result<Span, Refusal>
    // What stands there, and why nothing does.
    ensures found { IfOk result (SpanAt bytes.now) }
    ensures place { IfOk result (λ span. span.from ≡ place) }
    ensures ordered { IfOk result (λ span. (span.from ≤ span.body) × (span.body ≤ span.body_end) × (span.end ≡ span.body_end + 2)) }
    ensures within { IfOk result (λ span. span.end ≤ length bytes.now) }
    ensures tried { result ≡ tried_span place index bytes.now }
{
    let length = bytes.len() as u64;
    if length <= place {
        return Err(Refusal::new(FRAME_PLACE, index, place));
    }
    let Some((long, wide)) = read_ms(bytes_after(bytes, place as usize)) else {
        return Err(Refusal::new(FRAME_LENGTH, index, place));
    };
    let body = place + wide as u64;
    let body_end = body + long;
    let end = body_end + CHECK_SIZE;
    if length < end {
        return Err(Refusal::new(FRAME_LENGTH, index, place));
    }
    Ok(Span {
        from: place,
        body,
        body_end,
        end,
    })
}
