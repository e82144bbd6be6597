//! Frames as recovery finds them in the input.

ghost use Rattle.std.specs.Prelude.{◌≡◌, ◌+◌, ◌≤◌, length};
ghost use Rattle.dwg_object.specs.FrameLines.{has_check_word};
ghost use Rattle.dwg_object.specs.Frames.{SpanAt};
ghost use Rattle.dwg_recover.specs.Frames.{own_of_span};

use dwg_base::{Handle, Version};
use dwg_check::{CHECK_SEED, SpanChecks};
use dwg_object::{Span, own_handle, span_body, span_word};
use dwg_steps::Steps;
use std::sync::ledger::Ledger;

/// A frame that is found.
#[derive(Debug, Drop)]
pub(crate) struct Frame {
    /// The number of the pair of the map that it is kept for, in map order; none where it is kept without one.
    pub(crate) pair: Option<u64>,
    /// Its own handle.
    pub(crate) handle: Handle,
    /// Its place, in bytes.
    pub(crate) from: u64,
    /// The place after its check word.
    pub(crate) end: u64,
}

/// Whether the check word of a span that lies in the input is that of its length and its body, as `checks` reports it.
fn is_checked_span<L: Ledger>(
    bytes: &[u8],
    checks: &SpanChecks<'_>,
    span: &Span,
    steps: &mut Steps<L>,
) -> bool
    requires same { checks.now ≡ bytes.now }
    requires ordered { span.now.from ≤ span.now.body_end }
    requires ends { span.now.end ≡ span.now.body_end + 2 }
    requires within { span.now.end ≤ length bytes.now }
    ensures test { result ≡ has_check_word bytes.now span.now }
    ensures steps { steps.new ≤ steps.old + 15 }
{
    let word = checks.of(
        CHECK_SEED,
        span.from as usize,
        span.body_end as usize,
        steps,
    );
    span_word(bytes, span) == word
}

/// The own handle of the frame of a span that stands in the input. None exactly where its check word is wrong or its body has no
/// head.
#[tactic(auto, unfolding(crate::specs::Frames::own_of_span))]
pub(crate) fn own_of_span<L: Ledger>(
    bytes: &[u8],
    checks: &SpanChecks<'_>,
    span: &Span,
    steps: &mut Steps<L>,
) -> Option<Handle>
    requires same { checks.now ≡ bytes.now }
    requires stands { SpanAt bytes.now span.now }
    ensures own { result ≡ own_of_span bytes.now span.now }
    ensures steps { steps.new ≤ steps.old + 15 }
{
    if !is_checked_span(bytes, checks, span, steps) {
        return None;
    }
    own_handle(Version::of_input(bytes), span_body(bytes, span))
}
