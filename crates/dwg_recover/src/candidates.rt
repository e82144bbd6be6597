//! The frames that the pairs of the map name, and which of them are kept.

ghost use Rattle.std.specs.Prelude.{◌≡◌, ◌+◌, ◌*◌, ◌≤◌, ◌<◌, ℕ, [], ◌++◌, length, IfOk};
ghost use Rattle.std.specs.List.{AllByRecursion, cons_option};
ghost use Rattle.dwg_recover.specs.declared.frame.Frame.{Frame};
ghost use Rattle.dwg_recover.specs.Frames.{candidate, candidates, in_order_of_place, keep_mapped, mapped_frames, mapped_of};
ghost use Rattle.dwg_recover.specs.Placing.{IsPlaced};

use crate::frame::{Frame, own_of_span};
use crate::kept::KeptFrames;
use dwg_base::NoMemory;
use dwg_check::SpanChecks;
use dwg_object::span_at;
use dwg_objmap::Pair;
use dwg_steps::Steps;
use std::alloc::Global;
use std::sync::ledger::Ledger;

/// The frame of a pair: one stands at the pair's place with its check word and a head, and its own handle is the pair's. None
/// exactly where none does.
fn candidate<L: Ledger>(
    bytes: &[u8],
    checks: &SpanChecks<'_>,
    number: u64,
    pair: &Pair,
    steps: &mut Steps<L>,
) -> Option<Frame>
    requires same { checks.now ≡ bytes.now }
    ensures frame { result ≡ candidate bytes.now number pair.now }
    ensures steps { steps.new ≤ steps.old + 15 }
{
    let Ok(span) = span_at(bytes, pair.place, 0) else {
        return None;
    };
    let Some(own) = own_of_span(bytes, checks, &span, steps) else {
        return None;
    };
    if pair.handle.value() == 0 {
        return None;
    }
    if own.value() != pair.handle.value() {
        return None;
    }
    Some(Frame {
        pair: Some(number),
        handle: pair.handle,
        from: pair.place,
        end: span.end,
    })
}

/// Frames and one more, where there is one. Err: out of memory.
fn with_candidate(mut frames: Vec<Frame>, frame: Option<Frame>) -> Result<Vec<Frame>, NoMemory>
    ensures { IfOk result (λ more. more.items ≡ frames.items ++ cons_option frame []) }
{
    let Some(frame) = frame else {
        return Ok(frames);
    };
    frames.push(frame)?;
    Ok(frames)
}

/// The frames of pairs, in map order. Err: out of memory.
fn candidates<L: Ledger>(
    alloc: Global,
    bytes: &[u8],
    checks: &SpanChecks<'_>,
    pairs: &[Pair],
    steps: &mut Steps<L>,
) -> Result<Vec<Frame>, NoMemory>
    requires same { checks.now ≡ bytes.now }
    ensures frames { IfOk result (λ frames. frames.items ≡ candidates bytes.now 0 pairs.now) }
    ensures steps { steps.new ≤ steps.old + 15 * length pairs.now }
{
    let mut frames = Vec::new(alloc);
    'pairs: for index in 0..pairs.len() {
        frames = with_candidate(
            frames,
            candidate(bytes, checks, index as u64, &pairs[index], steps),
        )?;
    }
    Ok(frames)
}

/// Frames in order of place, and at one place as they came. Err: out of memory.
pub(crate) fn in_order_of_place(alloc: Global, frames: Vec<Frame>) -> Result<Vec<Frame>, NoMemory>
    ensures { IfOk result (λ ordered. (most : ℕ) → AllByRecursion (IsPlaced most) frames.items → ordered.items ≡ in_order_of_place most frames.items) }
{
    let mut frames = frames;
    frames.sort_by_key(|frame| frame.from)?;
    Ok(frames)
}

/// The frames kept, and the next in order of place where it is kept. Err: out of memory.
#[tactic(auto, using(crate::proofs::CandidatesAlong::follows_free))]
fn keep_mapped(kept: KeptFrames, frame: Frame) -> Result<KeptFrames, NoMemory>
    requires { frame.from < frame.end }
    ensures { IfOk result (λ more. more ≡ keep_mapped kept frame) }
{
    if !kept.follows(frame.from) {
        return Ok(kept);
    }
    if !kept.is_new(frame.handle) {
        return Ok(kept);
    }
    kept.keep(frame)
}

/// The frames that are kept of those that pairs name, in order of place. Err: out of memory.
fn keep_all(alloc: Global, ordered: Vec<Frame>) -> Result<KeptFrames, NoMemory>
    requires { AllByRecursion (λ (frame : Frame). frame.from < frame.end) ordered.items }
    ensures { IfOk result (λ kept. kept ≡ mapped_of ordered.items) }
{
    let mut kept = KeptFrames::new(alloc);
    'frames: for frame in ordered {
        kept = keep_mapped(kept, frame)?;
    }
    Ok(kept)
}

/// The frames that are kept for the pairs of the map. Err: out of memory.
pub(crate) fn mapped_frames<L: Ledger>(
    alloc: Global,
    bytes: &[u8],
    checks: &SpanChecks<'_>,
    pairs: &[Pair],
    steps: &mut Steps<L>,
) -> Result<KeptFrames, NoMemory>
    requires same { checks.now ≡ bytes.now }
    ensures kept { IfOk result (λ kept. kept ≡ mapped_frames bytes.now pairs.now) }
    ensures steps { steps.new ≤ steps.old + 15 * length pairs.now }
{
    let ordered = in_order_of_place(alloc, candidates(alloc, bytes, checks, pairs, steps)?)?;
    keep_all(alloc, ordered)
}
