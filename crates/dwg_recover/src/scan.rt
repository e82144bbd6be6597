//! Frames that stand where no kept pair of the map leads.

ghost use Rattle.std.specs.Prelude.{◌≡◌, ◌+◌, ◌-◌, ◌*◌, ◌≤◌, length, option_map, IfOk};
ghost use Rattle.std.specs.Bool.{then_some};
ghost use Rattle.std.specs.List.{AllByRecursion};
ghost use Rattle.std.specs.Option.{IsSome};
ghost use Rattle.dwg_object.specs.Frames.{SpanAt};
ghost use Rattle.dwg_object.specs.Objects.{value_of};
ghost use Rattle.dwg_recover.specs.Frames.{has_common_part, own_of_span, with_scanned};
ghost use Rattle.dwg_recover.specs.KeptObjects.{HoldsObjects, ReportsNext, ReportsPlace, common_at};
ghost use Rattle.dwg_recover.specs.Placing.{IsFound};

use crate::frame::{Frame, own_of_span};
use crate::kept::KeptFrames;
use crate::objects::{FrameObject, KeptObjects, with_frame, with_objects};
use dwg_base::{NoMemory, Version};
use dwg_check::SpanChecks;
use dwg_classes::{Class, Hints};
use dwg_object::{Object, Span, read_body_hinted, span_at, span_body};
use dwg_steps::Steps;
use std::alloc::Global;
use std::sync::ledger::Ledger;

/// Whether an object is read with its common part.
fn is_read_with_common_part(object: &Object<'_>) -> bool
    ensures { result ≡ has_common_part (value_of object.now) }
{
    match object {
        Object::Typed(_) => true,
        Object::Plain(_) => true,
        Object::Raw(_) => false,
    }
}

/// An object, where it is read with its common part.
fn of_common_part<'a>(object: Object<'a>) -> Option<Object<'a>>
    ensures { result ≡ then_some (has_common_part (value_of object.entry)) object.entry }
{
    is_read_with_common_part(&object).then_some(object)
}

/// What the body of a span that stands in the input is read as, where it is read with its common part. Err: out of memory.
fn read_with_common_part<'a>(
    alloc: Global,
    bytes: &'a [u8],
    span: &Span,
    hints: &Hints<'_>,
) -> Result<Option<Object<'a>>, NoMemory>
    requires stands { SpanAt bytes.now span.now }
    requires head { IsSome (own_of_span bytes.now span.now) }
    ensures { IfOk result (λ read. option_map value_of read ≡ common_at hints.now bytes.now span.now) }
{
    match read_body_hinted(
        alloc,
        span_body(bytes, span),
        hints,
        Version::of_input(bytes),
    )? {
        Some(object) => Ok(of_common_part(object)),
        None => Ok(None),
    }
}

/// The frame at a place with its object, where it is kept beside others: its check word is right, it shares no byte with any of
/// them, its handle is new, and its body is read with its common part. Err: out of memory.
fn scan_place<'a, L: Ledger>(
    alloc: Global,
    bytes: &'a [u8],
    checks: &SpanChecks<'_>,
    hints: &Hints<'_>,
    kept: &KeptFrames,
    place: u64,
    steps: &mut Steps<L>,
) -> Result<Option<FrameObject<'a>>, NoMemory>
    requires same { checks.now ≡ bytes.now }
    ensures found { IfOk result (ReportsPlace hints.now bytes.now kept.now place) }
    ensures steps { steps.new ≤ steps.old + 15 }
{
    let Ok(span) = span_at(bytes, place, 0) else {
        return Ok(None);
    };
    if !kept.is_free(place, span.end) {
        return Ok(None);
    }
    let Some(own) = own_of_span(bytes, checks, &span, steps) else {
        return Ok(None);
    };
    if !kept.is_new(own) {
        return Ok(None);
    }
    match read_with_common_part(alloc, bytes, &span, hints)? {
        Some(object) => Ok(Some(FrameObject {
            frame: Frame {
                pair: None,
                handle: own,
                from: place,
                end: span.end,
            },
            object,
        })),
        None => Ok(None),
    }
}

/// The next frame that is kept beside others, at a place or after it, with its object; none where none is. Err: out of memory.
fn next_scanned<'a, L: Ledger>(
    alloc: Global,
    bytes: &'a [u8],
    checks: &SpanChecks<'_>,
    hints: &Hints<'_>,
    kept: &KeptFrames,
    from: u64,
    steps: &mut Steps<L>,
) -> Result<Option<FrameObject<'a>>, NoMemory>
    requires same { checks.now ≡ bytes.now }
    ensures next { IfOk result (ReportsNext hints.now bytes.now kept.now from steps.old steps.new) }
    ensures steps { steps.new ≤ steps.old + 15 * (length bytes.now - from) }
{
    let length = bytes.len() as u64;
    let mut place = from;
    'places: while place < length {
        // What begins inside a kept frame shares a byte with it.
        let after = kept.after(place);
        if place < after {
            place = after;
            continue;
        }
        match scan_place(alloc, bytes, checks, hints, kept, place, steps)? {
            Some(found) => return Ok(Some(found)),
            None => place += 1,
        }
    }
    Ok(None)
}

/// The frames kept with their objects, and those that are kept at any place of the input, in ascending order of place. Err: out of
/// memory.
fn with_scanned<'a, L: Ledger>(
    alloc: Global,
    bytes: &'a [u8],
    checks: &SpanChecks<'_>,
    hints: &Hints<'_>,
    kept: KeptObjects<'a>,
    steps: &mut Steps<L>,
) -> Result<KeptObjects<'a>, NoMemory>
    requires same { checks.now ≡ bytes.now }
    requires objects { HoldsObjects hints.now bytes.now kept }
    ensures frames { IfOk result (λ more. more.frames ≡ with_scanned hints.now bytes.now kept.entry.frames) }
    ensures objects { IfOk result (HoldsObjects hints.now bytes.now) }
    ensures steps { steps.new ≤ steps.old + 15 * length bytes.now }
{
    let mut kept = kept;
    let mut place = 0;
    'frames: loop {
        match next_scanned(alloc, bytes, checks, hints, &kept.frames, place, steps)? {
            Some(found) => {
                place = found.frame.from + 1;
                kept = with_frame(kept, found)?;
            }
            None => return Ok(kept),
        }
    }
}

/// The frames that are kept for pairs of the map, and those that are kept at any place of the input, all with their objects. Err:
/// out of memory.
pub(crate) fn scan<'a, L: Ledger>(
    alloc: Global,
    bytes: &'a [u8],
    checks: &SpanChecks<'_>,
    classes: &[Class],
    mapped: KeptFrames,
    steps: &mut Steps<L>,
) -> Result<KeptObjects<'a>, NoMemory>
    requires same { checks.now ≡ bytes.now }
    requires found { AllByRecursion (IsFound bytes.now) mapped }
    ensures frames { IfOk result (λ kept. kept.frames ≡ with_scanned classes.now bytes.now mapped) }
    ensures objects { IfOk result (HoldsObjects classes.now bytes.now) }
    ensures steps { steps.new ≤ steps.old + 15 * length bytes.now }
{
    let hints = Hints::build(alloc, classes)?;
    let kept = with_objects(alloc, bytes, &hints, mapped)?;
    with_scanned(alloc, bytes, checks, &hints, kept, steps)
}
