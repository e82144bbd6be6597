//! Reading frames, pair by pair in map order.

ghost use Rattle.std.specs.Prelude.{◌≡◌, ℕ, ◌-◌, ◌<◌, ◌≤◌, ◌||◌, List, [], ◌∷◌, ◌++◌, map, false, ◌↔◌, IsTrue, IfOk, IfErr};
ghost use Rattle.dwg_base.specs.Refusal.{LAST_LINE};
ghost use Rattle.dwg_object.specs.FrameLines.{frame_refusal};
ghost use Rattle.std.specs.List.{All};
ghost use Rattle.dwg_object.specs.Objects.{IsBorrowedObject, handle_of, value_of};
ghost use Rattle.dwg_objmap.specs.Pages.{handles_of};
ghost use Rattle.dwg_file.specs.FileLines.{FoundFrame, tried_pair, frames_after};
ghost use Rattle.dwg_file.specs.FrameReading.{AreRanges, AnswersPair, HasRead, GoesOn, AnswersFrames, values_of};
ghost use Rattle.dwg_file.specs.ByteRanges.{meets, shares};

use crate::byte_ranges::ByteRanges;
use dwg_base::refusal_lines::{FRAME_HANDLE, FRAME_OVERLAP};
use dwg_base::{Fault, Handle, Items, NoMemory, Refusal, Version, vec_with_capacity};
use dwg_classes::Hints;
use dwg_object::{Found, Object, read_span, span_at};
use dwg_objmap::Pair;
use std::alloc::Global;

/// The refusal of a pair's frame by a line, at the pair's place.
fn refused(line: u8, index: u64, place: u64) -> Fault
    requires least { 1 ≤ line }
    requires most { line ≤ LAST_LINE }
    ensures { result ≡ Fault.Refused (frame_refusal line index place) }
{
    Fault::Refused(Refusal::new(line, index, place))
}

/// Whether the own handle of a frame's object is this one.
fn has_handle(found: &Found<'_>, handle: Handle) -> bool
    ensures { IsTrue result ↔ (handle_of (value_of found.now.object) ≡ handle) }
{
    found.object.handle().value() == handle.value()
}

/// Reads the frame of a pair: it has a span, which shares no byte with those of earlier pairs, a check word and a head, and
/// its own handle is the pair's.
fn frame_of_pair<'a>(
    alloc: Global,
    taken: &ByteRanges,
    bytes: &'a [u8],
    pair: &Pair,
    index: u64,
    hints: &Hints<'_>,
) -> Result<Found<'a>, Fault>
    ensures tried { (earlier : List FoundFrame) → AreRanges earlier taken.now → AnswersPair hints.now bytes.now pair.now (tried_pair bytes.now earlier index pair.now) result }
    ensures lent { IfOk result (λ found. IsBorrowedObject found.object) }
    ensures some { IfOk result (λ found. pair.now.place < found.end) }
    ensures apart { IfOk result (λ found. shares taken.now pair.now.place found.end ≡ false) }
{
    let place = pair.place;
    let span = span_at(bytes, place, index)?;
    if taken.shares(span.from, span.end) {
        return Err(refused(FRAME_OVERLAP, index, place));
    }
    let found = read_span(alloc, bytes, &span, index, hints, Version::of_input(bytes))?;
    if !has_handle(&found, pair.handle) {
        return Err(refused(FRAME_HANDLE, index, place));
    }
    Ok(found)
}

/// The frame of an object of a file: a length, a body and a check word (Open Design Specification, "R13 to R2000 file layout,
/// object data").
#[derive(Clone, Copy, Debug, PartialEq, Eq)]
pub struct ObjectFrame {
    /// The object's handle.
    pub handle: Handle,
    /// The frame's place, in bytes.
    pub from: u64,
    /// The place after the frame's check word.
    pub end: u64,
}

/// No frame that has an object is shorter: its length and its check word take two bytes each, and the 18 bits of the shortest head,
/// which AC1014 has, three.
const LEAST_FRAME: usize = 7;

/// A list with room for the objects of so many pairs, and for no more than an input of so many bytes can hold. Err: out of memory.
fn room_for_objects<'a>(
    alloc: Global,
    pairs: usize,
    bytes: usize,
) -> Result<Vec<Object<'a>>, NoMemory>
    ensures { IfOk result (λ objects. objects.items ≡ []) }
{
    vec_with_capacity(alloc, pairs.min(bytes / LEAST_FRAME))
}

/// The frames that were read so far, their objects, and the bytes that they took.
#[derive(Drop)]
pub(crate) struct Frames<'a> {
    taken: ByteRanges,
    pub(crate) frames: Items<ObjectFrame>,
    pub(crate) objects: Vec<Object<'a>>,
}

/// The frames and that of a pair, which was found and shares no byte with them. Err: out of memory.
fn with_frame<'a>(read: Frames<'a>, pair: &Pair, found: Found<'a>) -> Result<Frames<'a>, NoMemory>
    requires some { pair.now.place < found.end }
    requires apart { shares read.taken pair.now.place found.end ≡ false }
    ensures taken { IfOk result (λ more. (other to : ℕ) → shares more.taken other to ≡ (shares read.entry.taken other to || meets other to (found.entry.end - 1, pair.now.place))) }
    ensures frames { IfOk result (λ more. more.frames ≡ read.entry.frames ++ record { handle = pair.now.handle; from = pair.now.place; end = found.entry.end } ∷ []) }
    ensures objects { IfOk result (λ more. more.objects.items ≡ read.entry.objects.items ++ found.entry.object ∷ []) }
{
    let Frames {
        taken,
        mut frames,
        mut objects,
    } = read;
    let (from, end) = (pair.place, found.end);
    objects.push(found.object)?;
    let taken = taken.with_run(from, end)?;
    let frame = ObjectFrame {
        handle: pair.handle,
        from,
        end,
    };
    frames.try_push(frame)?;
    Ok(Frames {
        taken,
        frames,
        objects,
    })
}

/// The frames and the one of the next pair.
#[tactic(auto, using(crate::proofs::Borrowing::object_lent))]
fn next_frame<'a>(
    alloc: Global,
    read: Frames<'a>,
    bytes: &'a [u8],
    pair: &Pair,
    index: u64,
    hints: &Hints<'_>,
) -> Result<Frames<'a>, Fault>
    ensures lent { All IsBorrowedObject read.entry.objects.items → IfOk result (λ more. All IsBorrowedObject more.objects.items) }
    ensures goes_on { (earlier : List FoundFrame) (handles : List ℕ) → HasRead hints.now bytes.now earlier handles read.entry → GoesOn hints.now bytes.now earlier handles pair.now (tried_pair bytes.now earlier index pair.now) result }
{
    let found = frame_of_pair(alloc, &read.taken, bytes, pair, index, hints)?;
    let more = with_frame(read, pair, found)?;
    Ok(more)
}

/// Reads the frames of pairs, in their order, and their objects.
#[tactic(auto, using(crate::proofs::Borrowing::no_objects_lent))]
pub(crate) fn read_frames<'a>(
    alloc: Global,
    bytes: &'a [u8],
    pairs: &[Pair],
    hints: &Hints<'_>,
) -> Result<Frames<'a>, Fault>
    ensures tried { AnswersFrames hints.now bytes.now (frames_after bytes.now 0 [] pairs.now) result }
    ensures own { IfOk result (λ read. map handle_of (values_of read.objects.items) ≡ handles_of pairs.now) }
    ensures lent { IfOk result (λ read. All IsBorrowedObject read.objects.items) }
{
    let objects = room_for_objects(alloc, pairs.len(), bytes.len())?;
    let mut read = Frames {
        taken: ByteRanges::new(alloc),
        frames: Items::new(alloc),
        objects,
    };
    'pairs: for index in 0..pairs.len() {
        let pair = &pairs[index];
        read = next_frame(alloc, read, bytes, pair, index as u64, hints)?;
    }
    Ok(read)
}
