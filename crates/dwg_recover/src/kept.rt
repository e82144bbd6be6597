//! The frames that recovery keeps, with what reports at once whether a further one can be kept.

ghost use Rattle.std.specs.Prelude.{◌≡◌, ◌+◌, ◌<◌, ◌≤◌, ℕ, [], ◌∷◌, ◌++◌, ◌&&◌, ◌||◌, true, false, nat_eq, nat_le, IfOk};
ghost use Rattle.std.specs.Ordering.{nat_cmp};
ghost use Rattle.std.specs.BTreeSet as set;
ghost use Rattle.dwg_recover.specs.Frames.{is_number};

use crate::frame::Frame;
use dwg_base::{Handle, NoMemory};
use dwg_file::ByteRanges;
use std::alloc::Global;
use std::collections::BTreeSet;
use std::marker::Model;

/// Frames of which no two share a byte, in the order in which they were kept.
#[derive(Drop)]
pub(crate) struct KeptFrames {
    frames: Vec<Frame>,
    // The bytes of the frames.
    taken: ByteRanges,
    // Their handles.
    handles: BTreeSet<u64>,
    // The numbers of the pairs that they were kept for.
    pairs: BTreeSet<u64>,
    // The greatest of their ends.
    end: u64,
}

impl Model for KeptFrames {
    ghost use Rattle.std.specs.Prelude.{List};
    ghost use Rattle.dwg_recover.specs.declared.frame.Frame.{Frame};
    ghost use Rattle.dwg_recover.specs.Keeping.{AreNoted};

    ghost Value = { List Frame };

    ghost view = { λ kept. kept.frames.items };

    ghost invariant = { λ kept. AreNoted kept.frames.items kept.taken kept.handles kept.pairs kept.end };
}

/// A set and one number more. Err: out of memory.
fn with_number(numbers: BTreeSet<u64>, number: u64) -> Result<BTreeSet<u64>, NoMemory>
    ensures { IfOk result (λ more. (other : ℕ) → set.contains nat_cmp more other ≡ (nat_eq number other || set.contains nat_cmp numbers other)) }
{
    let mut numbers = numbers;
    numbers.insert(number)?;
    Ok(numbers)
}

/// A set and the number of a pair, where there is one. Err: out of memory.
fn with_pair(numbers: BTreeSet<u64>, pair: Option<u64>) -> Result<BTreeSet<u64>, NoMemory>
    ensures { IfOk result (λ more. (other : ℕ) → set.contains nat_cmp more other ≡ (is_number other pair || set.contains nat_cmp numbers other)) }
{
    match pair {
        Some(number) => with_number(numbers, number),
        None => Ok(numbers),
    }
}

/// The later of two ends.
fn later(one: u64, other: u64) -> u64
    ensures { (place : ℕ) → nat_le result place ≡ (nat_le one place && nat_le other place) }
{
    if one < other { other } else { one }
}

impl KeptFrames {
    ghost use Rattle.dwg_recover.specs.Frames.{follows, is_free, is_kept_pair, is_new};

    /// No frames, which takes no memory yet.
    pub(crate) fn new(alloc: Global) -> KeptFrames
        ensures { result ≡ [] }
    {
        KeptFrames {
            frames: Vec::new(alloc),
            taken: ByteRanges::new(alloc),
            handles: BTreeSet::new(alloc),
            pairs: BTreeSet::new(alloc),
            end: 0,
        }
    }

    /// Whether a place is at or after the end of every frame.
    pub(crate) fn follows(&self, from: u64) -> bool
        ensures { result ≡ follows self.now from }
    {
        self.end <= from
    }

    /// Whether no frame shares a byte with those from a place to another.
    pub(crate) fn is_free(&self, from: u64, end: u64) -> bool
        ensures { result ≡ is_free self.now from end }
    {
        !self.taken.shares(from, end)
    }

    /// The place after the frame that a byte lies in; the place of the byte itself where it lies in none.
    pub(crate) fn after(&self, place: u64) -> u64
        ensures after { place ≤ result }
        ensures taken { (other : ℕ) → place ≤ other → other < result → is_free self.now other (other + 1) ≡ false }
        ensures free { result ≡ place → is_free self.now place (place + 1) ≡ true }
    {
        self.taken.after(place)
    }

    /// Whether no frame has the handle.
    pub(crate) fn is_new(&self, handle: Handle) -> bool
        ensures { result ≡ is_new self.now handle }
    {
        !self.handles.contains(&handle.value())
    }

    /// Whether one of the frames was kept for the pair of a number.
    pub(crate) fn is_kept_pair(&self, number: u64) -> bool
        ensures { result ≡ is_kept_pair self.now number }
    {
        self.pairs.contains(&number)
    }

    /// The frames and one more, which shares no byte with them. Err: out of memory.
    pub(crate) fn keep(self, frame: Frame) -> Result<KeptFrames, NoMemory>
        requires some { frame.from < frame.end }
        requires free { is_free self frame.from frame.end ≡ true }
        ensures { IfOk result (λ more. more ≡ self ++ frame ∷ []) }
    {
        let KeptFrames {
            mut frames,
            taken,
            handles,
            pairs,
            end,
        } = self;
        let taken = taken.with_run(frame.from, frame.end)?;
        let handles = with_number(handles, frame.handle.value())?;
        let pairs = with_pair(pairs, frame.pair)?;
        let end = later(end, frame.end);
        frames.push(frame)?;
        Ok(KeptFrames {
            frames,
            taken,
            handles,
            pairs,
            end,
        })
    }

    /// The frames as a slice.
    pub(crate) fn as_slice(&self) -> &[Frame]
        ensures { result.now ≡ self.now }
    {
        self.frames.as_slice()
    }

    /// The frames, without taking memory.
    pub(crate) fn into_frames(self) -> Vec<Frame>
        ensures { result.items ≡ self }
    {
        self.frames
    }
}
