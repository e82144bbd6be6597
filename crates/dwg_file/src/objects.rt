//! The objects of frames, in ascending order of their handles.

ghost use Rattle.std.specs.Prelude.{◌≡◌, [], map, IfOk, IfErr, IsTrue, ◌↔◌};
ghost use Rattle.std.specs.List.Sorted.{IsPermutation, IsNonDecreasingBy};
ghost use Rattle.std.specs.List.{All};
ghost use Rattle.dwg_object.specs.Objects.{IsBorrowedObject, handle_of, value_of};
ghost use Rattle.dwg_objmap.specs.Pages.{AreHandles, handles_of};
ghost use Rattle.dwg_file.specs.FileLines.{frames_after};
ghost use Rattle.dwg_file.specs.FrameReading.{AnswersObjects, values_of};
ghost use Rattle.dwg_file.specs.SortedObjects.{sorted};
ghost use Rattle.dwg_file.specs.Spelled.{AreAscending};

use crate::frames::{ObjectFrame, read_frames};
use dwg_base::{Fault, Items, NoMemory};
use dwg_classes::{Class, Hints};
use dwg_object::Object;
use dwg_objmap::Pair;
use std::alloc::Global;

/// Whether the objects stand in ascending order of their handles.
#[tactic(auto, using(crate::proofs::Ascending::none_ascend, crate::proofs::Ascending::more_ascend))]
fn are_sorted(objects: &[Object<'_>]) -> bool
    ensures { IsTrue result ↔ IsNonDecreasingBy (λ object. handle_of (value_of object)) objects.now }
{
    let mut last = 0;
    'objects: for object in objects {
        let handle = object.handle().value();
        if handle < last {
            return false;
        }
        last = handle;
    }
    true
}

/// The objects in ascending order of their handles, in n log n steps. Those that stand so stay where they are; else places are
/// sorted, and each object is moved to its own. Err: out of memory.
fn sorted_with_memory<'a>(objects: Vec<Object<'a>>) -> Result<Vec<Object<'a>>, NoMemory>
    ensures same { IfOk result (λ sorted. IsPermutation objects.entry.items sorted.items) }
    ensures ascend { IfOk result (λ sorted. IsNonDecreasingBy (λ object. handle_of (value_of object)) sorted.items) }
{
    if are_sorted(objects.as_slice()) {
        return Ok(objects);
    }
    let mut objects = objects;
    objects.sort_by_cached_key(|object| object.handle().value())?;
    Ok(objects)
}

/// The objects in ascending order of their handles, in n log n steps, without taking memory. Those that stand so stay where they
/// are; else they are moved while they are sorted, each several times.
fn sorted_in_place<'a>(objects: Vec<Object<'a>>) -> Vec<Object<'a>>
    ensures same { IsPermutation objects.entry.items result.items }
    ensures ascend { IsNonDecreasingBy (λ object. handle_of (value_of object)) result.items }
{
    if are_sorted(objects.as_slice()) {
        return objects;
    }
    let mut objects = objects;
    objects.sort_unstable_by_key(|object| object.handle().value());
    objects
}

/// The objects in ascending order of their handles, which are distinct, in n log n steps, without taking memory.
pub fn in_handle_order<'a>(objects: Vec<Object<'a>>) -> Items<Object<'a>>
    requires { AreHandles (map handle_of (values_of objects.items)) }
    ensures same { IsPermutation (values_of objects.entry.items) (values_of result) }
    ensures ascend { AreAscending (values_of result) }
    ensures sorted { values_of result ≡ sorted (values_of objects.entry.items) }
    ensures lent { All IsBorrowedObject objects.entry.items → All IsBorrowedObject result }
{
    Items::from_vec(sorted_in_place(objects))
}

/// The same by places. Err: out of memory, which is taken only where they don't stand so.
fn ordered_with_memory<'a>(objects: Vec<Object<'a>>) -> Result<Items<Object<'a>>, NoMemory>
    requires { AreHandles (map handle_of (values_of objects.items)) }
    ensures same { IfOk result (λ ordered. IsPermutation (values_of objects.entry.items) (values_of ordered)) }
    ensures ascend { IfOk result (λ ordered. AreAscending (values_of ordered)) }
    ensures lent { All IsBorrowedObject objects.entry.items → IfOk result (λ ordered. All IsBorrowedObject ordered) }
{
    Ok(Items::from_vec(sorted_with_memory(objects)?))
}

/// Objects in ascending order of their handles, and their frames in map order.
#[derive(Drop)]
pub(crate) struct FramedObjects<'a> {
    pub(crate) objects: Items<Object<'a>>,
    pub(crate) frames: Items<ObjectFrame>,
}

/// Reads the frames of pairs and their objects: these in ascending order of handle, one for each pair and no other. They are
/// refused by the first pair, in their order, that fails one of the lines on its frame.
pub(crate) fn read_objects<'a>(
    alloc: Global,
    bytes: &'a [u8],
    pairs: &[Pair],
    classes: &[Class],
) -> Result<FramedObjects<'a>, Fault>
    requires { AreHandles (handles_of pairs.now) }
    ensures tried { AnswersObjects classes.now bytes.now (frames_after bytes.now 0 [] pairs.now) result }
    ensures lent { IfOk result (λ read. All IsBorrowedObject read.objects) }
{
    let hints = Hints::build(alloc, classes)?;
    let read = read_frames(alloc, bytes, pairs, &hints)?;
    let objects = ordered_with_memory(read.objects)?;
    Ok(FramedObjects {
        objects,
        frames: read.frames,
    })
}
