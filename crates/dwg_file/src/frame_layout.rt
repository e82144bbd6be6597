//! The parts of the canonical file: their lengths, and where the frames stand.

ghost use Rattle.std.specs.Prelude.{◌≡◌, ◌+◌, ◌^◌, ◌<◌, length, map, IfOk};
ghost use Rattle.std.specs.List.{AllByRecursion};
ghost use Rattle.dwg_classes.specs.WrittenClasses.{AreWritable};
ghost use Rattle.dwg_object.specs.Frames.{frame_bytes};
ghost use Rattle.dwg_object.specs.Objects.{value_of};
ghost use Rattle.dwg_file.specs.Canonical.{class_content, frames_bytes, placed, others_bytes};
ghost use Rattle.dwg_file.specs.Contents.{other_value};
ghost use Rattle.dwg_file.specs.Plans.{CanBeFramed, FitsIn, room_of_frame};

use crate::drawing_parts::Other;
use dwg_base::{Items, NoMemory, Version, vec_with_capacity};
use dwg_classes::{Class, classes_bits};
use dwg_codes::ms_bytes;
use dwg_object::{Object, frame_length};
use dwg_objmap::Pair;
use std::alloc::Global;

/// How many bytes the content of the classes section has.
pub(crate) fn content_length(classes: &[Class]) -> u64
    requires writable { AreWritable classes.now }
    requires few { length (class_content classes.now) < 2 ^ 58 }
    ensures { result ≡ length (class_content classes.now) }
{
    classes_bits(classes).div_ceil(8)
}

/// How many bytes the unknown sections have.
pub(crate) fn others_length(others: &[Other<'_>]) -> u64
    requires { length (others_bytes (map other_value others.now)) < 2 ^ 58 }
    ensures { result ≡ length (others_bytes (map other_value others.now)) }
{
    let mut length = 0;
    'others: for other in others {
        length += other.bytes.as_slice().len() as u64;
    }
    length
}

/// The pairs of objects, where their frames end, and the room that these take while they are sent.
#[derive(Drop)]
pub(crate) struct Placed {
    /// A pair for each object.
    pub pairs: Items<Pair>,
    /// The place after the last frame.
    pub end: u64,
    /// How many bytes the largest part of a frame has that isn't held elsewhere.
    pub part: u64,
}

/// How many bytes of an object's frame aren't held elsewhere: all of them, but of a Raw object's those of the length alone.
fn room_of_frame(object: &Object<'_>, version: Version, frame: u64) -> u64
    requires framed { CanBeFramed version (value_of object.now) }
    requires frame { frame ≡ length (frame_bytes version (value_of object.now)) }
    requires few { frame < 2 ^ 30 }
    ensures room { result ≡ room_of_frame version (value_of object.now) }
    ensures few { result < 2 ^ 30 }
{
    match object {
        Object::Raw(raw) => ms_bytes(raw.bytes.as_slice().len() as u64) as u64,
        _ => frame,
    }
}

/// Places the frames of objects of a version one after the other. Err: out of memory.
pub(crate) fn place_objects(
    alloc: Global,
    version: Version,
    objects: &[Object<'_>],
    from: u64,
) -> Result<Placed, NoMemory>
    requires framed { AllByRecursion (CanBeFramed version) (map value_of objects.now) }
    requires few { from + length (frames_bytes version (map value_of objects.now)) < 2 ^ 59 }
    ensures pairs { IfOk result (λ all. all.pairs ≡ placed version from (map value_of objects.now)) }
    ensures end { IfOk result (λ all. all.end ≡ from + length (frames_bytes version (map value_of objects.now))) }
    ensures part { IfOk result (λ all. AllByRecursion (FitsIn version all.part) (map value_of objects.now)) }
    ensures few_part { IfOk result (λ all. all.part < 2 ^ 30) }
{
    let mut pairs = vec_with_capacity(alloc, objects.len())?;
    let mut place = from;
    let mut part = 0;
    'objects: for object in objects {
        let pair = Pair {
            handle: object.handle(),
            place,
        };
        pairs.push(pair)?;
        let frame = frame_length(object, version);
        part = room_of_frame(object, version, frame).max(part);
        place += frame;
    }
    Ok(Placed {
        pairs: Items::from_vec(pairs),
        end: place,
        part,
    })
}
