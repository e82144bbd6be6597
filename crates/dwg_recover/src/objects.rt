//! The objects of the frames that are kept, each kept with its frame.

ghost use Rattle.std.specs.Prelude.{◌≡◌, ◌<◌, [], ◌∷◌, ◌++◌, map, true, IfOk};
ghost use Rattle.std.specs.List.{AllByRecursion};
ghost use Rattle.dwg_object.specs.Objects.{value_of};
ghost use Rattle.dwg_recover.specs.Frames.{is_free};
ghost use Rattle.dwg_recover.specs.KeptObjects.{HoldsObjects};
ghost use Rattle.dwg_recover.specs.Placing.{IsFound};
ghost use Rattle.dwg_recover.specs.Recovering.{object_of};

use crate::frame::Frame;
use crate::kept::KeptFrames;
use dwg_base::{NoMemory, Version, vec_with_capacity};
use dwg_classes::Hints;
use dwg_object::{Object, read_body_hinted, span_at, span_body};
use std::alloc::Global;

/// A frame that is found, and the object that its body is read as.
#[derive(Drop)]
pub(crate) struct FrameObject<'a> {
    pub(crate) frame: Frame,
    pub(crate) object: Object<'a>,
}

/// Frames that are kept, and the objects that their bodies are read as, one for each in the order of the frames.
#[derive(Drop)]
pub(crate) struct KeptObjects<'a> {
    pub(crate) frames: KeptFrames,
    pub(crate) objects: Vec<Object<'a>>,
}

/// The object that the body of a frame that was found is read as. Err: out of memory.
fn object_of<'a>(
    alloc: Global,
    bytes: &'a [u8],
    hints: &Hints<'_>,
    frame: &Frame,
) -> Result<Object<'a>, NoMemory>
    requires { IsFound bytes.now frame.now }
    ensures { IfOk result (λ object. value_of object ≡ object_of hints.now bytes.now frame.now) }
{
    let Ok(span) = span_at(bytes, frame.from, 0) else {
        unreachable!()
    };
    match read_body_hinted(
        alloc,
        span_body(bytes, &span),
        hints,
        Version::of_input(bytes),
    )? {
        Some(object) => Ok(object),
        None => unreachable!(),
    }
}

/// The objects that the bodies of frames are read as, in the order of the frames. Err: out of memory.
fn read_objects<'a>(
    alloc: Global,
    bytes: &'a [u8],
    hints: &Hints<'_>,
    frames: &[Frame],
) -> Result<Vec<Object<'a>>, NoMemory>
    requires { AllByRecursion (IsFound bytes.now) frames.now }
    ensures { IfOk result (λ objects. map value_of objects.items ≡ map (object_of hints.now bytes.now) frames.now) }
{
    let mut objects = vec_with_capacity(alloc, frames.len())?;
    'frames: for index in 0..frames.len() {
        objects.push(object_of(alloc, bytes, hints, &frames[index])?)?;
    }
    Ok(objects)
}

/// Frames that were found, with their objects. Err: out of memory.
pub(crate) fn with_objects<'a>(
    alloc: Global,
    bytes: &'a [u8],
    hints: &Hints<'_>,
    frames: KeptFrames,
) -> Result<KeptObjects<'a>, NoMemory>
    requires { AllByRecursion (IsFound bytes.now) frames }
    ensures frames { IfOk result (λ kept. kept.frames ≡ frames) }
    ensures objects { IfOk result (HoldsObjects hints.now bytes.now) }
{
    let objects = read_objects(alloc, bytes, hints, frames.as_slice())?;
    Ok(KeptObjects { frames, objects })
}

/// Frames that are kept with their objects, and one more, which shares no byte with them. Err: out of memory.
pub(crate) fn with_frame<'a>(
    kept: KeptObjects<'a>,
    found: FrameObject<'a>,
) -> Result<KeptObjects<'a>, NoMemory>
    requires some { found.frame.from < found.frame.end }
    requires free { is_free kept.frames found.frame.from found.frame.end ≡ true }
    ensures frames { IfOk result (λ more. more.frames ≡ kept.entry.frames ++ found.entry.frame ∷ []) }
    ensures objects { IfOk result (λ more. more.objects.items ≡ kept.entry.objects.items ++ found.entry.object ∷ []) }
{
    let KeptObjects {
        frames,
        mut objects,
    } = kept;
    let FrameObject { frame, object } = found;
    objects.push(object)?;
    let frames = frames.keep(frame)?;
    Ok(KeptObjects { frames, objects })
}
