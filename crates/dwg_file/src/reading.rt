//! Reading whole drawings.

ghost use Rattle.std.specs.Prelude.{◌≡◌, ◌≤◌, [], ◌∷◌, length, map, IfOk, IfErr, OnOk, None};
ghost use Rattle.std.specs.Result.{result_unwrap_or};
ghost use Rattle.dwg_base.specs.Devices.{MOST_BYTES};
ghost use Rattle.dwg_base.specs.Refusals.{first_fault, Reports};
ghost use Rattle.dwg_sections.specs.HeaderLines.{HEADER_LINES, header_at};
ghost use Rattle.std.specs.List.{All};
ghost use Rattle.dwg_object.specs.Objects.{IsBorrowedObject};
ghost use Rattle.dwg_file.specs.Borrowed.{IsBorrowed};
ghost use Rattle.dwg_file.specs.Contents.{contents_of};
ghost use Rattle.dwg_file.specs.FileLines.{ALL_LINES, map_row, frames_row, frames_tried};
ghost use Rattle.dwg_file.specs.FrameReading.{values_of, AreObjectsIn};
ghost use Rattle.dwg_file.specs.ObjectFrames.{frame_of};
ghost use Rattle.dwg_file.specs.ReadAs.{ReadsAs};
ghost use Rattle.dwg_file.specs.Spelled.{Spelled};

use crate::drawing::Drawing;
use crate::drawing_parts::Parts;
use crate::frames::ObjectFrame;
use crate::laws::drawing_laws;
use crate::objects::{FramedObjects, read_objects};
use crate::sections::{classes_of_file, others_of_file, pairs_of_file, variables_of_file};
use dwg_base::{Fault, Items};
use dwg_classes::Class;
use dwg_codes::BytePart;
use dwg_sections::{FileHeader, read_file_header};
use std::alloc::Global;

/// The frames that the map of the file names, and their objects, in ascending order of handle. The whole map is tried before the
/// first frame.
fn objects_of_file<'a>(
    alloc: Global,
    bytes: &'a [u8],
    header: &FileHeader,
    classes: &[Class],
) -> Result<FramedObjects<'a>, Fault>
    requires { header.now ≡ header_at bytes.now }
    ensures objects { IfOk result (λ read. AreObjectsIn classes.now bytes.now (values_of read.objects)) }
    ensures lent { IfOk result (λ read. All IsBorrowedObject read.objects) }
    ensures frames { IfOk result (λ read. read.frames ≡ map frame_of (result_unwrap_or (frames_tried bytes.now) [])) }
    ensures holds { OnOk result (first_fault (map_row ∷ frames_row ∷ []) bytes.now ≡ None) }
    ensures refused { IfErr result (λ fault. Reports fault (first_fault (map_row ∷ frames_row ∷ []) bytes.now)) }
{
    let pairs = pairs_of_file(alloc, bytes, header)?;
    let read = read_objects(alloc, bytes, pairs.as_slice(), classes)?;
    Ok(read)
}

/// The parts of a drawing, and the frames of its objects in map order.
#[derive(Drop)]
struct FramedParts<'a> {
    parts: Parts<'a>,
    frames: Items<ObjectFrame>,
}

/// The parts of the drawing and the frames of its objects, after the header that the file begins with.
fn parts_after<'a>(
    alloc: Global,
    bytes: &'a [u8],
    header: &FileHeader,
) -> Result<FramedParts<'a>, Fault>
    requires length { length bytes.now ≤ MOST_BYTES }
    requires header { header.now ≡ header_at bytes.now }
    requires holds { first_fault HEADER_LINES bytes.now ≡ None }
    ensures read { IfOk result (λ read. ReadsAs (contents_of read.parts) bytes.now) }
    ensures lent { IfOk result (λ read. IsBorrowed read.parts) }
    ensures frames { IfOk result (λ read. read.frames ≡ map frame_of (result_unwrap_or (frames_tried bytes.now) [])) }
    ensures refused { IfErr result (λ fault. Reports fault (first_fault ALL_LINES bytes.now)) }
{
    let content = variables_of_file(bytes, header)?;
    let classes = classes_of_file(alloc, bytes, header)?;
    let framed = objects_of_file(alloc, bytes, header, classes.as_slice())?;
    let others = others_of_file(alloc, bytes, header)?;
    let FramedObjects { objects, frames } = framed;
    let parts = Parts {
        version: header.version,
        lead: header.lead,
        mark: header.mark,
        code_page: header.code_page,
        variables: BytePart::Lent(content),
        classes,
        others,
        objects,
    };
    Ok(FramedParts { parts, frames })
}

/// A drawing that was read, and the frames of its objects.
#[derive(Drop)]
pub struct FramedDrawing<'a> {
    /// The drawing.
    pub drawing: Drawing<'a>,
    /// The frames of its objects, in the order of the map.
    pub frames: Items<ObjectFrame>,
}

/// Reads the drawing that an input spells and reports where the frames of its objects lie. It answers as [`read_drawing`] does, and
/// reads nothing more.
pub fn read_with_frames<'a>(alloc: Global, bytes: &'a [u8]) -> Result<FramedDrawing<'a>, Fault>
    requires { length bytes.now ≤ MOST_BYTES }
    // The drawing that the input spells; it spells one exactly where no line fails.
    ensures spelled { IfOk result (λ read. Spelled (contents_of read.drawing) bytes.now) }
    ensures holds { OnOk result (first_fault ALL_LINES bytes.now ≡ None) }

    // The header variables, the unknown sections, the free bits of Plain objects and the bytes of Raw ones are lent.
    ensures lent { IfOk result (λ read. IsBorrowed read.drawing) }

    // The frames of the map's pairs, in map order.
    ensures frames { IfOk result (λ read. read.frames ≡ map frame_of (result_unwrap_or (frames_tried bytes.now) [])) }

    // The first line that fails, or out of memory.
    ensures refused { IfErr result (λ fault. Reports fault (first_fault ALL_LINES bytes.now)) }
{
    drawing_laws();
    let header = read_file_header(alloc, bytes)?;
    let read = parts_after(alloc, bytes, &header)?;
    Ok(FramedDrawing {
        drawing: Drawing::build(read.parts),
        frames: read.frames,
    })
}

/// Reads the drawing that an input spells. It is refused by the first of all lines that fails: those on the file header, the
/// header variables, the section of the classes, the classes one by one, the whole map page by page, the frames pair by
/// pair in map order, and the unknown sections (Open Design Specification, "R13 to R2000 file layout").
///
/// The objects come in ascending order of handle. What memory is taken is for what the input holds; running out of it says
/// nothing of the input.
pub fn read_drawing<'a>(alloc: Global, bytes: &'a [u8]) -> Result<Drawing<'a>, Fault>
    requires { length bytes.now ≤ MOST_BYTES }
    // The drawing that the input spells; it spells one exactly where no line fails.
    ensures spelled { IfOk result (λ drawing. Spelled (contents_of drawing) bytes.now) }
    ensures holds { OnOk result (first_fault ALL_LINES bytes.now ≡ None) }

    // The header variables, the unknown sections, the free bits of Plain objects and the bytes of Raw ones are lent.
    ensures lent { IfOk result IsBorrowed }

    // The first line that fails, or out of memory.
    ensures refused { IfErr result (λ fault. Reports fault (first_fault ALL_LINES bytes.now)) }
{
    let read = read_with_frames(alloc, bytes)?;
    Ok(read.drawing)
}
