//! Sending the parts of the canonical file, one after the other: a run of bytes that is held elsewhere takes no room of its own, any
//! other part is made in the room of one.

ghost use Rattle.std.specs.Prelude.{◌≡◌, ◌+◌, ◌*◌, ◌%◌, ◌^◌, ◌<◌, ◌≤◌, [], length, map, flat_map, false, OnOk, OnErr};
ghost use Rattle.std.specs.List.{AllByRecursion};
ghost use Rattle.dwg_base.specs.Devices.{AppendsPrefix, Counts, Sends};
ghost use Rattle.dwg_bits.specs.WholeBytes.{whole_bytes};
ghost use Rattle.dwg_classes.specs.WrittenClasses.{AreWritable};
ghost use Rattle.dwg_grammar.specs.ModularCodes.{ms};
ghost use Rattle.dwg_object.specs.Frames.{frame_bytes, framed_body};
ghost use Rattle.dwg_object.specs.Objects.{value_of};
ghost use Rattle.dwg_objmap.specs.Writing.{Ascend, map_bytes, map_after};
ghost use Rattle.dwg_preview.specs.Previews.{IsContent, WITHOUT_CONTENT, prefix_bytes};
ghost use Rattle.dwg_sections.specs.FileHeader.{IsFileHeader, header_bytes};
ghost use Rattle.dwg_sections.specs.Framed.{framed_bytes};
ghost use Rattle.dwg_file.specs.Canonical.{IsCarried, carried_by, class_content, frames_bytes, others_bytes, preview_at};
ghost use Rattle.dwg_file.specs.Contents.{other_value};
ghost use Rattle.dwg_file.specs.WriteBuffer.{Writes};
ghost use Rattle.dwg_file.specs.Plans.{CanBeSent, IsPut};

use crate::drawing_parts::Other;
use crate::write_buffer::WriteBuffer;
use dwg_base::{Sink, Version, WriteFault, bytes_with_range};
use dwg_bits::BitSink;
use dwg_check::{CHECK_SEED, check};
use dwg_classes::{Class, write_classes};
use dwg_codes::write_ms;
use dwg_object::{Object, write_frame};
use dwg_objmap::{PageWriter, Pair};
use dwg_preview::{Preview, end_sentinel, further, write_prefix};
use dwg_sections::{FileHeader, Framed, framed_pieces, write_file_header};

/// The bytes of a sink that holds whole bytes.
fn bytes_of(sink: &BitSink) -> &[u8]
    requires { length sink.now.written % 8 ≡ 0 }
    ensures { result.now ≡ whole_bytes sink.now.written }
{
    bytes_with_range(sink.as_bytes())
}

/// Writes pieces, one after the other.
fn send_all<W: Sink>(
    pieces: &[&[u8]],
    buffer: &mut WriteBuffer,
    sink: &mut W,
) -> Result<(), WriteFault>
    ensures writes { Writes (W.taken sink.old) (W.taken sink.new) buffer.old buffer.new (flat_map (λ bytes. bytes) (map (λ piece. piece.now) pieces.now)) result }
    ensures counts { Counts (W.faults sink.old) (W.faults sink.new) result }
{
    'pieces: for index in 0..pieces.len() {
        buffer.write(pieces[index], sink)?;
    }
    Ok(())
}

/// Writes a framed section around its content.
pub(crate) fn send_framed<W: Sink>(
    which: Framed,
    content: &[u8],
    buffer: &mut WriteBuffer,
    sink: &mut W,
) -> Result<(), WriteFault>
    requires { length content.now < 2 ^ 32 }
    ensures writes { Writes (W.taken sink.old) (W.taken sink.new) buffer.old buffer.new (framed_bytes which content.now) result }
    ensures counts { Counts (W.faults sink.old) (W.faults sink.new) result }
{
    let around = framed_pieces(which, content);
    let pieces = [
        around.begin.as_slice(),
        around.size.as_slice(),
        content,
        around.word.as_slice(),
        around.end.as_slice(),
    ];
    send_all(&pieces, buffer, sink)
}

/// Writes the file header, which is made in the room of a part.
pub(crate) fn send_header<W: Sink>(
    header: &FileHeader,
    part: &mut BitSink,
    buffer: &mut WriteBuffer,
    sink: &mut W,
) -> Result<(), WriteFault>
    requires header { IsFileHeader header.now }
    requires room { 344 + 72 * length header.now.locators ≤ part.old.spare + length part.old.written }
    ensures writes { Writes (W.taken sink.old) (W.taken sink.new) buffer.old buffer.new (header_bytes header.now) result }
    ensures counts { Counts (W.faults sink.old) (W.faults sink.new) result }
    ensures room { part.old.spare + length part.old.written ≤ part.new.spare + length part.new.written }
{
    part.clear();
    write_file_header(header, part);
    buffer.write(bytes_of(part), sink)
}

/// Writes the section of the classes, whose content is made in the room of a part.
pub(crate) fn send_classes<W: Sink>(
    classes: &[Class],
    part: &mut BitSink,
    buffer: &mut WriteBuffer,
    sink: &mut W,
) -> Result<(), WriteFault>
    requires writable { AreWritable classes.now }
    requires few { length (class_content classes.now) < 2 ^ 32 }
    requires room { 8 * length (class_content classes.now) ≤ part.old.spare + length part.old.written }
    ensures writes { Writes (W.taken sink.old) (W.taken sink.new) buffer.old buffer.new (framed_bytes Framed.Classes (class_content classes.now)) result }
    ensures counts { Counts (W.faults sink.old) (W.faults sink.new) result }
    ensures room { part.old.spare + length part.old.written ≤ part.new.spare + length part.new.written }
{
    part.clear();
    write_classes(classes, part);
    send_framed(Framed::Classes, bytes_of(part), buffer, sink)
}

/// Writes a preview section as it is at a place; what of it stands before its further bytes is made in the room of a part.
pub(crate) fn send_preview<W: Sink>(
    carried: &Preview<'_>,
    place: u32,
    part: &mut BitSink,
    buffer: &mut WriteBuffer,
    sink: &mut W,
) -> Result<(), WriteFault>
    requires carried { IsCarried (carried_by carried.now) }
    requires within { place + WITHOUT_CONTENT + length carried.now.content.now < 2 ^ 32 }
    requires room { 8 * length (prefix_bytes carried.now.place place carried.now.content.now) ≤ part.old.spare + length part.old.written }
    ensures writes { Writes (W.taken sink.old) (W.taken sink.new) buffer.old buffer.new (preview_at (carried_by carried.now) place) result }
    ensures counts { Counts (W.faults sink.old) (W.faults sink.new) result }
    ensures room { part.old.spare + length part.old.written ≤ part.new.spare + length part.new.written }
{
    part.clear();
    write_prefix(carried, place, part);
    let end = end_sentinel();
    let pieces = [bytes_of(part), further(carried), end.as_slice()];
    send_all(&pieces, buffer, sink)
}

/// Writes the frame of a Raw object around its body; its length is made in the room of a part.
fn send_raw_frame<W: Sink>(
    body: &[u8],
    part: &mut BitSink,
    buffer: &mut WriteBuffer,
    sink: &mut W,
) -> Result<(), WriteFault>
    requires few { length body.now < 2 ^ 29 }
    requires room { 8 * length (ms.short (length body.now)) ≤ part.old.spare + length part.old.written }
    ensures writes { Writes (W.taken sink.old) (W.taken sink.new) buffer.old buffer.new (framed_body (ms.short (length body.now)) body.now) result }
    ensures counts { Counts (W.faults sink.old) (W.faults sink.new) result }
    ensures room { part.old.spare + length part.old.written ≤ part.new.spare + length part.new.written }
{
    part.clear();
    write_ms(body.len() as u64, part);
    let size = bytes_of(part);
    let word = check(check(CHECK_SEED, size), body).to_le_bytes();
    let pieces = [size, body, word.as_slice()];
    send_all(&pieces, buffer, sink)
}

/// Writes the frame of an object in a version, which is made in the room of a part but for the body of a Raw one.
fn send_frame<W: Sink>(
    object: &Object<'_>,
    version: Version,
    part: &mut BitSink,
    buffer: &mut WriteBuffer,
    sink: &mut W,
) -> Result<(), WriteFault>
    requires { CanBeSent version (part.old.spare + length part.old.written) (value_of object.now) }
    ensures writes { Writes (W.taken sink.old) (W.taken sink.new) buffer.old buffer.new (frame_bytes version (value_of object.now)) result }
    ensures counts { Counts (W.faults sink.old) (W.faults sink.new) result }
    ensures room { part.old.spare + length part.old.written ≤ part.new.spare + length part.new.written }
{
    if let Object::Raw(raw) = object {
        return send_raw_frame(raw.bytes.as_slice(), part, buffer, sink);
    }
    part.clear();
    write_frame(object, version, part);
    buffer.write(bytes_of(part), sink)
}

/// Writes the frames of objects of a version, one after the other.
pub(crate) fn send_frames<W: Sink>(
    version: Version,
    objects: &[Object<'_>],
    part: &mut BitSink,
    buffer: &mut WriteBuffer,
    sink: &mut W,
) -> Result<(), WriteFault>
    requires { AllByRecursion (CanBeSent version (part.old.spare + length part.old.written)) (map value_of objects.now) }
    ensures writes { Writes (W.taken sink.old) (W.taken sink.new) buffer.old buffer.new (frames_bytes version (map value_of objects.now)) result }
    ensures counts { Counts (W.faults sink.old) (W.faults sink.new) result }
    ensures room { part.old.spare + length part.old.written ≤ part.new.spare + length part.new.written }
{
    'objects: for object in objects {
        send_frame(object, version, part, buffer, sink)?;
    }
    Ok(())
}

/// Writes unknown sections, one after the other.
pub(crate) fn send_others<W: Sink>(
    others: &[Other<'_>],
    buffer: &mut WriteBuffer,
    sink: &mut W,
) -> Result<(), WriteFault>
    ensures writes { Writes (W.taken sink.old) (W.taken sink.new) buffer.old buffer.new (others_bytes (map other_value others.now)) result }
    ensures counts { Counts (W.faults sink.old) (W.faults sink.new) result }
{
    'others: for other in others {
        buffer.write(other.bytes.as_slice(), sink)?;
    }
    Ok(())
}

/// Puts pairs into the map, one after the other.
fn put_pairs<W: Sink>(
    pairs: &[Pair],
    writer: &mut PageWriter,
    sink: &mut W,
) -> Result<(), WriteFault>
    requires ascending { Ascend writer.old.last.handle pairs.now }
    requires open { writer.old.ended ≡ false }
    ensures put { OnOk result (IsPut (W.taken sink.old) (W.taken sink.new) writer.new [] (map_after writer.old pairs.now)) }
    ensures cut { OnErr result (AppendsPrefix (W.taken sink.old) (W.taken sink.new) (map_after writer.old pairs.now)) }
    ensures counts { Counts (W.faults sink.old) (W.faults sink.new) result }
    ensures still_open { OnOk result (writer.new.ended ≡ false) }
{
    'pairs: for pair in pairs {
        writer.put(*pair, sink)?;
    }
    Ok(())
}

/// Sends the map of pairs, page by page.
pub(crate) fn send_map<W: Sink>(
    pairs: &[Pair],
    writer: &mut PageWriter,
    sink: &mut W,
) -> Result<(), WriteFault>
    requires { Ascend 0 pairs.now }
    ensures bytes { Sends (W.taken sink.old) (W.taken sink.new) (map_bytes pairs.now) result }
    ensures counts { Counts (W.faults sink.old) (W.faults sink.new) result }
{
    writer.restart();
    put_pairs(pairs, writer, sink)?;
    writer.end(sink)
}
