//! Writing drawings: the canonical file is measured, and then sent part after part.

ghost use Rattle.std.specs.Prelude.{◌≡◌, ℕ, ◌+◌, ◌*◌, ◌^◌, ◌<◌, ◌≤◌, [], length, IfOk, IfSome, OnOk, Err};
ghost use Rattle.dwg_base.specs.Devices.{MOST_BYTES, Counts, Sends};
ghost use Rattle.dwg_preview.specs.Previews.{IsContent};
ghost use Rattle.dwg_file.specs.Canonical.{IsCarried, NO_PICTURE, canonical_with, carried_by, carried_of, others_bytes, preview_place, size_of, size_with};
ghost use Rattle.dwg_file.specs.Contents.{contents_of};
ghost use Rattle.dwg_file.specs.WriteBuffer.{Writes};
ghost use Rattle.dwg_file.specs.Plans.{HasRoom, IsLayout, IsReady, before_map, sections_bytes};
ghost use Rattle.dwg_file.specs.Valid.{IsValid};

use crate::drawing::Drawing;
use crate::drawing_parts::Parts;
use crate::file_layout::{Layout, header_of, layout_of};
use crate::part_sending::{
    send_classes, send_framed, send_frames, send_header, send_map, send_others, send_preview,
};
use crate::write_buffer::WriteBuffer;
use dwg_base::{Items, LIMIT, NoMemory, Sink, WriteFault, bytes_with_range};
use dwg_bits::BitSink;
use dwg_objmap::{PageWriter, Pair};
use dwg_preview::Preview;
use dwg_sections::{FileHeader, Framed};
use std::alloc::Global;
use std::marker::Model;
use thiserror::Error;

/// Why a drawing can't be written.
#[derive(Clone, Copy, Debug, PartialEq, Eq, Error)]
pub enum PlanFault {
    /// Out of memory.
    #[error("out of memory")]
    NoMemory,
    /// The canonical file has more bytes than a file may have.
    #[error("file too large")]
    TooLarge {
        /// How many bytes it has.
        size: u64,
    },
}

impl From<NoMemory> for PlanFault {
    ghost use Rattle.dwg_file.specs.declared.file_writer.PlanFault.TheVariants.{NoMemory};

    ghost from_gives = { λ _ fault. fault ≡ NoMemory };

    fn from(_error: NoMemory) -> PlanFault {
        PlanFault::NoMemory
    }
}

/// The preview that is handed over, or one without a picture, wherever that stood.
fn carried_or_none<'a>(preview: Option<Preview<'a>>) -> Preview<'a>
    requires read { IfSome preview (λ preview. IsContent preview.place preview.content.now) }
    ensures is { IsCarried (carried_by result) }
    ensures carried { carried_by result ≡ carried_of preview.entry }
{
    match preview {
        Some(preview) => Preview {
            place: preview.place,
            content: bytes_with_range(preview.content),
        },
        None => Preview {
            place: 0,
            content: &[0],
        },
    }
}

/// Writes the sections before the frames: header variables, classes, and a preview at its place.
fn send_sections<W: Sink>(
    parts: &Parts<'_>,
    carried: &Preview<'_>,
    place: u32,
    part: &mut BitSink,
    buffer: &mut WriteBuffer,
    sink: &mut W,
) -> Result<(), WriteFault>
    requires valid { IsValid (contents_of parts.now) }
    requires carried { IsCarried (carried_by carried.now) }
    requires place { place ≡ preview_place (contents_of parts.now) }
    requires small { size_with (carried_by carried.now) (contents_of parts.now) ≤ MOST_BYTES }
    requires room { HasRoom (carried_by carried.now) (part.old.spare + length part.old.written) (contents_of parts.now) }
    ensures writes { Writes (W.taken sink.old) (W.taken sink.new) buffer.old buffer.new (sections_bytes (carried_by carried.now) (contents_of parts.now)) result }
    ensures counts { Counts (W.faults sink.old) (W.faults sink.new) result }
    ensures room { part.old.spare + length part.old.written ≤ part.new.spare + length part.new.written }
{
    send_framed(Framed::Variables, parts.variables.as_slice(), buffer, sink)?;
    send_classes(parts.classes.as_slice(), part, buffer, sink)?;
    send_preview(carried, place, part, buffer, sink)
}

/// Sends the parts of the canonical file before the map.
fn send_prefix<W: Sink>(
    parts: &Parts<'_>,
    carried: &Preview<'_>,
    header: &FileHeader,
    part: &mut BitSink,
    buffer: &mut WriteBuffer,
    sink: &mut W,
) -> Result<(), WriteFault>
    requires ready { IsReady (carried_by carried.now) (contents_of parts.now) header.now (part.old.spare + length part.old.written) }
    requires none { buffer.old ≡ [] }
    ensures bytes { Sends (W.taken sink.old) (W.taken sink.new) (before_map (carried_by carried.now) (contents_of parts.now)) result }
    ensures counts { Counts (W.faults sink.old) (W.faults sink.new) result }
    ensures room { part.old.spare + length part.old.written ≤ part.new.spare + length part.new.written }
    ensures none { OnOk result (buffer.new ≡ []) }
{
    send_header(header, part, buffer, sink)?;
    send_sections(parts, carried, header.preview, part, buffer, sink)?;
    send_frames(parts.version, parts.objects.as_slice(), part, buffer, sink)?;
    buffer.flush(sink)
}

/// Sends the parts of the canonical file after the map.
fn send_back<W: Sink>(
    parts: &Parts<'_>,
    buffer: &mut WriteBuffer,
    sink: &mut W,
) -> Result<(), WriteFault>
    requires { buffer.old ≡ [] }
    ensures bytes { Sends (W.taken sink.old) (W.taken sink.new) (others_bytes (contents_of parts.now).others) result }
    ensures counts { Counts (W.faults sink.old) (W.faults sink.new) result }
{
    send_others(parts.others.as_slice(), buffer, sink)?;
    buffer.flush(sink)
}

/// Room for a part of so many bytes. Err: out of memory.
fn room_for_part(alloc: Global, bytes: u64) -> Result<BitSink, NoMemory>
    requires { bytes < 2 ^ 58 }
    ensures { IfOk result (λ part. 8 * bytes ≤ part.spare + length part.written) }
{
    let mut part = BitSink::new(alloc);
    if !part.reserve(8 * bytes) {
        return Err(NoMemory);
    }
    Ok(part)
}

/// A drawing with what its writing needs: the preview that the file carries, where its parts stand, and room for one of them.
/// Contracts see the drawing and the preview.
#[derive(Drop)]
pub struct Plan<'d, 'a> {
    drawing: &'d Drawing<'a>,
    carried: Preview<'a>,
    // For each object its handle and the place of its frame, and the size of the file.
    pairs: Items<Pair>,
    size: u64,
    header: FileHeader,
    // Where a part is made that isn't held elsewhere, what waits to go out, and the pages of the map.
    part: BitSink,
    buffer: WriteBuffer,
    pages: PageWriter,
}

impl<'d, 'a> Model for Plan<'d, 'a> {
    ghost use Rattle.std.specs.Prelude.{◌+◌, length};
    ghost use Rattle.dwg_file.specs.Canonical.{carried_by};
    ghost use Rattle.dwg_file.specs.Contents.{contents_of};
    ghost use Rattle.dwg_file.specs.Plans.{IsPlan, Planned};

    ghost Value = { Planned };

    ghost view = { λ plan. record { drawing = contents_of plan.drawing.now; carried = carried_by plan.carried } };

    ghost invariant = { λ plan. IsPlan (carried_by plan.carried) (contents_of plan.drawing.now) plan.pairs plan.size plan.header (plan.part.spare + length plan.part.written) };
}

/// What the writing of a laid out drawing needs. Err: out of memory.
fn plan_of<'d, 'a>(
    alloc: Global,
    drawing: &'d Drawing<'a>,
    layout: Layout<'a>,
) -> Result<Plan<'d, 'a>, NoMemory>
    requires carried { IsCarried (carried_by layout.carried) }
    requires layout { IsLayout layout (carried_by layout.carried) (contents_of drawing.now) }
    requires small { size_with (carried_by layout.carried) (contents_of drawing.now) ≤ MOST_BYTES }
    requires room { HasRoom (carried_by layout.carried) (8 * layout.part) (contents_of drawing.now) }
    requires few { layout.part < 2 ^ 58 }
    ensures { IfOk result (λ plan. plan ≡ record { drawing = contents_of drawing.now; carried = carried_by layout.entry.carried }) }
{
    let header = header_of(alloc, drawing.parts(), &layout)?;
    let part = room_for_part(alloc, layout.part)?;
    let buffer = WriteBuffer::new(alloc)?;
    let pages = PageWriter::new(alloc)?;
    Ok(Plan {
        drawing,
        carried: layout.carried,
        pairs: layout.pairs,
        size: layout.size,
        header,
        part,
        buffer,
        pages,
    })
}

impl<'d, 'a> Plan<'d, 'a> {
    /// Measures the canonical file of a drawing. TooLarge exactly where that has more than `LIMIT` bytes, with their count; the
    /// only other refusal is out of memory. All memory that writing needs is taken here: a pair for each object, a locator for each
    /// section, the largest part that isn't held elsewhere, a page of the map and a pair in it, and the least that goes out in one
    /// piece.
    pub fn prepare(alloc: Global, drawing: &'d Drawing<'a>) -> Result<Plan<'d, 'a>, PlanFault>
        ensures plan { IfOk result (λ plan. plan ≡ record { drawing = contents_of drawing.now; carried = NO_PICTURE }) }
        ensures within { OnOk result (size_of (contents_of drawing.now) ≤ MOST_BYTES) }
        ensures too_large { (size : ℕ) → result ≡ Err (PlanFault.TooLarge size) → MOST_BYTES < size_of (contents_of drawing.now) }
        ensures with_size { (size : ℕ) → result ≡ Err (PlanFault.TooLarge size) → size ≡ size_of (contents_of drawing.now) }
    {
        Plan::prepare_with(alloc, drawing, None)
    }

    /// Measures the canonical file of a drawing that carries a preview, or where there is none one without a picture; else as
    /// `prepare`. The caller sees to it that the preview was read. It takes no memory for the preview but for what stands before its
    /// further bytes.
    pub fn prepare_with(
        alloc: Global,
        drawing: &'d Drawing<'a>,
        preview: Option<Preview<'a>>,
    ) -> Result<Plan<'d, 'a>, PlanFault>
        requires read { IfSome preview (λ preview. IsContent preview.place preview.content.now) }
        ensures plan { IfOk result (λ plan. plan ≡ record { drawing = contents_of drawing.now; carried = carried_of preview.entry }) }
        ensures within { OnOk result (size_with (carried_of preview.entry) (contents_of drawing.now) ≤ MOST_BYTES) }
        ensures too_large { (size : ℕ) → result ≡ Err (PlanFault.TooLarge size) → MOST_BYTES < size_with (carried_of preview.entry) (contents_of drawing.now) }
        ensures with_size { (size : ℕ) → result ≡ Err (PlanFault.TooLarge size) → size ≡ size_with (carried_of preview.entry) (contents_of drawing.now) }
    {
        let layout = layout_of(alloc, drawing.parts(), carried_or_none(preview))?;
        if layout.size > LIMIT {
            return Err(PlanFault::TooLarge { size: layout.size });
        }
        let plan = plan_of(alloc, drawing, layout)?;
        Ok(plan)
    }

    /// The size of the canonical file in bytes.
    pub fn size(&self) -> u64
        ensures size { result ≡ size_with self.now.carried self.now.drawing }
        ensures within { result ≤ MOST_BYTES }
    {
        self.size
    }

    /// Sends the canonical file, part after part. It takes no memory, and may be called again, after Ok and after a fault: it sends
    /// the whole file again. A fault comes only where the sink's count of faults rose; then it took a prefix of the file.
    ///
    /// Before the map and after it small pieces go out together, 4,096 bytes at a time but for the last; each page of the map goes
    /// out in one piece, from where it is filled. What is held elsewhere takes no room of its own, and what of it is left after a
    /// piece goes out as it is held, if it has as many bytes.
    pub fn write_to<W: Sink>(&mut self, sink: &mut W) -> Result<(), WriteFault>
        ensures bytes { Sends (W.taken sink.old) (W.taken sink.new) (canonical_with self.old.carried self.old.drawing) result }
        ensures counts { Counts (W.faults sink.old) (W.faults sink.new) result }
        ensures kept { self.new ≡ self.old }
    {
        let parts = self.drawing.parts();
        self.buffer.clear();
        send_prefix(
            parts,
            &self.carried,
            &self.header,
            &mut self.part,
            &mut self.buffer,
            sink,
        )?;
        send_map(self.pairs.as_slice(), &mut self.pages, sink)?;
        send_back(parts, &mut self.buffer, sink)
    }
}
