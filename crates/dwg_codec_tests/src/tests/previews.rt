//! Preview sections.

ghost use Rattle.std.specs.Prelude.{◌≡◌, ◌%◌, length, IfSome};
ghost use Rattle.dwg_preview.specs.Previews.{IsContent};

use crate::tests::sinks::{has_room, report_sink};
use dwg_bits::BitSink;
use dwg_preview::{
    Preview, end_sentinel, further, prefix_length, preview_laws, preview_length, read_preview,
    write_prefix, write_preview,
};
use dwg_testkit::{Bits, Case, Line, Report, hold};
use std::alloc::Global;
use std::test::Fail;

/// 146 bytes without meaning, and a section after them. None: out of memory.
fn input_of(alloc: Global, section: &[u8]) -> Option<Vec<u8>> {
    let mut bits = Bits::new(alloc);
    bits.push_bytes(&[0; 146])?;
    bits.push_bytes(section)?;
    bits.to_bytes(alloc)
}

/// The preview section at a place.
fn preview_at(bytes: &[u8], place: u64) -> Option<Preview<'_>>
    ensures { IfSome result (λ preview. IsContent preview.place preview.content.now) }
{
    read_preview(bytes, place.min(4_294_967_295) as u32)
}

/// Writes a section.
fn push_preview(sink: &mut BitSink, preview: &Preview<'_>, place: u64)
    requires read { IsContent preview.now.place preview.now.content.now }
    requires aligned { length sink.old.written % 8 ≡ 0 }
{
    let length = preview_length(preview);
    if place > 1_000 || length > 1_000 {
        return;
    }
    if has_room(sink, 8 * length) {
        write_preview(preview, place as u32, sink);
    }
}

/// Reports the section as it is written at a place.
fn report_written(alloc: Global, preview: &Preview<'_>, place: u64, report: &mut Report)
    requires { IsContent preview.now.place preview.now.content.now }
{
    let mut sink = BitSink::new(alloc);
    push_preview(&mut sink, preview, place);
    report_sink(&sink, report);
}

/// Reports the section at a place of an input, and as it is written at another.
fn report_preview(alloc: Global, bytes: &[u8], place: u64, to: u64, report: &mut Report) {
    match preview_at(bytes, place) {
        Some(preview) => {
            report.number(u64::from(preview.place));
            report.bytes(preview.content);
            report_written(alloc, &preview, to, report);
        }
        None => report.word("none"),
    }
}

/// `preview READ WRITTEN | SECTION`: the place and the content of the preview section at the place READ of an input that has the section at
/// 146, and the section as it is written at the place WRITTEN
fn case_preview(line: &mut Line<'_>, report: &mut Report) -> Option<()> {
    let [place, to, ..] = line.numbers()?;
    let bytes = input_of(line.alloc, &line.bytes(1)?)?;
    report_preview(line.alloc, &bytes, place, to, report);
    Some(())
}

/// Writes what stands before the further bytes.
fn push_prefix(sink: &mut BitSink, preview: &Preview<'_>, place: u64)
    requires read { IsContent preview.now.place preview.now.content.now }
    requires aligned { length sink.old.written % 8 ≡ 0 }
{
    if place > 1_000 || preview_length(preview) > 1_000 {
        return;
    }
    if has_room(sink, 8 * prefix_length(preview)) {
        write_prefix(preview, place as u32, sink);
    }
}

/// Reports the pieces of a section as it is written at a place.
fn report_pieces(alloc: Global, preview: &Preview<'_>, place: u64, report: &mut Report)
    requires { IsContent preview.now.place preview.now.content.now }
{
    let mut sink = BitSink::new(alloc);
    push_prefix(&mut sink, preview, place);
    report.number(prefix_length(preview));
    report_sink(&sink, report);
    report.bytes(further(preview));
    report.bytes(&end_sentinel());
}

/// `pieces READ WRITTEN | SECTION`: how many bytes stand before the further bytes, what they are at the place WRITTEN, the further bytes,
/// and the end sentinel, of the preview section at the place READ of an input that has the section at 146
fn case_pieces(line: &mut Line<'_>, report: &mut Report) -> Option<()> {
    let [place, to, ..] = line.numbers()?;
    let bytes = input_of(line.alloc, &line.bytes(1)?)?;
    match preview_at(&bytes, place) {
        Some(preview) => report_pieces(line.alloc, &preview, to, report),
        None => report.word("none"),
    }
    Some(())
}

/// What is tried is told at the functions.
struct PreviewCases;

impl Case for PreviewCases {
    fn report(line: &mut Line<'_>, report: &mut Report) -> Option<()> {
        match line.name() {
            "preview" => case_preview(line, report),
            "pieces" => case_pieces(line, report),
            _ => None,
        }
    }
}

#[test]
fn a_preview_is_written_in_pieces(rt: HostRuntime) -> Result<(), Fail> {
    let cases = "
        # Where it stood, without further bytes and without entries; and two entries at another place.
        pieces 146 146 | 1F256D07D43628289D57CA3F9D44102B 0A000000 01 02 B0000000 00000000 E0DA92F82BC9D7D762A835C062BBEFD4 \
            | 30 :1F256D07D43628289D57CA3F9D44102B0A00000001020000000000000000 : :E0DA92F82BC9D7D762A835C062BBEFD4
        pieces 146 146 | 1F256D07D43628289D57CA3F9D44102B 03000000 00 AABB E0DA92F82BC9D7D762A835C062BBEFD4 \
            | 21 :1F256D07D43628289D57CA3F9D44102B0300000000 :AABB :E0DA92F82BC9D7D762A835C062BBEFD4
        pieces 146 46 | 1F256D07D43628289D57CA3F9D44102B 15000000 02 01 00000000 00000000 03 B9000000 02000000 AABB E0DA92F82BC9D7D762A835C062BBEFD4 \
            | 39 :1F256D07D43628289D57CA3F9D44102B1500000002010000000000000000035500000002000000 :AABB :E0DA92F82BC9D7D762A835C062BBEFD4";
    hold::<PreviewCases>(rt.alloc(), cases)
}

#[test]
fn a_preview_is_read_and_written_elsewhere(rt: HostRuntime) -> Result<(), Fail> {
    let cases = "
        # Where it stood and further on; a picture without bytes; no entries; and two entries, the first without bytes, at a place before.
        preview 146 146 | 1F256D07D43628289D57CA3F9D44102B 0C000000 01 02 B0000000 02000000 AABB E0DA92F82BC9D7D762A835C062BBEFD4 \
            | 146 :0102B000000002000000AABB :1F256D07D43628289D57CA3F9D44102B0C0000000102B000000002000000AABBE0DA92F82BC9D7D762A835C062BBEFD4
        preview 146 246 | 1F256D07D43628289D57CA3F9D44102B 0C000000 01 02 B0000000 02000000 AABB E0DA92F82BC9D7D762A835C062BBEFD4 \
            | 146 :0102B000000002000000AABB :1F256D07D43628289D57CA3F9D44102B0C00000001021401000002000000AABBE0DA92F82BC9D7D762A835C062BBEFD4
        preview 146 246 | 1F256D07D43628289D57CA3F9D44102B 0C000000 01 02 B0000000 00000000 AABB E0DA92F82BC9D7D762A835C062BBEFD4 \
            | 146 :0102B000000000000000AABB :1F256D07D43628289D57CA3F9D44102B0C00000001020000000000000000AABBE0DA92F82BC9D7D762A835C062BBEFD4
        preview 146 246 | 1F256D07D43628289D57CA3F9D44102B 01000000 00 E0DA92F82BC9D7D762A835C062BBEFD4 \
            | 146 :00 :1F256D07D43628289D57CA3F9D44102B0100000000E0DA92F82BC9D7D762A835C062BBEFD4
        preview 146 46 | 1F256D07D43628289D57CA3F9D44102B 15000000 02 01 00000000 00000000 03 B9000000 02000000 AABB \
            E0DA92F82BC9D7D762A835C062BBEFD4 | 146 :0201000000000000000003B900000002000000AABB \
            :1F256D07D43628289D57CA3F9D44102B1500000002010000000000000000035500000002000000AABBE0DA92F82BC9D7D762A835C062BBEFD4";
    hold::<PreviewCases>(rt.alloc(), cases)
}

#[test]
fn no_preview_is_read_where_none_stands(rt: HostRuntime) -> Result<(), Fail> {
    let cases = "
        # The picture at 0, from the byte before that after the entries on, and up to the byte after the section's last; two entries.
        preview 146 | 1F256D07D43628289D57CA3F9D44102B 0C000000 01 02 00000000 02000000 AABB E0DA92F82BC9D7D762A835C062BBEFD4 | none
        preview 146 | 1F256D07D43628289D57CA3F9D44102B 0C000000 01 02 AF000000 02000000 AABB E0DA92F82BC9D7D762A835C062BBEFD4 | none
        preview 146 | 1F256D07D43628289D57CA3F9D44102B 0C000000 01 02 B1000000 02000000 AABB E0DA92F82BC9D7D762A835C062BBEFD4 | none
        preview 146 | 1F256D07D43628289D57CA3F9D44102B 0C000000 02 02 B0000000 02000000 AABB E0DA92F82BC9D7D762A835C062BBEFD4 | none
        # No content; a size beyond the end; another begin sentinel and another end sentinel; places without a section and beyond the input.
        preview 146 | 1F256D07D43628289D57CA3F9D44102B 00000000 E0DA92F82BC9D7D762A835C062BBEFD4 | none
        preview 146 | 1F256D07D43628289D57CA3F9D44102B 0D000000 01 02 B0000000 02000000 AABB E0DA92F82BC9D7D762A835C062BBEFD4 | none
        preview 146 | 1F256D07D43628289D57CA3F9D44102B FFFFFFFF 01 02 B0000000 02000000 AABB E0DA92F82BC9D7D762A835C062BBEFD4 | none
        preview 146 | 1F256D07D43628289D57CA3F9D44102C 0C000000 01 02 B0000000 02000000 AABB E0DA92F82BC9D7D762A835C062BBEFD4 | none
        preview 146 | 1F256D07D43628289D57CA3F9D44102B 0C000000 01 02 B0000000 02000000 AABB E0DA92F82BC9D7D762A835C062BBEFD5 | none
        preview 147 | 1F256D07D43628289D57CA3F9D44102B 0C000000 01 02 B0000000 02000000 AABB E0DA92F82BC9D7D762A835C062BBEFD4 | none
        preview 194 | 1F256D07D43628289D57CA3F9D44102B 0C000000 01 02 B0000000 02000000 AABB E0DA92F82BC9D7D762A835C062BBEFD4 | none
        preview 4294967295 | 1F256D07D43628289D57CA3F9D44102B 0C000000 01 02 B0000000 02000000 AABB E0DA92F82BC9D7D762A835C062BBEFD4 | none";
    hold::<PreviewCases>(rt.alloc(), cases)
}

#[test]
fn laws_of_previews_ask_for_nothing() {
    preview_laws();
}
