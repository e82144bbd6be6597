//! The object map: its pages, its pairs, and the filling of pages.

ghost use Rattle.std.specs.Prelude.{◌≡◌, ◌^◌, ◌<◌, IfSome};
ghost use Rattle.dwg_objmap.specs.MapLines.{HasPage};
ghost use Rattle.dwg_objmap.specs.Writing.{FRESH};

use dwg_base::{Handle, Items, MemSink, WriteFault};
use dwg_objmap::{
    PageWriter, Pair, map_laws, map_length, map_writing_laws, page_holds, page_laws, page_pairs,
    page_size, read_map, read_page,
};
use dwg_testkit::{Case, Line, Report, hold};
use std::alloc::Global;
use std::test::Fail;

/// Reports pairs: of each its handle, and its place.
fn report_pairs(pairs: &[Pair], report: &mut Report) {
    for pair in pairs {
        report.hex(pair.handle.value());
        report.number(pair.place);
    }
}

/// `map PLACE | BYTES`: the pairs that are read of the map at the place.
fn case_map(line: &mut Line<'_>, report: &mut Report) -> Option<()> {
    let [place, ..] = line.numbers()?;
    match read_map(line.alloc, &line.bytes(1)?, place) {
        Ok(pairs) => report_pairs(pairs.as_slice(), report),
        Err(fault) => report.fault(fault),
    }
    Some(())
}

#[test]
fn pairs_are_read_in_map_order(rt: HostRuntime) -> Result<(), Fail> {
    map_laws();
    let cases = "
        # No pairs; one; a second page with a lesser handle, and a place that is written from 0 again; both steps spelled by one byte more
        # than is needed; and the greatest place.
        map 0 | 000201D0 | -
        map 0 | 0005 0CB701 2E77 000201D0 | xC 183
        map 0 | 0004 0510 9D7E 0004 0320 297D 000201D0 | 5 16 3 32
        map 0 | 0007 8C00B78100 D201 000201D0 | xC 183
        map 0 | 000D 01FFFFFFFFFFFFFFFFFF00 2D98 000201D0 | 1 9223372036854775807";
    hold::<MapCases>(rt.alloc(), cases)
}

#[test]
fn names_the_first_line_of_the_map_that_fails(rt: HostRuntime) -> Result<(), Fail> {
    let cases = "
        # Sizes of 0 and 1; the null handle; a handle twice in a page, and in two pages; a place before the begin of the file, and one step
        # after the greatest; a handle one step after the greatest; a pair that the page cuts off; a step of eleven bytes. The place counts
        # from the begin of the input, and no place is too great to ask for.
        map 0 | 000001D0 | refused 22 0 0
        map 0 | 000101D0 | refused 22 0 0
        map 0 | 0005 00B701 2DB7 | refused 25 0 2
        map 0 | 0007 0CB7010010 C2A7 | refused 26 0 5
        map 0 | 0004 0510 9D7E 0006 03200201 EE59 000201D0 | refused 26 1 10
        map 0 | 0004 0C41 31B9 | refused 24 0 2
        map 0 | 000F 01FFFFFFFFFFFFFFFFFF000101 4F68 | refused 24 0 13
        map 0 | 000E FFFFFFFFFFFFFFFF7F000100 DF9B | refused 24 0 12
        map 0 | 0004 0CB7 7739 | refused 24 0 2
        map 0 | 000E 808080808080808080800000 82A5 | refused 24 0 2
        map 3 | FFFFFF 0005 00B701 2DB7 | refused 25 0 5
        map 18446744073709551615 | 0005 0CB701 2E77 000201D0 | refused 21 0 18446744073709551615";
    hold::<MapCases>(rt.alloc(), cases)
}

#[test]
fn a_map_that_is_cut_or_changed_is_refused(rt: HostRuntime) -> Result<(), Fail> {
    let cases = "
        # The map of one pair, cut at each byte, and with one bit of a byte turned.
        map 0 | - | refused 21 0 0
        map 0 | 00 | refused 21 0 0
        map 0 | 0005 | refused 21 0 0
        map 0 | 00050C | refused 21 0 0
        map 0 | 00050CB7 | refused 21 0 0
        map 0 | 00050CB701 | refused 21 0 0
        map 0 | 00050CB7012E | refused 21 0 0
        map 0 | 00050CB7012E77 | refused 21 1 7
        map 0 | 00050CB7012E7700 | refused 21 1 7
        map 0 | 00050CB7012E770002 | refused 21 1 7
        map 0 | 00050CB7012E77000201 | refused 21 1 7
        map 0 | 00050DB7012E77000201D0 | refused 23 0 5
        map 0 | 00050CB7012E76000201D0 | refused 23 0 5
        map 0 | 00050CB7012E77000201D1 | refused 23 1 9";
    hold::<MapCases>(rt.alloc(), cases)
}

/// Where the frame of a handle stands: frames of 16 bytes up to handle 255, and of 17 from 256 on, the first at 183.
fn frame_place(handle: u64) -> u64
    requires { handle < 2_000 }
    ensures { result < 2 ^ 32 }
{
    if handle < 256 {
        return 167 + 16 * handle;
    }
    17 * handle - 89
}

/// A pair of a handle and a place.
fn pair(handle: u64, place: u64) -> Option<Pair>
    ensures { IfSome result (λ pair. pair ≡ record { handle = handle; place = place }) }
{
    match Handle::new(handle) {
        Some(handle) => Some(Pair { handle, place }),
        None => None,
    }
}

/// Writes the map of the handles from 1 to `count` by a writer that was given no pair yet, and says whether the sink took it whole.
fn fill_map(writer: &mut PageWriter, count: u64, sink: &mut MemSink) -> Option<bool>
    requires few { count < 2_000 }
    requires fresh { writer.old ≡ FRESH }
{
    'handles: for handle in 0..count {
        let next = pair(handle + 1, frame_place(handle + 1))?;
        match writer.put(next, sink) {
            Ok(()) => {}
            Err(WriteFault) => return Some(false),
        }
    }
    Some(writer.end(sink).is_ok())
}

/// A sink with room for so many bytes, which takes them in pieces.
pub(crate) fn sink(alloc: Global, room: usize) -> Option<MemSink> {
    MemSink::new(alloc, room, 1_000, Items::new(alloc)).ok()
}

/// The map of the handles from 1 to 1,100 that a writer writes that was given no pair yet.
fn map_by(alloc: Global, writer: &mut PageWriter) -> Option<Vec<u8>>
    requires { writer.old ≡ FRESH }
{
    let mut sink = sink(alloc, 4_000)?;
    if !fill_map(writer, 1_100, &mut sink)? {
        return None;
    }
    Vec::from_slice(alloc, sink.bytes()).ok()
}

/// That map by a writer of its own.
pub(crate) fn long_map(alloc: Global) -> Option<Vec<u8>> {
    let mut writer = PageWriter::new(alloc).ok()?;
    map_by(alloc, &mut writer)
}

/// `piece PLACE COUNT`: how many bytes that map has, and so many of them from the place on.
fn case_piece(line: &mut Line<'_>, report: &mut Report) -> Option<()> {
    let [place, count, ..] = line.numbers()?;
    let map = long_map(line.alloc)?;
    let after = map.get(place.min(10_000) as usize..)?;
    report.number(map.len() as u64);
    report.bytes(after.get(..count.min(10_000) as usize)?);
    Some(())
}

#[test]
fn pages_are_filled(rt: HostRuntime) -> Result<(), Fail> {
    map_writing_laws();
    let cases = "
        # The sizes and the check words of both pages, and the page that ends the map.
        piece 0 2 | 2216 :07EF
        piece 2031 4 | 2216 :F31900B1
        piece 2210 6 | 2216 :1206000201D0";
    hold::<MapCases>(rt.alloc(), cases)
}

/// `page PLACE`: how many pairs the page at the place of that map has, and the place after it.
fn case_page(line: &mut Line<'_>, report: &mut Report) -> Option<()> {
    let [place, ..] = line.numbers()?;
    let page = read_page(line.alloc, &long_map(line.alloc)?, place, 0).ok()?;
    report.number(page.pairs.as_slice().len() as u64);
    report.number(page.next);
    Some(())
}

/// How many pairs there are, if each is that of the frame of its handle.
fn count_in_place(pairs: &[Pair]) -> Option<usize> {
    for pair in pairs {
        let handle = pair.handle.value();
        if handle >= 2_000 || pair.place != frame_place(handle) {
            return None;
        }
    }
    Some(pairs.len())
}

/// How many pairs are read of that map, if each is that of the frame of its handle.
fn pairs_of_long_map(alloc: Global) -> Option<usize> {
    match read_map(alloc, &long_map(alloc)?, 0) {
        Ok(pairs) => count_in_place(pairs.as_slice()),
        Err(_) => None,
    }
}

#[test]
fn pages_that_were_filled_are_read(rt: HostRuntime) -> Result<(), Fail> {
    assert_eq!(rt; pairs_of_long_map(rt.alloc()), Some(1_100));
    let cases = "
        page 0 | 1014 2033
        page 2033 | 86 2212
        page 2212 | 0 2216";
    hold::<MapCases>(rt.alloc(), cases)
}

/// Reports what a writer that was given no pair yet writes where it is ended at once.
fn report_end(alloc: Global, writer: &mut PageWriter, report: &mut Report) -> Option<()>
    requires { writer.old ≡ FRESH }
{
    let mut sink = sink(alloc, 5)?;
    writer.end(&mut sink).ok()?;
    report.bytes(sink.bytes());
    Some(())
}

/// Reports how many bytes of that map a sink of so much room takes of a writer that was given no pair yet, and whether that is all.
fn report_taken(
    alloc: Global,
    writer: &mut PageWriter,
    room: u64,
    report: &mut Report,
) -> Option<()>
    requires { writer.old ≡ FRESH }
{
    let mut short = sink(alloc, room.min(10_000) as usize)?;
    let whole = fill_map(writer, 1_100, &mut short)?;
    report.number(short.bytes().len() as u64);
    report.truth(whole);
    Some(())
}

/// Reports all that `restart` says of a writer that was given no pair yet.
fn report_restarts(
    alloc: Global,
    writer: &mut PageWriter,
    room: u64,
    report: &mut Report,
) -> Option<()>
    requires { writer.old ≡ FRESH }
{
    report_taken(alloc, writer, room, report)?;
    writer.restart();
    report.truth(map_by(alloc, writer)?.as_slice() == long_map(alloc)?.as_slice());
    writer.restart();
    report_end(alloc, writer, report)
}

/// `restart ROOM`: how many bytes of that map a sink of so much room takes, and whether that is all; whether the same writer, restarted,
/// writes that map; and what it writes, restarted after its end, where it is ended without a pair.
fn case_restart(line: &mut Line<'_>, report: &mut Report) -> Option<()> {
    let [room, ..] = line.numbers()?;
    let mut writer = PageWriter::new(line.alloc).ok()?;
    report_restarts(line.alloc, &mut writer, room, report)
}

#[test]
fn a_writer_begins_anew_after_a_fault_and_after_its_end(rt: HostRuntime) -> Result<(), Fail> {
    let cases = "
        # A map that isn't taken whole is a fault.
        restart 0 | 0 no yes :000201D0
        restart 1 | 1 no yes :000201D0
        restart 2032 | 2032 no yes :000201D0
        restart 2033 | 2033 no yes :000201D0
        restart 2215 | 2215 no yes :000201D0
        restart 4000 | 2216 yes yes :000201D0";
    hold::<MapCases>(rt.alloc(), cases)
}

/// The pairs that recovery reads of a page at a place.
fn pairs_past_faults(alloc: Global, bytes: &[u8], place: u64) -> Option<Items<Pair>>
    requires { HasPage bytes.now place }
{
    page_pairs(alloc, bytes, place).ok()
}

/// Reports what recovery reads of the page at a place.
fn report_damaged(alloc: Global, bytes: &[u8], place: u64, report: &mut Report) -> Option<()> {
    let Some(size) = page_size(bytes, place) else {
        report.word("none");
        return Some(());
    };
    let right = page_holds(bytes, place);
    let pairs = pairs_past_faults(alloc, bytes, place)?;
    report.number(u64::from(size));
    report.word(if right { "right" } else { "wrong" });
    report_pairs(pairs.as_slice(), report);
    Some(())
}

/// `damaged PLACE | BYTES`: what recovery reads of the page at the place: its size, whether its check word is right, and its pairs; or
/// `none`.
fn case_damaged(line: &mut Line<'_>, report: &mut Report) -> Option<()> {
    let [place, ..] = line.numbers()?;
    report_damaged(line.alloc, &line.bytes(1)?, place, report)
}

/// What is tried is told at the functions.
struct MapCases;

impl Case for MapCases {
    fn report(line: &mut Line<'_>, report: &mut Report) -> Option<()> {
        match line.name() {
            "map" => case_map(line, report),
            "piece" => case_piece(line, report),
            "page" => case_page(line, report),
            "restart" => case_restart(line, report),
            "damaged" => case_damaged(line, report),
            _ => None,
        }
    }
}

#[test]
fn pages_are_read_past_their_faults(rt: HostRuntime) -> Result<(), Fail> {
    page_laws();
    let cases = "
        # A right page; a wrong check word; a handle that is repeated; the null handle; a second place before the begin of the file; the
        # page that ends the map; a size of 1; a page that is cut by a byte; a place past the end.
        damaged 0 | 0005 0CB701 2E77 000201D0 | 5 right xC 183
        damaged 0 | 0005 0CB701 2E76 | 5 wrong xC 183
        damaged 0 | 0007 0CB7010010 C2A7 | 7 right xC 183 xC 199
        damaged 0 | 0005 00B701 2DB7 | 5 right 0 183
        damaged 0 | 0008 0CB70101C841 4AB7 | 8 right xC 183
        damaged 0 | 000201D0 | 2 right
        damaged 0 | 000101D0 | none
        damaged 0 | 0005 0CB701 2E | none
        damaged 18446744073709551615 | 0005 0CB701 2E77 000201D0 | none";
    hold::<MapCases>(rt.alloc(), cases)
}

/// The length of the map of three pairs.
fn length_of_three() -> Option<u64> {
    let pairs = [pair(1, 183)?, pair(2, 199)?, pair(300, 20)?];
    Some(map_length(&pairs))
}

#[test]
fn the_length_of_a_map_is_known_before_it_is_written(rt: HostRuntime) {
    assert_eq!(rt; map_length(&[]), 4);
    assert_eq!(rt; length_of_three(), Some(17));
}
