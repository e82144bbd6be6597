//! Whole drawings whose maps have several pages, and writing that fails. What the program makes of other files stands in
//! `tools/tests/cases`.

use crate::tests::inputs::canonical_file;
use crate::tests::objmap::{long_map, sink};
use crate::tests::reported;
use dwg_base::{Items, LIMIT, MemSink};
use dwg_check::check;
use dwg_file::{
    Drawing, Parts, Plan, canonical_laws, carrying_laws, drawing_laws, read_drawing,
    short_damage_laws,
};
use dwg_testkit::{Case, Line, Report, bytes_of, frame_of, hold};
use std::alloc::Global;
use std::test::Fail;

/// The header of a file of 1,100 dictionaries.
const LONG: &str =
    "41433130313500000000000000920000000000000003000000004600000026000000016C0000002600000002C4480000A8080000FE06 \
    95A04E2899821AE55E41E05F9D3A4D00";

/// The same with an unknown section, the first 9,000 bytes of the file.
const LONG_WITH_SECTION: &str =
    "41433130313500000000000000000000000000000004000000004F0000002600000001750000002600000002C4480000A8080000 \
    090000000028230000D521 95A04E2899821AE55E41E05F9D3A4D00";

/// A dictionary of a handle.
const DICTIONARY: &str = "'10 '10 '10 '10 00 / 4.0 3.0";

/// The frame of a dictionary of a handle.
fn dictionary(alloc: Global, handle: u32) -> Option<Vec<u8>> {
    let text = format!(in alloc; "42 {handle:X} : {DICTIONARY}").ok()?;
    frame_of(alloc, text.as_str())
}

/// Adds the bytes of the smallest file from place 70 up to another, so many zeros, and the frames of dictionaries of the handles from 1 to
/// 1,100.
fn push_frames(alloc: Global, file: &mut Vec<u8>, end: usize, zeros: usize) -> Option<()> {
    let smallest = canonical_file(alloc, "-", "-")?;
    file.extend_from_slice(smallest.get(70..end)?).ok()?;
    for _ in 0..zeros {
        file.push(0).ok()?;
    }
    for handle in 1..1_101u32 {
        file.extend_from_slice(&dictionary(alloc, handle)?).ok()?;
    }
    Some(())
}

/// The file of dictionaries of the handles from 1 to 1,100, whose map has two pages, before its map.
fn prefix_of_long_file(alloc: Global) -> Option<Vec<u8>> {
    let mut file = bytes_of(alloc, LONG)?;
    push_frames(alloc, &mut file, 183, 0)?;
    Some(file)
}

/// That file.
fn long_file(alloc: Global) -> Option<Vec<u8>> {
    let mut file = prefix_of_long_file(alloc)?;
    file.extend_from_slice(&long_map(alloc)?).ok()?;
    Some(file)
}

/// The file of these dictionaries and of an unknown section, in which zeros stand after the classes.
fn long_file_with_section(alloc: Global) -> Option<Vec<u8>> {
    let mut file = bytes_of(alloc, LONG_WITH_SECTION)?;
    push_frames(alloc, &mut file, 146, 28)?;
    file.extend_from_slice(&long_map(alloc)?).ok()?;
    Some(file)
}

/// The bytes of a file of that name: a canonical file by its frames, or one of these two.
fn named(alloc: Global, name: &str) -> Option<Vec<u8>> {
    match name {
        "long" => long_file(alloc),
        "long with a section" => long_file_with_section(alloc),
        _ => canonical_file(alloc, "-", name),
    }
}

/// Sends the canonical file of a plan, and says whether the sink took it whole.
fn send(plan: &mut Plan<'_, '_>, sink: &mut MemSink) -> bool {
    plan.write_to(sink).is_ok()
}

/// The bytes that a plan sends, as many as it says.
fn sent(alloc: Global, plan: &mut Plan<'_, '_>) -> Option<Vec<u8>> {
    let size = plan.size() as usize;
    let mut sink = sink(alloc, size)?;
    if !send(plan, &mut sink) || sink.bytes().len() != size {
        return None;
    }
    Vec::from_slice(alloc, sink.bytes()).ok()
}

/// Whether a call of a sink fails that takes at most a thousand bytes a call of the file that a plan sends, if the sink holds a prefix of
/// it then, and all of it exactly where no call failed.
fn fails_at(alloc: Global, plan: &mut Plan<'_, '_>, file: &[u8], call: u64) -> Option<bool> {
    let mut fails = Items::new(alloc);
    fails.push(call).ok()?;
    let mut sink = MemSink::new(alloc, file.len(), 1_000, fails).ok()?;
    let whole = send(plan, &mut sink);
    if !file.starts_with(sink.bytes()) || whole != (sink.bytes().len() == file.len()) {
        return None;
    }
    Some(!whole)
}

/// Reports how many calls there are of that sink, if after a fault in each of them the plan sends the whole file.
fn report_faults(alloc: Global, plan: &mut Plan<'_, '_>, report: &mut Report) -> Option<()> {
    let file = sent(alloc, plan)?;
    for before in 0..1_000u64 {
        if !fails_at(alloc, plan, &file, before + 1)? {
            report.number(before);
            return Some(());
        }
        if sent(alloc, plan)?.as_slice() != file.as_slice() {
            return None;
        }
    }
    None
}

/// Reports lead, mark, code page, header variables, and the numbers of classes.
fn report_prefix(parts: &Parts<'_>, report: &mut Report) {
    report.bytes(&parts.lead);
    report.bytes(&parts.mark);
    report.number(u64::from(parts.code_page));
    report.bytes(parts.variables.as_slice());
    for class in parts.classes.as_slice() {
        report.number(u64::from(class.number));
    }
}

/// Reports all parts of a drawing.
fn report_parts(parts: &Parts<'_>, report: &mut Report) {
    report_prefix(parts, report);
    for other in parts.others.as_slice() {
        report.number(u64::from(other.number));
        report.bytes(other.bytes.as_slice());
    }
    for object in parts.objects.as_slice() {
        reported::object(report, object);
    }
}

/// Reports all parts of the drawing that bytes spell.
fn report_read(alloc: Global, bytes: &[u8], report: &mut Report) -> Option<()> {
    if bytes.len() as u64 > LIMIT {
        return None;
    }
    match read_drawing(alloc, bytes) {
        Ok(drawing) => {
            report_parts(drawing.parts(), report);
            Some(())
        }
        Err(_) => None,
    }
}

/// Reports whether what is sent of a drawing is read as the same parts.
fn report_again(alloc: Global, parts: &Parts<'_>, file: &[u8], report: &mut Report) -> Option<()> {
    let mut before = Report::new(alloc);
    report_parts(parts, &mut before);
    let mut after = Report::new(alloc);
    report_read(alloc, file, &mut after)?;
    report.truth(before.text() == after.text());
    Some(())
}

/// Reports what is asked of the plan of the drawing that a file spells.
fn report_plan(
    alloc: Global,
    drawing: &Drawing<'_>,
    plan: &mut Plan<'_, '_>,
    file: &[u8],
    ask: &str,
    report: &mut Report,
) -> Option<()> {
    match ask {
        "sent" => {
            report.truth(sent(alloc, plan)?.as_slice() == file);
            Some(())
        }
        "again" => report_again(alloc, drawing.parts(), &sent(alloc, plan)?, report),
        "faults" => report_faults(alloc, plan, report),
        _ => None,
    }
}

/// Reports what is asked of the drawing that a file spells.
fn report_drawing(
    alloc: Global,
    drawing: &Drawing<'_>,
    file: &[u8],
    ask: &str,
    report: &mut Report,
) -> Option<()> {
    match Plan::prepare(alloc, drawing) {
        Ok(plan) => {
            let mut plan = plan;
            report_plan(alloc, drawing, &mut plan, file, ask, report)
        }
        Err(_) => None,
    }
}

/// What is asked of the drawing that a file spells, which is its frames, or `long`, or `long with a section`:
/// - `sent | FILE`: whether its canonical file is the file itself;
/// - `again | FILE`: whether its canonical file is read as the same parts;
/// - `faults | FILE`: how many calls a sink takes that takes at most a thousand bytes a call, if each of them can fail and the whole file is
///   sent then.
struct FileCases;

impl Case for FileCases {
    fn report(line: &mut Line<'_>, report: &mut Report) -> Option<()> {
        let bytes = named(line.alloc, line.field(1)?)?;
        if bytes.len() as u64 > LIMIT {
            return None;
        }
        match read_drawing(line.alloc, &bytes) {
            Ok(drawing) => report_drawing(line.alloc, &drawing, &bytes, line.name(), report),
            Err(_) => None,
        }
    }
}

#[test]
fn a_long_file_is_read_and_written(rt: HostRuntime) -> Result<(), Fail> {
    drawing_laws();
    canonical_laws();
    carrying_laws();
    short_damage_laws();
    let cases = "
        sent | long | yes
        again | long with a section | yes";
    hold::<FileCases>(rt.alloc(), cases)
}

#[test]
fn a_file_is_sent_whole_after_a_fault_in_each_call(rt: HostRuntime) -> Result<(), Fail> {
    let cases = "
        # One piece before the map, and a page with pairs and one without, in a piece each; four pieces of 4,096 bytes before the map and
        # one of fewer, in five calls each and in three, three pages, in three calls, one and one, and the unknown section in two pieces,
        # each in five.
        faults | 42 C : '10 '10 '10 '10 00 / 4.0 3.0 | 3
        faults | long with a section | 38";
    hold::<FileCases>(rt.alloc(), cases)
}

/// Of the file of 1,100 dictionaries where its map stands, the length, and the check word from 0.
fn numbers_of_long_file(alloc: Global) -> Option<(usize, usize, u16)> {
    let prefix = prefix_of_long_file(alloc)?;
    let file = long_file(alloc)?;
    Some((prefix.len(), file.len(), check(0, &file)))
}

#[test]
fn a_map_of_two_pages_stands_after_the_frames(rt: HostRuntime) {
    assert_eq!(rt;
        numbers_of_long_file(rt.alloc()),
        Some((18_628, 20_844, 0x4FB5))
    );
}
