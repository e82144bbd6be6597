//! Classes: read, refused, written and found.

ghost use Rattle.std.specs.Prelude.{◌≤◌, length, IfSome};
ghost use Rattle.dwg_grammar.specs.ToEnd.{short_all};
ghost use Rattle.dwg_classes.specs.Class.{numbered_class};
ghost use Rattle.dwg_classes.specs.WrittenClasses.{AreWritable};

use crate::tests::sinks::{has_room, report_sink};
use dwg_base::{Fault, Items};
use dwg_bits::BitSink;
use dwg_classes::{Class, classes_bits, find, read_classes, write_classes};
use dwg_testkit::{Case, Line, Report, hold};
use std::alloc::Global;
use std::test::Fail;

/// Reports the texts of a class: application, C++ name and DXF name.
fn report_names(class: &Class, report: &mut Report) {
    report.bytes(class.application.as_slice());
    report.bytes(class.cpp_name.as_slice());
    report.bytes(class.dxf_name.as_slice());
}

/// Reports a class.
fn report_class(class: &Class, report: &mut Report) {
    report.number(u64::from(class.number));
    report.number(u64::from(class.version));
    report_names(class, report);
    report.number(u64::from(class.proxy));
    report.number(u64::from(class.item));
}

/// Reports classes.
fn report_classes(classes: &[Class], report: &mut Report) {
    for class in classes {
        report_class(class, report);
    }
    report.word("end");
}

/// The classes of a content.
fn read(alloc: Global, content: &[u8]) -> Result<Items<Class>, Fault> {
    if content.len() > 1_000 {
        return Err(Fault::NoMemory);
    }
    read_classes(alloc, content, 124)
}

/// `read | CONTENT`: what is read of a content at the place 124: of each class the number, the version, the texts, whether its objects were
/// proxies, and the item; `end` after the last
fn case_read(line: &mut Line<'_>, report: &mut Report) -> Option<()> {
    match read(line.alloc, &line.bytes(1)?) {
        Ok(classes) => report_classes(classes.as_slice(), report),
        Err(fault) => report.fault(fault),
    }
    Some(())
}

/// The classes of a content, which can be written.
fn classes_of(alloc: Global, content: &[u8]) -> Option<Items<Class>>
    ensures writable { IfSome result AreWritable }
    ensures no_longer { IfSome result (λ classes. length (short_all numbered_class classes) ≤ 8000) }
{
    if content.len() > 1_000 {
        return None;
    }
    read_classes(alloc, content, 124).ok()
}

/// Reports how classes are written.
fn report_written(alloc: Global, classes: &[Class], report: &mut Report)
    requires writable { AreWritable classes.now }
    requires few { length (short_all numbered_class classes.now) ≤ 8000 }
{
    report.number(classes_bits(classes));
    let mut sink = BitSink::new(alloc);
    if has_room(&mut sink, 8_008) {
        write_classes(classes, &mut sink);
    }
    report_sink(&sink, report);
}

/// `write | CONTENT`: by how many bits its classes are written, and by which bytes
fn case_write(line: &mut Line<'_>, report: &mut Report) -> Option<()> {
    let classes = classes_of(line.alloc, &line.bytes(1)?)?;
    report_written(line.alloc, classes.as_slice(), report);
    Some(())
}

/// Reports the place of a class.
fn report_place(classes: &[Class], number: u64, report: &mut Report) {
    match find(classes, number.min(65_535) as u16) {
        Some(place) => report.number(place as u64),
        None => report.word("none"),
    }
}

/// `find NUMBER | CONTENT`: the place in the list of the first class with this number
fn case_find(line: &mut Line<'_>, report: &mut Report) -> Option<()> {
    let [number, ..] = line.numbers()?;
    let classes = read(line.alloc, &line.bytes(1)?).ok()?;
    report_place(classes.as_slice(), number, report);
    Some(())
}

/// What is tried is told at the functions.
struct ClassCases;

impl Case for ClassCases {
    fn report(line: &mut Line<'_>, report: &mut Report) -> Option<()> {
        match line.name() {
            "read" => case_read(line, report),
            "write" => case_write(line, report),
            "find" => case_find(line, report),
            _ => None,
        }
    }
}

#[test]
fn classes_are_written_as_they_were_read_and_found_by_their_numbers(
    rt: HostRuntime,
) -> Result<(), Fail> {
    let cases = "
        write | 3D006405 05014240 50C79008 | 93 :3D0064050501424050C79008
        # The numbers are 500, 501 and 500.
        find 500 | 3D006405 05014240 50C79009 EA03548F 401AA4 | 0
        find 501 | 3D006405 05014240 50C79009 EA03548F 401AA4 | 1
        find 502 | 3D006405 05014240 50C79009 EA03548F 401AA4 | none";
    hold::<ClassCases>(rt.alloc(), cases)
}

#[test]
fn classes_are_read_or_refused_and_fewer_bits_than_one_has_are_slack(
    rt: HostRuntime,
) -> Result<(), Fail> {
    let cases = "
        # A class of 93 bits with the texts A, B and C, and 3 bits of slack; no class; four classes of 29 bits, and 28 bits of slack.
        read | 3D006405 05014240 50C79008 | 500 0 :41 :42 :43 0 498 end
        read | - | end
        read | FFFFFF | end
        read | 3D006A91 E803548F 401AA47A 00D52FFF FFFF | 500 0 : : : 0 0 500 0 : : : 0 0 500 0 : : : 0 0 500 0 : : : 0 0 end
        # Seven classes of 29 bits, and 29 bits that spell none; a class of 93 bits, and one with the number 499; a class with the number
        # 499, and bits that spell none; the prefix of a class with the number 499; four bytes that spell none.
        read | 3D006A91 E803548F 401AA47A 00D523D0 06A91E80 3548F401 AA400000 00 | refused 19 7 149
        read | 3D006405 05014240 50C79009 E6035480 | refused 20 1 135
        read | 3CC06A90 00000000 00 | refused 20 0 124
        read | 3CC042C0 14 | refused 19 0 124
        read | 00000000 | refused 19 0 124";
    hold::<ClassCases>(rt.alloc(), cases)
}
