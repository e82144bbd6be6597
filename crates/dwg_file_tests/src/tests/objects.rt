//! Objects and their frames.

ghost use Rattle.std.specs.Prelude.{◌≡◌, ◌*◌, ◌^◌, ◌<◌, ◌≤◌, [], length, IfSome};
ghost use Rattle.dwg_object.specs.Objects.{value_of};
ghost use Rattle.dwg_object.specs.Written.{PartsFit, body_bytes};

use crate::tests::inputs::{classes_of, frame};
use crate::tests::reported;
use dwg_base::{Fault, Handle, Items, NoMemory, Version};
use dwg_bits::BitSink;
use dwg_classes::Class;
use dwg_codes::BytePart;
use dwg_object::{
    Found, Object, Raw, Span, frame_laws, frame_length, read_body, read_frame, span_at, write_frame,
};
use dwg_testkit::{Case, Line, Report, bytes_of, hold};
use std::alloc::Global;
use std::test::Fail;

/// What is reported of what was read.
pub(crate) trait Words<T> {
    /// Reports it.
    fn report_of(alloc: Global, read: &T, report: &mut Report) -> Option<()>;
}

/// Reports what was read, or the fault. Of any type, since a function that drops an object of all its kinds is dear to prove.
pub(crate) fn report_answer<W: Words<T>, T: Drop>(
    alloc: Global,
    answer: Result<T, Fault>,
    report: &mut Report,
) -> Option<()> {
    match answer {
        Ok(read) => W::report_of(alloc, &read, report),
        Err(fault) => {
            report.fault(fault);
            Some(())
        }
    }
}

/// Lets go of a value, of any type for the same reason.
fn let_go<T: Drop>(_value: T) {}

/// The version of a number: 14 or 15.
pub(crate) fn version_of(number: u64) -> Option<Version> {
    match number {
        14 => Some(Version::Ac1014),
        15 => Some(Version::Ac1015),
        _ => None,
    }
}

/// The version of a line's first number.
fn version_in(line: &mut Line<'_>) -> Option<Version> {
    let [version, ..] = line.numbers()?;
    version_of(version)
}

/// What is reported of a frame: the type number of the object, its own handle, its kind and its form (`reported::object`), and the end of
/// the frame.
struct Whole;

impl Words<Found<'_>> for Whole {
    fn report_of(_alloc: Global, found: &Found<'_>, report: &mut Report) -> Option<()> {
        reported::numbered_object(report, &found.object);
        report.number(found.end);
        Some(())
    }
}

/// What is reported of a body: the same of the object, or `none`.
impl Words<Option<Object<'_>>> for Whole {
    fn report_of(_alloc: Global, object: &Option<Object<'_>>, report: &mut Report) -> Option<()> {
        match object {
            Some(object) => reported::numbered_object(report, object),
            None => report.word("none"),
        }
        Some(())
    }
}

/// Reports what is read of the frame at a place, of the pair 7.
fn report_frame(
    alloc: Global,
    bytes: &[u8],
    place: u64,
    classes: &[Class],
    version: Version,
    report: &mut Report,
) -> Option<()> {
    let found = read_frame(alloc, bytes, place, 7, classes, version);
    report_answer::<Whole, Found<'_>>(alloc, found, report)
}

/// `placed VERSION PLACE | BYTES`: what is read of the frame at the place.
fn case_placed(line: &mut Line<'_>, report: &mut Report) -> Option<()> {
    let [version, place, ..] = line.numbers()?;
    let version = version_of(version)?;
    report_frame(line.alloc, &line.bytes(1)?, place, &[], version, report)
}

/// The classes of a text, none where there is no text.
fn classes_in(alloc: Global, text: Option<&str>) -> Option<Items<Class>> {
    match text {
        Some(text) => classes_of(alloc, text),
        None => Some(Items::new(alloc)),
    }
}

/// `frame VERSION | FRAME` or `frame VERSION | FRAME | CLASSES`: what is read of a frame at 0 in a drawing with these classes,
/// `NUMBER NAME ITEM`.
fn case_frame(line: &mut Line<'_>, report: &mut Report) -> Option<()> {
    let version = version_in(line)?;
    let bytes = frame(line.alloc, line.field(1)?)?;
    let classes = classes_in(line.alloc, line.field(2))?;
    report_frame(line.alloc, &bytes, 0, classes.as_slice(), version, report)
}

/// What is read of a body, which has less than a hundred bytes.
fn body_of<'a>(
    alloc: Global,
    body: &'a [u8],
    version: Version,
) -> Result<Option<Object<'a>>, Fault> {
    if body.len() >= 100 {
        return Err(Fault::NoMemory);
    }
    match read_body(alloc, body, &[], version) {
        Ok(object) => Ok(object),
        Err(NoMemory) => Err(Fault::NoMemory),
    }
}

/// `body VERSION | BODY`: what is read of a body alone.
fn case_body(line: &mut Line<'_>, report: &mut Report) -> Option<()> {
    let body = line.bytes(1)?;
    let object = body_of(line.alloc, &body, version_in(line)?);
    report_answer::<Whole, Option<Object<'_>>>(line.alloc, object, report)
}

/// An empty sink with room for so many bytes.
fn sink_for(alloc: Global, count: u64) -> Option<BitSink>
    requires { count < 2 ^ 30 }
    ensures empty { IfSome result (λ sink. sink.written ≡ []) }
    ensures room { IfSome result (λ sink. 8 * count ≤ sink.spare) }
{
    let mut sink = BitSink::new(alloc);
    if sink.reserve(8 * count) {
        Some(sink)
    } else {
        None
    }
}

/// What is written as the frame of an object in a version, if that is as long as is said before.
fn written(alloc: Global, object: &Object<'_>, version: Version) -> Option<BitSink>
    requires fits { PartsFit version (value_of object.now) }
    requires few { length (body_bytes version (value_of object.now)) < 2 ^ 29 }
{
    let length = frame_length(object, version);
    let mut sink = sink_for(alloc, length)?;
    write_frame(object, version, &mut sink);
    if sink.length() != 8 * length {
        return None;
    }
    Some(sink)
}

/// What is written in a version as the frame of an object of number 42 that keeps a body of less than 100,000 bytes as it is.
fn raw_written(alloc: Global, handle: Handle, body: &[u8], version: Version) -> Option<BitSink> {
    if handle.value() == 0 || body.len() >= 100_000 {
        return None;
    }
    let object = Object::Raw(Raw {
        number: 42,
        handle,
        bytes: BytePart::Lent(body),
    });
    let sink = written(alloc, &object, version);
    let_go(object);
    sink
}

/// The whole bytes of a sink.
fn bytes_in(alloc: Global, sink: &BitSink) -> Option<Vec<u8>> {
    if sink.length() % 8 != 0 {
        return None;
    }
    Vec::from_slice(alloc, sink.as_bytes()).ok()
}

/// The bytes that are written in a version as the frame of the object C with that body.
fn frame_written(alloc: Global, body: &[u8], version: Version) -> Option<Vec<u8>> {
    bytes_in(alloc, &raw_written(alloc, Handle::new(12)?, body, version)?)
}

/// `written VERSION | BODY`: the frame that is written of a body.
fn case_written(line: &mut Line<'_>, report: &mut Report) -> Option<()> {
    let frame = frame_written(line.alloc, &line.bytes(1)?, version_in(line)?)?;
    report.bytes(&frame);
    Some(())
}

/// What is written in a version of the object of a frame of that version, which has less than a thousand bytes.
fn written_anew(alloc: Global, bytes: &[u8], version: Version) -> Option<BitSink> {
    if bytes.len() >= 1_000 {
        return None;
    }
    match read_frame(alloc, bytes, 0, 0, &[], version) {
        Ok(found) => {
            let sink = written(alloc, &found.object, version);
            let_go(found);
            sink
        }
        Err(_) => None,
    }
}

/// `again VERSION | FRAME | FRAME`: how long the frame is that is written of the object of the first, and whether it is the second.
fn case_again(line: &mut Line<'_>, report: &mut Report) -> Option<()> {
    let before = frame(line.alloc, line.field(1)?)?;
    let sink = written_anew(line.alloc, &before, version_in(line)?)?;
    let after = bytes_in(line.alloc, &sink)?;
    report.number(after.len() as u64);
    report.truth(after.as_slice() == frame(line.alloc, line.field(2)?)?.as_slice());
    Some(())
}

/// A body of that length.
fn long_body(alloc: Global, length: u64) -> Option<Vec<u8>> {
    let mut body = bytes_of(alloc, "425280000000432A80100C00")?;
    for _ in 12..length {
        body.push(0x55).ok()?;
    }
    Some(body)
}

/// `long VERSION LENGTH`: of a body of that length, which begins as one of a number that no kind has and goes on with bytes 55, the begin
/// of the frame that is written, and what is read of the frame.
fn case_long(line: &mut Line<'_>, report: &mut Report) -> Option<()> {
    let [version, length, ..] = line.numbers()?;
    let version = version_of(version)?;
    let frame = frame_written(line.alloc, &long_body(line.alloc, length)?, version)?;
    report.bytes(frame.get(..4)?);
    report_frame(line.alloc, &frame, 0, &[], version, report)
}

/// What is tried is told at the functions. A version is 14 for AC1014, or 15.
pub(crate) struct ObjectCases;

impl Case for ObjectCases {
    fn report(line: &mut Line<'_>, report: &mut Report) -> Option<()> {
        match line.name() {
            "placed" => case_placed(line, report),
            "frame" => case_frame(line, report),
            "body" => case_body(line, report),
            "written" => case_written(line, report),
            "again" => case_again(line, report),
            "long" => case_long(line, report),
            _ => None,
        }
    }
}

#[test]
fn a_frame_is_read_by_the_rules_of_a_version(rt: HostRuntime) -> Result<(), Fail> {
    let cases = "
        # The frames of a dictionary in AC1014 and in AC1015, each after the bytes of both versions: these report nothing.
        placed 14 6 | 414331303134 0B00 4A8043248000000A004030 FCA7 | 42 xC DICTIONARY typed 21
        placed 14 6 | 414331303135 0B00 4A8043248000000A004030 FCA7 | 42 xC DICTIONARY typed 21
        placed 14 6 | 414331303134 0C00 4A9280000000432A80100C00 1F49 | refused 31 7 6
        placed 14 6 | 414331303135 0C00 4A9280000000432A80100C00 1F49 | refused 31 7 6
        placed 14 6 | 414331303134 0B00 4A8043248000000A004030 FCA8 | refused 30 7 6
        placed 14 6 | 414331303134 0B00 4A8043248000000A004030 FC | refused 28 7 6
        placed 15 6 | 414331303134 0B00 4A8043248000000A004030 FCA7 | refused 31 7 6
        placed 15 6 | 414331303135 0B00 4A8043248000000A004030 FCA7 | refused 31 7 6
        placed 15 6 | 414331303134 0C00 4A9280000000432A80100C00 1F49 | 42 xC DICTIONARY typed 22
        placed 15 6 | 414331303135 0C00 4A9280000000432A80100C00 1F49 | 42 xC DICTIONARY typed 22";
    hold::<ObjectCases>(rt.alloc(), cases)
}

#[test]
fn a_frame_is_read_where_it_stands(rt: HostRuntime) -> Result<(), Fail> {
    frame_laws();
    let cases = "
        # A dictionary; the same among other bytes, before a frame without a body; and after a length that is spelled in four units.
        placed 15 0 | 0C00 4A9280000000432A80100C00 1F49 | 42 xC DICTIONARY typed 16
        placed 15 3 | FF000C 0C00 4A9280000000432A80100C00 1F49 000051C0 | 42 xC DICTIONARY typed 19
        placed 15 0 | 0C80008000800000 4A9280000000432A80100C00 1A0F | 42 xC DICTIONARY typed 22";
    hold::<ObjectCases>(rt.alloc(), cases)
}

#[test]
fn the_first_line_that_fails_is_named(rt: HostRuntime) -> Result<(), Fail> {
    let cases = "
        # Places at and after the end of the input; frames and lengths that are cut off; wrong check words; no body.
        placed 15 16 | 0C00 4A9280000000432A80100C00 1F49 | refused 27 7 16
        placed 15 9223372036854775808 | 0C00 4A9280000000432A80100C00 1F49 | refused 27 7 9223372036854775808
        placed 15 18446744073709551615 | 0C00 4A9280000000432A80100C00 1F49 | refused 27 7 18446744073709551615
        placed 15 0 | - | refused 27 7 0
        placed 15 0 | 0C00 4A9280000000432A80100C00 1F | refused 28 7 0
        placed 15 15 | 0C00 4A9280000000432A80100C00 1F49 | refused 28 7 15
        placed 15 0 | 0C800080008000 | refused 28 7 0
        placed 15 0 | FFFFFFFFFFFFFFFFFFFFFFFFFFFFFFFFFFFFFFFF | refused 28 7 0
        placed 15 0 | 0C00 4A9280000000432A80100C01 1F49 | refused 30 7 0
        placed 15 0 | 0000 50C0 | refused 30 7 0
        placed 15 0 | 0000 51C0 | refused 31 7 0";
    hold::<ObjectCases>(rt.alloc(), cases)
}

/// Where the parts of a frame stand that begins at 3, among other bytes.
fn span_among_others(alloc: Global) -> Option<Span> {
    let bytes = bytes_of(alloc, "FF000C 0C00 4A9280000000432A80100C00 1F49 000051C0")?;
    span_at(&bytes, 3, 0).ok()
}

#[test]
fn the_parts_of_a_frame_are_found(rt: HostRuntime) {
    let span = Span {
        from: 3,
        body: 5,
        body_end: 17,
        end: 19,
    };
    assert_eq!(rt; span_among_others(rt.alloc()), Some(span));
}

#[test]
fn an_object_is_read_with_its_common_part_where_it_has_one(rt: HostRuntime) -> Result<(), Fail> {
    let cases = "
        # A dictionary; an entity; the same, spelled longer than is needed, with a one after its references; the same with the mode 3, which
        # no entity has; and an object of whose number no class speaks.
        frame 15 | 42 C : '10 '10 '10 '10 00 / 4.0 3.0 | 42 xC DICTIONARY typed 16
        frame 15 | 45 80 : ENTITY '101 / 3.0 5.10 | 45 x80 ENTITY plain 3 0 18
        frame 15 | 2000 0B4035C0000000802000000480400010000000000003C0FC1001DA6200A40021 5338 | 45 x80 ENTITY plain 3 0 36
        frame 15 | 45 80 : '10 '0 '11 '10 '1 '11 '01 '00 '00 '10 1D '101 / 3.0 5.10 | 45 x80 ENTITY raw 14 18
        frame 15 | 500 90 : '01 02 5.12 AABB '10 '01 02 '0110 / 4.1 4.2 C.10 3.D 2.33 | 500 x90 UNKNOWN raw 26 30
        # An object of a class of objects or of records, and no entity where the class says so.
        frame 15 | 500 90 : '01 02 5.12 AABB '10 '01 02 '0110 / 4.1 4.2 C.10 3.D 2.33 | 500 WIPEOUT 499 | 500 x90 OBJECT plain 4 1 30
        frame 15 | 500 90 : '01 02 5.12 AABB '10 '01 02 '0110 / 4.1 4.2 C.10 3.D 2.33 | 500 XRECORD 499 | 500 x90 OBJECT plain 4 1 30
        frame 15 | 500 90 : '01 02 5.12 AABB '10 '01 02 '0110 / 4.1 4.2 C.10 3.D 2.33 | 500 WIPEOUT 498 | 500 x90 UNKNOWN raw 26 30";
    hold::<ObjectCases>(rt.alloc(), cases)
}

#[test]
fn a_body_is_read_by_the_rules_of_a_version(rt: HostRuntime) -> Result<(), Fail> {
    let cases = "
        # A dictionary as AC1014 and as AC1015 spell it, of which each has no head in the other; one whose bit size is too great.
        body 14 | 4A8043248000000A004030 | 42 xC DICTIONARY typed
        body 14 | 4A9280000000432A80100C00 | none
        body 14 | 4A80432F8000000A004030 | 42 xC DICTIONARY raw 11
        body 15 | 4A8043248000000A004030 | none";
    hold::<ObjectCases>(rt.alloc(), cases)
}

#[test]
fn a_bit_size_within_or_before_what_it_counts_leaves_a_raw_object(
    rt: HostRuntime,
) -> Result<(), Fail> {
    let cases = "
        # A dictionary with application data, which end before bit 62; its bit size is 106. It says 0, an end within these, one within
        # itself, the place after itself, one bit less than is right, sixteen more, and as much as it can.
        body 14 | 4A80431015112419A800000280100C00 | 42 xC DICTIONARY typed
        body 14 | 4A804310151124180000000280100C00 | 42 xC DICTIONARY raw 16
        body 14 | 4A80431015112418E400000280100C00 | 42 xC DICTIONARY raw 16
        body 14 | 4A804310151124197400000280100C00 | 42 xC DICTIONARY raw 16
        body 14 | 4A804310151124197800000280100C00 | 42 xC DICTIONARY raw 16
        body 14 | 4A80431015112419A400000280100C00 | 42 xC DICTIONARY raw 16
        body 14 | 4A80431015112419E800000280100C00 | 42 xC DICTIONARY raw 16
        body 14 | 4A8043101511241BFFFFFFFE80100C00 | 42 xC DICTIONARY raw 16
        # A line with a picture, which ends before bit 77; its bit size is 141. The same of it but for the first and the last two.
        body 14 | 44C0602810000003BBC4680000057B54D549828880 | 19 x80 LINE typed 0 0 0 x3FF^ 0 0
        body 14 | 44C0602810000003BBC2280000057B54D549828880 | 19 x80 LINE raw 21
        body 14 | 44C0602810000003BBC3600000057B54D549828880 | 19 x80 LINE raw 21
        body 14 | 44C0602810000003BBC3680000057B54D549828880 | 19 x80 LINE raw 21
        body 14 | 44C0602810000003BBC4600000057B54D549828880 | 19 x80 LINE raw 21";
    hold::<ObjectCases>(rt.alloc(), cases)
}

#[test]
fn a_body_without_a_head_is_no_object(rt: HostRuntime) -> Result<(), Fail> {
    let cases = "
        # No byte; too few; the own handle 0; a whole one; and one of a number that no kind has.
        body 15 | - | none
        body 15 | 4A9280000000 | none
        body 15 | 4A9280000000402A80100C00 | none
        body 15 | 4A9280000000432A80100C00 | 42 xC DICTIONARY typed
        body 15 | 425280000000432A80100C00 | 9 xC UNKNOWN raw 12";
    hold::<ObjectCases>(rt.alloc(), cases)
}

#[test]
fn a_frame_is_written_by_the_rules_of_a_version(rt: HostRuntime) -> Result<(), Fail> {
    frame_laws();
    let cases = "
        # A dictionary, a line and an ellipse by longer spellings, and an object of a number that no kind has, which is kept as it is; in
        # AC1014 with ones after the references of the ellipse.
        again 14 | 42 C : '00 0000 size '00 00000000 '10 00 / 420000 3.0 | 42 C : '10 size '10 '10 00 / 4.0 3.0 | 15 yes
        again 14 | 19 80 : '00 0000 '0 size '10 '00 00000000 '1 '1 '00 0001 '00 ^F03F '01 00 A9 AA '1001 / 320000 520010 \
            | 19 80 : '10 '0 size OLDER A9 AA '1001 / 3.0 5.10 | 19 yes
        again 14 | 35 80 : '10 '0 size OLDER A9 AA 59 / 33000000 5.10 '1111111 | 35 80 : '10 '0 size OLDER A9 AA 59 / 3.0 5.10 | 20 yes
        again 14 | 200 80 : 5A size A5 / '11 | 200 80 : 5A size A5 / '11 | 14 yes
        again 15 | 42 C : '10 '00 00000000 '10 '00 0000 00 / 420000 3.0 | 42 C : '10 '10 '10 '10 00 / 4.0 3.0 | 16 yes
        again 15 | 19 80 : ENTITY '0 ^ '11 ^F03F ^ '00 ^ '00 '0 '10 '0 '10 '10 '01 / 320000 5.10 \
            | 19 80 : ENTITY '1 ^ '11 ^F03F ^ '00 '1 '1 / 3.0 5.10 | 43 yes
        again 15 | 35 80 : ENTITY '10 '10 '10 '00 ^F03F '10 '10 '10 '10 '01 '01 '10 '01 / 3.0 5.10 | 35 80 : ENTITY A9 AA 59 / 3.0 5.10 | 21 yes
        again 15 | 200 80 : 5AA5 / '11 | 200 80 : 5AA5 / '11 | 14 yes";
    hold::<ObjectCases>(rt.alloc(), cases)
}

#[test]
fn a_frame_is_written_by_the_shortest_length(rt: HostRuntime) -> Result<(), Fail> {
    let cases = "
        written 15 | 4A9280000000432A80100C00 | :0C004A9280000000432A80100C001F49
        written 14 | 4A9280000000432A80100C00 | :0C004A9280000000432A80100C001F49
        # A length of two units.
        long 15 32768 | :00800100 9 xC UNKNOWN raw 32768 32774";
    hold::<ObjectCases>(rt.alloc(), cases)
}
