//! Kinds of type numbers, and what classes say of them.

use crate::tests::inputs::classes_of;
use dwg_classes::{Class, Hints, hint};
use dwg_kinds::{ClassHint, Kind, is_entity, kind_laws, kind_of, name_of};
use dwg_testkit::{Case, Line, Report, hold};
use std::alloc::Global;
use std::test::Fail;

/// The number of a line.
fn number_in(line: &mut Line<'_>) -> Option<u16> {
    let [number, ..] = line.numbers()?;
    u16::try_from(number).ok()
}

/// Reports a kind.
fn report_kind(alloc: Global, kind: Kind, report: &mut Report) -> Option<()> {
    report.word(format!(in alloc; "{kind:?}").ok()?.as_str());
    Some(())
}

/// Reports what a class says of a number.
fn report_hint(alloc: Global, hint: ClassHint, report: &mut Report) -> Option<()> {
    report.word(format!(in alloc; "{hint:?}").ok()?.as_str());
    Some(())
}

/// `kind NUMBER`: the kind of a type number whose class, if it has one, makes entities; the name that is printed of the kind; and whether
/// it is one of entities.
fn case_kind(line: &mut Line<'_>, report: &mut Report) -> Option<()> {
    let kind = kind_of(number_in(line)?, ClassHint::Entity);
    report_kind(line.alloc, kind, report)?;
    report.word(name_of(kind));
    report.truth(is_entity(kind));
    Some(())
}

/// What a class can say of a number.
const HINTS: [ClassHint; 6] = [
    ClassHint::Absent,
    ClassHint::Entity,
    ClassHint::Object,
    ClassHint::LwPolyline,
    ClassHint::XRecord,
    ClassHint::Other,
];

/// `hinted NUMBER`: by each of these things the kind of the number.
fn case_hinted(line: &mut Line<'_>, report: &mut Report) -> Option<()> {
    let number = number_in(line)?;
    for hint in HINTS {
        report_hint(line.alloc, hint, report)?;
        report_kind(line.alloc, kind_of(number, hint), report)?;
    }
    Some(())
}

/// What a table of the classes says of a number.
fn found(alloc: Global, classes: &[Class], number: u16) -> Option<ClassHint> {
    let hints = Hints::build(alloc, classes).ok()?;
    Some(hints.hint(number))
}

/// Classes, two of them of one number.
const CLASSES: &str =
    "502 LWPOLYLINE 498, 500 XRECORD 499, 501 WIPEOUT 498, 503 LWPOLYLINE 499, 504 XRECORD 500, 500 WIPEOUT 498";

/// `said NUMBER`: what the list of these classes says of a number, and what a table of them does.
fn case_said(line: &mut Line<'_>, report: &mut Report) -> Option<()> {
    let number = number_in(line)?;
    let classes = classes_of(line.alloc, CLASSES)?;
    report_hint(line.alloc, hint(classes.as_slice(), number), report)?;
    report_hint(
        line.alloc,
        found(line.alloc, classes.as_slice(), number)?,
        report,
    )
}

/// What is tried is told at the functions.
struct KindCases;

impl Case for KindCases {
    fn report(line: &mut Line<'_>, report: &mut Report) -> Option<()> {
        match line.name() {
            "kind" => case_kind(line, report),
            "hinted" => case_hinted(line, report),
            "said" => case_said(line, report),
            _ => None,
        }
    }
}

#[test]
fn a_number_has_a_kind_and_a_name(rt: HostRuntime) -> Result<(), Fail> {
    kind_laws();
    let cases = "
        kind 1 | Text TEXT yes
        kind 7 | Insert INSERT yes
        kind 8 | MInsert MINSERT yes
        kind 11 | Vertex3d VERTEX 3D yes
        kind 16 | Polyline3d POLYLINE 3D yes
        kind 17 | Arc ARC yes
        kind 27 | Point POINT yes
        kind 28 | Face3d 3DFACE yes
        kind 31 | Solid SOLID yes
        kind 32 | Trace TRACE yes
        kind 35 | Ellipse ELLIPSE yes
        kind 40 | Ray RAY yes
        kind 41 | XLine XLINE yes
        kind 42 | Dictionary DICTIONARY no
        kind 49 | BlockHeader BLOCK HEADER no
        kind 67 | AppId APPID no
        kind 72 | Group GROUP no
        kind 77 | LwPolyline LWPOLYLINE yes
        kind 79 | XRecord XRECORD no
        kind 10 | PlainEntity ENTITY yes
        kind 12 | PlainEntity ENTITY yes
        kind 15 | PlainEntity ENTITY yes
        kind 20 | PlainEntity ENTITY yes
        kind 26 | PlainEntity ENTITY yes
        kind 29 | PlainEntity ENTITY yes
        kind 30 | PlainEntity ENTITY yes
        kind 33 | PlainEntity ENTITY yes
        kind 34 | PlainEntity ENTITY yes
        kind 36 | PlainEntity ENTITY yes
        kind 39 | PlainEntity ENTITY yes
        kind 498 | PlainEntity ENTITY yes
        kind 60 | PlainObject OBJECT no
        kind 71 | PlainObject OBJECT no
        kind 0 | Unknown UNKNOWN no
        kind 9 | Unknown UNKNOWN no
        kind 59 | Unknown UNKNOWN no
        kind 73 | Unknown UNKNOWN no
        kind 499 | Unknown UNKNOWN no";
    hold::<KindCases>(rt.alloc(), cases)
}

#[test]
fn from_500_on_a_class_says_what_a_number_is(rt: HostRuntime) -> Result<(), Fail> {
    let cases = "
        hinted 500 | Absent Unknown Entity PlainEntity Object PlainObject LwPolyline LwPolyline XRecord XRecord Other Unknown
        hinted 65535 | Absent Unknown Entity PlainEntity Object PlainObject LwPolyline LwPolyline XRecord XRecord Other Unknown";
    hold::<KindCases>(rt.alloc(), cases)
}

#[test]
fn the_first_class_of_a_number_says_what_its_objects_are(rt: HostRuntime) -> Result<(), Fail> {
    let cases = "
        said 500 | XRecord XRecord
        said 501 | Entity Entity
        said 502 | LwPolyline LwPolyline
        said 503 | Object Object
        said 504 | Other Other
        said 505 | Absent Absent
        said 0 | Absent Absent";
    hold::<KindCases>(rt.alloc(), cases)
}
