//! What objects are, in a few words.

use dwg_codes::Point3;
use dwg_kinds::name_of;
use dwg_object::{Body, Object};
use dwg_testkit::Report;

/// Reports a point by the words of its coordinates.
fn point(report: &mut Report, point: Point3) {
    report.hexes(&[point.x, point.y, point.z]);
}

/// Reports the ends of a line, and nothing of any other body.
fn ends(report: &mut Report, body: &Body) {
    match body {
        Body::Line(line) => {
            point(report, line.start);
            point(report, line.end);
        }
        _ => {}
    }
}

/// Reports the form in which an object was read: `typed`, with the ends of a line; `plain` with how many bits it has of its own, and how
/// many references after those of its common part; or `raw` with how many bytes its body has.
fn form(report: &mut Report, object: &Object<'_>) {
    match object {
        Object::Typed(typed) => {
            report.word("typed");
            ends(report, &typed.body);
        }
        Object::Plain(plain) => {
            report.word("plain");
            report.number(plain.rest.length());
            report.number(plain.refs.as_slice().len() as u64);
        }
        Object::Raw(raw) => {
            report.word("raw");
            report.number(raw.bytes.as_slice().len() as u64);
        }
    }
}

/// Reports an object: its own handle, the name of its kind, and its form.
pub(crate) fn object(report: &mut Report, object: &Object<'_>) {
    report.hex(object.handle().value());
    report.word(name_of(object.kind()));
    form(report, object);
}

/// Reports an object after the type number in its head.
pub(crate) fn numbered_object(report: &mut Report, object: &Object<'_>) {
    report.number(u64::from(object.number()));
    self::object(report, object);
}
