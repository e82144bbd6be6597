//! Fields of bodies, reported: each in the order in which the type names them, and `-` for one that isn't there. Texts stand between
//! apostrophes, and lists between brackets.

use dwg_base::ByteRun;
use dwg_codes::{Point2, Point3};
use dwg_handles::Ref;
use dwg_testkit::Report;

/// What has fields that can be reported.
pub(crate) trait Fields {
    /// Reports the fields, in the order in which the type names them.
    fn put(&self, report: &mut Report);
}

/// Reports numbers that may not be there.
pub(crate) fn put_some(report: &mut Report, numbers: &[Option<u64>]) {
    for number in numbers {
        match *number {
            Some(number) => report.hex(number),
            None => report.word("-"),
        }
    }
}

/// Reports what is yes, as 1, or no, as 0.
pub(crate) fn put_flags(report: &mut Report, flags: &[bool]) {
    for flag in flags {
        report.hex(u64::from(*flag));
    }
}

/// A number of 16 bits that may not be there.
pub(crate) fn wide(number: Option<u16>) -> Option<u64> {
    match number {
        Some(number) => Some(u64::from(number)),
        None => None,
    }
}

/// Reports a point of the plane.
pub(crate) fn put_plane(report: &mut Report, point: &Point2) {
    report.hexes(&[point.x, point.y]);
}

/// Reports a point of space.
pub(crate) fn put_space(report: &mut Report, point: &Point3) {
    report.hexes(&[point.x, point.y, point.z]);
}

/// Reports a text.
pub(crate) fn put_text(report: &mut Report, run: &ByteRun) {
    report.quoted(run.as_slice());
}

/// Reports bytes.
pub(crate) fn put_bytes(report: &mut Report, run: &ByteRun) {
    report.bytes(run.as_slice());
}

/// Reports a reference.
pub(crate) fn put_ref(report: &mut Report, reference: &Ref) {
    report.reference(reference.code, reference.target.value());
}

/// Reports a list of references.
pub(crate) fn put_refs(report: &mut Report, references: &[Ref]) {
    report.word("[");
    for reference in references {
        put_ref(report, reference);
    }
    report.word("]");
}
