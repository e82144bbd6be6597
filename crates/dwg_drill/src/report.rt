//! What a drill reports.

use dwg_base::Refusal;

/// What a drill found out: it makes a drawing, writes its canonical file, reads that again, audits it, and reads the file once more
/// with its middle byte changed.
#[derive(Clone, Copy, Debug, PartialEq, Eq)]
pub struct DrillReport {
    /// How many entities follow the fixed objects of the drawing.
    pub entities: u32,
    /// How many objects the drawing has.
    pub objects: u64,
    /// How many bytes its canonical file has.
    pub size: u64,
    /// The check word of the whole file, from C0C1 on.
    pub check: u16,
    /// The place of the byte that is changed to its complement.
    pub middle: u64,
    /// The first fault of the changed file, if it has one.
    pub fault: Option<Refusal>,
    /// How many findings the audit of the drawing has.
    pub findings: u64,
}
