//! What codes, references and bodies of the drawing format are: which bits spell which values, and which of its spellings each value
//! is written by (Open Design Specification, "Bit codes", "Handle references"). It holds definitions with their lemmas, the table of
//! bit codes, and the points that some codes spell; the codes that read and write are those of `dwg_codes` and `dwg_handles`.
#![tactic(auto)]

mod points;

pub use points::{Point2, Point3};
