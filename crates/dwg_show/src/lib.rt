//! The text of a drawing, sent piece by piece: everything that it says, each field of an object on a line of its own.
#![tactic(auto)]

mod bytes;
mod common;
mod dicts;
mod drawing;
mod entities;
mod fields;
mod more;
mod object;
mod paragraphs;
mod shapes;
mod tables;

pub use drawing::show;
pub use dwg_text::ShowFault;
