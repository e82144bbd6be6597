//! The classes of a drawing, read and written: what stands after the type numbers from 500 on (Open Design Specification,
//! "Classes").
#![tactic(auto)]

mod class;
mod class_parts;
mod finding;
mod hinting;
mod hints;
mod laws;
mod reading;
mod writing;

pub use class::Class;
pub use finding::find;
pub use hinting::hint;
pub use hints::Hints;
pub use laws::classes_laws;
pub use reading::read_classes;
pub use writing::{classes_bits, write_classes};
