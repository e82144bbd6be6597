//! Kinds of objects: what stands after a type number, which fields a kind has and what these need (Open Design Specification,
//! "R13 to R2000 file layout, object data").
#![tactic(auto)]

mod field;
mod kind;
mod laws;
mod number;

pub use field::{Field, Need, field_word, holds, number_of, required};
pub use kind::{Kind, is_entity, is_same, name_of};
pub use laws::{field_laws, kind_laws};
pub use number::{ClassHint, kind_of};
