//! Which definition each part of an object goes by, in each version: laws over all crates of parts. Each is the contract of a function
//! without code.
#![tactic(auto)]

mod commons;
mod dicts;
mod entities;
mod more;
mod shapes;
mod sizes;
mod tables;

pub use commons::commons_as_defined;
pub use dicts::dicts_as_defined;
pub use entities::entities_as_defined;
pub use more::more_as_defined;
pub use shapes::shapes_as_defined;
pub use sizes::size_laws;
pub use tables::tables_as_defined;
