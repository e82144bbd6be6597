//! Test drawings that are made of two numbers.
#![tactic(auto)]

mod blocks;
mod controls;
mod dictionaries;
mod drawing;
mod laws;
mod lists;
mod making;
mod objects;
mod random;
mod random_entities;
mod references;
mod tables;
mod tag_block;
mod texts;

pub use drawing::{MakeFault, make};
pub use laws::make_laws;
