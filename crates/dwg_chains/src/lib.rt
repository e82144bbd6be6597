//! Paths, ranks and chains over any type, with their laws; and over tables of places, where they are found in linear time.
#![tactic(auto)]

mod chaining;
mod laws;
mod places;
mod ranking;
mod tables;

pub use chaining::chains;
pub use laws::{chain_laws, number_laws, path_laws, place_laws};
pub use ranking::ranks;
pub use tables::ChainEnds;
