//! The tests, by what they are of.

mod base;
mod bits;
mod check;
mod classes;
mod codes;
mod handles;
mod harness;
mod items;
mod laws;
mod listed;
mod lists;
mod modular;
mod pieces;
mod previews;
mod sections;
mod sinks;
mod text;
mod travels;
mod words;
