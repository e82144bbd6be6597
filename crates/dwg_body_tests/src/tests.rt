//! The tests, by what they are of; and how their cases are read and reported.

mod common;
mod dicts;
mod entities;
mod fields;
mod laws;
mod more;
mod shapes;
mod table;
mod tables;
