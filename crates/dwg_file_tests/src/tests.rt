//! The tests, by what they are of.

mod file;
mod forms;
mod inputs;
mod kinds;
mod objects;
mod objmap;
mod reported;
mod sizes;
mod slots;
