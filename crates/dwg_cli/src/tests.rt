//! Tests of the program over devices in memory; and the inputs and runs that they share. What the program answers to drawings of all sorts
//! stands in `tools/tests/cases`.

mod certificates;
mod commands;
mod hostile;
mod inputs;
mod large;
mod runs;
