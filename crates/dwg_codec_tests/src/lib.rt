//! Tests of devices, bits, check words, codes, references, sections, classes and their texts through their public calls: values
//! from outside, each call once, and what no clause says.
//!
//! A case is a line of a table (`dwg_testkit`): what is given, and what is reported of it.
#![tactic(auto)]

#[cfg(test)]
mod tests;
