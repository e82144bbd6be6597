//! Tests of kinds, objects, the object map and whole drawings through their public calls: values from outside, and what no clause says
//! and the program's answers don't show. Most are tables of cases, a line each (`dwg_testkit`).
#![tactic(auto)]

#[cfg(test)]
mod tests;
