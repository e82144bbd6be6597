//! Tests of bodies through their public calls, by values from outside: which bits begin with a body, which number, text or reference
//! stands in which of its fields, and by which bits it is written again.
#![tactic(auto)]

mod reading;
#[cfg(test)]
mod tests;
