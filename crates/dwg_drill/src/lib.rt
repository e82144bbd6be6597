//! The drill: a made drawing written, read again and audited, and read with a changed byte.
#![tactic(auto)]

mod drilling;
mod fault;
mod made;
mod report;

pub use drilling::drill;
pub use fault::DrillFault;
pub use report::DrillReport;
