//! What the commands print of a certificate, of an audit, of a drill, of a recovery and of extended data.
#![tactic(auto)]

mod acceptance;
mod app_findings;
mod app_items;
mod app_objects;
mod audit;
mod drill;
mod paragraphs;
mod recovery;
mod verdict;

pub use acceptance::{accept_no, accept_yes};
pub use app_objects::appdata;
pub use audit::print_findings;
pub use drill::print_drill;
pub use recovery::print_recovery;
