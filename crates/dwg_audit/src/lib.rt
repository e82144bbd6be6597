//! The audit: whether the references of a drawing hold together, with every failure.
#![tactic(auto)]

mod auditing;
mod claims;
mod drawing_audit;
mod finding;
mod laws;
mod lookups;
mod object_facts;
mod places;
mod resolving;
mod rules;
mod tables;

pub use auditing::audit;
pub use drawing_audit::audit_drawing;
pub use finding::{Finding, Rule};
pub use laws::{auditable_laws, finding_laws};
