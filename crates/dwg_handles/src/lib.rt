//! References: how an object names another from where it stands (Open Design Specification, "Handle references").
#![tactic(auto)]

mod laws;
mod list;
mod own;
mod reference;
mod reference_code;
mod reference_parts;
mod relative_codes;

pub use laws::reference_laws;
pub use list::{read_refs, read_refs_to_end, refs_bits, refs_fit, write_refs};
pub use own::{own_bits, read_own, write_own};
pub use reference::Ref;
pub use reference_code::{CodeH, read_ref, ref_bits, write_ref};
