//! What the references of a drawing's objects make of them: slots, owners, the index of handles, and when they hold together.
#![tactic(auto)]

mod claims;
mod index;
mod laws;
mod needs;
mod owner;
mod roles;
mod slot;
mod slot_walk;
mod slots;

pub use claims::{ClaimCounts, Claimed, count_slot, increment, is_claimed, is_exempt, zeroed};
pub use index::Index;
pub use laws::{graph_laws, row_laws, slot_laws};
pub use needs::{is_met, meets};
pub use owner::{SpaceHandles, control_count, next_of, owner_of, spaces};
pub use roles::{can_claim, home_of, is_header, is_member, is_raw, is_root, is_typed};
pub use slot::Slot;
pub use slots::{slot_at, slot_count, with_slots};
