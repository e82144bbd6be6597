//! Recovery: everything of a damaged file that can be shown to be whole, and each loss by its name.
#![tactic(auto)]

mod candidates;
mod damage;
mod frame;
mod input_recovery;
mod kept;
mod laws;
mod loss;
mod losses;
mod map_walk;
mod objects;
mod recovery;
mod scan;
mod sections;

pub use damage::short_damage_laws;
pub use input_recovery::recover_input;
pub use laws::{answer_laws, intact_laws, part_laws, recovered_laws};
pub use loss::{Kept, Loss};
pub use recovery::{Recovered, recover};
