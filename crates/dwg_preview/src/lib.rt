//! The preview section: read where it stands, and written elsewhere. Pictures are never decoded.
#![tactic(auto)]

mod laws;
mod pieces;
mod places;
mod preview;
mod reading;
mod sentinels;
mod writing;

pub use laws::preview_laws;
pub use pieces::{further, prefix_length};
pub use preview::{Preview, preview_length};
pub use reading::read_preview;
pub use sentinels::end_sentinel;
pub use writing::{write_prefix, write_preview};
