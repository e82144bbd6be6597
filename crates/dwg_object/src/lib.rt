//! Objects in their three forms, Typed, Plain and Raw, and their frames (Open Design Specification, "R13 to R2000 file layout,
//! object data").
#![tactic(auto)]

mod body;
mod common;
mod frame;
mod head;
mod laws;
mod object;
mod object_layout;
mod part;
mod reading;
mod span;
mod writing;

pub use body::Body;
pub use common::Common;
pub use frame::{Found, read_frame, read_span, span_body, span_word};
pub use head::own_handle;
pub use laws::frame_laws;
pub use object::{Object, Plain, Raw, Typed};
pub use reading::{read_body, read_body_hinted};
pub use span::{Span, span_at};
pub use writing::{frame_length, write_frame};
