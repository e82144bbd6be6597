//! Whole drawings: read from their bytes, and written by their canonical file, with the preview of another file or without.
#![tactic(auto)]

mod byte_ranges;
mod damage;
mod drawing;
mod drawing_parts;
mod file_layout;
mod file_writer;
mod frame_layout;
mod frames;
mod laws;
mod objects;
mod part_sending;
mod reading;
mod sections;
mod unknown_sections;
mod write_buffer;
mod written_laws;

pub use byte_ranges::ByteRanges;
pub use damage::short_damage_laws;
pub use drawing::Drawing;
pub use drawing_parts::{Other, Parts};
pub use file_writer::{Plan, PlanFault};
pub use frames::ObjectFrame;
pub use laws::drawing_laws;
pub use objects::in_handle_order;
pub use reading::{FramedDrawing, read_drawing, read_with_frames};
pub use sections::classes_of_file;
pub use unknown_sections::{is_cut, whole_others};
pub use written_laws::{canonical_laws, carrying_laws};
