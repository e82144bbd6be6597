//! The sections of a file, read and written: its header, which says where each of them lies, and those that stand between
//! sentinels.
#![tactic(auto)]

mod appending;
mod fields;
mod framed;
mod framed_writer;
mod header;
mod header_lines;
mod header_places;
mod header_sentinel;
mod header_writer;
mod laws;
mod locator_lines;
mod refusals;
mod section_numbers;

pub use fields::{piece, rl, rs};
pub use framed::{
    CONTENT_PLACE, END_PLACE, FRAMED_SIZE, Framed, SIZE_PLACE, begin_sentinel, has_begin, has_end,
    read_framed,
};
pub use framed_writer::{FramedPieces, framed_pieces, write_framed};
pub use header::{FileHeader, Locator, read_file_header};
pub use header_places::{HEADER_SIZE, LOCATOR_SIZE};
pub use header_writer::write_file_header;
pub use laws::{file_header_laws, framed_laws};
pub use section_numbers::{CLASSES_NUMBER, OBJECT_MAP_NUMBER, VARIABLES_NUMBER};
