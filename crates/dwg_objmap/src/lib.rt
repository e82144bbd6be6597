//! The object map, read and written: where the frame of each object stands; and the pairs of a page by itself (Open Design
//! Specification, "Object map").
#![tactic(auto)]

mod damaged_pages;
mod distinct_pairs;
mod laws;
mod length;
mod map_reading;
mod page_places;
mod page_writing;
mod pair;

pub use damaged_pages::{page_holds, page_pairs, page_size};
pub use laws::{map_laws, map_writing_laws, page_laws};
pub use length::map_length;
pub use map_reading::{read_map, read_page};
pub use page_places::Page;
pub use page_writing::PageWriter;
pub use pair::Pair;
