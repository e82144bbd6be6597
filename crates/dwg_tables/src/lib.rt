//! Entries of tables: layers, text styles, linetypes, applications and the headers of blocks, each with what it has beside
//! the common part of objects (Open Design Specification, "LAYER", "SHAPEFILE", "LTYPE", "APPID" and "BLOCK HEADER").
#![tactic(auto)]

mod app_id;
mod block_content;
mod block_flags;
mod block_header;
mod block_names;
mod dash;
mod entry;
mod entry_start;
mod first_and_last;
mod insert_marks;
mod laws;
mod layer;
mod layer_values;
mod letter_form;
mod ltype;
mod members;
mod pattern;
mod rows;
mod style;

pub use app_id::AppId;
pub use block_header::{BlockHeader, Ends, InsertMark};
pub use entry::Entry;
pub use laws::table_laws;
pub use layer::Layer;
pub use ltype::{Dash, Ltype};
pub use style::Style;
