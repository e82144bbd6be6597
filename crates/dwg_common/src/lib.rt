//! The common parts of objects in both versions, what a body is to those who read and write one, and its rows of fields (Open
//! Design Specification, "Common entity data" and "Common non-entity object format").
#![tactic(auto)]

mod app_data;
mod app_list;
mod bit_layout;
mod bit_size;
mod body;
mod counts;
mod entity;
mod entity_start;
mod graphic;
mod laws;
mod links;
mod look;
mod named;
mod object;
mod part_reading;
mod points;
mod rows;
mod sized;
mod skip;
mod tv;
mod two_refs;
mod version_only;

pub use app_data::AppData;
pub use bit_layout::Layout;
pub use body::{BodyCode, BodyCode14, Lengths, body_laws, older_laws};
pub use counts::{TOO_MANY, count_bits, count_fits, write_count};
pub use entity::{EntityCommon, Links};
pub use laws::common_laws;
pub use object::ObjectCommon;
pub use part_reading::{parse_bytes, parse_code, parse_ref, parse_refs, parse_when};
pub use points::{
    Code2DD, Code2RD, known_extrusion, known_place, known_thickness, point_with_range,
};
pub use sized::{parse_sized, sized_bits, sized_fits, write_sized};
pub use skip::read_size;
pub use tv::{parse_tv, tv_bits, tv_fits, write_tv};
pub use two_refs::{CodeTwoRefs, two_refs_fit};
pub use version_only::{
    length_given, parse_given, parse_ref_since, ref_since_bits, ref_since_fits, write_given,
    write_ref_since,
};
