//! The bit codes of the drawing format: one type a code, which reads each of its spellings and writes a shortest one (Open Design
//! Specification, "Bit codes").
#![tactic(auto)]

mod byte_part;
mod code;
mod default;
mod extrusion;
mod fixed;
mod laws;
mod list;
mod modular;
mod option;
mod points;
mod run;
mod tagged;
mod text;
mod versioned;

pub use byte_part::BytePart;
pub use code::{BitCode, code_laws};
pub use default::CodeDD;
pub use dwg_grammar::{Point2, Point3};
pub use extrusion::CodeBE;
pub use fixed::{CodeB, CodeBB, CodeRC, CodeRD, CodeRL, CodeRS};
pub use laws::{byte_code_laws, plain_spellings};
pub use list::{list_laws, list_length, read_list, read_to_end, write_list};
pub use modular::{
    mc_bytes, ms_bytes, read_mc, read_ms, read_signed_mc, signed_mc_bytes, write_mc, write_ms,
    write_signed_mc,
};
pub use option::{length_when, read_when, write_when};
pub use points::Code3BD;
pub use run::{byte_run_laws, bytes_length, read_bytes, write_bytes};
pub use tagged::{CodeBD, CodeBL, CodeBS, CodeBT, ONE_WORD};
pub use text::{read_text, text_length, write_text};
pub use versioned::{CodeExtrusion, CodeThickness};
