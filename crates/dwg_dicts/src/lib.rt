//! Controls of tables, dictionaries and records: what each has beside the common part of objects (Open Design Specification,
//! "BLOCK CONTROL", "LTYPE CONTROL", "LAYER CONTROL", "STYLE CONTROL", "APPID CONTROL", "DICTIONARY" and "XRECORD").
#![tactic(auto)]

mod appid_control;
mod block_control;
mod cloning;
mod dict_items;
mod dictionary;
mod laws;
mod layer_control;
mod ltype_control;
mod style_control;
mod xrecord;

pub use appid_control::AppIdControl;
pub use block_control::BlockControl;
pub use dictionary::{DictItem, Dictionary};
pub use laws::dict_laws;
pub use layer_control::LayerControl;
pub use ltype_control::LtypeControl;
pub use style_control::StyleControl;
pub use xrecord::XRecord;
