//! The items of extended data: what the bytes that an application keeps with an object say, item by item, and which of their
//! references lead nowhere. The grammar of items is a profile of this project.
#![tactic(auto)]

mod apps;
mod auditing;
mod finding;
mod handle;
mod item;
mod laws;
mod reading;
mod referring;
mod writing;

pub use apps::apps_of;
pub use auditing::app_audit;
pub use finding::AppFinding;
pub use item::AppItem;
pub use laws::{app_finding_laws, item_laws};
pub use reading::read_items;
pub use writing::{items_length, write_items};
