//! What an audit of extended data finds.

use dwg_base::Handle;

/// An item of extended data whose reference isn't there: a layer that no object of kind LAYER is, or an object that none is.
#[derive(Clone, Copy, Debug, PartialEq, Eq)]
pub struct AppFinding {
    /// The handle of the object that has the item.
    pub handle: Handle,
    /// Which of its application data, counted from 0.
    pub index: u64,
    /// Which item of these, counted from 0.
    pub item: u64,
    /// The handle that the item refers by.
    pub target: u64,
}
