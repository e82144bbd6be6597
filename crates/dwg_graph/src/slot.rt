//! Slots: the references that an object holds beside that to its owner.

use dwg_base::Handle;
use dwg_kinds::Field;

/// A reference that an object holds: by which field, and of the drawing's objects which it leads to.
#[derive(Clone, Copy, Debug, PartialEq, Eq)]
pub struct Slot {
    /// The field that holds it.
    pub field: Field,
    /// Its place in a field that is a list, from 0 on; 0 in any other.
    pub position: u64,
    /// The handle that it leads to; it may be null.
    pub target: Handle,
}
