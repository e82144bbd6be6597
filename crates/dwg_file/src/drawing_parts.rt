//! The parts of a drawing.

use dwg_base::{Items, Version};
use dwg_classes::Class;
use dwg_codes::BytePart;
use dwg_object::Object;

/// A section of which nothing is known but its number and its bytes (Open Design Specification, "R13 to R2000 file layout").
#[derive(Drop)]
pub struct Other<'a> {
    /// Its number, from 3 on in a drawing.
    pub number: u8,
    /// Its bytes.
    pub bytes: BytePart<'a>,
}

/// What a drawing says. Places, the preview, padding, slack and the choice of spellings aren't part of it.
pub struct Parts<'a> {
    /// The version, by whose rules its objects are read and written.
    pub version: Version,
    /// Seven bytes after the version, kept without meaning.
    pub lead: [u8; 7],
    /// Two bytes before the code page, kept without meaning.
    pub mark: [u8; 2],
    /// The code page of the texts.
    pub code_page: u16,
    /// The content of the header variables.
    pub variables: BytePart<'a>,
    /// The classes, in file order.
    pub classes: Items<Class>,
    /// The unknown sections, in the order of their locators: at most three, with distinct numbers from 3 on.
    pub others: Items<Other<'a>>,
    /// The objects, in ascending order of handle.
    pub objects: Items<Object<'a>>,
}

impl Drop for Parts<'_> {
    // Written for the same reason as that of a body.
    fn drop(self) {
        let Parts {
            version: _,
            lead: _,
            mark: _,
            code_page: _,
            variables: _variables,
            classes: _classes,
            others: _others,
            objects: _objects,
        } = self;
    }
}
