//! What recovery reports of a damaged file: what is lost, and which frames are kept.

use dwg_base::Handle;

/// Something of a damaged file that isn't whole. A rule of this project. Losses stand in the order of these variants, and those
/// of one variant in the order of the locators, of the walk or of the map.
#[derive(Clone, Copy, Debug, PartialEq, Eq)]
pub enum Loss {
    /// The file header, and with it the place of everything else.
    Header,
    /// The header variables.
    Variables,
    /// The classes.
    Classes,
    /// An unknown section that passes the end of the input.
    Section {
        /// The number of its locator.
        number: u8,
        /// Its place by the locator, in bytes.
        place: u64,
    },
    /// A page of the map whose check word is wrong.
    Page {
        /// How many pages stand before it.
        index: u64,
        /// Its place, in bytes.
        place: u64,
    },
    /// The end of the map: no page stands after the last.
    MapEnd {
        /// Where one should, in bytes.
        place: u64,
    },
    /// The object of a pair of the map.
    Object {
        /// The pair's handle.
        handle: Handle,
        /// The pair's place, in bytes.
        place: u64,
    },
}

/// The frame of an object that recovery keeps. A rule of this project.
#[derive(Clone, Copy, Debug, PartialEq, Eq)]
pub struct Kept {
    /// The object's handle.
    pub handle: Handle,
    /// The frame's place, in bytes.
    pub from: u64,
    /// The place after the frame's check word.
    pub end: u64,
    /// Whether it was kept for a pair of the map. Another was found without one.
    pub mapped: bool,
}
