//! The numbers of the sections that every file has.

/// The number of the locator of the header variables.
pub const VARIABLES_NUMBER: u8 = 0;

/// The number of the locator of the classes.
pub const CLASSES_NUMBER: u8 = 1;

/// The number of the locator of the object map.
pub const OBJECT_MAP_NUMBER: u8 = 2;
