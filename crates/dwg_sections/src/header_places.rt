//! Where the parts of the file header stand (Open Design Specification, "R13 to R2000 file layout").

/// Where the seven bytes after the version stand.
pub const LEAD_PLACE: usize = 6;

/// Where the place of the preview section stands.
pub const PREVIEW_PLACE: usize = 13;

/// Where the two bytes before the code page stand.
pub const MARK_PLACE: usize = 17;

/// Where the code page stands.
pub const CODE_PAGE_PLACE: usize = 19;

/// The place of the count of locators.
pub const COUNT_PLACE: usize = 21;

/// The place of the first locator.
pub const LOCATORS_PLACE: usize = 25;

/// The bytes of a locator.
pub const LOCATOR_SIZE: usize = 9;

/// The bytes of a file header without locators.
pub const HEADER_SIZE: usize = 43;
