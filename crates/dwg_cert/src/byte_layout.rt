//! Where the parts of a certificate stand in the bytes that it is written as.

/// What each certificate begins with.
pub const MAGIC_BYTES: [u8; 8] = *b"DWGCERT1";

/// The place of the count of entries.
pub const COUNT_PLACE: usize = 8;

/// The place of the first entry.
pub const ENTRIES_PLACE: usize = 16;

/// How many bytes an entry has.
pub const ENTRY_SIZE: usize = 24;

/// The place of the stored rank in an entry.
pub const RANK_PLACE: usize = 8;

/// The place of the stored place in a chain in an entry.
pub const CHAIN_PLACE: usize = 16;
