//! Entries of a certificate.

use dwg_base::Handle;

/// What a certificate says of one object (a rule of this project).
#[derive(Clone, Copy, Debug, PartialEq, Eq)]
pub struct Entry {
    /// The object's handle.
    pub handle: Handle,
    /// Its rank, below 2^62 in a certificate; None where it has none.
    pub rank: Option<u64>,
    /// Its place in a chain, below 2^62 in a certificate; None where it stands in none.
    pub chain: Option<u64>,
}
