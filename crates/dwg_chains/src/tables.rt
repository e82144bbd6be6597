//! What tables of places say: where each place leads, and what is a goal.

/// Where a chain begins and where it ends, as places; `None` where that is no place of the table.
#[derive(Clone, Copy, Drop)]
pub struct ChainEnds {
    /// The place of its first.
    pub first: Option<usize>,
    /// The place of its last.
    pub last: Option<usize>,
}
