//! What was passed to a sink, which contracts alone see.

ghost use Rattle.std.specs.Prelude.{◌≡◌, ℕ, List, [], ◌++◌};
ghost use Rattle.std.specs.Borrow.{ftrue};

use std::marker::Model;

/// All bytes that were passed to a sink, also those for which it had no room. It takes no memory, and its methods do nothing
/// when they run.
#[derive(Drop)]
pub(crate) struct Passed {
    pub(crate) ghost bytes: { List ℕ },
}

impl Model for Passed {
    ghost also_owns = { λ _. ftrue };
}

/// Some bytes that are passed.
#[derive(Clone, Copy)]
pub(crate) struct Piece<'a> {
    /// The bytes.
    pub(crate) bytes: &'a [u8],
}

impl Passed {
    /// Nothing yet.
    pub(crate) fn new() -> Passed
        ensures { result.bytes ≡ [] }
    {
        Passed {}
    }

    /// These bytes after the earlier ones.
    pub(crate) fn then(&self, _piece: &Piece<'_>) -> Passed
        ensures { result.bytes ≡ self.now.bytes ++ _piece.now.bytes.now }
    {
        Passed {}
    }
}
