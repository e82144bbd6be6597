//! Lists of bytes in hand: owned, or lent from a slice.

ghost use Rattle.std.specs.Prelude.{◌≡◌};
ghost use Rattle.dwg_codes.specs.Parts.{part_bytes};

use dwg_base::ByteRun;

/// A list of bytes, owned or lent.
#[derive(Drop)]
pub enum BytePart<'a> {
    /// Bytes of its own.
    Owned(ByteRun),
    /// Bytes of a slice.
    Lent(&'a [u8]),
}

impl BytePart<'_> {
    /// The bytes as a slice.
    pub fn as_slice(&self) -> &[u8]
        ensures { result.now ≡ part_bytes self.now }
    {
        match self {
            BytePart::Owned(run) => run.as_slice(),
            BytePart::Lent(bytes) => bytes,
        }
    }
}
