//! A sink over a buffer of the caller's.

ghost use Rattle.std.specs.Prelude.{◌≡◌, ◌≤◌, ◌-◌, ◌∷◌, ◌++◌, [], length, take, min, Some, IfSome, ℕ, List};
ghost use Rattle.dwg_base.specs.Devices.{LAST_COUNT};
ghost use Rattle.dwg_c.specs.Buffers.{Keeps};

use crate::passed::{Passed, Piece};
use dwg_base::{Failed, Sink};

/// A sink over a buffer of the caller's. It takes every byte, keeps as many as there is room for, and counts all of them.
///
/// What it reports as taken begins with the name that proofs have for the buffer, so that a run over a sink of any kind is known to
/// leave it over the same buffer.
#[derive(Drop)]
pub(crate) struct CallerBuffer<'a> {
    buffer: &'a mut [u8],
    count: usize,
    passed: Passed,
    ghost counted: { count ≡ min (length passed.bytes) LAST_COUNT },
    ghost kept: { Keeps buffer.now passed.bytes },
}

/// Puts as many bytes at the begin of a buffer as it has room for.
fn put(piece: &[u8], room: &mut [u8])
    ensures { Keeps room.new piece.now }
{
    let count = piece.len().min(room.len());
    room[..count].copy_from_slice(&piece[..count]);
}

/// Puts bytes behind the first ones of a buffer.
fn put_after(buffer: &mut [u8], start: usize, piece: &[u8])
    requires { start ≤ length buffer.old }
    ensures { (before : List ℕ) → Keeps buffer.old before → start ≡ min (length before) (length buffer.old) → Keeps buffer.new (before ++ piece.now) }
{
    put(piece, &mut buffer[start..]);
}

impl<'a> CallerBuffer<'a> {
    /// Over this buffer.
    pub(crate) fn over(buffer: &'a mut [u8]) -> CallerBuffer<'a>
        ensures same { result.buffer.ghost_name ≡ buffer.entry.ghost_name }
        ensures nothing { result.passed.bytes ≡ [] }
    {
        CallerBuffer {
            buffer,
            count: 0,
            passed: Passed::new(),
        }
    }

    /// How many bytes were passed. None: more than a `usize` says.
    pub(crate) fn size(&self) -> Option<usize>
        ensures size { IfSome result (λ n. n ≡ length self.now.passed.bytes) }
        ensures kept { Keeps self.now.buffer.now self.now.passed.bytes }
    {
        if self.count == usize::MAX {
            return None;
        }
        Some(self.count)
    }
}

impl Sink for CallerBuffer<'_> {
    ghost taken = { λ s. Some (s.buffer.ghost_name ∷ s.passed.bytes) };

    ghost faults = { λ s. 0 };

    fn write(&mut self, piece: &[u8]) -> Result<usize, Failed> {
        let start = self.count.min(self.buffer.len());
        put_after(self.buffer, start, piece);
        self.count = self.count.saturating_add(piece.len());
        self.passed = self.passed.then(&Piece { bytes: piece });
        Ok(piece.len())
    }
}
