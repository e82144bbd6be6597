//! Devices: sources that give bytes and sinks that take them.

ghost use Rattle.std.specs.Prelude.{ℕ, ◌+◌, ◌<◌, List, length, Option, IfOk};
ghost use Rattle.std.specs.Io.{ReadsAtMost, WritesAtMost};
ghost use Rattle.std.specs.Io.KnownBytes.{ReadConsumes, WriteAppends};
ghost use Rattle.dwg_base.specs.Devices.{Counts, Sends};

use crate::slices::bytes_after;
use std::alloc::{AllocError, AllocFailed};

/// One call of a device failed.
#[derive(Clone, Copy, Debug, PartialEq, Eq)]
pub struct Failed;

/// No memory was to be had.
#[derive(Clone, Copy, Debug, PartialEq, Eq)]
pub struct NoMemory;

impl From<AllocError> for NoMemory {
    fn from(_error: AllocError) -> NoMemory {
        NoMemory
    }
}

/// What could not be stored is let go.
impl<T: Drop> From<AllocFailed<T>> for NoMemory {
    fn from(_error: AllocFailed<T>) -> NoMemory {
        NoMemory
    }
}

/// A sink failed before it took all bytes.
#[derive(Clone, Copy, Debug, PartialEq, Eq)]
pub struct WriteFault;

/// What gives bytes.
pub trait Source {
    /// The bytes still to come, where the source reports them.
    ghost left: { Self → Option (List ℕ) };

    /// How many calls failed. The count never falls.
    ghost faults: { Self → ℕ };

    /// Fills the prefix of `buf` with the next bytes and says how many. None come into a buffer that isn't empty only
    /// where nothing is left. A failing call gives nothing and raises the count of faults.
    fn read(&mut self, buf: &mut [u8]) -> Result<usize, Failed>
        ensures bound { ReadsAtMost result buf.new }
        ensures bytes { ReadConsumes (left self.old) (left self.new) result buf.new }
        ensures counts { Counts (faults self.old) (faults self.new) result };
}

/// What takes bytes.
pub trait Sink {
    /// The bytes taken so far, where the sink reports them.
    ghost taken: { Self → Option (List ℕ) };

    /// How many calls failed. The count never falls.
    ghost faults: { Self → ℕ };

    /// Takes a prefix of `piece` and says how many bytes that is, at least one where the piece isn't empty. A failing
    /// call takes nothing and raises the count of faults.
    fn write(&mut self, piece: &[u8]) -> Result<usize, Failed>
        ensures bound { WritesAtMost result piece.now }
        ensures progress { IfOk result (λ n. 0 < length piece.now → 0 < n) }
        ensures bytes { WriteAppends (taken self.old) (taken self.new) result piece.now }
        ensures counts { Counts (faults self.old) (faults self.new) result };
}

/// Sends the whole piece. After a fault the sink took a prefix of it. It takes no memory.
pub fn put_all<W: Sink>(sink: &mut W, piece: &[u8]) -> Result<(), WriteFault>
    ensures bytes { Sends (W.taken sink.old) (W.taken sink.new) piece.now result }
    ensures counts { Counts (W.faults sink.old) (W.faults sink.new) result }
{
    let mut sent = 0;
    while sent < piece.len() {
        match sink.write(bytes_after(piece, sent)) {
            Ok(n) => sent += n,
            Err(Failed) => return Err(WriteFault),
        }
    }
    Ok(())
}
