//! Bytes on their way to a sink: small pieces wait and go out together; the prefix of a large one fills up what waits, and what is
//! left of it goes out as it is held.

ghost use Rattle.std.specs.Prelude.{◌≡◌, ◌+◌, ◌<◌, ◌≤◌, ◌++◌, [], length, vec_capacity, IfOk};
ghost use Rattle.dwg_base.specs.Devices.{Counts, Sends};
ghost use Rattle.dwg_file.specs.WriteBuffer.{Writes};

use dwg_base::{NoMemory, Sink, WriteFault, append_bytes, put_all, vec_with_capacity};
use std::alloc::Global;
use std::marker::Model;

/// How many bytes go out together where bytes wait.
const LEAST_PIECE: usize = 4096;

/// Sends bytes in one piece, and lets go of them.
fn send<W: Sink>(bytes: &mut Vec<u8>, sink: &mut W) -> Result<(), WriteFault>
    ensures sends { Sends (W.taken sink.old) (W.taken sink.new) bytes.old.items result }
    ensures counts { Counts (W.faults sink.old) (W.faults sink.new) result }
    ensures none { bytes.new.items ≡ [] }
    ensures capacity { vec_capacity bytes.old ≤ vec_capacity bytes.new }
{
    let sent = put_all(sink, bytes.as_slice());
    bytes.clear();
    sent
}

/// Bytes that were given and wait to go out together, fewer than do so. Contracts see them.
#[derive(Drop)]
pub(crate) struct WriteBuffer {
    bytes: Vec<u8>,
}

impl Model for WriteBuffer {
    ghost use Rattle.std.specs.Prelude.{◌<◌, ◌≤◌, ℕ, List, length, vec_capacity};
    ghost use Rattle.dwg_file.specs.WriteBuffer.{LEAST_PIECE};

    ghost Value = { List ℕ };

    ghost view = { λ buffer. buffer.bytes.items };

    ghost invariant = { λ buffer. (LEAST_PIECE ≤ vec_capacity buffer.bytes) × (length buffer.bytes.items < LEAST_PIECE) };
}

impl WriteBuffer {
    /// None that wait. The memory of a piece is taken here, and none later. Err: out of memory.
    pub(crate) fn new(alloc: Global) -> Result<WriteBuffer, NoMemory>
        ensures { IfOk result (λ buffer. buffer ≡ []) }
    {
        let bytes = vec_with_capacity(alloc, LEAST_PIECE)?;
        Ok(WriteBuffer { bytes })
    }

    /// Lets go of all that wait.
    pub(crate) fn clear(&mut self)
        ensures { self.new ≡ [] }
    {
        self.bytes.clear();
    }

    /// Sends all that wait, in one piece. After a fault none wait any more.
    pub(crate) fn flush<W: Sink>(&mut self, sink: &mut W) -> Result<(), WriteFault>
        ensures writes { Writes (W.taken sink.old) (W.taken sink.new) self.old self.new [] result }
        ensures counts { Counts (W.faults sink.old) (W.faults sink.new) result }
        ensures none { self.new ≡ [] }
    {
        send(&mut self.bytes, sink)
    }

    /// Writes bytes: they wait after those that waited, or these are filled up with the first of them and go out together. What is
    /// left of the bytes then waits, or goes out as it is held, where it has as many bytes.
    pub(crate) fn write<W: Sink>(&mut self, bytes: &[u8], sink: &mut W) -> Result<(), WriteFault>
        ensures writes { Writes (W.taken sink.old) (W.taken sink.new) self.old self.new bytes.now result }
        ensures counts { Counts (W.faults sink.old) (W.faults sink.new) result }
    {
        let free = LEAST_PIECE - self.bytes.len();
        if bytes.len() < free {
            append_bytes(&mut self.bytes, bytes);
            return Ok(());
        }
        let (prefix, rest) = bytes.split_at(free);
        append_bytes(&mut self.bytes, prefix);
        send(&mut self.bytes, sink)?;
        if rest.len() < LEAST_PIECE {
            append_bytes(&mut self.bytes, rest);
            return Ok(());
        }
        put_all(sink, rest)
    }
}
