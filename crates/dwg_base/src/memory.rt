//! Devices in memory, for tests and for files that are made before they are sent.

ghost use Rattle.std.specs.Prelude.{◌≡◌, ◌≤◌, ◌<◌, ◌↔◌, [], length, take, Some, IfOk, IsErr};
ghost use Rattle.std.specs.Io.{ReadsAtMost, WritesAtMost};
ghost use Rattle.std.specs.Io.KnownBytes.{ReadConsumes, WriteAppends};
ghost use Rattle.dwg_base.specs.Devices.{Counts};
ghost use Rattle.dwg_base.specs.Memory.{given_count, IsFailingRead, after_read, taken_count, IsFailingWrite, after_write};

use crate::bytes::ByteRun;
use crate::device::{Failed, NoMemory, Sink, Source};
use crate::items::Items;
use crate::slices::bytes_after;
use std::alloc::Global;
use std::marker::Model;

/// A source over bytes in memory that gives at most `most` bytes a call and fails in the listed calls.
#[derive(Drop)]
pub struct MemSource {
    bytes: ByteRun,
    place: usize,
    most: usize,
    fails: Items<u64>,
    calls: u64,
    faults: u64,
}

impl Model for MemSource {
    ghost use Rattle.std.specs.Prelude.{◌≤◌, length, drop};
    ghost use Rattle.dwg_base.specs.Memory.{Feed};

    ghost Value = { Feed };

    ghost view = { λ s. record { left = drop s.place s.bytes; most = s.most; fails = s.fails; calls = s.calls; faults = s.faults } };

    ghost invariant = { λ s. (s.place ≤ length s.bytes) × (1 ≤ s.most) };
}

impl MemSource {
    /// A source of `bytes` that gives at most `most` bytes a call. The calls whose numbers, counted from 1, are in
    /// `fails` fail.
    pub fn new(bytes: ByteRun, most: usize, fails: Items<u64>) -> MemSource
        requires { 1 ≤ most }
        ensures { result ≡ record { left = bytes; most = most; fails = fails; calls = 0; faults = 0 } }
    {
        MemSource {
            bytes,
            place: 0,
            most,
            fails,
            calls: 0,
            faults: 0,
        }
    }
}

/// Copies the first `count` bytes into the prefix of the buffer.
fn copy_prefix(bytes: &[u8], buf: &mut [u8], count: usize)
    requires there { count ≤ length bytes.now }
    requires room { count ≤ length buf.old }
    ensures { take count buf.new ≡ take count bytes.now }
{
    buf[..count].copy_from_slice(&bytes[..count]);
}

impl Source for MemSource {
    ghost left = { λ s. Some s.left };

    ghost faults = { λ s. s.faults };

    fn read(&mut self, buf: &mut [u8]) -> Result<usize, Failed>
        ensures bound { ReadsAtMost result buf.new }
        ensures bytes { ReadConsumes (Some self.old.left) (Some self.new.left) result buf.new }
        ensures counts { Counts self.old.faults self.new.faults result }

        // Which calls fail, what the others give, and what is left.
        ensures failing { IsErr result ↔ IsFailingRead self.old }
        ensures given { IfOk result (λ n. n ≡ given_count self.old (length buf.old)) }
        ensures after { self.new ≡ after_read self.old result }
    {
        self.calls = self.calls.saturating_add(1);
        if self.fails.as_slice().contains(&self.calls) {
            self.faults = self.faults.saturating_add(1);
            return Err(Failed);
        }
        let rest = bytes_after(self.bytes.as_slice(), self.place);
        let n = rest.len().min(buf.len().min(self.most));
        copy_prefix(rest, buf, n);
        self.place += n;
        Ok(n)
    }
}

/// A sink into memory that holds at most `room` bytes, takes at most `most` bytes a call and fails in the listed calls.
#[derive(Drop)]
pub struct MemSink {
    bytes: Vec<u8>,
    room: usize,
    most: usize,
    fails: Items<u64>,
    calls: u64,
    faults: u64,
}

impl Model for MemSink {
    ghost use Rattle.std.specs.Prelude.{◌≤◌, vec_len, vec_capacity};
    ghost use Rattle.dwg_base.specs.Memory.{Store};

    ghost Value = { Store };

    ghost view = { λ s. record { taken = s.bytes.items; room = s.room; most = s.most; fails = s.fails; calls = s.calls; faults = s.faults } };

    ghost invariant = { λ s. (vec_len s.bytes ≤ s.room) × (s.room ≤ vec_capacity s.bytes) × (1 ≤ s.most) };
}

impl MemSink {
    /// An empty sink with the memory for `room` bytes, which takes no more later. Err: out of memory.
    pub fn new(
        alloc: Global,
        room: usize,
        most: usize,
        fails: Items<u64>,
    ) -> Result<MemSink, NoMemory>
        requires { 1 ≤ most }
        ensures { IfOk result (λ sink. sink ≡ record { taken = []; room = room; most = most; fails = fails; calls = 0; faults = 0 }) }
    {
        let bytes = Vec::with_capacity(alloc, room)?;
        Ok(MemSink {
            bytes,
            room,
            most,
            fails,
            calls: 0,
            faults: 0,
        })
    }

    /// The bytes taken so far.
    pub fn bytes(&self) -> &[u8]
        ensures { result.now ≡ self.now.taken }
    {
        self.bytes.as_slice()
    }

    /// The bytes taken so far as a list of its own, without taking memory.
    pub fn into_bytes(self) -> ByteRun
        ensures { result ≡ self.taken }
    {
        ByteRun::from_vec(self.bytes)
    }
}

impl Sink for MemSink {
    ghost taken = { λ s. Some s.taken };

    ghost faults = { λ s. s.faults };

    fn write(&mut self, piece: &[u8]) -> Result<usize, Failed>
        ensures bound { WritesAtMost result piece.now }
        ensures progress { IfOk result (λ n. 0 < length piece.now → 0 < n) }
        ensures bytes { WriteAppends (Some self.old.taken) (Some self.new.taken) result piece.now }
        ensures counts { Counts self.old.faults self.new.faults result }

        // Which calls fail, what the others take, and what the sink holds then.
        ensures failing { IsErr result ↔ IsFailingWrite self.old piece.now }
        ensures took { IfOk result (λ n. n ≡ taken_count self.old piece.now) }
        ensures after { self.new ≡ after_write self.old piece.now result }
    {
        self.calls = self.calls.saturating_add(1);
        let free = self.room - self.bytes.len();
        if self.fails.as_slice().contains(&self.calls) || (free == 0 && !piece.is_empty()) {
            self.faults = self.faults.saturating_add(1);
            return Err(Failed);
        }
        let n = piece.len().min(free.min(self.most));
        match self.bytes.extend_from_slice(&piece[..n]) {
            Ok(()) => Ok(n),
            Err(_) => unreachable!(),
        }
    }
}
