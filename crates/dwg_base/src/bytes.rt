//! Runs of bytes.

ghost use Rattle.std.specs.Prelude.{◌≡◌, ℕ, ◌+◌, ◌≤◌, ◌++◌, List, length, vec_capacity, IfOk};

use crate::device::NoMemory;
use std::alloc::Global;
use std::marker::Model;

/// An owned list of bytes, which contracts see as that list.
#[derive(Drop)]
pub struct ByteRun {
    bytes: Vec<u8>,
}

impl Model for ByteRun {
    ghost Value = { List ℕ };

    ghost view = { λ run. run.bytes.items };
}

impl ByteRun {
    /// A copy of the bytes. Err: out of memory.
    pub fn from_slice(alloc: Global, bytes: &[u8]) -> Result<ByteRun, NoMemory>
        ensures { IfOk result (λ run. run ≡ bytes.now) }
    {
        let bytes = Vec::from_slice(alloc, bytes)?;
        Ok(ByteRun { bytes })
    }

    /// The bytes of a `Vec`, without taking memory.
    pub fn from_vec(bytes: Vec<u8>) -> ByteRun
        ensures { result ≡ bytes.items }
    {
        ByteRun { bytes }
    }

    /// The bytes as a slice.
    pub fn as_slice(&self) -> &[u8]
        ensures { result.now ≡ self.now }
    {
        self.bytes.as_slice()
    }
}

/// Puts bytes after others, where there is room for them. It takes no memory.
pub fn append_bytes(bytes: &mut Vec<u8>, more: &[u8])
    requires room { length bytes.old.items + length more.now ≤ vec_capacity bytes.old }
    ensures both { bytes.new.items ≡ bytes.old.items ++ more.now }
    ensures capacity { vec_capacity bytes.old ≤ vec_capacity bytes.new }
{
    match bytes.extend_from_slice(more) {
        Ok(()) => {}
        Err(_) => unreachable!(),
    }
}
