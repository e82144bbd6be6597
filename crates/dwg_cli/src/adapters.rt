//! The program's devices: std's readers and writers as sources and sinks that report no bytes.

ghost use Rattle.std.specs.Prelude.{◌≡◌, None};

use dwg_base::{Failed, Sink, Source};
use std::io::{Read, Write};

/// A reader of std as a source. Each error of the reader is a fault.
#[derive(Drop)]
pub struct ReaderSource<T: Read + Drop> {
    reader: T,
    faults: u64,
}

impl<T: Read + Drop> ReaderSource<T> {
    /// The source that reads from `reader`.
    pub fn new(reader: T) -> ReaderSource<T>
        ensures { result.faults ≡ 0 }
    {
        ReaderSource { reader, faults: 0 }
    }
}

impl<T: Read + Drop> Source for ReaderSource<T> {
    ghost left = { λ _. None };

    ghost faults = { λ s. s.faults };

    fn read(&mut self, buf: &mut [u8]) -> Result<usize, Failed> {
        match self.reader.read(buf) {
            Ok(n) => Ok(n),
            Err(_) => {
                self.faults = self.faults.saturating_add(1);
                Err(Failed)
            }
        }
    }
}

/// A writer of std as a sink that flushes each write. Each error of the writer is a fault, and so is a write that takes
/// nothing of a piece that isn't empty.
#[derive(Drop)]
pub struct WriterSink<T: Write + Drop> {
    writer: T,
    faults: u64,
}

impl<T: Write + Drop> WriterSink<T> {
    /// The sink that writes to `writer`.
    pub fn new(writer: T) -> WriterSink<T>
        ensures { result.faults ≡ 0 }
    {
        WriterSink { writer, faults: 0 }
    }
}

impl<T: Write + Drop> Sink for WriterSink<T> {
    ghost taken = { λ _. None };

    ghost faults = { λ s. s.faults };

    fn write(&mut self, piece: &[u8]) -> Result<usize, Failed> {
        let Ok(n) = self.writer.write(piece) else {
            self.faults = self.faults.saturating_add(1);
            return Err(Failed);
        };
        if n == 0 && !piece.is_empty() {
            self.faults = self.faults.saturating_add(1);
            return Err(Failed);
        }
        if self.writer.flush().is_err() {
            self.faults = self.faults.saturating_add(1);
            return Err(Failed);
        }
        Ok(n)
    }
}

#[cfg(test)]
mod tests;
