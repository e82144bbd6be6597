//! The adapters over a stream that fails.

ghost use Rattle.std.specs.Prelude.{◌≤◌, IfOk};

use super::*;
use std::alloc::Global;
use std::io;
use std::test::Fail;

/// A stream that gives and takes at most two bytes a call, fails in its third, and then takes nothing.
#[derive(Drop)]
struct Stream {
    calls: u64,
    flushed: bool,
}

impl Stream {
    fn count(&mut self, most: usize) -> io::Result<usize>
        ensures { IfOk result (λ n. n ≤ most) }
    {
        self.calls = self.calls.saturating_add(1);
        match self.calls {
            1 | 2 => Ok(most.min(2)),
            3 => Err(io::Error::from(io::ErrorKind::BrokenPipe)),
            _ => Ok(0),
        }
    }
}

impl Read for Stream {
    fn read(&mut self, buf: &mut [u8]) -> io::Result<usize> {
        let most = buf.len();
        self.count(most)
    }
}

impl Write for Stream {
    fn write(&mut self, piece: &[u8]) -> io::Result<usize> {
        self.count(piece.len())
    }

    fn flush(&mut self) -> io::Result<()> {
        if self.flushed {
            return Err(io::Error::from(io::ErrorKind::BrokenPipe));
        }
        self.flushed = self.calls == 2;
        Ok(())
    }
}

/// Adds what a call gave, `-` for a failure, and the count of faults after it.
fn push_reported(text: &mut String, reported: Result<usize, Failed>, faults: u64) -> Option<()> {
    match reported {
        Ok(count) => write!(text, "{}/{} ", count, faults).ok(),
        Err(Failed) => write!(text, "-/{} ", faults).ok(),
    }
}

/// What reads into the prefixes of a buffer of these lengths give of a stream.
fn reads(alloc: Global, lengths: &[usize]) -> Option<String> {
    let mut source = ReaderSource::new(Stream {
        calls: 0,
        flushed: false,
    });
    let mut text = String::new(alloc);
    let mut buffer = [0; 5];
    for length in lengths {
        let reported = source.read(buffer.get_mut(..*length)?);
        push_reported(&mut text, reported, source.faults)?;
    }
    Some(text)
}

/// What writes of pieces give, over a stream whose first flush fails, or that after its second call.
fn writes(alloc: Global, flushed: bool, pieces: &str) -> Option<String> {
    let mut sink = WriterSink::new(Stream { calls: 0, flushed });
    let mut text = String::new(alloc);
    for piece in pieces.split(" ") {
        let reported = sink.write(piece.as_bytes());
        push_reported(&mut text, reported, sink.faults)?;
    }
    Some(text)
}

#[test]
fn each_error_of_a_reader_is_a_fault(rt: HostRuntime) -> Result<(), Fail> {
    let reported = reads(rt.alloc(), &[5, 1, 5, 5]).ok_or("no memory")?;
    assert_eq!(rt; reported.as_str(), "2/0 1/0 -/1 0/1 ");
    Ok(())
}

#[test]
fn each_error_of_a_writer_is_a_fault(rt: HostRuntime) -> Result<(), Fail> {
    // The fourth takes nothing of a piece that isn't empty, and the flush of the fifth, which is empty, fails.
    let reported = writes(rt.alloc(), false, "12345 5 12345 12345 ").ok_or("no memory")?;
    assert_eq!(rt; reported.as_str(), "2/0 1/0 -/1 -/2 -/3 ");
    // A flush that fails after bytes that were taken.
    let reported = writes(rt.alloc(), true, "12345").ok_or("no memory")?;
    assert_eq!(rt; reported.as_str(), "-/1 ");
    Ok(())
}
