//! Hostile use over devices in memory: inputs cut at each length, and devices that fail at each call.

use crate::tests::commands::OverDevices;
use crate::tests::inputs::input_of;
use crate::tests::runs::{PLENTY, in_pieces, ran};
use dwg_commands::Status;
use dwg_testkit::hold;
use std::alloc::Global;
use std::test::Fail;

/// A case for each number from one up to another.
trait Numbered {
    /// What is said of a number that fails.
    const WHAT: &'static str;

    /// Whether the case of a number holds. None: out of memory.
    fn holds(alloc: Global, number: usize) -> Option<bool>;
}

/// Fails by the first number from one up to another whose case doesn't hold.
fn every_number<N: Numbered>(alloc: Global, from: usize, to: usize) -> Result<(), Fail> {
    for number in from..to {
        if N::holds(alloc, number) != Some(true) {
            let case = format!(in alloc; "{}: {}", N::WHAT, number)?;
            return Err(Fail::new(case.as_str()));
        }
    }
    Ok(())
}

/// The exit status of a run over an input.
fn code_of(alloc: Global, line: &str, input: &str) -> Option<u8> {
    let bytes = input_of(alloc, input)?;
    Some(ran(alloc, line, &bytes, in_pieces(PLENTY))?.status.code())
}

/// Whether a file that is cut to a length is refused by `rewrite`, and `recover` says that it is damaged.
fn is_cut_reported(alloc: Global, file: &str, length: usize) -> Option<bool> {
    let input = format!(in alloc; "{} #{}", file, length).ok()?;
    let rewritten = code_of(alloc, "dwg rewrite", input.as_str())?;
    let recovered = code_of(alloc, "dwg recover", input.as_str())?;
    Some(rewritten == 3 && recovered == 1)
}

/// The drawing with one object, cut to a length, is refused and reported so.
struct Cut;

impl Numbered for Cut {
    const WHAT: &'static str = "cut to a length";

    fn holds(alloc: Global, number: usize) -> Option<bool> {
        is_cut_reported(alloc, "one_object", number)
    }
}

/// The same of AC1014.
struct OlderCut;

impl Numbered for OlderCut {
    const WHAT: &'static str = "of AC1014, cut to a length";

    fn holds(alloc: Global, number: usize) -> Option<bool> {
        is_cut_reported(alloc, "older_object", number)
    }
}

/// Where a read fails, `rewrite` of that drawing byte by byte reports the read fault and writes nothing.
struct FailingRead;

impl Numbered for FailingRead {
    const WHAT: &'static str = "a read that fails";

    fn holds(alloc: Global, number: usize) -> Option<bool> {
        let bytes = input_of(alloc, "one_object")?;
        let mut devices = in_pieces(1);
        devices.failing_read = number as u64;
        let left = ran(alloc, "dwg rewrite", &bytes, devices)?;
        Some(
            left.status == Status::ReadFault
                && left.output.as_slice().is_empty()
                && left.notes.as_slice() == "dwg: read fault\n".as_bytes(),
        )
    }
}

/// How many bytes of the file of one object are written in so many pieces of ten bytes at the most: 199 of them stand before the map, and go
/// out together; then a page of one pair goes out, and the page that ends the map.
fn bytes_before(pieces: usize) -> Option<usize> {
    match pieces {
        20 => Some(199),
        21 => Some(206),
        _ => pieces.checked_mul(10),
    }
}

/// Where a write fails, `rewrite` of that drawing reports the write fault, and what it wrote are the pieces before.
struct FailingWrite;

impl Numbered for FailingWrite {
    const WHAT: &'static str = "a write that fails";

    fn holds(alloc: Global, number: usize) -> Option<bool> {
        let bytes = input_of(alloc, "one_object")?;
        let mut devices = in_pieces(10);
        devices.failing_write = number as u64;
        let left = ran(alloc, "dwg rewrite", &bytes, devices)?;
        let before = bytes_before(number.checked_sub(1)?)?;
        Some(left.status == Status::WriteFault && left.output.as_slice() == bytes.get(..before)?)
    }
}

#[test]
fn every_cut_is_reported(rt: HostRuntime) -> Result<(), Fail> {
    every_number::<Cut>(rt.alloc(), 0, 210)?;
    every_number::<OlderCut>(rt.alloc(), 0, 209)
}

#[test]
fn every_failing_read_is_reported(rt: HostRuntime) -> Result<(), Fail> {
    every_number::<FailingRead>(rt.alloc(), 1, 212)
}

#[test]
fn every_failing_write_is_reported(rt: HostRuntime) -> Result<(), Fail> {
    every_number::<FailingWrite>(rt.alloc(), 1, 23)
}

/// How `rewrite` of no input ends where the first write of notes fails.
fn status_without_notes(alloc: Global) -> Option<Status> {
    let mut devices = in_pieces(PLENTY);
    devices.failing_note = 1;
    Some(ran(alloc, "dwg rewrite", &[], devices)?.status)
}

#[test]
fn failing_notes_are_reported(rt: HostRuntime) -> Result<(), Fail> {
    assert_eq!(rt; status_without_notes(rt.alloc()), Some(Status::WriteFault));
    Ok(())
}

#[test]
fn devices_of_a_large_drawing_are_reported(rt: HostRuntime) -> Result<(), Fail> {
    let cases = "
        dwg rewrite | 1 0 1 0 | made/1/7 | file made/1/7 | - | Done
        dwg audit | 1 0 1 0 | made/1/7 | audit yes | - | Done
        dwg rewrite | 1000 2 1000000 0 | made/1/7 | - | dwg: read fault | ReadFault
        dwg rewrite | 1000000 0 10 3 | made/1/7 | file made/1/7 #20 | - | WriteFault";
    hold::<OverDevices>(rt.alloc(), cases)
}
