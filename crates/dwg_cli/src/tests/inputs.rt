//! Inputs of the program, for tests: each is named by a text.

use crate::tests::runs::{PLENTY, in_pieces, ran, written};
use dwg_testkit::{bytes_of, file_of, frame_of};
use std::alloc::Global;

/// Canonical files, a paragraph each: its name, and its frames. They have no header variables and no classes. `older_object` is
/// of AC1014.
const FILES: &str = "\
smallest

one_object
42 C : '10101010 00 / 4.0 3.0

application
42 C : '01 02 5.12 0500 '10101010 00 / 4.0 3.0

older_object
42 C : '10 size '10 '10 00 / 4.0 3.0";

/// The frames of a file by its name.
fn frames_of(name: &str) -> Option<&'static str> {
    for paragraph in FILES.split("\n\n") {
        let (first, frames) = paragraph.split_once("\n").unwrap_or((paragraph, ""));
        if first == name {
            return Some(frames);
        }
    }
    None
}

/// A canonical file by its name.
fn canonical(alloc: Global, name: &str) -> Option<Vec<u8>> {
    let file = file_of(alloc, &[], &[], frames_of(name)?)?;
    if name.starts_with("older") {
        return dwg_testkit::older(alloc, &file);
    }
    Some(file)
}

/// The drawing that is made of `SIZE/SEED`.
fn made(alloc: Global, numbers: &str) -> Option<Vec<u8>> {
    let (size, seed) = numbers.split_once("/")?;
    let line = format!(in alloc; "dwg make {} {}", size, seed).ok()?;
    let made = written(alloc, line.as_str(), &[], PLENTY)?;
    Vec::from_slice(alloc, made.as_slice()).ok()
}

/// A canonical file by its name, the drawing that is made of two numbers, or `nothing`.
fn drawing_of(alloc: Global, name: &str) -> Option<Vec<u8>> {
    if name == "nothing" {
        return Some(Vec::new(alloc));
    }
    match name.strip_prefix("made/") {
        Some(numbers) => made(alloc, numbers),
        None => canonical(alloc, name),
    }
}

/// The certificate of a file.
fn certificate_of(alloc: Global, name: &str) -> Option<Vec<u8>> {
    let drawing = drawing_of(alloc, name)?;
    let certificate = written(alloc, "dwg certify", &drawing, PLENTY)?;
    Vec::from_slice(alloc, certificate.as_slice()).ok()
}

/// The certificate of a file, and the file after it.
fn certified(alloc: Global, name: &str) -> Option<Vec<u8>> {
    let mut bytes = certificate_of(alloc, name)?;
    bytes.extend_from_slice(&drawing_of(alloc, name)?).ok()?;
    Some(bytes)
}

/// How many objects refer to an object in the middle of the largest drawing that is made, 3,600 times each.
const REFERRING: u64 = 200;

/// The frame of such an object, by its number: a dictionary whose extended data refers to object 18000 alone.
fn referring_frame(alloc: Global, number: u64) -> Option<Vec<u8>> {
    let data = "'00 907E 5.12 050000000000018000*3600 '10101010 00 / 4.0 3.0";
    let text = format!(in alloc; "42 {:X} : {}", number.checked_add(0x100_0000)?, data).ok()?;
    frame_of(alloc, text.as_str())
}

/// A file with such objects: what is recovered of it, where its version is none and they stand after it.
fn referring(alloc: Global, name: &str) -> Option<Vec<u8>> {
    let mut bytes = drawing_of(alloc, name)?;
    *bytes.get_mut(5)? = b'8';
    for number in 0..REFERRING {
        bytes
            .extend_from_slice(&referring_frame(alloc, number)?)
            .ok()?;
    }
    let left = ran(alloc, "dwg recover", &bytes, in_pieces(PLENTY))?;
    Vec::from_slice(alloc, left.output.as_slice()).ok()
}

/// Bytes by their digits, so many times.
fn repeated(alloc: Global, digits: &str, count: &str) -> Option<Vec<u8>> {
    let once = bytes_of(alloc, digits)?;
    let mut bytes = Vec::new(alloc);
    for _ in 0..count.parse::<u32>().ok()? {
        bytes.extend_from_slice(&once).ok()?;
    }
    Some(bytes)
}

/// An input by the name of a file, or by what is made of one: its certificate, `certificate/NAME`, that and the file after it,
/// `certified/NAME`, or the file with objects that refer to one again and again, `referring/NAME`; or bytes, so many times, `BYTES*COUNT`.
fn named(alloc: Global, name: &str) -> Option<Vec<u8>> {
    if let Some((digits, count)) = name.split_once("*") {
        return repeated(alloc, digits, count);
    }
    if let Some(drawing) = name.strip_prefix("certificate/") {
        return certificate_of(alloc, drawing);
    }
    if let Some(drawing) = name.strip_prefix("certified/") {
        return certified(alloc, drawing);
    }
    match name.strip_prefix("referring/") {
        Some(drawing) => referring(alloc, drawing),
        None => drawing_of(alloc, name),
    }
}

/// An input by its text: its name, and `#LENGTH` where it is cut to a length.
pub(crate) fn input_of(alloc: Global, text: &str) -> Option<Vec<u8>> {
    match text.split_once(" #") {
        Some((name, length)) => {
            let whole = named(alloc, name)?;
            Vec::from_slice(alloc, whole.get(..length.parse::<usize>().ok()?)?).ok()
        }
        None => named(alloc, text),
    }
}
