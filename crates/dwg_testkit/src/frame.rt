//! Frames of objects.

use crate::bits::{Bits, number_of};
use dwg_check::check;
use std::alloc::Global;

/// The word that the check words of frames and sections start with.
pub(crate) const START: u16 = 0xC0C1;

/// A body after its length and before its check word. None: out of memory, and for a body of 2^15 bytes or more.
fn framed(alloc: Global, body: &[u8]) -> Option<Vec<u8>> {
    let length = u16::try_from(body.len()).ok()?;
    if length >= 0x8000 {
        return None;
    }
    let mut frame = Vec::new(alloc);
    frame.extend_from_slice(&length.to_le_bytes()).ok()?;
    frame.extend_from_slice(body).ok()?;
    let word = check(START, &frame);
    frame.extend_from_slice(&word.to_le_bytes()).ok()?;
    Some(frame)
}

/// Adds a type number by its shortest spelling.
fn push_number(bits: &mut Bits, number: u16) -> Option<()> {
    match number {
        0 => bits.push(2, 2),
        256 => bits.push(3, 2),
        1..=255 => {
            bits.push(1, 2)?;
            bits.push(u64::from(number), 8)
        }
        _ => {
            bits.push(0, 2)?;
            bits.push_bytes(&number.to_le_bytes())
        }
    }
}

/// Where the bit size of an object of AC1014 stands among the words of its main bits.
const SIZE: &str = "size";

/// The type number of an object, and its own handle.
fn head_of(alloc: Global, text: &str) -> Option<(Bits, Bits)> {
    let (number, _) = text.split_once(" ")?;
    let mut before = Bits::new(alloc);
    push_number(&mut before, number.parse::<u16>().ok()?)?;
    let mut own = Bits::new(alloc);
    own.push_handle(0, handle_of(text)?)?;
    Some((before, own))
}

/// What stands before the bit size, and what stands after it and before the references: in AC1015 the type number alone stands before
/// it, in AC1014 own handle and main bits up to the word `size` as well.
fn own_bits(alloc: Global, text: &str, main: &str) -> Option<(Bits, Bits)> {
    let (mut before, mut own) = head_of(alloc, text)?;
    if let Some((prefix, after)) = main.split_once(SIZE) {
        before.push_all(&own)?;
        before.push_text(prefix)?;
        return Some((before, Bits::of(alloc, after)?));
    }
    own.push_text(main)?;
    Some((before, own))
}

/// The body of an object: what stands before the bit size, how many bits stand before its references, what stands after that, and its
/// references.
fn body_of(alloc: Global, before: &Bits, own: &Bits, references: &str) -> Option<Vec<u8>> {
    let mut body = Bits::new(alloc);
    body.push_all(before)?;
    let size = body.length().wrapping_add(32).wrapping_add(own.length());
    body.push_bytes(&u32::try_from(size).unwrap_or(u32::MAX).to_le_bytes())?;
    body.push_all(own)?;
    body.push_text(references)?;
    body.to_bytes(alloc)
}

/// The handle that a frame's text names.
pub(crate) fn handle_of(text: &str) -> Option<u64> {
    let (head, _) = text.split_once(" : ")?;
    let (_, handle) = head.split_once(" ")?;
    number_of(handle)
}

/// The frame of an object by a text `NUMBER HANDLE : MAIN / REFERENCES`: its type number in decimal digits, its own handle in
/// hexadecimal ones, and the words of its main bits and its references (`Bits::push_text`). Length, bit size, padding and check
/// word are put in. The bit size stands where AC1015 has it, after the type number; where MAIN has the word `size`, it stands there,
/// as in AC1014. None for any other text, and out of memory.
pub fn frame_of(alloc: Global, text: &str) -> Option<Vec<u8>> {
    let (_, parts) = text.split_once(" : ")?;
    let (main, references) = parts.split_once(" / ")?;
    let (before, own) = own_bits(alloc, text, main)?;
    let body = body_of(alloc, &before, &own, references)?;
    framed(alloc, &body)
}
