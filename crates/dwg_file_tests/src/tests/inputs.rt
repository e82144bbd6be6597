//! What the inputs of tables are made of: frames, files and classes by their texts.

use dwg_base::Items;
use dwg_classes::{Class, read_classes};
use dwg_testkit::{Bits, bytes_of, file_of, frame_of};
use std::alloc::Global;

/// The bytes of a frame: by its text (`frame_of`), or by their digits.
pub(crate) fn frame(alloc: Global, text: &str) -> Option<Vec<u8>> {
    match text.split_once(" : ") {
        Some(_) => frame_of(alloc, text),
        None => bytes_of(alloc, text),
    }
}

/// The canonical file without header variables of the content of its classes and its frames.
pub(crate) fn canonical_file(alloc: Global, classes: &str, frames: &str) -> Option<Vec<u8>> {
    file_of(alloc, &[], &bytes_of(alloc, classes)?, frames)
}

/// Adds a number below 2^16 after its code.
fn push_short(content: &mut Bits, digits: &str) -> Option<()> {
    content.push_text("'00")?;
    content.push_bytes(&digits.parse::<u16>().ok()?.to_le_bytes())
}

/// Adds a name of fewer than 256 letters, after the code of its length.
fn push_name(content: &mut Bits, name: &str) -> Option<()> {
    content.push_text("'01")?;
    content.push(name.len() as u64, 8)?;
    content.push_bytes(name.as_bytes())
}

/// Adds a class of a number, with its name in DXF and its item, of version 0, without other names.
fn push_class(content: &mut Bits, number: &str, name: &str, item: &str) -> Option<()> {
    push_short(content, number)?;
    content.push_text("'10 '10 '10")?;
    push_name(content, name)?;
    content.push_text("'0")?;
    push_short(content, item)
}

/// Adds a class by a text `NUMBER NAME ITEM`, in decimal digits.
fn push_class_of(content: &mut Bits, text: &str) -> Option<()> {
    let (number, rest) = text.split_once(" ")?;
    let (name, item) = rest.split_once(" ")?;
    push_class(content, number, name, item)
}

/// The content of a section of classes, which stand apart by commas.
fn content_of(alloc: Global, text: &str) -> Option<Vec<u8>> {
    let mut content = Bits::new(alloc);
    for class in text.split(", ") {
        push_class_of(&mut content, class)?;
    }
    content.to_bytes(alloc)
}

/// The classes of a content of less than a thousand bytes.
fn classes_in(alloc: Global, content: &[u8]) -> Option<Items<Class>> {
    if content.len() >= 1_000 {
        return None;
    }
    read_classes(alloc, content, 0).ok()
}

/// Classes by their texts, which stand apart by commas.
pub(crate) fn classes_of(alloc: Global, text: &str) -> Option<Items<Class>> {
    classes_in(alloc, &content_of(alloc, text)?)
}
