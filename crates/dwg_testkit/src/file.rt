//! Whole files of three sections.

use crate::bits::bytes_of;
use crate::frame::{START, frame_of, handle_of};
use dwg_check::check;
use std::alloc::Global;

/// What ends the file header.
const HEADER_END: &str = "95A04E28 99821AE5 5E41E05F 9D3A4D00";

/// What begins the header variables; each byte's complement ends them.
const VARIABLES: &str = "CF7B1F23 FDDE38A9 5F7C68B8 4E6D335F";

/// What begins the classes.
const CLASSES: &str = "8DA1C4B8 C4A9F8C5 C0DCF45F E7CFB68A";

/// What begins the preview.
const PREVIEW: &str = "1F256D07 D4362828 9D57CA3F 9D44102B";

/// By what the check word of a header of three locators is changed.
const HEADER_CHANGE: u16 = 0xA598;

/// How many bytes a header of three locators has.
const HEADER_SIZE: u32 = 70;

/// How many of them stand before its check word.
const HEADER_FIELDS: usize = 52;

/// How many bytes stand around the content of a framed section.
const AROUND: u32 = 38;

/// How many bytes the preview without a picture has.
const PREVIEW_SIZE: u32 = 37;

/// How many bytes there are, or the largest number of four bytes.
fn length_of(bytes: &[u8]) -> u32 {
    u32::try_from(bytes.len()).unwrap_or(u32::MAX)
}

/// How many bytes the parts of a file have, which follow one another, modulo 2^32.
#[derive(Clone, Copy)]
struct Sizes {
    /// The framed header variables.
    variables: u32,
    /// The framed classes.
    classes: u32,
    /// The frames of the objects.
    frames: u32,
    /// The map.
    map: u32,
}

impl Sizes {
    /// The place of the classes.
    fn at_classes(&self) -> u32 {
        HEADER_SIZE.wrapping_add(self.variables)
    }

    /// The place of the preview.
    fn at_preview(&self) -> u32 {
        self.at_classes().wrapping_add(self.classes)
    }

    /// The place of the first frame.
    fn at_frames(&self) -> u32 {
        self.at_preview().wrapping_add(PREVIEW_SIZE)
    }

    /// The place of the map.
    fn at_map(&self) -> u32 {
        self.at_frames().wrapping_add(self.frames)
    }
}

/// Adds what stands between a begin sentinel and its end sentinel, with both.
fn push_between(alloc: Global, file: &mut Vec<u8>, sentinel: &str, between: &[u8]) -> Option<()> {
    let begin = bytes_of(alloc, sentinel)?;
    file.extend_from_slice(&begin).ok()?;
    file.extend_from_slice(between).ok()?;
    for byte in &begin {
        file.push(!*byte).ok()?;
    }
    Some(())
}

/// Adds a content with its size and its check word, between the sentinels.
fn push_section(alloc: Global, file: &mut Vec<u8>, sentinel: &str, content: &[u8]) -> Option<()> {
    let mut between = Vec::new(alloc);
    between
        .extend_from_slice(&length_of(content).to_le_bytes())
        .ok()?;
    between.extend_from_slice(content).ok()?;
    let word = check(START, &between);
    between.extend_from_slice(&word.to_le_bytes()).ok()?;
    push_between(alloc, file, sentinel, &between)
}

/// Adds a locator.
fn push_locator(header: &mut Vec<u8>, number: u8, place: u32, size: u32) -> Option<()> {
    header.push(number).ok()?;
    header.extend_from_slice(&place.to_le_bytes()).ok()?;
    header.extend_from_slice(&size.to_le_bytes()).ok()
}

/// Adds a number by units of seven bits, the lowest first; the last unit has but `last` bits of it.
fn push_units(page: &mut Vec<u8>, number: u64, last: u64) -> Option<()> {
    let mut left = number;
    for _ in 0..10u32 {
        let low = (left & 0x7F) as u8;
        if left < last {
            return page.push(low).ok();
        }
        page.push(low | 0x80).ok()?;
        left >>= 7;
    }
    None
}

/// The frames of a file after each other, and the pairs of its map.
#[derive(Drop)]
struct Frames {
    /// The frames.
    bytes: Vec<u8>,
    /// The pairs.
    pairs: Vec<u8>,
    /// The last handle.
    handle: u64,
    /// The place of the last frame.
    place: u64,
}

impl Frames {
    /// Puts a frame at the end, by its text; `start` is the place of the first.
    fn push(&mut self, alloc: Global, start: u32, text: &str) -> Option<()> {
        let handle = handle_of(text)?;
        let place = u64::from(start).wrapping_add(self.bytes.len() as u64);
        push_units(&mut self.pairs, handle.wrapping_sub(self.handle), 128)?;
        push_units(&mut self.pairs, place.wrapping_sub(self.place), 64)?;
        self.bytes.extend_from_slice(&frame_of(alloc, text)?).ok()?;
        self.handle = handle;
        self.place = place;
        Some(())
    }
}

/// A page of the map with these pairs.
fn page_of(alloc: Global, pairs: &[u8]) -> Option<Vec<u8>> {
    let size = u16::try_from(pairs.len()).ok()?.checked_add(2)?;
    let mut page = Vec::new(alloc);
    page.extend_from_slice(&size.to_be_bytes()).ok()?;
    page.extend_from_slice(pairs).ok()?;
    let word = check(START, &page);
    page.extend_from_slice(&word.to_be_bytes()).ok()?;
    Some(page)
}

/// The map of these pairs: a page of them, where there are some, and the last one.
fn map_of(alloc: Global, pairs: &[u8]) -> Option<Vec<u8>> {
    let mut map = Vec::new(alloc);
    if !pairs.is_empty() {
        map.extend_from_slice(&page_of(alloc, pairs)?).ok()?;
    }
    map.extend_from_slice(&page_of(alloc, &[])?).ok()?;
    Some(map)
}

/// What the file header says before its check word. Lead, mark and code page are zeros.
fn header_fields(alloc: Global, sizes: &Sizes) -> Option<Vec<u8>> {
    let mut header = Vec::from_slice(alloc, b"AC1015\0\0\0\0\0\0\0").ok()?;
    header
        .extend_from_slice(&sizes.at_preview().to_le_bytes())
        .ok()?;
    header.extend_from_slice(&[0, 0, 0, 0, 3, 0, 0, 0]).ok()?;
    push_locator(&mut header, 0, HEADER_SIZE, sizes.variables)?;
    push_locator(&mut header, 1, sizes.at_classes(), sizes.classes)?;
    push_locator(&mut header, 2, sizes.at_map(), sizes.map)?;
    Some(header)
}

/// A file whose header has three locators, with the check word of the header made right.
fn with_header_word(alloc: Global, file: &[u8]) -> Option<Vec<u8>> {
    let fields = file.get(..HEADER_FIELDS)?;
    let after = file.get(HEADER_FIELDS + 2..)?;
    let word = check(0, fields) ^ HEADER_CHANGE;
    let mut sealed = Vec::from_slice(alloc, fields).ok()?;
    sealed.extend_from_slice(&word.to_le_bytes()).ok()?;
    sealed.extend_from_slice(after).ok()?;
    Some(sealed)
}

/// A file whose header has three locators, as one of AC1014: with the six bytes of that version, and the check word of the header made
/// right.
pub fn older(alloc: Global, file: &[u8]) -> Option<Vec<u8>> {
    let mut renamed = Vec::from_slice(alloc, b"AC1014").ok()?;
    renamed.extend_from_slice(file.get(6..)?).ok()?;
    with_header_word(alloc, &renamed)
}

/// The file header over parts of these sizes.
fn header_of(alloc: Global, sizes: &Sizes) -> Option<Vec<u8>> {
    let mut header = header_fields(alloc, sizes)?;
    let word = check(0, &header) ^ HEADER_CHANGE;
    header.extend_from_slice(&word.to_le_bytes()).ok()?;
    header
        .extend_from_slice(&bytes_of(alloc, HEADER_END)?)
        .ok()?;
    Some(header)
}

/// Adds the framed header variables, the framed classes, and the preview without a picture.
fn push_sections(
    alloc: Global,
    file: &mut Vec<u8>,
    variables: &[u8],
    classes: &[u8],
) -> Option<()> {
    push_section(alloc, file, VARIABLES, variables)?;
    push_section(alloc, file, CLASSES, classes)?;
    push_between(alloc, file, PREVIEW, &[1, 0, 0, 0, 0])
}

/// The frames of a text, the first of them at a place.
fn frames_of(alloc: Global, start: u32, text: &str) -> Option<Frames> {
    let mut frames = Frames {
        bytes: Vec::new(alloc),
        pairs: Vec::new(alloc),
        handle: 0,
        place: 0,
    };
    for frame in text.split(" ; ") {
        if !frame.is_empty() && frame != "-" {
            frames.push(alloc, start, frame)?;
        }
    }
    Some(frames)
}

/// The file of a content of the header variables, one of the classes, and frames with ` ; ` between them, in ascending order of handle
/// (`frame_of`), with one page of the map: where all are spelled canonically, the canonical file. None for another text, for out of
/// memory, and for more than a page of pairs.
pub fn file_of(alloc: Global, variables: &[u8], classes: &[u8], frames: &str) -> Option<Vec<u8>> {
    let mut sizes = Sizes {
        variables: AROUND.wrapping_add(length_of(variables)),
        classes: AROUND.wrapping_add(length_of(classes)),
        frames: 0,
        map: 0,
    };
    let reported = frames_of(alloc, sizes.at_frames(), frames)?;
    let map = map_of(alloc, &reported.pairs)?;
    sizes.frames = length_of(&reported.bytes);
    sizes.map = length_of(&map);
    let mut file = header_of(alloc, &sizes)?;
    push_sections(alloc, &mut file, variables, classes)?;
    file.extend_from_slice(&reported.bytes).ok()?;
    file.extend_from_slice(&map).ok()?;
    Some(file)
}
