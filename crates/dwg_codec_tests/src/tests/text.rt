//! Texts and notes.

use dwg_base::refusal_lines::MAP_DUPLICATE;
use dwg_base::{ByteRun, Items, MemSink, NoMemory, Refusal, Version};
use dwg_classes::Class;
use dwg_sections::{FileHeader, Locator};
use dwg_testkit::bytes_of;
use dwg_text::{
    preview_dropped_note, print_classes, print_sections, read_fault_note, refusal_note,
    too_long_note, usage_note,
};
use std::alloc::Global;
use std::process::Abort;

/// Adds the letters of bytes. For out of memory some are missing.
fn print(text: &mut String, bytes: &[u8]) {
    for byte in bytes {
        let _full = text.push(char::from(*byte));
    }
}

/// Adds a text.
fn print_run(text: &mut String, run: Result<ByteRun, NoMemory>) {
    if let Ok(run) = run {
        print(text, run.as_slice());
    }
}

/// Asserts that a text is printed.
fn is_printed(rt: &impl Abort, text: &str, wanted: &str) {
    assert_eq!(rt; text, wanted);
}

/// A header of a version whose lead and mark aren't printed, with one locator.
fn header(alloc: Global, version: Version) -> FileHeader {
    let mut locators = Items::new(alloc);
    let _full = locators.push(Locator {
        number: 255,
        place: 4_294_967_295,
        size: 1_000,
    });
    FileHeader {
        version,
        lead: [1; 7],
        preview: 7,
        mark: [2; 2],
        code_page: 30,
        locators,
    }
}

/// The note on a refusal.
fn note(alloc: Global) -> Result<ByteRun, NoMemory> {
    refusal_note(alloc, Refusal::new(MAP_DUPLICATE, 3, 204))
}

/// A sink with room for each text.
fn roomy(alloc: Global) -> Result<MemSink, NoMemory> {
    MemSink::new(alloc, 4096, 4096, Items::new(alloc))
}

/// Adds the text of the header of a version.
fn add_sections(alloc: Global, text: &mut String, version: Version) {
    if let Ok(mut sink) = roomy(alloc) {
        let _sent = print_sections(alloc, &header(alloc, version), &mut sink);
        print(text, sink.bytes());
    }
}

/// The text of the header of each version, and the notes.
fn texts(alloc: Global) -> String {
    let mut text = String::new(alloc);
    add_sections(alloc, &mut text, Version::Ac1015);
    add_sections(alloc, &mut text, Version::Ac1014);
    print_run(&mut text, note(alloc));
    print(&mut text, read_fault_note());
    print(&mut text, too_long_note());
    print(&mut text, usage_note());
    print(&mut text, preview_dropped_note());
    text
}

#[test]
fn prints_sections_and_notes(rt: HostRuntime) {
    is_printed(
        &rt,
        texts(rt.alloc()).as_str(),
        "version AC1015\n\
        codepage 30\n\
        preview 7\n\
        section 255 at 4294967295 size 1000\n\
        version AC1014\n\
        codepage 30\n\
        preview 7\n\
        section 255 at 4294967295 size 1000\n\
        dwg: refused: map 3 at 204: duplicate\n\
        dwg: read fault\n\
        dwg: input too long\n\
        dwg: usage: sections | classes | show | rewrite | audit | recover | make N SEED | drill N | appdata | certify | accept | carry\n\
        dwg: preview dropped\n",
    );
}

/// The bytes of a hexadecimal text as a run.
fn run(alloc: Global, digits: &str) -> ByteRun {
    ByteRun::from_vec(bytes_of(alloc, digits).unwrap_or(Vec::new(alloc)))
}

/// A class with a quotation mark, a blank, a backslash and a tilde in its application, and with bytes in its C++ name that aren't
/// printed as they are.
fn marked(alloc: Global) -> Class {
    Class {
        number: 501,
        version: 300,
        application: run(alloc, "61 20 22 62 5C 7E"),
        cpp_name: run(alloc, "00 1F 7F AB FF"),
        dxf_name: run(alloc, "-"),
        proxy: true,
        item: 499,
    }
}

/// A class with the largest number and the DXF name LWPOLYLINE.
fn plain(alloc: Global) -> Class {
    Class {
        number: 65_535,
        version: 0,
        application: run(alloc, "-"),
        cpp_name: run(alloc, "-"),
        dxf_name: run(alloc, "4C 57 50 4F 4C 59 4C 49 4E 45"),
        proxy: false,
        item: 7,
    }
}

/// Both classes.
fn classes(alloc: Global) -> Items<Class> {
    let mut classes = Items::new(alloc);
    let _full = classes.push(marked(alloc));
    let _full = classes.push(plain(alloc));
    classes
}

/// The text of both classes.
fn text_of_classes(alloc: Global) -> String {
    let mut text = String::new(alloc);
    if let Ok(mut sink) = roomy(alloc) {
        let _sent = print_classes(alloc, classes(alloc).as_slice(), &mut sink);
        print(&mut text, sink.bytes());
    }
    text
}

#[test]
fn prints_classes_with_their_texts_between_quotation_marks(rt: HostRuntime) {
    is_printed(
        &rt,
        text_of_classes(rt.alloc()).as_str(),
        "classes 2\n\
        class 501 version 300 proxy 1 item 499 app \"a \\22b\\5c~\" cpp \"\\00\\1f\\7f\\ab\\ff\" dxf \"\"\n\
        class 65535 version 0 proxy 0 item 7 app \"\" cpp \"\" dxf \"LWPOLYLINE\"\n",
    );
}
