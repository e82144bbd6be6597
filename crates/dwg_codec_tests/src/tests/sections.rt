//! The file header and the framed sections.

ghost use Rattle.std.specs.Prelude.{◌≡◌, ◌%◌, length, IfSome};
ghost use Rattle.dwg_sections.specs.FileHeader.{LocateSections};

use crate::tests::sinks::{bytes_in, has_room};
use dwg_base::Version;
use dwg_bits::BitSink;
use dwg_check::header_word;
use dwg_sections::{
    CLASSES_NUMBER, FileHeader, Framed, Locator, OBJECT_MAP_NUMBER, VARIABLES_NUMBER,
    read_file_header, read_framed, write_file_header, write_framed,
};
use dwg_testkit::{Case, Line, Report, bytes_of, hold};
use std::alloc::Global;
use std::test::Fail;

/// Reports a locator.
fn report_locator(locator: &Locator, report: &mut Report) {
    report.number(u64::from(locator.number));
    report.hex(u64::from(locator.place));
    report.hex(u64::from(locator.size));
}

/// Reports the version, where it is AC1014.
fn report_version(version: Version, report: &mut Report) {
    if version == Version::Ac1014 {
        report.word("AC1014");
    }
}

/// Writes what stands before the locators.
fn report_prefix(header: &FileHeader, report: &mut Report) {
    report_version(header.version, report);
    report.bytes(&header.lead);
    report.hex(u64::from(header.preview));
    report.bytes(&header.mark);
    report.hex(u64::from(header.code_page));
}

/// Reports the fields of a header.
fn report_fields(header: &FileHeader, report: &mut Report) {
    report_prefix(header, report);
    for locator in header.locators.as_slice() {
        report_locator(locator, report);
    }
}

/// Writes what is read of a header.
fn report_header(alloc: Global, bytes: &[u8], report: &mut Report) {
    match read_file_header(alloc, bytes) {
        Ok(header) => report_fields(&header, report),
        Err(fault) => report.fault(fault),
    }
}

/// `header | HEADER`: AC1014, where the header is of that version; lead, preview, mark and code page; and number, place and size of each
/// locator
fn case_header(line: &mut Line<'_>, report: &mut Report) -> Option<()> {
    report_header(line.alloc, &line.bytes(1)?, report);
    Some(())
}

/// The header that bytes begin with.
fn header_of(alloc: Global, bytes: &[u8]) -> Option<FileHeader>
    ensures { IfSome result (λ header. LocateSections header.locators) }
{
    read_file_header(alloc, bytes).ok()
}

/// Reports the place of a section.
fn report_place(header: &FileHeader, number: u8, report: &mut Report) {
    match header.place_of(number) {
        Some(place) => report.hex(u64::from(place)),
        None => report.word("none"),
    }
}

/// Reports the places of sections.
fn report_places(header: &FileHeader, report: &mut Report) {
    report_place(header, VARIABLES_NUMBER, report);
    report_place(header, CLASSES_NUMBER, report);
    report_place(header, OBJECT_MAP_NUMBER, report);
    report_place(header, 3, report);
}

/// Reports whether the header is written as the bytes.
fn report_rewritten(alloc: Global, header: &FileHeader, bytes: &[u8], report: &mut Report)
    requires { LocateSections header.now.locators }
{
    let mut sink = BitSink::new(alloc);
    if has_room(&mut sink, 776) {
        write_file_header(header, &mut sink);
    }
    report.truth(bytes_in(&sink) == bytes);
}

/// `places | HEADER`: the places of the header variables, the classes, the object map and section 3; and whether the header is written as
/// it was read
fn case_places(line: &mut Line<'_>, report: &mut Report) -> Option<()> {
    let bytes = line.bytes(1)?;
    let header = header_of(line.alloc, &bytes)?;
    report_places(&header, report);
    report_rewritten(line.alloc, &header, &bytes, report);
    Some(())
}

/// What is tried is told at the functions.
struct SectionCases;

impl Case for SectionCases {
    fn report(line: &mut Line<'_>, report: &mut Report) -> Option<()> {
        match line.name() {
            "header" => case_header(line, report),
            "places" => case_places(line, report),
            "changed" | "mended" => case_changed(line, report),
            "turned" => case_turned(line, report),
            "cut" => case_cut(line, report),
            "content" => case_content(line, report),
            _ => None,
        }
    }
}

#[test]
fn every_field_of_a_header_is_read_and_written(rt: HostRuntime) -> Result<(), Fail> {
    let cases = "
        # The smallest canonical file's, and headers with six, four and five locators in no order, whose other fields have distinct bytes:
        # version, lead, preview, mark, code page, count of locators, the locators, check word, sentinel.
        header | 414331303135 00000000000000 92000000 0000 0000 03000000 00 46000000 26000000 01 6C000000 26000000 02 B7000000 04000000 D1A1 \
            95A04E28 99821AE5 5E41E05F 9D3A4D00 | :00000000000000 x92 :0000 0 0 x46 x26 1 x6C x26 2 xB7 4
        header | 414331303135 01020304050607 0A0B0C0D 0809 0E0F 06000000 05 11121314 15161718 02 21222324 25262728 C8 31323334 35363738 00 41424344 \
            45464748 03 51525354 55565758 01 61626364 65666768 DF55 95A04E28 99821AE5 5E41E05F 9D3A4D00 \
            | :01020304050607 xD0C0B0A :0809 xF0E 5 x14131211 x18171615 2 x24232221 x28272625 200 x34333231 x38373635 0 x44434241 x48474645 3 \
            x54535251 x58575655 1 x64636261 x68676665
        header | 414331303135 01020304050607 0A0B0C0D 0809 0E0F 04000000 01 11121314 15161718 FF 21222324 25262728 00 31323334 35363738 02 41424344 \
            45464748 4018 95A04E28 99821AE5 5E41E05F 9D3A4D00 \
            | :01020304050607 xD0C0B0A :0809 xF0E 1 x14131211 x18171615 255 x24232221 x28272625 0 x34333231 x38373635 2 x44434241 x48474645
        header | 414331303135 01020304050607 0A0B0C0D 0809 0E0F 05000000 03 11121314 15161718 00 21222324 25262728 04 31323334 35363738 02 41424344 \
            45464748 01 51525354 55565758 D3B9 95A04E28 99821AE5 5E41E05F 9D3A4D00 \
            | :01020304050607 xD0C0B0A :0809 xF0E 3 x14131211 x18171615 0 x24232221 x28272625 4 x34333231 x38373635 2 x44434241 x48474645 1 \
            x54535251 x58575655
        places | 414331303135 00000000000000 92000000 0000 0000 03000000 00 46000000 26000000 01 6C000000 26000000 02 B7000000 04000000 D1A1 \
            95A04E28 99821AE5 5E41E05F 9D3A4D00 | x46 x6C xB7 none yes
        places | 414331303135 01020304050607 0A0B0C0D 0809 0E0F 06000000 05 11121314 15161718 02 21222324 25262728 C8 31323334 35363738 00 41424344 \
            45464748 03 51525354 55565758 01 61626364 65666768 DF55 95A04E28 99821AE5 5E41E05F 9D3A4D00 | x44434241 x64636261 x24232221 x54535251 yes
        places | 414331303135 01020304050607 0A0B0C0D 0809 0E0F 04000000 01 11121314 15161718 FF 21222324 25262728 00 31323334 35363738 02 41424344 \
            45464748 4018 95A04E28 99821AE5 5E41E05F 9D3A4D00 | x34333231 x14131211 x44434241 none yes
        places | 414331303135 01020304050607 0A0B0C0D 0809 0E0F 05000000 03 11121314 15161718 00 21222324 25262728 04 31323334 35363738 02 41424344 \
            45464748 01 51525354 55565758 D3B9 95A04E28 99821AE5 5E41E05F 9D3A4D00 | x24232221 x54535251 x44434241 x14131211 yes";
    hold::<SectionCases>(rt.alloc(), cases)
}

#[test]
fn a_header_of_ac1014_is_read_and_written(rt: HostRuntime) -> Result<(), Fail> {
    let cases = "
        # The smallest canonical file's, and one with six locators, as above but for the version and the check word.
        header | 414331303134 00000000000000 92000000 0000 0000 03000000 00 46000000 26000000 01 6C000000 26000000 02 B7000000 04000000 BC0D \
            95A04E28 99821AE5 5E41E05F 9D3A4D00 | AC1014 :00000000000000 x92 :0000 0 0 x46 x26 1 x6C x26 2 xB7 4
        header | 414331303134 01020304050607 0A0B0C0D 0809 0E0F 06000000 05 11121314 15161718 02 21222324 25262728 C8 31323334 35363738 00 41424344 \
            45464748 03 51525354 55565758 01 61626364 65666768 8FA8 95A04E28 99821AE5 5E41E05F 9D3A4D00 \
            | AC1014 :01020304050607 xD0C0B0A :0809 xF0E 5 x14131211 x18171615 2 x24232221 x28272625 200 x34333231 x38373635 0 x44434241 x48474645 3 \
            x54535251 x58575655 1 x64636261 x68676665
        places | 414331303134 00000000000000 92000000 0000 0000 03000000 00 46000000 26000000 01 6C000000 26000000 02 B7000000 04000000 BC0D \
            95A04E28 99821AE5 5E41E05F 9D3A4D00 | x46 x6C xB7 none yes
        places | 414331303134 01020304050607 0A0B0C0D 0809 0E0F 06000000 05 11121314 15161718 02 21222324 25262728 C8 31323334 35363738 00 41424344 \
            45464748 03 51525354 55565758 01 61626364 65666768 8FA8 95A04E28 99821AE5 5E41E05F 9D3A4D00 | x44434241 x64636261 x24232221 x54535251 yes";
    hold::<SectionCases>(rt.alloc(), cases)
}

/// The header of the smallest canonical file.
const HEADER: &str = "414331303135 00000000000000 92000000 0000 0000 03000000 \
    00 46000000 26000000  01 6C000000 26000000  02 B7000000 04000000 \
    D1A1 95A04E28 99821AE5 5E41E05F 9D3A4D00";

/// Puts a byte at a place, where that is within the bytes.
fn put(bytes: &mut [u8], place: u64, byte: u8) {
    if let Some(there) = bytes.get_mut(place.min(1_000) as usize) {
        *there = byte;
    }
}

/// Bytes with one of them changed.
fn changed(alloc: Global, digits: &str, place: u64, byte: u64) -> Option<Vec<u8>> {
    let mut bytes = bytes_of(alloc, digits)?;
    put(bytes.as_mut_slice(), place, byte.min(255) as u8);
    Some(bytes)
}

/// Puts in the check word of a header with three locators.
fn mend(bytes: &mut [u8]) {
    let Some(prefix) = bytes.get(..52) else {
        return;
    };
    let [low, high] = header_word(3, prefix).to_le_bytes();
    put(bytes, 52, low);
    put(bytes, 53, high);
}

/// `changed PLACE BYTE`: what is read of the smallest canonical file's header with this byte at this place; at the name mended with the
/// check word that is right then
fn case_changed(line: &mut Line<'_>, report: &mut Report) -> Option<()> {
    let [place, byte, ..] = line.numbers()?;
    let mut bytes = changed(line.alloc, HEADER, place, byte)?;
    if line.name() == "mended" {
        mend(bytes.as_mut_slice());
    }
    report_header(line.alloc, bytes.as_slice(), report);
    Some(())
}

#[test]
fn names_the_first_line_of_a_header_that_fails(rt: HostRuntime) -> Result<(), Fail> {
    let cases = "
        # The last changes nothing.
        changed 0 97 | refused 2 0 0
        changed 21 2 | refused 3 0 21
        changed 21 7 | refused 3 0 21
        changed 24 1 | refused 3 0 21
        changed 21 4 | refused 4 0 70
        changed 6 1 | refused 5 0 52
        changed 53 0 | refused 5 0 52
        changed 69 1 | refused 6 0 54
        changed 0 65 | :00000000000000 x92 :0000 0 0 x46 x26 1 x6C x26 2 xB7 4
        # A locator is repeated or missing.
        mended 34 0 | refused 7 1 34
        mended 43 0 | refused 7 2 43
        mended 43 1 | refused 7 2 43
        mended 25 9 | refused 8 0 21
        mended 34 9 | refused 8 1 21
        mended 43 9 | refused 8 2 21";
    hold::<SectionCases>(rt.alloc(), cases)
}

#[test]
fn no_other_version_is_read(rt: HostRuntime) -> Result<(), Fail> {
    let cases = "
        # AC1015 and AC1014 with the check word of AC1015; AC1012, AC1018 and others.
        changed 5 53 | :00000000000000 x92 :0000 0 0 x46 x26 1 x6C x26 2 xB7 4
        changed 5 52 | refused 5 0 52
        mended 5 52 | AC1014 :00000000000000 x92 :0000 0 0 x46 x26 1 x6C x26 2 xB7 4
        mended 5 50 | refused 2 0 0
        mended 5 51 | refused 2 0 0
        mended 5 54 | refused 2 0 0
        mended 5 56 | refused 2 0 0
        mended 5 0 | refused 2 0 0
        mended 4 48 | refused 2 0 0
        # Too few bytes for a version or for what stands before the locators, which comes first; and just as many.
        header | 4143313031 | refused 1 0 5
        header | 414331303134 | refused 1 0 6
        header | 414331303134 00000000000000 92000000 0000 0000 030000 | refused 1 0 24
        header | 414331303132 00000000000000 92000000 0000 0000 030000 | refused 1 0 24
        header | 414331303134 00000000000000 92000000 0000 0000 03000000 | refused 4 0 25
        header | 414331303132 00000000000000 92000000 0000 0000 03000000 | refused 2 0 0
        header | 414331303100 00000000000000 92000000 0000 0000 03000000 | refused 2 0 0";
    hold::<SectionCases>(rt.alloc(), cases)
}

/// The header variables and the classes of the smallest canonical file, both without content: begin sentinel, size, check word, end
/// sentinel.
const EMPTY_SECTIONS: &str = "\
    CF7B1F23 FDDE38A9 5F7C68B8 4E6D335F 00000000 3DC0 3084E0DC 0221C756 A0839747 B192CCA0 \
    8DA1C4B8 C4A9F8C5 C0DCF45F E7CFB68A 00000000 3DC0 725E3B47 3B56073A 3F230BA0 18304975";

/// Reports the content of a section at a place.
fn report_section(bytes: &[u8], which: Framed, place: u64, report: &mut Report) {
    match read_framed(bytes, place.min(4_294_967_295) as u32, which) {
        Ok(content) => report.bytes(content),
        Err(refusal) => report.refusal(refusal),
    }
}

/// The section of a number: variables, or else classes.
fn section_of(number: u64) -> Framed {
    if number == u64::from(VARIABLES_NUMBER) {
        return Framed::Variables;
    }
    Framed::Classes
}

/// `turned SECTION PLACE AT BYTE`: the content of the section at the place, where both sections without content have this byte at the place
/// AT
fn case_turned(line: &mut Line<'_>, report: &mut Report) -> Option<()> {
    let [section, place, at, byte, ..] = line.numbers()?;
    let bytes = changed(line.alloc, EMPTY_SECTIONS, at, byte)?;
    report_section(&bytes, section_of(section), place, report);
    Some(())
}

/// `cut SECTION PLACE LENGTH`: the content of the section at the place, where of both sections without content there are but so many bytes
fn case_cut(line: &mut Line<'_>, report: &mut Report) -> Option<()> {
    let [section, place, length, ..] = line.numbers()?;
    let bytes = bytes_of(line.alloc, EMPTY_SECTIONS)?;
    let prefix = bytes.get(..length.min(1_000) as usize)?;
    report_section(prefix, section_of(section), place, report);
    Some(())
}

/// Writes a section.
fn push_section(sink: &mut BitSink, which: Framed, content: &[u8])
    requires { length sink.old.written % 8 ≡ 0 }
{
    if content.len() > 100 {
        return;
    }
    if has_room(sink, 8 * (38 + content.len() as u64)) {
        write_framed(which, content, sink);
    }
}

/// `content SECTION | CONTENT`: how many bytes are written, the content that is read of them, and what is read from the second on
fn case_content(line: &mut Line<'_>, report: &mut Report) -> Option<()> {
    let [section, ..] = line.numbers()?;
    let which = section_of(section);
    let mut sink = BitSink::new(line.alloc);
    push_section(&mut sink, which, &line.bytes(1)?);
    let bytes = bytes_in(&sink);
    report.number(bytes.len() as u64);
    report_section(bytes, which, 0, report);
    report_section(bytes, which, 1, report);
    Some(())
}

#[test]
fn sections_are_read_where_they_were_written_and_the_first_line_that_fails_is_named(
    rt: HostRuntime,
) -> Result<(), Fail> {
    let cases = "
        turned 0 0 0 0 | refused 10 0 0
        turned 0 0 15 0 | refused 10 0 0
        turned 0 0 16 39 | refused 11 0 16
        turned 0 0 19 1 | refused 11 0 16
        turned 0 0 20 0 | refused 12 0 20
        turned 0 0 21 0 | refused 12 0 20
        turned 0 0 22 0 | refused 13 0 22
        turned 0 0 37 0 | refused 13 0 22
        turned 1 38 38 0 | refused 15 0 38
        turned 1 38 53 0 | refused 15 0 38
        turned 1 38 54 39 | refused 16 0 54
        turned 1 38 57 1 | refused 16 0 54
        turned 1 38 58 0 | refused 17 0 58
        turned 1 38 59 0 | refused 17 0 58
        turned 1 38 60 0 | refused 18 0 60
        turned 1 38 75 0 | refused 18 0 60
        # The first two have all their bytes.
        cut 0 0 76 | :
        cut 1 38 76 | :
        cut 0 0 0 | refused 9 0 0
        cut 0 0 19 | refused 9 0 0
        cut 0 0 20 | refused 11 0 16
        cut 0 0 37 | refused 11 0 16
        cut 0 4294967295 76 | refused 9 0 4294967295
        cut 1 38 38 | refused 14 0 38
        cut 1 38 57 | refused 14 0 38
        cut 1 38 58 | refused 16 0 54
        cut 1 38 75 | refused 16 0 54
        cut 1 4294967295 76 | refused 14 0 4294967295
        # The content is AC1015 and more.
        content 0 | 41433130313520616E64206D6F7265 | 53 :41433130313520616E64206D6F7265 refused 10 0 1
        content 1 | 41433130313520616E64206D6F7265 | 53 :41433130313520616E64206D6F7265 refused 15 0 1";
    hold::<SectionCases>(rt.alloc(), cases)
}
