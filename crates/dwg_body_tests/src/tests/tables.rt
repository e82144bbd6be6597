//! Applications, layers, text styles, linetypes and headers of blocks.

use crate::tests::fields::{Fields, put_bytes, put_flags, put_ref, put_space, put_text};
use crate::tests::table::BothVersions;
use dwg_tables::{AppId, BlockHeader, Dash, Ends, Entry, InsertMark, Layer, Ltype, Style};
use dwg_testkit::{Report, hold};
use std::test::Fail;

/// Reports what all entries of tables have.
fn put_entry(report: &mut Report, entry: &Entry) {
    put_text(report, &entry.name);
    report.hexes(&[
        u64::from(entry.flag64),
        u64::from(entry.xref_index),
        u64::from(entry.xref_dependent),
    ]);
    put_ref(report, &entry.xref);
}

impl Fields for Layer {
    fn put(&self, report: &mut Report) {
        put_entry(report, &self.entry);
        report.hexes(&[u64::from(self.values), u64::from(self.colour)]);
        put_ref(report, &self.plotstyle);
        put_ref(report, &self.linetype);
    }
}

impl Fields for AppId {
    fn put(&self, report: &mut Report) {
        put_entry(report, &self.entry);
        report.hexes(&[u64::from(self.extra)]);
    }
}

/// All entries of tables begin with name, flag64, xref_index, xref_dependent and xref. Applications: extra. Layers: values, colour,
/// plotstyle, linetype. Of each one is spelled by long codes as well, two are cut short, and in the last every number is another one; an
/// application has no name and is of another drawing. In both versions, of applications: every number another one, and cut short; one
/// without a name, of another drawing; of layers: each flag of the values alone, none, and all; values of 16, of 256, and of a flag that is
/// known beside them; another plot style, and one that leads nowhere by another code; cut short in both places.
#[test]
fn applications_and_layers_are_reported_and_written(rt: HostRuntime) -> Result<(), Fail> {
    let app_ids = "
        '01 04 41434144 '0 '10 '0 00 / 5.0 | = | 'ACAD' 0 0 0 5.0 0
        '00 0400 41434144 '0 '00 0000 '0 00 / 5100 | '01 04 41434144 '0 '10 '0 00 / 5.0 | 'ACAD' 0 0 0 5.0 0
        '10 '1 '11 '1 C8 / 5.1F | = | = | '' 1 x100 1 5.1F xC8
        '01 04 41434144 '0 '10 '0 '00 / 5.0 | none
        '01 04 41434144 '0 '10 '0 00 '00 / - | none
        '01 01 41 '0 '10 '0 07 / 5.51 | = | = | 'A' 0 0 0 5.51 7
        older '01 01 41 '0 '10 '0 '00 / 5.51 | none";
    let layers = "
        '01 01 30 '1 '10 '0 '00 F003 '01 07 / 5.0 5.F 5.116 | = | '0' 1 0 0 5.0 x3F0 7 5.F 5.116
        '00 0100 30 '1 '00 0000 '0 '00 F003 '00 0700 / 5100 52000F 53000116 | '01 01 30 '1 '10 '0 '00 F003 '01 07 / 5.0 5.F 5.116 \
            | '0' 1 0 0 5.0 x3F0 7 5.F 5.116
        '01 01 30 '1 '10 '0 '00 F003 '01 '000001 / 5.0 5.F 5.116 | none
        '01 01 30 '1 '10 '0 '00 F003 '01 07 '000000 / 50 51 0F 52 01 | none
        '01 01 4C '1 '01 02 '0 '01 03 '01 04 / 5.51 5.52 5.53 | = | 'L' 1 2 0 5.51 3 4 5.52 5.53
        '01 01 4C '1 '01 02 '0 '10 '01 04 / 5.51 5.0 5.53 | = | '01 01 4C '1 '01 02 '0 '0000 '01 04 / 5.51 5.53 | 'L' 1 2 0 5.51 0 4 5.0 5.53
        '01 01 4C '1 '01 02 '0 '01 01 '01 04 / 5.51 5.0 5.53 | = | '01 01 4C '1 '01 02 '0 '1000 '01 04 / 5.51 5.53 | 'L' 1 2 0 5.51 1 4 5.0 5.53
        '01 01 4C '1 '01 02 '0 '01 02 '01 04 / 5.51 5.0 5.53 | = | '01 01 4C '1 '01 02 '0 '0100 '01 04 / 5.51 5.53 | 'L' 1 2 0 5.51 2 4 5.0 5.53
        '01 01 4C '1 '01 02 '0 '01 04 '01 04 / 5.51 5.0 5.53 | = | '01 01 4C '1 '01 02 '0 '0010 '01 04 / 5.51 5.53 | 'L' 1 2 0 5.51 4 4 5.0 5.53
        '01 01 4C '1 '01 02 '0 '01 08 '01 04 / 5.51 5.0 5.53 | = | '01 01 4C '1 '01 02 '0 '0001 '01 04 / 5.51 5.53 | 'L' 1 2 0 5.51 8 4 5.0 5.53
        '01 01 4C '0 '10 '1 '01 0F '11 / C.1 5.0 A.2 | = | '01 01 4C '0 '10 '1 '1111 '11 / C.1 A.2 | 'L' 0 0 1 C.7F xF x100 5.0 A.82
        fit '01 01 4C '1 '01 02 '0 '01 10 '01 04 / 5.51 5.0 5.53 | no
        fit '01 01 4C '1 '01 02 '0 '11 '01 04 / 5.51 5.0 5.53 | no
        fit '01 01 4C '1 '01 02 '0 '00 F103 '01 04 / 5.51 5.0 5.53 | no
        fit '01 01 4C '1 '01 02 '0 '01 01 '01 04 / 5.51 5.52 5.53 | no
        fit '01 01 4C '1 '01 02 '0 '01 01 '01 04 / 5.51 4.0 5.53 | no
        older '01 01 4C '1 '01 02 '0 '1111 '01 / 5.51 5.53 | none
        older '01 01 4C '1 '01 02 '0 '1111 '01 04 / 5.51 | none";
    hold::<BothVersions<AppId>>(rt.alloc(), app_ids)?;
    hold::<BothVersions<Layer>>(rt.alloc(), layers)
}

impl Fields for Style {
    fn put(&self, report: &mut Report) {
        put_entry(report, &self.entry);
        report.hexes(&[
            u64::from(self.flag_a),
            u64::from(self.flag_b),
            self.height,
            self.width,
            self.oblique,
            u64::from(self.generation),
            self.last_height,
        ]);
        put_text(report, &self.font);
        put_text(report, &self.big_font);
    }
}

/// What an entry has, and then both flags, height, width, oblique, generation, last height, font and big font: `STANDARD`, and the same by
/// long codes; with every part; cut short in both places; every number another one. In both versions: every number another one, and cut
/// short.
#[test]
fn text_styles_are_reported_and_written(rt: HostRuntime) -> Result<(), Fail> {
    let cases = "
        '01 08 5354414E44415244 '1 '10 '0 '0 '0 '10 '01 '10 00 '00 ^0440 '01 03 747874 '10 / 5.0 | = \
            | 'STANDARD' 1 0 0 5.0 0 0 0 x3FF^ 0 0 x4004^ 'txt' ''
        '00 0800 5354414E44415244 '1 '00 0000 '0 '0 '0 '00 ^ '00 ^F03F '00 ^ 00 '00 ^0440 '00 0300 747874 '00 0000 / 5100 \
            | '01 08 5354414E44415244 '1 '10 '0 '0 '0 '10 '01 '10 00 '00 ^0440 '01 03 747874 '10 / 5.0 \
            | 'STANDARD' 1 0 0 5.0 0 0 0 x3FF^ 0 0 x4004^ 'txt' ''
        '01 01 42 '0 '01 02 '1 '1 '0 '00 ^0840 '00 ^E03F '00 ^D03F 04 '01 '01 01 61 '01 03 626967 / 5.1F | = \
            | 'B' 0 2 1 5.1F 1 0 x4008^ x3FE^ x3FD^ 4 x3FF^ 'a' 'big'
        '01 08 5354414E44415244 '1 '10 '0 '0 '0 '10 '01 '10 00 '00 ^0440 '01 03 7478 '011101 / 5.0 | none
        '01 08 5354414E44415244 '1 '10 '0 '0 '0 '10 '01 '10 00 '00 ^0440 '01 03 747874 '10 '0000 / - | none
        '01 01 53 '0 '01 05 '1 '1 '0 '00 06^ '00 07^ '00 08^ 09 '00 0A^ '01 01 66 '01 01 67 / 5.51 | = | = | 'S' 0 5 1 5.51 1 0 6 7 8 9 xA 'f' 'g'
        older '01 01 53 '0 '01 05 '1 '1 '0 '00 06^ '00 07^ '00 08^ 09 '00 0A^ '01 01 66 '01 01 / 5.51 | none";
    hold::<BothVersions<Style>>(rt.alloc(), cases)
}

/// Reports a dash.
fn put_dash(report: &mut Report, dash: &Dash) {
    report.hexes(&[
        dash.length,
        u64::from(dash.code),
        dash.x,
        dash.y,
        dash.scale,
        dash.rotation,
        u64::from(dash.flag),
    ]);
    put_ref(report, &dash.style);
}

/// Reports a list of dashes.
fn put_dashes(report: &mut Report, dashes: &[Dash]) {
    report.word("[");
    for dash in dashes {
        put_dash(report, dash);
    }
    report.word("]");
}

/// Reports how many bytes there are, the first two, and the last.
fn put_around(report: &mut Report, bytes: &[u8]) {
    let [first, second, .., last] = bytes else {
        return report.word("-");
    };
    report.hexes(&[
        bytes.len() as u64,
        u64::from(*first),
        u64::from(*second),
        u64::from(*last),
    ]);
}

impl Fields for Ltype {
    fn put(&self, report: &mut Report) {
        put_entry(report, &self.entry);
        put_text(report, &self.description);
        report.hexes(&[self.length, u64::from(self.alignment)]);
        put_dashes(report, self.dashes.as_slice());
        put_around(report, self.texts.as_slice());
    }
}

/// What an entry has, and then description, length, alignment, dashes (length, code, x, y, scale, rotation, flag, style) and of the texts
/// how many bytes they are, the first two and the last: without dashes; of two, and the same by long codes; cut short in both places; every
/// number another one. In both versions: every number another one, and cut short.
#[test]
fn linetypes_are_reported_and_written(rt: HostRuntime) -> Result<(), Fail> {
    let cases = "
        '01 0A 434F4E54494E554F5553 '1 '10 '0 '01 0A 536F6C6964206C696E65 '10 41 00 00..FF / 5.0 | = \
            | 'CONTINUOUS' 1 0 0 5.0 'Solid line' 0 x41 [ ] x100 0 1 xFF
        '01 03 444F54 '0 '10 '0 '01 03 5F202E '00 ^E83F 41 02 '00 ^E03F '10 ^ ^ '01 '10 '10 '00 ^D0BF '01 82 ^40 ^F0BF '00 9A9999999999B93F '00 \
            ^F83F '01 02 00..FF / 5.0 5.0 5.11 | = | 'DOT' 0 0 0 5.0 '_ .' x3FE8^ x41 [ x3FE^ 0 0 0 x3FF^ 0 0 5.0 xBFD^ x82 x4^ xBFF^ \
            x3FB999999999999A x3FF8^ 2 5.11 ] x100 0 1 xFF
        '00 0300 444F54 '0 '00 0000 '0 '00 0300 5F202E '00 ^E83F 41 02 '00 ^E03F '00 0000 ^ ^ '00 ^F03F '00 ^ '00 0000 '00 ^D0BF '00 8200 ^40 ^F0BF \
            '00 9A9999999999B93F '00 ^F83F '00 0200 00..FF / 5100 5100 520011 \
            | '01 03 444F54 '0 '10 '0 '01 03 5F202E '00 ^E83F 41 02 '00 ^E03F '10 ^ ^ '01 '10 '10 '00 ^D0BF '01 82 ^40 ^F0BF '00 9A9999999999B93F \
            '00 ^F83F '01 02 00..FF / 5.0 5.0 5.11 | 'DOT' 0 0 0 5.0 '_ .' x3FE8^ x41 [ x3FE^ 0 0 0 x3FF^ 0 0 5.0 xBFD^ x82 x4^ xBFF^ \
            x3FB999999999999A x3FF8^ 2 5.11 ] x100 0 1 xFF
        '01 03 444F54 '0 '10 '0 '01 03 5F202E '00 ^E83F 41 02 '00 ^E03F '10 ^ ^ '01 '10 '10 '00 ^D0BF '01 82 ^40 ^F0BF '00 9A9999999999B93F '00 \
            ^F83F '01 02 00..FE '11 / 5.0 5.0 5.11 | none
        '01 03 444F54 '0 '10 '0 '01 03 5F202E '00 ^E83F 41 02 '00 ^E03F '10 ^ ^ '01 '10 '10 '00 ^D0BF '01 82 ^40 ^F0BF '00 9A9999999999B93F '00 \
            ^F83F '01 02 00..FF '00 / 50 50 51 | none
        '01 01 54 '0 '10 '0 '01 01 64 '00 01^ 02 02 '00 03^ '01 04 05^ 06^ '00 07^ '00 08^ '01 09 '00 0D^ '01 0E 0F^ 10^ '00 11^ '00 12^ '01 13 \
            00..FF / 5.51 5.54 5.55 | = | = | 'T' 0 0 0 5.51 'd' 1 2 [ 3 4 5 6 7 8 9 5.54 xD xE xF x10 x11 x12 x13 5.55 ] x100 0 1 xFF
        older '01 01 54 '0 '10 '0 '01 01 64 '10 02 01 '10 '10 05^ 06^ '10 '10 '10 00..FF / 5.51 | none";
    hold::<BothVersions<Ltype>>(rt.alloc(), cases)
}

/// Reports a list of marks of inserts.
fn put_marks(report: &mut Report, marks: &[InsertMark]) {
    report.word("[");
    for mark in marks {
        report.hexes(&[u64::from(mark.count)]);
        put_ref(report, &mark.target);
    }
    report.word("]");
}

/// Reports the entities of a block.
fn put_ends(report: &mut Report, ends: Option<Ends>) {
    let Some(ends) = ends else {
        return report.word("-");
    };
    put_ref(report, &ends.first);
    put_ref(report, &ends.last);
}

/// Reports what the header of a block reports by its main bits.
fn put_content(report: &mut Report, of: &BlockHeader) {
    put_flags(
        report,
        &[
            of.anonymous,
            of.has_attributes,
            of.is_xref,
            of.overlaid,
            of.loaded,
        ],
    );
    put_space(report, &of.base);
    put_text(report, &of.path);
    put_marks(report, of.inserts.as_slice());
    put_text(report, &of.description);
    put_bytes(report, &of.preview);
}

impl Fields for BlockHeader {
    fn put(&self, report: &mut Report) {
        put_entry(report, &self.entry);
        put_content(report, self);
        put_ref(report, &self.block);
        put_ends(report, self.ends);
        put_ref(report, &self.endblk);
        put_ref(report, &self.layout);
    }
}

/// What an entry has, and then anonymous, has_attributes, is_xref, overlaid, loaded, base, path, marks of inserts, description, preview,
/// block, the first and the last entity, endblk and layout: of an anonymous block; with two marks, and the same by long codes; of an
/// external reference; of an overlaid drawing; cut short in both places, and without first and last; every number another one, and one of
/// another drawing. In both versions: every number another one; each of the four flags alone, and the two that leave no entities; loaded;
/// with the mark of an insert, a description, a preview, a layout, and one that leads nowhere by another code; cut short in both places.
#[test]
fn headers_of_blocks_are_reported_and_written(rt: HostRuntime) -> Result<(), Fail> {
    let cases = "
        '01 03 2A4431 '1 '10 '0 '1 '0 '0 '0 '0 '10 '10 '10 '10 00 '10 '10 / 5.0 3.20 4.21 4.2F 3.22 5.0 | = \
            | '*D1' 1 0 0 5.0 1 0 0 0 0 0 0 0 '' [ ] '' : 3.20 4.21 4.2F 3.22 5.0
        '01 03 544147 '0 '10 '0 '0 '1 '0 '0 '1 '01 '00 ^40 '10 '01 01 70 01 FF 00 '01 04 77686174 '01 03 010203 / 5.0 3.20 4.21 4.2F 3.22 4.41 4.142 \
            5.59 | = | 'TAG' 0 0 0 5.0 0 1 0 0 1 x3FF^ x4^ 0 'p' [ 1 4.41 xFF 4.142 ] 'what' :010203 3.20 4.21 4.2F 3.22 5.59
        '00 0300 544147 '0 '00 0000 '0 '0 '1 '0 '0 '1 '00 ^F03F '00 ^40 '00 ^ '00 0100 70 01 FF 00 '00 0400 77686174 '00 03000000 010203 / 5100 \
            320020 420021 42002F 320022 420041 43000142 520059 \
            | '01 03 544147 '0 '10 '0 '0 '1 '0 '0 '1 '01 '00 ^40 '10 '01 01 70 01 FF 00 '01 04 77686174 '01 03 010203 / 5.0 3.20 4.21 4.2F 3.22 4.41 \
            4.142 5.59 | 'TAG' 0 0 0 5.0 0 1 0 0 1 x3FF^ x4^ 0 'p' [ 1 4.41 xFF 4.142 ] 'what' :010203 3.20 4.21 4.2F 3.22 5.59
        '01 01 58 '0 '01 01 '0 '0 '0 '1 '0 '1 '10 '10 '10 '01 05 782E647767 02 00 '10 '10 / 5.1F 3.20 3.22 4.41 5.0 | = \
            | 'X' 0 1 0 5.1F 0 0 1 0 1 0 0 0 'x.dwg' [ 2 4.41 ] '' : 3.20 - 3.22 5.0
        '01 01 4F '0 '10 '0 '0 '0 '0 '1 '0 '10 '10 '01 '10 00 '10 '10 / 5.0 3.20 3.22 5.0 | = \
            | 'O' 0 0 0 5.0 0 0 0 1 0 0 0 x3FF^ '' [ ] '' : 3.20 - 3.22 5.0
        '01 03 544147 '0 '10 '0 '0 '1 '0 '0 '1 '01 '00 ^40 '10 '01 01 70 01 FF 00 '01 04 77686174 '01 03 0102 '0 / 5.0 3.20 4.21 4.2F 3.22 4.41 \
            4.142 5.59 | none
        '01 03 544147 '0 '10 '0 '0 '1 '0 '0 '1 '01 '00 ^40 '10 '01 01 70 01 FF 00 '01 04 77686174 '01 03 010203 '0 / 50312041 21412F31 22414142 \
            014251 | none
        '01 03 2A4431 '1 '10 '0 '1 '0 '0 '0 '0 '10 '10 '10 '10 00 '10 '10 '0 / 5.0 3.20 3.22 5.0 | none
        '01 01 42 '0 '10 '0 '0 '1 '0 '0 '1 '00 01^ '00 02^ '00 03^ '01 01 70 04 05 00 '01 01 71 '01 03 78797A / 5.51 3.56 4.57 4.58 3.59 4.5A 4.5B \
            5.5C | = | 'B' 0 0 0 5.51 0 1 0 0 1 1 2 3 'p' [ 4 4.5A 5 4.5B ] 'q' :78797A 3.56 4.57 4.58 3.59 5.5C
        '01 01 43 '0 '10 '1 '1 '0 '1 '0 '0 '00 01^ '00 02^ '00 03^ '10 00 '10 '10 / 5.51 3.56 3.59 5.5C | = \
            | 'C' 0 0 1 5.51 1 0 1 0 0 1 2 3 '' [ ] '' : 3.56 - 3.59 5.5C
        '01 01 42 '0 '01 02 '1 '0 '1 '0 '0 '0 '00 01^ '00 02^ '00 03^ '01 01 70 00 '10 '10 / 5.51 3.56 4.57 4.58 3.59 5.0 | = \
            | '01 01 42 '0 '01 02 '1 '0 '1 '0 '0 '00 01^ '00 02^ '00 03^ '01 01 70 / 5.51 3.56 4.57 4.58 3.59 \
            | 'B' 0 2 1 5.51 0 1 0 0 0 1 2 3 'p' [ ] '' : 3.56 4.57 4.58 3.59 5.0
        '10 '1 '10 '0 '1 '0 '0 '0 '0 '10 '10 '10 '10 00 '10 '10 / 5.0 3.20 4.21 4.2F 3.22 5.0 | = \
            | '10 '1 '10 '0 '1 '0 '0 '0 '10 '10 '10 '10 / 5.0 3.20 4.21 4.2F 3.22 | '' 1 0 0 5.0 1 0 0 0 0 0 0 0 '' [ ] '' : 3.20 4.21 4.2F 3.22 5.0
        '10 '1 '10 '0 '0 '0 '1 '0 '0 '10 '10 '10 '10 00 '10 '10 / 5.0 3.20 3.22 5.0 | = \
            | '10 '1 '10 '0 '0 '0 '1 '0 '10 '10 '10 '10 / 5.0 3.20 3.22 | '' 1 0 0 5.0 0 0 1 0 0 0 0 0 '' [ ] '' : 3.20 - 3.22 5.0
        '10 '1 '10 '0 '0 '0 '0 '1 '0 '10 '10 '10 '10 00 '10 '10 / 5.0 3.20 3.22 5.0 | = \
            | '10 '1 '10 '0 '0 '0 '0 '1 '10 '10 '10 '10 / 5.0 3.20 3.22 | '' 1 0 0 5.0 0 0 0 1 0 0 0 0 '' [ ] '' : 3.20 - 3.22 5.0
        fit '10 '1 '10 '0 '0 '0 '0 '0 '1 '10 '10 '10 '10 00 '10 '10 / 5.0 3.20 4.21 4.2F 3.22 5.0 | no
        fit '10 '1 '10 '0 '0 '0 '0 '0 '0 '10 '10 '10 '10 01 00 '10 '10 / 5.0 3.20 4.21 4.2F 3.22 4.41 5.0 | no
        fit '10 '1 '10 '0 '0 '0 '0 '0 '0 '10 '10 '10 '10 00 '01 01 71 '10 / 5.0 3.20 4.21 4.2F 3.22 5.0 | no
        fit '10 '1 '10 '0 '0 '0 '0 '0 '0 '10 '10 '10 '10 00 '10 '01 01 78 / 5.0 3.20 4.21 4.2F 3.22 5.0 | no
        fit '10 '1 '10 '0 '0 '0 '0 '0 '0 '10 '10 '10 '10 00 '10 '10 / 5.0 3.20 4.21 4.2F 3.22 5.59 | no
        fit '10 '1 '10 '0 '0 '0 '0 '0 '0 '10 '10 '10 '10 00 '10 '10 / 5.0 3.20 4.21 4.2F 3.22 4.0 | no
        older '01 01 42 '0 '10 '0 '0 '1 '0 '0 '10 '10 '10 '01 01 / 5.51 3.56 4.57 4.58 3.59 | none
        older '01 01 42 '0 '10 '0 '0 '1 '0 '0 '10 '10 '10 '10 / 5.51 3.56 4.57 4.58 | none";
    hold::<BothVersions<BlockHeader>>(rt.alloc(), cases)
}
