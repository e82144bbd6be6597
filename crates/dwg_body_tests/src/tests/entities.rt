//! Texts, attributes and their definitions, inserts, and the begin and end of blocks.

use crate::tests::fields::{Fields, put_plane, put_ref, put_some, put_space, put_text, wide};
use crate::tests::table::{Body, BothVersions};
use dwg_entities::{Attdef, Attrib, Attributes, Block, EndBlk, Insert, MInsert, SeqEnd, Text};
use dwg_testkit::{Report, hold};
use std::test::Fail;

/// Reports where a text stands.
fn put_placing(report: &mut Report, of: &Text) {
    put_some(report, &[of.elevation]);
    put_plane(report, &of.insertion);
    match of.alignment {
        Some(point) => put_plane(report, &point),
        None => report.word("-"),
    }
    put_space(report, &of.extrusion);
}

/// Reports of what form a text is.
fn put_lettering(report: &mut Report, of: &Text) {
    report.hexes(&[of.thickness]);
    put_some(report, &[of.oblique, of.rotation]);
    report.hexes(&[of.height]);
    put_some(report, &[of.width]);
}

impl Fields for Text {
    fn put(&self, report: &mut Report) {
        put_placing(report, self);
        put_lettering(report, self);
        put_text(report, &self.text);
        put_some(
            report,
            &[
                wide(self.generation),
                wide(self.horizontal),
                wide(self.vertical),
            ],
        );
        put_ref(report, &self.style);
    }
}

/// Elevation, insertion, alignment, extrusion, thickness, oblique, rotation, height, width, text, generation, horizontal, vertical, style:
/// of a text with nothing else, with every part, with some; cut short in both places; every number another one. Its style is one before the
/// text (`C.1`). In both versions: with every number another one, width and height among them; of zeros and the usual extrusion; of ones
/// and other numbers; one without each of its parts in turn; cut short in both places.
#[test]
fn texts_are_reported_and_written(rt: HostRuntime) -> Result<(), Fail> {
    let cases = "
        FF ^ ^ '1 '1 ^ '01 01 41 / 5.11 | = | - 0 0 - 0 0 x3FF^ 0 - - 0 - 'A' - - - 5.11
        00 ^F03F ^F03F ^40 '00 '11 ^0840 '0 '01 '10 '10 '0 '00 ^40 ^F03F ^40 ^0840 ^F03F '01 02 4142 '01 01 '01 02 '11 / 5.11 | = \
            | '01 ^F03F ^40 ^F03F ^0840 '01 '10 '10 '00 ^40 '01 '00 ^40 '00 ^0840 '01 '01 02 4142 '01 01 '01 02 '11 / 5.11 \
            | x3FF^ x3FF^ x4^ x3FF^ x4008^ x3FF^ 0 0 x4^ x3FF^ x4^ x4008^ x3FF^ 'AB' 1 2 x100 5.11
        A5 ^F03F ^40 '11 ^0840 '00 '1 '1 ^40 ^F03F ^40 '10 '01 07 / 5.11 | = | - x3FF^ x4^ x4008^ x4^ 0 0 x3FF^ 0 - x4^ x3FF^ x4^ '' - 7 - 5.11
        FF ^ ^ '1 '1 ^ '01 01 '0100 / 5.11 | none
        FF ^ ^ '1 '1 ^ '01 01 41 '0000 / 51 | none
        00 01^ 02^ 03^ '11 04^ '11 05^ '0 '00 06^ '00 07^ '00 08^ '0 '00 09^ 0A^ 0B^ 0C^ 0D^ '01 01 54 '01 0E '01 0F '01 10 / C.1 \
            | 00 01^ 02^ 03^ '01 04000000 '01 05000000 '0 '00 06^ '00 07^ '00 08^ '0 '00 09^ 0A^ 0B^ 0C^ 0D^ '01 01 54 '01 0E '01 0F '01 10 / C.1 \
            | 1 2 3 4 5 6 7 8 9 xA xB xC xD 'T' xE xF x10 C.7F
        00 01^ 02^ 03^ '01 04000000 '01 05000000 '0 '00 06^ '00 07^ '00 08^ '0 '00 09^ 0A^ 0B^ 0C^ 0D^ '01 01 54 '01 0E '01 0F '01 10 / C.1 | = \
            | '00 01^ 02^ 03^ 04^ 05^ '00 06^ '00 07^ '00 08^ '00 09^ '00 0A^ '00 0B^ '00 0C^ '00 0D^ '01 01 54 '01 0E '01 0F '01 10 / C.1 \
            | 1 2 3 4 5 6 7 8 9 xA xB xC xD 'T' xE xF x10 C.7F
        00 ^ ^ ^ '00 '00 '1 '1 ^ ^ ^ ^ '10 '10 '10 '10 / 5.0 | = | '10 ^ ^ ^ ^ '10 '10 '01 '10 '10 '10 '10 '10 '10 '10 '10 '10 / 5.0 \
            | 0 0 0 0 0 0 0 x3FF^ 0 0 0 0 0 '' 0 0 0 5.0
        fit 01 ^ ^ '00 '00 '1 '1 ^ ^ ^ ^ '10 '10 '10 '10 / 5.0 | no
        fit 02 ^ ^ ^ '1 '1 ^ ^ ^ ^ '10 '10 '10 '10 / 5.0 | no
        fit 04 ^ ^ ^ '00 '00 '1 '1 ^ ^ ^ '10 '10 '10 '10 / 5.0 | no
        fit 08 ^ ^ ^ '00 '00 '1 '1 ^ ^ ^ '10 '10 '10 '10 / 5.0 | no
        fit 10 ^ ^ ^ '00 '00 '1 '1 ^ ^ ^ '10 '10 '10 '10 / 5.0 | no
        fit 20 ^ ^ ^ '00 '00 '1 '1 ^ ^ ^ ^ '10 '10 '10 / 5.0 | no
        fit 40 ^ ^ ^ '00 '00 '1 '1 ^ ^ ^ ^ '10 '10 '10 / 5.0 | no
        fit 80 ^ ^ ^ '00 '00 '1 '1 ^ ^ ^ ^ '10 '10 '10 / 5.0 | no
        older '10 ^ ^ ^ ^ '10 '10 '01 '10 '10 '10 '10 '10 '10 '10 '10 / 5.0 | none
        older '10 ^ ^ ^ ^ '10 '10 '01 '10 '10 '10 '10 '10 '10 '10 '10 '10 / 51 | none";
    hold::<BothVersions<Text>>(rt.alloc(), cases)
}

impl Fields for Attrib {
    fn put(&self, report: &mut Report) {
        self.text.put(report);
        put_text(report, &self.tag);
        report.hexes(&[u64::from(self.length), u64::from(self.flags)]);
    }
}

impl Fields for Attdef {
    fn put(&self, report: &mut Report) {
        self.attrib.put(report);
        put_text(report, &self.prompt);
    }
}

/// What a text has, and then tag, length and flags, and of a definition the prompt. Of each the second is cut short, and in the third every
/// number is another one. In both versions, of each: every number another one; one without a part of its text; cut short after the text.
#[test]
fn attributes_are_reported_and_written(rt: HostRuntime) -> Result<(), Fail> {
    let attribs = "
        FF ^ ^ '1 '1 ^ '01 01 41 '01 02 4E4F '01 03 08 / 5.11 | = | - 0 0 - 0 0 x3FF^ 0 - - 0 - 'A' - - - 5.11 'NO' 3 8
        FF ^ ^ '1 '1 ^ '01 01 41 '01 02 4E4F '01 03 / 5.11 | none
        FF 02^ 03^ '1 '1 0C^ '01 01 54 '01 01 47 '01 11 12 / C.1 | = | - 2 3 - 0 0 x3FF^ 0 - - xC - 'T' - - - C.7F 'G' x11 x12
        00 01^ 02^ 03^ '01 04000000 '01 05000000 '0 '00 06^ '00 07^ '00 08^ '0 '00 09^ 0A^ 0B^ 0C^ 0D^ '01 01 54 '01 0E '01 0F '01 10 '01 01 47 '01 \
            11 12 / C.1 | = | '00 01^ 02^ 03^ 04^ 05^ '00 06^ '00 07^ '00 08^ '00 09^ '00 0A^ '00 0B^ '00 0C^ '00 0D^ '01 01 54 '01 0E '01 0F '01 10 \
            '01 01 47 '01 11 12 / C.1 | 1 2 3 4 5 6 7 8 9 xA xB xC xD 'T' xE xF x10 C.7F 'G' x11 x12
        fit 80 ^ ^ ^ '00 '00 '1 '1 ^ ^ ^ ^ '10 '10 '10 '01 01 47 '01 11 12 / 5.0 | no
        older '10 ^ ^ ^ ^ '10 '10 '01 '10 '10 '10 '10 '10 '10 '10 '10 '10 '10 '10 / 5.0 | none";
    let attdefs = "
        FF ^ ^ '1 '1 ^ '01 01 41 '01 02 4E4F '01 03 08 '01 06 4E756D626572 / 5.11 | = | - 0 0 - 0 0 x3FF^ 0 - - 0 - 'A' - - - 5.11 'NO' 3 8 'Number'
        FF ^ ^ '1 '1 ^ '01 01 41 '01 02 4E4F '01 03 08 '01 06 4E756D6265 '011100 / 5.11 | none
        FF 02^ 03^ '1 '1 0C^ '01 01 54 '01 01 47 '01 11 12 '01 01 50 / C.1 | = | - 2 3 - 0 0 x3FF^ 0 - - xC - 'T' - - - C.7F 'G' x11 x12 'P'
        00 01^ 02^ 03^ '01 04000000 '01 05000000 '0 '00 06^ '00 07^ '00 08^ '0 '00 09^ 0A^ 0B^ 0C^ 0D^ '01 01 54 '01 0E '01 0F '01 10 '01 01 47 '01 \
            11 12 '01 01 50 / C.1 | = | '00 01^ 02^ 03^ 04^ 05^ '00 06^ '00 07^ '00 08^ '00 09^ '00 0A^ '00 0B^ '00 0C^ '00 0D^ '01 01 54 '01 0E '01 \
            0F '01 10 '01 01 47 '01 11 12 '01 01 50 / C.1 | 1 2 3 4 5 6 7 8 9 xA xB xC xD 'T' xE xF x10 C.7F 'G' x11 x12 'P'
        fit 01 ^ ^ '00 '00 '1 '1 ^ ^ ^ ^ '10 '10 '10 '10 '01 01 47 '01 11 12 '01 01 50 / 5.0 | no
        older '10 ^ ^ ^ ^ '10 '10 '01 '10 '10 '10 '10 '10 '10 '10 '10 '10 '10 '10 00 '01 01 / 5.0 | none";
    hold::<BothVersions<Attrib>>(rt.alloc(), attribs)?;
    hold::<BothVersions<Attdef>>(rt.alloc(), attdefs)
}

/// Reports the attributes of an insert.
fn put_attributes(report: &mut Report, attributes: Option<Attributes>) {
    let Some(attributes) = attributes else {
        return report.word("-");
    };
    put_ref(report, &attributes.first);
    put_ref(report, &attributes.last);
    put_ref(report, &attributes.seqend);
}

impl Fields for Insert {
    fn put(&self, report: &mut Report) {
        report.hexes(&[
            self.place.x,
            self.place.y,
            self.place.z,
            self.scale.x,
            self.scale.y,
            self.scale.z,
            self.rotation,
            self.extrusion.x,
            self.extrusion.y,
            self.extrusion.z,
        ]);
        put_ref(report, &self.block);
        put_attributes(report, self.attributes);
    }
}

/// Place, scale, rotation, extrusion, block, attributes: of scale 1.0, of (1.0, 2.0, 1.0) with attributes, of 2.0, of (2.0, 2.0, 3.0), and
/// of 1.0 by all its words; without the references to its attributes; every number another one. In both versions: every number another one;
/// of scale 1.0, of (1.0, 2.0, 1.0) with attributes, of 2.0, of (2.0, 2.0, 3.0), and of 0; cut short in the extrusion, and without the
/// references to its attributes.
#[test]
fn inserts_are_reported_and_written(rt: HostRuntime) -> Result<(), Fail> {
    let cases = "
        '01 '10 '00 ^40 '11 '10 '10 '10 '01 '0 / 5.20 | = | '01 '10 '00 ^40 '01 '01 '01 '10 '10 '10 '01 '0 / 5.20 \
            | x3FF^ 0 x4^ x3FF^ x3FF^ x3FF^ 0 0 0 x3FF^ 5.20 -
        '01 '10 '00 ^40 '01 '11 ^40 '00 '10 '10 '10 '01 '1 / 5.20 4.2E 4.2F 3.30 | = \
            | '01 '10 '00 ^40 '01 '00 ^40 '01 '10 '10 '10 '01 '1 / 5.20 4.2E 4.2F 3.30 | x3FF^ 0 x4^ x3FF^ x4^ x3FF^ 0 0 0 x3FF^ 5.20 4.2E 4.2F 3.30
        '01 '10 '00 ^40 '10 ^40 '10 '10 '10 '01 '0 / 5.20 | = | x3FF^ 0 x4^ x4^ x4^ x4^ 0 0 0 x3FF^ 5.20 -
        '01 '10 '00 ^40 '00 ^40 '00 '11 ^0840 '10 '10 '10 '01 '0 / 5.20 | = | x3FF^ 0 x4^ x4^ x4^ x4008^ 0 0 0 x3FF^ 5.20 -
        '01 '10 '00 ^40 '00 ^F03F '11 ^F03F '11 ^F03F '10 '10 '10 '01 '0 / 520020 | '01 '10 '00 ^40 '11 '10 '10 '10 '01 '0 / 5.20 \
            | x3FF^ 0 x4^ x3FF^ x3FF^ x3FF^ 0 0 0 x3FF^ 5.20 -
        '01 '10 '00 ^40 '01 '11 ^40 '00 '10 '10 '10 '01 '1 '000 / 5.11 | none
        '00 01^ '00 02^ '00 03^ '00 04^ '11 05^ '11 06^ '00 07^ '00 08^ '00 09^ '00 0A^ '1 / 5.12 4.20 4.21 3.22 \
            | '00 01^ '00 02^ '00 03^ '00 04^ '01 05000000 '01 06000000 '00 07^ '00 08^ '00 09^ '00 0A^ '1 / 5.12 4.20 4.21 3.22 \
            | 1 2 3 4 5 6 7 8 9 xA 5.12 4.20 4.21 3.22
        '00 01^ '00 02^ '00 03^ '00 04^ '01 05000000 '01 06000000 '00 07^ '00 08^ '00 09^ '00 0A^ '1 / 5.12 4.20 4.21 3.22 | = \
            | '00 01^ '00 02^ '00 03^ '00 04^ '00 05^ '00 06^ '00 07^ '00 08^ '00 09^ '00 0A^ '1 / 5.12 4.20 4.21 3.22 \
            | 1 2 3 4 5 6 7 8 9 xA 5.12 4.20 4.21 3.22
        '10 '10 '10 '10 ^40 '10 '10 '10 '01 '0 / 5.20 | = | '10 '10 '10 '00 ^40 '00 ^40 '00 ^40 '10 '10 '10 '01 '0 / 5.20 \
            | 0 0 0 x4^ x4^ x4^ 0 0 0 x3FF^ 5.20 -
        '10 '10 '10 '00 ^40 '00 '11 ^0840 '10 '10 '10 '01 '0 / 5.20 | = | '10 '10 '10 '00 ^40 '00 ^40 '00 ^0840 '10 '10 '10 '01 '0 / 5.20 \
            | 0 0 0 x4^ x4^ x4008^ 0 0 0 x3FF^ 5.20 -
        '10 '10 '10 '10 ^ '10 '10 '10 '01 '0 / 5.20 | = | '10 '10 '10 '10 '10 '10 '10 '10 '10 '01 '0 / 5.20 | 0 0 0 0 0 0 0 0 0 x3FF^ 5.20 -
        older '10 '10 '10 '01 '01 '01 '10 '10 '10 / 5.20 | none
        older '10 '10 '10 '01 '01 '01 '10 '10 '10 '01 '1 / 5.20 4.2E 4.2F | none";
    hold::<BothVersions<Insert>>(rt.alloc(), cases)
}

impl Fields for MInsert {
    fn put(&self, report: &mut Report) {
        self.insert.put(report);
        report.hexes(&[
            u64::from(self.columns),
            u64::from(self.rows),
            self.column_spacing,
            self.row_spacing,
        ]);
    }
}

/// What an insert has, and then columns, rows and the spacing of each: after inserts of several lengths, with spacings and counts of all
/// forms; counts and spacings by longer codes; cut short in the last spacing, and in the references; every number another one.
#[test]
fn inserts_in_columns_and_rows_are_reported_and_written(rt: HostRuntime) -> Result<(), Fail> {
    let cases = "
        '01 '10 '00 ^40 '11 '10 '10 '10 '01 '0 '01 03 '01 02 '00 ^2440 '00 ^1440 / 5.20 | = \
            | x3FF^ 0 x4^ x3FF^ x3FF^ x3FF^ 0 0 0 x3FF^ 5.20 - 3 2 x4024^ x4014^
        '01 '10 '00 ^40 '01 '11 ^40 '00 '10 '10 '10 '01 '1 '11 '10 '01 '10 / 5.20 4.2E 4.2F 3.30 | = \
            | x3FF^ 0 x4^ x3FF^ x4^ x3FF^ 0 0 0 x3FF^ 5.20 4.2E 4.2F 3.30 x100 0 x3FF^ 0
        '01 '10 '00 ^40 '10 ^40 '10 '10 '10 '01 '0 '00 3412 '00 FFFF '10 '01 / 5.20 | = \
            | x3FF^ 0 x4^ x4^ x4^ x4^ 0 0 0 x3FF^ 5.20 - x1234 xFFFF 0 x3FF^
        '01 '10 '10 '11 '10 '10 '10 '01 '0 '00 0300 '00 0001 '00 ^ '00 ^F03F / 520020 \
            | '01 '10 '10 '11 '10 '10 '10 '01 '0 '01 03 '11 '10 '01 / 5.20 | x3FF^ 0 0 x3FF^ x3FF^ x3FF^ 0 0 0 x3FF^ 5.20 - 3 x100 0 x3FF^
        '01 '10 '10 '11 '10 '10 '10 '01 '0 '01 03 '01 02 '01 '00 00000000000014 / 5.20 | none
        '01 '10 '10 '11 '10 '10 '10 '01 '1 '01 03 '01 02 '01 '01 / 5.20 4.2E 4.2F | none
        '00 01^ '00 02^ '00 03^ '00 04^ '11 05^ '11 06^ '00 07^ '00 08^ '00 09^ '00 0A^ '1 '01 0B '01 0C '00 0D^ '00 0E^ / 5.12 4.20 4.21 3.22 \
            | '00 01^ '00 02^ '00 03^ '00 04^ '01 05000000 '01 06000000 '00 07^ '00 08^ '00 09^ '00 0A^ '1 '01 0B '01 0C '00 0D^ '00 0E^ / 5.12 4.20 \
            4.21 3.22 | 1 2 3 4 5 6 7 8 9 xA 5.12 4.20 4.21 3.22 xB xC xD xE";
    hold::<Body<MInsert>>(rt.alloc(), cases)
}

impl Fields for Block {
    fn put(&self, report: &mut Report) {
        put_text(report, &self.name);
    }
}

impl Fields for EndBlk {
    fn put(&self, _report: &mut Report) {}
}

impl Fields for SeqEnd {
    fn put(&self, _report: &mut Report) {}
}

/// The begin of a block has a name, the ends have no field. The second block is cut short. In both versions: the begin of a block, which is
/// also cut short, and the ends, which have no bits.
#[test]
fn marks_of_blocks_are_reported_and_written(rt: HostRuntime) -> Result<(), Fail> {
    let blocks = "
        '01 03 544147 / - | = | = | 'TAG'
        '01 03 5441 '010001 / - | none
        '01 01 4E / - | = | 'N'
        older '01 03 5441 / - | none";
    let end_blks = "
        - / - | = | = | -";
    let seq_ends = "
        - / - | = | = | -";
    hold::<BothVersions<Block>>(rt.alloc(), blocks)?;
    hold::<BothVersions<EndBlk>>(rt.alloc(), end_blks)?;
    hold::<BothVersions<SeqEnd>>(rt.alloc(), seq_ends)
}
