//! Controls of tables, dictionaries and records.

use crate::tests::fields::{Fields, put_bytes, put_ref, put_refs, put_text};
use crate::tests::table::{After, BothVersions};
use dwg_dicts::{
    AppIdControl, BlockControl, DictItem, Dictionary, LayerControl, LtypeControl, StyleControl,
    XRecord,
};
use dwg_testkit::{Report, hold};
use std::test::Fail;

impl Fields for LayerControl {
    fn put(&self, report: &mut Report) {
        put_refs(report, self.entries.as_slice());
    }
}

impl Fields for StyleControl {
    fn put(&self, report: &mut Report) {
        put_refs(report, self.entries.as_slice());
    }
}

impl Fields for AppIdControl {
    fn put(&self, report: &mut Report) {
        put_refs(report, self.entries.as_slice());
    }
}

/// The entries: none, two, and of the layers the same by more bytes; each is cut short once. In both versions, of each: two entries, or
/// none; cut short in one of the places.
#[test]
fn controls_of_entries_are_reported_and_written(rt: HostRuntime) -> Result<(), Fail> {
    let layer_controls = "
        '10 / - | = | [ ]
        '01 02 / 2.10 2.17 | = | [ 2.10 2.17 ]
        '00 02000000 / 220010 23000017 | '01 02 / 2.10 2.17 | [ 2.10 2.17 ]
        '01 02 '000000 / 21 10 21 | none
        '01 02 / 2.61 3.62 | = | = | [ 2.61 3.62 ]
        older '01 02 / 2.61 | none";
    let style_controls = "
        '10 / - | = | [ ]
        '01 02 / 2.10 2.17 | = | [ 2.10 2.17 ]
        '00 020000 '000000 / 2.10 2.17 | none
        '01 02 / 2.61 3.62 | = | = | [ 2.61 3.62 ]
        older '00 020000 / 2.61 3.62 | none";
    let app_id_controls = "
        '10 / - | = | = | [ ]
        '01 02 / 2.10 2.17 | = | [ 2.10 2.17 ]
        '01 01 '000000 / - | none
        '01 02 / 2.61 3.62 | = | = | [ 2.61 3.62 ]
        older '01 02 / 2.61 | none";
    hold::<BothVersions<LayerControl>>(rt.alloc(), layer_controls)?;
    hold::<BothVersions<StyleControl>>(rt.alloc(), style_controls)?;
    hold::<BothVersions<AppIdControl>>(rt.alloc(), app_id_controls)
}

impl Fields for BlockControl {
    fn put(&self, report: &mut Report) {
        put_refs(report, self.entries.as_slice());
        put_ref(report, &self.model);
        put_ref(report, &self.paper);
    }
}

impl Fields for LtypeControl {
    fn put(&self, report: &mut Report) {
        put_refs(report, self.entries.as_slice());
        put_ref(report, &self.first);
        put_ref(report, &self.second);
    }
}

/// The entries and the two beside them: none, one; cut short; each reference another one. In both versions, of each: two entries, or none;
/// cut short in one of the places.
#[test]
fn controls_with_two_entries_more_are_reported_and_written(rt: HostRuntime) -> Result<(), Fail> {
    let block_controls = "
        '10 / 3.18 3.1B | = | [ ] 3.18 3.1B
        '01 01 / 2.20 3.18 3.1B | = | [ 2.20 ] 3.18 3.1B
        '01 01 '000000 / 3.18 3.1B | none
        '01 02 / 2.61 3.62 5.63 5.64 | = | = | [ 2.61 3.62 ] 5.63 5.64
        older '01 02 / 2.61 3.62 5.63 | none";
    let ltype_controls = "
        '10 / 3.14 3.15 | = | = | [ ] 3.14 3.15
        '01 01 / 2.16 3.14 3.15 | = | [ 2.16 ] 3.14 3.15
        '10 '000000 / 21 16 31 | none
        '01 02 / 2.61 3.62 5.63 5.64 | = | = | [ 2.61 3.62 ] 5.63 5.64
        older '01 02 / 2.61 3.62 5.63 | none";
    hold::<BothVersions<BlockControl>>(rt.alloc(), block_controls)?;
    hold::<BothVersions<LtypeControl>>(rt.alloc(), ltype_controls)
}

/// Reports a list of items.
fn put_items(report: &mut Report, items: &[DictItem]) {
    report.word("[");
    for item in items {
        put_text(report, &item.name);
        put_ref(report, &item.target);
    }
    report.word("]");
}

impl Fields for Dictionary {
    fn put(&self, report: &mut Report) {
        report.hexes(&[u64::from(self.cloning), u64::from(self.hard_owner)]);
        put_items(report, self.items.as_slice());
    }
}

impl Fields for XRecord {
    fn put(&self, report: &mut Report) {
        put_bytes(report, &self.bytes);
        report.hexes(&[u64::from(self.cloning)]);
        put_refs(report, self.targets.as_slice());
    }
}

/// Dictionaries: cloning, hard owner, items: none, and the same by the longest codes; `NOTES` and one without a name; the same of cloning 0
/// by longer codes; cut short in both places; every number another one. Records: bytes, cloning, targets: none; three bytes and two
/// targets, and the same by longer codes; eight bits that are no reference, by their code and by their count of bytes; cut short; every
/// number another one. In both versions, of each: every number another one; empty; of a cloning of 1; cut short in both places.
#[test]
fn dictionaries_and_records_are_reported_and_written(rt: HostRuntime) -> Result<(), Fail> {
    let dictionarys = "
        '10 '10 00 / - | = | '10 00 / - | 0 0 [ ]
        '00 00000000 '00 0000 00 / - | '10 '10 00 / - | 0 0 [ ]
        '01 02 '11 01 '01 05 4E4F544553 '10 / 2.D 3.0 | = | x100 1 [ 'NOTES' 2.D '' 3.0 ]
        '00 02000000 '01 00 01 '00 0500 4E4F544553 '01 00 / 240000000D 3100 | '01 02 '10 01 '01 05 4E4F544553 '10 / 2.D 3.0 \
            | 0 1 [ 'NOTES' 2.D '' 3.0 ]
        '01 02 '11 01 '01 05 4E4F5445 '01 / 2.D 3.0 | none
        '01 02 '11 01 '01 05 4E4F544553 '10 / 2.D | none
        '01 02 '01 01 02 '01 01 61 '01 02 6263 / 2.61 3.62 | = | 1 2 [ 'a' 2.61 'bc' 3.62 ]
        '01 02 '10 03 '01 01 61 '01 02 6263 / 2.61 3.62 | = | '01 02 03 '01 01 61 '01 02 6263 / 2.61 3.62 | 0 3 [ 'a' 2.61 'bc' 3.62 ]
        fit '01 02 '01 01 03 '01 01 61 '01 02 6263 / 2.61 3.62 | no
        older '01 02 03 '01 01 61 '01 02 62 / 2.61 3.62 | none
        older '01 02 03 '01 01 61 '01 02 6263 / 2.61 | none";
    let x_records = "
        '10 '10 / - | = | '10 / - | : 0 [ ]
        '01 03 010203 '01 01 / 4.10 5.0 | = | :010203 1 [ 4.10 5.0 ]
        '00 03000000 010203 '00 0100 / 420010 520000 | '01 03 010203 '01 01 / 4.10 5.0 | :010203 1 [ 4.10 5.0 ]
        '01 03 010203 '01 01 '0000 / 4.10 F0 | none
        '01 03 010203 '01 01 '0000 / 41 10 41 | none
        '01 03 010203 '01 '0000 / 4.10 5.0 | none
        '01 03 78797A '01 04 / 2.61 3.62 | = | :78797A 4 [ 2.61 3.62 ]
        '01 03 78797A '10 / 2.61 3.62 | = | '01 03 78797A / 2.61 3.62 | :78797A 0 [ 2.61 3.62 ]
        fit '01 03 78797A '01 01 / 2.61 3.62 | no
        older '01 03 7879 / 2.61 3.62 | none
        older '01 03 78797A / 2.61 31 | none";
    hold::<BothVersions<Dictionary>>(rt.alloc(), dictionarys)?;
    hold::<BothVersions<XRecord>>(rt.alloc(), x_records)
}

/// Two bits stand before the one reference, and six after it.
#[test]
fn references_of_a_record_end_before_the_last_bits(rt: HostRuntime) -> Result<(), Fail> {
    let cases = "
        '01 03 010203 '01 01 / '11 4.10 | '01 03 010203 '01 01 / 4.10 | :010203 1 [ 4.10 ]";
    hold::<After<XRecord>>(rt.alloc(), cases)
}

/// Code 6 reports the next handle and no other: of the objects 80 and 7F it is that of 81 in the first alone.
#[test]
fn what_no_bits_report_does_not_fit(rt: HostRuntime) -> Result<(), Fail> {
    let controls = "
        at x80 '01 01 / 6.0 | yes
        at x7F '01 01 / 6.0 | no";
    let records = "
        at x80 '10 '10 / 6.0 | yes
        at x7F '10 '10 / 6.0 | no";
    let dictionaries = "
        at x80 '01 01 '10 00 '10 / 6.0 | yes
        at x7F '01 01 '10 00 '10 / 6.0 | no";
    hold::<BothVersions<LayerControl>>(rt.alloc(), controls)?;
    hold::<BothVersions<XRecord>>(rt.alloc(), records)?;
    hold::<BothVersions<Dictionary>>(rt.alloc(), dictionaries)
}
