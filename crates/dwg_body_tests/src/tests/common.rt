//! The common parts of entities and of other objects in both versions.

use crate::tests::fields::{Fields, put_bytes, put_ref, put_refs};
use crate::tests::table::BothVersions;
use dwg_base::ByteRun;
use dwg_common::{AppData, EntityCommon, Links, ObjectCommon};
use dwg_handles::Ref;
use dwg_testkit::{Report, hold};
use std::test::Fail;

/// Reports what applications keep.
fn put_app(report: &mut Report, app: &[AppData]) {
    report.word("[");
    for item in app {
        put_ref(report, &item.application);
        put_bytes(report, &item.bytes);
    }
    report.word("]");
}

/// Reports a picture that may not be there.
fn put_graphic(report: &mut Report, graphic: &Option<ByteRun>) {
    match graphic {
        Some(graphic) => put_bytes(report, graphic),
        None => report.word("-"),
    }
}

/// Reports a reference that may not be there.
fn put_part(report: &mut Report, reference: Option<Ref>) {
    match reference {
        Some(reference) => put_ref(report, &reference),
        None => report.word("-"),
    }
}

/// Reports the entities before and after an entity.
fn put_links(report: &mut Report, links: Option<Links>) {
    let Some(links) = links else {
        return report.word("-");
    };
    put_ref(report, &links.previous);
    put_ref(report, &links.next);
}

/// Reports what an entity has up to its links.
fn put_ties(report: &mut Report, of: &EntityCommon) {
    put_app(report, of.app.as_slice());
    put_graphic(report, &of.graphic);
    report.hexes(&[u64::from(of.mode)]);
    put_part(report, of.owner);
    put_refs(report, of.reactors.as_slice());
    put_ref(report, &of.xdict);
    put_links(report, of.links);
}

/// Reports how an entity looks.
fn put_look(report: &mut Report, of: &EntityCommon) {
    report.hexes(&[
        u64::from(of.colour),
        of.linetype_scale,
        u64::from(of.linetype_flag),
    ]);
    put_part(report, of.linetype);
    report.hexes(&[u64::from(of.plotstyle_flag)]);
    put_part(report, of.plotstyle);
    report.hexes(&[u64::from(of.invisible), u64::from(of.lineweight)]);
}

impl Fields for EntityCommon {
    fn put(&self, report: &mut Report) {
        put_ties(report, self);
        put_look(report, self);
        put_ref(report, &self.layer);
    }
}

impl Fields for ObjectCommon {
    fn put(&self, report: &mut Report) {
        put_app(report, self.app.as_slice());
        put_refs(report, self.reactors.as_slice());
        put_ref(report, &self.owner);
        put_ref(report, &self.xdict);
    }
}

/// App, graphic, mode, owner, reactors, xdict, links, colour, linetype scale, linetype flag, linetype, plotstyle flag, plotstyle,
/// invisible, lineweight, layer: of an entity with nothing that needn't be there, which has 47 main bits and 24 reference bits in AC1014,
/// by their digits and part by part; with all that AC1014 can spell, every number another one; with a linetype and no links; with links and
/// no linetype. A line weight of 1, and the usual one; a plotstyle flag of 1 and of 2, and a plotstyle; a linetype flag of 1 and of 2.
/// Another bit size, by its last byte and by its first, and the highest byte first; none; one that stands before where it is said whether
/// there is a picture, and one before the picture itself; mode 3; cut short in both places. In AC1015 alone: an item, a graphic, mode 0, two
/// reactors, links, colour 7, linetype scale 2.0, both flags 3, invisible 1, line weight 0; in object 81 the entity before would be that
/// object itself; the same cut short in both places; and 2^32 - 1 reactors.
#[test]
fn common_parts_of_entities_are_spelled_in_both_versions(rt: HostRuntime) -> Result<(), Fail> {
    let cases = "
        '10 '0 '10 '10 '1 '11 '01 '00 '00 '10 00 / 3.0 5.10 | = | 8020406095E '110 / 305110 | [ ] - 2 - [ ] 3.0 - x100 x3FF^ 0 - 0 - 0 0 5.10
        '10 '0 '10 '10 '1 '11 '01 '00 '00 '10 00 / 3.0 5.10 | = | '10 '0 01020304 '10 '10 '1 '1 '11 '01 '10 / 3.0 5.10 \
            | [ ] - 2 - [ ] 3.0 - x100 x3FF^ 0 - 0 - 0 0 5.10
        '01 02 5.12 AABB '10 '1 01000000 77 '00 '01 02 '0 '01 07 '00 09^ '11 '00 '01 0B 00 / 4.1F 4.21 4.22 3.23 4.26 4.27 5.24 5.25 | = \
            | '01 02 5.12 AABB '10 '1 01000000 77 01020304 '00 '01 02 '0 '0 '01 07 '00 09^ '01 0B / 4.1F 4.21 4.22 3.23 5.24 5.25 4.26 4.27 \
            | [ 5.12 :AABB ] :77 0 4.1F [ 4.21 4.22 ] 3.23 4.26 4.27 7 9 3 5.25 0 - xB 0 5.24
        '10 '0 '01 '10 '1 '10 '10 '11 '00 '10 00 / 3.23 5.24 5.25 | = | '10 '0 01020304 '01 '10 '0 '1 '10 '10 '10 / 3.23 5.24 5.25 \
            | [ ] - 1 - [ ] 3.23 - 0 0 3 5.25 0 - 0 0 5.24
        '10 '0 '10 '10 '0 '11 '01 '00 '00 '10 00 / 3.23 4.26 4.27 5.24 | = | '10 '0 01020304 '10 '10 '1 '0 '11 '01 '10 / 3.23 5.24 4.26 4.27 \
            | [ ] - 2 - [ ] 3.23 4.26 4.27 x100 x3FF^ 0 - 0 - 0 0 5.24
        fit '10 '0 '10 '10 '1 '11 '01 '00 '00 '10 01 / 3.0 5.10 | no
        fit '10 '0 '10 '10 '1 '11 '01 '00 '00 '10 1D / 3.0 5.10 | no
        fit '10 '0 '10 '10 '1 '11 '01 '00 '01 '10 00 / 3.0 5.10 | no
        fit '10 '0 '10 '10 '1 '11 '01 '00 '10 '10 00 / 3.0 5.10 | no
        fit '10 '0 '10 '10 '1 '11 '01 '00 '11 '10 00 / 3.0 5.10 5.17 | no
        fit '10 '0 '10 '10 '1 '11 '01 '01 '00 '10 00 / 3.0 5.10 | no
        fit '10 '0 '10 '10 '1 '11 '01 '10 '00 '10 00 / 3.0 5.10 | no
        older '10 '0 01020305 '10 '10 '1 '1 '11 '01 '10 / 3.0 5.10 | none
        older '10 '0 00020304 '10 '10 '1 '1 '11 '01 '10 / 3.0 5.10 | none
        older '10 '0 04030201 '10 '10 '1 '1 '11 '01 '10 / 3.0 5.10 | none
        older '10 '0 '10 '10 '1 '1 '11 '01 '10 / 3.0 5.10 | none
        older '10 01020304 '0 '10 '10 '1 '1 '11 '01 '10 / 3.0 5.10 | none
        older '10 '1 01020304 01000000 77 '10 '10 '1 '1 '11 '01 '10 / 3.0 5.10 | none
        older '10 '0 01020304 '11 '10 '1 '1 '11 '01 '10 / 3.0 5.10 | none
        older 8020406095E '1 / 305110 | none
        older 8020406095E '110 / 3051 | none
        '01 02 5.12 AABB '10 '1 01000000 77 '00 '01 02 '0 '01 07 '00 ^40 '11 '11 '01 01 00 / 4.1F 4.21 4.22 3.0 8.0 6.0 5.10 5.16 5.17 | = \
            | [ 5.12 :AABB ] :77 0 4.1F [ 4.21 4.22 ] 3.0 8.7F 6.81 7 x4^ 3 5.16 3 5.17 1 0 5.10
        at x80 '01 02 5.12 AABB '10 '1 01000000 77 '00 '01 02 '0 '01 07 '00 ^40 '11 '11 '01 01 00 / 4.1F 4.21 4.22 3.0 8.0 6.0 5.10 5.16 5.17 | yes
        at x81 '01 02 5.12 AABB '10 '1 01000000 77 '00 '01 02 '0 '01 07 '00 ^40 '11 '11 '01 01 00 / 4.1F 4.21 4.22 3.0 8.0 6.0 5.10 5.16 5.17 | no
        '01 02 5.12 AABB '10 '1 01000000 77 '00 '01 02 '0 '01 07 '00 ^40 '11 '11 '01 01 '0000 / 4.1F 4.21 4.22 3.0 8.0 6.0 5.10 5.16 5.17 | none
        '01 02 5.12 AABB '10 '1 01000000 77 '00 '01 02 '0 '01 07 '00 ^40 '11 '11 '01 01 00 / 4.1F 4.21 4.22 3.0 8.0 6.0 5.10 5.16 51 | none
        91FFFFFFFFA08000 / 4.1F 4.21 4.22 3.0 8.0 6.0 5.10 5.16 5.17 | none";
    hold::<BothVersions<EntityCommon>>(rt.alloc(), cases)
}

/// App, reactors, owner, xdict: of an object with nothing that needn't be there; every number another one; another bit size; none; cut
/// short in both places. In AC1015 alone: an item and two reactors; and the same cut short by a byte of the main bits.
#[test]
fn common_parts_of_other_objects_are_spelled_in_both_versions(rt: HostRuntime) -> Result<(), Fail> {
    let cases = "
        '10 '10 / 4.1 3.0 | = | '10 01020304 '10 / 4.1 3.0 | [ ] [ ] 4.1 3.0
        '01 02 5.12 AABB '01 01 4.0 CC '10 '01 02 / 4.1F 4.21 4.22 3.23 | = \
            | '01 02 5.12 AABB '01 01 4.0 CC '10 01020304 '01 02 / 4.1F 4.21 4.22 3.23 | [ 5.12 :AABB 4.0 :CC ] [ 4.21 4.22 ] 4.1F 3.23
        older '10 01020305 '10 / 4.1 3.0 | none
        older '10 '10 / 4.1 3.0 | none
        older '10 01020304 '00 / 4.1 3.0 | none
        older '10 01020304 '01 02 / 4.1F 4.21 3.23 | none
        '01 02 5.12 AABB '10 '01 02 / 4.1 4.2 C.10 3.D | = | [ 5.12 :AABB ] [ 4.2 C.70 ] 4.1 3.D
        '01 02 5.12 AABB '10 '01 '00 / 4.1 4.2 C.10 3.D | none
        at x80 '01 02 5.12 AABB '10 '01 02 / 4.1 4.2 C.10 3.D | yes
        at xF '01 02 5.12 AABB '10 '01 02 / 4.1 4.2 C.10 3.D | no";
    hold::<BothVersions<ObjectCommon>>(rt.alloc(), cases)
}
