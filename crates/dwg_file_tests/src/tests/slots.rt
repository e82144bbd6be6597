//! The references that an object holds: how many, the one at each place, and all after those of others.

ghost use Rattle.std.specs.Prelude.{◌≡◌};
ghost use Rattle.dwg_graph.specs.Slots.{slots};
ghost use Rattle.dwg_object.specs.Objects.{value_of};

use crate::tests::inputs::frame;
use crate::tests::objects::{Words, report_answer};
use dwg_base::{Handle, Items, Version};
use dwg_graph::{Slot, slot_at, slot_count, slot_laws, with_slots};
use dwg_kinds::{Field, field_word};
use dwg_object::{Found, Object, read_frame};
use dwg_testkit::{Case, Line, Report, hold};
use std::alloc::Global;
use std::test::Fail;

/// Reports a slot: its field, its position, and its target.
fn report_slot(report: &mut Report, slot: Slot) {
    report.word(field_word(slot.field));
    report.number(slot.position);
    report.hex(slot.target.value());
}

/// Reports how many slots an object has, and each of them by its place.
fn report_each(report: &mut Report, object: &Object<'_>, all: &[Slot]) -> Option<()>
    requires { all.now ≡ slots (value_of object.now) }
{
    let count = all.len() as u64;
    if count >= 1 << 58 {
        return None;
    }
    report.number(slot_count(object));
    for place in 0..count {
        report_slot(report, slot_at(object, place));
    }
    Some(())
}

/// Reports how many slots an object has, and each by its place.
fn report_slots(alloc: Global, report: &mut Report, object: &Object<'_>) -> Option<()> {
    match with_slots(Items::new(alloc), object) {
        Ok(all) => report_each(report, object, all.as_slice()),
        Err(_) => None,
    }
}

/// A list of one slot, of the owner null.
fn owner_null(alloc: Global) -> Option<Items<Slot>> {
    let mut slots = Items::new(alloc);
    let owner = Slot {
        field: Field::Owner,
        position: 0,
        target: Handle::NULL,
    };
    match slots.push(owner) {
        Ok(()) => Some(slots),
        Err(_) => None,
    }
}

/// Reports slots.
fn report_all(report: &mut Report, slots: &[Slot]) -> Option<()> {
    for slot in slots {
        report_slot(report, *slot);
    }
    Some(())
}

/// Reports the slot of the owner null, and after it all slots of an object.
fn report_after(alloc: Global, report: &mut Report, object: &Object<'_>) -> Option<()> {
    match with_slots(owner_null(alloc)?, object) {
        Ok(all) => report_all(report, all.as_slice()),
        Err(_) => None,
    }
}

/// `held`: how many slots an object has, and each by its place.
struct Held;

impl Words<Found<'_>> for Held {
    fn report_of(alloc: Global, found: &Found<'_>, report: &mut Report) -> Option<()> {
        report_slots(alloc, report, &found.object)
    }
}

/// `after`: all slots of an object after that of the owner null.
struct After;

impl Words<Found<'_>> for After {
    fn report_of(alloc: Global, found: &Found<'_>, report: &mut Report) -> Option<()> {
        report_after(alloc, report, &found.object)
    }
}

/// Reports of the object of the frame at the begin of bytes.
fn report_frame<'a, W: Words<Found<'a>>>(
    alloc: Global,
    bytes: &'a [u8],
    report: &mut Report,
) -> Option<()> {
    let found = read_frame(alloc, bytes, 0, 0, &[], Version::Ac1015);
    report_answer::<W, Found<'a>>(alloc, found, report)
}

/// `held | FRAME` and `after | FRAME`: the slots of the object of a frame.
struct SlotCases;

impl Case for SlotCases {
    fn report(line: &mut Line<'_>, report: &mut Report) -> Option<()> {
        let bytes = frame(line.alloc, line.field(1)?)?;
        match line.name() {
            "held" => report_frame::<Held>(line.alloc, &bytes, report),
            "after" => report_frame::<After>(line.alloc, &bytes, report),
            _ => None,
        }
    }
}

#[test]
fn slots_are_counted_and_have_places(rt: HostRuntime) -> Result<(), Fail> {
    slot_laws();
    let cases = "
        # A record of two targets; a text; an insert in columns and rows, without attributes and with them; a polyline in space; a group
        # with a reactor, of an object and null; and an entity of which only the common part is read.
        held | 79 90 : '10 '10 '10 '10 / 4.0 3.0 4.10 5.0 | 3 xdict 0 0 target 0 x10 target 1 0
        held | 1 80 : ENTITY FF ^ ^ '1 '1 ^ '01 01 41 / 3.0 5.10 5.11 | 3 xdict 0 0 layer 0 x10 style 0 x11
        held | 8 80 : ENTITY '10 '10 '10 '11 '10 '10 '10 '01 '0 '01 02 '01 03 '01 '10 / 3.0 5.10 5.12 | 3 xdict 0 0 layer 0 x10 block 0 x12
        held | 8 80 : ENTITY '10 '10 '10 '11 '10 '10 '10 '01 '1 '01 02 '01 03 '01 '10 / 3.0 5.10 5.12 4.81 4.82 3.83 \
            | 6 xdict 0 0 layer 0 x10 block 0 x12 first 0 x81 last 0 x82 seqend 0 x83
        held | 16 80 : ENTITY 00 01 / 3.0 5.10 4.81 4.82 3.83 | 5 xdict 0 0 layer 0 x10 first 0 x81 last 0 x82 seqend 0 x83
        held | 72 90 : '10 '01 01 '01 01 47 '01 01 '10 '01 02 / 4.C 4.D 3.0 5.80 5.0 | 4 reactor 0 xD xdict 0 0 grouped 0 x80 grouped 1 0
        held | 45 80 : ENTITY '101 / 3.0 5.10 | 0";
    hold::<SlotCases>(rt.alloc(), cases)
}

#[test]
fn slots_are_gathered_after_others(rt: HostRuntime) -> Result<(), Fail> {
    let cases = "
        # The same record.
        after | 79 90 : '10 '10 '10 '10 / 4.0 3.0 4.10 5.0 | owner 0 0 xdict 0 0 target 0 x10 target 1 0";
    hold::<SlotCases>(rt.alloc(), cases)
}
