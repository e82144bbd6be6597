//! The bit size of an object of AC1014.

use dwg_base::Handle;
use dwg_bits::BitCursor;
use dwg_common::read_size;
use dwg_testkit::{Case, Line, Report, hold};
use std::test::Fail;

/// The handle of the object.
fn own() -> Option<Handle> {
    Handle::new(0x80)
}

/// At which bit reading begins.
const FROM: u64 = 3;

/// The cursor over the bits before `end`, of at most a hundred bytes.
fn cursor_to(bytes: &[u8], end: u64) -> Option<BitCursor<'_>> {
    if bytes.len() > 100 || end < FROM || end > 8 * bytes.len() as u64 {
        return None;
    }
    Some(BitCursor::new(bytes, FROM, end))
}

/// Whether no size is read of the bits before `end`, and the cursor stays where it was.
fn is_unread(bytes: &[u8], end: u64, entity: bool) -> Option<bool> {
    let mut cursor = cursor_to(bytes, end)?;
    let size = read_size(&mut cursor, entity, own()?);
    Some(size.is_none() && cursor.at() == FROM)
}

/// Reports the least end before which a size is read, or the cursor moves; `none` where there is none up to `count`.
fn report_least(report: &mut Report, bytes: &[u8], count: u64, entity: bool) -> Option<()> {
    for end in FROM..=count {
        if !is_unread(bytes, end, entity)? {
            report.number(end);
            return Some(());
        }
    }
    report.word("none");
    Some(())
}

/// Reports what is read of the bits before `count`: the size, and the place after it.
fn report_size(report: &mut Report, bytes: &[u8], count: u64, entity: bool) -> Option<()> {
    let mut cursor = cursor_to(bytes, count)?;
    match read_size(&mut cursor, entity, own()?) {
        Some(size) => report.hex(u64::from(size)),
        None => report.word("none"),
    }
    report.number(cursor.at());
    Some(())
}

/// `entity | BITS`: the bit size of the entity 80 that is read of these bits from bit 3 on; the place after it; and how many of the bits are
/// enough: of fewer nothing is read, and the cursor stays where it was. `object | BITS`: of another object, which has no picture.
struct SizeCases;

impl Case for SizeCases {
    fn report(line: &mut Line<'_>, report: &mut Report) -> Option<()> {
        let bits = line.bits(1)?;
        let count = bits.length() as u64;
        let bytes = bits.to_bytes(line.alloc)?;
        let entity = line.name() == "entity";
        report_size(report, &bytes, count, entity)?;
        report_least(report, &bytes, count, entity)
    }
}

/// After nothing, once with other bits after it; after items; after a picture, and one of no bytes; after both. Items and a picture that
/// aren't there, and items whose application is no reference.
#[test]
fn the_bit_size_of_an_entity_is_read(rt: HostRuntime) -> Result<(), Fail> {
    let cases = "
        entity | '110 '10 '0 01020304 | x4030201 38 38
        entity | '110 '10 '0 01020304 '10101 FFFF | x4030201 38 38
        entity | '110 '01 02 5.12 AABB '10 '0 01020304 | x4030201 80 80
        entity | '110 '10 '1 02000000 7778 01020304 | x4030201 86 86
        entity | '110 '10 '1 00000000 00000000 | 0 70 70
        entity | '110 '01 01 5.12 AA '00 0200 8.0 BBCC '10 '1 01000000 77 FFFFFFFF | xFFFFFFFF 154 154
        entity | '110 '01 02 5.12 AABB '01 FF C.1 01020304 | none 3 none
        entity | '110 '10 '1 FFFFFFFF 01020304 | none 3 none
        entity | '110 '01 02 7.12 AABB '10 '0 01020304 | none 3 none
        entity | '110 '01 02 C.81 AABB '10 '0 01020304 | none 3 none";
    hold::<SizeCases>(rt.alloc(), cases)
}

/// After nothing, and after items; where an entity would have a picture, the size stands at once; an item that isn't there, and one whose
/// application is no reference.
#[test]
fn the_bit_size_of_another_object_is_read(rt: HostRuntime) -> Result<(), Fail> {
    let cases = "
        object | '110 '10 01020304 | x4030201 37 37
        object | '110 '01 02 5.12 AABB '01 01 4.0 CC '10 01020304 | x4030201 105 105
        object | '110 '10 '1 02000000 7778 01020304 | x81 37 37
        object | '110 '01 06 5.12 AABB 01020304 | none 3 none
        object | '110 '01 02 9.12 AABB '10 01020304 | none 3 none";
    hold::<SizeCases>(rt.alloc(), cases)
}
