//! Handles, references and own handles: values from outside, and each at every bit position.

ghost use Rattle.std.specs.Prelude.{⊤};

use crate::tests::listed::{Listed, report_list};
use crate::tests::sinks::{cursor_of, cursor_over, has_room};
use crate::tests::travels::{Traveller, report_travel};
use dwg_base::{Handle, Items, NoMemory};
use dwg_bits::{BitCursor, BitSink};
use dwg_handles::{
    Ref, own_bits, read_own, read_ref, read_refs, read_refs_to_end, ref_bits, refs_fit, write_own,
    write_ref,
};
use dwg_testkit::{Case, Line, Report, hold};
use std::alloc::Global;
use std::test::Fail;

/// `handle NUMBER`: the handle of this number
fn case_handle(line: &mut Line<'_>, report: &mut Report) -> Option<()> {
    let [number, ..] = line.numbers()?;
    match Handle::new(number) {
        Some(handle) => report.hex(handle.value()),
        None => report.word("none"),
    }
    Some(())
}

/// A reference of a code to a handle.
fn reference_of(code: u64, target: u64) -> Option<Ref> {
    Ref::new(code.min(255) as u8, Handle::new(target)?)
}

/// `codes COUNT TARGET`: the codes, of so many from 0 on, that references to the target have
fn case_codes(line: &mut Line<'_>, report: &mut Report) -> Option<()> {
    let [count, target, ..] = line.numbers()?;
    for code in 0..count {
        if reference_of(code, target).is_some() {
            report.number(code);
        }
    }
    Some(())
}

/// Reports a reference.
fn report_reference(reference: Ref, report: &mut Report) {
    report.reference(reference.code, reference.target.value());
}

/// Reports the reference that is read.
fn report_read(mut cursor: BitCursor<'_>, base: Handle, report: &mut Report) {
    match read_ref(&mut cursor, base) {
        Some(reference) => report_reference(reference, report),
        None => report.word("none"),
    }
    report.number(cursor.at());
}

/// `read BASE | BYTES`: the code and the target of the reference before the bytes, and how many bits it has
fn case_read(line: &mut Line<'_>, report: &mut Report) -> Option<()> {
    let [base, ..] = line.numbers()?;
    let bytes = line.bytes(1)?;
    report_read(cursor_over(&bytes), Handle::new(base)?, report);
    Some(())
}

/// A reference, and the handle of the object that has it.
#[derive(Drop)]
struct Seen {
    /// The reference.
    reference: Ref,
    /// The handle.
    base: Handle,
}

/// The reference of a line's first two numbers, seen from the third.
fn seen_of(line: &mut Line<'_>) -> Option<Seen> {
    let [code, target, base, ..] = line.numbers()?;
    let reference = reference_of(code, target)?;
    let base = Handle::new(base)?;
    Some(Seen { reference, base })
}

/// `fits CODE TARGET BASE`: whether the code reaches the target from the object of the base
fn case_fits(line: &mut Line<'_>, report: &mut Report) -> Option<()> {
    let seen = seen_of(line)?;
    report.truth(seen.reference.fits(seen.base));
    Some(())
}

impl Traveller for Seen {
    ghost IsSpelled = { λ _. ⊤ };

    fn write(&self, sink: &mut BitSink) -> u64 {
        if !self.reference.fits(self.base) {
            return 0;
        }
        let bits = ref_bits(self.reference, self.base);
        if has_room(sink, bits) {
            write_ref(self.reference, self.base, sink);
        }
        bits
    }

    fn is_read(&self, cursor: &mut BitCursor<'_>) -> bool {
        read_ref(cursor, self.base) == Some(self.reference)
    }
}

/// `travel CODE TARGET BASE`: by how many bits the reference is written: it is read again at each bit position.
fn case_travel(line: &mut Line<'_>, report: &mut Report) -> Option<()> {
    report_travel(line.alloc, &seen_of(line)?, report);
    Some(())
}

/// `own | BYTES`: the own handle before them
fn case_own(line: &mut Line<'_>, report: &mut Report) -> Option<()> {
    let bytes = line.bytes(1)?;
    let mut cursor = cursor_over(&bytes);
    match read_own(&mut cursor) {
        Some(own) => report.hex(own.value()),
        None => report.word("none"),
    }
    Some(())
}

/// An own handle.
#[derive(Drop)]
struct Own {
    /// The handle.
    own: Handle,
}

impl Traveller for Own {
    ghost IsSpelled = { λ _. ⊤ };

    fn write(&self, sink: &mut BitSink) -> u64 {
        if self.own.value() == 0 {
            return 0;
        }
        let bits = own_bits(self.own);
        if has_room(sink, bits) {
            write_own(self.own, sink);
        }
        bits
    }

    fn is_read(&self, cursor: &mut BitCursor<'_>) -> bool {
        read_own(cursor) == Some(self.own)
    }
}

/// `own_travel HANDLE`: by how many bits it is written as an own handle: it is read again at each bit position.
fn case_own_travel(line: &mut Line<'_>, report: &mut Report) -> Option<()> {
    let [number, ..] = line.numbers()?;
    let own = Handle::new(number)?;
    report_travel(line.alloc, &Own { own }, report);
    Some(())
}

/// What is tried is told at the functions.
struct HandleCases;

impl Case for HandleCases {
    fn report(line: &mut Line<'_>, report: &mut Report) -> Option<()> {
        match line.name() {
            "handle" => case_handle(line, report),
            "codes" => case_codes(line, report),
            "fits" => case_fits(line, report),
            "read" => case_read(line, report),
            "travel" => case_travel(line, report),
            "own" => case_own(line, report),
            "own_travel" => case_own_travel(line, report),
            "list" | "all" => case_list(line, report),
            "both" | "none" => case_both(line, report),
            _ => None,
        }
    }
}

#[test]
fn own_handles_are_positive_numbers_after_code_0(rt: HostRuntime) -> Result<(), Fail> {
    let cases = "
        own | 01 42 | x42
        own | 03 00 00 42 | x42
        own | 00 | none
        own | 01 00 | none
        own | 11 42 | none
        own | 02 42 | none
        own | 08 80 00 00 00 00 00 00 00 | none
        own | 09 00 00 00 00 00 00 00 00 01 | none
        own_travel 1 | 16
        own_travel x42 | 16
        own_travel x100 | 24
        own_travel x7FFFFFFFFFFFFFFF | 72";
    hold::<HandleCases>(rt.alloc(), cases)
}

/// So many references.
fn counted(
    alloc: Global,
    cursor: &mut BitCursor<'_>,
    base: Handle,
    count: u64,
) -> Result<Option<Items<Ref>>, NoMemory> {
    read_refs(alloc, cursor, base, count.min(4_294_967_295) as u32)
}

/// The references to the end.
fn to_end(
    alloc: Global,
    cursor: &mut BitCursor<'_>,
    base: Handle,
) -> Result<Option<Items<Ref>>, NoMemory> {
    read_refs_to_end(alloc, cursor, base)
}

impl Listed for Ref {
    fn report(&self, report: &mut Report) {
        report_reference(*self, report);
    }
}

/// `list BASE COUNT FROM END | BYTES`: what so many references, or at the name all those to the end, are read as, and where the cursor then
/// stands
fn case_list(line: &mut Line<'_>, report: &mut Report) -> Option<()> {
    let [base, count, from, end, ..] = line.numbers()?;
    let base = Handle::new(base)?;
    let bytes = line.bytes(1)?;
    let mut cursor = cursor_of(&bytes, from, end);
    if line.name() == "all" {
        report_list(to_end(line.alloc, &mut cursor, base), report);
    } else {
        report_list(counted(line.alloc, &mut cursor, base, count), report);
    }
    report.word("at");
    report.number(cursor.at());
    Some(())
}

/// `both BASE CODE TARGET CODE TARGET`: whether both references are reached; at the name none whether no references are
fn case_both(line: &mut Line<'_>, report: &mut Report) -> Option<()> {
    let [base, code, target, other_code, other_target] = line.numbers()?;
    let base = Handle::new(base)?;
    if line.name() == "none" {
        report.truth(refs_fit(&[], base));
        return Some(());
    }
    let one = reference_of(code, target)?;
    let other = reference_of(other_code, other_target)?;
    report.truth(refs_fit(&[one, other], base));
    Some(())
}

#[test]
fn handles_lie_below_their_limit_and_codes_reach_some_targets(rt: HostRuntime) -> Result<(), Fail> {
    let cases = "
        handle x7FFFFFFFFFFFFFFF | x7FFFFFFFFFFFFFFF
        handle x8000000000000000 | none
        codes 16 1 | 0 1 2 3 4 5 6 8 10 12
        fits 0 x7FFFFFFFFFFFFFFF 0 | yes
        fits 5 0 x7FFFFFFFFFFFFFFF | yes
        fits 6 x81 x80 | yes
        fits 6 x80 x80 | no
        fits 6 x7FFFFFFFFFFFFFFF x7FFFFFFFFFFFFFFF | no
        fits 8 x7F x80 | yes
        fits 8 x80 x80 | no
        fits 8 0 0 | no
        fits 10 x80 x80 | yes
        fits 10 x7F x80 | no
        fits 10 x7FFFFFFFFFFFFFFF 0 | yes
        fits 12 x80 x80 | yes
        fits 12 x81 x80 | no
        fits 12 0 x7FFFFFFFFFFFFFFF | yes";
    hold::<HandleCases>(rt.alloc(), cases)
}

#[test]
fn references_are_read_and_travel_at_each_bit_position(rt: HostRuntime) -> Result<(), Fail> {
    let cases = "
        read x80 | 60 | 6.81 8
        read x80 | 80 | 8.7F 8
        read x80 | A1 0F | A.8F 16
        read x80 | C1 10 | C.70 16
        read x80 | A0 | A.80 8
        read x80 | 41 10 | 4.10 16
        read x80 | 42 00 10 | 4.10 24
        read x80 | 10 | 1.0 8
        read x80 | C1 80 | C.0 16
        read x80 | C1 81 | none 0
        read x80 | 61 00 | none 0
        read x80 | 81 00 | none 0
        read x80 | 70 | none 0
        read x80 | 90 | none 0
        read x80 | B0 | none 0
        read x80 | D0 | none 0
        read x80 | 49 00 00 00 00 00 00 00 00 01 | none 0
        read x80 | 48 80 00 00 00 00 00 00 00 | none 0
        read x80 | A8 7F FF FF FF FF FF FF 80 | none 0
        read x80 | 42 10 | none 0
        read x80 | - | none 0
        read x7FFFFFFFFFFFFFFF | 60 | none 0
        read x0 | 80 | none 0
        travel 0 0 x80 | 8
        travel 1 xFF x80 | 16
        travel 2 x100 x80 | 24
        travel 3 xFFFFFF x80 | 32
        travel 4 x1000000 x80 | 40
        travel 5 x7FFFFFFFFFFFFFFF x80 | 72
        travel 6 x81 x80 | 8
        travel 8 x7F x80 | 8
        travel 10 x80 x80 | 8
        travel 10 x17F x80 | 16
        travel 12 0 x80 | 16";
    hold::<HandleCases>(rt.alloc(), cases)
}

#[test]
fn lists_of_references_are_seen_from_one_object(rt: HostRuntime) -> Result<(), Fail> {
    let cases = "
        all x80 0 0 46 | 60 41 10 A1 0F 00 | 6.81 4.10 A.8F at 40
        all x80 0 0 40 | 60 41 10 A1 0F 00 | 6.81 4.10 A.8F at 40
        all x80 0 0 39 | 60 41 10 A1 0F 00 | none at 0
        all x80 0 0 7 | 60 41 10 A1 0F 00 | at 0
        list x80 3 0 46 | 60 41 10 A1 0F 00 | 6.81 4.10 A.8F at 40
        list x80 2 0 46 | 60 41 10 A1 0F 00 | 6.81 4.10 at 24
        list x80 0 0 46 | 60 41 10 A1 0F 00 | at 0
        list x80 4 0 46 | 60 41 10 A1 0F 00 | none at 0
        list x80 4294967295 0 80 | 60 60 60 60 60 60 60 60 60 60 | none at 0
        # The references of an object end before its padding.
        list xC 2 74 96 | 4A 92 80 00 00 00 43 2A 80 10 0C 00 | 4.0 3.0 at 90
        all xC 0 74 96 | 4A 92 80 00 00 00 43 2A 80 10 0C 00 | 4.0 3.0 at 90
        list xC 2 74 96 | 4A 92 80 00 00 00 43 2A 80 10 0C 3F | 4.0 3.0 at 90
        all xC 0 74 96 | 4A 92 80 00 00 00 43 2A 80 10 0C 3F | 4.0 3.0 at 90
        both x80 6 x81 3 x80 | yes
        both x80 6 x81 6 x80 | no
        none x80 | yes";
    hold::<HandleCases>(rt.alloc(), cases)
}
