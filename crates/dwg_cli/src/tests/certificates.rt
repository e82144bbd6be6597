//! Certificates over devices in memory: what `accept` says of a certificate and the drawing after it, where each of its numbers is changed,
//! and where it is cut at each length.

use crate::tests::inputs::input_of;
use crate::tests::runs::{PLENTY, in_pieces, ran, report_in_pieces, wanted_of};
use dwg_base::Refusal;
use dwg_base::refusal_lines::{CERTIFICATE_LENGTH, CERTIFICATE_SHORT};
use dwg_commands::Status;
use dwg_testkit::{Case, Line, Report, hold};
use std::alloc::Global;
use std::test::Fail;

/// Where the count of entries stands in a certificate.
const COUNT: usize = 8;

/// Where the entries of a certificate begin.
const ENTRIES: usize = 16;

/// How many entries the certificate of `make 7 1` has: 29 of the fixed objects, and 7.
const MADE: usize = 36;

/// A certificate and a drawing after it.
fn together(alloc: Global, certificate: &str, drawing: &str) -> Option<Vec<u8>> {
    let mut bytes = input_of(alloc, certificate)?;
    bytes.extend_from_slice(&input_of(alloc, drawing)?).ok()?;
    Some(bytes)
}

/// `CERTIFICATE | DRAWING | OUTPUT | NOTES`: how `accept` of both, one after the other, ends that writes so.
struct Accepted;

impl Case for Accepted {
    fn report(line: &mut Line<'_>, report: &mut Report) -> Option<()> {
        let bytes = together(line.alloc, line.field(0)?, line.field(1)?)?;
        let wanted = wanted_of(line.alloc, line.field(2)?, line.field(3)?)?;
        report_in_pieces(line.alloc, "dwg accept", &bytes, &wanted, report)
    }
}

/// Whether a certificate with a number changed isn't accepted before its drawing.
fn is_rejected(
    alloc: Global,
    certificate: &[u8],
    place: usize,
    number: u64,
    drawing: &[u8],
) -> Option<bool> {
    let mut bytes = Vec::from_slice(alloc, certificate.get(..place)?).ok()?;
    bytes.extend_from_slice(&number.to_le_bytes()).ok()?;
    bytes
        .extend_from_slice(certificate.get(place.checked_add(8)?..)?)
        .ok()?;
    bytes.extend_from_slice(drawing).ok()?;
    let left = ran(alloc, "dwg accept", &bytes, in_pieces(PLENTY))?;
    Some(left.status.code() == 3 || left.output.as_slice() == "accept no\n".as_bytes())
}

/// The eight bytes at a place as a number, the least significant first.
fn number_at(bytes: &[u8], place: usize) -> Option<u64> {
    let mut number = 0u64;
    for byte in bytes.get(place..place.checked_add(8)?)?.iter().rev() {
        number = number.checked_mul(256)?.checked_add(u64::from(*byte))?;
    }
    Some(number)
}

/// Whether a certificate isn't accepted with the number at a place one more, or one less. A number that is missing is 0, and left.
fn is_bound(alloc: Global, certificate: &[u8], place: usize, drawing: &[u8]) -> Option<bool> {
    let number = number_at(certificate, place)?;
    if number == 0 {
        return Some(true);
    }
    let more = is_rejected(alloc, certificate, place, number.checked_add(1)?, drawing)?;
    let less = is_rejected(alloc, certificate, place, number.checked_sub(1)?, drawing)?;
    Some(more && less)
}

/// The first of so many numbers of a certificate, its count first, that can be changed so; their count if there is none.
fn first_unbound(
    alloc: Global,
    certificate: &[u8],
    numbers: usize,
    drawing: &[u8],
) -> Option<usize> {
    for index in 0..numbers {
        let place = index.checked_mul(8)?.checked_add(COUNT)?;
        if !is_bound(alloc, certificate, place, drawing)? {
            return Some(index);
        }
    }
    Some(numbers)
}

/// How a certificate that is cut to a length is refused.
fn refusal_of_cut(length: usize) -> Status {
    if length < ENTRIES {
        return Status::Refused(Refusal::new(CERTIFICATE_SHORT, 0, length as u64));
    }
    Status::Refused(Refusal::new(CERTIFICATE_LENGTH, 0, 8))
}

/// Whether a certificate that is cut is refused, and isn't accepted before its drawing.
fn is_cut_refused(alloc: Global, cut: &[u8], drawing: &[u8]) -> Option<bool> {
    let alone = ran(alloc, "dwg accept", cut, in_pieces(PLENTY))?;
    let mut bytes = Vec::from_slice(alloc, cut).ok()?;
    bytes.extend_from_slice(drawing).ok()?;
    let before = ran(alloc, "dwg accept", &bytes, in_pieces(PLENTY))?;
    Some(alone.status == refusal_of_cut(cut.len()) && before.status != Status::Done)
}

/// The length to which a certificate can be cut that isn't so, its own length if there is none.
fn first_unrefused(alloc: Global, certificate: &[u8], drawing: &[u8]) -> Option<usize> {
    for length in 0..certificate.len() {
        if !is_cut_refused(alloc, certificate.get(..length)?, drawing)? {
            return Some(length);
        }
    }
    Some(certificate.len())
}

#[test]
fn accepts_a_certificate_of_its_drawing_alone(rt: HostRuntime) -> Result<(), Fail> {
    let cases = "
        certificate/made/1/7 | made/1/7 | accept yes | - | Done
        certificate/made/1/7 | made/2/7 | accept no | - | Found
        nothing | smallest | - | dwg: refused: certificate 0 at 0: begin | refused 35 0 0";
    hold::<Accepted>(rt.alloc(), cases)
}

#[test]
fn accepts_no_changed_number(rt: HostRuntime) -> Result<(), Fail> {
    let certificate = input_of(rt.alloc(), "certificate/made/7/1").ok_or("no certificate")?;
    let drawing = input_of(rt.alloc(), "made/7/1").ok_or("no drawing")?;
    let numbers = 1 + 3 * MADE;
    assert_eq!(rt;
        first_unbound(rt.alloc(), &certificate, numbers, &drawing),
        Some(numbers)
    );
    Ok(())
}

#[test]
fn refuses_a_certificate_that_is_cut(rt: HostRuntime) -> Result<(), Fail> {
    let certificate = input_of(rt.alloc(), "certificate/made/1/7").ok_or("no certificate")?;
    let drawing = input_of(rt.alloc(), "made/1/7").ok_or("no drawing")?;
    assert_eq!(rt;
        first_unrefused(rt.alloc(), &certificate, &drawing),
        Some(736)
    );
    Ok(())
}
