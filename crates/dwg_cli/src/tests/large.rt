//! Large inputs over devices in memory. No clause bounds the time that they take: a body that searches in a line, or that reads bytes anew
//! from each place, takes longer than a test may.

use crate::tests::commands::OverDevices;
use crate::tests::inputs::input_of;
use crate::tests::runs::{PLENTY, in_pieces, ran, report_status, written};
use dwg_base::LIMIT;
use dwg_testkit::{Case, Line, Report, hold};
use std::test::Fail;

/// `COMMAND LINE | INPUT | LINE`: how such a run ends that notes nothing, and whose output ends with this line.
struct Ended;

impl Case for Ended {
    fn report(line: &mut Line<'_>, report: &mut Report) -> Option<()> {
        let bytes = input_of(line.alloc, line.field(1)?)?;
        let left = ran(line.alloc, line.field(0)?, &bytes, in_pieces(PLENTY))?;
        report_status(&left.status, report);
        let last = format!(in line.alloc; "{}\n", line.field(2)?).ok()?;
        if !left.output.as_slice().ends_with(last.as_bytes()) {
            report.word("with another line at the end");
        }
        if !left.notes.as_slice().is_empty() {
            report.word("with notes");
        }
        Some(())
    }
}

#[test]
fn makes_the_largest_drawing(rt: HostRuntime) -> Result<(), Fail> {
    let many = written(rt.alloc(), "dwg make 200000 1", &[], LIMIT as usize).ok_or("no drawing")?;
    assert!(rt; many.as_slice().starts_with(b"AC1015"));
    Ok(())
}

#[test]
fn drills_the_largest_size(rt: HostRuntime) -> Result<(), Fail> {
    let cases = "
        dwg drill 200000 | 1000000 0 1000000 0 | nothing \
            | drill 200000; objects 200029; bytes 11120301; check 0ADA; changed 5560150 objects 104807 at 5560103: check; findings 0 | - | Done";
    hold::<OverDevices>(rt.alloc(), cases)
}

#[test]
fn finds_nothing_where_frames_seem_to_begin_at_each_byte(rt: HostRuntime) -> Result<(), Fail> {
    // The length of a body of 32,639 bytes stands at each byte but the last.
    let cases = "
        dwg recover | 1000000 0 1000000 0 | 7F*2097152 | file smallest \
            | dwg: refused: header 0 at 0: version; lost: file header; lost: header variables; lost: classes; kept 0 | Found";
    hold::<OverDevices>(rt.alloc(), cases)
}

#[test]
fn finds_nothing_where_sections_seem_to_begin_one_after_the_other(
    rt: HostRuntime,
) -> Result<(), Fail> {
    // The begin sentinel of the header variables and a size of 2,097,152 bytes, again and again.
    let cases = "
        dwg recover | 1000000 0 1000000 0 | CF7B1F23FDDE38A95F7C68B84E6D335F00002000*200000 | file smallest \
            | dwg: refused: header 0 at 0: version; lost: file header; lost: header variables; lost: classes; kept 0 | Found";
    hold::<OverDevices>(rt.alloc(), cases)
}

#[test]
fn accepts_the_certificate_of_the_largest_drawing(rt: HostRuntime) -> Result<(), Fail> {
    let cases = "
        dwg accept | certified/made/200000/1 | accept yes | Done";
    hold::<Ended>(rt.alloc(), cases)
}

#[test]
fn looks_up_what_many_items_refer_to(rt: HostRuntime) -> Result<(), Fail> {
    let cases = "
        dwg appdata | referring/made/200000/1 | appdata yes | Done";
    hold::<Ended>(rt.alloc(), cases)
}
