//! The program over devices in memory: its words, its statuses, and each of its commands.

use crate::tests::inputs::input_of;
use crate::tests::runs::{Answers, Devices, PLENTY, ran, report_in_pieces, report_left, wanted_of};
use dwg_base::Refusal;
use dwg_commands::Status;
use dwg_testkit::{Case, Line, Report, hold};
use std::test::Fail;

/// `COMMAND LINE | DEVICES | INPUT | OUTPUT | NOTES`: how a run over such devices ends that writes so. They are how much a read gives at
/// the most, the read that fails, how much a write takes at the most, and the write of output that fails; 0 for none.
pub(crate) struct OverDevices;

/// The devices of four numbers.
fn devices_of(text: &str) -> Option<Devices> {
    let mut words = text.split_whitespace();
    Some(Devices {
        read: words.next()?.parse().ok()?,
        failing_read: words.next()?.parse().ok()?,
        write: words.next()?.parse().ok()?,
        failing_write: words.next()?.parse().ok()?,
        room: PLENTY,
        failing_note: 0,
    })
}

impl Case for OverDevices {
    fn report(line: &mut Line<'_>, report: &mut Report) -> Option<()> {
        let devices = devices_of(line.field(1)?)?;
        let bytes = input_of(line.alloc, line.field(2)?)?;
        let wanted = wanted_of(line.alloc, line.field(3)?, line.field(4)?)?;
        let left = ran(line.alloc, line.field(0)?, &bytes, devices)?;
        report_left(&left, &wanted, report);
        Some(())
    }
}

/// `COMMAND LINE`: how a run ends that reports how the program is used.
struct Used;

impl Case for Used {
    fn report(line: &mut Line<'_>, report: &mut Report) -> Option<()> {
        let bytes = input_of(line.alloc, "smallest")?;
        let wanted = wanted_of(line.alloc, "-", USAGE)?;
        report_in_pieces(line.alloc, line.field(0)?, &bytes, &wanted, report)
    }
}

/// The note that reports how the program is used.
const USAGE: &str =
    "dwg: usage: sections | classes | show | rewrite | audit | recover | make N SEED | drill N | appdata | certify | accept | carry";

#[test]
fn answers_each_command(rt: HostRuntime) -> Result<(), Fail> {
    let cases = "
        dwg sections | smallest | version AC1015; codepage 0; preview 146; section 0 at 70 size 38; section 1 at 108 size 38; section 2 at 183 size \
            4 | - | Done
        dwg classes | one_object | classes 0 | - | Done
        dwg show | one_object | drawing AC1015 codepage 0 lead 00000000000000 mark 0000; variables -; classes 0; objects 1; object C DICTIONARY \
            typed 42;   owner 4.0;   xdict 3.0;   cloning 0;   hard_owner 0 | - | Done
        dwg rewrite | one_object | file one_object | - | Done
        dwg rewrite | older_object | file older_object | - | Done
        dwg rewrite | made/1/7 | file made/1/7 | - | Done
        dwg rewrite | smallest #140 | - | dwg: refused: classes 0 at 124: length | refused 16 0 124
        dwg audit | made/1/7 | audit yes | - | Done
        dwg audit | smallest | finding 0 control - 0 0; audit no 1 | - | Found
        dwg recover | smallest | file smallest | - | Done
        dwg recover | one_object #207 | file one_object | dwg: refused: map 1 at 206: short; lost: map end at 206; kept 1 | Found
        dwg make 1 7 | nothing | file made/1/7 | - | Done
        dwg drill 1 | nothing | drill 1; objects 30; bytes 1923; check 8976; changed 961 objects 12 at 713: check; findings 0 | - | Done
        dwg appdata | application | app C 0 5.12 raw 0500; appdata yes | - | Done
        dwg certify | made/1/7 | file certificate/made/1/7 | - | Done
        dwg certify | smallest | - | dwg: not sound | Found
        dwg carry | one_object | file one_object | - | Done";
    hold::<Answers>(rt.alloc(), cases)
}

#[test]
fn makes_no_other_sizes(rt: HostRuntime) -> Result<(), Fail> {
    let cases = "
        dwg make 0 1 | smallest | - | dwg: size must be 1 to 200000 | Usage
        dwg make 200001 1 | smallest | - | dwg: size must be 1 to 200000 | Usage
        dwg make 4294967295 1 | smallest | - | dwg: size must be 1 to 200000 | Usage
        dwg drill 0 | smallest | - | dwg: size must be 1 to 200000 | Usage
        dwg drill 200001 | smallest | - | dwg: size must be 1 to 200000 | Usage";
    hold::<Answers>(rt.alloc(), cases)
}

#[test]
fn reports_how_it_is_used(rt: HostRuntime) -> Result<(), Fail> {
    let cases = "
        dwg audit extra | Usage
        dwg sections extra | Usage
        dwg classes classes | Usage
        dwg show show show | Usage
        dwg certify extra | Usage
        dwg accept made.cert | Usage
        dwg make 1 | Usage
        dwg make 01 1 | Usage
        dwg make 1 -1 | Usage
        dwg make 1 '' | Usage
        dwg make 1 4294967296 | Usage
        dwg make 1 1 1 | Usage
        dwg drill | Usage
        dwg drill x | Usage
        dwg drill 01 | Usage
        dwg drill 1 2 | Usage
        dwg --help | Usage
        dwg | Usage";
    hold::<Used>(rt.alloc(), cases)
}

#[test]
fn ends_with_the_status_of_the_table(rt: HostRuntime) {
    assert_eq!(rt; Status::Done.code(), 0);
    assert_eq!(rt; Status::Found.code(), 1);
    assert_eq!(rt; Status::Usage.code(), 2);
    assert_eq!(rt; Status::Refused(Refusal::new(1, 0, 0)).code(), 3);
    assert_eq!(rt; Status::ReadFault.code(), 4);
    assert_eq!(rt; Status::WriteFault.code(), 5);
    assert_eq!(rt; Status::NoMemory.code(), 6);
    assert_eq!(rt; Status::TooLong.code(), 7);
    assert_eq!(rt; Status::TooLarge { size: 34_000_205 }.code(), 8);
}

#[test]
fn reports_a_failing_input(rt: HostRuntime) -> Result<(), Fail> {
    let cases = "
        dwg sections | 100 2 1000000 0 | smallest | - | dwg: read fault | ReadFault";
    hold::<OverDevices>(rt.alloc(), cases)
}

#[test]
fn stops_at_a_failing_output(rt: HostRuntime) -> Result<(), Fail> {
    let cases = "
        dwg sections | 1000000 0 10 3 | smallest | version AC1015; codep.. | - | WriteFault
        dwg show | 1000000 0 10 3 | smallest | drawing AC1015 codep.. | - | WriteFault
        dwg rewrite | 1000000 0 10 3 | smallest | file smallest #20 | - | WriteFault
        dwg appdata | 1000000 0 10 3 | application | app C 0 5.12 raw 050.. | - | WriteFault";
    hold::<OverDevices>(rt.alloc(), cases)
}
