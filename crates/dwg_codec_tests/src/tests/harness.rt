//! Tables of cases themselves: what fails, and what doesn't.

use dwg_testkit::{Case, Line, Report, first_fault, hold};
use std::test::Fail;

/// `say NUMBER | BYTES`: the number and the bytes.
struct Said;

impl Case for Said {
    fn report(line: &mut Line<'_>, report: &mut Report) -> Option<()> {
        if line.name() != "say" {
            return None;
        }
        let [number, ..] = line.numbers()?;
        report.hex(number);
        report.bytes(line.bytes(1)?.as_slice());
        Some(())
    }
}

#[test]
fn a_line_that_says_what_is_reported_holds(rt: HostRuntime) -> Result<(), Fail> {
    let cases = "
        say 1 | 4142 | 1 :4142
        # a remark, and numbers to the largest
        say | - | 0 :
        say xFFFFFFFFFFFFFFFE 2 | 00 | xFFFFFFFFFFFFFFFE :00";
    hold::<Said>(rt.alloc(), cases)
}

#[test]
fn any_other_line_fails(rt: HostRuntime) -> Result<(), Fail> {
    for table in [
        // Another value; less, and more, than what is reported; another blank.
        "say 1 | 4142 | 2 :4142",
        "say 1 | 4142 | 1 :41",
        "say 1 | 4142 | 1 :414243",
        "say 1 | 4142 | 1  :4142",
        // A field that is missing, and one too many; another name; what is no number, or too large; no digit.
        "say 1 | 1 :",
        "say 1 | 4142 | 43 | 1 :4142",
        "tell 1 | 4142 | 1 :4142",
        "say one | 4142 | 1 :4142",
        "say x10000000000000001 | 4142 | 1 :4142",
        "say 18446744073709551617 | 4142 | 1 :4142",
        "say x | 4142 | 0 :4142",
        "say 1 2 3 4 5 6 | 4142 | 1 :4142",
        "say 1 | 41G2 | 1 :41",
        // A line after others, and no line at all.
        "say 1 | 41 | 1 :41\n# a remark\nsay 2 | 42 | 1 :42",
        "\n# a remark\n",
    ] {
        if first_fault::<Said>(rt.alloc(), table).is_none() {
            return Err(Fail::new(format_args!("{}: holds", table)));
        }
    }
    Ok(())
}
