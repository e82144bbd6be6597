//! Modular chars and shorts, and texts.

ghost use Rattle.std.specs.Prelude.{⊤};

use crate::tests::base::run;
use crate::tests::sinks::{has_room, report_sink};
use crate::tests::travels::{Traveller, report_travel};
use dwg_bits::{BitCursor, BitSink};
use dwg_codes::{
    BytePart, mc_bytes, ms_bytes, read_mc, read_ms, read_signed_mc, read_text, signed_mc_bytes,
    text_length, write_mc, write_ms, write_signed_mc, write_text,
};
use dwg_testkit::{Case, Line, Report, hold};
use std::alloc::Global;
use std::test::Fail;

/// `CODE | BYTES`: the number that the code reads at their begin, and by how many of them it is spelled: the code is mc, signed or ms.
struct Prefixes;

/// Reports a number and its bytes.
fn report_number(read: Option<(u64, usize)>, report: &mut Report) {
    match read {
        Some((number, bytes)) => {
            report.number(number);
            report.number(bytes as u64);
        }
        None => report.word("none"),
    }
}

/// Reports a signed number and its bytes.
fn report_signed(read: Option<(i64, usize)>, report: &mut Report) {
    match read {
        Some((number, bytes)) => {
            report.word(if number < 0 { "minus" } else { "plus" });
            report.number(number.unsigned_abs());
            report.number(bytes as u64);
        }
        None => report.word("none"),
    }
}

impl Case for Prefixes {
    fn report(line: &mut Line<'_>, report: &mut Report) -> Option<()> {
        let bytes = line.bytes(1)?;
        match line.name() {
            "mc" => report_number(read_mc(&bytes), report),
            "ms" => report_number(read_ms(&bytes), report),
            "signed" => report_signed(read_signed_mc(&bytes), report),
            _ => return None,
        }
        Some(())
    }
}

/// `CODE NUMBER`: by how many bytes the number is written, and by which: the code is mc or ms, and of signed numbers plus or minus.
struct Writes;

/// Writes an MC, and says by how many bytes.
fn push_mc(sink: &mut BitSink, value: u64) -> usize {
    let value = value.min((1 << 63) - 1);
    let bytes = mc_bytes(value);
    if has_room(sink, 8 * bytes as u64) {
        write_mc(value, sink);
    }
    bytes
}

/// Writes an MS, and says by how many bytes.
fn push_ms(sink: &mut BitSink, value: u64) -> usize {
    let value = value.min((1 << 60) - 1);
    let bytes = ms_bytes(value);
    if has_room(sink, 8 * bytes as u64) {
        write_ms(value, sink);
    }
    bytes
}

/// Writes a signed MC, and says by how many bytes.
fn push_signed(sink: &mut BitSink, value: i64) -> usize {
    let value = value.max(-i64::MAX);
    let bytes = signed_mc_bytes(value);
    if has_room(sink, 8 * bytes as u64) {
        write_signed_mc(value, sink);
    }
    bytes
}

/// Writes a number by a code, and says by how many bytes.
fn push_number(sink: &mut BitSink, code: &str, number: u64) -> Option<usize> {
    let magnitude = number.min(1 << 62) as i64;
    match code {
        "mc" => Some(push_mc(sink, number)),
        "ms" => Some(push_ms(sink, number)),
        "plus" => Some(push_signed(sink, magnitude)),
        "minus" => Some(push_signed(sink, -magnitude)),
        _ => None,
    }
}

impl Case for Writes {
    fn report(line: &mut Line<'_>, report: &mut Report) -> Option<()> {
        let [number, ..] = line.numbers()?;
        let mut sink = BitSink::new(line.alloc);
        report.number(push_number(&mut sink, line.name(), number)? as u64);
        report_sink(&sink, report);
        Some(())
    }
}

/// A text.
#[derive(Drop)]
struct Text<'a> {
    /// What reads it.
    alloc: Global,
    /// Its bytes.
    bytes: &'a [u8],
}

impl Traveller for Text<'_> {
    ghost IsSpelled = { λ _. ⊤ };

    fn write(&self, sink: &mut BitSink) -> u64 {
        let bytes = self.bytes;
        if bytes.len() > 1_000 {
            return 0;
        }
        let bits = text_length(bytes);
        if has_room(sink, bits) {
            write_text(bytes, sink);
        }
        bits
    }

    fn is_read(&self, cursor: &mut BitCursor<'_>) -> bool {
        match read_text(self.alloc, cursor) {
            Ok(Some(text)) => text.as_slice() == self.bytes,
            _ => false,
        }
    }
}

/// `BYTES`: by how many bits they are written as a text: it is read again at each bit position.
struct Travels;

impl Case for Travels {
    fn report(line: &mut Line<'_>, report: &mut Report) -> Option<()> {
        let alloc = line.alloc;
        let bytes = line.bytes(0)?;
        report_travel(
            alloc,
            &Text {
                alloc,
                bytes: &bytes,
            },
            report,
        );
        Some(())
    }
}

/// `BYTES`: those of a part that is lent, and of one that is owned
struct Parts;

/// Reports the bytes of a part.
fn report_part(part: BytePart<'_>, report: &mut Report) {
    report.bytes(part.as_slice());
}

impl Case for Parts {
    fn report(line: &mut Line<'_>, report: &mut Report) -> Option<()> {
        let bytes = line.bytes(0)?;
        report_part(BytePart::Lent(&bytes), report);
        report_part(BytePart::Owned(run(line.alloc, &bytes)), report);
        Some(())
    }
}

#[test]
fn texts_travel_at_each_bit_position_and_parts_report_their_bytes(
    rt: HostRuntime,
) -> Result<(), Fail> {
    let travels = "
        # No letters, A, and AutoCAD R2000.
        - | 2
        41 | 18
        4175746F434144205232303030 | 114";
    let parts = "
        41434144 | :41434144 :41434144";
    hold::<Travels>(rt.alloc(), travels)?;
    hold::<Parts>(rt.alloc(), parts)
}

#[test]
fn modular_codes_are_read_and_written_by_the_fewest_bytes(rt: HostRuntime) -> Result<(), Fail> {
    let prefixes = "
        mc | 82 24 | 4610 2
        mc | E9 97 E6 35 00 | 112823273 4
        mc | 80 00 | 0 2
        mc | 80 80 80 80 80 80 80 80 80 80 00 | none
        signed | 85 4B | minus 1413 2
        signed | 40 | plus 0 1
        signed | C0 00 | plus 64 2
        signed | 85 | none
        ms | 31 F4 8D 00 | 4650033 4
        ms | FF | none";
    let writes = "
        mc 0 | 1 :00
        mc 4610 | 2 :8224
        mc 127 | 1 :7F
        ms 32767 | 2 :FF7F
        ms 32768 | 4 :00800100
        minus 1413 | 2 :854B
        plus 0 | 1 :00
        minus 64 | 2 :C040
        plus 63 | 1 :3F";
    hold::<Prefixes>(rt.alloc(), prefixes)?;
    hold::<Writes>(rt.alloc(), writes)
}
