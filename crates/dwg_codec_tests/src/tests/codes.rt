//! Bit codes, read and written at each of the bit positions 0 to 15.

ghost use Rattle.std.specs.Prelude.{◌<◌};

use crate::tests::listed::{Listed, report_list};
use crate::tests::sinks::{cursor_of, cursor_over, has_room};
use crate::tests::travels::{Traveller, report_travel};
use dwg_base::{Items, NoMemory};
use dwg_bits::{BitCursor, BitSink};
use dwg_codes::{
    BitCode, CodeB, CodeBB, CodeBD, CodeBE, CodeBL, CodeBS, CodeBT, CodeDD, CodeRC, CodeRD, CodeRL,
    CodeRS, Point3, read_list, read_to_end,
};
use dwg_testkit::{Case, Line, Report, hold};
use std::alloc::Global;
use std::test::Fail;

/// The word of 1.0.
const ONE: u64 = 0x3FF0_0000_0000_0000;

/// `CODE | BYTES`: the value that the code reads at their begin, by how many bits, and the fewest bits that spell it; a DD against 1.0
struct Prefixes;

/// What a code reads at the begin of the bytes, how many bits it uses, and by how many the value is written.
fn read_prefix<C: BitCode>(context: &C::Context, bytes: &[u8]) -> Option<(C::Value, u64, u64)>
where
    C::Value: Drop,
    requires { C.IsContext context.now }
{
    let mut cursor = cursor_over(bytes);
    let value = C::read(context, &mut cursor)?;
    let least = C::length(context, &value);
    Some((value, cursor.at(), least))
}

/// Writes what a code reads.
fn report_prefix<C: BitCode>(context: &C::Context, bytes: &[u8], report: &mut Report)
where
    C::Value: Into<u64> + Drop,
    requires { C.IsContext context.now }
{
    let Some((value, bits, least)) = read_prefix::<C>(context, bytes) else {
        return report.word("none");
    };
    report.hex(value.into());
    report.number(bits);
    report.number(least);
}

impl Case for Prefixes {
    fn report(line: &mut Line<'_>, report: &mut Report) -> Option<()> {
        let bytes = line.bytes(1)?;
        match line.name() {
            "BS" => report_prefix::<CodeBS>(&(), &bytes, report),
            "BL" => report_prefix::<CodeBL>(&(), &bytes, report),
            "BD" => report_prefix::<CodeBD>(&(), &bytes, report),
            "DD" => report_prefix::<CodeDD>(&ONE, &bytes, report),
            _ => return None,
        }
        Some(())
    }
}

#[test]
fn numbers_have_several_spellings(rt: HostRuntime) -> Result<(), Fail> {
    let cases = "
        BS | 80 00 00 | 0 2 2
        BS | 40 00 00 | 0 10 2
        BS | C0 00 00 | x100 2 2
        BS | 43 C0 00 | xF 10 10
        BS | 00 40 40 | x101 18 18
        BL | C0 C0 C0 C0 C0 C0 C0 C0 C0 | none
        BD | C0 C0 C0 C0 C0 C0 C0 C0 C0 | none
        BS | 00 40 | none
        # A word with a default replaces its low bytes.
        DD | 3F 3F 3F 3F 3F 3F 3F 3F 3F | x3FF^ 2 2
        DD | 5E 15 8D 04 80 00 00 00 00 | x3FF0000012345678 34 34
        DD | 8D 04 AF 26 9E 15 80 00 00 | x3FF0123456789ABC 50 50
        DD | C0 00 00 00 00 00 00 10 00 | x4^ 66 66";
    hold::<Prefixes>(rt.alloc(), cases)
}

/// A value of a code in a context.
#[derive(Drop)]
struct Coded<C: BitCode>
where
    C::Context: Drop,
    C::Value: Drop,
{
    /// The context.
    context: C::Context,
    /// The value.
    value: C::Value,
}

impl<C: BitCode> Traveller for Coded<C>
where
    C::Context: Drop,
    C::Value: PartialEq + Drop,
{
    ghost IsSpelled = { λ coded. C.IsContext coded.context × (C.grammar coded.context).IsValue coded.value };

    fn write(&self, sink: &mut BitSink) -> u64 {
        let bits = C::length(&self.context, &self.value);
        if has_room(sink, bits) {
            C::write(&self.context, &self.value, sink);
        }
        bits
    }

    fn is_read(&self, cursor: &mut BitCursor<'_>) -> bool {
        C::read(&self.context, cursor).as_ref() == Some(&self.value)
    }
}

/// `CODE VALUE`: by how many bits the value is written: it is read again at each bit position; a DD against 1.0, and a BE has three
/// numbers.
struct Travels;

/// Reports how a value of a code without context travels.
fn report_coded<C: BitCode>(
    alloc: Global,
    context: C::Context,
    value: C::Value,
    report: &mut Report,
)
where
    C::Context: Drop,
    C::Value: PartialEq + Drop,
    requires context { C.IsContext context }
    requires value { (C.grammar context).IsValue value }
{
    report_travel(alloc, &Coded::<C> { context, value }, report);
}

/// Reports how a value of at most 16 bits travels.
fn report_short(alloc: Global, name: &str, value: u16, report: &mut Report) {
    if name == "B" {
        report_coded::<CodeB>(alloc, (), value == 1, report);
    } else if name == "BB" {
        report_coded::<CodeBB>(alloc, (), (value % 4) as u8, report);
    } else if name == "RC" {
        report_coded::<CodeRC>(alloc, (), (value % 256) as u8, report);
    } else if name == "RS" {
        report_coded::<CodeRS>(alloc, (), value, report);
    } else if name == "BS" {
        report_coded::<CodeBS>(alloc, (), value, report);
    }
}

/// Reports how a value of at most 32 bits travels.
fn report_long(alloc: Global, name: &str, value: u32, report: &mut Report) {
    if name == "RL" {
        report_coded::<CodeRL>(alloc, (), value, report);
    } else if name == "BL" {
        report_coded::<CodeBL>(alloc, (), value, report);
    }
}

/// Reports how a value of at most 64 bits travels.
fn report_word(alloc: Global, name: &str, value: u64, report: &mut Report) {
    if name == "RD" {
        report_coded::<CodeRD>(alloc, (), value, report);
    } else if name == "BD" {
        report_coded::<CodeBD>(alloc, (), value, report);
    } else if name == "BT" {
        report_coded::<CodeBT>(alloc, (), value, report);
    } else if name == "DD" {
        report_coded::<CodeDD>(alloc, ONE, value, report);
    }
}

/// Reports how an extrusion travels.
fn report_extrusion(alloc: Global, x: u64, y: u64, z: u64, report: &mut Report) {
    report_coded::<CodeBE>(alloc, (), Point3 { x, y, z }, report);
}

impl Case for Travels {
    fn report(line: &mut Line<'_>, report: &mut Report) -> Option<()> {
        let [x, y, z, ..] = line.numbers()?;
        let name = line.name();
        if name == "BE" {
            report_extrusion(line.alloc, x, y, z, report);
        }
        report_short(line.alloc, name, (x % 65_536) as u16, report);
        report_long(line.alloc, name, (x % (1 << 32)) as u32, report);
        report_word(line.alloc, name, x, report);
        // A code that isn't named reports nothing.
        if report.text() == "-" {
            return None;
        }
        Some(())
    }
}

#[test]
fn numbers_travel_at_each_bit_position(rt: HostRuntime) -> Result<(), Fail> {
    let cases = "
        B 1 | 1
        BB 2 | 2
        RC xA5 | 8
        RS xA53C | 16
        RL xA53C0F71 | 32
        RD xA53C0F7112345678 | 64
        BS 0 | 2
        BS 15 | 10
        BS 255 | 10
        BS 256 | 2
        BS 257 | 18
        BL 0 | 2
        BL 15 | 10
        BL 256 | 34
        BD 0 | 2
        BT 0 | 1
        BD x3FF0000000000000 | 2
        BT x3FF0000000000000 | 3
        BD x4037123456789ABC | 66
        BT x4037123456789ABC | 67
        DD x3FF0000000000000 | 2
        DD x3FF0000012345678 | 34
        DD x3FF0123456789ABC | 50
        DD x4000000000000000 | 66
        BE 0 0 x3FF0000000000000 | 1
        BE 1 x3FF0000000000000 0 | 71";
    hold::<Travels>(rt.alloc(), cases)
}

/// `COUNT END | BYTES`: what so many BSs, or at the name all those to the end, are read as, and where the cursor then stands
struct Lists;

/// The values to the end.
#[tactic(auto, using(dwg_grammar::proofs::ToEndLemmas::bs_least))]
fn to_end(alloc: Global, cursor: &mut BitCursor<'_>) -> Result<Option<Items<u16>>, NoMemory> {
    read_to_end::<CodeBS>(alloc, &(), 2, cursor)
}

/// So many values.
fn counted(
    alloc: Global,
    cursor: &mut BitCursor<'_>,
    count: u64,
) -> Result<Option<Items<u16>>, NoMemory> {
    read_list::<CodeBS>(alloc, &(), count.min(4_294_967_295) as u32, cursor)
}

impl Listed for u16 {
    fn report(&self, report: &mut Report) {
        report.number(u64::from(*self));
    }
}

impl Case for Lists {
    fn report(line: &mut Line<'_>, report: &mut Report) -> Option<()> {
        let [count, end, ..] = line.numbers()?;
        let bytes = line.bytes(1)?;
        let mut cursor = cursor_of(&bytes, 0, end);
        if line.name() == "all" {
            report_list(to_end(line.alloc, &mut cursor), report);
        } else {
            report_list(counted(line.alloc, &mut cursor, count), report);
        }
        report.word("at");
        report.number(cursor.at());
        Some(())
    }
}

#[test]
fn lists_are_read_whole_or_not_at_all(rt: HostRuntime) -> Result<(), Fail> {
    let cases = "
        # Three BSs, 15 and 0 and 256, in 14 bits, and then two zero bits.
        3 14 | 43 EC | 15 0 256 at 14
        2 14 | 43 EC | 15 0 at 12
        0 14 | 43 EC | at 0
        4 14 | 43 EC | none at 0
        3 13 | 43 EC | none at 0
        4294967295 16 | 43 EC | none at 0
        all 0 14 | 43 EC | 15 0 256 at 14
        all 0 13 | 43 EC | 15 0 at 12
        all 0 16 | 43 EC | none at 0";
    hold::<Lists>(rt.alloc(), cases)
}
