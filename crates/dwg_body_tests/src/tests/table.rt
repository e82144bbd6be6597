//! Tables of bodies, in the object 80.
//!
//! `READ | WRITTEN | fields` has the bits that a body is read of, those that it is written by (`=`: the same), and its fields, as they are
//! reported; `READ | none` bits that begin with no body. Bits are `MAIN / REFERENCES`, and zeros stand after them up to the next whole byte.
//! Of a body that both versions have, `READ | WRITTEN | OLDER | fields` has the bits in AC1014 too (`=`: those that are read), of which it is
//! read there, and by which it is written. `fit READ` asks whether AC1014 can spell a body, `older READ` what is read in AC1014, and
//! `at x7F READ` whether the body would fit in the object 7F as well.

ghost use Rattle.std.specs.Prelude.{◌*◌, ◌^◌, ◌<◌, length};
ghost use Rattle.dwg_common.specs.Layouts.{NEWER, older};

use crate::reading::{read_body, read_body14};
use crate::tests::fields::Fields;
use dwg_base::Handle;
use dwg_bits::{BitCursor, BitSink};
use dwg_common::{BodyCode, BodyCode14};
use dwg_testkit::{Bits, Case, Line, Report, bytes_of, read_number};
use std::alloc::Global;
use std::marker::PhantomData;

/// The object of these bodies.
pub(crate) fn own() -> Option<Handle> {
    Handle::new(0x80)
}

/// The most bits that a body of a test has before the references and among them.
const MOST: u64 = 8_000;

/// The bit size of the object in AC1014, which the common parts alone spell: four bytes that differ.
const SIZE: u32 = 0x0403_0201;

/// Bodies of one type of AC1015.
pub(crate) struct Body<B> {
    /// The type.
    of: PhantomData<B>,
}

/// Bodies of one type of both versions. Nothing is asked of the type but the bound [`BodyCode14`]: bodies are read, reported to fit, and
/// written in both versions by it alone.
pub(crate) struct BothVersions<B> {
    /// The type.
    of: PhantomData<B>,
}

/// Bodies after two other bits of the references.
pub(crate) struct After<B> {
    /// The type.
    of: PhantomData<B>,
}

impl<B: BodyCode + Fields + Drop> Case for Body<B> {
    fn report(line: &mut Line<'_>, report: &mut Report) -> Option<()> {
        match line.field(0)?.strip_prefix("at ") {
            Some(text) => report_fit::<B>(line.alloc, text, report),
            None => report_newer::<B>(line, 0, report),
        }
    }
}

impl<B: BodyCode + Fields + Drop> Case for After<B> {
    fn report(line: &mut Line<'_>, report: &mut Report) -> Option<()> {
        report_newer::<B>(line, 2, report)
    }
}

impl<B: BodyCode14 + Fields + Drop> Case for BothVersions<B> {
    fn report(line: &mut Line<'_>, report: &mut Report) -> Option<()> {
        let first = line.field(0)?;
        if let Some(bits) = first.strip_prefix("older ") {
            return report_older::<B>(line.alloc, bits, report);
        }
        if let Some(bits) = first.strip_prefix("fit ") {
            return report_fit14::<B>(line.alloc, bits, report);
        }
        if let Some(text) = first.strip_prefix("at ") {
            return report_fit::<B>(line.alloc, text, report);
        }
        report_newer::<B>(line, 0, report)?;
        match line.field(2) {
            Some(older) => report_again::<B>(line.alloc, same_as(first, older), report),
            None => Some(()),
        }
    }
}

/// The bits of a text, where `=` stands for others.
fn same_as<'t>(others: &'t str, bits: &'t str) -> &'t str {
    if bits == "=" { others } else { bits }
}

/// Reports where reading ended, if it wasn't at the end of the bits of a text `MAIN / REFERENCES`.
fn report_ends(
    alloc: Global,
    bits: &str,
    main: &BitCursor<'_>,
    refs: &BitCursor<'_>,
    report: &mut Report,
) -> Option<()> {
    let (main_text, refs_text) = bits.split_once(" / ")?;
    let main_end = Bits::of(alloc, main_text)?.length() as u64;
    let refs_end = Bits::of(alloc, refs_text)?.length() as u64;
    if main.place != main_end || refs.place != refs_end {
        report.word("ended at");
        report.number(main.place);
        report.number(refs.place);
    }
    Some(())
}

/// Reports the bits of a sink, if they aren't those of a text, or not as many as was said before.
fn report_written(
    alloc: Global,
    sink: BitSink,
    said: u64,
    text: &str,
    report: &mut Report,
) -> Option<()>
    requires { length sink.written < 100000 }
{
    let wanted = Bits::of(alloc, text)?;
    let bytes = wanted.to_bytes(alloc)?;
    let mut sink = sink;
    let count = sink.length();
    if !sink.reserve(7) {
        return None;
    }
    sink.pad();
    if count != said || count != wanted.length() as u64 || sink.as_bytes() != bytes.as_slice() {
        report.word("written");
        report.number(said);
        report.number(count);
        report.bytes(sink.as_bytes());
    }
    Some(())
}

/// Reports the main bits that a body is written by, if they are others than those of a text.
fn report_main<B: BodyCode>(
    alloc: Global,
    base: Handle,
    body: &B,
    text: &str,
    report: &mut Report,
) -> Option<()>
    requires fits { (B.grammar NEWER base).Fits body.now }
    requires few { length ((B.grammar NEWER base).short_main body.now) < 2 ^ 20 }
    requires refs_few { length ((B.grammar NEWER base).short_references body.now) < 2 ^ 20 }
{
    let lengths = body.lengths(base);
    if lengths.main > MOST {
        return None;
    }
    let mut sink = BitSink::new(alloc);
    if !sink.reserve(lengths.main) {
        return None;
    }
    body.write_main(base, &mut sink);
    report_written(alloc, sink, lengths.main, text, report)
}

/// Reports the reference bits that a body is written by, if they are others than those of a text.
fn report_refs<B: BodyCode>(
    alloc: Global,
    base: Handle,
    body: &B,
    text: &str,
    report: &mut Report,
) -> Option<()>
    requires fits { (B.grammar NEWER base).Fits body.now }
    requires few { length ((B.grammar NEWER base).short_main body.now) < 2 ^ 20 }
    requires refs_few { length ((B.grammar NEWER base).short_references body.now) < 2 ^ 20 }
{
    let lengths = body.lengths(base);
    if lengths.refs > MOST {
        return None;
    }
    let mut sink = BitSink::new(alloc);
    if !sink.reserve(lengths.refs) {
        return None;
    }
    body.write_refs(base, &mut sink);
    report_written(alloc, sink, lengths.refs, text, report)
}

/// Reports what is wrong with the bits that a body is read of, and written by, and its fields.
fn report_body<B: BodyCode + Fields>(
    line: &mut Line<'_>,
    base: Handle,
    body: &B,
    main: &BitCursor<'_>,
    refs: &BitCursor<'_>,
    report: &mut Report,
) -> Option<()>
    requires fits { (B.grammar NEWER base).Fits body.now }
    requires few { length ((B.grammar NEWER base).short_main body.now) < 2 ^ 20 }
    requires refs_few { length ((B.grammar NEWER base).short_references body.now) < 2 ^ 20 }
{
    let read = line.field(0)?;
    let (main_text, refs_text) = same_as(read, line.field(1)?).split_once(" / ")?;
    report_ends(line.alloc, read, main, refs, report)?;
    report_main(line.alloc, base, body, main_text, report)?;
    report_refs(line.alloc, base, body, refs_text, report)?;
    body.put(report);
    Some(())
}

/// Reports what is read of bytes.
fn report_read<B: BodyCode + Fields + Drop>(
    line: &mut Line<'_>,
    main: &[u8],
    refs: &[u8],
    skipped: u64,
    report: &mut Report,
) -> Option<()> {
    if main.len() > 1_000 || refs.len() > 1_000 || skipped > 8 * refs.len() as u64 {
        return None;
    }
    let mut main = BitCursor::new(main, 0, 8 * main.len() as u64);
    let mut refs = BitCursor::new(refs, skipped, 8 * refs.len() as u64);
    let base = own()?;
    match read_body::<B>(line.alloc, base, &mut main, &mut refs)? {
        Some(body) => report_body(line, base, &body, &main, &refs, report),
        None => report_none(&main, &refs, skipped, report),
    }
}

/// Reports that there is no body, and where the cursors stand, if not where they stood before.
fn report_none(
    main: &BitCursor<'_>,
    refs: &BitCursor<'_>,
    skipped: u64,
    report: &mut Report,
) -> Option<()> {
    report.word("none");
    if main.place != 0 || refs.place != skipped {
        report.word("moved");
    }
    Some(())
}

/// Reports what is read in AC1015 of a line's first field, where so many of the reference bits are skipped.
fn report_newer<B: BodyCode + Fields + Drop>(
    line: &mut Line<'_>,
    skipped: u64,
    report: &mut Report,
) -> Option<()> {
    let (main, refs) = line.field(0)?.split_once(" / ")?;
    let main = bytes_of(line.alloc, main)?;
    let refs = bytes_of(line.alloc, refs)?;
    report_read::<B>(line, &main, &refs, skipped, report)
}

/// Reports the main bits that a body is written by in AC1014, if they are others than those of a text.
fn report_main14<B: BodyCode14>(
    alloc: Global,
    base: Handle,
    body: &B,
    text: &str,
    report: &mut Report,
) -> Option<()>
    requires fits { (B.grammar (older 0) base).Fits body.now }
    requires few { length ((B.grammar (older 0) base).short_main body.now) < 2 ^ 20 }
    requires refs_few { length ((B.grammar (older 0) base).short_references body.now) < 2 ^ 20 }
{
    let lengths = body.lengths14(base);
    if lengths.main > MOST {
        return None;
    }
    let mut sink = BitSink::new(alloc);
    if !sink.reserve(lengths.main) {
        return None;
    }
    body.write_main14(SIZE, base, &mut sink);
    report_written(alloc, sink, lengths.main, text, report)
}

/// Reports the reference bits that a body is written by in AC1014, if they are others than those of a text.
fn report_refs14<B: BodyCode14>(
    alloc: Global,
    base: Handle,
    body: &B,
    text: &str,
    report: &mut Report,
) -> Option<()>
    requires fits { (B.grammar (older 0) base).Fits body.now }
    requires few { length ((B.grammar (older 0) base).short_main body.now) < 2 ^ 20 }
    requires refs_few { length ((B.grammar (older 0) base).short_references body.now) < 2 ^ 20 }
{
    let lengths = body.lengths14(base);
    if lengths.refs > MOST {
        return None;
    }
    let mut sink = BitSink::new(alloc);
    if !sink.reserve(lengths.refs) {
        return None;
    }
    body.write_refs14(base, &mut sink);
    report_written(alloc, sink, lengths.refs, text, report)
}

/// Reports what is wrong with the bits that a body is read of in AC1014, and written by, and its fields. None where it doesn't fit.
fn report_body14<B: BodyCode14 + Fields>(
    alloc: Global,
    base: Handle,
    body: &B,
    bits: &str,
    main: &BitCursor<'_>,
    refs: &BitCursor<'_>,
    report: &mut Report,
) -> Option<()>
    requires fits { (B.grammar (older 0) base).Fits body.now }
    requires few { length ((B.grammar (older 0) base).short_main body.now) < 2 ^ 20 }
    requires refs_few { length ((B.grammar (older 0) base).short_references body.now) < 2 ^ 20 }
{
    if !body.fits14(base) {
        return None;
    }
    let (main_text, refs_text) = bits.split_once(" / ")?;
    report_ends(alloc, bits, main, refs, report)?;
    report_main14(alloc, base, body, main_text, report)?;
    report_refs14(alloc, base, body, refs_text, report)?;
    body.put(report);
    Some(())
}

/// Reports what is read in AC1014 of bits: the fields, if they are written again by the same bits.
fn report_older<B: BodyCode14 + Fields + Drop>(
    alloc: Global,
    bits: &str,
    report: &mut Report,
) -> Option<()> {
    let (main, refs) = bits.split_once(" / ")?;
    let main = bytes_of(alloc, main)?;
    let refs = bytes_of(alloc, refs)?;
    if main.len() > 1_000 || refs.len() > 1_000 {
        return None;
    }
    let mut main = BitCursor::new(&main, 0, 8 * main.len() as u64);
    let mut refs = BitCursor::new(&refs, 0, 8 * refs.len() as u64);
    let base = own()?;
    match read_body14::<B>(alloc, SIZE, base, &mut main, &mut refs)? {
        Some(body) => report_body14(alloc, base, &body, bits, &main, &refs, report),
        None => report_none(&main, &refs, 0, report),
    }
}

/// Reports what is read in AC1014 of bits, if it isn't what was reported in AC1015.
fn report_again<B: BodyCode14 + Fields + Drop>(
    alloc: Global,
    bits: &str,
    report: &mut Report,
) -> Option<()> {
    let mut again = Report::new(alloc);
    report_older::<B>(alloc, bits, &mut again)?;
    if again.text() != report.text() {
        report.word("in AC1014");
        report.word(again.text());
    }
    Some(())
}

/// The body of the object 80 in bits of AC1015. None where they have a byte or more that isn't the body's.
fn body_in<B: BodyCode + Drop>(alloc: Global, bits: &str) -> Option<B> {
    let (main, refs) = bits.split_once(" / ")?;
    let main = bytes_of(alloc, main)?;
    let refs = bytes_of(alloc, refs)?;
    if main.len() > 1_000 || refs.len() > 1_000 {
        return None;
    }
    let mut main = BitCursor::new(&main, 0, 8 * main.len() as u64);
    let mut refs = BitCursor::new(&refs, 0, 8 * refs.len() as u64);
    let body = read_body::<B>(alloc, own()?, &mut main, &mut refs)??;
    if main.left() >= 8 || refs.left() >= 8 {
        return None;
    }
    Some(body)
}

/// Reports whether AC1014 can spell the body in bits.
fn report_fit14<B: BodyCode14 + Drop>(
    alloc: Global,
    bits: &str,
    report: &mut Report,
) -> Option<()> {
    let base = own()?;
    let body = body_in::<B>(alloc, bits)?;
    report.truth(body.fits14(base));
    Some(())
}

/// Reports whether the body fits in an object, by a text `HANDLE MAIN / REFERENCES`.
fn report_fit<B: BodyCode + Drop>(alloc: Global, text: &str, report: &mut Report) -> Option<()> {
    let (handle, bits) = text.split_once(" ")?;
    let base = Handle::new(read_number(handle)?)?;
    let body = body_in::<B>(alloc, bits)?;
    report.truth(body.fits(base));
    Some(())
}
