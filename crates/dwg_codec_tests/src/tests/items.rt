//! Items of extended data, read and written again.

ghost use Rattle.std.specs.Prelude.{◌≡◌, ◌^◌, ◌<◌, ◌≤◌, length};
ghost use Rattle.std.specs.List.{AllByRecursion};
ghost use Rattle.dwg_appitems.specs.ItemLists.{CanBeWritten, items_bytes};

use crate::tests::sinks::{bytes_in, has_room};
use dwg_appitems::{AppItem, items_length, read_items, write_items};
use dwg_base::NoMemory;
use dwg_bits::BitSink;
use dwg_codes::Point3;
use dwg_testkit::{Case, Line, Report, hold};
use std::alloc::Global;
use std::test::Fail;

/// `BYTES`: the items that they are, each by its name and what it holds, and whether they are written again as these bytes
struct Readings;

/// Reports a point.
fn report_point(code: u8, words: &Point3, report: &mut Report) {
    report.word("point");
    report.number(u64::from(code));
    report.hex(words.x);
    report.hex(words.y);
    report.hex(words.z);
}

/// Reports a text.
fn report_text(mark: &[u8; 2], text: &[u8], report: &mut Report) {
    report.word("text");
    report.bytes(mark);
    report.bytes(text);
}

/// Reports an item.
fn report_item(item: &AppItem, report: &mut Report) {
    match item {
        AppItem::Text { mark, text } => report_text(mark, text.as_slice(), report),
        AppItem::Brace { close } => report.word(if *close { "close" } else { "open" }),
        AppItem::Layer { handle } => {
            report.word("layer");
            report.hex(*handle);
        }
        AppItem::Bytes { bytes } => {
            report.word("bytes");
            report.bytes(bytes.as_slice());
        }
        AppItem::Object { handle } => {
            report.word("object");
            report.hex(*handle);
        }
        AppItem::Point { code, words } => report_point(*code, words, report),
        AppItem::Word { code, value } => {
            report.word("word");
            report.number(u64::from(*code));
            report.hex(*value);
        }
        AppItem::Short { value } => {
            report.word("short");
            report.number(u64::from(*value));
        }
        AppItem::Long { value } => {
            report.word("long");
            report.number(u64::from(*value));
        }
    }
}

/// Whether items are written by just these bytes, and counted so.
fn is_again(alloc: Global, all: &[AppItem], bytes: &[u8]) -> bool
    requires items { AllByRecursion CanBeWritten all.now }
    requires few { length (items_bytes all.now) < 2 ^ 58 }
{
    let count = items_length(all);
    let mut sink = BitSink::new(alloc);
    if !has_room(&mut sink, 8 * count) {
        return false;
    }
    write_items(all, &mut sink);
    count == bytes.len() as u64 && bytes_in(&sink) == bytes
}

/// Reports items, and whether they are written again as the bytes that they were read of.
fn report_items(alloc: Global, all: &[AppItem], bytes: &[u8], report: &mut Report)
    requires items { AllByRecursion CanBeWritten all.now }
    requires few { length (items_bytes all.now) < 2 ^ 58 }
{
    for item in all {
        report_item(item, report);
    }
    if !is_again(alloc, all, bytes) {
        report.word("otherwise");
    }
}

/// Writes what bytes are.
fn report_bytes(alloc: Global, bytes: &[u8], report: &mut Report) {
    if bytes.len() > 1_000 {
        return;
    }
    match read_items(alloc, bytes) {
        Ok(Some(items)) => report_items(alloc, items.as_slice(), bytes, report),
        Ok(None) => report.word("none"),
        Err(NoMemory) => report.word("no memory"),
    }
}

impl Case for Readings {
    fn report(line: &mut Line<'_>, report: &mut Report) -> Option<()> {
        report_bytes(line.alloc, &line.bytes(0)?, report);
        Some(())
    }
}

#[test]
fn items_are_read_and_written_again(rt: HostRuntime) -> Result<(), Fail> {
    let cases = "
        # Nothing; a text and a number; each code short by a byte, just long enough, and with a byte more, which is no item.
        - | -
        00 02 1E 00 41 42 46 00 01 | text :1E00 :4142 short 256
        00 | none
        00 00 1E | none
        00 00 1E 00 | text :1E00 :
        00 02 1E 00 41 | none
        00 02 1E 00 41 42 | text :1E00 :4142
        00 02 1E 00 41 42 43 | none
        02 | none
        02 00 | open
        02 01 | close
        02 02 | none
        02 FF | none
        02 00 02 01 | open close
        02 01 00 | none
        03 01 02 03 04 05 06 07 | none
        03 01 02 03 04 05 06 07 08 | layer x102030405060708
        03 01 02 03 04 05 06 07 08 09 | none
        04 | none
        04 00 | bytes :
        04 02 AB | none
        04 02 AB CD | bytes :ABCD
        04 02 AB CD EF | none
        05 00 | none
        05^ | none
        05^ 00 | object 0
        05 01 02 03 04 05 06 07 08 | object x102030405060708
        0580^ 2A 01 | none
        0A01^ 0002^ 0003^ 80 | point 10 1 2 x8000000000000003
        0B01^ 0002^ 0003^ 00 | point 11 1 2 3
        0C01^ 0002^ 0003^ 00 | point 12 1 2 3
        0D01^ 0002^ 0003^ 00 | point 13 1 2 3
        0A01^ 0002^ 0003^ | none
        0B01^ 0002^ 0003^ | none
        0C01^ 0002^ 0003^ | none
        0D01^ 0002^ 0003^ | none
        0B01^ 0002^ 0003^ 00 06 | none
        0C01^ 0002^ 0003^ 00 06 | none
        0D01^ 0002^ 0003^ 00 06 | none
        0A01^ 0002^ 0003^ 80 06 | none
        0E01^ 0002^ 0003^ 00 | none
        0901^ 0002^ 0003^ 00 | none
        28^F0 | none
        28^F0 3F | word 40 x3FF^
        29^F0 3F | word 41 x3FF^
        2A^F0 3F | word 42 x3FF^
        29^F0 | none
        2A^F0 | none
        28^F0 3F 00 | none
        29^F0 3F 00 | none
        2A^F0 3F 00 | none
        2B^F0 3F | none
        27^F0 3F | none
        46 01 | none
        46 01 02 | short 513
        46 01 02 03 | none
        47 01 02 03 | none
        47 01 02 03 04 | long 67305985
        47 01 02 03 04 05 | none
        45 01 02 | none
        48 01 02 03 04 | none
        01 | none
        01 00 | none
        06^ 00 | none
        14^ 00 | none
        FF 00 | none
        46 01 00 FF 46 01 00 | none
        020003^ 00 00 10 46 01 00 02 01 | open layer x10 short 1 close";
    hold::<Readings>(rt.alloc(), cases)
}
