//! Writing the file header.

ghost use Rattle.std.specs.Prelude.{◌≡◌, ◌+◌, ◌*◌, ◌≤◌, [], length, flat_map};
ghost use Rattle.dwg_base.specs.Bytes.{AreBytes};
ghost use Rattle.dwg_bits.specs.Bits.{bits};
ghost use Rattle.dwg_bits.specs.Sink.{Extends};
ghost use Rattle.dwg_check.specs.CheckWord.{header_check_word};
ghost use Rattle.dwg_sections.specs.FileHeader.{LocateSections, locator_bytes, header_prefix, header_bytes};
ghost use Rattle.dwg_sections.specs.Writing.{Puts};

use crate::appending::put;
use crate::header::{FileHeader, Locator};
use crate::header_sentinel::SENTINEL_BYTES;
use dwg_bits::BitSink;
use dwg_check::header_word;

/// Writes a locator: RC number, RL place, RL size.
fn write_locator(locator: &Locator, sink: &mut BitSink)
    requires { 72 ≤ sink.old.spare }
    ensures { Puts sink.old sink.new (locator_bytes locator.now) }
{
    put(&[locator.number], sink);
    put(&locator.place.to_le_bytes(), sink);
    put(&locator.size.to_le_bytes(), sink);
}

/// Writes locators, one after the other.
fn write_locators(locators: &[Locator], sink: &mut BitSink)
    requires { 72 * length locators.now ≤ sink.old.spare }
    ensures puts { Puts sink.old sink.new (flat_map locator_bytes locators.now) }
    ensures spare { sink.old.spare ≤ sink.new.spare + 72 * length locators.now }
{
    'locators: for locator in locators {
        write_locator(locator, sink);
    }
}

/// Writes what stands before the check word.
fn write_prefix(header: &FileHeader, sink: &mut BitSink)
    requires few { length header.now.locators ≤ 6 }
    requires room { 200 + 72 * length header.now.locators ≤ sink.old.spare }
    ensures puts { Puts sink.old sink.new (header_prefix header.now) }
    ensures spare { sink.old.spare ≤ sink.new.spare + (200 + 72 * length header.now.locators) }
{
    let locators = header.locators.as_slice();
    let count = locators.len() as u32;
    put(&header.version.bytes(), sink);
    put(&header.lead, sink);
    put(&header.preview.to_le_bytes(), sink);
    put(&header.mark, sink);
    put(&header.code_page.to_le_bytes(), sink);
    put(&count.to_le_bytes(), sink);
    write_locators(locators, sink);
}

/// The check word of a header with so many locators after its prefix.
fn word_after(count: u32, prefix: &[u8]) -> u16
    requires least { 3 ≤ count }
    requires most { count ≤ 6 }
    ensures word { result ≡ header_check_word count prefix.now }
    ensures small { AreBytes prefix.now }
{
    header_word(count, prefix)
}

/// Writes a file header into an empty sink: its fields, the locators in their order, the check word, the sentinel (Open
/// Design Specification, "R13 to R2000 file layout"). The caller sees to it that there are three to six locators with
/// distinct numbers, 0, 1 and 2 among them, and that the sink has the spare: 344 bits, and 72 for each locator.
pub fn write_file_header(header: &FileHeader, sink: &mut BitSink)
    requires sections { LocateSections header.now.locators }
    requires empty { sink.old.written ≡ [] }
    requires room { 344 + 72 * length header.now.locators ≤ sink.old.spare }
    ensures { Extends sink.old sink.new (bits (header_bytes header.now)) }
{
    let count = header.locators.as_slice().len() as u32;
    write_prefix(header, sink);
    let word = word_after(count, sink.as_bytes());
    put(&word.to_le_bytes(), sink);
    put(&SENTINEL_BYTES, sink);
}
