//! Items written as bytes.

ghost use Rattle.std.specs.Prelude.{◌≡◌, ◌*◌, ◌^◌, ◌<◌, ◌≤◌, length, Some};
ghost use Rattle.std.specs.List.{AllByRecursion};
ghost use Rattle.dwg_base.specs.Bytes.{AreBytes};
ghost use Rattle.dwg_bits.specs.Bits.{bits};
ghost use Rattle.dwg_bits.specs.Sink.{Extends};
ghost use Rattle.dwg_grammar.specs.Codes.{rc, IsPoint3};
ghost use Rattle.dwg_grammar.specs.Combinators.{counted};
ghost use Rattle.dwg_grammar.specs.ToEnd.{short_all};
ghost use Rattle.dwg_appitems.specs.AppFindings.{items_in};
ghost use Rattle.dwg_appitems.specs.ItemLists.{AreItems, CanBeWritten, items_bytes};
ghost use Rattle.dwg_appitems.specs.Items.{code_of, item, item_by, marked_text, words_of_point};

use crate::handle::CodeHandle;
use crate::item::AppItem;
use dwg_base::bytes_with_range;
use dwg_bits::BitSink;
use dwg_codes::{BitCode, CodeRC, CodeRD, CodeRL, CodeRS, Point3, write_bytes};

/// The code byte of an item.
fn code_of(one: &AppItem) -> u8
    ensures { result ≡ code_of one.now }
{
    match one {
        AppItem::Text { .. } => 0,
        AppItem::Brace { .. } => 2,
        AppItem::Layer { .. } => 3,
        AppItem::Bytes { .. } => 4,
        AppItem::Object { .. } => 5,
        AppItem::Point { code, .. } | AppItem::Word { code, .. } => *code,
        AppItem::Short { .. } => 70,
        AppItem::Long { .. } => 71,
    }
}

/// How many bytes follow the code byte of a text: its count, its mark, and its bytes.
#[tactic(auto, using(crate::proofs::ItemWriting::length_of_text))]
fn text_length(mark: &[u8; 2], text: &[u8]) -> u64
    requires { length text.now < 2 ^ 8 }
    ensures length { length (marked_text.short (mark.now, text.now)) ≡ 8 * result }
    ensures few { result < 2 ^ 9 }
{
    1 + mark.len() as u64 + text.len() as u64
}

/// How many bytes an item is written by.
#[tactic(auto, using(crate::proofs::ItemWriting::length_of_item))]
fn item_length(one: &AppItem) -> u64
    requires { CanBeWritten one.now }
    ensures length { length (item.short one.now) ≡ 8 * result }
    ensures few { result < 2 ^ 10 }
{
    match one {
        AppItem::Text { mark, text } => 1 + text_length(mark, text.as_slice()),
        AppItem::Brace { .. } => 2,
        AppItem::Layer { .. } => 9,
        AppItem::Bytes { bytes } => 2 + bytes.as_slice().len() as u64,
        AppItem::Object { .. } => 9,
        AppItem::Point { .. } => 25,
        AppItem::Word { .. } => 9,
        AppItem::Short { .. } => 3,
        AppItem::Long { .. } => 5,
    }
}

/// Writes the count of bytes, and the mark and the bytes of a text.
fn write_text(mark: &[u8; 2], text: &[u8], sink: &mut BitSink)
    requires count { length text.now < 2 ^ 8 }
    requires room { length (marked_text.short (mark.now, text.now)) ≤ sink.old.spare }
    ensures written { Extends sink.old sink.new (marked_text.short (mark.now, text.now)) }
    ensures value { marked_text.IsValue (mark.now, text.now) }
{
    CodeRC::write(&(), &(text.len() as u8), sink);
    write_bytes(bytes_with_range(mark), sink);
    write_bytes(bytes_with_range(text), sink);
}

/// Writes the count of bytes, and the bytes.
fn write_counted(bytes: &[u8], sink: &mut BitSink)
    requires count { length bytes.now < 2 ^ 8 }
    requires room { length ((counted rc rc).short bytes.now) ≤ sink.old.spare }
    ensures written { Extends sink.old sink.new ((counted rc rc).short bytes.now) }
    ensures value { (counted rc rc).IsValue bytes.now }
{
    CodeRC::write(&(), &(bytes.len() as u8), sink);
    write_bytes(bytes_with_range(bytes), sink);
}

/// Writes the words of a point, x first.
fn write_point(words: &Point3, sink: &mut BitSink)
    requires room { length (words_of_point.short words.now) ≤ sink.old.spare }
    ensures written { Extends sink.old sink.new (words_of_point.short words.now) }
    ensures value { IsPoint3 words.now }
{
    let Point3 { x, y, z } = *words;
    CodeRD::write(&(), &x, sink);
    CodeRD::write(&(), &y, sink);
    CodeRD::write(&(), &z, sink);
}

/// Writes what follows the code byte of an item.
#[tactic(auto, unfolding(crate::specs::Items::item_by), using(dwg_bits::proofs::BitLaws::length_of_low_bits))]
fn write_after(one: &AppItem, sink: &mut BitSink)
    requires item { CanBeWritten one.now }
    requires room { length ((item_by (code_of one.now)).short one.now) ≤ sink.old.spare }
    ensures written { Extends sink.old sink.new ((item_by (code_of one.now)).short one.now) }
    ensures value { (item_by (code_of one.now)).IsValue one.now }
{
    match one {
        AppItem::Text { mark, text } => write_text(mark, text.as_slice(), sink),
        AppItem::Brace { close } => CodeRC::write(&(), &u8::from(*close), sink),
        AppItem::Layer { handle } => {
            let handle = *handle;
            CodeHandle::write(&(), &handle, sink);
        }
        AppItem::Bytes { bytes } => write_counted(bytes.as_slice(), sink),
        AppItem::Object { handle } => {
            let handle = *handle;
            CodeHandle::write(&(), &handle, sink);
        }
        AppItem::Point { words, .. } => write_point(words, sink),
        AppItem::Word { value, .. } => {
            let value = *value;
            CodeRD::write(&(), &value, sink);
        }
        AppItem::Short { value } => {
            let value = *value;
            CodeRS::write(&(), &value, sink);
        }
        AppItem::Long { value } => {
            let value = *value;
            CodeRL::write(&(), &value, sink);
        }
    }
}

/// Writes an item: its code byte, and what follows it.
#[tactic(auto, unfolding(crate::specs::Items::item))]
fn write_item(one: &AppItem, sink: &mut BitSink)
    requires item { CanBeWritten one.now }
    requires room { length (item.short one.now) ≤ sink.old.spare }
    ensures written { Extends sink.old sink.new (item.short one.now) }
    ensures value { item.IsValue one.now }
{
    CodeRC::write(&(), &code_of(one), sink);
    write_after(one, sink);
}

/// Writes items, one after the other. They are items that can be written, and there is room for them; what is written are the bits
/// of their bytes, which are these items, so that they are read back.
#[tactic(auto, using(crate::proofs::AllItems::none_written, crate::proofs::AllItems::one_can_be_written, crate::proofs::AllItems::room_at, crate::proofs::AllItems::all_written, crate::proofs::AllItems::written_are))]
pub fn write_items(all: &[AppItem], sink: &mut BitSink)
    requires items { AllByRecursion CanBeWritten all.now }
    requires room { length (short_all item all.now) ≤ sink.old.spare }
    ensures written { Extends sink.old sink.new (short_all item all.now) }
    ensures bits { short_all item all.now ≡ bits (items_bytes all.now) }
    ensures are { AreItems all.now (items_bytes all.now) }
    ensures computed { items_in (items_bytes all.now) ≡ Some all.now }
{
    'items: for one in all {
        write_item(one, sink);
    }
}

/// How many bytes items are written by. They are items that can be written, of fewer than 2^58 bytes.
#[tactic(auto, using(crate::proofs::AllItems::none_counted, crate::proofs::AllItems::one_can_be_written, crate::proofs::AllItems::counted_within, crate::proofs::AllItems::all_counted))]
pub fn items_length(all: &[AppItem]) -> u64
    requires items { AllByRecursion CanBeWritten all.now }
    requires few { length (items_bytes all.now) < 2 ^ 58 }
    ensures bytes { result ≡ length (items_bytes all.now) }
    ensures bits { length (short_all item all.now) ≡ 8 * result }
{
    let mut bytes = 0;
    'items: for one in all {
        bytes += item_length(one);
    }
    bytes
}
