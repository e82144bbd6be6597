//! Reading the classes of a content.

ghost use Rattle.std.specs.Prelude.{◌≡◌, ◌+◌, ◌*◌, ◌/◌, ◌^◌, ◌<◌, ◌≤◌, length, Some, IfOk, IfErr};
ghost use Rattle.std.specs.Option.{option_map};
ghost use Rattle.dwg_base.specs.Refusal.{LAST_LINE};
ghost use Rattle.dwg_base.specs.Refusals.{Answers, IfRefused};
ghost use Rattle.dwg_bits.specs.Cursor.{rest};
ghost use Rattle.dwg_grammar.specs.Grammar.{Reads};
ghost use Rattle.dwg_grammar.specs.ToEnd.{short_all};
ghost use Rattle.dwg_classes.specs.Class.{any_class, numbered_class, AreClasses};
ghost use Rattle.dwg_classes.specs.ClassLines.{ClassFails, RefusesClass, tried_classes};
ghost use Rattle.dwg_classes.specs.WrittenClasses.{AreWritable};

use crate::class::Class;
use crate::class_parts::{read_name, read_number, read_proxy};
use dwg_base::refusal_lines::{CLASS_NUMBER, CLASS_SPELLING};
use dwg_base::{Fault, Items, NoMemory, Refusal};
use dwg_bits::BitCursor;
use std::alloc::Global;

/// How many bits a class has at the least; fewer at the end of a content are slack.
const LEAST_BITS: u64 = 29;

/// The least number of a class.
const LEAST_NUMBER: u16 = 500;

/// Reads a class, whatever its number. None exactly where no prefix of the rest spells one. Err: out of memory, which is taken only
/// for bytes that are there.
#[tactic(auto, unfolding(crate::specs::Class::any_class))]
fn read_class(alloc: Global, cursor: &mut BitCursor<'_>) -> Result<Option<Class>, NoMemory>
    ensures parsed { IfOk result (λ found. any_class.parse (rest cursor.old) ≡ option_map (λ class. (class, rest cursor.new)) found) }
    ensures same_bytes { cursor.new.bytes.now ≡ cursor.old.bytes.now }
    ensures same_end { cursor.new.end ≡ cursor.old.end }
{
    let Some(number) = read_number(cursor) else {
        return Ok(None);
    };
    let Some(version) = read_number(cursor) else {
        return Ok(None);
    };
    let Some(application) = read_name(alloc, cursor)? else {
        return Ok(None);
    };
    let Some(cpp_name) = read_name(alloc, cursor)? else {
        return Ok(None);
    };
    let Some(dxf_name) = read_name(alloc, cursor)? else {
        return Ok(None);
    };
    let Some(proxy) = read_proxy(cursor) else {
        return Ok(None);
    };
    let Some(item) = read_number(cursor) else {
        return Ok(None);
    };
    Ok(Some(Class {
        number,
        version,
        application,
        cpp_name,
        dxf_name,
        proxy,
        item,
    }))
}

/// A refusal by a line of the table, of the class after so many others, which begins at a bit of the content.
fn refused(line: u8, index: u64, place: u64, first: u64) -> Fault
    requires least { 1 ≤ line }
    requires most { line ≤ LAST_LINE }
    requires place { place < 2 ^ 62 }
    ensures { result ≡ Fault.Refused (record { line = line; index = index; place = place + first / 8 }) }
{
    Fault::Refused(Refusal::new(line, index, place + first / 8))
}

/// Reads the class after `index` others, in a content at `place`.
#[tactic(auto, using(crate::proofs::ClassReading::class_taken, crate::proofs::ClassReading::class_unread, crate::proofs::ClassReading::class_too_small))]
fn next_class(
    alloc: Global,
    cursor: &mut BitCursor<'_>,
    place: u64,
    index: u64,
) -> Result<Class, Fault>
    requires { place < 2 ^ 62 }
    ensures taken { IfOk result (λ class. Reads numbered_class (Some class) (rest cursor.old) (rest cursor.new)) }
    ensures refused { IfErr result (λ fault. IfRefused fault (ClassFails place index cursor.old.place (rest cursor.old))) }
    ensures same_bytes { cursor.new.bytes.now ≡ cursor.old.bytes.now }
    ensures same_end { cursor.new.end ≡ cursor.old.end }
{
    let first = cursor.at();
    let Some(class) = read_class(alloc, cursor)? else {
        return Err(refused(CLASS_SPELLING, index, place, first));
    };
    if class.number < LEAST_NUMBER {
        return Err(refused(CLASS_NUMBER, index, place, first));
    }
    Ok(class)
}

/// Reads the classes of a content: each further one while at least 29 bits are left. `place` is the content's place in the
/// input, in bytes. What is read can be written, and by no more bits.
///
/// A refusal has the index of a class, from 0, and the place of the byte in which it begins: at least 29 bits are left, but no
/// prefix of them spells a class, whatever its number; or one does whose number is below 500. Each class is tried whole before
/// the next. Memory is taken only for what is there; running out of it says nothing of the content.
pub fn read_classes(alloc: Global, content: &[u8], place: u64) -> Result<Items<Class>, Fault>
    requires content { length content.now < 2 ^ 32 }
    requires place { place < 2 ^ 62 }
    ensures found { IfOk result (λ classes. AreClasses content.now classes) }
    ensures refused { IfErr result (λ fault. IfRefused fault (RefusesClass place content.now)) }
    ensures tried { Answers result (tried_classes place content.now) }
    ensures writable { IfOk result AreWritable }
    ensures no_longer { IfOk result (λ classes. length (short_all numbered_class classes) ≤ 8 * length content.now) }
{
    let mut cursor = BitCursor::new(content, 0, 8 * content.len() as u64);
    let mut classes = Items::new(alloc);
    'classes: while cursor.left() >= LEAST_BITS {
        let index = classes.as_slice().len() as u64;
        let class = next_class(alloc, &mut cursor, place, index)?;
        classes.try_push(class)?;
    }
    Ok(classes)
}
