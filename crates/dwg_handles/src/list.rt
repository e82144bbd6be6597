//! Lists of references: so many, or as many as there are bits for (Open Design Specification, "Handle references"; that
//! references go to the end while a byte is left is a rule of this project).

ghost use Rattle.std.specs.Prelude.{◌≡◌, ◌↔◌, ◌^◌, ◌<◌, ◌≤◌, length, Ok, None, IfOk, IfErr, IfSome, IsTrue};
ghost use Rattle.dwg_bits.specs.Cursor.{rest};
ghost use Rattle.dwg_bits.specs.Sink.{Extends};
ghost use Rattle.dwg_grammar.specs.Combinators.{items};
ghost use Rattle.dwg_grammar.specs.Grammar.{Reads};
ghost use Rattle.dwg_grammar.specs.ToEnd.{AreValues, ReadsToEnd, short_all};
ghost use Rattle.dwg_grammar.specs.ReferenceCodes.{reference};

use crate::reference::Ref;
use crate::reference_code::CodeH;
use dwg_base::{Handle, Items, NoMemory};
use dwg_bits::{BitCursor, BitSink};
use dwg_codes::{list_length, read_list, read_to_end, write_list};
use std::alloc::Global;

/// The least count of bits that a reference has: its code and its count of bytes.
const LEAST: u64 = 8;

/// Reads so many references of the object of the handle `base`, one after the other. None, with nothing moved, exactly where one of
/// them isn't spelled. Err: out of memory, which moves nothing either and is taken only for references that are there.
pub fn read_refs(
    alloc: Global,
    cursor: &mut BitCursor<'_>,
    base: Handle,
    count: u32,
) -> Result<Option<Items<Ref>>, NoMemory>
    ensures reads { IfOk result (λ found. Reads (items (reference base) count) found (rest cursor.old) (rest cursor.new)) }
    ensures value { IfOk result (λ found. IfSome found (items (reference base) count).IsValue) }
    ensures unmoved { result ≡ Ok None → cursor.new.place ≡ cursor.old.place }
    ensures refused { IfErr result (λ _. cursor.new.place ≡ cursor.old.place) }
    ensures same_bytes { cursor.new.bytes.now ≡ cursor.old.bytes.now }
    ensures same_end { cursor.new.end ≡ cursor.old.end }
{
    read_list::<CodeH>(alloc, &base, count, cursor)
}

/// Reads references of the object of the handle `base` until fewer than eight bits are left. None, with nothing moved, exactly
/// where one of them isn't spelled. Err: out of memory, which moves nothing either and is taken only for references that are there.
#[tactic(auto, using(dwg_grammar::proofs::ReferenceLemmas::reference_least))]
pub fn read_refs_to_end(
    alloc: Global,
    cursor: &mut BitCursor<'_>,
    base: Handle,
) -> Result<Option<Items<Ref>>, NoMemory>
    ensures reads { IfOk result (λ found. ReadsToEnd 8 (reference base) found (rest cursor.old) (rest cursor.new)) }
    ensures value { IfOk result (λ found. IfSome found (AreValues (reference base))) }
    ensures unmoved { result ≡ Ok None → cursor.new.place ≡ cursor.old.place }
    ensures refused { IfErr result (λ _. cursor.new.place ≡ cursor.old.place) }
    ensures same_bytes { cursor.new.bytes.now ≡ cursor.old.bytes.now }
    ensures same_end { cursor.new.end ≡ cursor.old.end }
{
    read_to_end::<CodeH>(alloc, &base, LEAST, cursor)
}

/// Whether each of the references can be given from the object of the handle `base`.
pub fn refs_fit(refs: &[Ref], base: Handle) -> bool
    ensures { IsTrue result ↔ AreValues (reference base) refs.now }
{
    refs.iter().all(|reference| reference.fits(base))
}

/// How many bits references of the object of the handle `base` are written by, fewer than 2^62.
pub fn refs_bits(refs: &[Ref], base: Handle) -> u64
    requires fit { AreValues (reference base) refs.now }
    requires few { length (short_all (reference base) refs.now) < 2 ^ 62 }
    ensures { result ≡ length (short_all (reference base) refs.now) }
{
    list_length::<CodeH>(&base, refs)
}

/// Writes references of the object of the handle `base`, one after the other, each by the fewest bytes.
pub fn write_refs(refs: &[Ref], base: Handle, sink: &mut BitSink)
    requires fit { AreValues (reference base) refs.now }
    requires room { length (short_all (reference base) refs.now) ≤ sink.old.spare }
    ensures { Extends sink.old sink.new (short_all (reference base) refs.now) }
{
    write_list::<CodeH>(&base, refs, sink);
}
