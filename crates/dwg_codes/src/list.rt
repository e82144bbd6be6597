//! Lists of values of one code: so many, or as many as there are bits for (Open Design Specification, "Bit codes"; that
//! values go to the end while bits enough for one are left is a rule of this project).

ghost use Rattle.std.specs.Prelude.{◌≡◌, ◌^◌, ◌<◌, ◌≤◌, Ok, None, length, IfOk, IfErr, IfSome};
ghost use Rattle.std.specs.Option.{option_map};
ghost use Rattle.dwg_bits.specs.Cursor.{rest};
ghost use Rattle.dwg_bits.specs.Sink.{Extends};
ghost use Rattle.dwg_grammar.specs.Combinators.{items};
ghost use Rattle.dwg_grammar.specs.Grammar.{Reads, IsLawful};
ghost use Rattle.dwg_grammar.specs.ToEnd.{AreValues, HaveLeast, IsCutUniquely, ReadsToEnd, short_all};

use crate::code::BitCode;
use dwg_base::{Items, NoMemory};
use dwg_bits::{BitCursor, BitSink};
use std::alloc::Global;

/// Reads so many values, one after the other. None, with nothing moved, exactly where one of them isn't spelled. Err: out of
/// memory, which moves nothing either and is taken only for values that are there.
#[tactic(auto, using(crate::proofs::ListReading::none_yet, crate::proofs::ListReading::list_read))]
pub fn read_list<C: BitCode>(
    alloc: Global,
    context: &C::Context,
    count: u32,
    cursor: &mut BitCursor<'_>,
) -> Result<Option<Items<C::Value>>, NoMemory>
where
    C::Value: Drop,
    requires { C.IsContext context.now }
    ensures reads { IfOk result (λ found. Reads (items (C.grammar context.now) count) found (rest cursor.old) (rest cursor.new)) }
    ensures parsed { IfOk result (λ found. (items (C.grammar context.now) count).parse (rest cursor.old) ≡ option_map (λ values. (values, rest cursor.new)) found) }
    ensures value { IfOk result (λ found. IfSome found (items (C.grammar context.now) count).IsValue) }
    ensures unmoved { result ≡ Ok None → cursor.new.place ≡ cursor.old.place }
    ensures refused { IfErr result (λ _. cursor.new.place ≡ cursor.old.place) }
    ensures same_bytes { cursor.new.bytes.now ≡ cursor.old.bytes.now }
    ensures same_end { cursor.new.end ≡ cursor.old.end }
{
    let mut ahead = *cursor;
    let mut found = Items::new(alloc);
    'values: for _ in 0..count {
        let Some(item) = C::read(context, &mut ahead) else {
            return Ok(None);
        };
        found.try_push(item)?;
    }
    *cursor = ahead;
    Ok(Some(found))
}

/// Reads values to the end: another follows while at least `least` bits are left, and no value has fewer. None, with nothing moved,
/// exactly where one of them isn't spelled. Err: out of memory, which moves nothing either and is taken only for values that are
/// there.
#[tactic(auto, using(crate::proofs::ListReading::none_yet))]
pub fn read_to_end<C: BitCode>(
    alloc: Global,
    context: &C::Context,
    least: u64,
    cursor: &mut BitCursor<'_>,
) -> Result<Option<Items<C::Value>>, NoMemory>
where
    C::Value: Drop,
    requires context { C.IsContext context.now }
    requires some { 0 < least }
    requires least { HaveLeast least (C.grammar context.now) }
    ensures reads { IfOk result (λ found. ReadsToEnd least (C.grammar context.now) found (rest cursor.old) (rest cursor.new)) }
    ensures value { IfOk result (λ found. IfSome found (AreValues (C.grammar context.now))) }
    ensures unmoved { result ≡ Ok None → cursor.new.place ≡ cursor.old.place }
    ensures refused { IfErr result (λ _. cursor.new.place ≡ cursor.old.place) }
    ensures same_bytes { cursor.new.bytes.now ≡ cursor.old.bytes.now }
    ensures same_end { cursor.new.end ≡ cursor.old.end }
{
    let mut found = Items::new(alloc);
    let mut ahead = *cursor;
    'values: while least <= ahead.left() {
        let Some(value) = C::read(context, &mut ahead) else {
            return Ok(None);
        };
        found.try_push(value)?;
    }
    *cursor = ahead;
    Ok(Some(found))
}

/// How many bits are written of values, one after the other: each has a spelling, and there are fewer than 2^62 bits in all.
pub fn list_length<C: BitCode>(context: &C::Context, values: &[C::Value]) -> u64
    requires context { C.IsContext context.now }
    requires values { AreValues (C.grammar context.now) values.now }
    requires few { length (short_all (C.grammar context.now) values.now) < 2 ^ 62 }
    ensures { result ≡ length (short_all (C.grammar context.now) values.now) }
{
    let mut bits = 0;
    'values: for item in values {
        bits += C::length(context, item);
    }
    bits
}

/// Writes values, one after the other, each by the shortest of its spellings.
pub fn write_list<C: BitCode>(context: &C::Context, values: &[C::Value], sink: &mut BitSink)
    requires context { C.IsContext context.now }
    requires values { AreValues (C.grammar context.now) values.now }
    requires room { length (short_all (C.grammar context.now) values.now) ≤ sink.old.spare }
    ensures { Extends sink.old sink.new (short_all (C.grammar context.now) values.now) }
{
    'values: for value in values {
        C::write(context, value, sink);
    }
}

/// The laws of lists of a code's values in a context: letters spell at most one list of so many, and what is written of
/// one spells it by a shortest spelling; and letters are cut to their end in one way, where no value has fewer than `least`
/// bits.
pub fn list_laws<C: BitCode>(context: &C::Context, count: u32, least: u64)
    requires context { C.IsContext context.now }
    requires least { HaveLeast least (C.grammar context.now) }
    ensures counted { IsLawful (items (C.grammar context.now) count) }
    ensures cut { IsCutUniquely least (C.grammar context.now) }
{}
