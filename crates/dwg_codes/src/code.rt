//! What a bit code is to those who read and write by it.

ghost use Rattle.std.specs.Prelude.{◌≡◌, ◌^◌, ◌<◌, ◌≤◌, ◌++◌, Bool, length, IfSome, IfNone};
ghost use Rattle.dwg_bits.specs.Bits.{low_bits};
ghost use Rattle.dwg_bits.specs.Cursor.{rest};
ghost use Rattle.dwg_bits.specs.Sink.{Extends};
ghost use Rattle.dwg_grammar.specs.Combinators.{fixed};
ghost use Rattle.dwg_grammar.specs.Grammar.{Grammar, IsCode, AnyLetters, Reads, IsLawful};

use dwg_bits::{BitCursor, BitSink};

/// A code: which bits spell a value, and by which of its spellings it is written (Open Design Specification, "Bit codes").
///
/// A value may have spellings that are longer than the one that is written. All of them are read.
pub trait BitCode {
    /// What spellings depend on beside the value, as a default; `()` where there is nothing.
    type Context;
    /// What is spelled.
    type Value;

    // What the code spells in a context: its spellings, its values, and the spelling that is written of each.
    ghost grammar: { Self.Context → Grammar Bool Self.Value };

    // The context lies in the range of its type.
    ghost IsContext: { Self.Context → Type 0 };

    /// Reads the value that a prefix of the rest spells, and moves after that prefix. None, with nothing moved, exactly
    /// where no prefix of the rest spells a value.
    fn read(context: &Self::Context, cursor: &mut BitCursor<'_>) -> Option<Self::Value>
        ensures reads { Reads (grammar context.now) result (rest cursor.old) (rest cursor.new) }
        ensures value { IfSome result (grammar context.now).IsValue }
        ensures unmoved { IfNone result (cursor.new.place ≡ cursor.old.place) }
        ensures same_bytes { cursor.new.bytes.now ≡ cursor.old.bytes.now }
        ensures same_end { cursor.new.end ≡ cursor.old.end };

    /// How many bits the spelling has that is written of a value: fewer than 2^32.
    fn length(context: &Self::Context, value: &Self::Value) -> u64
        requires context { IsContext context.now }
        requires value { (grammar context.now).IsValue value.now }
        ensures length { result ≡ length ((grammar context.now).short value.now) }
        ensures few { result < 2 ^ 32 };

    /// Writes a value by the shortest of its spellings.
    fn write(context: &Self::Context, value: &Self::Value, sink: &mut BitSink)
        requires context { IsContext context.now }
        requires value { (grammar context.now).IsValue value.now }
        requires room { length ((grammar context.now).short value.now) ≤ sink.old.spare }
        ensures { Extends sink.old sink.new ((grammar context.now).short value.now) };

    // What is read is spelled, what is spelled is read and is a value, and what is written is a spelling and a shortest one.
    ghost laws: { (context : Self.Context) → IsContext context → IsCode AnyLetters (grammar context) };
}

/// The laws of a code in a context: letters spell at most one value, and no spelling is a proper prefix of another; the
/// spelling that is written of a value spells it, and no other is shorter.
pub fn code_laws<C: BitCode>(context: &C::Context)
    requires { C.IsContext context.now }
    ensures { IsLawful (C.grammar context.now) }
{}

/// Reads so many bits as a number, the first of them highest. None, with nothing moved, where fewer are left.
#[tactic(auto, using(crate::proofs::FixedReading::rest_stays, dwg_bits::proofs::BitLaws::length_of_bits_between))]
pub(crate) fn take_bits(cursor: &mut BitCursor<'_>, count: u32) -> Option<u64>
    requires { count ≤ 64 }
    ensures reads { Reads (fixed count) result (rest cursor.old) (rest cursor.new) }
    ensures prefix { IfSome result (λ value. rest cursor.old ≡ low_bits count value ++ rest cursor.new) }
    ensures bound { IfSome result (λ value. value < 2 ^ count) }
    ensures short { IfNone result (length (rest cursor.old) < count) }
    ensures same_rest { IfNone result (rest cursor.new ≡ rest cursor.old) }
    ensures unmoved { IfNone result (cursor.new.place ≡ cursor.old.place) }
    ensures same_bytes { cursor.new.bytes.now ≡ cursor.old.bytes.now }
    ensures same_end { cursor.new.end ≡ cursor.old.end }
{
    cursor.take(count)
}
