//! Values of one code that stand only where a test holds. A rule of this project.

ghost use Rattle.std.specs.Prelude.{◌≡◌, ◌^◌, ◌<◌, ◌≤◌, length, IfSome, IfNone};
ghost use Rattle.dwg_bits.specs.Cursor.{rest};
ghost use Rattle.dwg_bits.specs.Sink.{Extends};
ghost use Rattle.dwg_grammar.specs.Combinators.{when};
ghost use Rattle.dwg_grammar.specs.Grammar.{Reads};

use crate::code::BitCode;
use dwg_bits::{BitCursor, BitSink};

/// Reads the value where it is present, and no bit where it isn't. None, with nothing moved, exactly where the value is
/// present and no prefix of the rest spells one.
pub fn read_when<C: BitCode>(
    context: &C::Context,
    present: bool,
    cursor: &mut BitCursor<'_>,
) -> Option<Option<C::Value>>
    requires { C.IsContext context.now }
    ensures reads { Reads (when present (C.grammar context.now)) result (rest cursor.old) (rest cursor.new) }
    ensures value { IfSome result (when present (C.grammar context.now)).IsValue }
    ensures unmoved { IfNone result (cursor.new.place ≡ cursor.old.place) }
    ensures same_bytes { cursor.new.bytes.now ≡ cursor.old.bytes.now }
    ensures same_end { cursor.new.end ≡ cursor.old.end }
{
    if !present {
        return Some(None);
    }
    let value = C::read(context, cursor)?;
    Some(Some(value))
}

/// How many bits are written of a value that stands only where it is present: none where it isn't. The value is there
/// exactly where `present` says so, which the contract alone reads.
pub fn length_when<C: BitCode>(context: &C::Context, present: bool, value: &Option<C::Value>) -> u64
    requires context { C.IsContext context.now }
    requires value { (when present (C.grammar context.now)).IsValue value.now }
    ensures length { result ≡ length ((when present (C.grammar context.now)).short value.now) }
    ensures few { result < 2 ^ 32 }
{
    match value {
        Some(inner) => C::length(context, inner),
        None => 0,
    }
}

/// Writes a value that stands only where it is present, by the shortest of its spellings, and nothing where it isn't. The
/// value is there exactly where `present` says so, which the contract alone reads.
pub fn write_when<C: BitCode>(
    context: &C::Context,
    present: bool,
    value: &Option<C::Value>,
    sink: &mut BitSink,
)
    requires context { C.IsContext context.now }
    requires value { (when present (C.grammar context.now)).IsValue value.now }
    requires room { length ((when present (C.grammar context.now)).short value.now) ≤ sink.old.spare }
    ensures { Extends sink.old sink.new ((when present (C.grammar context.now)).short value.now) }
{
    if let Some(inner) = value {
        C::write(context, inner, sink);
    }
}
