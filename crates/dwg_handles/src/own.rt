//! An object's own handle as bits (Open Design Specification, "Handle references").

ghost use Rattle.std.specs.Prelude.{◌≡◌, ◌^◌, ◌<◌, ◌≤◌, length, IfSome, IfNone};
ghost use Rattle.dwg_bits.specs.Cursor.{rest};
ghost use Rattle.dwg_bits.specs.Sink.{Extends};
ghost use Rattle.dwg_grammar.specs.Grammar.{Reads};
ghost use Rattle.dwg_grammar.specs.ReferenceCodes.{own_handle};

use crate::reference_parts::{ReferenceParts, parts_bits, write_parts};
use dwg_base::Handle;
use dwg_bits::{BitCursor, BitSink};

/// Reads an object's own handle. None, with nothing moved, exactly where no prefix of the rest spells one: too few bits, a
/// count above eight, a code that isn't 0, or a number that is 0 or not below 2^63.
#[tactic(auto, using(crate::proofs::OwnReading::own_read, crate::proofs::OwnReading::own_unread, crate::proofs::OwnReading::own_unresolved))]
pub fn read_own(cursor: &mut BitCursor<'_>) -> Option<Handle>
    ensures reads { Reads own_handle result (rest cursor.old) (rest cursor.new) }
    ensures value { IfSome result (λ own. 0 < own) }
    ensures unmoved { IfNone result (cursor.new.place ≡ cursor.old.place) }
    ensures same_bytes { cursor.new.bytes.now ≡ cursor.old.bytes.now }
    ensures same_end { cursor.new.end ≡ cursor.old.end }
{
    let mut ahead = *cursor;
    let parts = ReferenceParts::read(&mut ahead)?;
    let own = parts.own()?;
    *cursor = ahead;
    Some(own)
}

/// How many bits an own handle is written by.
#[tactic(auto, using(dwg_grammar::proofs::OwnLemmas::own_short))]
pub fn own_bits(own: Handle) -> u64
    requires { 0 < own }
    ensures length { result ≡ length (own_handle.short own) }
    ensures few { result ≤ 72 }
{
    parts_bits(0, own.value())
}

/// Writes a positive own handle by the fewest bytes.
#[tactic(auto, using(dwg_grammar::proofs::OwnLemmas::own_short))]
pub fn write_own(own: Handle, sink: &mut BitSink)
    requires positive { 0 < own }
    requires room { length (own_handle.short own) ≤ sink.old.spare }
    ensures { Extends sink.old sink.new (own_handle.short own) }
{
    write_parts(0, own.value(), sink);
}
