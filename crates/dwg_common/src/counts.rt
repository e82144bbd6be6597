//! Counts of members as bits: a count is a BL, and is given by the members (Open Design Specification, "Bit codes").

ghost use Rattle.std.specs.Prelude.{◌≡◌, ◌^◌, ◌<◌, ◌≤◌, ◌↔◌, length, IsTrue};
ghost use Rattle.dwg_bits.specs.Sink.{Extends};
ghost use Rattle.dwg_grammar.specs.Codes.{bl};

use dwg_bits::BitSink;
use dwg_codes::{BitCode, CodeBL};

/// How many members are too many to be given: a count has 32 bits.
pub const TOO_MANY: usize = 1 << 32;

/// Whether so many members can be given: fewer than 2^32.
pub fn count_fits<T>(members: &[T]) -> bool
    ensures { IsTrue result ↔ bl.IsValue (length members.now) }
{
    members.len() < TOO_MANY
}

/// By how many bits a count of members is written.
pub fn count_bits<T>(members: &[T]) -> u64
    requires { bl.IsValue (length members.now) }
    ensures length { result ≡ length (bl.short (length members.now)) }
    ensures few { result < 2 ^ 32 }
{
    CodeBL::length(&(), &(members.len() as u32))
}

/// Writes how many members there are.
pub fn write_count<T>(members: &[T], sink: &mut BitSink)
    requires value { bl.IsValue (length members.now) }
    requires room { length (bl.short (length members.now)) ≤ sink.old.spare }
    ensures { Extends sink.old sink.new (bl.short (length members.now)) }
{
    CodeBL::write(&(), &(members.len() as u32), sink);
}
