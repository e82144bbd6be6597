//! The head of an object, with which each body begins.

ghost use Rattle.std.specs.Prelude.{◌≡◌, ◌^◌, ◌<◌, ◌≤◌, ℕ, length, option_map, IfSome, IfNone};
ghost use Rattle.dwg_bits.specs.Bits.{bits};
ghost use Rattle.dwg_bits.specs.Sink.{Extends};
ghost use Rattle.dwg_common.specs.Parsing.{Keeps, Parses};
ghost use Rattle.dwg_grammar.specs.ReferenceCodes.{own_handle};
ghost use Rattle.dwg_object.specs.Heads.{BeginsWithHead, HasHead, head, head_size, IsHeadAt, own_of, size_given};
ghost use Rattle.dwg_object.specs.Objects.{HeadParts, parts_of};
ghost use Rattle.dwg_object.specs.Written.{written_head};

use dwg_base::{Handle, Version};
use dwg_bits::{BitCursor, BitSink};
use dwg_codes::{BitCode, CodeBS, CodeRL};
use dwg_common::{parse_code, parse_given};
use dwg_handles::{own_bits, read_own, write_own};

/// What the head of an object says (Open Design Specification, "R13 to R2000 file layout, object data").
#[derive(Clone, Copy)]
pub(crate) struct Head {
    /// The type number.
    pub(crate) number: u16,
    /// How many bits the body has before its references, from the type number on; 0 in AC1014, which reports it in the common part.
    pub(crate) size: u32,
    /// The own handle, positive.
    pub(crate) own: Handle,
}

/// Reads an own handle as it is parsed.
#[tactic(auto, using(crate::proofs::HeadReading::own_parsed))]
fn parse_own(cursor: &mut BitCursor<'_>) -> Option<Handle>
    ensures parsed { Parses own_handle result cursor.old cursor.new }
    ensures kept { Keeps cursor.old cursor.new }
{
    read_own(cursor)
}

/// Reads a head as it is parsed: BS type number; in AC1015 RL bit size; H own handle. None exactly where no prefix of the rest
/// spells one.
#[tactic(auto, unfolding(crate::specs::Heads::head))]
fn read_head(version: Version, cursor: &mut BitCursor<'_>) -> Option<Head>
    ensures parsed { Parses (head version) (option_map parts_of result) cursor.old cursor.new }
    ensures kept { Keeps cursor.old cursor.new }
{
    let number = parse_code::<CodeBS>(&(), cursor)?;
    let size = parse_given::<CodeRL>(&(), version.is_newer(), 0, cursor)?;
    let own = parse_own(cursor)?;
    Some(Head { number, size, own })
}

/// A head and the place after it.
#[derive(Clone, Copy)]
pub(crate) struct HeadAt {
    /// The head.
    pub(crate) head: Head,
    /// How many bits of the body it takes.
    pub(crate) end: u64,
}

/// The head of a version that a body begins with, and the place after it. None exactly where it begins with none.
pub(crate) fn head_of(version: Version, body: &[u8]) -> Option<HeadAt>
    requires { length body.now < 2 ^ 60 }
    ensures some { IfSome result (λ found. IsHeadAt version (bits body.now) (parts_of found.head) found.end) }
    ensures none { IfNone result ((parts : HeadParts) → HasHead version (bits body.now) parts → ⊥) }
{
    let mut cursor = BitCursor::new(body, 0, 8 * body.len() as u64);
    let Some(head) = read_head(version, &mut cursor) else {
        return None;
    };
    Some(HeadAt {
        head,
        end: cursor.at(),
    })
}

/// The own handle in the head of a version that a body of fewer than 2^60 bytes begins with. None exactly where it begins with no head.
#[tactic(auto, using(crate::proofs::HeadReading::own_found, crate::proofs::HeadReading::own_missing))]
pub fn own_handle(version: Version, body: &[u8]) -> Option<Handle>
    requires { length body.now < 2 ^ 60 }
    ensures parsed { result ≡ own_of version (bits body.now) }
    ensures some { IfSome result (λ own. (number : ℕ) × BeginsWithHead version (bits body.now) number own) }
    ensures none { IfNone result ((number own : ℕ) → BeginsWithHead version (bits body.now) number own → ⊥) }
{
    match head_of(version, body) {
        Some(found) => Some(found.head.own),
        None => None,
    }
}

/// How many bits a head has for the bit size.
fn size_bits(version: Version) -> u64
    ensures length { result ≡ length ((head_size version).short 0) }
    ensures few { result < 2 ^ 32 }
{
    match version {
        Version::Ac1014 => 0,
        Version::Ac1015 => CodeRL::length(&(), &0),
    }
}

/// Writes the bit size of a head: in AC1014 nothing.
fn write_size(version: Version, size: u32, sink: &mut BitSink)
    requires { length ((head_size version).short (size_given version size)) ≤ sink.old.spare }
    ensures { Extends sink.old sink.new ((head_size version).short (size_given version size)) }
{
    match version {
        Version::Ac1014 => {}
        Version::Ac1015 => CodeRL::write(&(), &size, sink),
    }
}

/// How many bits a head is written by, whatever its bit size.
pub(crate) fn head_length(version: Version, number: u16, own: Handle) -> u64
    requires { 0 < own }
    ensures length { result ≡ length ((head version).short (record { number = number; size = 0; own = own })) }
    ensures few { result < 2 ^ 34 }
{
    CodeBS::length(&(), &number) + size_bits(version) + own_bits(own)
}

/// Writes a head with this bit size, which AC1015 alone has in it.
#[tactic(auto, unfolding(crate::specs::Heads::head))]
pub(crate) fn write_head(version: Version, number: u16, size: u32, own: Handle, sink: &mut BitSink)
    requires positive { 0 < own }
    requires room { length ((head version).short (written_head version number own size)) ≤ sink.old.spare }
    ensures { Extends sink.old sink.new ((head version).short (written_head version number own size)) }
{
    CodeBS::write(&(), &number, sink);
    write_size(version, size, sink);
    write_own(own, sink);
}
