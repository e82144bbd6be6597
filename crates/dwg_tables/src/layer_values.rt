//! The values of a layer, as bits (Open Design Specification, "LAYER").

ghost use Rattle.std.specs.Prelude.{◌≡◌, ◌^◌, ◌<◌, ◌≤◌, ◌↔◌, length, IsTrue};
ghost use Rattle.dwg_bits.specs.Sink.{Extends};
ghost use Rattle.dwg_common.specs.Parsing.{Keeps, Parses};
ghost use Rattle.dwg_grammar.specs.Flags.{has};
ghost use Rattle.dwg_tables.specs.LayerBody.{layer_flags, layer_values, weight};

use dwg_base::Version;
use dwg_bits::{BitCursor, BitSink};
use dwg_codes::{BitCode, CodeB, CodeBS};
use dwg_common::parse_code;

/// The weight of a flag.
fn weight(flag: bool, one: u16) -> u16
    ensures { result ≡ weight flag one }
{
    if flag { one } else { 0 }
}

/// Whether the flag of this worth is set.
fn has(values: u16, weight: u16) -> bool
    requires { 0 < weight }
    ensures { result ≡ has values weight }
{
    values / weight % 2 == 1
}

/// Reads the values of a layer in AC1014, as they are parsed.
#[tactic(auto, unfolding(crate::specs::LayerBody::layer_flags))]
fn read_flags(cursor: &mut BitCursor<'_>) -> Option<u16>
    ensures parsed { Parses layer_flags result cursor.old cursor.new }
    ensures kept { Keeps cursor.old cursor.new }
{
    let one = parse_code::<CodeB>(&(), cursor)?;
    let two = parse_code::<CodeB>(&(), cursor)?;
    let four = parse_code::<CodeB>(&(), cursor)?;
    let eight = parse_code::<CodeB>(&(), cursor)?;
    Some(weight(one, 1) + weight(two, 2) + weight(four, 4) + weight(eight, 8))
}

/// How many bits they are written by in AC1014.
#[tactic(auto, unfolding(crate::specs::LayerBody::layer_flags))]
fn flags_bits(values: u16) -> u64
    ensures length { result ≡ length (layer_flags.short values) }
    ensures few { result < 2 ^ 34 }
{
    CodeB::length(&(), &has(values, 1))
        + CodeB::length(&(), &has(values, 2))
        + CodeB::length(&(), &has(values, 4))
        + CodeB::length(&(), &has(values, 8))
}

/// Writes them in AC1014.
#[tactic(auto, unfolding(crate::specs::LayerBody::layer_flags))]
fn write_flags(values: u16, sink: &mut BitSink)
    requires { length (layer_flags.short values) ≤ sink.old.spare }
    ensures { Extends sink.old sink.new (layer_flags.short values) }
{
    CodeB::write(&(), &has(values, 1), sink);
    CodeB::write(&(), &has(values, 2), sink);
    CodeB::write(&(), &has(values, 4), sink);
    CodeB::write(&(), &has(values, 8), sink);
}

/// Reads the values of a layer, as they are parsed.
pub(crate) fn read_values(version: Version, cursor: &mut BitCursor<'_>) -> Option<u16>
    ensures parsed { Parses (layer_values version) result cursor.old cursor.new }
    ensures kept { Keeps cursor.old cursor.new }
{
    match version {
        Version::Ac1014 => read_flags(cursor),
        Version::Ac1015 => parse_code::<CodeBS>(&(), cursor),
    }
}

/// Whether they can be given: in AC1014 they are at most 15.
#[tactic(auto, unfolding(crate::specs::LayerBody::layer_flags))]
pub(crate) fn values_fit(version: Version, values: u16) -> bool
    ensures { IsTrue result ↔ (layer_values version).IsValue values }
{
    match version {
        Version::Ac1014 => values < 16,
        Version::Ac1015 => true,
    }
}

/// How many bits they are written by.
pub(crate) fn values_bits(version: Version, values: u16) -> u64
    ensures length { result ≡ length ((layer_values version).short values) }
    ensures few { result < 2 ^ 34 }
{
    match version {
        Version::Ac1014 => flags_bits(values),
        Version::Ac1015 => CodeBS::length(&(), &values),
    }
}

/// Writes them.
pub(crate) fn write_values(version: Version, values: u16, sink: &mut BitSink)
    requires { length ((layer_values version).short values) ≤ sink.old.spare }
    ensures { Extends sink.old sink.new ((layer_values version).short values) }
{
    match version {
        Version::Ac1014 => write_flags(values, sink),
        Version::Ac1015 => CodeBS::write(&(), &values, sink),
    }
}
