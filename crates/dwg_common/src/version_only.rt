//! Values of a code, and references, that only one version spells: elsewhere they are fixed.

ghost use Rattle.std.specs.Prelude.{◌≡◌, ◌^◌, ◌<◌, ◌≤◌, ◌↔◌, length, IsTrue};
ghost use Rattle.dwg_bits.specs.Sink.{Extends};
ghost use Rattle.dwg_grammar.specs.Versions.{NOWHERE, given, ref_since_1015};
ghost use Rattle.dwg_common.specs.Parsing.{Keeps, Parses};

use crate::part_reading::parse_code;
use dwg_base::{Handle, Version};
use dwg_bits::{BitCursor, BitSink};
use dwg_codes::BitCode;
use dwg_handles::{CodeH, Ref};

/// Reads a value of a code where a test holds; elsewhere it is a fixed one, and no bit is read. None exactly where the test holds
/// and no prefix of the rest spells one.
pub fn parse_given<C: BitCode>(
    context: &C::Context,
    test: bool,
    fixed: C::Value,
    cursor: &mut BitCursor<'_>,
) -> Option<C::Value>
where
    C::Value: Copy,
    requires { C.IsContext context.now }
    ensures parsed { Parses (given test fixed (C.grammar context.now)) result cursor.old cursor.new }
    ensures kept { Keeps cursor.old cursor.new }
{
    if !test {
        return Some(fixed);
    }
    parse_code::<C>(context, cursor)
}

/// How many bits such a value is written by.
pub fn length_given<C: BitCode>(
    context: &C::Context,
    test: bool,
    fixed: C::Value,
    value: &C::Value,
) -> u64
where
    C::Value: Copy,
    requires context { C.IsContext context.now }
    requires value { (given test fixed (C.grammar context.now)).IsValue value.now }
    ensures length { result ≡ length ((given test fixed (C.grammar context.now)).short value.now) }
    ensures few { result < 2 ^ 32 }
{
    let _fixed = fixed;
    if !test {
        return 0;
    }
    C::length(context, value)
}

/// Writes such a value.
pub fn write_given<C: BitCode>(
    context: &C::Context,
    test: bool,
    fixed: C::Value,
    value: &C::Value,
    sink: &mut BitSink,
)
where
    C::Value: Copy,
    requires context { C.IsContext context.now }
    requires value { (given test fixed (C.grammar context.now)).IsValue value.now }
    requires room { length ((given test fixed (C.grammar context.now)).short value.now) ≤ sink.old.spare }
    ensures { Extends sink.old sink.new ((given test fixed (C.grammar context.now)).short value.now) }
{
    let _fixed = fixed;
    if !test {
        return;
    }
    C::write(context, value, sink);
}

/// The reference that AC1014 has for one that it doesn't spell: it leads nowhere.
fn nowhere() -> Ref
    ensures { result ≡ NOWHERE }
{
    Ref {
        code: 5,
        target: Handle::NULL,
    }
}

/// Reads a reference that AC1015 alone spells, in the object of the handle `base`. None exactly where it spells none.
pub fn parse_ref_since(version: Version, refs: &mut BitCursor<'_>, base: Handle) -> Option<Ref>
    ensures parsed { Parses (ref_since_1015 version base).grammar result refs.old refs.new }
    ensures kept { Keeps refs.old refs.new }
{
    parse_given::<CodeH>(&base, version.is_newer(), nowhere(), refs)
}

/// Whether such a reference has a spelling: in AC1015 its code reaches its target, in AC1014 it leads nowhere.
#[tactic(auto, unfolding(dwg_grammar::specs::ReferenceCodes::reference))]
pub fn ref_since_fits(version: Version, reference: &Ref, base: Handle) -> bool
    ensures { IsTrue result ↔ (ref_since_1015 version base).grammar.IsValue reference.now }
{
    match version {
        Version::Ac1014 => *reference == nowhere(),
        Version::Ac1015 => reference.fits(base),
    }
}

/// How many bits such a reference is written by.
pub fn ref_since_bits(version: Version, reference: &Ref, base: Handle) -> u64
    requires { (ref_since_1015 version base).grammar.IsValue reference.now }
    ensures length { result ≡ length ((ref_since_1015 version base).grammar.short reference.now) }
    ensures few { result < 2 ^ 32 }
{
    length_given::<CodeH>(&base, version.is_newer(), nowhere(), reference)
}

/// Writes such a reference.
pub fn write_ref_since(version: Version, reference: &Ref, base: Handle, sink: &mut BitSink)
    requires value { (ref_since_1015 version base).grammar.IsValue reference.now }
    requires room { length ((ref_since_1015 version base).grammar.short reference.now) ≤ sink.old.spare }
    ensures { Extends sink.old sink.new ((ref_since_1015 version base).grammar.short reference.now) }
{
    write_given::<CodeH>(&base, version.is_newer(), nowhere(), reference, sink);
}
