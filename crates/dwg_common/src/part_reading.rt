//! The parts of bodies, read as they are parsed: so a body that reads one after the other is parsed as its grammar says.

ghost use Rattle.std.specs.Prelude.{◌≡◌, IfOk};
ghost use Rattle.dwg_grammar.specs.Codes.{rc};
ghost use Rattle.dwg_grammar.specs.Combinators.{items, when};
ghost use Rattle.dwg_grammar.specs.ReferenceCodes.{reference};
ghost use Rattle.dwg_common.specs.Parsing.{Keeps, Parses};

use dwg_base::{ByteRun, Handle, Items, NoMemory};
use dwg_bits::BitCursor;
use dwg_codes::{BitCode, read_bytes, read_when};
use dwg_handles::{Ref, read_ref, read_refs};
use std::alloc::Global;

/// Reads a value of a code. None exactly where no prefix of the rest spells one.
pub fn parse_code<C: BitCode>(context: &C::Context, cursor: &mut BitCursor<'_>) -> Option<C::Value>
    requires { C.IsContext context.now }
    ensures parsed { Parses (C.grammar context.now) result cursor.old cursor.new }
    ensures kept { Keeps cursor.old cursor.new }
{
    C::read(context, cursor)
}

/// Reads a reference of the object of the handle `base`. None exactly where no prefix of the rest spells one.
#[tactic(auto, using(dwg_grammar::proofs::BodyReading::ref_parsed))]
pub fn parse_ref(cursor: &mut BitCursor<'_>, base: Handle) -> Option<Ref>
    ensures parsed { Parses (reference base) result cursor.old cursor.new }
    ensures kept { Keeps cursor.old cursor.new }
{
    read_ref(cursor, base)
}

/// Reads so many references of the object of the handle `base`. None exactly where one of them isn't spelled. Err: out of memory,
/// which is taken only for references that are there.
#[tactic(auto, using(dwg_grammar::proofs::BodyReading::refs_parsed))]
pub fn parse_refs(
    alloc: Global,
    cursor: &mut BitCursor<'_>,
    base: Handle,
    count: u32,
) -> Result<Option<Items<Ref>>, NoMemory>
    ensures parsed { IfOk result (λ found. Parses (items (reference base) count) found cursor.old cursor.new) }
    ensures kept { Keeps cursor.old cursor.new }
{
    read_refs(alloc, cursor, base, count)
}

/// Reads so many bytes. None exactly where fewer are left. Err: out of memory, which is taken only for bytes that are there.
#[tactic(auto, using(dwg_grammar::proofs::BodyReading::bytes_parsed))]
pub fn parse_bytes(
    alloc: Global,
    count: u32,
    cursor: &mut BitCursor<'_>,
) -> Result<Option<ByteRun>, NoMemory>
    ensures parsed { IfOk result (λ found. Parses (items rc count) found cursor.old cursor.new) }
    ensures kept { Keeps cursor.old cursor.new }
{
    read_bytes(alloc, count, cursor)
}

/// Reads a value of a code where it is present, and no bit where it isn't. None exactly where it is present and no prefix of the
/// rest spells one.
pub fn parse_when<C: BitCode>(
    context: &C::Context,
    present: bool,
    cursor: &mut BitCursor<'_>,
) -> Option<Option<C::Value>>
    requires { C.IsContext context.now }
    ensures parsed { Parses (when present (C.grammar context.now)) result cursor.old cursor.new }
    ensures kept { Keeps cursor.old cursor.new }
{
    read_when::<C>(context, present, cursor)
}
