//! Members of lists, of which the main bits give one part each and the references name another. A rule of this project.

ghost use Rattle.std.specs.Prelude.{◌≡◌, ◌^◌, ◌<◌, ◌≤◌, ◌↔◌, length, map, IfOk, IfSome, IsTrue};
ghost use Rattle.dwg_bits.specs.Sink.{Extends};
ghost use Rattle.dwg_grammar.specs.Combinators.{items};
ghost use Rattle.dwg_grammar.specs.ToEnd.{AreValues, short_all};
ghost use Rattle.dwg_grammar.specs.Reference.{Reference};
ghost use Rattle.dwg_grammar.specs.ReferenceCodes.{reference};
ghost use Rattle.dwg_common.specs.Parsing.{Keeps, Parses};
ghost use Rattle.dwg_common.specs.Members.{joined};

use dwg_base::{Handle, Items, NoMemory};
use dwg_bits::{BitCursor, BitSink};
use dwg_codes::BitCode;
use dwg_common::parse_ref;
use dwg_handles::Ref;
use std::alloc::Global;

/// What has a part of a type.
pub(crate) trait Part<P> {
    // Its part.
    ghost part: { Self → P };

    /// Its part.
    fn part(&self) -> P
        ensures { result ≡ part self.now };
}

/// What is made of a part of a type and of a reference.
pub(crate) trait Joined<P>: Sized {
    // What is made of both.
    ghost join: { P → Reference → Self };

    /// What is made of both.
    fn joined(parsed: &P, name: Ref) -> Self
        ensures { result ≡ join parsed.now name };
}

/// Reads a reference of the object of the handle `base` for each of the members that are given of, as they are parsed. Err: out of
/// memory, which is taken only for references that are there.
#[tactic(auto, using(dwg_common::proofs::ChainReading::none_begun))]
pub(crate) fn read_names<P>(
    alloc: Global,
    parsed: &[P],
    cursor: &mut BitCursor<'_>,
    base: Handle,
) -> Result<Option<Items<Ref>>, NoMemory>
    ensures parsed { IfOk result (λ found. Parses (items (reference base) (length parsed.now)) found cursor.old cursor.new) }
    ensures as_many { IfOk result (λ found. IfSome found (λ names. length names ≡ length parsed.now)) }
    ensures kept { Keeps cursor.old cursor.new }
{
    let mut names = Items::new(alloc);
    'names: for _ in 0..parsed.len() {
        let Some(name) = parse_ref(cursor, base) else {
            return Ok(None);
        };
        names.try_push(name)?;
    }
    Ok(Some(names))
}

/// Makes members of what is given of each and of what is named of each. Err: out of memory.
pub(crate) fn join_all<P, V: Joined<P> + Drop>(
    alloc: Global,
    parsed: &[P],
    names: &[Ref],
) -> Result<Items<V>, NoMemory>
    requires { length names.now ≡ length parsed.now }
    ensures { IfOk result (λ members. members ≡ joined V.join parsed.now names.now) }
{
    let mut members = Items::new(alloc);
    'parts: for (place, part) in parsed.iter().enumerate() {
        members.try_push(V::joined(part, names[place]))?;
    }
    Ok(members)
}

/// Whether what is named of each member can be given from the object of the handle `base`.
#[tactic(auto, unfolding(dwg_grammar::specs::ReferenceCodes::reference))]
pub(crate) fn names_fit<V: Part<Ref>>(members: &[V], base: Handle) -> bool
    ensures { IsTrue result ↔ AreValues (reference base) (map V.part members.now) }
{
    'members: for member in members {
        if !member.part().fits(base) {
            return false;
        }
    }
    true
}

/// How many bits are written of a part of each member, fewer than 2^62.
pub(crate) fn parts_bits<C: BitCode, V: Part<C::Value>>(context: &C::Context, members: &[V]) -> u64
where
    C::Value: Drop,
    requires context { C.IsContext context.now }
    requires values { AreValues (C.grammar context.now) (map V.part members.now) }
    requires few { length (short_all (C.grammar context.now) (map V.part members.now)) < 2 ^ 62 }
    ensures { result ≡ length (short_all (C.grammar context.now) (map V.part members.now)) }
{
    let mut bits = 0;
    'members: for member in members {
        let part = member.part();
        bits += C::length(context, &part);
    }
    bits
}

/// Writes a part of each member.
pub(crate) fn write_parts<C: BitCode, V: Part<C::Value>>(
    context: &C::Context,
    members: &[V],
    sink: &mut BitSink,
)
where
    C::Value: Drop,
    requires context { C.IsContext context.now }
    requires values { AreValues (C.grammar context.now) (map V.part members.now) }
    requires room { length (short_all (C.grammar context.now) (map V.part members.now)) ≤ sink.old.spare }
    ensures { Extends sink.old sink.new (short_all (C.grammar context.now) (map V.part members.now)) }
{
    'members: for member in members {
        let part = member.part();
        C::write(context, &part, sink);
    }
}
