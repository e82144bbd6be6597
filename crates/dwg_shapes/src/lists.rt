//! Lists that are there by their counts. A rule of this project.

ghost use Rattle.std.specs.Prelude.{◌≡◌, ◌^◌, ◌<◌, ◌≤◌, ◌↔◌, List, length, IfOk, IsTrue};
ghost use Rattle.std.specs.Option.{option_map};
ghost use Rattle.dwg_bits.specs.Sink.{Extends};
ghost use Rattle.dwg_grammar.specs.Codes.{bl};
ghost use Rattle.dwg_grammar.specs.Combinators.{when};
ghost use Rattle.dwg_common.specs.Parsing.{Keeps, Parses};
ghost use Rattle.dwg_shapes.specs.LwPolylines.{items_where};

use dwg_base::{Items, NoMemory};
use dwg_bits::{BitCursor, BitSink};
use dwg_codes::{BitCode, list_length, read_list, write_list};
use dwg_common::TOO_MANY;
use std::alloc::Global;

/// Reads so many values where there is a count, as they are parsed, and no bit where there is none. Err: out of memory, which is
/// taken only for values that are there.
pub(crate) fn parse_list_where<C: BitCode>(
    alloc: Global,
    context: &C::Context,
    count: Option<u32>,
    cursor: &mut BitCursor<'_>,
) -> Result<Option<Option<Items<C::Value>>>, NoMemory>
where
    C::Value: Drop,
    requires { C.IsContext context.now }
    ensures parsed { IfOk result (λ found. Parses (items_where (C.grammar context.now) count) found cursor.old cursor.new) }
    ensures kept { Keeps cursor.old cursor.new }
{
    let Some(many) = count else {
        return Ok(Some(None));
    };
    let Some(values) = read_list::<C>(alloc, context, many, cursor)? else {
        return Ok(None);
    };
    Ok(Some(Some(values)))
}

/// Whether a list is there exactly where it is present, and its count can be given.
pub(crate) fn count_fits_when<T>(present: bool, values: &Option<Items<T>>) -> bool
    ensures { IsTrue result ↔ (when present bl).IsValue (option_map (λ (many : List T). length many) values.now) }
{
    match values {
        Some(many) => {
            if !present {
                return false;
            }
            many.as_slice().len() < TOO_MANY
        }
        None => !present,
    }
}

/// How many members a list has that is there exactly where it is present, which the contract alone reads.
pub(crate) fn count_when<T>(present: bool, values: &Option<Items<T>>) -> Option<u32>
    requires { (when present bl).IsValue (option_map (λ (many : List T). length many) values.now) }
    ensures { result ≡ option_map (λ (many : List T). length many) values.now }
{
    match values {
        Some(many) => Some(many.as_slice().len() as u32),
        None => None,
    }
}

/// How many bits are written of values that are there by their count.
#[tactic(auto, unfolding(dwg_grammar::specs::Combinators::chain))]
pub(crate) fn list_bits_where<C: BitCode>(
    context: &C::Context,
    values: &Option<Items<C::Value>>,
) -> u64
    requires context { C.IsContext context.now }
    requires values { (items_where (C.grammar context.now) (option_map (λ (many : List C.Value). length many) values.now)).IsValue values.now }
    requires few { length ((items_where (C.grammar context.now) (option_map (λ (many : List C.Value). length many) values.now)).short values.now) < 2 ^ 62 }
    ensures { result ≡ length ((items_where (C.grammar context.now) (option_map (λ (many : List C.Value). length many) values.now)).short values.now) }
{
    match values {
        Some(many) => list_length::<C>(context, many.as_slice()),
        None => 0,
    }
}

/// Writes values that are there by their count.
#[tactic(auto, unfolding(dwg_grammar::specs::Combinators::chain))]
pub(crate) fn write_list_where<C: BitCode>(
    context: &C::Context,
    values: &Option<Items<C::Value>>,
    sink: &mut BitSink,
)
    requires context { C.IsContext context.now }
    requires values { (items_where (C.grammar context.now) (option_map (λ (many : List C.Value). length many) values.now)).IsValue values.now }
    requires room { length ((items_where (C.grammar context.now) (option_map (λ (many : List C.Value). length many) values.now)).short values.now) ≤ sink.old.spare }
    ensures { Extends sink.old sink.new ((items_where (C.grammar context.now) (option_map (λ (many : List C.Value). length many) values.now)).short values.now) }
{
    match values {
        Some(many) => write_list::<C>(context, many.as_slice(), sink),
        None => {}
    }
}
