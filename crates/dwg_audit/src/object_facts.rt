//! What the tables say of one object.

ghost use Rattle.std.specs.Prelude.{◌≡◌, ◌<◌, Some, length, map, slice_index_or};
ghost use Rattle.std.specs.List.{slice_get};
ghost use Rattle.dwg_audit.specs.ObjectFacts.{IsStanding};
ghost use Rattle.dwg_audit.specs.Tabled.{AreTables};
ghost use Rattle.dwg_graph.specs.Places.{Ascend, handles_of};
ghost use Rattle.dwg_object.specs.Objects.{ObjectValue, value_of};
ghost use Rattle.dwg_chains.specs.Tables.{leads, marked};

use crate::tables::Tables;
use dwg_graph::ClaimCounts;
use dwg_object::Object;

/// What the tables say of one object.
#[derive(Clone, Copy, Drop)]
pub(crate) struct ObjectFacts {
    /// Where the block stands of which it is a member.
    pub(crate) home: Option<usize>,
    /// Where its owner stands.
    pub(crate) owner: Option<usize>,
    /// The claims on it.
    pub(crate) counts: ClaimCounts,
    /// Whether its members stand in a chain, where it is a block.
    pub(crate) chained: bool,
    /// Whether its owners lead to a root.
    pub(crate) reached: bool,
}

/// A mark at a place.
fn mark(marks: &[bool], place: usize) -> bool
    requires { place < length marks.now }
    ensures { result ≡ marked marks.now place }
{
    marks[place]
}

/// A number at a place, if it has one.
fn number(numbers: &[Option<usize>], place: usize) -> Option<usize>
    requires { place < length numbers.now }
    ensures { result ≡ leads numbers.now place }
{
    numbers[place]
}

/// A count at a place.
fn count(counts: &[u64], place: usize) -> u64
    requires { place < length counts.now }
    ensures { result ≡ slice_index_or counts.now place 0 }
{
    counts[place]
}

/// What the tables say of the object at a place.
pub(crate) fn standing_at(objects: &[Object<'_>], tables: &Tables, place: usize) -> ObjectFacts
    requires ascend { Ascend (handles_of (map value_of objects.now)) }
    requires tables { AreTables (map value_of objects.now) tables.now }
    requires within { place < length objects.now }
    ensures { (x : ObjectValue) → slice_get (map value_of objects.now) place ≡ Some x → IsStanding (map value_of objects.now) x result }
{
    ObjectFacts {
        home: number(&tables.homes, place),
        owner: number(&tables.lookups.owners, place),
        counts: ClaimCounts {
            all: count(&tables.claims.all, place),
            own: count(&tables.claims.own, place),
        },
        chained: mark(&tables.chains, place),
        reached: number(&tables.ranks, place).is_some(),
    }
}
