//! How often each object is claimed, and how often by its owner, counted slot by slot.

ghost use Rattle.std.specs.Prelude.{◌≡◌, ◌<◌, Some, ◌==◌, ◌+◌, ◌^◌, [], ◌∷◌, false, length, map, replicate, IfOk, if◌then◌else◌};
ghost use Rattle.std.specs.List.{filter, slice_get, slice_index_or};
ghost use Rattle.std.specs.Option.{option_and_then, option_map_or};
ghost use Rattle.dwg_graph.specs.Claimed.{AddsBoth, AreBothOpen, raised};
ghost use Rattle.dwg_graph.specs.Counts.{by_counts, by_holder};
ghost use Rattle.dwg_graph.specs.Graph.{claims, is_typed};
ghost use Rattle.dwg_graph.specs.Owners.{owner_of};
ghost use Rattle.dwg_graph.specs.Placed.{home_place, owner_place, place_in};
ghost use Rattle.dwg_graph.specs.Places.{Ascend, handles_of};
ghost use Rattle.dwg_graph.specs.Tests.{is_claimed, is_exempt};
ghost use Rattle.dwg_object.specs.Objects.{ObjectValue, handle_of, kind_of, value_of};

use crate::owner::{SpaceHandles, owner_of};
use crate::roles::{can_claim, is_root, is_typed};
use crate::slot::Slot;
use dwg_base::NoMemory;
use dwg_kinds::{Kind, is_same};
use dwg_object::Object;
use std::alloc::Global;

/// How often each object is claimed, by places.
#[derive(Drop)]
pub struct Claimed {
    /// By any object.
    pub all: Vec<u64>,
    /// By its owner.
    pub own: Vec<u64>,
}

impl Claimed {
    /// No claims on so many objects. Err: out of memory.
    pub fn none(alloc: Global, count: usize) -> Result<Claimed, NoMemory>
        ensures all { IfOk result (λ claimed. claimed.all.items ≡ replicate count 0) }
        ensures own { IfOk result (λ claimed. claimed.own.items ≡ replicate count 0) }
    {
        let all = zeroed(alloc, count)?;
        let own = zeroed(alloc, count)?;
        Ok(Claimed { all, own })
    }
}

/// A count of nothing for each of so many places. Err: out of memory.
pub fn zeroed(alloc: Global, count: usize) -> Result<Vec<u64>, NoMemory>
    ensures { IfOk result (λ counts. counts.items ≡ replicate count 0) }
{
    let counts = vec![in alloc; 0; count]?;
    Ok(counts)
}

/// One where a test holds, else nothing.
fn one_if(test: bool) -> u64
    ensures { result ≡ (if test then 1 else 0) }
{
    if test { 1 } else { 0 }
}

/// Counts so many more in one place.
pub fn increment(counts: &mut Vec<u64>, place: usize, more: u64)
    requires within { place < length counts.old.items }
    requires room { slice_index_or counts.old.items place 0 + more < 2 ^ 64 }
    ensures { counts.new.items ≡ raised counts.old.items place more }
{
    counts[place] += more;
}

/// Counts one claim on the object of a place, which may be by its owner.
fn tally(claimed: &mut Claimed, place: usize, owned: bool)
    requires all_within { place < length claimed.old.all.items }
    requires own_within { place < length claimed.old.own.items }
    requires all_room { slice_index_or claimed.old.all.items place 0 + 1 < 2 ^ 58 }
    requires own_room { slice_index_or claimed.old.own.items place 0 + 1 < 2 ^ 58 }
    ensures all { claimed.new.all.items ≡ raised claimed.old.all.items place 1 }
    ensures own { claimed.new.own.items ≡ raised claimed.old.own.items place (if owned then 1 else 0) }
{
    increment(&mut claimed.all, place, 1);
    increment(&mut claimed.own, place, one_if(owned));
}

/// Whether a holder owns the object of a place.
fn is_owned(
    objects: &[Object<'_>],
    known: &Option<SpaceHandles>,
    holder: &Object<'_>,
    place: usize,
) -> bool
    requires within { place < length objects.now }
    ensures { (x : ObjectValue) → slice_get (map value_of objects.now) place ≡ Some x → result ≡ (handle_of (value_of holder.now) == owner_of known.now x) }
{
    holder.handle() == owner_of(&objects[place], *known)
}

/// Counts what a slot of a holder claims, by where its target stands.
pub fn count_slot(
    objects: &[Object<'_>],
    known: &Option<SpaceHandles>,
    holder: &Object<'_>,
    slot: &Slot,
    place: Option<usize>,
    claimed: &mut Claimed,
)
    requires ascend { Ascend (handles_of (map value_of objects.now)) }
    requires place { place ≡ place_in (handles_of (map value_of objects.now)) slot.now.target }
    requires room { AreBothOpen (map value_of objects.now) 1 claimed.old }
    ensures { AddsBoth (map value_of objects.now) known.now (value_of holder.now) (slot.now ∷ []) claimed.old claimed.new }
{
    if !can_claim(holder.kind(), slot.field) {
        return;
    }
    let Some(place) = place else {
        return;
    };
    let owned = is_owned(objects, known, holder, place);
    tally(claimed, place, owned);
}

/// The claims on one object.
#[derive(Clone, Copy, Drop)]
pub struct ClaimCounts {
    /// How many there are.
    pub all: u64,
    /// How many are by its owner.
    pub own: u64,
}

/// Whether no claim is asked of an object: of a root, an attribute, a vertex in space, or a member of a block, which stands at a home.
#[tactic(auto, unfolding(crate::specs::Tests::is_exempt), using(crate::proofs::Sufficing::member_by_home))]
pub fn is_exempt(
    objects: &[Object<'_>],
    known: &Option<SpaceHandles>,
    object: &Object<'_>,
    home: Option<usize>,
) -> bool
    requires home { home ≡ home_place (map value_of objects.now) known.now (value_of object.now) }
    ensures { result ≡ is_exempt (map value_of objects.now) known.now (value_of object.now) }
{
    if home.is_some() {
        return true;
    }
    if is_same(Kind::Attrib, object.kind()) || is_same(Kind::Vertex3d, object.kind()) {
        return true;
    }
    is_root(object, known)
}

/// Whether these claims are those that are asked for, by the object's owner: one, by the owner, where that is Typed, and none where
/// it isn't.
fn suffices(owner: &Object<'_>, counts: &ClaimCounts) -> bool
    ensures { result ≡ by_counts (is_typed (value_of owner.now)) counts.now.all counts.now.own }
{
    if is_typed(owner) {
        counts.all == 1 && counts.own == 1
    } else {
        counts.all == 0
    }
}

/// The same by the owner's place, if it has one; an owner that isn't there suffices in no case.
fn suffices_at(objects: &[Object<'_>], owner: Option<usize>, counts: &ClaimCounts) -> bool
    ensures { result ≡ option_map_or (λ owner. by_counts (is_typed owner) counts.now.all counts.now.own) (option_and_then (slice_get (map value_of objects.now)) owner) false }
{
    match owner {
        Some(place) => match objects.get(place) {
            Some(object) => suffices(object, counts),
            None => false,
        },
        None => false,
    }
}

/// Whether an object is claimed as it should be.
pub fn is_claimed(
    objects: &[Object<'_>],
    known: &Option<SpaceHandles>,
    object: &Object<'_>,
    owner: Option<usize>,
    counts: &ClaimCounts,
) -> bool
    requires owner { owner ≡ owner_place (map value_of objects.now) known.now (value_of object.now) }
    requires all { counts.now.all ≡ length (claims (map value_of objects.now) (handle_of (value_of object.now))) }
    requires own { counts.now.own ≡ length (filter (by_holder (owner_of known.now (value_of object.now))) (claims (map value_of objects.now) (handle_of (value_of object.now)))) }
    ensures { result ≡ is_claimed (map value_of objects.now) known.now (value_of object.now) }
{
    suffices_at(objects, owner, counts)
}
