//! What is asked of each object where a certificate is checked.

ghost use Rattle.std.specs.Prelude.{◌≡◌, ◌<◌, ◌||◌, ℕ, false, length, map, Some, IsTrue};
ghost use Rattle.std.specs.List.{filter, slice_get};
ghost use Rattle.std.specs.Option.{option_and_then, option_map_or};
ghost use Rattle.dwg_cert.specs.AcceptTests.{holds_together, is_begun, is_in_place, is_member_at, is_place, is_placed, is_rank, is_ranked, is_resolved, is_right};
ghost use Rattle.dwg_cert.specs.Accepts.{entry_at, members_of, place_at, rank_at};
ghost use Rattle.dwg_cert.specs.Checked.{are_met, end_handles};
ghost use Rattle.dwg_graph.specs.Counts.{by_holder};
ghost use Rattle.dwg_graph.specs.Graph.{claims, is_member, object_at};
ghost use Rattle.dwg_graph.specs.Owners.{owner_of, spaces};
ghost use Rattle.dwg_graph.specs.Placed.{home_place, owner_place, place_in};
ghost use Rattle.dwg_graph.specs.Places.{handles_of};
ghost use Rattle.dwg_graph.specs.Tests.{is_claimed, is_exempt};
ghost use Rattle.dwg_kinds.specs.declared.field.Field.TheVariants as fields;
ghost use Rattle.dwg_kinds.specs.Needs.{has_field};
ghost use Rattle.dwg_object.specs.Objects.{ObjectValue, handle_of, kind_of, value_of};

use crate::ends::{BlockEnds, ends_of};
use crate::entry::Entry;
use crate::lookup::{place_of, reported_at};
use crate::needs::is_met;
use dwg_base::Handle;
use dwg_graph::{
    ClaimCounts, Claimed, Index, Slot, SpaceHandles, home_of, is_claimed, is_exempt, is_header,
    is_member, is_raw, is_root, is_typed, next_of, owner_of, slot_laws,
};
use dwg_kinds::Field;
use dwg_object::Object;
use std::marker::Model;

/// Objects, and the entries of a certificate that has one for each, with what is looked up and counted of the objects.
///
/// Contracts see the objects and the entries.
#[derive(Drop)]
pub(crate) struct Checker<'d, 'o> {
    pub(crate) objects: &'d [Object<'o>],
    pub(crate) entries: &'d [Entry],
    /// The model and the paper space.
    pub(crate) known: Option<SpaceHandles>,
    pub(crate) index: &'d Index,
    /// Where the owner of each object stands.
    pub(crate) owners: &'d [Option<usize>],
    /// How many members each block has, by place.
    pub(crate) members: Vec<u64>,
    /// How many claims there are on each object, by place.
    pub(crate) claimed: Claimed,
}

impl<'d, 'o> Model for Checker<'d, 'o> {
    ghost use Rattle.std.specs.Prelude.{map};
    ghost use Rattle.dwg_cert.specs.Checked.{Checked, IsChecker};
    ghost use Rattle.dwg_object.specs.Objects.{value_of};

    ghost Value = { Checked };

    ghost view = { λ c. record { objects = map value_of c.objects.now; cert = c.entries.now } };

    ghost invariant = { λ c. IsChecker (map value_of c.objects.now) c.entries.now c.known c.index.now c.owners.now c.members.items c.claimed };
}

/// The entry at a place, if there is one.
fn entry_there(entries: &[Entry], place: Option<usize>) -> Option<Entry>
    ensures { result ≡ option_and_then (slice_get entries.now) place }
{
    entries.get(place?).copied()
}

/// Whether an object at a place is a member of a block.
fn is_member_there(
    objects: &[Object<'_>],
    known: &Option<SpaceHandles>,
    block: &Object<'_>,
    place: Option<usize>,
) -> bool
    ensures { result ≡ option_map_or (is_member known.now (value_of block.now)) (option_and_then (slice_get (map value_of objects.now)) place) false }
{
    match place {
        Some(at) => match objects.get(at) {
            Some(object) => is_member(block, object, known),
            None => false,
        },
        None => false,
    }
}

/// Whether the member that stands at a place, of the block that stands at its home, has a place in the chain that is right.
fn is_placed_at(
    objects: &[Object<'_>],
    checker: &Checker<'_, '_>,
    home: usize,
    place: usize,
    object: &Object<'_>,
) -> bool
    requires same { checker.now.objects ≡ map value_of objects.now }
    requires within { home < length objects.now }
    requires there { slice_get checker.now.objects place ≡ Some (value_of object.now) }
    ensures { (block : ObjectValue) → slice_get checker.now.objects home ≡ Some block → result ≡ is_placed checker.now.objects checker.now.cert (value_of object.now) block }
{
    checker.is_placed(&objects[home], checker.member_count(home), place, object)
}

impl<'d, 'o> Checker<'d, 'o> {
    /// Where the object of a handle stands.
    fn place_of(&self, handle: Handle) -> Option<usize>
        ensures { result ≡ place_in (handles_of self.now.objects) handle }
    {
        place_of(self.index, handle)
    }

    /// The entry at the place where the object of a handle stands, if any does.
    fn entry_there(&self, place: Option<usize>) -> Option<Entry>
        ensures { (handle : ℕ) → place ≡ place_in (handles_of self.now.objects) handle → result ≡ entry_at self.now.cert handle }
    {
        entry_there(self.entries, place)
    }

    /// The rank that the certificate gives the object of a handle, which stands at a place, if any does.
    fn rank_there(&self, place: Option<usize>) -> Option<u64>
        ensures { (handle : ℕ) → place ≡ place_in (handles_of self.now.objects) handle → result ≡ rank_at self.now.cert handle }
    {
        self.entry_there(place)?.rank
    }

    /// The place in its block's chain that the certificate gives the object of a handle, which stands at a place, if any does.
    fn chain_place_there(&self, place: Option<usize>) -> Option<u64>
        ensures { (handle : ℕ) → place ≡ place_in (handles_of self.now.objects) handle → result ≡ place_at self.now.cert handle }
    {
        self.entry_there(place)?.chain
    }

    /// The object at a place stands where its handle leads.
    fn known_place(&self, place: usize)
        ensures { (x : ObjectValue) → slice_get self.now.objects place ≡ Some x → Some place ≡ place_in (handles_of self.now.objects) (handle_of x) }
    {
        // What holds of the objects is reported where a field is read.
        let _known = self.known;
    }

    /// The rank that the certificate gives the object at a place.
    fn rank(&self, place: usize) -> Option<u64>
        ensures { (x : ObjectValue) → slice_get self.now.objects place ≡ Some x → result ≡ rank_at self.now.cert (handle_of x) }
    {
        self.known_place(place);
        self.rank_there(Some(place))
    }

    /// The place in its block's chain that the certificate gives the object at a place.
    fn chain_place(&self, place: usize) -> Option<u64>
        ensures { (x : ObjectValue) → slice_get self.now.objects place ≡ Some x → result ≡ place_at self.now.cert (handle_of x) }
    {
        self.known_place(place);
        self.chain_place_there(Some(place))
    }

    /// Whether a rank is right of an object, whose owner may stand somewhere: 0 of a root, and any other of what is Typed or Plain and
    /// has an owner of the rank before.
    #[tactic(auto, unfolding(crate::specs::AcceptTests::is_rank))]
    fn is_rank(&self, object: &Object<'_>, owner: Option<usize>, rank: u64) -> bool
        requires owner { owner ≡ owner_place self.now.objects (spaces self.now.objects) (value_of object.now) }
        ensures { result ≡ is_rank self.now.objects self.now.cert (value_of object.now) rank }
    {
        if rank == 0 {
            return is_root(object, &self.known);
        }
        if is_raw(object) {
            return false;
        }
        self.rank_there(owner) == Some(rank - 1)
    }

    /// Whether the object at a place has a rank that is right, or none and isn't Typed.
    #[tactic(auto, unfolding(crate::specs::AcceptTests::is_ranked))]
    fn is_ranked(&self, place: usize, object: &Object<'_>, owner: Option<usize>) -> bool
        requires there { slice_get self.now.objects place ≡ Some (value_of object.now) }
        requires owner { owner ≡ owner_place self.now.objects (spaces self.now.objects) (value_of object.now) }
        ensures { result ≡ is_ranked self.now.objects self.now.cert (value_of object.now) }
    {
        match self.rank(place) {
            Some(rank) => self.is_rank(object, owner, rank),
            None => !is_typed(object),
        }
    }

    /// Whether the object of a handle, which stands at a place, if any does, is a member of a block.
    fn is_member_of(&self, block: &Object<'_>, place: Option<usize>) -> bool
        ensures { (handle : ℕ) → place ≡ place_in (handles_of self.now.objects) handle → result ≡ option_map_or (is_member (spaces self.now.objects) (value_of block.now)) (object_at self.now.objects handle) false }
    {
        is_member_there(self.objects, &self.known, block, place)
    }

    /// Whether the object of a handle is a member of a block, and has that place in its chain.
    #[tactic(auto, unfolding(crate::specs::AcceptTests::is_member_at))]
    fn is_member_at(&self, block: &Object<'_>, handle: Handle, chain_place: u64) -> bool
        ensures { result ≡ is_member_at self.now.objects self.now.cert (value_of block.now) handle chain_place }
    {
        let place = self.place_of(handle);
        self.is_member_of(block, place) && self.chain_place_there(place) == Some(chain_place)
    }

    /// Whether a place in the chain is right of a member of a block that has so many: the member of the place after follows it, where
    /// there is such a place, and else it is the last.
    #[tactic(auto, unfolding(crate::specs::AcceptTests::is_place))]
    fn is_place(
        &self,
        block: &Object<'_>,
        count: u64,
        ends: &BlockEnds,
        object: &Object<'_>,
        chain_place: u64,
    ) -> bool
        requires count { count ≡ length (members_of self.now.objects (value_of block.now)) }
        ensures { result ≡ is_place self.now.objects self.now.cert (value_of block.now) (end_handles ends.now) (value_of object.now) chain_place }
    {
        if count <= chain_place {
            return false;
        }
        if chain_place + 1 < count {
            return self.is_member_at(block, next_of(object), chain_place + 1);
        }
        object.handle() == ends.last
    }

    /// Whether the member at a place, of a block that has so many, has a place in the chain that is right.
    #[tactic(auto, unfolding(crate::specs::AcceptTests::is_placed))]
    fn is_placed(&self, block: &Object<'_>, count: u64, place: usize, object: &Object<'_>) -> bool
        requires count { count ≡ length (members_of self.now.objects (value_of block.now)) }
        requires there { slice_get self.now.objects place ≡ Some (value_of object.now) }
        ensures { result ≡ is_placed self.now.objects self.now.cert (value_of object.now) (value_of block.now) }
    {
        let Some(ends) = ends_of(block) else {
            return false;
        };
        match self.chain_place(place) {
            Some(chain_place) => self.is_place(block, count, &ends, object, chain_place),
            None => false,
        }
    }

    /// How many members the block at a place has.
    fn member_count(&self, place: usize) -> u64
        requires { place < length self.now.objects }
        ensures { (block : ObjectValue) → slice_get self.now.objects place ≡ Some block → result ≡ length (members_of self.now.objects block) }
    {
        self.members[place]
    }

    /// The claims on the object at a place.
    fn claims(&self, place: usize) -> ClaimCounts
        requires { place < length self.now.objects }
        ensures all { (x : ObjectValue) → slice_get self.now.objects place ≡ Some x → result.all ≡ length (claims self.now.objects (handle_of x)) }
        ensures own { (x : ObjectValue) → slice_get self.now.objects place ≡ Some x → result.own ≡ length (filter (by_holder (owner_of (spaces self.now.objects) x)) (claims self.now.objects (handle_of x))) }
    {
        ClaimCounts {
            all: self.claimed.all[place],
            own: self.claimed.own[place],
        }
    }

    /// Each slot of the object at a place meets its need.
    fn known_slots(&self, place: usize)
        ensures { (x : ObjectValue) → slice_get self.now.objects place ≡ Some x → IsTrue (are_met self.now.objects x) }
    {
        // What holds of the objects is reported where a field is read.
        let _known = self.known;
    }

    /// Where the owner of the object at a place stands.
    fn owner(&self, place: usize) -> Option<usize>
        requires { place < length self.now.objects }
        ensures { (x : ObjectValue) → slice_get self.now.objects place ≡ Some x → result ≡ owner_place self.now.objects (spaces self.now.objects) x }
    {
        reported_at(self.owners, place)
    }

    /// Where the block stands of which an object is a member, whose owner may stand somewhere.
    fn home(&self, object: &Object<'_>, owner: Option<usize>) -> Option<usize>
        requires owner { owner ≡ owner_place self.now.objects (spaces self.now.objects) (value_of object.now) }
        ensures { result ≡ home_place self.now.objects (spaces self.now.objects) (value_of object.now) }
    {
        home_of(self.objects, &self.known, object, owner)
    }

    /// Whether the object at a place is no member of a block, or has a place in its chain that is right.
    fn is_in_place(&self, place: usize, object: &Object<'_>, home: Option<usize>) -> bool
        requires there { slice_get self.now.objects place ≡ Some (value_of object.now) }
        requires home { home ≡ home_place self.now.objects (spaces self.now.objects) (value_of object.now) }
        ensures { result ≡ is_in_place self.now.objects self.now.cert (value_of object.now) }
    {
        match home {
            Some(home) => is_placed_at(self.objects, self, home, place, object),
            None => true,
        }
    }

    /// Whether a block, which stands at a place, begins with a member of place 0, or has neither ends nor members.
    #[tactic(auto, unfolding(crate::specs::AcceptTests::is_begun))]
    fn is_begun(&self, place: usize, block: &Object<'_>) -> bool
        requires within { place < length self.now.objects }
        requires there { slice_get self.now.objects place ≡ Some (value_of block.now) }
        ensures { result ≡ is_begun self.now.objects self.now.cert (value_of block.now) }
    {
        match ends_of(block) {
            Some(ends) => self.is_member_at(block, ends.first, 0),
            None => self.member_count(place) == 0,
        }
    }

    /// Whether the owner of an object, which may stand somewhere, meets its need, and so each reference does where each slot does.
    #[tactic(auto, unfolding(crate::specs::AcceptTests::is_resolved, crate::specs::Checked::are_met))]
    fn is_resolved(&self, object: &Object<'_>, owner: Option<usize>) -> bool
        requires held { IsTrue (has_field fields.Owner (kind_of (value_of object.now))) }
        requires met { IsTrue (are_met self.now.objects (value_of object.now)) }
        requires owner { owner ≡ owner_place self.now.objects (spaces self.now.objects) (value_of object.now) }
        ensures { result ≡ is_resolved self.now.objects (value_of object.now) }
    {
        let slot = Slot {
            field: Field::Owner,
            position: 0,
            target: owner_of(object, self.known),
        };
        is_met(self.objects, object, &slot, owner)
    }

    /// Whether the object at a place, whose owner and home may stand somewhere, is claimed as it should be, or no claim is asked of it.
    fn is_claimed(
        &self,
        place: usize,
        object: &Object<'_>,
        owner: Option<usize>,
        home: Option<usize>,
    ) -> bool
        requires within { place < length self.now.objects }
        requires there { slice_get self.now.objects place ≡ Some (value_of object.now) }
        requires owner { owner ≡ owner_place self.now.objects (spaces self.now.objects) (value_of object.now) }
        requires home { home ≡ home_place self.now.objects (spaces self.now.objects) (value_of object.now) }
        ensures { result ≡ (is_exempt self.now.objects (spaces self.now.objects) (value_of object.now) || is_claimed self.now.objects (spaces self.now.objects) (value_of object.now)) }
    {
        if is_exempt(self.objects, &self.known, object, home) {
            return true;
        }
        is_claimed(
            self.objects,
            &self.known,
            object,
            owner,
            &self.claims(place),
        )
    }

    /// Whether the references of the object at a place, whose owner and home may stand somewhere, hold together.
    #[tactic(auto, unfolding(crate::specs::AcceptTests::holds_together))]
    fn holds_together(
        &self,
        place: usize,
        object: &Object<'_>,
        owner: Option<usize>,
        home: Option<usize>,
    ) -> bool
        requires within { place < length self.now.objects }
        requires there { slice_get self.now.objects place ≡ Some (value_of object.now) }
        requires owner { owner ≡ owner_place self.now.objects (spaces self.now.objects) (value_of object.now) }
        requires home { home ≡ home_place self.now.objects (spaces self.now.objects) (value_of object.now) }
        ensures { result ≡ holds_together self.now.objects self.now.cert (value_of object.now) }
    {
        if !is_typed(object) {
            return true;
        }
        slot_laws();
        self.known_slots(place);
        self.is_resolved(object, owner)
            && self.is_claimed(place, object, owner, home)
            && (!is_header(object) || self.is_begun(place, object))
    }

    /// Whether what the certificate says of the object at a place is right, and its references hold together.
    #[tactic(auto, unfolding(crate::specs::AcceptTests::is_right))]
    pub(crate) fn is_right(&self, place: usize, object: &Object<'_>) -> bool
        requires within { place < length self.now.objects }
        requires there { slice_get self.now.objects place ≡ Some (value_of object.now) }
        ensures { result ≡ is_right self.now.objects self.now.cert (value_of object.now) }
    {
        let owner = self.owner(place);
        let home = self.home(object, owner);
        self.is_ranked(place, object, owner)
            && self.is_in_place(place, object, home)
            && self.holds_together(place, object, owner, home)
    }
}
