//! What the checker counts before it looks at single objects: the members of blocks, and the claims of slots, whose needs it tests on the
//! way.

ghost use Rattle.std.specs.Prelude.{◌≡◌, ◌<◌, ◌+◌, ◌^◌, length, map, is_some, Contains, IfOk, IfSome, IsTrue};
ghost use Rattle.std.specs.List.{list_all};
ghost use Rattle.dwg_cert.specs.Checked.{CanBeChecked, CountsMembers, are_met, member_counts};
ghost use Rattle.dwg_graph.specs.Claimed.{AddsBoth, AreBothCounted, AreBothOpen};
ghost use Rattle.dwg_graph.specs.Owners.{spaces};
ghost use Rattle.dwg_graph.specs.Placed.{owner_table};
ghost use Rattle.dwg_graph.specs.Places.{Ascend, handles_of};
ghost use Rattle.dwg_graph.specs.Slots.{slots};
ghost use Rattle.dwg_graph.specs.declared.slot.Slot as declared;
ghost use Rattle.dwg_kinds.specs.Needs.{has_field};
ghost use Rattle.dwg_object.specs.Objects.{kind_of, value_of};

use crate::lookup::{place_of, reported_at};
use crate::needs::is_met;
use dwg_base::NoMemory;
use dwg_graph::{
    Claimed, Index, SpaceHandles, count_slot, home_of, increment, slot_at, slot_count, slot_laws,
    zeroed,
};
use dwg_object::Object;
use std::alloc::Global;

/// Counts an object where it is a member of a block, by the block's place.
fn count_member(
    objects: &[Object<'_>],
    known: &Option<SpaceHandles>,
    owners: &[Option<usize>],
    place: usize,
    counts: &mut Vec<u64>,
)
    requires ascend { Ascend (handles_of (map value_of objects.now)) }
    requires few { length objects.now < 2 ^ 58 }
    requires owners { owners.now ≡ owner_table (map value_of objects.now) known.now }
    requires place { place < length objects.now }
    requires counted { CountsMembers (map value_of objects.now) known.now place counts.old.items }
    ensures { CountsMembers (map value_of objects.now) known.now (place + 1) counts.new.items }
{
    let object = &objects[place];
    match home_of(objects, known, object, reported_at(owners, place)) {
        Some(home) => increment(counts, home, 1),
        None => {}
    }
}

/// How many members each block has, by place. Err: out of memory.
pub(crate) fn count_members(
    alloc: Global,
    objects: &[Object<'_>],
    known: &Option<SpaceHandles>,
    owners: &[Option<usize>],
) -> Result<Vec<u64>, NoMemory>
    requires can { CanBeChecked (map value_of objects.now) }
    requires owners { owners.now ≡ owner_table (map value_of objects.now) known.now }
    requires known { known.now ≡ spaces (map value_of objects.now) }
    ensures { IfOk result (λ counts. counts.items ≡ member_counts (map value_of objects.now)) }
{
    let mut counts = zeroed(alloc, objects.len())?;
    'objects: for place in 0..objects.len() {
        count_member(objects, known, owners, place, &mut counts);
    }
    Ok(counts)
}

/// Counts what a holder claims, while each of its slots meets its need; whether all of them do.
#[tactic(auto, unfolding(crate::specs::Checked::are_met), using(dwg_graph::proofs::SlotLoops::all_counted))]
fn count_holder(
    objects: &[Object<'_>],
    known: &Option<SpaceHandles>,
    index: &Index,
    holder: &Object<'_>,
    claimed: &mut Claimed,
) -> bool
    requires ascend { Ascend (handles_of (map value_of objects.now)) }
    requires index { index.now ≡ handles_of (map value_of objects.now) }
    requires held { (slot : declared.Slot) → Contains (slots (value_of holder.now)) slot → IsTrue (has_field slot.field (kind_of (value_of holder.now))) }
    requires few { length (slots (value_of holder.now)) < 2 ^ 58 }
    requires room { AreBothOpen (map value_of objects.now) (length (slots (value_of holder.now))) claimed.old }
    ensures met { result ≡ are_met (map value_of objects.now) (value_of holder.now) }
    ensures counted { IsTrue result → AddsBoth (map value_of objects.now) known.now (value_of holder.now) (slots (value_of holder.now)) claimed.old claimed.new }
{
    'slots: for i in 0..slot_count(holder) {
        let slot = slot_at(holder, i);
        let target = place_of(index, slot.target);
        if !is_met(objects, holder, &slot, target) {
            return false;
        }
        count_slot(objects, known, holder, &slot, target, claimed);
    }
    true
}

/// How often each object is claimed, and how often by its owner, None exactly where a slot of some object doesn't meet its need. Err: out
/// of memory.
#[tactic(auto, using(dwg_graph::proofs::HolderLoops::none_counted))]
pub(crate) fn count_claims(
    alloc: Global,
    objects: &[Object<'_>],
    known: &Option<SpaceHandles>,
    index: &Index,
) -> Result<Option<Claimed>, NoMemory>
    requires can { CanBeChecked (map value_of objects.now) }
    requires index { index.now ≡ handles_of (map value_of objects.now) }
    ensures met { IfOk result (λ found. is_some found ≡ list_all (are_met (map value_of objects.now)) (map value_of objects.now)) }
    ensures counted { IfOk result (λ found. IfSome found (AreBothCounted (map value_of objects.now) known.now)) }
{
    slot_laws();
    let mut claimed = Claimed::none(alloc, objects.len())?;
    'holders: for holder in objects {
        if !count_holder(objects, known, index, holder, &mut claimed) {
            return Ok(None);
        }
    }
    Ok(Some(claimed))
}
