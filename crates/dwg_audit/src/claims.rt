//! How often each object is claimed, and how often by its owner.

ghost use Rattle.std.specs.Prelude.{◌≡◌, ◌<◌, ◌^◌, length, map, IfOk};
ghost use Rattle.dwg_audit.specs.Lookups.{IsSlotTable, slot_places};
ghost use Rattle.dwg_graph.specs.Claimed.{AddsBoth, AreBothCounted, AreBothOpen, reference_count};
ghost use Rattle.dwg_graph.specs.Places.{Ascend, handles_of};
ghost use Rattle.dwg_graph.specs.Slots.{slots};
ghost use Rattle.dwg_object.specs.Objects.{value_of};

use crate::lookups::{SlotTable, place_at, places_at, slots_at};
use dwg_base::NoMemory;
use dwg_graph::{Claimed, Slot, SpaceHandles, count_slot};
use dwg_object::Object;
use std::alloc::Global;

/// Counts what a holder claims.
#[tactic(auto, using(dwg_graph::proofs::SlotLoops::all_counted))]
fn count_holder(
    objects: &[Object<'_>],
    known: &Option<SpaceHandles>,
    holder: &Object<'_>,
    held: &[Slot],
    places: &[Option<usize>],
    claimed: &mut Claimed,
)
    requires ascend { Ascend (handles_of (map value_of objects.now)) }
    requires held_slots { held.now ≡ slots (value_of holder.now) }
    requires places { places.now ≡ slot_places (handles_of (map value_of objects.now)) (slots (value_of holder.now)) }
    requires room { AreBothOpen (map value_of objects.now) (length (slots (value_of holder.now))) claimed.old }
    ensures { AddsBoth (map value_of objects.now) known.now (value_of holder.now) (slots (value_of holder.now)) claimed.old claimed.new }
{
    'slots: for i in 0..held.len() {
        count_slot(
            objects,
            known,
            holder,
            &held[i],
            place_at(places, i),
            claimed,
        );
    }
}

/// How often each object is claimed, and how often by its owner. Err: out of memory.
#[tactic(auto, using(dwg_graph::proofs::HolderLoops::none_counted))]
pub(crate) fn count_claims(
    alloc: Global,
    objects: &[Object<'_>],
    known: &Option<SpaceHandles>,
    table: &SlotTable,
) -> Result<Claimed, NoMemory>
    requires ascend { Ascend (handles_of (map value_of objects.now)) }
    requires table { IsSlotTable (map value_of objects.now) table.now }
    requires few { reference_count (map value_of objects.now) < 2 ^ 58 }
    ensures { IfOk result (AreBothCounted (map value_of objects.now) known.now) }
{
    let mut claimed = Claimed::none(alloc, objects.len())?;
    'objects: for place in 0..objects.len() {
        let held = slots_at(objects, table, place);
        let places = places_at(objects, table, place);
        count_holder(objects, known, &objects[place], held, places, &mut claimed);
    }
    Ok(claimed)
}
