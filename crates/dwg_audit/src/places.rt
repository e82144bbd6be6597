//! The references of objects as tables of places.

ghost use Rattle.std.specs.Prelude.{◌≡◌, ℕ, List, length, map, IfOk};
ghost use Rattle.std.specs.Option.{option_map};
ghost use Rattle.dwg_audit.specs.Lookups.{IsSlotTable, is_of, place_of, slot_places};
ghost use Rattle.dwg_graph.specs.Graph.{known_ends, ends_of};
ghost use Rattle.dwg_graph.specs.Placed.{place_in, owner_table, root_table, home_table, end_places, end_table};
ghost use Rattle.dwg_graph.specs.Slots.{slots};
ghost use Rattle.dwg_object.specs.Objects.{value_of};

use crate::lookups::{SlotTable, places_at, slots_at};
use dwg_base::NoMemory;
use dwg_chains::ChainEnds;
use dwg_graph::{Slot, SpaceHandles, home_of, is_root};
use dwg_kinds::{Field, number_of};
use dwg_object::{Body, Object};
use dwg_tables::Ends;
use std::alloc::Global;

/// For each object whether it is a root. Err: out of memory.
pub(crate) fn root_marks(
    alloc: Global,
    objects: &[Object<'_>],
    known: &Option<SpaceHandles>,
) -> Result<Vec<bool>, NoMemory>
    ensures { IfOk result (λ marks. marks.items ≡ root_table (map value_of objects.now) known.now) }
{
    let mut marks = Vec::new(alloc);
    'objects: for object in objects {
        marks.push(is_root(object, known))?;
    }
    Ok(marks)
}

/// For each object where the block stands of which it is a member, by where the owners stand. Err: out of memory.
#[tactic(auto, using(crate::proofs::Homes::home_by_owner))]
pub(crate) fn homes(
    alloc: Global,
    objects: &[Object<'_>],
    known: &Option<SpaceHandles>,
    owners: &[Option<usize>],
) -> Result<Vec<Option<usize>>, NoMemory>
    requires owners { owners.now ≡ owner_table (map value_of objects.now) known.now }
    ensures { IfOk result (λ places. places.items ≡ home_table (map value_of objects.now) known.now) }
{
    let mut places = Vec::new(alloc);
    'objects: for (place, object) in objects.iter().enumerate() {
        places.push(home_of(objects, known, object, owners[place]))?;
    }
    Ok(places)
}

/// Whether a slot is of a field.
fn is_of(field: Field, slot: &Slot) -> bool
    ensures { result ≡ is_of field slot.now }
{
    number_of(field) == number_of(slot.field)
}

/// Where the target of the first slot of a field stands, if there is one, by where the targets of all slots stand.
fn place_of(field: Field, held: &[Slot], places: &[Option<usize>]) -> Option<usize>
    requires { length places.now ≡ length held.now }
    ensures { (handles : List ℕ) → places.now ≡ slot_places handles held.now → result ≡ place_of handles field held.now }
{
    'slots: for i in 0..held.len() {
        if is_of(field, &held[i]) {
            return places[i];
        }
    }
    None
}

/// Where the ends of a block stand, none where both are null, by where both handles stand.
fn placed_ends(ends: &Ends, first: Option<usize>, last: Option<usize>) -> Option<ChainEnds>
    ensures { (handles : List ℕ) → first ≡ place_in handles ends.now.first.target → last ≡ place_in handles ends.now.last.target → result ≡ option_map (end_places handles) (known_ends ends.now) }
{
    if ends.first.target.value() == 0 && ends.last.target.value() == 0 {
        return None;
    }
    Some(ChainEnds { first, last })
}

/// Where the ends of the block of an object stand, none of what isn't a Typed BLOCK HEADER. Its slots report it.
#[tactic(auto, unfolding(dwg_graph::specs::Graph::ends_of))]
fn ends_at(object: &Object<'_>, held: &[Slot], places: &[Option<usize>]) -> Option<ChainEnds>
    requires held_slots { held.now ≡ slots (value_of object.now) }
    requires count { length places.now ≡ length held.now }
    ensures { (handles : List ℕ) → places.now ≡ slot_places handles held.now → result ≡ option_map (end_places handles) (ends_of (value_of object.now)) }
{
    match object {
        Object::Typed(typed) => match &typed.body {
            Body::BlockHeader(body) => match &body.ends {
                Some(ends) => placed_ends(
                    ends,
                    place_of(Field::First, held, places),
                    place_of(Field::Last, held, places),
                ),
                None => None,
            },
            _ => None,
        },
        _ => None,
    }
}

/// For each object where the ends of its block stand. Err: out of memory.
pub(crate) fn end_places(
    alloc: Global,
    objects: &[Object<'_>],
    table: &SlotTable,
) -> Result<Vec<Option<ChainEnds>>, NoMemory>
    requires table { IsSlotTable (map value_of objects.now) table.now }
    ensures { IfOk result (λ places. places.items ≡ end_table (map value_of objects.now)) }
{
    let mut ends = Vec::new(alloc);
    'objects: for place in 0..objects.len() {
        let held = slots_at(objects, table, place);
        let places = places_at(objects, table, place);
        ends.push(ends_at(&objects[place], held, places))?;
    }
    Ok(ends)
}
