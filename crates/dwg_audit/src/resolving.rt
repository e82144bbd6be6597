//! The rule on what references lead to.

ghost use Rattle.std.specs.Prelude.{◌≡◌, ◌<◌, ◌++◌, [], ◌∷◌, Some, map, flat_map, OnOk, IsTrue};
ghost use Rattle.dwg_audit.specs.Findings.{is_application_field, resolve_findings, unmet};
ghost use Rattle.dwg_audit.specs.Held.{chosen};
ghost use Rattle.dwg_audit.specs.Lookups.{slot_places};
ghost use Rattle.dwg_graph.specs.declared.slot.Slot as declared;
ghost use Rattle.dwg_graph.specs.Placed.{owner_place, place_in};
ghost use Rattle.dwg_graph.specs.Places.{handles_of};
ghost use Rattle.dwg_graph.specs.SlotLaws.{HoldsFields};
ghost use Rattle.dwg_graph.specs.Slots.{slots};
ghost use Rattle.dwg_kinds.specs.Needs.{has_field};
ghost use Rattle.dwg_object.specs.Objects.{kind_of, value_of};

use crate::finding::{Finding, Rule};
use crate::lookups::place_at;
use dwg_base::{Items, NoMemory};
use dwg_graph::{Slot, SpaceHandles, is_met, owner_of};
use dwg_kinds::Field;
use dwg_object::Object;

/// Whether a field is that of applications.
fn is_application(field: Field) -> bool
    ensures { result ≡ is_application_field field }
{
    match field {
        Field::Application => true,
        _ => false,
    }
}

/// Finds a reference that doesn't meet its need. Err: out of memory.
#[tactic(auto, unfolding(dwg_graph::specs::Tests::is_met))]
#[inline(always)]
fn push_unmet(
    objects: &[Object<'_>],
    object: &Object<'_>,
    slot: &Slot,
    place: Option<usize>,
    found: &mut Items<Finding>,
) -> Result<(), NoMemory>
    requires place { place ≡ place_in (handles_of (map value_of objects.now)) slot.now.target }
    requires held { IsTrue (has_field slot.now.field (kind_of (value_of object.now))) }
    ensures { OnOk result (found.new ≡ found.old ++ unmet (map value_of objects.now) (value_of object.now) slot.now) }
{
    if is_met(objects, object.kind(), slot, place) {
        return Ok(());
    }
    let finding = Finding {
        handle: object.handle(),
        rule: Rule::Resolve,
        field: Some(slot.field),
        position: slot.position,
        target: slot.target,
    };
    found.try_push(finding)
}

/// Finds a slot that doesn't meet its need, where it is an application's, or where it isn't.
#[inline(always)]
fn push_chosen(
    objects: &[Object<'_>],
    object: &Object<'_>,
    slot: &Slot,
    place: Option<usize>,
    applications: bool,
    found: &mut Items<Finding>,
) -> Result<(), NoMemory>
    requires place { place ≡ place_in (handles_of (map value_of objects.now)) slot.now.target }
    requires held { IsTrue (has_field slot.now.field (kind_of (value_of object.now))) }
    ensures { OnOk result (found.new ≡ found.old ++ flat_map (unmet (map value_of objects.now) (value_of object.now)) (chosen applications (slot.now ∷ []))) }
{
    if is_application(slot.field) == applications {
        return push_unmet(objects, object, slot, place, found);
    }
    Ok(())
}

/// Finds each slot of an object that doesn't meet its need, of applications or of all others. Err: out of memory.
#[inline(always)]
fn push_slots(
    objects: &[Object<'_>],
    object: &Object<'_>,
    held: &[Slot],
    places: &[Option<usize>],
    applications: bool,
    found: &mut Items<Finding>,
) -> Result<(), NoMemory>
    requires held_slots { held.now ≡ slots (value_of object.now) }
    requires places { places.now ≡ slot_places (handles_of (map value_of objects.now)) (slots (value_of object.now)) }
    requires held { HoldsFields (value_of object.now) }
    ensures { OnOk result (found.new ≡ found.old ++ flat_map (unmet (map value_of objects.now) (value_of object.now)) (chosen applications (slots (value_of object.now)))) }
{
    'slots: for i in 0..held.len() {
        push_chosen(
            objects,
            object,
            &held[i],
            place_at(places, i),
            applications,
            found,
        )?;
    }
    Ok(())
}

/// Finds each reference of an object that doesn't meet its need, in the order of fields, where the owner stands after the
/// applications. Err: out of memory.
#[tactic(auto, unfolding(crate::specs::Findings::resolve_findings, crate::specs::Findings::references))]
pub(crate) fn push_unresolved(
    objects: &[Object<'_>],
    known: &Option<SpaceHandles>,
    object: &Object<'_>,
    owner: Option<usize>,
    held: &[Slot],
    places: &[Option<usize>],
    found: &mut Items<Finding>,
) -> Result<(), NoMemory>
    requires owner { owner ≡ owner_place (map value_of objects.now) known.now (value_of object.now) }
    requires held_slots { held.now ≡ slots (value_of object.now) }
    requires places { places.now ≡ slot_places (handles_of (map value_of objects.now)) (slots (value_of object.now)) }
    requires held { HoldsFields (value_of object.now) }
    ensures { OnOk result (found.new ≡ found.old ++ resolve_findings (map value_of objects.now) known.now (value_of object.now)) }
{
    let owner_slot = Slot {
        field: Field::Owner,
        position: 0,
        target: owner_of(object, *known),
    };
    push_slots(objects, object, held, places, true, found)?;
    push_unmet(objects, object, &owner_slot, owner, found)?;
    push_slots(objects, object, held, places, false, found)
}
