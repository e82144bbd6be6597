//! The audit of a drawing's objects.

ghost use Rattle.std.specs.Prelude.{◌≡◌, ◌↔◌, ◌<◌, ◌≤◌, ◌^◌, ◌+◌, ◌*◌, ◌++◌, ℕ, [], length, map, IfOk, OnOk};
ghost use Rattle.std.specs.List.{AllByRecursion};
ghost use Rattle.dwg_audit.specs.Findings.{control_findings, findings, findings_of};
ghost use Rattle.dwg_audit.specs.Lookups.{slot_places};
ghost use Rattle.dwg_audit.specs.ObjectFacts.{IsStanding};
ghost use Rattle.dwg_audit.specs.Tabled.{AreTables};
ghost use Rattle.dwg_graph.specs.Claimed.{reference_count};
ghost use Rattle.dwg_graph.specs.Owners.{spaces};
ghost use Rattle.dwg_graph.specs.Places.{Ascend, handles_of};
ghost use Rattle.dwg_graph.specs.Slots.{slots};
ghost use Rattle.dwg_graph.specs.Sound.{IsSound};
ghost use Rattle.dwg_object.specs.Objects.{value_of};
ghost use Rattle.dwg_object.specs.Written.{IsWhole};

use crate::finding::{Finding, Rule};
use crate::laws::finding_laws;
use crate::lookups::{places_at, slots_at};
use crate::object_facts::{ObjectFacts, standing_at};
use crate::resolving::push_unresolved;
use crate::rules::{push_lost, push_unchained, push_unclaimed, push_unless};
use crate::tables::{Tables, tabulate};
use dwg_base::{Handle, Items, NoMemory};
use dwg_graph::{Slot, SpaceHandles, control_count, is_typed, slot_laws};
use dwg_object::Object;
use dwg_steps::Steps;
use std::alloc::Global;
use std::sync::ledger::Ledger;

/// Finds that there isn't exactly one Typed table of blocks. Err: out of memory.
#[tactic(auto, unfolding(crate::specs::Findings::control_findings))]
fn push_control(objects: &[Object<'_>], found: &mut Items<Finding>) -> Result<(), NoMemory>
    ensures { OnOk result (found.new ≡ found.old ++ control_findings (map value_of objects.now)) }
{
    let count = control_count(objects);
    let finding = Finding {
        handle: Handle::NULL,
        rule: Rule::Control,
        field: None,
        position: count,
        target: Handle::NULL,
    };
    push_unless(found, count == 1, finding)
}

/// Finds what an object fails, in the order of rules, nothing of one that isn't Typed. Err: out of memory.
fn judge(
    objects: &[Object<'_>],
    known: &Option<SpaceHandles>,
    object: &Object<'_>,
    held: &[Slot],
    places: &[Option<usize>],
    standing: &ObjectFacts,
    found: &mut Items<Finding>,
) -> Result<(), NoMemory>
    requires known { known.now ≡ spaces (map value_of objects.now) }
    requires standing { IsStanding (map value_of objects.now) (value_of object.now) standing.now }
    requires held_slots { held.now ≡ slots (value_of object.now) }
    requires places { places.now ≡ slot_places (handles_of (map value_of objects.now)) (slots (value_of object.now)) }
    requires whole { IsWhole (value_of object.now) }
    ensures { OnOk result (found.new ≡ found.old ++ findings_of (map value_of objects.now) (spaces (map value_of objects.now)) (value_of object.now)) }
{
    if !is_typed(object) {
        return Ok(());
    }
    slot_laws();
    let owner = standing.owner;
    push_unresolved(objects, known, object, owner, held, places, found)?;
    push_unclaimed(
        objects,
        known,
        object,
        standing.home,
        owner,
        &standing.counts,
        found,
    )?;
    push_unchained(objects, known, object, standing.chained, found)?;
    push_lost(objects, known, object, standing.reached, found)
}

/// What objects fail, by what is known of all of them. Err: out of memory.
fn judge_all(
    alloc: Global,
    objects: &[Object<'_>],
    tables: &Tables,
) -> Result<Items<Finding>, NoMemory>
    requires ascend { Ascend (handles_of (map value_of objects.now)) }
    requires tables { AreTables (map value_of objects.now) tables.now }
    requires whole { AllByRecursion IsWhole (map value_of objects.now) }
    ensures { IfOk result (λ found. found ≡ findings (map value_of objects.now)) }
{
    let mut found = Items::new(alloc);
    push_control(objects, &mut found)?;
    'objects: for place in 0..objects.len() {
        judge(
            objects,
            &tables.known,
            &objects[place],
            slots_at(objects, &tables.lookups.slots, place),
            places_at(objects, &tables.lookups.slots, place),
            &standing_at(objects, tables, place),
            &mut found,
        )?;
    }
    Ok(found)
}

/// What the references of objects fail (a rule of this project): none exactly where the drawing is sound. The findings stand in order
/// of handle, rule, field and position. A step is one probe of the index of handles. They are bounded by what lookups of each owner, of
/// what follows each object in a block and of each other reference take, once each, where a lookup takes as many probes as the count of
/// objects has binary digits. Err: out of memory.
pub fn audit<L: Ledger>(
    alloc: Global,
    objects: &[Object<'_>],
    steps: &mut Steps<L>,
) -> Result<Items<Finding>, NoMemory>
    requires ascending { Ascend (handles_of (map value_of objects.now)) }
    requires whole { AllByRecursion IsWhole (map value_of objects.now) }
    requires few { length objects.now + reference_count (map value_of objects.now) < 2 ^ 58 }
    // None are found exactly where the drawing is sound.
    ensures findings { IfOk result (λ found. found ≡ findings (map value_of objects.now)) }
    ensures sound { IfOk result (λ found. (found ≡ []) ↔ IsSound (map value_of objects.now)) }

    // As many probes as two lookups for each object and one for each of its other references take, whatever the answer.
    ensures steps { (k : ℕ) → length objects.now < 2 ^ k → steps.new ≤ steps.old + (2 * length objects.now + reference_count (map value_of objects.now)) * k }
{
    finding_laws();
    let tables = tabulate(alloc, objects, steps)?;
    judge_all(alloc, objects, &tables)
}
