//! Where the references of all objects lead: each is looked up once.

ghost use Rattle.std.specs.Prelude.{◌≡◌, ◌<◌, ◌≤◌, ◌+◌, ◌*◌, ◌^◌, ◌-◌, ◌++◌, ℕ, List, [], ◌∷◌, None, Some, length, map, take, drop, IfOk, IfSome};
ghost use Rattle.std.specs.List.{slice_get, slice_index_or};
ghost use Rattle.dwg_audit.specs.Lookups.{AreGathered, AreLookups, IsSlotTable, TakeAtMost, all_slots, part_of, slot_places};
ghost use Rattle.dwg_graph.specs.Claimed.{reference_count};
ghost use Rattle.dwg_graph.specs.Placed.{place_in};
ghost use Rattle.dwg_graph.specs.Places.{Ascend, handles_of};
ghost use Rattle.dwg_graph.specs.Slots.{slots};
ghost use Rattle.dwg_object.specs.Objects.{ObjectValue, value_of};

use dwg_base::{Handle, Items, NoMemory, vec_with_capacity};
use dwg_graph::{Index, Slot, SpaceHandles, next_of, owner_of, with_slots};
use dwg_object::Object;
use dwg_steps::Steps;
use std::alloc::Global;
use std::sync::ledger::Ledger;

/// The slots of all objects, one object after the other, each with where its target stands.
#[derive(Drop)]
pub(crate) struct SlotTable {
    slots: Items<Slot>,
    places: Vec<Option<usize>>,
    // Where the slots of each object begin, and after the last object where they end.
    starts: Vec<usize>,
}

/// Where the references of all objects lead.
#[derive(Drop)]
pub(crate) struct Lookups {
    /// Where the owner of each object stands.
    pub(crate) owners: Vec<Option<usize>>,
    /// Where what follows each object in a block stands.
    pub(crate) next: Vec<Option<usize>>,
    /// The other references.
    pub(crate) slots: SlotTable,
}

/// What names an object by its handle.
trait Names {
    /// The handle.
    ghost named: { Self → ℕ };

    /// The handle.
    fn handle(&self) -> Handle
        ensures { result ≡ named self.now };
}

impl Names for Handle {
    ghost named = { λ handle. handle };

    fn handle(&self) -> Handle {
        *self
    }
}

/// A slot names its target.
impl Names for Slot {
    ghost use Rattle.dwg_graph.specs.declared.slot.Slot as declared;

    ghost named = { λ (slot : declared.Slot). slot.target };

    fn handle(&self) -> Handle {
        self.target
    }
}

/// The place of a handle among the handles of an index.
#[tactic(auto, using(dwg_graph::proofs::Placing::place_known))]
fn find_place<L: Ledger>(index: &Index, handle: Handle, steps: &mut Steps<L>) -> Option<usize>
    requires ascend { Ascend index.now }
    ensures place { result ≡ place_in index.now handle }
    ensures steps { TakeAtMost (length index.now) 1 steps.old steps.new }
{
    index.find(handle, steps)
}

/// The place of a handle, which is looked up unless it was the last one.
#[inline(always)]
fn find_or_same<L: Ledger>(
    index: &Index,
    handle: Handle,
    last: Option<Handle>,
    last_place: Option<usize>,
    steps: &mut Steps<L>,
) -> Option<usize>
    requires ascend { Ascend index.now }
    requires last { IfSome last (λ known. last_place ≡ place_in index.now known) }
    ensures place { result ≡ place_in index.now handle }
    ensures steps { TakeAtMost (length index.now) 1 steps.old steps.new }
{
    match last {
        Some(known) => {
            if known == handle {
                last_place
            } else {
                find_place(index, handle, steps)
            }
        }
        None => find_place(index, handle, steps),
    }
}

/// Where the objects stand that are named, each looked up once, and not again where the next names it too, as most entities have the
/// owner of the one before. Err: out of memory.
fn find_all<T: Names, L: Ledger>(
    alloc: Global,
    names: &[T],
    index: &Index,
    steps: &mut Steps<L>,
) -> Result<Vec<Option<usize>>, NoMemory>
    requires ascend { Ascend index.now }
    ensures places { IfOk result (λ places. places.items ≡ map (λ name. place_in index.now (T.named name)) names.now) }
    ensures steps { TakeAtMost (length index.now) (length names.now) steps.old steps.new }
{
    let mut places = vec_with_capacity(alloc, names.len())?;
    let mut last = None;
    let mut place = None;
    'names: for name in names {
        let handle = name.handle();
        place = find_or_same(index, handle, last, place, steps);
        last = Some(handle);
        places.push(place)?;
    }
    Ok(places)
}

/// What all objects refer to.
#[derive(Drop)]
pub(crate) struct ObjectReferences {
    // The owner of each, and what follows each in a block.
    owners: Vec<Handle>,
    next: Vec<Handle>,
    slots: Items<Slot>,
    starts: Vec<usize>,
}

/// What the objects so far refer to, and one more. Err: out of memory.
fn with_object(
    gathered: ObjectReferences,
    object: &Object<'_>,
    known: &Option<SpaceHandles>,
) -> Result<ObjectReferences, NoMemory>
    ensures { IfOk result (λ more. (objects : List ObjectValue) → AreGathered objects known.now gathered → AreGathered (objects ++ value_of object.now ∷ []) known.now more) }
{
    let ObjectReferences {
        mut owners,
        mut next,
        slots,
        mut starts,
    } = gathered;
    let slots = with_slots(slots, object)?;
    owners.push(owner_of(object, *known))?;
    next.push(next_of(object))?;
    starts.push(slots.as_slice().len())?;
    Ok(ObjectReferences {
        owners,
        next,
        slots,
        starts,
    })
}

/// No references, with room for those of so many objects. Err: out of memory.
fn none_gathered(alloc: Global, count: usize) -> Result<ObjectReferences, NoMemory>
    requires { count < 2 ^ 63 }
    ensures { IfOk result (λ gathered. (known : _) → AreGathered [] known gathered) }
{
    let mut starts = vec_with_capacity(alloc, count + 1)?;
    starts.push(0)?;
    Ok(ObjectReferences {
        owners: vec_with_capacity(alloc, count)?,
        next: vec_with_capacity(alloc, count)?,
        slots: Items::new(alloc),
        starts,
    })
}

/// What all objects refer to, each object walked over once. Err: out of memory.
fn gather(
    alloc: Global,
    objects: &[Object<'_>],
    known: &Option<SpaceHandles>,
) -> Result<ObjectReferences, NoMemory>
    ensures { IfOk result (AreGathered (map value_of objects.now) known.now) }
{
    let mut gathered = none_gathered(alloc, objects.len())?;
    'objects: for object in objects {
        gathered = with_object(gathered, object, known)?;
    }
    Ok(gathered)
}

/// Looks up what objects refer to. Err: out of memory.
fn look_up_gathered<L: Ledger>(
    alloc: Global,
    objects: &[Object<'_>],
    known: &Option<SpaceHandles>,
    gathered: ObjectReferences,
    steps: &mut Steps<L>,
) -> Result<Lookups, NoMemory>
    requires ascend { Ascend (handles_of (map value_of objects.now)) }
    requires gathered { AreGathered (map value_of objects.now) known.now gathered }
    ensures lookups { IfOk result (AreLookups (map value_of objects.now) known.now) }
    ensures steps { TakeAtMost (length objects.now) (2 * length objects.now + reference_count (map value_of objects.now)) steps.old steps.new }
{
    let index = Index::build(alloc, objects)?;
    let owners = find_all(alloc, gathered.owners.as_slice(), &index, steps)?;
    let next = find_all(alloc, gathered.next.as_slice(), &index, steps)?;
    let places = find_all(alloc, gathered.slots.as_slice(), &index, steps)?;
    Ok(Lookups {
        owners,
        next,
        slots: SlotTable {
            slots: gathered.slots,
            places,
            starts: gathered.starts,
        },
    })
}

/// Looks up each reference of all objects once: owners, what follows in a block, and slots. Err: out of memory.
pub(crate) fn look_up<L: Ledger>(
    alloc: Global,
    objects: &[Object<'_>],
    known: &Option<SpaceHandles>,
    steps: &mut Steps<L>,
) -> Result<Lookups, NoMemory>
    requires ascend { Ascend (handles_of (map value_of objects.now)) }
    ensures lookups { IfOk result (AreLookups (map value_of objects.now) known.now) }
    ensures steps { TakeAtMost (length objects.now) (2 * length objects.now + reference_count (map value_of objects.now)) steps.old steps.new }
{
    let gathered = gather(alloc, objects, known)?;
    look_up_gathered(alloc, objects, known, gathered, steps)
}

/// Where the slots of the object at a place begin.
fn start_at(table: &SlotTable, place: usize) -> usize
    requires { place < length table.now.starts.items }
    ensures { result ≡ slice_index_or table.now.starts.items place 0 }
{
    table.starts[place]
}

/// Where the target of one slot stands, by where those of all stand.
pub(crate) fn place_at(places: &[Option<usize>], i: usize) -> Option<usize>
    requires { i < length places.now }
    ensures { result ≡ slice_index_or places.now i None }
{
    places[i]
}

/// The items from a place to another.
fn part<T>(items: &[T], from: usize, to: usize) -> &[T]
    requires ordered { from ≤ to }
    requires within { to ≤ length items.now }
    ensures { result.now ≡ take (to - from) (drop from items.now) }
{
    &items[from..to]
}

/// Of items that stand along the slots of all objects, those of the object at a place.
fn part_at<'t, T>(
    objects: &[Object<'_>],
    table: &SlotTable,
    items: &'t [T],
    place: usize,
) -> &'t [T]
    requires table { IsSlotTable (map value_of objects.now) table.now }
    requires along { length items.now ≡ length (all_slots (map value_of objects.now)) }
    requires within { place < length objects.now }
    ensures { result.now ≡ part_of (map value_of objects.now) place items.now }
{
    let from = start_at(table, place);
    let to = start_at(table, place + 1);
    part(items, from, to)
}

/// The slots of the object at a place.
pub(crate) fn slots_at<'t>(objects: &[Object<'_>], table: &'t SlotTable, place: usize) -> &'t [Slot]
    requires table { IsSlotTable (map value_of objects.now) table.now }
    requires within { place < length objects.now }
    ensures { (x : ObjectValue) → slice_get (map value_of objects.now) place ≡ Some x → result.now ≡ slots x }
{
    part_at(objects, table, table.slots.as_slice(), place)
}

/// Where the targets of the slots of the object at a place stand.
pub(crate) fn places_at<'t>(
    objects: &[Object<'_>],
    table: &'t SlotTable,
    place: usize,
) -> &'t [Option<usize>]
    requires table { IsSlotTable (map value_of objects.now) table.now }
    requires within { place < length objects.now }
    ensures { (x : ObjectValue) → slice_get (map value_of objects.now) place ≡ Some x → result.now ≡ slot_places (handles_of (map value_of objects.now)) (slots x) }
{
    part_at(objects, table, table.places.as_slice(), place)
}
