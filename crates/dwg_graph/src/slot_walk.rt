//! Walks along the slots of an object: a search for one by its place, or a gathering of all.

ghost use Rattle.std.specs.Prelude.{◌≡◌, ◌++◌, [], ◌∷◌, map};
ghost use Rattle.dwg_graph.specs.SlotWalks.{IsGathered, PassesField, pass};
ghost use Rattle.dwg_graph.specs.Slots as tables;
ghost use Rattle.dwg_grammar.specs.Reference.{Reference};

use crate::slot::Slot;
use dwg_base::Items;
use dwg_common::AppData;
use dwg_dicts::DictItem;
use dwg_handles::Ref;
use dwg_kinds::Field;
use dwg_tables::{Dash, InsertMark};

/// What refers to an object.
pub(crate) trait Refers {
    /// Its reference.
    ghost refers: { Self → Reference };

    /// Its reference.
    fn reference(&self) -> Ref
        ensures { result ≡ refers self.now };
}

impl Refers for Ref {
    ghost refers = { λ reference. reference };

    fn reference(&self) -> Ref {
        *self
    }
}

/// An item of application data refers to its application.
impl Refers for AppData {
    ghost refers = { λ app. app.application };

    fn reference(&self) -> Ref {
        self.application
    }
}

/// A dash refers to its text style.
impl Refers for Dash {
    ghost refers = { λ dash. dash.style };

    fn reference(&self) -> Ref {
        self.style
    }
}

/// The mark of an insert refers to the insert.
impl Refers for InsertMark {
    ghost refers = { λ mark. mark.target };

    fn reference(&self) -> Ref {
        self.target
    }
}

/// An item of a dictionary refers to its object.
impl Refers for DictItem {
    ghost refers = { λ item. item.target };

    fn reference(&self) -> Ref {
        self.target
    }
}

/// A walk along slots.
#[derive(Drop)]
pub(crate) enum Walk {
    /// A search for one slot, which is found.
    Found(Slot),
    /// A search for one slot, before which so many more are to be passed.
    Left(u64),
    /// A gathering: all slots so far.
    Gathered(Items<Slot>),
    /// A gathering that had no memory for one of the slots.
    OutOfMemory,
}

/// Searches on along the slots of a field that is a list.
fn searched<T: Refers>(place: u64, field: Field, items: &[T]) -> Walk
    ensures { result ≡ pass place (tables.slots_from field 0 (map T.refers items.now)) }
{
    let count = items.len() as u64;
    if count <= place {
        return Walk::Left(place - count);
    }
    Walk::Found(Slot {
        field,
        position: place,
        target: items[place as usize].reference().target,
    })
}

/// Gathers the slots of a field that is a list after those so far.
#[inline(always)]
fn gathered<T: Refers>(slots: Items<Slot>, field: Field, items: &[T]) -> Walk
    ensures { IsGathered (slots ++ tables.slots_from field 0 (map T.refers items.now)) result }
{
    let mut slots = slots;
    'items: for position in 0..items.len() {
        let slot = Slot {
            field,
            position: position as u64,
            target: items[position].reference().target,
        };
        match slots.push(slot) {
            Ok(()) => {}
            Err(_) => return Walk::OutOfMemory,
        }
    }
    Walk::Gathered(slots)
}

impl Walk {
    /// Goes on along the slots of a field that is a list.
    #[tactic(auto, using(crate::proofs::Passing::passes_field), unfolding(crate::specs::SlotWalks::IsAfter))]
    #[inline(always)]
    fn along<T: Refers>(self, field: Field, items: &[T]) -> Walk
        ensures { PassesField self (tables.listed field (map T.refers items.now)) result }
    {
        match self {
            Walk::Found(slot) => Walk::Found(slot),
            Walk::Left(place) => searched(place, field, items),
            Walk::Gathered(slots) => gathered(slots, field, items),
            Walk::OutOfMemory => Walk::OutOfMemory,
        }
    }

    /// Goes on along the slots of a field that is a list.
    #[inline(always)]
    pub(crate) fn listed<T: Refers>(self, field: Field, items: &Items<T>) -> Walk
        ensures { PassesField self (tables.listed field (map T.refers items.now)) result }
    {
        self.along(field, items.as_slice())
    }

    /// Goes on along the slots of a field that is a list of references.
    #[tactic(auto, using(crate::proofs::Passing::all_themselves))]
    #[inline(always)]
    pub(crate) fn references(self, field: Field, items: &Items<Ref>) -> Walk
        ensures { PassesField self (tables.listed field items.now) result }
    {
        self.listed(field, items)
    }

    /// Goes on along the slots of a field that is two references.
    #[inline(always)]
    pub(crate) fn pair(self, field: Field, first: Ref, second: Ref) -> Walk
        ensures { PassesField self (tables.listed field (first ∷ second ∷ [])) result }
    {
        self.along(field, &[first, second])
    }

    /// Goes on along the slot of a field that is one reference.
    #[inline(always)]
    pub(crate) fn one(self, field: Field, reference: Ref) -> Walk
        ensures { PassesField self (tables.one field reference) result }
    {
        self.along(field, &[reference])
    }

    /// Goes on along the slot of a field that may be there.
    #[tactic(auto, using(crate::proofs::Passing::passes_nothing))]
    #[inline(always)]
    pub(crate) fn maybe(self, field: Field, reference: Option<Ref>) -> Walk
        ensures { PassesField self (tables.maybe field reference) result }
    {
        match reference {
            Some(reference) => self.one(field, reference),
            None => self,
        }
    }
}
