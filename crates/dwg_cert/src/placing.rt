//! Where the references of a drawing's objects lead, and how many steps lead from each to a root and to the last of its block.

ghost use Rattle.std.specs.Prelude.{◌≡◌, ◌<◌, map, None, Some, IfOk, if◌then◌else◌};
ghost use Rattle.std.specs.List.{slice_get};
ghost use Rattle.std.specs.Option.{option_and_then, option_map};
ghost use Rattle.dwg_cert.specs.Certified.{rank_of};
ghost use Rattle.dwg_cert.specs.Checked.{end_handles};
ghost use Rattle.dwg_cert.specs.Drawn.{AreTables, home_ends, is_last, left_of};
ghost use Rattle.dwg_graph.specs.Graph.{ends_of, is_member};
ghost use Rattle.dwg_graph.specs.Owners.{spaces};
ghost use Rattle.dwg_graph.specs.Placed.{next_table, owner_place, owner_table, place_in, root_table};
ghost use Rattle.dwg_graph.specs.Places.{Ascend, handles_of};
ghost use Rattle.dwg_object.specs.Objects.{value_of};

use crate::ends::{BlockEnds, ends_of};
use crate::lookup::place_of;
use dwg_base::{Handle, NoMemory};
use dwg_chains::ranks;
use dwg_graph::{Index, SpaceHandles, is_member, is_root, next_of, owner_of, spaces};
use dwg_object::Object;
use std::alloc::Global;
use std::marker::Model;

/// Objects in ascending order of their handles, with what is looked up of them.
///
/// Contracts see the objects.
#[derive(Drop)]
pub(crate) struct Indexed<'d, 'o> {
    pub(crate) objects: &'d [Object<'o>],
    /// The model and the paper space.
    pub(crate) known: Option<SpaceHandles>,
    pub(crate) index: Index,
}

impl<'d, 'o> Model for Indexed<'d, 'o> {
    ghost use Rattle.std.specs.Prelude.{◌≡◌, List, map};
    ghost use Rattle.dwg_graph.specs.Owners.{spaces};
    ghost use Rattle.dwg_graph.specs.Places.{Ascend, handles_of};
    ghost use Rattle.dwg_object.specs.Objects.{ObjectValue, value_of};

    ghost Value = { List ObjectValue };

    ghost view = { λ d. map value_of d.objects.now };

    ghost invariant = { λ d. Ascend (handles_of (map value_of d.objects.now)) × (d.known ≡ spaces (map value_of d.objects.now)) × (d.index ≡ handles_of (map value_of d.objects.now)) };
}

/// What is known of all objects, each by its place.
#[derive(Drop)]
pub(crate) struct Tables {
    /// Where the owner of each stands.
    pub(crate) owners: Vec<Option<usize>>,
    /// How many owners lead from each to a root.
    pub(crate) ranks: Vec<Option<usize>>,
    /// How many steps are left from each to the last of its block.
    pub(crate) left: Vec<Option<usize>>,
}

impl<'d, 'o> Indexed<'d, 'o> {
    /// Objects with their index. Err: out of memory.
    pub(crate) fn build(
        alloc: Global,
        objects: &'d [Object<'o>],
    ) -> Result<Indexed<'d, 'o>, NoMemory>
        requires ascending { Ascend (handles_of (map value_of objects.now)) }
        ensures { IfOk result (λ drawing. drawing ≡ map value_of objects.now) }
    {
        let index = Index::build(alloc, objects)?;
        Ok(Indexed {
            objects,
            known: spaces(objects),
            index,
        })
    }

    /// Where the object of a handle stands.
    pub(crate) fn place_of(&self, handle: Handle) -> Option<usize>
        ensures { result ≡ place_in (handles_of self.now) handle }
    {
        place_of(&self.index, handle)
    }

    /// Where the owner of each object stands. Err: out of memory.
    pub(crate) fn owners(&self, alloc: Global) -> Result<Vec<Option<usize>>, NoMemory>
        ensures { IfOk result (λ places. places.items ≡ owner_table self.now (spaces self.now)) }
    {
        let mut places = Vec::new(alloc);
        'objects: for object in self.objects {
            places.push(self.place_of(owner_of(object, self.known)))?;
        }
        Ok(places)
    }

    /// Where what follows each object in a block stands. Err: out of memory.
    fn next(&self, alloc: Global) -> Result<Vec<Option<usize>>, NoMemory>
        ensures { IfOk result (λ places. places.items ≡ next_table self.now) }
    {
        let mut places = Vec::new(alloc);
        'objects: for object in self.objects {
            places.push(self.place_of(next_of(object)))?;
        }
        Ok(places)
    }

    /// For each object whether it is a root. Err: out of memory.
    fn roots(&self, alloc: Global) -> Result<Vec<bool>, NoMemory>
        ensures { IfOk result (λ marks. marks.items ≡ root_table self.now (spaces self.now)) }
    {
        let mut marks = Vec::new(alloc);
        'objects: for object in self.objects {
            marks.push(is_root(object, &self.known))?;
        }
        Ok(marks)
    }

    /// The ends of the block that stands at a place, none where an object is no member of it.
    fn ends_at(&self, object: &Object<'_>, place: usize) -> Option<BlockEnds>
        ensures { option_map end_handles result ≡ option_and_then (λ block. if is_member (spaces self.now) block (value_of object.now) then ends_of block else None) (slice_get self.now place) }
    {
        match self.objects.get(place) {
            Some(block) => {
                if is_member(block, object, &self.known) {
                    ends_of(block)
                } else {
                    None
                }
            }
            None => None,
        }
    }

    /// The ends of the block of which an object is a member, whose owner may stand somewhere.
    #[tactic(auto, using(crate::proofs::StepTables::home_placed))]
    pub(crate) fn home_ends(&self, object: &Object<'_>, owner: Option<usize>) -> Option<BlockEnds>
        requires owner { owner ≡ owner_place self.now (spaces self.now) (value_of object.now) }
        ensures { option_map end_handles result ≡ home_ends self.now (value_of object.now) }
    {
        match owner {
            Some(place) => self.ends_at(object, place),
            None => None,
        }
    }

    /// Whether an object is the last of its block.
    #[tactic(auto, unfolding(crate::specs::Drawn::is_last))]
    fn is_last(&self, object: &Object<'_>, owner: Option<usize>) -> bool
        requires owner { owner ≡ owner_place self.now (spaces self.now) (value_of object.now) }
        ensures { result ≡ is_last self.now (value_of object.now) }
    {
        match self.home_ends(object, owner) {
            Some(ends) => object.handle() == ends.last,
            None => false,
        }
    }

    /// For each object whether it is the last of its block. Err: out of memory.
    #[tactic(auto, using(crate::proofs::StepTables::reported_at, dwg_graph::proofs::Counting::value_there))]
    fn lasts(&self, alloc: Global, owners: &[Option<usize>]) -> Result<Vec<bool>, NoMemory>
        requires owners { owners.now ≡ owner_table self.now (spaces self.now) }
        ensures { IfOk result (λ marks. marks.items ≡ map (is_last self.now) self.now) }
    {
        let mut marks = Vec::new(alloc);
        'objects: for (place, object) in self.objects.iter().enumerate() {
            marks.push(self.is_last(object, owners[place]))?;
        }
        Ok(marks)
    }

    /// How many owners lead from each object to a root. Err: out of memory.
    #[tactic(auto, using(dwg_graph::proofs::PlacedPaths::owners_fit, crate::proofs::StepTables::owners_reported))]
    fn steps_up(
        &self,
        alloc: Global,
        owners: &[Option<usize>],
    ) -> Result<Vec<Option<usize>>, NoMemory>
        requires owners { owners.now ≡ owner_table self.now (spaces self.now) }
        ensures { IfOk result (λ steps. steps.items ≡ map (rank_of self.now) self.now) }
    {
        // By the invariant, which a use of a field brings in, the handles of the objects ascend.
        let _ = &self.objects;
        let roots = self.roots(alloc)?;
        ranks(alloc, owners, &roots)
    }

    /// How many steps are left from each object to the last of its block. Err: out of memory.
    #[tactic(auto, using(crate::proofs::StepTables::next_fit))]
    fn steps_left(
        &self,
        alloc: Global,
        owners: &[Option<usize>],
    ) -> Result<Vec<Option<usize>>, NoMemory>
        requires owners { owners.now ≡ owner_table self.now (spaces self.now) }
        ensures { IfOk result (λ steps. steps.items ≡ map (left_of self.now) self.now) }
    {
        // By the invariant, which a use of a field brings in, the handles of the objects ascend.
        let _ = &self.objects;
        let next = self.next(alloc)?;
        let lasts = self.lasts(alloc, owners)?;
        let steps = ranks(alloc, &next, &lasts)?;
        Ok(steps)
    }

    /// What is known of all objects. Err: out of memory.
    pub(crate) fn tables(&self, alloc: Global) -> Result<Tables, NoMemory>
        ensures { IfOk result (λ tables. AreTables self.now tables.owners.items tables.ranks.items tables.left.items) }
    {
        let owners = self.owners(alloc)?;
        let ranks = self.steps_up(alloc, &owners)?;
        let left = self.steps_left(alloc, &owners)?;
        Ok(Tables {
            owners,
            ranks,
            left,
        })
    }
}
