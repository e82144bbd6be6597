//! What is known of all objects before the first of them is judged.

ghost use Rattle.std.specs.Prelude.{◌≡◌, ◌<◌, ◌^◌, ◌+◌, ◌*◌, ◌↔◌, ℕ, length, map, IfOk, IsTrue};
ghost use Rattle.dwg_audit.specs.Lookups.{AreLookups, TakeAtMost};
ghost use Rattle.dwg_audit.specs.Tabled.{AreTables};
ghost use Rattle.dwg_graph.specs.Claimed.{reference_count};
ghost use Rattle.dwg_graph.specs.Owners.{spaces};
ghost use Rattle.dwg_graph.specs.Placed.{end_table, home_table, next_table, owner_table, root_table};
ghost use Rattle.dwg_graph.specs.Places.{Ascend, handles_of};
ghost use Rattle.dwg_chains.specs.Tables.{HasChainAt, RankIs, ends_at, leads, marked};
ghost use Rattle.dwg_object.specs.Objects.{value_of};

use crate::claims::count_claims;
use crate::lookups::{Lookups, look_up};
use crate::places::{end_places, homes, root_marks};
use dwg_base::NoMemory;
use dwg_chains::{chains, ranks};
use dwg_graph::{Claimed, SpaceHandles, spaces};
use dwg_object::Object;
use dwg_steps::Steps;
use std::alloc::Global;
use std::sync::ledger::Ledger;

/// What is known of all objects, each by its place.
#[derive(Drop)]
pub(crate) struct Tables {
    /// The model and the paper space.
    pub(crate) known: Option<SpaceHandles>,
    /// Where the references of each object lead.
    pub(crate) lookups: Lookups,
    /// Where the block stands of which each object is a member.
    pub(crate) homes: Vec<Option<usize>>,
    /// How many owners there are from each object to a root.
    pub(crate) ranks: Vec<Option<usize>>,
    /// Which blocks have a chain of their members.
    pub(crate) chains: Vec<bool>,
    /// How many claims there are on each object.
    pub(crate) claims: Claimed,
}

/// Which blocks have a chain of their members. Err: out of memory.
#[tactic(auto, using(dwg_graph::proofs::PlacedPaths::homes_fit))]
fn chained(
    alloc: Global,
    objects: &[Object<'_>],
    homes: &[Option<usize>],
    lookups: &Lookups,
) -> Result<Vec<bool>, NoMemory>
    requires lookups { AreLookups (map value_of objects.now) (spaces (map value_of objects.now)) lookups.now }
    requires homes { homes.now ≡ home_table (map value_of objects.now) (spaces (map value_of objects.now)) }
    ensures count { IfOk result (λ chains. length chains.items ≡ length objects.now) }
    ensures chains { IfOk result (λ chains. (home : ℕ) → home < length objects.now → IsTrue (marked chains.items home) ↔ HasChainAt (home_table (map value_of objects.now) (spaces (map value_of objects.now))) (next_table (map value_of objects.now)) home (ends_at (end_table (map value_of objects.now)) home)) }
{
    let ends = end_places(alloc, objects, &lookups.slots)?;
    chains(alloc, homes, &lookups.next, &ends)
}

/// How many owners there are from each object to a root. Err: out of memory.
#[tactic(auto, using(dwg_graph::proofs::PlacedPaths::owners_fit))]
fn ranked(
    alloc: Global,
    objects: &[Object<'_>],
    known: &Option<SpaceHandles>,
    lookups: &Lookups,
) -> Result<Vec<Option<usize>>, NoMemory>
    requires lookups { AreLookups (map value_of objects.now) known.now lookups.now }
    ensures count { IfOk result (λ ranks. length ranks.items ≡ length objects.now) }
    ensures ranks { IfOk result (λ ranks. (place : ℕ) → place < length objects.now → RankIs (owner_table (map value_of objects.now) known.now) (root_table (map value_of objects.now) known.now) place (leads ranks.items place)) }
{
    let roots = root_marks(alloc, objects, known)?;
    ranks(alloc, &lookups.owners, &roots)
}

/// All that is known of objects, by where their references lead. Err: out of memory.
fn tabulate_by(
    alloc: Global,
    objects: &[Object<'_>],
    known: Option<SpaceHandles>,
    lookups: Lookups,
) -> Result<Tables, NoMemory>
    requires ascend { Ascend (handles_of (map value_of objects.now)) }
    requires few { length objects.now + reference_count (map value_of objects.now) < 2 ^ 58 }
    requires known { known ≡ spaces (map value_of objects.now) }
    requires lookups { AreLookups (map value_of objects.now) known lookups }
    ensures { IfOk result (AreTables (map value_of objects.now)) }
{
    let homes = homes(alloc, objects, &known, &lookups.owners)?;
    // Chains take the most memory while they are found: what they don't need comes after them.
    let chains = chained(alloc, objects, &homes, &lookups)?;
    let ranks = ranked(alloc, objects, &known, &lookups)?;
    let claims = count_claims(alloc, objects, &known, &lookups.slots)?;
    Ok(Tables {
        known,
        lookups,
        homes,
        ranks,
        chains,
        claims,
    })
}

/// All that is known of objects. Each owner, each next and each slot is looked up once. Err: out of memory.
pub(crate) fn tabulate<L: Ledger>(
    alloc: Global,
    objects: &[Object<'_>],
    steps: &mut Steps<L>,
) -> Result<Tables, NoMemory>
    requires ascend { Ascend (handles_of (map value_of objects.now)) }
    requires few { length objects.now + reference_count (map value_of objects.now) < 2 ^ 58 }
    ensures tables { IfOk result (AreTables (map value_of objects.now)) }
    ensures steps { TakeAtMost (length objects.now) (2 * length objects.now + reference_count (map value_of objects.now)) steps.old steps.new }
{
    let known = spaces(objects);
    let lookups = look_up(alloc, objects, &known, steps)?;
    tabulate_by(alloc, objects, known, lookups)
}
