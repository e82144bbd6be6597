//! The pairs of a map that were read so far, with a set of their handles from where they cease to ascend.

ghost use Rattle.std.specs.Prelude.{◌≡◌, ℕ, [], ◌∷◌, ◌++◌, ◌||◌, ◌&&◌, not, nat_eq, nat_lt, is_some, IfOk, OnOk, IfSome};
ghost use Rattle.std.specs.Ordering.{nat_cmp};
ghost use Rattle.std.specs.BTreeSet as set;
ghost use Rattle.dwg_objmap.specs.DistinctPairs.{HasHandles, Knows};

use crate::pair::Pair;
use dwg_base::{Items, NoMemory};
use std::alloc::Global;
use std::collections::BTreeSet;
use std::marker::Model;

/// Pairs in the order in which they were read, no two with the same handle.
#[derive(Drop)]
pub struct DistinctPairs {
    pairs: Items<Pair>,
    /// The highest handle of the pairs while they ascend; 0 where there are none.
    highest: u64,
    /// Whether each handle was above all before it, so that no set is needed yet.
    ascending: bool,
    /// No handle while they ascend, else those of all pairs.
    handles: BTreeSet<u64>,
}

impl Model for DistinctPairs {
    ghost use Rattle.std.specs.Prelude.{List};
    ghost use Rattle.dwg_objmap.specs.declared.pair.Pair.{Pair};

    ghost Value = { List Pair };

    ghost use Rattle.dwg_objmap.specs.DistinctPairs.{Knows};

    ghost view = { λ gathered. gathered.pairs };

    ghost invariant = { λ gathered. Knows gathered.ascending gathered.highest gathered.handles gathered.pairs };
}

/// Puts a handle into the set, and says whether it is new there. Err: out of memory.
fn insert(handles: &mut BTreeSet<u64>, handle: u64) -> Result<bool, NoMemory>
    ensures new { IfOk result (λ new. new ≡ not (set.contains nat_cmp handles.old handle)) }
    ensures more { OnOk result ((other : ℕ) → set.contains nat_cmp handles.new other ≡ (nat_eq handle other || set.contains nat_cmp handles.old other)) }
{
    let new = handles.insert(handle)?;
    Ok(new)
}

/// The set, which has no handle yet, with those of the pairs. Err: out of memory.
fn filled(handles: BTreeSet<u64>, pairs: &[Pair]) -> Result<BTreeSet<u64>, NoMemory>
    requires none { HasHandles handles [] }
    ensures all { IfOk result (λ all. HasHandles all pairs.now) }
{
    let mut handles = handles;
    'pairs: for pair in pairs {
        let _new = insert(&mut handles, pair.handle.value())?;
    }
    Ok(handles)
}

/// The set with the handles of all pairs, whether they ascended so far or not. Err: out of memory.
fn all_handles(
    ascending: bool,
    highest: u64,
    handles: BTreeSet<u64>,
    pairs: &[Pair],
) -> Result<BTreeSet<u64>, NoMemory>
    requires known { Knows ascending highest handles pairs.now }
    ensures all { IfOk result (λ all. HasHandles all pairs.now) }
{
    if ascending {
        return filled(handles, pairs);
    }
    Ok(handles)
}

/// Whether the pairs ascended so far and still do with this handle after them.
fn ascends_with(ascending: bool, highest: u64, handle: u64) -> bool
    ensures { result ≡ (ascending && nat_lt highest handle) }
{
    ascending && handle > highest
}

impl DistinctPairs {
    ghost use Rattle.dwg_objmap.specs.MapLines.{has_handle};

    /// No pairs, which takes no memory yet.
    pub fn new(alloc: Global) -> DistinctPairs
        ensures { result ≡ [] }
    {
        DistinctPairs {
            pairs: Items::new(alloc),
            highest: 0,
            ascending: true,
            handles: BTreeSet::new(alloc),
        }
    }

    /// The pairs and one more after them. None exactly where one of them has its handle. Err: out of memory.
    pub fn with_pair(self, pair: &Pair) -> Result<Option<DistinctPairs>, NoMemory>
        ensures new { IfOk result (λ added. is_some added ≡ not (has_handle self pair.now.handle)) }
        ensures added { IfOk result (λ added. IfSome added (λ more. more ≡ self ++ pair.now ∷ [])) }
    {
        let DistinctPairs {
            mut pairs,
            highest,
            ascending,
            handles,
        } = self;
        let handle = pair.handle.value();
        if ascends_with(ascending, highest, handle) {
            pairs.try_push(*pair)?;
            return Ok(Some(DistinctPairs {
                pairs,
                highest: handle,
                ascending: true,
                handles,
            }));
        }
        let mut handles = all_handles(ascending, highest, handles, pairs.as_slice())?;
        if !insert(&mut handles, handle)? {
            return Ok(None);
        }
        pairs.try_push(*pair)?;
        Ok(Some(DistinctPairs {
            pairs,
            highest,
            ascending: false,
            handles,
        }))
    }

    /// The pairs, without taking memory.
    pub fn into_pairs(self) -> Items<Pair>
        ensures { result ≡ self }
    {
        self.pairs
    }
}
