//! The rank of each place: how many steps lead from it to the first goal on its way.

ghost use Rattle.std.specs.Prelude.{◌≡◌, ◌+◌, ◌<◌, ℕ, true, length, Some, IfOk, IfSome, IfNone};
ghost use Rattle.std.specs.List.{slice_set};
ghost use Rattle.dwg_chains.specs.Paths.{HasRank};
ghost use Rattle.dwg_chains.specs.Tables.{leads, marked, AreWithin, RankIs};
ghost use Rattle.dwg_chains.specs.Marks.{count_unmarked};
ghost use Rattle.dwg_chains.specs.RankMarks.{AreKnown};

use crate::places::{is_marked, leads, no_marks, no_numbers, set_mark};
use dwg_base::NoMemory;
use std::alloc::Global;

/// What is known so far. A place that was seen and has no rank has none, but for the places of the present walk.
#[derive(Drop)]
struct Known {
    /// Which places were walked over.
    seen: Vec<bool>,
    /// The ranks that were found.
    ranks: Vec<Option<usize>>,
}

/// A walk that came to a goal, or to a place with a rank.
#[derive(Clone, Copy, Drop)]
struct Way {
    /// How many places it saw for the first time.
    places: usize,
    /// The rank of the place where it began.
    rank: usize,
}

/// Walks up from a place over places that weren't seen, and marks them. `None` where the walk comes to no rank: where it leads
/// nowhere, to a place that has none, or back to itself.
fn walk(
    up: &[Option<usize>],
    goals: &[bool],
    ranks: &[Option<usize>],
    start: usize,
    seen: &mut Vec<bool>,
) -> Option<Way>
    requires within { AreWithin (length up.now) up.now }
    requires start { start < length up.now }
    requires places { length seen.old.items ≡ length up.now }
    requires known { AreKnown up.now goals.now seen.old.items ranks.now 0 0 }
    ensures places { length seen.new.items ≡ length seen.old.items }
    ensures seen { marked seen.new.items start ≡ true }
    ensures kept { (place : ℕ) → marked seen.old.items place ≡ true → marked seen.new.items place ≡ true }
    ensures pathless { IfNone result (AreKnown up.now goals.now seen.new.items ranks.now 0 0) }
    ensures known { IfSome result (λ way. AreKnown up.now goals.now seen.new.items ranks.now start way.places) }
    ensures rank { IfSome result (λ way. HasRank (leads up.now) (marked goals.now) start way.rank) }
    ensures small { IfSome result (λ way. way.rank + count_unmarked seen.new.items < length seen.new.items) }
{
    let mut at = start;
    let mut count = 0usize;
    'places: while !is_marked(seen, at) {
        set_mark(seen, at, true);
        if is_marked(goals, at) {
            return Some(Way {
                places: count + 1,
                rank: count,
            });
        }
        at = match leads(up, at) {
            Some(next) => next,
            None => return None,
        };
        count += 1;
    }
    match leads(ranks, at) {
        Some(rank) => Some(Way {
            places: count,
            rank: count + rank,
        }),
        None => None,
    }
}

/// Gives a place its rank.
fn set_rank(ranks: &mut Vec<Option<usize>>, place: usize, rank: usize)
    requires { place < length ranks.old.items }
    ensures { ranks.new.items ≡ slice_set ranks.old.items place (Some rank) }
{
    ranks[place] = Some(rank);
}

/// Gives the places of a way their ranks.
fn give_ranks(up: &[Option<usize>], goals: &[bool], start: usize, way: &Way, known: &mut Known)
    requires within { AreWithin (length up.now) up.now }
    requires start { start < length up.now }
    requires places { length known.old.ranks.items ≡ length up.now }
    requires known { AreKnown up.now goals.now known.old.seen.items known.old.ranks.items start way.now.places }
    requires rank { HasRank (leads up.now) (marked goals.now) start way.now.rank }
    requires small { way.now.rank + count_unmarked known.old.seen.items < length known.old.seen.items }
    ensures places { length known.new.ranks.items ≡ length known.old.ranks.items }
    ensures seen { known.new.seen.items ≡ known.old.seen.items }
    ensures known { AreKnown up.now goals.now known.new.seen.items known.new.ranks.items 0 0 }
{
    let mut at = start;
    let mut rank = way.rank;
    'places: for _ in 0..way.places {
        set_rank(&mut known.ranks, at, rank);
        if is_marked(goals, at) {
            return;
        }
        at = match leads(up, at) {
            Some(next) => next,
            None => return,
        };
        rank -= 1;
    }
}

/// Finds the rank of a place and of the places on its way.
fn settle(up: &[Option<usize>], goals: &[bool], place: usize, known: &mut Known)
    requires within { AreWithin (length up.now) up.now }
    requires place { place < length up.now }
    requires seen_places { length known.old.seen.items ≡ length up.now }
    requires rank_places { length known.old.ranks.items ≡ length up.now }
    requires known { AreKnown up.now goals.now known.old.seen.items known.old.ranks.items 0 0 }
    ensures seen_places { length known.new.seen.items ≡ length known.old.seen.items }
    ensures rank_places { length known.new.ranks.items ≡ length known.old.ranks.items }
    ensures seen { marked known.new.seen.items place ≡ true }
    ensures kept { (other : ℕ) → marked known.old.seen.items other ≡ true → marked known.new.seen.items other ≡ true }
    ensures known { AreKnown up.now goals.now known.new.seen.items known.new.ranks.items 0 0 }
{
    match walk(up, goals, &known.ranks, place, &mut known.seen) {
        Some(way) => give_ranks(up, goals, place, &way, known),
        None => {}
    }
}

/// The rank of each place: how many steps lead from it to the first goal on its way, or `None` where no steps do.
///
/// Each place is walked over twice at most, so the work is linear in the length of the table. Err: out of memory.
pub fn ranks(
    alloc: Global,
    up: &[Option<usize>],
    goals: &[bool],
) -> Result<Vec<Option<usize>>, NoMemory>
    requires same { length goals.now ≡ length up.now }
    requires within { AreWithin (length up.now) up.now }
    ensures places { IfOk result (λ ranks. length ranks.items ≡ length up.now) }
    ensures ranks { IfOk result (λ ranks. (place : ℕ) → place < length up.now → RankIs up.now goals.now place (leads ranks.items place)) }
{
    let mut known = Known {
        seen: no_marks(alloc, up.len())?,
        ranks: no_numbers(alloc, up.len())?,
    };
    'places: for place in 0..up.len() {
        settle(up, goals, place, &mut known);
    }
    Ok(known.ranks)
}
