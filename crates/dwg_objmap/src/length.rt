//! The length of the map that is written of pairs.

ghost use Rattle.std.specs.Prelude.{◌≡◌, ◌+◌, ◌*◌, ◌^◌, ◌<◌, ◌≤◌, List, [], ◌∷◌, length};
ghost use Rattle.dwg_objmap.specs.declared.pair.Pair.{Pair};
ghost use Rattle.dwg_objmap.specs.Pairs.{IsPair};
ghost use Rattle.dwg_objmap.specs.Writing.{MOST_PAGE, Ascend, map_bytes};
ghost use Rattle.dwg_objmap.specs.MapLength.{size_added, length_after};

use crate::page_writing::{MOST_PAGE, pair_bytes};
use crate::pair::{Pair, origin};

/// What was counted of a map so far.
#[derive(Clone, Copy)]
struct Count {
    /// How many bytes the pages have that are full.
    sent: u64,
    /// How many bytes the pairs of the next page have.
    size: u64,
    /// The last pair.
    last: Pair,
}

/// How many bytes a pair has in a page whose pairs have so many.
fn size_added(size: u64, last: &Pair, pair: &Pair) -> u64
    requires last { IsPair last.now }
    requires pair { IsPair pair.now }
    requires above { last.now.handle < pair.now.handle }
    ensures size { result ≡ size_added size last.now pair.now }
    ensures few { result ≤ 20 }
{
    if size == 0 {
        return pair_bytes(&origin(), pair);
    }
    pair_bytes(last, pair)
}

/// Counts a pair.
#[tactic(auto, unfolding(crate::specs::MapLength::length_after))]
fn count_pair(count: &Count, pair: &Pair) -> Count
    requires last { IsPair count.now.last }
    requires pair { IsPair pair.now }
    requires above { count.now.last.handle < pair.now.handle }
    requires size { 2 + count.now.size ≤ MOST_PAGE }
    requires sent { count.now.sent < 2 ^ 63 }
    ensures whole { (pairs : List Pair) → result.sent + length_after result.size result.last pairs ≡ count.now.sent + length_after count.now.size count.now.last (pair.now ∷ pairs) }
    ensures last { result.last ≡ pair.now }
    ensures size { 2 + result.size ≤ MOST_PAGE }
    ensures few { result.sent + result.size ≤ count.now.sent + count.now.size + 24 }
{
    let added = size_added(count.size, &count.last, pair);
    if 2 + count.size + added <= MOST_PAGE {
        return Count {
            sent: count.sent,
            size: count.size + added,
            last: *pair,
        };
    }
    Count {
        sent: count.sent + 4 + count.size,
        size: pair_bytes(&origin(), pair),
        last: *pair,
    }
}

/// The bytes that are left to count when no pair is.
#[tactic(auto, unfolding(crate::specs::MapLength::length_after))]
fn count_end(count: &Count) -> u64
    requires size { 2 + count.now.size ≤ MOST_PAGE }
    requires sent { count.now.sent < 2 ^ 63 }
    ensures length { result ≡ count.now.sent + length_after count.now.size count.now.last [] }
    ensures within { result ≤ count.now.sent + count.now.size + 8 }
{
    if count.size == 0 {
        return count.sent + 4;
    }
    count.sent + count.size + 8
}

/// How many bytes the map of these pairs has, as a `PageWriter` writes it. It takes no memory.
pub fn map_length(pairs: &[Pair]) -> u64
    requires ascending { Ascend 0 pairs.now }
    requires few { length pairs.now < 2 ^ 58 }
    ensures length { result ≡ length (map_bytes pairs.now) }
    ensures within { result ≤ 24 * length pairs.now + 8 }
{
    let mut count = Count {
        sent: 0,
        size: 0,
        last: origin(),
    };
    'pairs: for pair in pairs {
        count = count_pair(&count, pair);
    }
    count_end(&count)
}
