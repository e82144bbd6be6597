//! Which homes have a chain of their members, from a first to a last.

ghost use Rattle.std.specs.Prelude.{◌≡◌, ◌↔◌, ◌<◌, ℕ, true, false, length, Some, IsTrue, IfOk};
ghost use Rattle.dwg_chains.specs.Tables.{leads, marked, lives_at, ends_at, AreWithin, HasChainAt};
ghost use Rattle.dwg_chains.specs.ChainMarks.{AreSeen, IsJudged};

use crate::places::{ends_at, is_at, is_marked, leads, lives_at, no_marks, set_mark};
use crate::tables::ChainEnds;
use dwg_base::NoMemory;
use std::alloc::Global;

/// Whether a place is a member of a home that wasn't seen yet.
fn is_new(homes: &[Option<usize>], home: usize, place: usize, seen: &[bool]) -> bool
    ensures { IsTrue result
        ↔ (lives_at homes.now home place ≡ true) × (marked seen.now place ≡ false) }
{
    if !lives_at(homes, home, place) {
        return false;
    }
    !is_marked(seen, place)
}

/// Walks from the first of a home's members to the last, and marks the places on the way. Whether it comes there over members
/// alone, each of them once.
fn follow(
    homes: &[Option<usize>],
    next: &[Option<usize>],
    home: usize,
    ends: &ChainEnds,
    seen: &mut Vec<bool>,
) -> bool
    requires places { length seen.old.items ≡ length homes.now }
    requires unseen { (place : ℕ) → lives_at homes.now home place ≡ true → marked seen.old.items place ≡ false }
    ensures places { length seen.new.items ≡ length seen.old.items }
    ensures others { (place : ℕ) → lives_at homes.now home place ≡ false → marked seen.new.items place ≡ marked seen.old.items place }
    ensures judged { IsJudged homes.now next.now seen.new.items home (Some ends.now) result }
{
    let mut at = match ends.first {
        Some(first) => first,
        None => return false,
    };
    'members: while is_new(homes, home, at, seen) {
        set_mark(seen, at, true);
        if is_at(ends.last, at) {
            return true;
        }
        at = match leads(next, at) {
            Some(further) => further,
            None => return false,
        };
    }
    false
}

/// Whether a home has a chain, if all its members are marked afterwards. A home without ends is one without members.
fn judge(
    homes: &[Option<usize>],
    next: &[Option<usize>],
    home: usize,
    ends: Option<ChainEnds>,
    seen: &mut Vec<bool>,
) -> bool
    requires places { length seen.old.items ≡ length homes.now }
    requires unseen { (place : ℕ) → lives_at homes.now home place ≡ true → marked seen.old.items place ≡ false }
    ensures places { length seen.new.items ≡ length seen.old.items }
    ensures others { (place : ℕ) → lives_at homes.now home place ≡ false → marked seen.new.items place ≡ marked seen.old.items place }
    ensures judged { IsJudged homes.now next.now seen.new.items home ends result }
{
    match ends {
        Some(those) => follow(homes, next, home, &those, seen),
        None => true,
    }
}

/// Judges each home.
fn judge_all(
    homes: &[Option<usize>],
    next: &[Option<usize>],
    ends: &[Option<ChainEnds>],
    seen: &mut Vec<bool>,
    verdicts: &mut Vec<bool>,
)
    requires seen_places { length seen.old.items ≡ length homes.now }
    requires verdict_places { length verdicts.old.items ≡ length homes.now }
    requires unseen { (place : ℕ) → marked seen.old.items place ≡ false }
    ensures seen_places { length seen.new.items ≡ length homes.now }
    ensures verdict_places { length verdicts.new.items ≡ length homes.now }
    ensures judged { (home : ℕ) → home < length homes.now → IsJudged homes.now next.now seen.new.items home (ends_at ends.now home) (marked verdicts.new.items home) }
{
    'homes: for home in 0..homes.len() {
        let verdict = judge(homes, next, home, ends_at(ends, home), seen);
        set_mark(verdicts, home, verdict);
    }
}

/// Takes the mark away from the home of a place that wasn't seen.
fn drop_unseen(homes: &[Option<usize>], seen: &[bool], place: usize, verdicts: &mut Vec<bool>)
    requires within { AreWithin (length homes.now) homes.now }
    requires places { length verdicts.old.items ≡ length homes.now }
    ensures places { length verdicts.new.items ≡ length verdicts.old.items }
    ensures seen { (home : ℕ) → IsTrue (marked verdicts.new.items home) ↔ (IsTrue (marked verdicts.old.items home) × (lives_at homes.now home place ≡ true → marked seen.now place ≡ true)) }
{
    if is_marked(seen, place) {
        return;
    }
    match leads(homes, place) {
        Some(home) => set_mark(verdicts, home, false),
        None => {}
    }
}

/// Takes the mark away from each home with a member that wasn't seen.
fn drop_all_unseen(homes: &[Option<usize>], seen: &[bool], verdicts: &mut Vec<bool>)
    requires within { AreWithin (length homes.now) homes.now }
    requires places { length verdicts.old.items ≡ length homes.now }
    ensures places { length verdicts.new.items ≡ length verdicts.old.items }
    ensures seen { (home : ℕ) → IsTrue (marked verdicts.new.items home) ↔ (IsTrue (marked verdicts.old.items home) × AreSeen homes.now seen.now home) }
{
    'homes: for place in 0..homes.len() {
        drop_unseen(homes, seen, place, verdicts);
    }
}

/// For each home whether its members have a chain: a list that begins with the first that `ends` gives and ends with the last,
/// in which each member stands once and nothing else, and each but the last leads to the next. A home without ends has one
/// where it has no member.
///
/// Each place is seen once, so the work is linear in the length of the tables. Err: out of memory.
pub fn chains(
    alloc: Global,
    homes: &[Option<usize>],
    next: &[Option<usize>],
    ends: &[Option<ChainEnds>],
) -> Result<Vec<bool>, NoMemory>
    requires homes_within { AreWithin (length homes.now) homes.now }
    ensures places { IfOk result (λ chains. length chains.items ≡ length homes.now) }
    ensures chains { IfOk result (λ chains. (home : ℕ) → home < length homes.now → (IsTrue (marked chains.items home) ↔ HasChainAt homes.now next.now home (ends_at ends.now home))) }
{
    let mut seen = no_marks(alloc, homes.len())?;
    let mut verdicts = no_marks(alloc, homes.len())?;
    judge_all(homes, next, ends, &mut seen, &mut verdicts);
    drop_all_unseen(homes, &seen, &mut verdicts);
    Ok(verdicts)
}
