//! The bytes that frames took so far, for overlaps in any order.

ghost use Rattle.std.specs.Prelude.{◌≡◌, ℕ, ◌+◌, ◌-◌, ◌^◌, ◌<◌, ◌≤◌, ◌||◌, List, [], ◌++◌, Some, true, false, nat_lt, IfOk};
ghost use Rattle.std.specs.BTreeMap.{insert_entry};
ghost use Rattle.std.specs.Ordering.{nat_cmp};
ghost use Rattle.dwg_file.specs.ByteRanges.{Run, AreRuns, IsRow, IsAfter, begins_before, first_after, meets, shares};

use dwg_base::NoMemory;
use std::alloc::Global;
use std::collections::BTreeMap;
use std::marker::Model;

/// Runs of bytes. Whether further bytes share one with any run is reported in as many steps as an
/// ordered map takes, however many runs there are; a run that begins after the row is added without touching the map.
#[derive(Drop)]
pub struct ByteRanges {
    // Runs each after the one before: the last byte of each, and its first.
    row: Vec<(u64, u64)>,
    // The place after the row.
    end: u64,
    // The first byte of each other run, by its last.
    others: BTreeMap<u64, u64>,
}

impl Model for ByteRanges {
    ghost use Rattle.std.specs.Prelude.{List, ◌++◌};
    ghost use Rattle.dwg_file.specs.ByteRanges.{Run, AreRuns, IsRow};

    ghost Value = { List Run };

    ghost view = { λ taken. taken.row.items ++ taken.others.entries };

    ghost invariant = { λ taken. IsRow taken.end taken.row.items × AreRuns taken.others.entries };
}

/// The first run of a row that ends after a place.
fn first_in_row(row: &[(u64, u64)], place: u64) -> Option<(u64, u64)>
    requires { AreRuns row.now }
    ensures { result ≡ first_after place row.now }
{
    let at = row.partition_point(
        |run: &(u64, u64)| -> bool
            ensures { result ≡ nat_lt run.now.0 place }
        { run.0 < place },
    );
    if at < row.len() {
        return Some(row[at]);
    }
    None
}

/// The first run of a map that ends after a place.
fn first_in_map(runs: &BTreeMap<u64, u64>, place: u64) -> Option<(u64, u64)>
    ensures { result ≡ first_after place runs.now.entries }
{
    match runs.range(place..).next() {
        Some((last, first)) => Some((*last, *first)),
        None => None,
    }
}

/// Whether a run, where there is one, begins before the end.
fn is_begun(run: Option<(u64, u64)>, end: u64) -> bool
    ensures { result ≡ begins_before end run }
{
    match run {
        Some((_, first)) => first < end,
        None => false,
    }
}

/// Whether the bytes from a place to another share one with a row: those that begin after all of it do not.
fn row_shares(row: &[(u64, u64)], last: u64, from: u64, end: u64) -> bool
    requires { IsRow last row.now }
    ensures { result ≡ shares row.now from end }
{
    if last <= from {
        return false;
    }
    is_begun(first_in_row(row, from), end)
}

/// Whether they share one with the runs of a map.
fn map_shares(runs: &BTreeMap<u64, u64>, from: u64, end: u64) -> bool
    requires { AreRuns runs.now.entries }
    ensures { result ≡ shares runs.now.entries from end }
{
    is_begun(first_in_map(runs, from), end)
}

/// The place after the first run that ends after a place, if it begins no later; else the place itself.
fn after_run(run: Option<(u64, u64)>, place: u64) -> u64
    requires fits { (first : Run) → run ≡ Some first → first.0 < 2 ^ 64 - 1 }
    ensures { (runs : List Run) → AreRuns runs → run ≡ first_after place runs → IsAfter runs place result }
{
    match run {
        Some((last, first)) => { if first <= place { last + 1 } else { place } }
        None => place,
    }
}

/// The place after the run of a row that a byte lies in; the place of the byte itself where it lies in none.
fn after_row(row: &[(u64, u64)], last: u64, place: u64) -> u64
    requires { IsRow last row.now }
    ensures { IsAfter row.now place result }
{
    if last <= place {
        return place;
    }
    after_run(first_in_row(row, place), place)
}

/// The place after the run of a map that a byte lies in; the place of the byte itself where it lies in none.
fn after_map(runs: &BTreeMap<u64, u64>, place: u64) -> u64
    requires { AreRuns runs.now.entries }
    ensures { IsAfter runs.now.entries place result }
{
    after_run(first_in_map(runs, place), place)
}

/// A map and one run more, by its last byte. Err: out of memory.
fn with_other(
    runs: BTreeMap<u64, u64>,
    last: u64,
    first: u64,
) -> Result<BTreeMap<u64, u64>, NoMemory>
    ensures { IfOk result (λ more. more.entries ≡ insert_entry nat_cmp runs.entries last first) }
{
    let mut runs = runs;
    runs.insert(last, first)?;
    Ok(runs)
}

impl ByteRanges {
    /// No runs, which takes no memory yet.
    pub fn new(alloc: Global) -> ByteRanges
        ensures { result ≡ [] }
    {
        ByteRanges {
            row: Vec::new(alloc),
            end: 0,
            others: BTreeMap::new(alloc),
        }
    }

    /// Whether the bytes from a place to another share one with a run.
    pub fn shares(&self, from: u64, end: u64) -> bool
        ensures { result ≡ shares self.now from end }
    {
        if row_shares(self.row.as_slice(), self.end, from, end) {
            return true;
        }
        map_shares(&self.others, from, end)
    }

    /// The place after the run that a byte lies in; the place of the byte itself where it lies in none.
    pub fn after(&self, place: u64) -> u64
        // No place is left out but such as lie in a run.
        ensures after { place ≤ result }
        ensures taken { (other : ℕ) → place ≤ other → other < result → shares self.now other (other + 1) ≡ true }

        ensures free { result ≡ place → shares self.now place (place + 1) ≡ false }
    {
        let after = after_row(self.row.as_slice(), self.end, place);
        if place < after {
            return after;
        }
        after_map(&self.others, place)
    }

    /// The runs and one more, from a place to another, that shares no byte with them. Err: out of memory.
    pub fn with_run(self, from: u64, end: u64) -> Result<ByteRanges, NoMemory>
        requires some { from < end }
        requires apart { shares self from end ≡ false }
        ensures { IfOk result (λ more. (other to : ℕ) → shares more other to ≡ (shares self other to || meets other to (end - 1, from))) }
    {
        let ByteRanges {
            mut row,
            end: last,
            others,
        } = self;
        if last <= from {
            row.push((end - 1, from))?;
            return Ok(ByteRanges { row, end, others });
        }
        let others = with_other(others, end - 1, from)?;
        Ok(ByteRanges {
            row,
            end: last,
            others,
        })
    }
}
