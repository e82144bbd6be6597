//! Reading and marking tables of places.

ghost use Rattle.std.specs.Prelude.{◌≡◌, ◌<◌, ℕ, false, length, Some, None, IfOk};
ghost use Rattle.std.specs.List.{slice_set};
ghost use Rattle.dwg_chains.specs.Tables.{leads, marked, is_at, lives_at, ends_at};

use crate::tables::ChainEnds;
use dwg_base::NoMemory;
use std::alloc::Global;

/// Where a place leads, or what number a place has; `None` after the end of the table.
pub(crate) fn leads(table: &[Option<usize>], place: usize) -> Option<usize>
    ensures { result ≡ leads table.now place }
{
    match table.get(place) {
        Some(to) => *to,
        None => None,
    }
}

/// Whether a place is marked; one after the end of the table isn't.
pub(crate) fn is_marked(table: &[bool], place: usize) -> bool
    ensures { result ≡ marked table.now place }
{
    match table.get(place) {
        Some(mark) => *mark,
        None => false,
    }
}

/// Marks a place, or takes its mark away.
pub(crate) fn set_mark(table: &mut Vec<bool>, place: usize, mark: bool)
    requires { place < length table.old.items }
    ensures { table.new.items ≡ slice_set table.old.items place mark }
{
    table[place] = mark;
}

/// A table of so many places without marks. Err: out of memory.
pub(crate) fn no_marks(alloc: Global, count: usize) -> Result<Vec<bool>, NoMemory>
    ensures places { IfOk result (λ table. length table.items ≡ count) }
    ensures unmarked { IfOk result (λ table. (place : ℕ) → marked table.items place ≡ false) }
{
    let table = vec![in alloc; false; count]?;
    Ok(table)
}

/// A table of so many places without numbers. Err: out of memory.
pub(crate) fn no_numbers(alloc: Global, count: usize) -> Result<Vec<Option<usize>>, NoMemory>
    ensures places { IfOk result (λ table. length table.items ≡ count) }
    ensures empty { IfOk result (λ table. (place : ℕ) → leads table.items place ≡ None) }
{
    let table = vec![in alloc; None; count]?;
    Ok(table)
}

/// Whether a place is a member of a home.
pub(crate) fn lives_at(homes: &[Option<usize>], home: usize, place: usize) -> bool
    ensures { result ≡ lives_at homes.now home place }
{
    is_at(leads(homes, place), home)
}

/// Whether a place is that one.
pub(crate) fn is_at(at: Option<usize>, place: usize) -> bool
    ensures { result ≡ is_at at place }
{
    match at {
        Some(that) => that == place,
        None => false,
    }
}

/// The ends that a table gives for a home.
pub(crate) fn ends_at(table: &[Option<ChainEnds>], home: usize) -> Option<ChainEnds>
    ensures { result ≡ ends_at table.now home }
{
    match table.get(home) {
        Some(ends) => *ends,
        None => None,
    }
}
