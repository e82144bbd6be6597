//! Room for lists, where out of memory is a refusal of its own.

ghost use Rattle.std.specs.Prelude.{◌≡◌, ◌≤◌, [], IfOk, vec_capacity};

use crate::device::NoMemory;
use std::alloc::Global;

/// An empty list with room for so many items. Err: out of memory.
pub fn vec_with_capacity<T: Drop>(alloc: Global, count: usize) -> Result<Vec<T>, NoMemory>
    ensures empty { IfOk result (λ items. items.items ≡ []) }
    ensures room { IfOk result (λ items. count ≤ vec_capacity items) }
{
    let items = Vec::with_capacity(alloc, count)?;
    Ok(items)
}
