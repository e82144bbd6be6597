//! Short lists.

ghost use Rattle.std.specs.Prelude.{◌≡◌, [], ◌∷◌, IfOk};

use dwg_base::{ByteRun, Items, NoMemory};
use std::alloc::Global;

/// No bytes, which take no memory.
pub(crate) fn no_bytes(alloc: Global) -> ByteRun
    ensures { result ≡ [] }
{
    ByteRun::from_vec(Vec::new(alloc))
}

/// The list of one item. Err: out of memory.
pub(crate) fn one<T: Drop>(alloc: Global, item: T) -> Result<Items<T>, NoMemory>
    ensures { IfOk result (λ list. list ≡ item ∷ []) }
{
    let mut list = Items::new(alloc);
    list.try_push(item)?;
    Ok(list)
}
