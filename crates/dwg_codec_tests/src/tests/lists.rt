//! Lists with one item more.

use dwg_base::{Items, NoMemory, vec_with_capacity};
use std::alloc::Global;

/// A vector of 3, 5 and 8, each put after those before it.
fn three_in_vector(alloc: Global) -> Result<Vec<u64>, NoMemory> {
    let mut items = vec_with_capacity(alloc, 2)?;
    items.push(3)?;
    items.push(5)?;
    items.push(8)?;
    Ok(items)
}

/// A list of 3 and 5, each put after those before it.
fn two_in_list(alloc: Global) -> Result<Items<u64>, NoMemory> {
    let mut items = Items::new(alloc);
    items.try_push(3)?;
    items.try_push(5)?;
    Ok(items)
}

#[test]
fn an_item_more_stands_after_the_others(rt: HostRuntime) {
    let items = three_in_vector(rt.alloc()).unwrap_or(Vec::new(rt.alloc()));
    assert_eq!(rt; items.as_slice(), [3, 5, 8].as_slice());
    let items = two_in_list(rt.alloc()).unwrap_or(Items::new(rt.alloc()));
    assert_eq!(rt; items.as_slice(), [3, 5].as_slice());
}
