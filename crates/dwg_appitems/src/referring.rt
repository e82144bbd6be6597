//! What items refer to, and whether it is there.

ghost use Rattle.std.specs.Prelude.{◌≡◌, ◌<◌, ◌^◌, ◌==◌, ◌&&◌, ◌||◌, ℕ, false, length, map};
ghost use Rattle.std.specs.List.{list_any, slice_get, slice_index_or};
ghost use Rattle.std.specs.Option.{option_and_then, option_map_or};
ghost use Rattle.dwg_appitems.specs.AppFindings.{is_layer, is_met, target_of};
ghost use Rattle.dwg_appitems.specs.ItemLookups.{TakeAtMost, item_references};
ghost use Rattle.dwg_graph.specs.Placed.{place_in};
ghost use Rattle.dwg_graph.specs.Places.{Ascend, handles_of};
ghost use Rattle.dwg_object.specs.Objects.{handle_of, kind_of, value_of};

use crate::item::AppItem;
use dwg_base::Handle;
use dwg_graph::Index;
use dwg_kinds::Kind;
use dwg_object::Object;
use dwg_steps::Steps;
use std::sync::ledger::Ledger;

/// The place of a handle among the handles of an index.
#[tactic(auto, using(dwg_graph::proofs::Placing::place_known))]
fn find_place<L: Ledger>(known: &Index, handle: Handle, steps: &mut Steps<L>) -> Option<usize>
    requires ascend { Ascend known.now }
    ensures place { result ≡ place_in known.now handle }
    ensures steps { TakeAtMost (length known.now) 1 steps.old steps.new }
{
    known.find(handle, steps)
}

/// No object has a handle of 2^63 or more, since the last of them has none.
fn look_at_last(objects: &[Object<'_>])
    requires ascend { Ascend (handles_of (map value_of objects.now)) }
    ensures { (i : ℕ) → i < length objects.now → slice_index_or (handles_of (map value_of objects.now)) i 0 < 2 ^ 63 }
{
    if objects.len() == 0 {
        return;
    }
    let _last = objects[objects.len() - 1].handle().value();
}

/// Where the object stands that an item names, None where none has that handle.
fn place_named<L: Ledger>(
    objects: &[Object<'_>],
    known: &Index,
    named: u64,
    steps: &mut Steps<L>,
) -> Option<usize>
    requires ascend { Ascend (handles_of (map value_of objects.now)) }
    requires known { known.now ≡ handles_of (map value_of objects.now) }
    ensures place { result ≡ place_in (handles_of (map value_of objects.now)) named }
    ensures steps { TakeAtMost (length objects.now) 1 steps.old steps.new }
{
    let Some(handle) = Handle::new(named) else {
        look_at_last(objects);
        return None;
    };
    find_place(known, handle, steps)
}

/// Whether an object stands at a place, and is of kind LAYER.
fn is_layer_at(objects: &[Object<'_>], place: Option<usize>) -> bool
    ensures { result ≡ option_map_or (λ x. is_layer (kind_of x)) (option_and_then (slice_get (map value_of objects.now)) place) false }
{
    let Some(at) = place else {
        return false;
    };
    let Some(object) = objects.get(at) else {
        return false;
    };
    match object.kind() {
        Kind::Layer => true,
        _ => false,
    }
}

/// Whether what an item refers to is there.
pub(crate) fn is_met<L: Ledger>(
    objects: &[Object<'_>],
    known: &Index,
    one: &AppItem,
    steps: &mut Steps<L>,
) -> bool
    requires ascend { Ascend (handles_of (map value_of objects.now)) }
    requires known { known.now ≡ handles_of (map value_of objects.now) }
    ensures met { result ≡ is_met (map value_of objects.now) one.now }
    ensures steps { TakeAtMost (length objects.now) (item_references one.now) steps.old steps.new }
{
    match one {
        AppItem::Layer { handle } => {
            is_layer_at(objects, place_named(objects, known, *handle, steps))
        }
        AppItem::Object { handle } => {
            if *handle == 0 {
                return true;
            }
            place_named(objects, known, *handle, steps).is_some()
        }
        _ => true,
    }
}

/// The handle that an item refers by, 0 where it refers to nothing.
pub(crate) fn target(one: &AppItem) -> u64
    ensures { result ≡ target_of one.now }
{
    match one {
        AppItem::Layer { handle } => *handle,
        AppItem::Object { handle } => *handle,
        _ => 0,
    }
}
