//! Needs: whether what a reference leads to is what its field asks for.

ghost use Rattle.std.specs.Prelude.{◌≡◌, IsTrue, map, false};
ghost use Rattle.std.specs.List.{slice_get};
ghost use Rattle.std.specs.Option.{option_and_then, option_map, option_map_or};
ghost use Rattle.dwg_graph.specs.Placed.{place_in};
ghost use Rattle.dwg_graph.specs.Places.{handles_of};
ghost use Rattle.dwg_graph.specs.Tests.{is_attributed, kind_at, meets};
ghost use Rattle.dwg_kinds.specs.Kinds.{is_entity_kind, same_kind};
ghost use Rattle.dwg_kinds.specs.Needs.{has_field, need_of};
ghost use Rattle.dwg_object.specs.Objects.{kind_of, value_of};

use crate::slot::Slot;
use dwg_base::Handle;
use dwg_kinds::{Kind, Need, is_entity, is_same, required};
use dwg_object::Object;

/// Whether an object was found that is an entity.
fn is_entity_there(found: Option<Kind>) -> bool
    ensures { result ≡ option_map_or is_entity_kind found false }
{
    match found {
        Some(kind) => is_entity(kind),
        None => false,
    }
}

/// Whether an object was found that is of a kind.
fn is_there(kind: Kind, found: Option<Kind>) -> bool
    ensures { result ≡ option_map_or (same_kind kind) found false }
{
    match found {
        Some(other) => is_same(kind, other),
        None => false,
    }
}

/// Whether an object was found that can have attributes or vertices.
fn is_attributed_there(found: Option<Kind>) -> bool
    ensures { result ≡ option_map_or is_attributed found false }
{
    match found {
        Some(kind) => {
            is_same(Kind::Insert, kind)
                || is_same(Kind::MInsert, kind)
                || is_same(Kind::Polyline3d, kind)
                || is_same(Kind::PlainEntity, kind)
        }
        None => false,
    }
}

/// Whether a target meets a need, where that is the kind of the object that has its handle.
#[tactic(auto, unfolding(crate::specs::Tests::meets))]
pub fn meets(need: Need, target: Handle, found: Option<Kind>) -> bool
    ensures { result ≡ meets need target found }
{
    let null = target.value() == 0;
    match need {
        Need::Null => null,
        Need::Any => found.is_some(),
        Need::NullOrAny => null || found.is_some(),
        Need::Entity => is_entity_there(found),
        Need::NullOrEntity => null || is_entity_there(found),
        Need::Is(kind) => is_there(kind, found),
        Need::NullOrIs(kind) => null || is_there(kind, found),
        Need::Attributed => is_attributed_there(found),
    }
}

/// The kind of the object that stands at a place, if any does.
fn kind_placed(objects: &[Object<'_>], place: Option<usize>) -> Option<Kind>
    ensures { result ≡ option_map kind_of (option_and_then (slice_get (map value_of objects.now)) place) }
{
    match place {
        Some(at) => match objects.get(at) {
            Some(object) => Some(object.kind()),
            None => None,
        },
        None => None,
    }
}

/// Whether a reference of a holder of that kind meets its need, by where its target stands.
#[tactic(auto, using(crate::proofs::PlacedObjects::object_placed))]
#[inline(always)]
pub fn is_met(objects: &[Object<'_>], holder: Kind, slot: &Slot, place: Option<usize>) -> bool
    requires place { place ≡ place_in (handles_of (map value_of objects.now)) slot.now.target }
    requires held { IsTrue (has_field slot.now.field holder) }
    ensures { result ≡ option_map_or (λ need. meets need slot.now.target (kind_at (map value_of objects.now) slot.now.target)) (need_of slot.now.field holder) false }
{
    let need = required(slot.field, holder);
    meets(need, slot.target, kind_placed(objects, place))
}
