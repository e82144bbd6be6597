//! Whether a reference meets its need.

ghost use Rattle.std.specs.Prelude.{◌≡◌, map, IsTrue};
ghost use Rattle.dwg_graph.specs.Placed.{place_in};
ghost use Rattle.dwg_graph.specs.Places.{handles_of};
ghost use Rattle.dwg_graph.specs.Tests.{is_met};
ghost use Rattle.dwg_kinds.specs.Needs.{has_field};
ghost use Rattle.dwg_object.specs.Objects.{kind_of, value_of};

use dwg_graph::{Slot, is_met as is_met_by_kind};
use dwg_object::Object;

/// Whether a reference of an object meets its need, by where its target stands.
#[tactic(auto, unfolding(dwg_graph::specs::Tests::is_met))]
pub(crate) fn is_met(
    objects: &[Object<'_>],
    holder: &Object<'_>,
    slot: &Slot,
    target: Option<usize>,
) -> bool
    requires target { target ≡ place_in (handles_of (map value_of objects.now)) slot.now.target }
    requires held { IsTrue (has_field slot.now.field (kind_of (value_of holder.now))) }
    ensures { result ≡ is_met (map value_of objects.now) (value_of holder.now) slot.now }
{
    is_met_by_kind(objects, holder.kind(), slot, target)
}
