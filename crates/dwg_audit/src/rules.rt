//! The rules on one object that look at no reference by itself: claim, chain and path.

ghost use Rattle.std.specs.Prelude.{◌≡◌, ◌++◌, length, map, OnOk};
ghost use Rattle.std.specs.List.{filter};
ghost use Rattle.std.specs.Option.{option_map_or};
ghost use Rattle.dwg_audit.specs.Findings.{claim_findings, chain_findings, is_chained, path_findings, unless};
ghost use Rattle.dwg_graph.specs.Counts.{by_holder};
ghost use Rattle.dwg_graph.specs.Graph.{claims, EndHandles, ends_of, owner_step, root_at};
ghost use Rattle.dwg_graph.specs.Owners.{owner_of};
ghost use Rattle.dwg_graph.specs.Placed.{home_place, owner_place};
ghost use Rattle.dwg_graph.specs.Places.{handles_of};
ghost use Rattle.dwg_object.specs.Objects.{handle_of, value_of};
ghost use Rattle.dwg_chains.specs.Ways.{has_path};

use crate::finding::{Finding, Rule};
use dwg_base::{Handle, Items, NoMemory};
use dwg_graph::{ClaimCounts, SpaceHandles, is_claimed, is_exempt, is_header, owner_of};
use dwg_object::{Body, Object};

/// Puts a finding after those that are found, unless a test holds. Err: out of memory.
pub(crate) fn push_unless(
    found: &mut Items<Finding>,
    holds: bool,
    finding: Finding,
) -> Result<(), NoMemory>
    ensures { OnOk result (found.new ≡ found.old ++ unless holds finding) }
{
    if holds {
        return Ok(());
    }
    found.try_push(finding)
}

/// Finds an object of which a claim is asked and that isn't claimed as it should be. Err: out of memory.
#[tactic(auto, unfolding(crate::specs::Findings::claim_findings))]
pub(crate) fn push_unclaimed(
    objects: &[Object<'_>],
    known: &Option<SpaceHandles>,
    object: &Object<'_>,
    home: Option<usize>,
    owner: Option<usize>,
    counts: &ClaimCounts,
    found: &mut Items<Finding>,
) -> Result<(), NoMemory>
    requires home { home ≡ home_place (map value_of objects.now) known.now (value_of object.now) }
    requires owner { owner ≡ owner_place (map value_of objects.now) known.now (value_of object.now) }
    requires all { counts.now.all ≡ length (claims (map value_of objects.now) (handle_of (value_of object.now))) }
    requires own { counts.now.own ≡ length (filter (by_holder (owner_of known.now (value_of object.now))) (claims (map value_of objects.now) (handle_of (value_of object.now)))) }
    ensures { OnOk result (found.new ≡ found.old ++ claim_findings (map value_of objects.now) known.now (value_of object.now)) }
{
    if is_exempt(objects, known, object, home) {
        return Ok(());
    }
    if is_claimed(objects, known, object, owner, counts) {
        return Ok(());
    }
    let finding = Finding {
        handle: object.handle(),
        rule: Rule::Claim,
        field: None,
        position: counts.all,
        target: owner_of(object, *known),
    };
    found.try_push(finding)
}

/// The last entity that a block names, null where it names none, or both ends are null.
#[tactic(auto, unfolding(dwg_graph::specs::Graph::ends_of), using(dwg_graph::proofs::Sufficing::last_of_ends))]
fn last_of(object: &Object<'_>) -> Handle
    ensures { result ≡ option_map_or (λ (ends : EndHandles). ends.last) (ends_of (value_of object.now)) 0 }
{
    match object {
        Object::Typed(typed) => match &typed.body {
            Body::BlockHeader(header) => match header.ends {
                Some(ends) => ends.last.target,
                None => Handle::NULL,
            },
            _ => Handle::NULL,
        },
        _ => Handle::NULL,
    }
}

/// Finds a block whose members don't stand in a chain. Err: out of memory.
#[tactic(auto, unfolding(crate::specs::Findings::chain_findings))]
pub(crate) fn push_unchained(
    objects: &[Object<'_>],
    known: &Option<SpaceHandles>,
    object: &Object<'_>,
    chained: bool,
    found: &mut Items<Finding>,
) -> Result<(), NoMemory>
    requires chained { chained ≡ is_chained (map value_of objects.now) known.now (value_of object.now) (ends_of (value_of object.now)) }
    ensures { OnOk result (found.new ≡ found.old ++ chain_findings (map value_of objects.now) known.now (value_of object.now)) }
{
    if !is_header(object) {
        return Ok(());
    }
    if chained {
        return Ok(());
    }
    let finding = Finding {
        handle: object.handle(),
        rule: Rule::Chain,
        field: None,
        position: 0,
        target: last_of(object),
    };
    found.try_push(finding)
}

/// Finds an object whose owners don't lead to a root. Err: out of memory.
#[tactic(auto, unfolding(crate::specs::Findings::path_findings))]
pub(crate) fn push_lost(
    objects: &[Object<'_>],
    known: &Option<SpaceHandles>,
    object: &Object<'_>,
    reached: bool,
    found: &mut Items<Finding>,
) -> Result<(), NoMemory>
    requires reached { reached ≡ has_path (handles_of (map value_of objects.now)) (owner_step (map value_of objects.now) known.now) (root_at (map value_of objects.now) known.now) (handle_of (value_of object.now)) }
    ensures { OnOk result (found.new ≡ found.old ++ path_findings (map value_of objects.now) known.now (value_of object.now)) }
{
    if reached {
        return Ok(());
    }
    let finding = Finding {
        handle: object.handle(),
        rule: Rule::Path,
        field: None,
        position: 0,
        target: owner_of(object, *known),
    };
    found.try_push(finding)
}
