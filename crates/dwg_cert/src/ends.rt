//! The ends that a block has.

ghost use Rattle.std.specs.Prelude.{◌≡◌};
ghost use Rattle.std.specs.Option.{option_map};
ghost use Rattle.dwg_cert.specs.Checked.{end_handles};
ghost use Rattle.dwg_graph.specs.Graph.{ends_of, known_ends};
ghost use Rattle.dwg_object.specs.Objects.{value_of};

use dwg_base::Handle;
use dwg_object::{Body, Object};
use dwg_tables::Ends;

/// The handles of the first and the last member that a block names.
#[derive(Clone, Copy, Drop)]
pub(crate) struct BlockEnds {
    pub(crate) first: Handle,
    pub(crate) last: Handle,
}

/// The ends that a header names, none where both are null.
fn known(ends: &Ends) -> Option<BlockEnds>
    ensures { option_map end_handles result ≡ known_ends ends.now }
{
    if ends.first.target.value() == 0 && ends.last.target.value() == 0 {
        return None;
    }
    Some(BlockEnds {
        first: ends.first.target,
        last: ends.last.target,
    })
}

/// The ends of the block of an object, none of what isn't a Typed BLOCK HEADER.
#[tactic(auto, unfolding(dwg_graph::specs::Graph::ends_of))]
pub(crate) fn ends_of(object: &Object<'_>) -> Option<BlockEnds>
    ensures { option_map end_handles result ≡ ends_of (value_of object.now) }
{
    match object {
        Object::Typed(typed) => match &typed.body {
            Body::BlockHeader(body) => match &body.ends {
                Some(ends) => known(ends),
                None => None,
            },
            _ => None,
        },
        _ => None,
    }
}
