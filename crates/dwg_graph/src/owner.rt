//! Who owns an object, and what follows it in a block.

ghost use Rattle.std.specs.Prelude.{◌≡◌, [], length, map};
ghost use Rattle.std.specs.List.{cons_option};
ghost use Rattle.dwg_chains.specs.Paths.{first_of};
ghost use Rattle.dwg_graph.specs.Owners.{block_controls, common_next, common_owner, entity_owner, handle_after, model_space, next_of, owner_of, paper_space, spaces, reported_spaces};
ghost use Rattle.dwg_object.specs.Objects.{value_of};

use dwg_base::Handle;
use dwg_common::EntityCommon;
use dwg_object::{Body, Common, Object};

/// The table of blocks of a drawing, and its two spaces.
#[derive(Clone, Copy, Debug, PartialEq, Eq)]
pub struct SpaceHandles {
    /// The table of blocks.
    pub control: Handle,
    /// The model space.
    pub model: Handle,
    /// The paper space.
    pub paper: Handle,
}

/// The handle after another, null where there is none.
fn handle_after(handle: Handle) -> Handle
    ensures { result ≡ handle_after handle }
{
    match Handle::new(handle.value() + 1) {
        Some(next) => next,
        None => Handle::NULL,
    }
}

/// The model space, null where there is none.
fn model(spaces: Option<SpaceHandles>) -> Handle
    ensures { result ≡ model_space spaces }
{
    match spaces {
        Some(known) => known.model,
        None => Handle::NULL,
    }
}

/// The paper space, null where there is none.
fn paper(spaces: Option<SpaceHandles>) -> Handle
    ensures { result ≡ paper_space spaces }
{
    match spaces {
        Some(known) => known.paper,
        None => Handle::NULL,
    }
}

/// The owner of an entity: the one that it names, by mode 2 the model space, by mode 1 the paper space.
#[tactic(auto, unfolding(crate::specs::Owners::entity_owner))]
fn owner_of_entity(common: &EntityCommon, spaces: Option<SpaceHandles>) -> Handle
    ensures { result ≡ entity_owner spaces common.now }
{
    if let Some(owner) = common.owner {
        return owner.target;
    }
    match common.mode {
        2 => model(spaces),
        1 => paper(spaces),
        _ => Handle::NULL,
    }
}

/// The owner by a common part.
#[tactic(auto, unfolding(crate::specs::Owners::common_owner))]
fn owner_by(common: &Common, spaces: Option<SpaceHandles>) -> Handle
    ensures { result ≡ common_owner spaces common.now }
{
    match common {
        Common::Entity(common) => owner_of_entity(common, spaces),
        Common::Object(common) => common.owner.target,
    }
}

/// The owner of an object (Open Design Specification, "Common entity data"): the one that it names, and of an entity of the model or
/// the paper space that space, null where the drawing has no sole table of blocks. A Raw object names none, which is null too.
#[tactic(auto, unfolding(crate::specs::Owners::owner_of))]
pub fn owner_of(object: &Object<'_>, spaces: Option<SpaceHandles>) -> Handle
    ensures { result ≡ owner_of spaces (value_of object.now) }
{
    match object {
        Object::Typed(typed) => owner_by(&typed.common, spaces),
        Object::Plain(plain) => owner_by(&plain.common, spaces),
        Object::Raw(_) => Handle::NULL,
    }
}

/// What follows the object of a handle in a block, by its common part.
#[tactic(auto, unfolding(crate::specs::Owners::common_next))]
fn next_by(handle: Handle, common: &Common) -> Handle
    ensures { result ≡ common_next handle common.now }
{
    match common {
        Common::Entity(common) => match common.links {
            Some(links) => links.next.target,
            None => handle_after(handle),
        },
        Common::Object(_) => handle_after(handle),
    }
}

/// What follows an object in a block (Open Design Specification, "Common entity data"): the entity that its links name, and without
/// links the object of the handle after its own, null where there is no such handle.
#[tactic(auto, unfolding(crate::specs::Owners::next_of))]
pub fn next_of(object: &Object<'_>) -> Handle
    ensures { result ≡ next_of (value_of object.now) }
{
    match object {
        Object::Typed(typed) => next_by(typed.handle, &typed.common),
        Object::Plain(plain) => next_by(plain.handle, &plain.common),
        Object::Raw(raw) => handle_after(raw.handle),
    }
}

/// The spaces that an object reports, which is a Typed table of blocks.
fn spaces_in(object: &Object<'_>) -> Option<SpaceHandles>
    ensures { result ≡ reported_spaces (value_of object.now) }
{
    match object {
        Object::Typed(typed) => match &typed.body {
            Body::BlockControl(body) => Some(SpaceHandles {
                control: typed.handle,
                model: body.model.target,
                paper: body.paper.target,
            }),
            _ => None,
        },
        _ => None,
    }
}

/// One where something is reported, and nothing else.
fn one_if(reported: Option<SpaceHandles>) -> u64
    ensures { result ≡ length (cons_option reported []) }
{
    match reported {
        Some(_) => 1,
        None => 0,
    }
}

/// How many Typed tables of blocks there are among objects.
#[tactic(auto, unfolding(crate::specs::Owners::block_controls), using(crate::proofs::SoleSpaces::one_more))]
pub fn control_count(objects: &[Object<'_>]) -> u64
    ensures { result ≡ length (block_controls (map value_of objects.now)) }
{
    let mut count: u64 = 0;
    'objects: for object in objects {
        count += one_if(spaces_in(object));
    }
    count
}

/// The spaces that the first Typed table of blocks among objects reports.
#[tactic(auto, unfolding(crate::specs::Owners::block_controls))]
fn first_spaces(objects: &[Object<'_>]) -> Option<SpaceHandles>
    ensures { result ≡ first_of (block_controls (map value_of objects.now)) }
{
    'objects: for object in objects {
        if let Some(reported) = spaces_in(object) {
            return Some(reported);
        }
    }
    None
}

/// The spaces of a drawing: those of its table of blocks, `None` exactly where there isn't exactly one that is Typed.
#[tactic(auto, unfolding(crate::specs::Owners::spaces), using(crate::proofs::SoleSpaces::sole_is_first))]
pub fn spaces(objects: &[Object<'_>]) -> Option<SpaceHandles>
    ensures { result ≡ spaces (map value_of objects.now) }
{
    if control_count(objects) == 1 {
        first_spaces(objects)
    } else {
        None
    }
}
