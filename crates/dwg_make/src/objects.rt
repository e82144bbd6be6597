//! Objects by what they have of their own: their common parts.

ghost use Rattle.std.specs.Prelude.{◌≡◌, ◌^◌, ◌<◌, Some};
ghost use Rattle.dwg_object.specs.Objects.{value_of};
ghost use Rattle.dwg_make.specs.Parts.{owned_by, other_object, links, entity_common, model_entity, paper_entity, owned_entity};

use crate::references::{ONE, handle, hard_owner, hard_pointer, soft_pointer};
use dwg_base::Items;
use dwg_common::{EntityCommon, Links, ObjectCommon};
use dwg_handles::Ref;
use dwg_object::{Body, Common, Object, Typed};
use std::alloc::Global;

/// The layer that most entities lie on.
const FIRST_LAYER: u64 = 0x10;

/// The common part of an object that isn't an entity, by its owner.
fn owned_by(alloc: Global, owner: u64) -> ObjectCommon
    requires { owner < 2 ^ 63 }
    ensures { result ≡ owned_by owner }
{
    ObjectCommon {
        app: Items::new(alloc),
        reactors: Items::new(alloc),
        owner: soft_pointer(owner),
        xdict: hard_owner(0),
    }
}

/// An object that isn't an entity, by its type number, handle, owner and body.
pub(crate) fn other_object(
    alloc: Global,
    number: u16,
    own: u64,
    owner: u64,
    body: Body,
) -> Object<'static>
    requires own { own < 2 ^ 63 }
    requires owner { owner < 2 ^ 63 }
    ensures { value_of result ≡ other_object number own owner body }
{
    Object::Typed(Typed {
        number,
        handle: handle(own),
        common: Common::Object(owned_by(alloc, owner)),
        body,
    })
}

/// The entities before and after an entity.
pub(crate) fn links(previous: u64, next: u64) -> Links
    requires previous { previous < 2 ^ 63 }
    requires next { next < 2 ^ 63 }
    ensures { result ≡ links previous next }
{
    Links {
        previous: soft_pointer(previous),
        next: soft_pointer(next),
    }
}

/// The common part of an entity, by its mode, owner, links and layer.
fn entity_common(
    alloc: Global,
    mode: u8,
    owner: Option<Ref>,
    links: Option<Links>,
    layer: u64,
) -> EntityCommon
    requires { layer < 2 ^ 63 }
    ensures { result ≡ entity_common mode owner links layer }
{
    EntityCommon {
        app: Items::new(alloc),
        graphic: None,
        mode,
        owner,
        reactors: Items::new(alloc),
        xdict: hard_owner(0),
        links,
        colour: 256,
        linetype_scale: ONE,
        linetype_flag: 0,
        linetype: None,
        plotstyle_flag: 0,
        plotstyle: None,
        invisible: 0,
        lineweight: 29,
        layer: hard_pointer(layer),
    }
}

/// An entity of the model space, by its type number, handle, links, layer and body.
pub(crate) fn model_entity(
    alloc: Global,
    number: u16,
    own: u64,
    links: Option<Links>,
    layer: u64,
    body: Body,
) -> Object<'static>
    requires own { own < 2 ^ 63 }
    requires layer { layer < 2 ^ 63 }
    ensures { value_of result ≡ model_entity number own links layer body }
{
    Object::Typed(Typed {
        number,
        handle: handle(own),
        common: Common::Entity(entity_common(alloc, 2, None, links, layer)),
        body,
    })
}

/// An entity of the paper space, by its type number, handle and body.
pub(crate) fn paper_entity(alloc: Global, number: u16, own: u64, body: Body) -> Object<'static>
    requires { own < 2 ^ 63 }
    ensures { value_of result ≡ paper_entity number own body }
{
    let between = Some(links(0, 0));
    Object::Typed(Typed {
        number,
        handle: handle(own),
        common: Common::Entity(entity_common(alloc, 1, None, between, FIRST_LAYER)),
        body,
    })
}

/// An entity that names its owner, by its type number, handle, owner, links and body.
pub(crate) fn owned_entity(
    alloc: Global,
    number: u16,
    own: u64,
    owner: u64,
    links: Links,
    body: Body,
) -> Object<'static>
    requires own { own < 2 ^ 63 }
    requires owner { owner < 2 ^ 63 }
    ensures { value_of result ≡ owned_entity number own owner links body }
{
    let owner = Some(soft_pointer(owner));
    Object::Typed(Typed {
        number,
        handle: handle(own),
        common: Common::Entity(entity_common(alloc, 0, owner, Some(links), FIRST_LAYER)),
        body,
    })
}
