//! What an object is among others: a root, a block, a member, a holder of claims.

ghost use Rattle.std.specs.Prelude.{◌≡◌, ◌==◌, map};
ghost use Rattle.std.specs.List.{list_any};
ghost use Rattle.std.specs.Option.{option_and_then};
ghost use Rattle.dwg_graph.specs.Graph.{is_typed, is_raw, is_header, is_root, is_member, is_member_kind, claims_by, TOP_NUMBERS};
ghost use Rattle.dwg_graph.specs.Placed.{home_at};
ghost use Rattle.dwg_object.specs.Objects.{value_of};

use crate::owner::{SpaceHandles, owner_of};
use dwg_kinds::{Field, Kind, is_entity, is_same};
use dwg_object::{Body, Object};

/// Whether an object is Typed.
pub fn is_typed(object: &Object<'_>) -> bool
    ensures { result ≡ is_typed (value_of object.now) }
{
    match object {
        Object::Typed(_) => true,
        _ => false,
    }
}

/// Whether objects of a type number stand at the top of a drawing.
fn is_top(number: u16) -> bool
    ensures { result ≡ list_any (λ other. other == number) TOP_NUMBERS }
{
    match number {
        48 | 50 | 52 | 56 | 60 | 62 | 64 | 66 | 68 | 70 => true,
        _ => false,
    }
}

/// Whether an object is Raw.
pub fn is_raw(object: &Object<'_>) -> bool
    ensures { result ≡ is_raw (value_of object.now) }
{
    match object {
        Object::Raw(_) => true,
        _ => false,
    }
}

/// Whether an object is a Typed BLOCK HEADER.
pub fn is_header(object: &Object<'_>) -> bool
    ensures { result ≡ is_header (value_of object.now) }
{
    match object {
        Object::Typed(typed) => match &typed.body {
            Body::BlockHeader(_) => true,
            _ => false,
        },
        _ => false,
    }
}

/// Whether an object is a root: Raw, or a DICTIONARY or an object that stands at the top of a drawing, without an owner.
#[tactic(auto, unfolding(crate::specs::Graph::is_root))]
pub fn is_root(object: &Object<'_>, known: &Option<SpaceHandles>) -> bool
    ensures { result ≡ is_root known.now (value_of object.now) }
{
    if is_raw(object) {
        return true;
    }
    if is_same(Kind::Dictionary, object.kind()) || is_top(object.number()) {
        return owner_of(object, *known).value() == 0;
    }
    false
}

/// Whether entities of a kind are members of the block that owns them.
#[tactic(auto, unfolding(crate::specs::Graph::is_member_kind))]
fn can_be_member(kind: Kind) -> bool
    ensures { result ≡ is_member_kind kind }
{
    if !is_entity(kind) {
        return false;
    }
    if is_same(Kind::Block, kind) {
        return false;
    }
    if is_same(Kind::EndBlk, kind) {
        return false;
    }
    !is_same(Kind::Attrib, kind)
}

/// Whether an object is a member of the block of a header.
#[tactic(auto, unfolding(crate::specs::Graph::is_member))]
pub fn is_member(header: &Object<'_>, object: &Object<'_>, known: &Option<SpaceHandles>) -> bool
    ensures { result ≡ is_member known.now (value_of header.now) (value_of object.now) }
{
    if !is_header(header) {
        return false;
    }
    if is_raw(object) {
        return false;
    }
    if !can_be_member(object.kind()) {
        return false;
    }
    owner_of(object, *known) == header.handle()
}

/// Whether a holder of a kind claims what a field of it leads to.
#[tactic(auto, unfolding(crate::specs::Graph::claims_by))]
pub fn can_claim(kind: Kind, field: Field) -> bool
    ensures { result ≡ claims_by kind field }
{
    match field {
        Field::Entry
        | Field::Model
        | Field::Paper
        | Field::Extra
        | Field::Item
        | Field::Xdict
        | Field::Endblk
        | Field::Seqend => true,
        Field::Block => is_same(Kind::BlockHeader, kind),
        _ => false,
    }
}

/// Where the block stands of which an object is a member, whose owner stands there.
fn home_at(
    objects: &[Object<'_>],
    known: &Option<SpaceHandles>,
    object: &Object<'_>,
    place: usize,
) -> Option<usize>
    ensures { result ≡ home_at (map value_of objects.now) known.now (value_of object.now) place }
{
    match objects.get(place) {
        Some(owner) => {
            if is_member(owner, object, known) {
                Some(place)
            } else {
                None
            }
        }
        None => None,
    }
}

/// Where the block stands of which an object is a member, whose owner may stand somewhere.
pub fn home_of(
    objects: &[Object<'_>],
    known: &Option<SpaceHandles>,
    object: &Object<'_>,
    owner: Option<usize>,
) -> Option<usize>
    ensures { result ≡ option_and_then (home_at (map value_of objects.now) known.now (value_of object.now)) owner }
{
    match owner {
        Some(place) => home_at(objects, known, object, place),
        None => None,
    }
}
