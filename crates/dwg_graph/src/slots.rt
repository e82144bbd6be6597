//! The references that objects hold beside that to their owner, in the order of the fields (Open Design Specification, the listed
//! objects; the order is a rule of this project).

ghost use Rattle.std.specs.Prelude.{◌≡◌, ◌<◌, ◌^◌, ◌++◌, Some, IfOk, length};
ghost use Rattle.std.specs.List.{slice_get};
ghost use Rattle.dwg_graph.specs.SlotWalks.{Passes, PassesFields};
ghost use Rattle.dwg_graph.specs.Slots as tables;
ghost use Rattle.dwg_object.specs.Objects.{value_of};

use crate::slot::Slot;
use crate::slot_walk::Walk;
use dwg_base::{Items, NoMemory};
use dwg_common::{EntityCommon, ObjectCommon};
use dwg_entities::Insert;
use dwg_kinds::Field;
use dwg_object::{Body, Common, Object};
use dwg_tables::BlockHeader;

/// More slots than any object has: a search that is to pass so many counts them.
const MANY: u64 = 1 << 62;

/// What an insert holds of its own, alone or in columns and rows.
#[tactic(auto, using(crate::proofs::Passing::passes_end))]
fn insert_slots(walk: Walk, insert: &Insert) -> Walk
    ensures { PassesFields walk (tables.held_by_insert insert.now) result }
{
    walk.one(Field::Block, insert.block)
        .maybe(Field::First, insert.attributes.map(|named| named.first))
        .maybe(Field::Last, insert.attributes.map(|named| named.last))
        .maybe(Field::Seqend, insert.attributes.map(|named| named.seqend))
}

/// What the header of a block holds of its own.
#[tactic(auto, using(crate::proofs::Passing::passes_end))]
fn block_slots(walk: Walk, header: &BlockHeader) -> Walk
    ensures { PassesFields walk (tables.held_by_block header.now) result }
{
    walk.one(Field::Block, header.block)
        .maybe(Field::First, header.ends.map(|ends| ends.first))
        .maybe(Field::Last, header.ends.map(|ends| ends.last))
        .one(Field::Xref, header.entry.xref)
        .one(Field::Endblk, header.endblk)
        .listed(Field::Insert, &header.inserts)
        .one(Field::Layout, header.layout)
}

/// What the kinds hold of their own; those that aren't listed refer to nothing.
#[tactic(auto, using(crate::proofs::Passing::passes_end), unfolding(crate::specs::Slots::held_by_body))]
fn body_slots(walk: Walk, body: &Body) -> Walk
    ensures { PassesFields walk (tables.held_by_body body.now) result }
{
    match body {
        Body::Text(body) => walk.one(Field::Style, body.style),
        Body::Attrib(body) => walk.one(Field::Style, body.text.style),
        Body::Attdef(body) => walk.one(Field::Style, body.attrib.text.style),
        Body::Insert(body) => insert_slots(walk, body),
        Body::MInsert(body) => insert_slots(walk, &body.insert),
        Body::Polyline3d(body) => walk
            .one(Field::First, body.first)
            .one(Field::Last, body.last)
            .one(Field::Seqend, body.seqend),
        Body::Dictionary(body) => walk.listed(Field::Item, &body.items),
        Body::BlockControl(body) => walk
            .references(Field::Entry, &body.entries)
            .one(Field::Model, body.model)
            .one(Field::Paper, body.paper),
        Body::BlockHeader(body) => block_slots(walk, body),
        Body::LayerControl(body) => walk.references(Field::Entry, &body.entries),
        Body::Layer(body) => walk
            .one(Field::Linetype, body.linetype)
            .one(Field::Plotstyle, body.plotstyle)
            .one(Field::Xref, body.entry.xref),
        Body::StyleControl(body) => walk.references(Field::Entry, &body.entries),
        Body::Style(body) => walk.one(Field::Xref, body.entry.xref),
        Body::LtypeControl(body) => walk
            .references(Field::Entry, &body.entries)
            .pair(Field::Extra, body.first, body.second),
        Body::Ltype(body) => walk
            .listed(Field::Style, &body.dashes)
            .one(Field::Xref, body.entry.xref),
        Body::AppIdControl(body) => walk.references(Field::Entry, &body.entries),
        Body::AppId(body) => walk.one(Field::Xref, body.entry.xref),
        Body::XRecord(body) => walk.references(Field::Target, &body.targets),
        Body::Group(body) => walk.references(Field::Grouped, &body.entries),
        _ => walk,
    }
}

/// What an entity holds: what all entities do, and what its kind does.
#[tactic(auto, unfolding(crate::specs::Slots::held_by_entity))]
fn entity_slots(walk: Walk, common: &EntityCommon, body: &Body) -> Walk
    ensures { PassesFields walk (tables.held_by_entity common.now ++ tables.held_by_body body.now) result }
{
    let after = walk
        .listed(Field::Application, &common.app)
        .references(Field::Reactor, &common.reactors)
        .one(Field::Xdict, common.xdict)
        .maybe(Field::Previous, common.links.map(|links| links.previous))
        .maybe(Field::Next, common.links.map(|links| links.next))
        .one(Field::Layer, common.layer)
        .maybe(Field::Linetype, common.linetype)
        .maybe(Field::Plotstyle, common.plotstyle);
    body_slots(after, body)
}

/// What any other object holds: what all of them do, and what its kind does.
#[tactic(auto, unfolding(crate::specs::Slots::held_by_object))]
fn object_slots(walk: Walk, common: &ObjectCommon, body: &Body) -> Walk
    ensures { PassesFields walk (tables.held_by_object common.now ++ tables.held_by_body body.now) result }
{
    let after = walk
        .listed(Field::Application, &common.app)
        .references(Field::Reactor, &common.reactors)
        .one(Field::Xdict, common.xdict);
    body_slots(after, body)
}

/// What a common part and a body hold.
#[tactic(auto, unfolding(crate::specs::Slots::held_by_common))]
fn typed_slots(walk: Walk, common: &Common, body: &Body) -> Walk
    ensures { PassesFields walk (tables.held_by_common common.now ++ tables.held_by_body body.now) result }
{
    match common {
        Common::Entity(common) => entity_slots(walk, common, body),
        Common::Object(common) => object_slots(walk, common, body),
    }
}

/// A walk along the slots of an object: those of a Typed one; none are reported of any other.
#[tactic(auto, using(crate::proofs::Passing::passes_none), unfolding(crate::specs::Slots::slots))]
fn walk_slots(walk: Walk, object: &Object<'_>) -> Walk
    ensures { Passes walk (tables.slots (value_of object.now)) result }
{
    match object {
        Object::Typed(typed) => typed_slots(walk, &typed.common, &typed.body),
        Object::Plain(_) => walk,
        Object::Raw(_) => walk,
    }
}

/// How many references an object holds beside that to its owner; none are reported of an object that isn't Typed. They are fewer than
/// 2^58 in every object that a drawing can have: `slot_laws` bounds them by the bytes of its frame.
#[tactic(auto, using(crate::proofs::Passing::passed_after), unfolding(crate::specs::SlotWalks::IsAfter))]
pub fn slot_count(object: &Object<'_>) -> u64
    requires few { length (tables.slots (value_of object.now)) < 2 ^ 58 }
    ensures { result ≡ length (tables.slots (value_of object.now)) }
{
    match walk_slots(Walk::Left(MANY), object) {
        Walk::Left(left) => MANY - left,
        Walk::Found(_) => unreachable!(),
        Walk::Gathered(_) => unreachable!(),
        Walk::OutOfMemory => unreachable!(),
    }
}

/// The reference that an object holds at a place, from 0 on, among those that it holds beside that to its owner: the common part's
/// first, each part's in the order of the fields, and those of a field that is a list in its order.
#[tactic(auto, using(crate::proofs::Passing::passed_within), unfolding(crate::specs::SlotWalks::IsAfter))]
pub fn slot_at(object: &Object<'_>, i: u64) -> Slot
    requires within { i < length (tables.slots (value_of object.now)) }
    ensures { slice_get (tables.slots (value_of object.now)) i ≡ Some result }
{
    match walk_slots(Walk::Left(i), object) {
        Walk::Found(slot) => slot,
        Walk::Left(_) => unreachable!(),
        Walk::Gathered(_) => unreachable!(),
        Walk::OutOfMemory => unreachable!(),
    }
}

/// Slots, and after them all those of an object in the order of `slot_at`, which are walked over once. Err: out of memory.
#[tactic(auto, unfolding(crate::specs::SlotWalks::IsAfter))]
pub fn with_slots(slots: Items<Slot>, object: &Object<'_>) -> Result<Items<Slot>, NoMemory>
    ensures { IfOk result (λ all. all ≡ slots ++ tables.slots (value_of object.now)) }
{
    match walk_slots(Walk::Gathered(slots), object) {
        Walk::Gathered(all) => Ok(all),
        Walk::OutOfMemory => Err(NoMemory),
        Walk::Found(_) => unreachable!(),
        Walk::Left(_) => unreachable!(),
    }
}
