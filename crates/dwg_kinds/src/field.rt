//! Fields that refer to other objects: which kinds hold each, and what it must lead to.

ghost use Rattle.std.specs.Prelude.{◌≡◌, Some, IsTrue};
ghost use Rattle.dwg_kinds.specs.Needs.{field_name, field_number, has_field, of_entities, linetype_need, plotstyle_need, style_need, block_need, end_need, seqend_need, xref_need, entry_need, of_one, need_of};

use crate::kind::{Kind, is_entity, is_same, needed_owner};

/// A field that refers to another object (Open Design Specification, the listed objects). The fields stand in the order in which
/// an audit names them.
#[derive(Clone, Copy, Debug, PartialEq, Eq)]
pub enum Field {
    /// The application of an item of application data.
    Application,
    /// The owner.
    Owner,
    /// An object that is reported of changes.
    Reactor,
    /// The extension dictionary.
    Xdict,
    /// The entity before this one in its block.
    Previous,
    /// The entity after this one in its block.
    Next,
    /// The layer of an entity.
    Layer,
    /// The linetype of an entity or a layer.
    Linetype,
    /// The plot style of an entity or a layer.
    Plotstyle,
    /// The text style of a text or of a linetype's dash.
    Style,
    /// The block that is inserted, or the begin of a block.
    Block,
    /// The first attribute of an insert, the first vertex of a polyline, or the first entity of a block.
    First,
    /// The last attribute of an insert, the last vertex of a polyline, or the last entity of a block.
    Last,
    /// The end of an insert's attributes or of a polyline's vertices.
    Seqend,
    /// The external reference that an entry of a table comes from.
    Xref,
    /// The end of a block.
    Endblk,
    /// An insert of a block.
    Insert,
    /// The layout of a block.
    Layout,
    /// An entry of a table.
    Entry,
    /// The model space.
    Model,
    /// The paper space.
    Paper,
    /// A linetype that stands beside the entries of its table.
    Extra,
    /// An item of a dictionary.
    Item,
    /// What a record of free data refers to.
    Target,
    /// A member of a group.
    Grouped,
}

/// What a field must lead to. Null is handle 0; any is an object of the drawing; the others are objects of these kinds.
#[derive(Clone, Copy, Debug, PartialEq, Eq)]
pub enum Need {
    /// Null.
    Null,
    /// Any object.
    Any,
    /// Null or any object.
    NullOrAny,
    /// An entity.
    Entity,
    /// Null or an entity.
    NullOrEntity,
    /// An object of that kind.
    Is(Kind),
    /// Null or an object of that kind.
    NullOrIs(Kind),
    /// An object that can have attributes or vertices: an INSERT, a MINSERT, a POLYLINE 3D, or an entity of which nothing more is reported.
    Attributed,
}

/// The number of a field in the order of fields, 1 to 25. They are declared in that order.
#[tactic(auto, using(crate::proofs::SameKinds::numbered_in_order))]
pub fn number_of(field: Field) -> u8
    ensures { result ≡ field_number field }
{
    field as u8 + 1
}

/// The name of a field, as it is printed.
#[tactic(auto, unfolding(crate::specs::Needs::field_name))]
pub fn field_word(field: Field) -> &'static str
    ensures { result.now ≡ field_name field }
{
    match field {
        Field::Application => "application",
        Field::Owner => "owner",
        Field::Reactor => "reactor",
        Field::Xdict => "xdict",
        Field::Previous => "previous",
        Field::Next => "next",
        Field::Layer => "layer",
        Field::Linetype => "linetype",
        Field::Plotstyle => "plotstyle",
        Field::Style => "style",
        Field::Block => "block",
        Field::First => "first",
        Field::Last => "last",
        Field::Seqend => "seqend",
        Field::Xref => "xref",
        Field::Endblk => "endblk",
        Field::Insert => "insert",
        Field::Layout => "layout",
        Field::Entry => "entry",
        Field::Model => "model",
        Field::Paper => "paper",
        Field::Extra => "extra",
        Field::Item => "item",
        Field::Target => "target",
        Field::Grouped => "grouped",
    }
}

/// A need of all entities, and of nothing else.
#[tactic(auto, unfolding(crate::specs::Needs::of_entities))]
fn needed_of_entities(need: Need, holder: Kind) -> Option<Need>
    ensures { result ≡ of_entities need holder }
{
    if is_entity(holder) { Some(need) } else { None }
}

/// What the linetype of a holder is.
#[tactic(auto, unfolding(crate::specs::Needs::linetype_need))]
fn needed_linetype(holder: Kind) -> Option<Need>
    ensures { result ≡ linetype_need holder }
{
    match holder {
        Kind::Layer => Some(Need::Is(Kind::Ltype)),
        _ => needed_of_entities(Need::Is(Kind::Ltype), holder),
    }
}

/// What the plot style of a holder is.
#[tactic(auto, unfolding(crate::specs::Needs::plotstyle_need))]
fn needed_plotstyle(holder: Kind) -> Option<Need>
    ensures { result ≡ plotstyle_need holder }
{
    match holder {
        Kind::Layer => Some(Need::NullOrAny),
        _ => needed_of_entities(Need::Any, holder),
    }
}

/// What the text style of a holder is.
#[tactic(auto, unfolding(crate::specs::Needs::style_need))]
fn needed_style(holder: Kind) -> Option<Need>
    ensures { result ≡ style_need holder }
{
    match holder {
        Kind::Text | Kind::Attrib | Kind::Attdef => Some(Need::Is(Kind::Style)),
        Kind::Ltype => Some(Need::NullOrIs(Kind::Style)),
        _ => None,
    }
}

/// What the block of a holder is.
#[tactic(auto, unfolding(crate::specs::Needs::block_need))]
fn needed_block(holder: Kind) -> Option<Need>
    ensures { result ≡ block_need holder }
{
    match holder {
        Kind::Insert | Kind::MInsert => Some(Need::Is(Kind::BlockHeader)),
        Kind::BlockHeader => Some(Need::Is(Kind::Block)),
        _ => None,
    }
}

/// What is first or last in a holder.
#[tactic(auto, unfolding(crate::specs::Needs::end_need))]
fn needed_end(holder: Kind) -> Option<Need>
    ensures { result ≡ end_need holder }
{
    match holder {
        Kind::Insert | Kind::MInsert => Some(Need::Is(Kind::Attrib)),
        Kind::Polyline3d => Some(Need::NullOrIs(Kind::Vertex3d)),
        Kind::BlockHeader => Some(Need::NullOrEntity),
        _ => None,
    }
}

/// What ends the attributes or vertices of a holder.
#[tactic(auto, unfolding(crate::specs::Needs::seqend_need))]
fn needed_seqend(holder: Kind) -> Option<Need>
    ensures { result ≡ seqend_need holder }
{
    match holder {
        Kind::Insert | Kind::MInsert | Kind::Polyline3d => Some(Need::Is(Kind::SeqEnd)),
        _ => None,
    }
}

/// What the external reference of an entry is.
#[tactic(auto, unfolding(crate::specs::Needs::xref_need))]
fn needed_xref(holder: Kind) -> Option<Need>
    ensures { result ≡ xref_need holder }
{
    match holder {
        Kind::Layer | Kind::Style | Kind::Ltype | Kind::AppId => Some(Need::NullOrIs(
            Kind::BlockHeader,
        )),
        Kind::BlockHeader => Some(Need::NullOrAny),
        _ => None,
    }
}

/// What the entries of a control are.
#[tactic(auto, unfolding(crate::specs::Needs::entry_need))]
fn needed_entry(holder: Kind) -> Option<Need>
    ensures { result ≡ entry_need holder }
{
    match holder {
        Kind::BlockControl => Some(Need::NullOrIs(Kind::BlockHeader)),
        Kind::LayerControl => Some(Need::NullOrIs(Kind::Layer)),
        Kind::StyleControl => Some(Need::NullOrIs(Kind::Style)),
        Kind::LtypeControl => Some(Need::NullOrIs(Kind::Ltype)),
        Kind::AppIdControl => Some(Need::NullOrIs(Kind::AppId)),
        _ => None,
    }
}

/// A need of one kind of holder, `None` for every other.
#[tactic(auto, unfolding(crate::specs::Needs::of_one))]
fn needed_of_one(one: Kind, need: Need, holder: Kind) -> Option<Need>
    ensures { result ≡ of_one one need holder }
{
    if is_same(one, holder) {
        Some(need)
    } else {
        None
    }
}

/// What a field of a holder must lead to, `None` where such a holder has no such field.
#[tactic(auto, unfolding(crate::specs::Needs::need_of))]
fn needed(field: Field, holder: Kind) -> Option<Need>
    ensures { result ≡ need_of field holder }
{
    match field {
        Field::Application => Some(Need::Is(Kind::AppId)),
        Field::Owner => needed_owner(holder),
        Field::Reactor => Some(Need::Any),
        Field::Xdict => Some(Need::NullOrIs(Kind::Dictionary)),
        Field::Previous | Field::Next => needed_of_entities(Need::NullOrEntity, holder),
        Field::Layer => needed_of_entities(Need::Is(Kind::Layer), holder),
        Field::Linetype => needed_linetype(holder),
        Field::Plotstyle => needed_plotstyle(holder),
        Field::Style => needed_style(holder),
        Field::Block => needed_block(holder),
        Field::First | Field::Last => needed_end(holder),
        Field::Seqend => needed_seqend(holder),
        Field::Xref => needed_xref(holder),
        Field::Endblk => needed_of_one(Kind::BlockHeader, Need::Is(Kind::EndBlk), holder),
        Field::Insert => needed_of_one(Kind::BlockHeader, Need::Entity, holder),
        Field::Layout => needed_of_one(Kind::BlockHeader, Need::NullOrAny, holder),
        Field::Entry => needed_entry(holder),
        Field::Model | Field::Paper => needed_of_one(
            Kind::BlockControl,
            Need::Is(Kind::BlockHeader),
            holder,
        ),
        Field::Extra => needed_of_one(Kind::LtypeControl, Need::Is(Kind::Ltype), holder),
        Field::Item => needed_of_one(Kind::Dictionary, Need::NullOrAny, holder),
        Field::Target => needed_of_one(Kind::XRecord, Need::NullOrAny, holder),
        Field::Grouped => needed_of_one(Kind::Group, Need::NullOrAny, holder),
    }
}

/// Whether objects of a kind hold a field.
#[tactic(auto, unfolding(crate::specs::Needs::has_field))]
pub fn holds(field: Field, holder: Kind) -> bool
    ensures { result ≡ has_field field holder }
{
    needed(field, holder).is_some()
}

/// What a field of a holder of that kind must lead to. The holder has the field, as `holds` reports.
#[tactic(auto, unfolding(crate::specs::Needs::has_field))]
pub fn required(field: Field, holder: Kind) -> Need
    requires { IsTrue (has_field field holder) }
    ensures { need_of field holder ≡ Some result }
{
    match needed(field, holder) {
        Some(need) => need,
        None => unreachable!(),
    }
}
