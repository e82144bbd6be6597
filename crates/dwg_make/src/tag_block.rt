//! The block TAG, which has an attribute definition and a line, and an insert of it with its attribute.

ghost use Rattle.std.specs.Prelude.{◌≡◌, ◌++◌, codes, IfOk, OnOk};
ghost use Rattle.dwg_object.specs.Objects.{value_of};
ghost use Rattle.dwg_make.specs.Fixed.{attribute_definition, line_of_block, attribute, attributes_end, insert, tag_header, tag_begin, tag_end, tag_block, tag_insert};
ghost use Rattle.dwg_make.specs.Parts.{flat_point, plain_text};
ghost use Rattle.dwg_grammar.specs.Codes.{ONE};

use crate::blocks::{Extent, begin_of, block_header};
use crate::lists::one;
use crate::making::Making;
use crate::objects::{links, model_entity, owned_entity};
use crate::references::{ONE, flat_point, hard_owner, hard_pointer, point, soft_pointer};
use crate::texts::plain_text;
use dwg_base::{ByteRun, NoMemory};
use dwg_entities::{Attdef, Attrib, Attributes, EndBlk, Insert, SeqEnd};
use dwg_object::{Body, Object};
use dwg_shapes::Line;
use dwg_tables::InsertMark;
use std::alloc::Global;

/// An attribute with the tag "NO", by its text. Err: out of memory.
fn attrib_of(alloc: Global, text: &[u8]) -> Result<Attrib, NoMemory>
    ensures { IfOk result (λ made. made ≡ record { text = plain_text (flat_point 0 0) ONE text.now; tag = codes "NO"; length = 0; flags = 0 }) }
{
    let text = ByteRun::from_slice(alloc, text)?;
    Ok(Attrib {
        text: plain_text(flat_point(0, 0), ONE, text),
        tag: ByteRun::from_slice(alloc, b"NO")?,
        length: 0,
        flags: 0,
    })
}

/// The definition of the attribute. Err: out of memory.
#[tactic(auto, unfolding(crate::specs::Fixed::attribute_definition))]
fn attribute_definition(alloc: Global) -> Result<Object<'static>, NoMemory>
    ensures { IfOk result (λ object. value_of object ≡ attribute_definition) }
{
    let body = Body::Attdef(Attdef {
        attrib: attrib_of(alloc, b"")?,
        prompt: ByteRun::from_slice(alloc, b"Number")?,
    });
    Ok(owned_entity(alloc, 3, 0x22, 0x20, links(0, 0x23), body))
}

/// The line in the block.
#[tactic(auto, unfolding(crate::specs::Fixed::line_of_block))]
fn line_of_block(alloc: Global) -> Object<'static>
    ensures { value_of result ≡ line_of_block }
{
    let body = Body::Line(Line {
        start: point(0, 0, 0),
        end: point(ONE, 0, 0),
        thickness: 0,
        extrusion: point(0, 0, ONE),
    });
    owned_entity(alloc, 19, 0x23, 0x20, links(0x22, 0), body)
}

/// The attribute of the insert. Err: out of memory.
#[tactic(auto, unfolding(crate::specs::Fixed::attribute))]
fn attribute(alloc: Global) -> Result<Object<'static>, NoMemory>
    ensures { IfOk result (λ object. value_of object ≡ attribute) }
{
    let body = Body::Attrib(attrib_of(alloc, b"A1")?);
    Ok(owned_entity(alloc, 2, 0x2E, 0x30, links(0, 0), body))
}

/// The insert of the block in the model space.
#[tactic(auto, unfolding(crate::specs::Fixed::insert))]
fn insert_of_block(alloc: Global) -> Object<'static>
    ensures { value_of result ≡ insert }
{
    let body = Body::Insert(Insert {
        place: point(0, 0, 0),
        scale: point(ONE, ONE, ONE),
        rotation: 0,
        extrusion: point(0, 0, ONE),
        block: hard_pointer(0x20),
        attributes: Some(Attributes {
            first: soft_pointer(0x2E),
            last: soft_pointer(0x2E),
            seqend: hard_owner(0x2F),
        }),
    });
    model_entity(alloc, 7, 0x30, Some(links(0, 0x31)), 0x10, body)
}

/// The header of the block, which is inserted once. Err: out of memory.
#[tactic(auto, unfolding(crate::specs::Fixed::tag_header))]
fn tag_header(alloc: Global) -> Result<Object<'static>, NoMemory>
    ensures { IfOk result (λ object. value_of object ≡ tag_header) }
{
    let mark = InsertMark {
        count: 1,
        target: soft_pointer(0x30),
    };
    let extent = Extent {
        block: 0x21,
        first: 0x22,
        last: 0x23,
        endblk: 0x24,
    };
    let marks = one(alloc, mark)?;
    let header = block_header(alloc, 0x20, b"TAG", true, marks, extent)?;
    Ok(header)
}

/// The begin of the block. Err: out of memory.
#[tactic(auto, unfolding(crate::specs::Fixed::tag_begin))]
fn tag_begin(alloc: Global) -> Result<Object<'static>, NoMemory>
    ensures { IfOk result (λ object. value_of object ≡ tag_begin) }
{
    let body = begin_of(alloc, b"TAG")?;
    Ok(owned_entity(alloc, 4, 0x21, 0x20, links(0, 0), body))
}

/// The end of the block.
#[tactic(auto, unfolding(crate::specs::Fixed::tag_end))]
fn tag_end(alloc: Global) -> Object<'static>
    ensures { value_of result ≡ tag_end }
{
    let body = Body::EndBlk(EndBlk);
    owned_entity(alloc, 5, 0x24, 0x20, links(0, 0), body)
}

/// Makes the block. Err: out of memory.
#[tactic(auto, unfolding(crate::specs::Fixed::tag_block))]
pub(crate) fn make_block(alloc: Global, making: &mut Making) -> Result<(), NoMemory>
    ensures { OnOk result (making.new ≡ making.old ++ tag_block) }
{
    making.push(tag_header(alloc)?)?;
    making.push(tag_begin(alloc)?)?;
    making.push(attribute_definition(alloc)?)?;
    making.push(line_of_block(alloc))?;
    making.push(tag_end(alloc))?;
    Ok(())
}

/// The end of the attributes.
#[tactic(auto, unfolding(crate::specs::Fixed::attributes_end))]
fn attributes_end(alloc: Global) -> Object<'static>
    ensures { value_of result ≡ attributes_end }
{
    let body = Body::SeqEnd(SeqEnd);
    owned_entity(alloc, 6, 0x2F, 0x30, links(0, 0), body)
}

/// Makes the insert, after what belongs to it. Err: out of memory.
#[tactic(auto, unfolding(crate::specs::Fixed::tag_insert))]
pub(crate) fn make_insert(alloc: Global, making: &mut Making) -> Result<(), NoMemory>
    ensures { OnOk result (making.new ≡ making.old ++ tag_insert) }
{
    making.push(attribute(alloc)?)?;
    making.push(attributes_end(alloc))?;
    making.push(insert_of_block(alloc))?;
    Ok(())
}
