//! Blocks: their headers and their begins, and the model space and the paper space.

ghost use Rattle.std.specs.Prelude.{◌≡◌, ◌^◌, ◌<◌, ◌++◌, IfOk, OnOk};
ghost use Rattle.dwg_object.specs.Objects.{value_of};
ghost use Rattle.dwg_make.specs.Fixed.{block_header, begin_of, model_header, model_begin, model_end, model_space, paper_header, paper_begin, paper_end, paper_space};

use crate::lists::no_bytes;
use crate::making::Making;
use crate::objects::{links, model_entity, other_object, paper_entity};
use crate::references::{hard_owner, hard_pointer, point, soft_pointer};
use crate::tables::entry_of;
use dwg_base::{ByteRun, Items, NoMemory};
use dwg_entities::{Block, EndBlk};
use dwg_object::{Body, Object};
use dwg_tables::{BlockHeader, Ends, InsertMark};
use std::alloc::Global;

/// What a block's header names: its begin, its first and last entity, and its end.
#[derive(Clone, Copy)]
pub(crate) struct Extent {
    /// The begin.
    pub(crate) block: u64,
    /// The first entity.
    pub(crate) first: u64,
    /// The last entity.
    pub(crate) last: u64,
    /// The end.
    pub(crate) endblk: u64,
}

/// The header of a block, by its handle, name, whether it has attributes, marks, and extent. Err: out of memory.
#[tactic(auto, unfolding(crate::specs::Fixed::block_header))]
pub(crate) fn block_header(
    alloc: Global,
    own: u64,
    name: &[u8],
    has_attributes: bool,
    inserts: Items<InsertMark>,
    extent: Extent,
) -> Result<Object<'static>, NoMemory>
    requires own { own < 2 ^ 63 }
    requires block { extent.block < 2 ^ 63 }
    requires first { extent.first < 2 ^ 63 }
    requires last { extent.last < 2 ^ 63 }
    requires endblk { extent.endblk < 2 ^ 63 }
    ensures { IfOk result (λ object. value_of object ≡ block_header own name.now has_attributes inserts extent.block extent.first extent.last extent.endblk) }
{
    let body = Body::BlockHeader(BlockHeader {
        entry: entry_of(alloc, name)?,
        anonymous: false,
        has_attributes,
        is_xref: false,
        overlaid: false,
        loaded: false,
        base: point(0, 0, 0),
        path: no_bytes(alloc),
        inserts,
        description: no_bytes(alloc),
        preview: no_bytes(alloc),
        block: hard_owner(extent.block),
        ends: Some(Ends {
            first: soft_pointer(extent.first),
            last: soft_pointer(extent.last),
        }),
        endblk: hard_owner(extent.endblk),
        layout: hard_pointer(0),
    });
    Ok(other_object(alloc, 49, own, 0x1, body))
}

/// The begin of a block. Err: out of memory.
pub(crate) fn begin_of(alloc: Global, name: &[u8]) -> Result<Body, NoMemory>
    ensures { IfOk result (λ body. body ≡ begin_of name.now) }
{
    Ok(Body::Block(Block {
        name: ByteRun::from_slice(alloc, name)?,
    }))
}

/// The header of the model space, where so many entities follow. Err: out of memory.
#[tactic(auto, unfolding(crate::specs::Fixed::model_header))]
fn model_header(alloc: Global, count: u32) -> Result<Object<'static>, NoMemory>
    ensures { IfOk result (λ object. value_of object ≡ model_header count) }
{
    let extent = Extent {
        block: 0x19,
        first: 0x30,
        last: 0x30 + u64::from(count),
        endblk: 0x1A,
    };
    let no_marks = Items::new(alloc);
    let header = block_header(alloc, 0x18, b"*MODEL_SPACE", false, no_marks, extent)?;
    Ok(header)
}

/// The begin of the model space. Err: out of memory.
#[tactic(auto, unfolding(crate::specs::Fixed::model_begin))]
fn model_begin(alloc: Global) -> Result<Object<'static>, NoMemory>
    ensures { IfOk result (λ object. value_of object ≡ model_begin) }
{
    let body = begin_of(alloc, b"*MODEL_SPACE")?;
    Ok(model_entity(alloc, 4, 0x19, Some(links(0, 0)), 0x10, body))
}

/// The end of the model space.
#[tactic(auto, unfolding(crate::specs::Fixed::model_end))]
fn model_end(alloc: Global) -> Object<'static>
    ensures { value_of result ≡ model_end }
{
    let body = Body::EndBlk(EndBlk);
    model_entity(alloc, 5, 0x1A, Some(links(0, 0)), 0x10, body)
}

/// Makes the model space, where so many entities follow. Err: out of memory.
#[tactic(auto, unfolding(crate::specs::Fixed::model_space))]
pub(crate) fn make_model_space(
    alloc: Global,
    count: u32,
    making: &mut Making,
) -> Result<(), NoMemory>
    ensures { OnOk result (making.new ≡ making.old ++ model_space count) }
{
    making.push(model_header(alloc, count)?)?;
    making.push(model_begin(alloc)?)?;
    making.push(model_end(alloc))?;
    Ok(())
}

/// The header of the paper space, which has no entities. Err: out of memory.
#[tactic(auto, unfolding(crate::specs::Fixed::paper_header))]
fn paper_header(alloc: Global) -> Result<Object<'static>, NoMemory>
    ensures { IfOk result (λ object. value_of object ≡ paper_header) }
{
    let extent = Extent {
        block: 0x1C,
        first: 0,
        last: 0,
        endblk: 0x1D,
    };
    let no_marks = Items::new(alloc);
    let header = block_header(alloc, 0x1B, b"*PAPER_SPACE", false, no_marks, extent)?;
    Ok(header)
}

/// The begin of the paper space. Err: out of memory.
#[tactic(auto, unfolding(crate::specs::Fixed::paper_begin))]
fn paper_begin(alloc: Global) -> Result<Object<'static>, NoMemory>
    ensures { IfOk result (λ object. value_of object ≡ paper_begin) }
{
    let body = begin_of(alloc, b"*PAPER_SPACE")?;
    Ok(paper_entity(alloc, 4, 0x1C, body))
}

/// The end of the paper space.
#[tactic(auto, unfolding(crate::specs::Fixed::paper_end))]
fn paper_end(alloc: Global) -> Object<'static>
    ensures { value_of result ≡ paper_end }
{
    paper_entity(alloc, 5, 0x1D, Body::EndBlk(EndBlk))
}

/// Makes the paper space. Err: out of memory.
#[tactic(auto, unfolding(crate::specs::Fixed::paper_space))]
pub(crate) fn make_paper_space(alloc: Global, making: &mut Making) -> Result<(), NoMemory>
    ensures { OnOk result (making.new ≡ making.old ++ paper_space) }
{
    making.push(paper_header(alloc)?)?;
    making.push(paper_begin(alloc)?)?;
    making.push(paper_end(alloc))?;
    Ok(())
}
