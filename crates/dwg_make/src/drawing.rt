//! Making whole drawings.

ghost use Rattle.std.specs.Prelude.{◌≡◌, ◌≤◌, ◌<◌, ◌⊎◌, ◌++◌, map, IfOk, OnOk, IsErrOf};
ghost use Rattle.std.specs.List.{range_with_len};
ghost use Rattle.dwg_object.specs.Objects.{value_of};
ghost use Rattle.dwg_file.specs.Contents.{contents_of};
ghost use Rattle.dwg_make.specs.Fixed.{fixed_objects};
ghost use Rattle.dwg_make.specs.RandomEntities.{further_entity};
ghost use Rattle.dwg_make.specs.Made.{MOST_ENTITIES, made};

use crate::blocks::{make_model_space, make_paper_space};
use crate::controls::make_controls;
use crate::dictionaries::make_dictionaries;
use crate::lists::no_bytes;
use crate::making::Making;
use crate::random_entities::make_further;
use crate::tables::make_entries;
use crate::tag_block::{make_block, make_insert};
use dwg_base::{Items, NoMemory, Version};
use dwg_codes::BytePart;
use dwg_file::{Drawing, Parts};
use dwg_object::Object;
use std::alloc::Global;
use thiserror::Error;

/// Why no drawing is made.
#[derive(Clone, Copy, Debug, PartialEq, Eq, Error)]
pub enum MakeFault {
    /// Out of memory.
    #[error("out of memory")]
    NoMemory,
    /// The count of entities is 0 or above 200,000.
    #[error("size out of range")]
    Size,
}

/// The most entities that can be asked for.
const LARGEST: u32 = 200_000;

/// The code page of the texts.
const CODE_PAGE: u16 = 30;

/// Makes the objects that every drawing has, where so many entities follow. Err: out of memory.
#[tactic(auto, unfolding(crate::specs::Fixed::fixed_objects))]
fn make_fixed(alloc: Global, count: u32, making: &mut Making) -> Result<(), NoMemory>
    ensures { OnOk result (making.new ≡ making.old ++ fixed_objects count) }
{
    make_controls(alloc, making)?;
    make_dictionaries(alloc, making)?;
    make_entries(alloc, making)?;
    make_model_space(alloc, count, making)?;
    make_paper_space(alloc, making)?;
    make_block(alloc, making)?;
    make_insert(alloc, making)?;
    Ok(())
}

/// The objects of the drawing of two numbers. Err: out of memory.
fn objects_of(alloc: Global, count: u32, seed: u32) -> Result<Items<Object<'static>>, NoMemory>
    ensures { IfOk result (λ objects. map value_of objects ≡ fixed_objects count ++ map (further_entity count seed) (range_with_len 1 count)) }
{
    let mut making = Making::new(alloc);
    make_fixed(alloc, count, &mut making)?;
    make_further(alloc, count, seed, &mut making)?;
    Ok(making.finish())
}

/// The parts of the drawing of two numbers. Err: out of memory.
#[tactic(auto, unfolding(crate::specs::Made::made))]
fn parts_of(alloc: Global, count: u32, seed: u32) -> Result<Parts<'static>, NoMemory>
    ensures { IfOk result (λ parts. contents_of parts ≡ made count seed) }
{
    Ok(Parts {
        version: Version::Ac1015,
        lead: [0; 7],
        mark: [0; 2],
        code_page: CODE_PAGE,
        variables: BytePart::Owned(no_bytes(alloc)),
        classes: Items::new(alloc),
        others: Items::new(alloc),
        objects: objects_of(alloc, count, seed)?,
    })
}

/// Makes a drawing of so many entities, from 1 to 200,000, and 29 objects before them (tables, both spaces, a block and an insert of
/// it): the entities are drawn by random numbers from the seed on. The same two numbers give the same drawing. Size exactly where the
/// count is out of range; the only other refusal is out of memory.
pub fn make(alloc: Global, n: u32, seed: u32) -> Result<Drawing<'static>, MakeFault>
    ensures made { IfOk result (λ drawing. contents_of drawing ≡ made n seed) }
    ensures within { OnOk result ((0 < n) × (n ≤ MOST_ENTITIES)) }
    ensures size { IsErrOf result MakeFault.Size → (n ≡ 0) ⊎ (MOST_ENTITIES < n) }
    ensures size_reported { (n ≡ 0) ⊎ (MOST_ENTITIES < n) → IsErrOf result MakeFault.Size }
{
    if n == 0 || n > LARGEST {
        return Err(MakeFault::Size);
    }
    match parts_of(alloc, n, seed) {
        Ok(parts) => Ok(Drawing::build(parts)),
        Err(NoMemory) => Err(MakeFault::NoMemory),
    }
}
