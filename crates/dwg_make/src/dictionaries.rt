//! The dictionaries and the record that they lead to.

ghost use Rattle.std.specs.Prelude.{◌≡◌, ◌^◌, ◌<◌, ◌++◌, IfOk, OnOk};
ghost use Rattle.dwg_object.specs.Objects.{value_of};
ghost use Rattle.dwg_make.specs.Fixed.{dictionary, xrecord, dictionaries};

use crate::lists::one;
use crate::making::Making;
use crate::objects::other_object;
use crate::references::{soft_owner, soft_pointer};
use dwg_base::{ByteRun, NoMemory};
use dwg_dicts::{DictItem, Dictionary, XRecord};
use dwg_object::{Body, Object};
use std::alloc::Global;

/// A dictionary of one item, by its handle, owner, and the item's name and handle.
#[tactic(auto, unfolding(crate::specs::Fixed::dictionary))]
fn dictionary_of(
    alloc: Global,
    own: u64,
    owner: u64,
    name: &[u8],
    item: u64,
) -> Result<Object<'static>, NoMemory>
    requires own { own < 2 ^ 63 }
    requires owner { owner < 2 ^ 63 }
    requires item { item < 2 ^ 63 }
    ensures { IfOk result (λ object. value_of object ≡ dictionary own owner name.now item) }
{
    let item = DictItem {
        name: ByteRun::from_slice(alloc, name)?,
        target: soft_owner(item),
    };
    let body = Body::Dictionary(Dictionary {
        cloning: 0,
        hard_owner: 0,
        items: one(alloc, item)?,
    });
    Ok(other_object(alloc, 42, own, owner, body))
}

/// A record of three bytes that names the first layer.
#[tactic(auto, unfolding(crate::specs::Fixed::xrecord))]
fn record_of_three(alloc: Global) -> Result<Object<'static>, NoMemory>
    ensures { IfOk result (λ object. value_of object ≡ xrecord) }
{
    let body = Body::XRecord(XRecord {
        bytes: ByteRun::from_slice(alloc, &[1, 2, 3])?,
        cloning: 0,
        targets: one(alloc, soft_pointer(0x10))?,
    });
    Ok(other_object(alloc, 79, 0xE, 0xD, body))
}

/// Makes the dictionaries. Err: out of memory.
#[tactic(auto, unfolding(crate::specs::Fixed::dictionaries))]
pub(crate) fn make_dictionaries(alloc: Global, making: &mut Making) -> Result<(), NoMemory>
    ensures { OnOk result (making.new ≡ making.old ++ dictionaries) }
{
    making.push(dictionary_of(alloc, 0xC, 0, b"NOTES", 0xD)?)?;
    making.push(dictionary_of(alloc, 0xD, 0xC, b"FIRST", 0xE)?)?;
    making.push(record_of_three(alloc)?)?;
    Ok(())
}
