//! The controls: the tables of blocks, layers, text styles, linetypes and applications.

ghost use Rattle.std.specs.Prelude.{◌≡◌, ◌++◌, IfOk, OnOk};
ghost use Rattle.dwg_object.specs.Objects.{value_of};
ghost use Rattle.dwg_make.specs.Fixed.{block_control, layer_control, style_control, ltype_control, appid_control, controls};

use crate::lists::one;
use crate::making::Making;
use crate::objects::other_object;
use crate::references::{hard_owner, soft_owner};
use dwg_base::NoMemory;
use dwg_dicts::{AppIdControl, BlockControl, LayerControl, LtypeControl, StyleControl};
use dwg_object::{Body, Object};
use std::alloc::Global;

/// The control of the blocks.
#[tactic(auto, unfolding(crate::specs::Fixed::block_control))]
fn block_control(alloc: Global) -> Result<Object<'static>, NoMemory>
    ensures { IfOk result (λ object. value_of object ≡ block_control) }
{
    let body = Body::BlockControl(BlockControl {
        entries: one(alloc, soft_owner(0x20))?,
        model: hard_owner(0x18),
        paper: hard_owner(0x1B),
    });
    Ok(other_object(alloc, 48, 0x1, 0, body))
}

/// The control of the layers.
#[tactic(auto, unfolding(crate::specs::Fixed::layer_control))]
fn layer_control(alloc: Global) -> Result<Object<'static>, NoMemory>
    ensures { IfOk result (λ object. value_of object ≡ layer_control) }
{
    let mut entries = one(alloc, soft_owner(0x10))?;
    entries.try_push(soft_owner(0x17))?;
    let body = Body::LayerControl(LayerControl { entries });
    Ok(other_object(alloc, 50, 0x2, 0, body))
}

/// The control of the text styles.
#[tactic(auto, unfolding(crate::specs::Fixed::style_control))]
fn style_control(alloc: Global) -> Result<Object<'static>, NoMemory>
    ensures { IfOk result (λ object. value_of object ≡ style_control) }
{
    let entries = one(alloc, soft_owner(0x11))?;
    let body = Body::StyleControl(StyleControl { entries });
    Ok(other_object(alloc, 52, 0x3, 0, body))
}

/// The control of the linetypes.
#[tactic(auto, unfolding(crate::specs::Fixed::ltype_control))]
fn ltype_control(alloc: Global) -> Result<Object<'static>, NoMemory>
    ensures { IfOk result (λ object. value_of object ≡ ltype_control) }
{
    let body = Body::LtypeControl(LtypeControl {
        entries: one(alloc, soft_owner(0x16))?,
        first: hard_owner(0x14),
        second: hard_owner(0x15),
    });
    Ok(other_object(alloc, 56, 0x5, 0, body))
}

/// The control of the applications.
#[tactic(auto, unfolding(crate::specs::Fixed::appid_control))]
fn appid_control(alloc: Global) -> Result<Object<'static>, NoMemory>
    ensures { IfOk result (λ object. value_of object ≡ appid_control) }
{
    let entries = one(alloc, soft_owner(0x12))?;
    let body = Body::AppIdControl(AppIdControl { entries });
    Ok(other_object(alloc, 66, 0x9, 0, body))
}

/// Makes the controls. Err: out of memory.
#[tactic(auto, unfolding(crate::specs::Fixed::controls))]
pub(crate) fn make_controls(alloc: Global, making: &mut Making) -> Result<(), NoMemory>
    ensures { OnOk result (making.new ≡ making.old ++ controls) }
{
    making.push(block_control(alloc)?)?;
    making.push(layer_control(alloc)?)?;
    making.push(style_control(alloc)?)?;
    making.push(ltype_control(alloc)?)?;
    making.push(appid_control(alloc)?)?;
    Ok(())
}
