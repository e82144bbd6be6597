//! The entries of the tables beside the blocks: layers, a text style, an application and linetypes.

ghost use Rattle.std.specs.Prelude.{◌≡◌, ◌^◌, ◌<◌, ◌++◌, ◌∷◌, [], IfOk, OnOk};
ghost use Rattle.dwg_object.specs.Objects.{value_of};
ghost use Rattle.dwg_make.specs.Fixed.{layer, style, appid, ltype, by_block, by_layer, continuous, table_entries};
ghost use Rattle.dwg_make.specs.Parts.{entry};

use crate::lists::no_bytes;
use crate::making::Making;
use crate::objects::other_object;
use crate::references::{ONE, hard_pointer};
use dwg_base::{ByteRun, Items, NoMemory};
use dwg_object::{Body, Object};
use dwg_tables::{AppId, Entry, Layer, Ltype, Style};
use std::alloc::Global;

/// A table entry of a name.
pub(crate) fn entry_of(alloc: Global, name: &[u8]) -> Result<Entry, NoMemory>
    ensures { IfOk result (λ made. made ≡ entry name.now) }
{
    Ok(Entry {
        name: ByteRun::from_slice(alloc, name)?,
        flag64: false,
        xref_index: 0,
        xref_dependent: false,
        xref: hard_pointer(0),
    })
}

/// A layer, by its handle, name and colour.
#[tactic(auto, unfolding(crate::specs::Fixed::layer))]
fn layer_of(alloc: Global, own: u64, name: &[u8], colour: u16) -> Result<Object<'static>, NoMemory>
    requires { own < 2 ^ 63 }
    ensures { IfOk result (λ object. value_of object ≡ layer own name.now colour) }
{
    let body = Body::Layer(Layer {
        entry: entry_of(alloc, name)?,
        values: 0,
        colour,
        plotstyle: hard_pointer(0),
        linetype: hard_pointer(0x16),
    });
    Ok(other_object(alloc, 51, own, 0x2, body))
}

/// The text style.
#[tactic(auto, unfolding(crate::specs::Fixed::style))]
fn standard_style(alloc: Global) -> Result<Object<'static>, NoMemory>
    ensures { IfOk result (λ object. value_of object ≡ style) }
{
    let body = Body::Style(Style {
        entry: entry_of(alloc, b"STANDARD")?,
        flag_a: false,
        flag_b: false,
        height: 0,
        width: ONE,
        oblique: 0,
        generation: 0,
        last_height: 0,
        font: ByteRun::from_slice(alloc, b"txt")?,
        big_font: no_bytes(alloc),
    });
    Ok(other_object(alloc, 53, 0x11, 0x3, body))
}

/// The application.
#[tactic(auto, unfolding(crate::specs::Fixed::appid))]
fn own_appid(alloc: Global) -> Result<Object<'static>, NoMemory>
    ensures { IfOk result (λ object. value_of object ≡ appid) }
{
    let body = Body::AppId(AppId {
        entry: entry_of(alloc, b"ACAD")?,
        extra: 0,
    });
    Ok(other_object(alloc, 67, 0x12, 0x9, body))
}

/// A linetype without dashes, by its handle and name.
#[tactic(auto, unfolding(crate::specs::Fixed::ltype))]
fn ltype_of(alloc: Global, own: u64, name: &[u8]) -> Result<Object<'static>, NoMemory>
    requires { own < 2 ^ 63 }
    ensures { IfOk result (λ object. value_of object ≡ ltype own name.now) }
{
    let body = Body::Ltype(Ltype {
        entry: entry_of(alloc, name)?,
        description: no_bytes(alloc),
        length: 0,
        alignment: 65,
        dashes: Items::new(alloc),
        texts: ByteRun::from_slice(alloc, &[0; 256])?,
    });
    Ok(other_object(alloc, 57, own, 0x5, body))
}

/// The linetype of the block. Err: out of memory.
#[tactic(auto, unfolding(crate::specs::Fixed::by_block))]
fn by_block(alloc: Global) -> Result<Object<'static>, NoMemory>
    ensures { IfOk result (λ object. value_of object ≡ by_block) }
{
    ltype_of(alloc, 0x14, b"BYBLOCK")
}

/// The linetype of the layer. Err: out of memory.
#[tactic(auto, unfolding(crate::specs::Fixed::by_layer))]
fn by_layer(alloc: Global) -> Result<Object<'static>, NoMemory>
    ensures { IfOk result (λ object. value_of object ≡ by_layer) }
{
    ltype_of(alloc, 0x15, b"BYLAYER")
}

/// The linetype without gaps. Err: out of memory.
#[tactic(auto, unfolding(crate::specs::Fixed::continuous))]
fn continuous(alloc: Global) -> Result<Object<'static>, NoMemory>
    ensures { IfOk result (λ object. value_of object ≡ continuous) }
{
    ltype_of(alloc, 0x16, b"CONTINUOUS")
}

/// Makes the linetypes. Err: out of memory.
fn make_linetypes(alloc: Global, making: &mut Making) -> Result<(), NoMemory>
    ensures { OnOk result (making.new ≡ making.old ++ by_block ∷ by_layer ∷ continuous ∷ []) }
{
    making.push(by_block(alloc)?)?;
    making.push(by_layer(alloc)?)?;
    making.push(continuous(alloc)?)?;
    Ok(())
}

/// Makes the table entries beside the blocks. Err: out of memory.
#[tactic(auto, unfolding(crate::specs::Fixed::table_entries))]
pub(crate) fn make_entries(alloc: Global, making: &mut Making) -> Result<(), NoMemory>
    ensures { OnOk result (making.new ≡ making.old ++ table_entries) }
{
    making.push(layer_of(alloc, 0x10, b"0", 7)?)?;
    making.push(standard_style(alloc)?)?;
    making.push(own_appid(alloc)?)?;
    make_linetypes(alloc, making)?;
    making.push(layer_of(alloc, 0x17, b"WALLS", 1)?)?;
    Ok(())
}
