//! What an entity begins with, as bits (Open Design Specification, "Common entity data").

ghost use Rattle.std.specs.Prelude.{◌≡◌, ◌^◌, ◌<◌, ◌≤◌, ◌↔◌, length, option_map, IfOk, IsTrue};
ghost use Rattle.dwg_bits.specs.Sink.{Extends};
ghost use Rattle.dwg_common.specs.Parsing.{Keeps, Parses};
ghost use Rattle.dwg_common.specs.Entities.{bylayer_of, entity_mode, entity_start, start_of};
ghost use Rattle.dwg_common.specs.EntityReading.{start_read};

use crate::app_list::{app_fits, app_length, read_items, write_app};
use crate::bit_layout::Layout;
use crate::bit_size::{bit_size_bits, read_bit_size, write_bit_size};
use crate::counts::TOO_MANY;
use crate::entity::{EntityCommon, Start};
use crate::graphic::{graphic_bits, graphic_fits, read_graphic, write_graphic};
use crate::part_reading::parse_code;
use crate::version_only::{length_given, parse_given, write_given};
use dwg_base::{Handle, NoMemory, Version};
use dwg_bits::{BitCursor, BitSink};
use dwg_codes::{BitCode, CodeB, CodeBB, CodeBL};
use std::alloc::Global;

/// The last of the modes: to the model space.
const LAST_MODE: u8 = 2;

/// Reads where an entity belongs, as it is parsed: 0, 1 or 2.
fn read_mode(cursor: &mut BitCursor<'_>) -> Option<u8>
    ensures parsed { Parses entity_mode result cursor.old cursor.new }
    ensures kept { Keeps cursor.old cursor.new }
{
    let mode = parse_code::<CodeBB>(&(), cursor)?;
    if mode > LAST_MODE {
        return None;
    }
    Some(mode)
}

/// Whether an entity has the linetype of its layer, as AC1014 spells before its look; AC1015 spells nothing there.
pub(crate) fn is_by_layer(common: &EntityCommon, version: Version) -> bool
    ensures { result ≡ bylayer_of version common.now.linetype_flag }
{
    match version {
        Version::Ac1014 => common.linetype_flag == 0,
        Version::Ac1015 => true,
    }
}

/// Reads what the entity of the handle `base` begins with, as it is parsed. Err: out of memory, which is
/// taken only for what is there.
pub(crate) fn read_start(
    alloc: Global,
    layout: Layout,
    cursor: &mut BitCursor<'_>,
    base: Handle,
) -> Result<Option<Start>, NoMemory>
    ensures parsed { IfOk result (λ found. Parses (entity_start layout base) (option_map start_read found) cursor.old cursor.new) }
    ensures kept { Keeps cursor.old cursor.new }
{
    let Some(app) = read_items(alloc, cursor, base)? else {
        return Ok(None);
    };
    let Some(graphic) = read_graphic(alloc, cursor)? else {
        return Ok(None);
    };
    let Some(()) = read_bit_size(layout, cursor) else {
        return Ok(None);
    };
    let Some(mode) = read_mode(cursor) else {
        return Ok(None);
    };
    let Some(reactors) = parse_code::<CodeBL>(&(), cursor) else {
        return Ok(None);
    };
    let Some(bylayer) = parse_given::<CodeB>(&(), !layout.version.is_newer(), true, cursor) else {
        return Ok(None);
    };
    let Some(nolinks) = parse_code::<CodeB>(&(), cursor) else {
        return Ok(None);
    };
    Ok(Some(Start {
        app,
        graphic,
        mode,
        reactors,
        bylayer,
        nolinks,
    }))
}

/// Whether what an entity begins with can be given: its application data and its picture can, its mode is 0, 1 or 2, and it
/// has fewer than 2^32 reactors.
pub(crate) fn start_fits(common: &EntityCommon, layout: Layout, base: Handle) -> bool
    ensures { IsTrue result ↔ (entity_start layout base).IsValue (start_of layout.version common.now) }
{
    if !app_fits(common.app.as_slice(), base) {
        return false;
    }
    if !graphic_fits(&common.graphic) {
        return false;
    }
    if common.mode > LAST_MODE {
        return false;
    }
    common.reactors.as_slice().len() < TOO_MANY
}

/// How many bits what an entity begins with is written by.
pub(crate) fn start_bits(common: &EntityCommon, layout: Layout, base: Handle) -> u64
    requires value { (entity_start layout base).IsValue (start_of layout.version common.now) }
    requires few { length ((entity_start layout base).short (start_of layout.version common.now)) < 2 ^ 62 }
    ensures { result ≡ length ((entity_start layout base).short (start_of layout.version common.now)) }
{
    let reactors = common.reactors.as_slice().len() as u32;
    app_length(common.app.as_slice(), base)
        + graphic_bits(&common.graphic)
        + bit_size_bits(layout)
        + CodeBB::length(&(), &common.mode)
        + CodeBL::length(&(), &reactors)
        + length_given::<CodeB>(
            &(),
            !layout.version.is_newer(),
            true,
            &is_by_layer(common, layout.version),
        )
        + CodeB::length(&(), &common.links.is_none())
}

/// Writes what an entity begins with.
pub(crate) fn write_start(common: &EntityCommon, layout: Layout, base: Handle, sink: &mut BitSink)
    requires value { (entity_start layout base).IsValue (start_of layout.version common.now) }
    requires room { length ((entity_start layout base).short (start_of layout.version common.now)) ≤ sink.old.spare }
    ensures { Extends sink.old sink.new ((entity_start layout base).short (start_of layout.version common.now)) }
{
    let reactors = common.reactors.as_slice().len() as u32;
    write_app(common.app.as_slice(), base, sink);
    write_graphic(&common.graphic, sink);
    write_bit_size(layout, sink);
    CodeBB::write(&(), &common.mode, sink);
    CodeBL::write(&(), &reactors, sink);
    write_given::<CodeB>(
        &(),
        !layout.version.is_newer(),
        true,
        &is_by_layer(common, layout.version),
        sink,
    );
    CodeB::write(&(), &common.links.is_none(), sink);
}
