//! How an entity looks, as bits (Open Design Specification, "Common entity data").

ghost use Rattle.std.specs.Prelude.{◌≡◌, ◌^◌, ◌<◌, ◌≤◌, ◌↔◌, length, option_map, IsTrue, if◌then◌else◌};
ghost use Rattle.dwg_grammar.specs.Codes.{bb, rc};
ghost use Rattle.dwg_grammar.specs.Versions.{given};
ghost use Rattle.dwg_bits.specs.Sink.{Extends};
ghost use Rattle.dwg_common.specs.Parsing.{Keeps, Parses};
ghost use Rattle.dwg_common.specs.Entities.{bylayer_of, entity_look, look_of};
ghost use Rattle.dwg_common.specs.EntityReading.{look_read};

use crate::entity::{EntityCommon, Look};
use crate::entity_start::is_by_layer;
use crate::part_reading::parse_code;
use crate::version_only::{length_given, parse_given, write_given};
use dwg_base::Version;
use dwg_bits::{BitCursor, BitSink};
use dwg_codes::{BitCode, CodeBB, CodeBD, CodeBS, CodeRC};

/// The last value of a flag: it is a BB.
const LAST_FLAG: u8 = 3;

/// The flag of a linetype that is named.
const NAMED: u8 = 3;

/// The flag of a linetype that is the layer's, or is named.
fn parsed_flag(bylayer: bool) -> u8
    ensures { result ≡ if bylayer then 0 else 3 }
{
    if bylayer { 0 } else { NAMED }
}

/// Reads how an entity looks, as it is parsed.
pub(crate) fn read_look(version: Version, bylayer: bool, cursor: &mut BitCursor<'_>) -> Option<Look>
    ensures parsed { Parses (entity_look version bylayer) (option_map look_read result) cursor.old cursor.new }
    ensures kept { Keeps cursor.old cursor.new }
{
    let newer = version.is_newer();
    let colour = parse_code::<CodeBS>(&(), cursor)?;
    let linetype_scale = parse_code::<CodeBD>(&(), cursor)?;
    let linetype_flag = parse_given::<CodeBB>(&(), newer, parsed_flag(bylayer), cursor)?;
    let plotstyle_flag = parse_given::<CodeBB>(&(), newer, 0, cursor)?;
    let invisible = parse_code::<CodeBS>(&(), cursor)?;
    let lineweight = parse_given::<CodeRC>(&(), newer, 0, cursor)?;
    Some(Look {
        colour,
        linetype_scale,
        linetype_flag,
        plotstyle_flag,
        invisible,
        lineweight,
    })
}

/// Whether a flag can be given: it is 0 to 3, or where nothing is spelled of it the fixed one.
fn flag_fits(newer: bool, fixed: u8, flag: u8) -> bool
    ensures { IsTrue result ↔ (given newer fixed bb).IsValue flag }
{
    if newer {
        return flag <= LAST_FLAG;
    }
    flag == fixed
}

/// Whether a byte can be given: it is any, or where nothing is spelled of it the fixed one.
fn byte_fits(newer: bool, fixed: u8, byte: u8) -> bool
    ensures { IsTrue result ↔ (given newer fixed rc).IsValue byte }
{
    newer || byte == fixed
}

/// Whether the look of an entity can be given: its flags are 0 to 3, and what the version doesn't spell is fixed.
pub(crate) fn look_fits(common: &EntityCommon, version: Version) -> bool
    ensures { IsTrue result ↔ (entity_look version (bylayer_of version common.now.linetype_flag)).IsValue (look_of common.now) }
{
    // The codes of the others give every number of their types.
    let _colour = common.colour;
    let _linetype_scale = common.linetype_scale;
    let _invisible = common.invisible;
    let newer = version.is_newer();
    let bylayer = is_by_layer(common, version);
    if !flag_fits(newer, parsed_flag(bylayer), common.linetype_flag) {
        return false;
    }
    if !flag_fits(newer, 0, common.plotstyle_flag) {
        return false;
    }
    byte_fits(newer, 0, common.lineweight)
}

/// How many bits the look of an entity is written by.
pub(crate) fn look_bits(common: &EntityCommon, version: Version) -> u64
    requires { (entity_look version (bylayer_of version common.now.linetype_flag)).IsValue (look_of common.now) }
    ensures length { result ≡ length ((entity_look version (bylayer_of version common.now.linetype_flag)).short (look_of common.now)) }
    ensures few { result < 2 ^ 36 }
{
    let newer = version.is_newer();
    let parsed = parsed_flag(is_by_layer(common, version));
    CodeBS::length(&(), &common.colour)
        + CodeBD::length(&(), &common.linetype_scale)
        + length_given::<CodeBB>(&(), newer, parsed, &common.linetype_flag)
        + length_given::<CodeBB>(&(), newer, 0, &common.plotstyle_flag)
        + CodeBS::length(&(), &common.invisible)
        + length_given::<CodeRC>(&(), newer, 0, &common.lineweight)
}

/// Writes how an entity looks.
pub(crate) fn write_look(common: &EntityCommon, version: Version, sink: &mut BitSink)
    requires value { (entity_look version (bylayer_of version common.now.linetype_flag)).IsValue (look_of common.now) }
    requires room { length ((entity_look version (bylayer_of version common.now.linetype_flag)).short (look_of common.now)) ≤ sink.old.spare }
    ensures { Extends sink.old sink.new ((entity_look version (bylayer_of version common.now.linetype_flag)).short (look_of common.now)) }
{
    let newer = version.is_newer();
    let parsed = parsed_flag(is_by_layer(common, version));
    CodeBS::write(&(), &common.colour, sink);
    CodeBD::write(&(), &common.linetype_scale, sink);
    write_given::<CodeBB>(&(), newer, parsed, &common.linetype_flag, sink);
    write_given::<CodeBB>(&(), newer, 0, &common.plotstyle_flag, sink);
    CodeBS::write(&(), &common.invisible, sink);
    write_given::<CodeRC>(&(), newer, 0, &common.lineweight, sink);
}
