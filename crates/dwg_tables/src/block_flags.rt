//! What single bits of the header of a block give (Open Design Specification, "BLOCK HEADER").
#![tactic(auto, unfolding(crate::specs::BlockHeaderBody::block_flags))]

ghost use Rattle.std.specs.Prelude.{◌≡◌, ◌^◌, ◌<◌, ◌≤◌, ◌↔◌, length, false, option_map, IsTrue};
ghost use Rattle.dwg_bits.specs.Sink.{Extends};
ghost use Rattle.dwg_common.specs.Parsing.{Keeps, Parses};
ghost use Rattle.dwg_grammar.specs.Codes.{b};
ghost use Rattle.dwg_grammar.specs.Versions.{since_1015};
ghost use Rattle.dwg_tables.specs.BlockHeaderBody.{block_flags, flags_of};
ghost use Rattle.dwg_tables.specs.TableReading.{flags_read};

use crate::block_header::{BlockFlags, BlockHeader};
use dwg_base::Version;
use dwg_bits::{BitCursor, BitSink};
use dwg_codes::{BitCode, CodeB};
use dwg_common::{length_given, parse_code, parse_given, write_given};

/// What `loaded` is in AC1014, which doesn't give it.
const NOT_PARSED: bool = false;

/// Reads whether the other drawing is loaded, as it is parsed.
fn read_loaded(version: Version, cursor: &mut BitCursor<'_>) -> Option<bool>
    ensures parsed { Parses (since_1015 version false b) result cursor.old cursor.new }
    ensures kept { Keeps cursor.old cursor.new }
{
    parse_given::<CodeB>(&(), version.is_newer(), NOT_PARSED, cursor)
}

/// Reads the flags of a header, as they are parsed.
pub(crate) fn read_flags(version: Version, cursor: &mut BitCursor<'_>) -> Option<BlockFlags>
    ensures parsed { Parses (block_flags version) (option_map flags_read result) cursor.old cursor.new }
    ensures kept { Keeps cursor.old cursor.new }
{
    let anonymous = parse_code::<CodeB>(&(), cursor)?;
    let has_attributes = parse_code::<CodeB>(&(), cursor)?;
    let is_xref = parse_code::<CodeB>(&(), cursor)?;
    let overlaid = parse_code::<CodeB>(&(), cursor)?;
    let loaded = read_loaded(version, cursor)?;
    Some(BlockFlags {
        anonymous,
        has_attributes,
        is_xref,
        overlaid,
        loaded,
    })
}

/// Whether the flags of a header can be given: in AC1014 `loaded` isn't set.
pub(crate) fn flags_fit(version: Version, header: &BlockHeader) -> bool
    ensures { IsTrue result ↔ (block_flags version).IsValue (flags_of header.now) }
{
    match version {
        Version::Ac1014 => header.loaded == NOT_PARSED,
        Version::Ac1015 => true,
    }
}

/// How many bits the flags of a header are written by.
pub(crate) fn flags_bits(version: Version, header: &BlockHeader) -> u64
    requires { (block_flags version).IsValue (flags_of header.now) }
    ensures length { result ≡ length ((block_flags version).short (flags_of header.now)) }
    ensures few { result < 2 ^ 36 }
{
    CodeB::length(&(), &header.anonymous)
        + CodeB::length(&(), &header.has_attributes)
        + CodeB::length(&(), &header.is_xref)
        + CodeB::length(&(), &header.overlaid)
        + length_given::<CodeB>(&(), version.is_newer(), NOT_PARSED, &header.loaded)
}

/// Writes the flags of a header.
pub(crate) fn write_flags(version: Version, header: &BlockHeader, sink: &mut BitSink)
    requires value { (block_flags version).IsValue (flags_of header.now) }
    requires room { length ((block_flags version).short (flags_of header.now)) ≤ sink.old.spare }
    ensures { Extends sink.old sink.new ((block_flags version).short (flags_of header.now)) }
{
    CodeB::write(&(), &header.anonymous, sink);
    CodeB::write(&(), &header.has_attributes, sink);
    CodeB::write(&(), &header.is_xref, sink);
    CodeB::write(&(), &header.overlaid, sink);
    write_given::<CodeB>(&(), version.is_newer(), NOT_PARSED, &header.loaded, sink);
}
