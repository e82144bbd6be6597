//! The picture of an entity, as bits (Open Design Specification, "Common entity data").
#![tactic(auto, unfolding(crate::specs::Pictures::graphic))]

ghost use Rattle.std.specs.Prelude.{◌≡◌, ◌^◌, ◌<◌, ◌≤◌, ◌↔◌, length, IfOk, IsTrue};
ghost use Rattle.dwg_bits.specs.Sink.{Extends};
ghost use Rattle.dwg_common.specs.Parsing.{Keeps, Parses};
ghost use Rattle.dwg_common.specs.Pictures.{graphic};

use crate::part_reading::parse_code;
use crate::sized::{parse_sized_by, sized_bits_by, sized_fits, write_sized_by};
use dwg_base::{ByteRun, NoMemory};
use dwg_bits::{BitCursor, BitSink};
use dwg_codes::{BitCode, CodeB, CodeRL};
use std::alloc::Global;

/// Reads the picture of an entity as it is parsed. Err: out of memory, which is taken only for bytes that
/// are there.
pub(crate) fn read_graphic(
    alloc: Global,
    cursor: &mut BitCursor<'_>,
) -> Result<Option<Option<ByteRun>>, NoMemory>
    ensures parsed { IfOk result (λ found. Parses graphic found cursor.old cursor.new) }
    ensures kept { Keeps cursor.old cursor.new }
{
    let Some(there) = parse_code::<CodeB>(&(), cursor) else {
        return Ok(None);
    };
    if !there {
        return Ok(Some(None));
    }
    let Some(bytes) = parse_sized_by::<CodeRL>(alloc, cursor)? else {
        return Ok(None);
    };
    Ok(Some(Some(bytes)))
}

/// Whether the picture of an entity can be given: it has fewer than 2^32 bytes.
pub(crate) fn graphic_fits(picture: &Option<ByteRun>) -> bool
    ensures { IsTrue result ↔ graphic.IsValue picture.now }
{
    match picture {
        Some(bytes) => sized_fits(bytes.as_slice()),
        None => true,
    }
}

/// How many bits the picture of an entity is written by.
pub(crate) fn graphic_bits(picture: &Option<ByteRun>) -> u64
    requires { graphic.IsValue picture.now }
    ensures length { result ≡ length (graphic.short picture.now) }
    ensures few { result < 2 ^ 37 }
{
    match picture {
        Some(bytes) => CodeB::length(&(), &true) + sized_bits_by::<CodeRL>(bytes.as_slice()),
        None => CodeB::length(&(), &false),
    }
}

/// Writes the picture of an entity.
pub(crate) fn write_graphic(picture: &Option<ByteRun>, sink: &mut BitSink)
    requires value { graphic.IsValue picture.now }
    requires room { length (graphic.short picture.now) ≤ sink.old.spare }
    ensures { Extends sink.old sink.new (graphic.short picture.now) }
{
    match picture {
        Some(bytes) => {
            CodeB::write(&(), &true, sink);
            write_sized_by::<CodeRL>(bytes.as_slice(), sink);
        }
        None => CodeB::write(&(), &false, sink),
    }
}
