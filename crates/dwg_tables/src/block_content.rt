//! What the main bits of the header of a block give after its flags (Open Design Specification, "BLOCK HEADER").
#![tactic(auto, unfolding(crate::specs::BlockHeaderBody::block_content))]

ghost use Rattle.std.specs.Prelude.{◌≡◌, ◌^◌, ◌<◌, ◌≤◌, ◌↔◌, length, option_map, IfOk, IsTrue};
ghost use Rattle.dwg_bits.specs.Sink.{Extends};
ghost use Rattle.dwg_common.specs.Parsing.{Keeps, Parses};
ghost use Rattle.dwg_tables.specs.BlockHeaderBody.{NO_EXTRAS, block_content, block_extras, content_of, extras_of, newer_extras};
ghost use Rattle.dwg_tables.specs.TableReading.{content_read, extras_read};

use crate::block_header::{BlockContent, BlockExtras, BlockHeader};
use crate::insert_marks::{counts_bits, counts_fit, read_counts, write_counts};
use dwg_base::{ByteRun, Items, NoMemory, Version};
use dwg_bits::{BitCursor, BitSink};
use dwg_codes::{BitCode, Code3BD};
use dwg_common::{
    parse_code, parse_sized, parse_tv, point_with_range, sized_bits, sized_fits, tv_bits, tv_fits,
    write_sized, write_tv,
};
use std::alloc::Global;

/// What there is of the extras in AC1014: nothing.
fn no_extras(alloc: Global) -> BlockExtras
    ensures { extras_read result ≡ NO_EXTRAS }
{
    BlockExtras {
        counts: Items::new(alloc),
        description: ByteRun::from_vec(Vec::new(alloc)),
        preview: ByteRun::from_vec(Vec::new(alloc)),
    }
}

/// Reads what AC1015 alone gives of the content, as it is parsed. Err: out of memory, which is taken only for what is there.
#[tactic(auto, unfolding(crate::specs::BlockHeaderBody::newer_extras))]
fn read_newer_extras(
    alloc: Global,
    cursor: &mut BitCursor<'_>,
) -> Result<Option<BlockExtras>, NoMemory>
    ensures parsed { IfOk result (λ found. Parses newer_extras (option_map extras_read found) cursor.old cursor.new) }
    ensures kept { Keeps cursor.old cursor.new }
{
    let Some(counts) = read_counts(alloc, cursor)? else {
        return Ok(None);
    };
    let Some(description) = parse_tv(alloc, cursor)? else {
        return Ok(None);
    };
    let Some(preview) = parse_sized(alloc, cursor)? else {
        return Ok(None);
    };
    Ok(Some(BlockExtras {
        counts,
        description,
        preview,
    }))
}

/// Reads the extras in a version, as they are parsed. Err: out of memory, which is taken only for what is there.
fn read_extras(
    alloc: Global,
    version: Version,
    cursor: &mut BitCursor<'_>,
) -> Result<Option<BlockExtras>, NoMemory>
    ensures parsed { IfOk result (λ found. Parses (block_extras version) (option_map extras_read found) cursor.old cursor.new) }
    ensures kept { Keeps cursor.old cursor.new }
{
    match version {
        Version::Ac1014 => Ok(Some(no_extras(alloc))),
        Version::Ac1015 => read_newer_extras(alloc, cursor),
    }
}

/// Reads the content of a header, as it is parsed. Err: out of memory, which is taken only for what is there.
pub(crate) fn read_content(
    alloc: Global,
    version: Version,
    cursor: &mut BitCursor<'_>,
) -> Result<Option<BlockContent>, NoMemory>
    ensures parsed { IfOk result (λ found. Parses (block_content version) (option_map content_read found) cursor.old cursor.new) }
    ensures kept { Keeps cursor.old cursor.new }
{
    let Some(base) = parse_code::<Code3BD>(&(), cursor) else {
        return Ok(None);
    };
    let Some(path) = parse_tv(alloc, cursor)? else {
        return Ok(None);
    };
    let Some(extras) = read_extras(alloc, version, cursor)? else {
        return Ok(None);
    };
    Ok(Some(BlockContent { base, path, extras }))
}

/// Whether there are no extras.
fn no_extras_fit(header: &BlockHeader) -> bool
    ensures { IsTrue result ↔ extras_of header.now ≡ NO_EXTRAS }
{
    if !header.inserts.as_slice().is_empty() {
        return false;
    }
    if !header.description.as_slice().is_empty() {
        return false;
    }
    header.preview.as_slice().is_empty()
}

/// Whether the extras can be given in AC1015: no mark has count 0, the description has at most 65,535 bytes, and the preview has fewer
/// than 2^32.
#[tactic(auto, unfolding(crate::specs::BlockHeaderBody::newer_extras))]
fn newer_extras_fit(header: &BlockHeader) -> bool
    ensures { IsTrue result ↔ newer_extras.IsValue (extras_of header.now) }
{
    if !counts_fit(header.inserts.as_slice()) {
        return false;
    }
    if !tv_fits(header.description.as_slice()) {
        return false;
    }
    sized_fits(header.preview.as_slice())
}

/// Whether the extras can be given in a version: AC1014 has none.
fn extras_fit(version: Version, header: &BlockHeader) -> bool
    ensures { IsTrue result ↔ (block_extras version).IsValue (extras_of header.now) }
{
    match version {
        Version::Ac1014 => no_extras_fit(header),
        Version::Ac1015 => newer_extras_fit(header),
    }
}

/// Whether the content of a header can be given: its path has at most 65,535 bytes, and its extras can be given.
pub(crate) fn content_fits(version: Version, header: &BlockHeader) -> bool
    ensures { IsTrue result ↔ (block_content version).IsValue (content_of header.now) }
{
    point_with_range(&header.base);
    if !tv_fits(header.path.as_slice()) {
        return false;
    }
    extras_fit(version, header)
}

/// How many bits the extras are written by in AC1015.
#[tactic(auto, unfolding(crate::specs::BlockHeaderBody::newer_extras))]
fn newer_extras_bits(header: &BlockHeader) -> u64
    requires value { newer_extras.IsValue (extras_of header.now) }
    requires few { length (newer_extras.short (extras_of header.now)) < 2 ^ 62 }
    ensures { result ≡ length (newer_extras.short (extras_of header.now)) }
{
    counts_bits(header.inserts.as_slice())
        + tv_bits(header.description.as_slice())
        + sized_bits(header.preview.as_slice())
}

/// How many bits the extras are written by in a version.
fn extras_bits(version: Version, header: &BlockHeader) -> u64
    requires value { (block_extras version).IsValue (extras_of header.now) }
    requires few { length ((block_extras version).short (extras_of header.now)) < 2 ^ 62 }
    ensures { result ≡ length ((block_extras version).short (extras_of header.now)) }
{
    match version {
        Version::Ac1014 => 0,
        Version::Ac1015 => newer_extras_bits(header),
    }
}

/// How many bits the content of a header is written by.
pub(crate) fn content_bits(version: Version, header: &BlockHeader) -> u64
    requires value { (block_content version).IsValue (content_of header.now) }
    requires few { length ((block_content version).short (content_of header.now)) < 2 ^ 62 }
    ensures { result ≡ length ((block_content version).short (content_of header.now)) }
{
    Code3BD::length(&(), &header.base)
        + tv_bits(header.path.as_slice())
        + extras_bits(version, header)
}

/// Writes the extras in AC1015.
#[tactic(auto, unfolding(crate::specs::BlockHeaderBody::newer_extras))]
fn write_newer_extras(header: &BlockHeader, sink: &mut BitSink)
    requires value { newer_extras.IsValue (extras_of header.now) }
    requires room { length (newer_extras.short (extras_of header.now)) ≤ sink.old.spare }
    ensures { Extends sink.old sink.new (newer_extras.short (extras_of header.now)) }
{
    write_counts(header.inserts.as_slice(), sink);
    write_tv(header.description.as_slice(), sink);
    write_sized(header.preview.as_slice(), sink);
}

/// Writes the extras in a version.
fn write_extras(version: Version, header: &BlockHeader, sink: &mut BitSink)
    requires value { (block_extras version).IsValue (extras_of header.now) }
    requires room { length ((block_extras version).short (extras_of header.now)) ≤ sink.old.spare }
    ensures { Extends sink.old sink.new ((block_extras version).short (extras_of header.now)) }
{
    match version {
        Version::Ac1014 => {}
        Version::Ac1015 => write_newer_extras(header, sink),
    }
}

/// Writes the content of a header.
pub(crate) fn write_content(version: Version, header: &BlockHeader, sink: &mut BitSink)
    requires value { (block_content version).IsValue (content_of header.now) }
    requires room { length ((block_content version).short (content_of header.now)) ≤ sink.old.spare }
    ensures { Extends sink.old sink.new ((block_content version).short (content_of header.now)) }
{
    Code3BD::write(&(), &header.base, sink);
    write_tv(header.path.as_slice(), sink);
    write_extras(version, header, sink);
}
