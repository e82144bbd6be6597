//! What the header of a block names, as bits (Open Design Specification, "BLOCK HEADER").

ghost use Rattle.std.specs.Prelude.{◌≡◌, ◌^◌, ◌<◌, ◌≤◌, ◌↔◌, length, option_map, IfOk, IfSome, IsTrue};
ghost use Rattle.dwg_bits.specs.Sink.{Extends};
ghost use Rattle.dwg_common.specs.Parsing.{Keeps, Parses};
ghost use Rattle.dwg_tables.specs.BlockHeaderBody.{block_refs, content_of, flags_of, has_ends, names_of};
ghost use Rattle.dwg_tables.specs.TableReading.{content_read, flags_read, names_read};

use crate::block_header::{BlockContent, BlockFlags, BlockHeader, BlockNames, InsertMark};
use crate::first_and_last::{CodeEnds, ends_fit_when};
use crate::members::{names_fit, parts_bits, read_names, write_parts};
use dwg_base::{Handle, NoMemory, Version};
use dwg_bits::{BitCursor, BitSink};
use dwg_codes::{BitCode, length_when, write_when};
use dwg_common::{
    parse_code, parse_ref_since, parse_when, ref_since_bits, ref_since_fits, write_ref_since,
};
use dwg_handles::CodeH;
use std::alloc::Global;

/// Whether the entities of a block are in this drawing: it is no external reference and no overlaid one.
fn has_ends(is_xref: bool, overlaid: bool) -> bool
    ensures { result ≡ has_ends is_xref overlaid }
{
    !is_xref && !overlaid
}

/// Reads what the header of the handle `base` names, as it is parsed: its entities where they are in this drawing, and an
/// insert for each of its marks. Err: out of memory, which is taken only for references that are there.
pub(crate) fn read_block_names(
    alloc: Global,
    version: Version,
    flags: BlockFlags,
    content: &BlockContent,
    cursor: &mut BitCursor<'_>,
    base: Handle,
) -> Result<Option<BlockNames>, NoMemory>
    ensures parsed { IfOk result (λ found. Parses (block_refs version base (flags_read flags, content_read content.now)).grammar (option_map names_read found) cursor.old cursor.new) }
    ensures as_many { IfOk result (λ found. IfSome found (λ names. length names.targets ≡ length content.now.extras.counts)) }
    ensures kept { Keeps cursor.old cursor.new }
{
    let Some(xref) = parse_code::<CodeH>(&base, cursor) else {
        return Ok(None);
    };
    let Some(block) = parse_code::<CodeH>(&base, cursor) else {
        return Ok(None);
    };
    let Some(ends) = parse_when::<CodeEnds>(&base, has_ends(flags.is_xref, flags.overlaid), cursor)
    else {
        return Ok(None);
    };
    let Some(endblk) = parse_code::<CodeH>(&base, cursor) else {
        return Ok(None);
    };
    let Some(targets) = read_names(alloc, content.extras.counts.as_slice(), cursor, base)? else {
        return Ok(None);
    };
    let Some(layout) = parse_ref_since(version, cursor, base) else {
        return Ok(None);
    };
    Ok(Some(BlockNames {
        xref,
        block,
        ends,
        endblk,
        targets,
        layout,
    }))
}

/// Whether what a header names can be given from it: its entities are there exactly where it is no external reference and no
/// overlaid one, and each reference reaches its target; in AC1014 its layout leads nowhere.
#[tactic(auto, unfolding(dwg_grammar::specs::ReferenceCodes::reference, dwg_grammar::specs::Combinators::chain), using(dwg_common::proofs::MemberLemmas::parts_counted))]
pub(crate) fn block_names_fit(version: Version, header: &BlockHeader, base: Handle) -> bool
    ensures { IsTrue result ↔ (block_refs version base (flags_of header.now, content_of header.now)).grammar.IsValue (names_of header.now) }
{
    if !header.entry.xref.fits(base) {
        return false;
    }
    if !header.block.fits(base) {
        return false;
    }
    if !ends_fit_when(
        has_ends(header.is_xref, header.overlaid),
        &header.ends,
        base,
    ) {
        return false;
    }
    if !header.endblk.fits(base) {
        return false;
    }
    if !names_fit(header.inserts.as_slice(), base) {
        return false;
    }
    ref_since_fits(version, &header.layout, base)
}

/// How many bits what a header names is written by.
#[tactic(auto, unfolding(dwg_grammar::specs::Combinators::chain))]
pub(crate) fn block_names_bits(version: Version, header: &BlockHeader, base: Handle) -> u64
    requires value { (block_refs version base (flags_of header.now, content_of header.now)).grammar.IsValue (names_of header.now) }
    requires few { length ((block_refs version base (flags_of header.now, content_of header.now)).grammar.short (names_of header.now)) < 2 ^ 62 }
    ensures { result ≡ length ((block_refs version base (flags_of header.now, content_of header.now)).grammar.short (names_of header.now)) }
{
    CodeH::length(&base, &header.entry.xref)
        + CodeH::length(&base, &header.block)
        + length_when::<CodeEnds>(
            &base,
            has_ends(header.is_xref, header.overlaid),
            &header.ends,
        )
        + CodeH::length(&base, &header.endblk)
        + parts_bits::<CodeH, InsertMark>(&base, header.inserts.as_slice())
        + ref_since_bits(version, &header.layout, base)
}

/// Writes what a header names.
#[tactic(auto, unfolding(dwg_grammar::specs::Combinators::chain))]
pub(crate) fn write_block_names(
    version: Version,
    header: &BlockHeader,
    base: Handle,
    sink: &mut BitSink,
)
    requires value { (block_refs version base (flags_of header.now, content_of header.now)).grammar.IsValue (names_of header.now) }
    requires room { length ((block_refs version base (flags_of header.now, content_of header.now)).grammar.short (names_of header.now)) ≤ sink.old.spare }
    ensures { Extends sink.old sink.new ((block_refs version base (flags_of header.now, content_of header.now)).grammar.short (names_of header.now)) }
{
    CodeH::write(&base, &header.entry.xref, sink);
    CodeH::write(&base, &header.block, sink);
    write_when::<CodeEnds>(
        &base,
        has_ends(header.is_xref, header.overlaid),
        &header.ends,
        sink,
    );
    CodeH::write(&base, &header.endblk, sink);
    write_parts::<CodeH, InsertMark>(&base, header.inserts.as_slice(), sink);
    write_ref_since(version, &header.layout, base, sink);
}
