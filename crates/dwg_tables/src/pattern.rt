//! What the main bits of a linetype give, as bits (Open Design Specification, "LTYPE").

ghost use Rattle.std.specs.Prelude.{◌≡◌, ◌^◌, ◌<◌, ◌≤◌, ◌↔◌, length, map, option_map, IfOk, IsTrue};
ghost use Rattle.dwg_bits.specs.Sink.{Extends};
ghost use Rattle.dwg_grammar.specs.Codes.{rc};
ghost use Rattle.dwg_grammar.specs.Combinators.{counted, items};
ghost use Rattle.dwg_common.specs.Parsing.{Keeps, Parses};
ghost use Rattle.dwg_tables.specs.LtypeBody.{ltype_main, pattern_of, stroke, stroke_of};
ghost use Rattle.dwg_tables.specs.TableReading.{pattern_read};

use crate::dash::{CodeStroke, known_strokes};
use crate::entry_start::{read_title, title_bits, title_fits, write_title};
use crate::ltype::{Dash, Ltype, Pattern, Stroke};
use crate::members::{parts_bits, write_parts};
use dwg_base::{Items, NoMemory};
use dwg_bits::{BitCursor, BitSink};
use dwg_codes::{BitCode, CodeBD, CodeRC, bytes_length, read_list, write_bytes};
use dwg_common::{parse_bytes, parse_code, parse_tv, tv_bits, tv_fits, write_tv};
use std::alloc::Global;

/// How many bytes the texts of the dashes of a linetype have.
const TEXTS: u32 = 256;

/// How many dashes can't be given: their count is an RC.
const TOO_MANY_DASHES: usize = 1 << 8;

/// Reads a count of dashes and what their main bits give, as they are parsed. Err: out of memory, which is
/// taken only for dashes that are there.
fn read_strokes(
    alloc: Global,
    cursor: &mut BitCursor<'_>,
) -> Result<Option<Items<Stroke>>, NoMemory>
    ensures parsed { IfOk result (λ found. Parses (counted rc stroke) found cursor.old cursor.new) }
    ensures kept { Keeps cursor.old cursor.new }
{
    let Some(count) = parse_code::<CodeRC>(&(), cursor) else {
        return Ok(None);
    };
    let Some(strokes) = read_list::<CodeStroke>(alloc, &(), u32::from(count), cursor)? else {
        return Ok(None);
    };
    Ok(Some(strokes))
}

/// Reads what the main bits of a linetype give, as it is parsed. Err: out of memory, which is taken only for
/// what is there.
#[tactic(auto, unfolding(crate::specs::LtypeBody::ltype_main))]
pub(crate) fn read_pattern(
    alloc: Global,
    cursor: &mut BitCursor<'_>,
) -> Result<Option<Pattern>, NoMemory>
    ensures parsed { IfOk result (λ found. Parses ltype_main (option_map pattern_read found) cursor.old cursor.new) }
    ensures kept { Keeps cursor.old cursor.new }
{
    let Some(title) = read_title(alloc, cursor)? else {
        return Ok(None);
    };
    let Some(description) = parse_tv(alloc, cursor)? else {
        return Ok(None);
    };
    let Some(length) = parse_code::<CodeBD>(&(), cursor) else {
        return Ok(None);
    };
    let Some(alignment) = parse_code::<CodeRC>(&(), cursor) else {
        return Ok(None);
    };
    let Some(strokes) = read_strokes(alloc, cursor)? else {
        return Ok(None);
    };
    let Some(texts) = parse_bytes(alloc, TEXTS, cursor)? else {
        return Ok(None);
    };
    Ok(Some(Pattern {
        title,
        description,
        length,
        alignment,
        strokes,
        texts,
    }))
}

/// Whether a count of 8 bits can give how many dashes there are.
#[tactic(auto, unfolding(dwg_grammar::specs::Combinators::chain), using(dwg_common::proofs::MemberLemmas::parts_counted))]
fn strokes_fit(dashes: &[Dash]) -> bool
    ensures { IsTrue result ↔ (counted rc stroke).IsValue (map stroke_of dashes.now) }
{
    known_strokes(dashes);
    dashes.len() < TOO_MANY_DASHES
}

/// Whether there are 256 bytes.
#[tactic(auto, using(dwg_base::proofs::ByteLists::are_bytes, dwg_grammar::proofs::ByteRunLemmas::values_of_bytes))]
fn texts_fit(texts: &[u8]) -> bool
    ensures { IsTrue result ↔ (items rc 256).IsValue texts.now }
{
    texts.len() == TEXTS as usize
}

/// Whether the main bits of a linetype can be given: its name and its description have at most 65,535 bytes each, it has at
/// most 255 dashes, and its texts have 256 bytes.
#[tactic(auto, unfolding(crate::specs::LtypeBody::ltype_main))]
pub(crate) fn pattern_fits(ltype: &Ltype) -> bool
    ensures { IsTrue result ↔ ltype_main.IsValue (pattern_of ltype.now) }
{
    // Their codes give every number of their types.
    let _length = ltype.length;
    let _alignment = ltype.alignment;
    if !title_fits(&ltype.entry) {
        return false;
    }
    if !tv_fits(ltype.description.as_slice()) {
        return false;
    }
    if !strokes_fit(ltype.dashes.as_slice()) {
        return false;
    }
    texts_fit(ltype.texts.as_slice())
}

/// How many bits a count of dashes and what their main bits give are written by.
#[tactic(auto, unfolding(dwg_grammar::specs::Combinators::chain), using(dwg_common::proofs::MemberLemmas::parts_counted))]
fn strokes_bits(dashes: &[Dash]) -> u64
    requires value { (counted rc stroke).IsValue (map stroke_of dashes.now) }
    requires few { length ((counted rc stroke).short (map stroke_of dashes.now)) < 2 ^ 62 }
    ensures { result ≡ length ((counted rc stroke).short (map stroke_of dashes.now)) }
{
    CodeRC::length(&(), &(dashes.len() as u8)) + parts_bits::<CodeStroke, Dash>(&(), dashes)
}

/// Writes a count of dashes and what their main bits give.
#[tactic(auto, unfolding(dwg_grammar::specs::Combinators::chain), using(dwg_common::proofs::MemberLemmas::parts_counted))]
fn write_strokes(dashes: &[Dash], sink: &mut BitSink)
    requires value { (counted rc stroke).IsValue (map stroke_of dashes.now) }
    requires room { length ((counted rc stroke).short (map stroke_of dashes.now)) ≤ sink.old.spare }
    ensures { Extends sink.old sink.new ((counted rc stroke).short (map stroke_of dashes.now)) }
{
    CodeRC::write(&(), &(dashes.len() as u8), sink);
    write_parts::<CodeStroke, Dash>(&(), dashes, sink);
}

/// Writes 256 bytes.
#[tactic(auto, unfolding(dwg_grammar::specs::Combinators::chain), using(dwg_codes::proofs::RunReading::length_of_run))]
fn write_texts(texts: &[u8], sink: &mut BitSink)
    requires { length ((items rc 256).short texts.now) ≤ sink.old.spare }
    ensures { Extends sink.old sink.new ((items rc 256).short texts.now) }
{
    write_bytes(texts, sink);
}

/// How many main bits a linetype is written by.
#[tactic(auto, unfolding(crate::specs::LtypeBody::ltype_main, dwg_grammar::specs::Combinators::chain))]
pub(crate) fn pattern_bits(ltype: &Ltype) -> u64
    requires value { ltype_main.IsValue (pattern_of ltype.now) }
    requires few { length (ltype_main.short (pattern_of ltype.now)) < 2 ^ 62 }
    ensures { result ≡ length (ltype_main.short (pattern_of ltype.now)) }
{
    title_bits(&ltype.entry)
        + tv_bits(ltype.description.as_slice())
        + CodeBD::length(&(), &ltype.length)
        + CodeRC::length(&(), &ltype.alignment)
        + strokes_bits(ltype.dashes.as_slice())
        + bytes_length(ltype.texts.as_slice())
}

/// Writes the main bits of a linetype.
#[tactic(auto, unfolding(crate::specs::LtypeBody::ltype_main))]
pub(crate) fn write_pattern(ltype: &Ltype, sink: &mut BitSink)
    requires value { ltype_main.IsValue (pattern_of ltype.now) }
    requires room { length (ltype_main.short (pattern_of ltype.now)) ≤ sink.old.spare }
    ensures { Extends sink.old sink.new (ltype_main.short (pattern_of ltype.now)) }
{
    write_title(&ltype.entry, sink);
    write_tv(ltype.description.as_slice(), sink);
    CodeBD::write(&(), &ltype.length, sink);
    CodeRC::write(&(), &ltype.alignment, sink);
    write_strokes(ltype.dashes.as_slice(), sink);
    write_texts(ltype.texts.as_slice(), sink);
}
