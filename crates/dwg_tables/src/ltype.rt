//! Linetypes.

ghost use Rattle.std.specs.Prelude.{◌≡◌, length, IfOk, IfSome};
ghost use Rattle.dwg_common.proofs.LayoutLemmas.{same_alike};
ghost use Rattle.dwg_common.specs.Parsing.{Keeps, Parses};
ghost use Rattle.dwg_tables.specs.LtypeBody.{ltype_body, ltype_refs};
ghost use Rattle.dwg_tables.specs.TableLaws.{ltype_is_body};
ghost use Rattle.dwg_tables.specs.TableReading.{pattern_read};

use crate::entry::{Entry, Title, entry_of};
use crate::members::{join_all, names_fit, parts_bits, read_names, write_parts};
use crate::pattern::{pattern_bits, pattern_fits, read_pattern, write_pattern};
use dwg_base::{ByteRun, Handle, Items, NoMemory};
use dwg_bits::{BitCursor, BitSink};
use dwg_common::{BodyCode, BodyCode14, Layout, Lengths, parse_ref};
use dwg_handles::{CodeH, Ref, ref_bits, write_ref};
use std::alloc::Global;
use std::marker::Model;

/// A dash of a linetype, a gap or a sign in it (Open Design Specification, "LTYPE").
#[derive(Clone, Copy, Debug, PartialEq, Eq)]
pub struct Dash {
    /// How long it is, the word of a floating-point number: a gap where this is below 0.0, a point where it is 0.0.
    pub length: u64,
    /// Which sign of the file of shapes it is, where it is one.
    pub code: u16,
    /// How far its sign stands from it along the line, the word of a floating-point number.
    pub x: u64,
    /// How far across the line.
    pub y: u64,
    /// By how much its sign is scaled, the word of a floating-point number.
    pub scale: u64,
    /// How its sign is turned, the word of an angle.
    pub rotation: u64,
    /// What is given of its sign by single bits.
    pub flag: u16,
    /// The text style of its sign; it may be null.
    pub style: Ref,
}

/// A linetype (Open Design Specification, "LTYPE").
#[derive(Drop)]
pub struct Ltype {
    /// Its name, and where it is from.
    pub entry: Entry,
    /// What it looks like, in words, at most 65,535 bytes.
    pub description: ByteRun,
    /// How long its pattern is, the word of a floating-point number.
    pub length: u64,
    /// How it is aligned: any byte is kept; the specification names the letter A alone.
    pub alignment: u8,
    /// The dashes of its pattern, at most 255.
    pub dashes: Items<Dash>,
    /// The texts of its dashes: 256 bytes.
    pub texts: ByteRun,
}

/// What the main bits of a dash give. Contracts see it as these in the order in which they stand.
#[derive(Drop)]
pub(crate) struct Stroke {
    /// How long it is.
    pub(crate) length: u64,
    /// Which sign it is.
    pub(crate) code: u16,
    /// How far its sign stands from it along the line.
    pub(crate) x: u64,
    /// How far across the line.
    pub(crate) y: u64,
    /// By how much its sign is scaled.
    pub(crate) scale: u64,
    /// How its sign is turned.
    pub(crate) rotation: u64,
    /// What is given of its sign by single bits.
    pub(crate) flag: u16,
}

impl Model for Stroke {
    ghost use Rattle.dwg_tables.specs.LtypeBody.{StrokeParts};

    ghost Value = { StrokeParts };

    ghost view = { λ stroke. (stroke.length, (stroke.code, (stroke.x, (stroke.y, (stroke.scale, (stroke.rotation, stroke.flag)))))) };
}

/// What the main bits of a linetype give.
#[derive(Drop)]
pub(crate) struct Pattern {
    /// What those of its entry give.
    pub(crate) title: Title,
    /// What it looks like, in words.
    pub(crate) description: ByteRun,
    /// How long its pattern is.
    pub(crate) length: u64,
    /// How it is aligned.
    pub(crate) alignment: u8,
    /// What those of its dashes give.
    pub(crate) strokes: Items<Stroke>,
    /// The texts of its dashes.
    pub(crate) texts: ByteRun,
}

/// Reads what a linetype names, as it is parsed: a style for each dash. Err: out of memory, which is taken
/// only for references that are there.
fn read_named(
    alloc: Global,
    parsed: &Pattern,
    refs: &mut BitCursor<'_>,
    base: Handle,
) -> Result<Option<(Ref, Items<Ref>)>, NoMemory>
    ensures parsed { IfOk result (λ found. Parses (ltype_refs base (pattern_read parsed.now)).grammar found refs.old refs.new) }
    ensures as_many { IfOk result (λ found. IfSome found (λ named. length named.1 ≡ length parsed.now.strokes)) }
    ensures kept { Keeps refs.old refs.new }
{
    let Some(xref) = parse_ref(refs, base) else {
        return Ok(None);
    };
    let Some(styles) = read_names(alloc, parsed.strokes.as_slice(), refs, base)? else {
        return Ok(None);
    };
    Ok(Some((xref, styles)))
}

#[tactic(auto, unfolding(crate::specs::LtypeBody::ltype_body, dwg_grammar::specs::ReferenceCodes::reference, dwg_grammar::specs::Combinators::chain), using(dwg_common::proofs::MemberLemmas::parts_counted))]
impl BodyCode for Ltype {
    ghost grammar = { λ layout. ltype_body };

    fn parse(
        alloc: Global,
        _layout: Layout,
        main: &mut BitCursor<'_>,
        refs: &mut BitCursor<'_>,
        base: Handle,
    ) -> Result<Option<Ltype>, NoMemory> {
        let Some(parsed) = read_pattern(alloc, main)? else {
            return Ok(None);
        };
        let Some(named) = read_named(alloc, &parsed, refs, base)? else {
            return Ok(None);
        };
        let dashes = join_all::<Stroke, Dash>(
            alloc,
            parsed.strokes.as_slice(),
            named.1.as_slice(),
        )?;
        Ok(Some(Ltype {
            entry: entry_of(parsed.title, named.0),
            description: parsed.description,
            length: parsed.length,
            alignment: parsed.alignment,
            dashes,
            texts: parsed.texts,
        }))
    }

    fn fits_in(&self, _layout: Layout, base: Handle) -> bool {
        if !pattern_fits(self) {
            return false;
        }
        if !self.entry.xref.fits(base) {
            return false;
        }
        names_fit(self.dashes.as_slice(), base)
    }

    fn lengths_in(&self, _layout: Layout, base: Handle) -> Lengths {
        Lengths {
            main: pattern_bits(self),
            refs: ref_bits(self.entry.xref, base)
                + parts_bits::<CodeH, Dash>(&base, self.dashes.as_slice()),
        }
    }

    fn write_main_in(&self, _layout: Layout, _base: Handle, sink: &mut BitSink) {
        write_pattern(self, sink);
    }

    fn write_refs_in(&self, _layout: Layout, base: Handle, sink: &mut BitSink) {
        write_ref(self.entry.xref, base, sink);
        write_parts::<CodeH, Dash>(&base, self.dashes.as_slice(), sink);
    }

    ghost laws = { λ layout base few small. ltype_is_body base small };
}

impl BodyCode14 for Ltype {
    ghost narrower = { λ base value fits. fits };

    ghost sizes_alike = { λ size base value. same_alike (ltype_body base) value };
}
