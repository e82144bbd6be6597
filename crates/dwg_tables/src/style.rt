//! Text styles.

ghost use Rattle.dwg_common.proofs.LayoutLemmas.{same_alike};
ghost use Rattle.dwg_tables.specs.StyleBody.{style_body};
ghost use Rattle.dwg_tables.specs.TableLaws.{style_is_body};

use crate::entry::{Entry, entry_of};
use crate::table_field;
use dwg_base::{ByteRun, Handle, NoMemory};
use dwg_bits::{BitCursor, BitSink};
use dwg_common::{BodyCode, BodyCode14, Layout, Lengths, field, reference, row};
use std::alloc::Global;

/// A text style (Open Design Specification, "SHAPEFILE").
#[derive(Drop)]
pub struct Style {
    /// Its name, and where it is from.
    pub entry: Entry,
    /// The first of two bits that are kept without meaning.
    pub flag_a: bool,
    /// The second of them.
    pub flag_b: bool,
    /// How high its letters are, the word of a floating-point number; of 0.0 where each text says so.
    pub height: u64,
    /// How wide its letters are for their height, the word of a floating-point number.
    pub width: u64,
    /// How oblique its letters are, the word of an angle.
    pub oblique: u64,
    /// How its letters are mirrored.
    pub generation: u8,
    /// How high the last text was, the word of a floating-point number.
    pub last_height: u64,
    /// The name of the file of its letters, at most 65,535 bytes.
    pub font: ByteRun,
    /// The name of the file of its big letters, at most 65,535 bytes.
    pub big_font: ByteRun,
}

/// The form of the letters of a text style.
#[derive(Clone, Copy)]
pub(crate) struct Form {
    /// The first flag.
    pub(crate) flag_a: bool,
    /// The second.
    pub(crate) flag_b: bool,
    /// How high they are.
    pub(crate) height: u64,
    /// How wide they are for their height.
    pub(crate) width: u64,
    /// How oblique they are.
    pub(crate) oblique: u64,
    /// How they are mirrored.
    pub(crate) generation: u8,
    /// How high the last text was.
    pub(crate) last_height: u64,
}

/// What is done with the fields of a text style.
macro_rules! style_row {
    ($($done:tt)*) => {
        row!(table_field [Style {
            entry: entry_of(entry, xref),
            flag_a: form.flag_a,
            flag_b: form.flag_b,
            height: form.height,
            width: form.width,
            oblique: form.oblique,
            generation: form.generation,
            last_height: form.last_height,
            font,
            big_font,
        };
            entry: Title,
            form: Form,
            font: Tv,
            big_font: Tv;
            xref = entry.xref
        ] $($done)*)
    };
}

#[tactic(auto, unfolding(crate::specs::StyleBody::style_body, dwg_grammar::specs::ReferenceCodes::reference))]
impl BodyCode for Style {
    ghost grammar = { λ layout. style_body };

    fn parse(
        alloc: Global,
        layout: Layout,
        main: &mut BitCursor<'_>,
        refs: &mut BitCursor<'_>,
        base: Handle,
    ) -> Result<Option<Style>, NoMemory> {
        style_row!(parse alloc, layout.version, main, refs, base)
    }

    fn fits_in(&self, layout: Layout, base: Handle) -> bool {
        style_row!(fits self, layout.version, base)
    }

    fn lengths_in(&self, layout: Layout, base: Handle) -> Lengths {
        Lengths {
            main: style_row!(bits self, layout.version),
            refs: style_row!(refs_bits self, layout.version, base),
        }
    }

    fn write_main_in(&self, layout: Layout, _base: Handle, sink: &mut BitSink) {
        style_row!(write self, layout.version, sink);
    }

    fn write_refs_in(&self, layout: Layout, base: Handle, sink: &mut BitSink) {
        style_row!(write_refs self, layout.version, base, sink);
    }

    ghost laws = { λ layout base few small. style_is_body base small };
}

impl BodyCode14 for Style {
    ghost narrower = { λ base value fits. fits };

    ghost sizes_alike = { λ size base value. same_alike (style_body base) value };
}
