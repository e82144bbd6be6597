//! An insert of a block in columns and rows.

ghost use Rattle.std.specs.Prelude.{◌≡◌, ◌≤◌, length};
ghost use Rattle.dwg_bits.specs.Sink.{Extends};
ghost use Rattle.dwg_entities.specs.BodiesLaws.{minsert_is_body};
ghost use Rattle.dwg_entities.specs.MInsertBody.{minsert_body, minsert_more, repeats_of};

use crate::insert::Insert;
use dwg_base::{Handle, NoMemory, Version};
use dwg_bits::{BitCursor, BitSink};
use dwg_codes::{BitCode, CodeBD, CodeBS};
use dwg_common::{BodyCode, Layout, Lengths, parse_code};
use std::alloc::Global;

/// The layout of its insert: only AC1015 has these.
const NEWER: Layout = Layout {
    version: Version::Ac1015,
    size: 0,
};

/// An insert of a block that is repeated in columns and rows (Open Design Specification, "MINSERT").
#[derive(Clone, Copy, Debug, PartialEq, Eq)]
pub struct MInsert {
    /// The insert that is repeated.
    pub insert: Insert,
    /// How many columns there are.
    pub columns: u16,
    /// How many rows there are.
    pub rows: u16,
    /// How far a column is from the next, the word of a floating-point number.
    pub column_spacing: u64,
    /// How far a row is from the next, the word of a floating-point number.
    pub row_spacing: u64,
}

/// Writes its columns and rows.
fn write_repeats(minsert: &MInsert, sink: &mut BitSink)
    requires value { minsert_more.IsValue (repeats_of minsert.now).1 }
    requires room { length (minsert_more.short (repeats_of minsert.now).1) ≤ sink.old.spare }
    ensures { Extends sink.old sink.new (minsert_more.short (repeats_of minsert.now).1) }
{
    CodeBS::write(&(), &minsert.columns, sink);
    CodeBS::write(&(), &minsert.rows, sink);
    CodeBD::write(&(), &minsert.column_spacing, sink);
    CodeBD::write(&(), &minsert.row_spacing, sink);
}

impl BodyCode for MInsert {
    ghost grammar = { λ layout. minsert_body };

    #[tactic(auto, using(crate::proofs::GoingOn::minsert_parsed))]
    fn parse(
        alloc: Global,
        _layout: Layout,
        main: &mut BitCursor<'_>,
        refs: &mut BitCursor<'_>,
        base: Handle,
    ) -> Result<Option<MInsert>, NoMemory> {
        let Some(insert) = Insert::parse(alloc, NEWER, main, refs, base)? else {
            return Ok(None);
        };
        let Some(columns) = parse_code::<CodeBS>(&(), main) else {
            return Ok(None);
        };
        let Some(rows) = parse_code::<CodeBS>(&(), main) else {
            return Ok(None);
        };
        let Some(column_spacing) = parse_code::<CodeBD>(&(), main) else {
            return Ok(None);
        };
        let Some(row_spacing) = parse_code::<CodeBD>(&(), main) else {
            return Ok(None);
        };
        Ok(Some(MInsert {
            insert,
            columns,
            rows,
            column_spacing,
            row_spacing,
        }))
    }

    #[tactic(auto, unfolding(crate::specs::MInsertBody::minsert_body, crate::specs::MInsertBody::minsert_main, crate::specs::InsertBody::insert_body))]
    fn fits_in(&self, _layout: Layout, base: Handle) -> bool {
        // Their codes give every number of their types.
        let _columns = self.columns;
        let _rows = self.rows;
        let _column_spacing = self.column_spacing;
        let _row_spacing = self.row_spacing;
        self.insert.fits(base)
    }

    #[tactic(auto, unfolding(crate::specs::MInsertBody::minsert_body, crate::specs::MInsertBody::minsert_main, crate::specs::InsertBody::insert_body))]
    fn lengths_in(&self, _layout: Layout, base: Handle) -> Lengths {
        let insert = self.insert.lengths(base);
        Lengths {
            main: insert.main
                + CodeBS::length(&(), &self.columns)
                + CodeBS::length(&(), &self.rows)
                + CodeBD::length(&(), &self.column_spacing)
                + CodeBD::length(&(), &self.row_spacing),
            refs: insert.refs,
        }
    }

    #[tactic(auto, unfolding(crate::specs::MInsertBody::minsert_body, crate::specs::MInsertBody::minsert_main, crate::specs::InsertBody::insert_body))]
    fn write_main_in(&self, _layout: Layout, base: Handle, sink: &mut BitSink) {
        self.insert.write_main(base, sink);
        write_repeats(self, sink);
    }

    #[tactic(auto, unfolding(crate::specs::MInsertBody::minsert_body, crate::specs::MInsertBody::minsert_main, crate::specs::InsertBody::insert_body))]
    fn write_refs_in(&self, _layout: Layout, base: Handle, sink: &mut BitSink) {
        self.insert.write_refs(base, sink);
    }

    ghost laws = { λ layout base few small. minsert_is_body base small };
}
