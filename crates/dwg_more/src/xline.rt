//! Lines without ends.

ghost use Rattle.std.specs.Prelude.{◌≡◌, ◌<◌, length};
ghost use Rattle.dwg_common.specs.Parsing.{Keeps, Parses};
ghost use Rattle.dwg_more.specs.MoreLaws.{xline_is_body};
ghost use Rattle.dwg_more.specs.Rays.{xline_body, xline_main};

use dwg_base::{Handle, NoMemory, Version};
use dwg_bits::{BitCursor, BitSink};
use dwg_codes::{Code3BD, Point3};
use dwg_common::{BodyCode, Layout, Lengths, field, row};
use std::alloc::Global;

/// A line that has no ends (Open Design Specification, "XLINE").
#[derive(Clone, Copy, Debug, PartialEq, Eq)]
pub struct XLine {
    /// A point of it.
    pub point: Point3,
    /// The direction in which it goes on, both ways.
    pub vector: Point3,
}

/// What is done with the fields of a line without ends.
macro_rules! xline_row {
    ($($done:tt)*) => {
        row!([XLine {
            point: Code3BD,
            vector: Code3BD,
        }] $($done)*)
    };
}

/// Reads a line without ends, as it is parsed.
#[tactic(auto, unfolding(crate::specs::Rays::xline_main))]
fn read_xline(cursor: &mut BitCursor<'_>) -> Option<XLine>
    ensures parsed { Parses xline_main result cursor.old cursor.new }
    ensures kept { Keeps cursor.old cursor.new }
{
    xline_row!(read Version::Ac1015, cursor)
}

impl BodyCode for XLine {
    ghost grammar = { λ layout. xline_body };

    fn parse(
        _alloc: Global,
        _layout: Layout,
        main: &mut BitCursor<'_>,
        _refs: &mut BitCursor<'_>,
        _base: Handle,
    ) -> Result<Option<XLine>, NoMemory> {
        Ok(read_xline(main))
    }

    #[tactic(auto, unfolding(crate::specs::Rays::xline_main))]
    fn fits_in(&self, _layout: Layout, _base: Handle) -> bool {
        xline_row!(known self, Version::Ac1015);
        true
    }

    #[tactic(auto, unfolding(crate::specs::Rays::xline_main))]
    fn lengths_in(&self, _layout: Layout, _base: Handle) -> Lengths {
        Lengths {
            main: xline_row!(bits self, Version::Ac1015),
            refs: 0,
        }
    }

    #[tactic(auto, unfolding(crate::specs::Rays::xline_main))]
    fn write_main_in(&self, _layout: Layout, _base: Handle, sink: &mut BitSink) {
        xline_row!(write self, Version::Ac1015, sink);
    }

    fn write_refs_in(&self, _layout: Layout, _base: Handle, _sink: &mut BitSink) {}

    ghost laws = { λ layout base few small. xline_is_body base };
}
