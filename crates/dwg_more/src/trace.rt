//! Traces.

ghost use Rattle.std.specs.Prelude.{◌≡◌, ◌<◌, length};
ghost use Rattle.dwg_common.specs.Parsing.{Keeps, Parses};
ghost use Rattle.dwg_more.specs.MoreLaws.{trace_is_body};
ghost use Rattle.dwg_more.specs.Solids.{trace_body, trace_main};

use crate::solid::{solid_field, solid_row};
use dwg_base::{Handle, NoMemory, Version};
use dwg_bits::{BitCursor, BitSink};
use dwg_codes::{CodeBD, CodeBE, CodeBT, Point2, Point3};
use dwg_common::{BodyCode, Code2RD, Layout, Lengths, field, known_place, point_with_range, row};
use std::alloc::Global;

/// A filled line that has a width (Open Design Specification, "TRACE").
#[derive(Clone, Copy, Debug, PartialEq, Eq)]
pub struct Trace {
    /// How thick it is, the word of a floating-point number.
    pub thickness: u64,
    /// The z of its corners, the word of a floating-point number.
    pub elevation: u64,
    /// Its first corner.
    pub first: Point2,
    /// Its second corner.
    pub second: Point2,
    /// Its third corner.
    pub third: Point2,
    /// Its fourth corner.
    pub fourth: Point2,
    /// The direction in which it is thick.
    pub extrusion: Point3,
}

/// Reads a trace, as it is parsed.
#[tactic(auto, unfolding(crate::specs::Solids::trace_main))]
fn read_trace(cursor: &mut BitCursor<'_>) -> Option<Trace>
    ensures parsed { Parses trace_main result cursor.old cursor.new }
    ensures kept { Keeps cursor.old cursor.new }
{
    solid_row!(Trace read Version::Ac1015, cursor)
}

impl BodyCode for Trace {
    ghost grammar = { λ layout. trace_body };

    fn parse(
        _alloc: Global,
        _layout: Layout,
        main: &mut BitCursor<'_>,
        _refs: &mut BitCursor<'_>,
        _base: Handle,
    ) -> Result<Option<Trace>, NoMemory> {
        Ok(read_trace(main))
    }

    #[tactic(auto, unfolding(crate::specs::Solids::trace_main))]
    fn fits_in(&self, _layout: Layout, _base: Handle) -> bool {
        solid_row!(Trace known self, Version::Ac1015);
        true
    }

    #[tactic(auto, unfolding(crate::specs::Solids::trace_main))]
    fn lengths_in(&self, _layout: Layout, _base: Handle) -> Lengths {
        Lengths {
            main: solid_row!(Trace bits self, Version::Ac1015),
            refs: 0,
        }
    }

    #[tactic(auto, unfolding(crate::specs::Solids::trace_main))]
    fn write_main_in(&self, _layout: Layout, _base: Handle, sink: &mut BitSink) {
        solid_row!(Trace write self, Version::Ac1015, sink);
    }

    fn write_refs_in(&self, _layout: Layout, _base: Handle, _sink: &mut BitSink) {}

    ghost laws = { λ layout base few small. trace_is_body base };
}
