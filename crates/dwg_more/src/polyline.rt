//! Polylines in space.

ghost use Rattle.std.specs.Prelude.{◌≡◌};
ghost use Rattle.dwg_more.specs.MoreLaws.{polyline_is_body};
ghost use Rattle.dwg_more.specs.Polylines.{polyline_body};

use dwg_base::{Handle, NoMemory, Version};
use dwg_bits::{BitCursor, BitSink};
use dwg_codes::CodeRC;
use dwg_common::{BodyCode, Layout, Lengths, field, reference, row};
use dwg_handles::Ref;
use std::alloc::Global;

/// A polyline in space, whose vertices are objects of their own (Open Design Specification, "POLYLINE (3D)").
#[derive(Clone, Copy, Debug, PartialEq, Eq)]
pub struct Polyline3d {
    /// Which curve its vertices are fitted to, eight bits: bit 0 for a quadratic spline, bit 1 for a cubic one.
    pub flags_a: u8,
    /// Eight bits, of which bit 0 says that it is closed.
    pub flags_b: u8,
    /// Its first vertex.
    pub first: Ref,
    /// Its last vertex.
    pub last: Ref,
    /// The end after its vertices.
    pub seqend: Ref,
}

/// What is done with the fields of a polyline.
macro_rules! polyline_row {
    ($($done:tt)*) => {
        row!([Polyline3d { flags_a, flags_b, first, last, seqend };
            flags_a: CodeRC,
            flags_b: CodeRC;
            first = first,
            last = last,
            seqend = seqend
        ] $($done)*)
    };
}

#[tactic(auto, unfolding(crate::specs::Polylines::polyline_body, dwg_grammar::specs::ReferenceCodes::reference))]
impl BodyCode for Polyline3d {
    ghost grammar = { λ layout. polyline_body };

    fn parse(
        alloc: Global,
        _layout: Layout,
        main: &mut BitCursor<'_>,
        refs: &mut BitCursor<'_>,
        base: Handle,
    ) -> Result<Option<Polyline3d>, NoMemory> {
        polyline_row!(parse alloc, Version::Ac1015, main, refs, base)
    }

    fn fits_in(&self, _layout: Layout, base: Handle) -> bool {
        polyline_row!(fits self, Version::Ac1015, base)
    }

    fn lengths_in(&self, _layout: Layout, base: Handle) -> Lengths {
        Lengths {
            main: polyline_row!(bits self, Version::Ac1015),
            refs: polyline_row!(refs_bits self, Version::Ac1015, base),
        }
    }

    fn write_main_in(&self, _layout: Layout, _base: Handle, sink: &mut BitSink) {
        polyline_row!(write self, Version::Ac1015, sink);
    }

    fn write_refs_in(&self, _layout: Layout, base: Handle, sink: &mut BitSink) {
        polyline_row!(write_refs self, Version::Ac1015, base, sink);
    }

    ghost laws = { λ layout base few small. polyline_is_body base small };
}
