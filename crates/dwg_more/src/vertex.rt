//! Vertices of polylines in space.

ghost use Rattle.std.specs.Prelude.{◌≡◌};
ghost use Rattle.dwg_common.specs.Parsing.{Keeps, Parses};
ghost use Rattle.dwg_more.specs.MoreLaws.{vertex_is_body};
ghost use Rattle.dwg_more.specs.Polylines.{vertex_body, vertex_main};

use dwg_base::{Handle, NoMemory, Version};
use dwg_bits::{BitCursor, BitSink};
use dwg_codes::{Code3BD, CodeRC, Point3};
use dwg_common::{BodyCode, Layout, Lengths, field, row};
use std::alloc::Global;

/// A vertex of a polyline in space (Open Design Specification, "VERTEX (3D)").
#[derive(Clone, Copy, Debug, PartialEq, Eq)]
pub struct Vertex3d {
    /// What kind of vertex it is, eight bits of flags.
    pub flags: u8,
    /// Where it stands.
    pub place: Point3,
}

/// What is done with the fields of a vertex.
macro_rules! vertex_row {
    ($($done:tt)*) => {
        row!([Vertex3d {
            flags: CodeRC,
            place: Code3BD,
        }] $($done)*)
    };
}

/// Reads a vertex, as it is parsed.
#[tactic(auto, unfolding(crate::specs::Polylines::vertex_main))]
fn read_vertex(cursor: &mut BitCursor<'_>) -> Option<Vertex3d>
    ensures parsed { Parses vertex_main result cursor.old cursor.new }
    ensures kept { Keeps cursor.old cursor.new }
{
    vertex_row!(read Version::Ac1015, cursor)
}

impl BodyCode for Vertex3d {
    ghost grammar = { λ layout. vertex_body };

    fn parse(
        _alloc: Global,
        _layout: Layout,
        main: &mut BitCursor<'_>,
        _refs: &mut BitCursor<'_>,
        _base: Handle,
    ) -> Result<Option<Vertex3d>, NoMemory> {
        Ok(read_vertex(main))
    }

    #[tactic(auto, unfolding(crate::specs::Polylines::vertex_main))]
    fn fits_in(&self, _layout: Layout, _base: Handle) -> bool {
        vertex_row!(known self, Version::Ac1015);
        true
    }

    #[tactic(auto, unfolding(crate::specs::Polylines::vertex_main))]
    fn lengths_in(&self, _layout: Layout, _base: Handle) -> Lengths {
        Lengths {
            main: vertex_row!(bits self, Version::Ac1015),
            refs: 0,
        }
    }

    #[tactic(auto, unfolding(crate::specs::Polylines::vertex_main))]
    fn write_main_in(&self, _layout: Layout, _base: Handle, sink: &mut BitSink) {
        vertex_row!(write self, Version::Ac1015, sink);
    }

    fn write_refs_in(&self, _layout: Layout, _base: Handle, _sink: &mut BitSink) {}

    ghost laws = { λ layout base few small. vertex_is_body base };
}
