//! Points that are drawn.

ghost use Rattle.std.specs.Prelude.{◌≡◌, ◌<◌, length};
ghost use Rattle.dwg_base.specs.declared.version.Version.TheVariants.{Ac1014};
ghost use Rattle.dwg_common.proofs.LayoutLemmas.{same_alike};
ghost use Rattle.dwg_common.specs.Parsing.{Keeps, Parses};
ghost use Rattle.dwg_shapes.specs.Points.{point_body, point_main};
ghost use Rattle.dwg_shapes.specs.ShapeLaws.{point_is_body, point_narrower};

use dwg_base::{Handle, NoMemory, Version};
use dwg_bits::{BitCursor, BitSink};
use dwg_codes::{Code3BD, CodeBD, CodeExtrusion, CodeThickness, Point3};
use dwg_common::{BodyCode, BodyCode14, Layout, Lengths, field, row};
use std::alloc::Global;

/// A point that is drawn (Open Design Specification, "POINT").
#[derive(Clone, Copy, Debug, PartialEq, Eq)]
pub struct Point {
    /// Where it stands.
    pub place: Point3,
    /// How thick it is, the word of a floating-point number.
    pub thickness: u64,
    /// The direction in which it is thick.
    pub extrusion: Point3,
    /// The angle of the x axis in which it is drawn, in radians, the word of a floating-point number.
    pub angle: u64,
}

/// What is done with the fields of a point.
macro_rules! point_row {
    ($($done:tt)*) => {
        row!([Point {
            place: Code3BD,
            thickness: CodeThickness,
            extrusion: CodeExtrusion,
            angle: CodeBD,
        }] $($done)*)
    };
}

/// Reads a point, as it is parsed.
#[tactic(auto, unfolding(crate::specs::Points::point_main))]
fn read_point(version: Version, cursor: &mut BitCursor<'_>) -> Option<Point>
    ensures parsed { Parses (point_main version) result cursor.old cursor.new }
    ensures kept { Keeps cursor.old cursor.new }
{
    point_row!(read version, cursor)
}

impl BodyCode for Point {
    ghost grammar = { λ layout. point_body layout.version };

    fn parse(
        _alloc: Global,
        layout: Layout,
        main: &mut BitCursor<'_>,
        _refs: &mut BitCursor<'_>,
        _base: Handle,
    ) -> Result<Option<Point>, NoMemory> {
        Ok(read_point(layout.version, main))
    }

    #[tactic(auto, unfolding(crate::specs::Points::point_main))]
    fn fits_in(&self, layout: Layout, _base: Handle) -> bool {
        point_row!(known self, layout.version);
        true
    }

    #[tactic(auto, unfolding(crate::specs::Points::point_main))]
    fn lengths_in(&self, layout: Layout, _base: Handle) -> Lengths {
        Lengths {
            main: point_row!(bits self, layout.version),
            refs: 0,
        }
    }

    #[tactic(auto, unfolding(crate::specs::Points::point_main))]
    fn write_main_in(&self, layout: Layout, _base: Handle, sink: &mut BitSink) {
        point_row!(write self, layout.version, sink);
    }

    fn write_refs_in(&self, _layout: Layout, _base: Handle, _sink: &mut BitSink) {}

    ghost laws = { λ layout base few small. point_is_body layout.version base };
}

impl BodyCode14 for Point {
    ghost narrower = { point_narrower };

    ghost sizes_alike = { λ size base value. same_alike (point_body Ac1014 base) value };
}
