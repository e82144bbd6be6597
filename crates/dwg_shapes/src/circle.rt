//! Circles.

ghost use Rattle.std.specs.Prelude.{◌≡◌, ◌<◌, length};
ghost use Rattle.dwg_base.specs.declared.version.Version.TheVariants.{Ac1014};
ghost use Rattle.dwg_common.proofs.LayoutLemmas.{same_alike};
ghost use Rattle.dwg_common.specs.Parsing.{Keeps, Parses};
ghost use Rattle.dwg_shapes.specs.Circles.{circle_body, circle_main};
ghost use Rattle.dwg_shapes.specs.ShapeLaws.{circle_is_body, circle_narrower};

use dwg_base::{Handle, NoMemory, Version};
use dwg_bits::{BitCursor, BitSink};
use dwg_codes::{Code3BD, CodeBD, CodeExtrusion, CodeThickness, Point3};
use dwg_common::{BodyCode, BodyCode14, Layout, Lengths, field, row};
use std::alloc::Global;

/// A circle (Open Design Specification, "CIRCLE").
#[derive(Clone, Copy, Debug, PartialEq, Eq)]
pub struct Circle {
    /// Its centre.
    pub centre: Point3,
    /// Its radius, the word of a floating-point number.
    pub radius: u64,
    /// How thick it is, the word of a floating-point number.
    pub thickness: u64,
    /// The direction in which it is thick.
    pub extrusion: Point3,
}

/// What is done with the fields of a circle.
macro_rules! circle_row {
    ($($done:tt)*) => {
        row!([Circle {
            centre: Code3BD,
            radius: CodeBD,
            thickness: CodeThickness,
            extrusion: CodeExtrusion,
        }] $($done)*)
    };
}

/// Reads a circle, as it is parsed.
#[tactic(auto, unfolding(crate::specs::Circles::circle_main))]
fn read_circle(version: Version, cursor: &mut BitCursor<'_>) -> Option<Circle>
    ensures parsed { Parses (circle_main version) result cursor.old cursor.new }
    ensures kept { Keeps cursor.old cursor.new }
{
    circle_row!(read version, cursor)
}

impl BodyCode for Circle {
    ghost grammar = { λ layout. circle_body layout.version };

    fn parse(
        _alloc: Global,
        layout: Layout,
        main: &mut BitCursor<'_>,
        _refs: &mut BitCursor<'_>,
        _base: Handle,
    ) -> Result<Option<Circle>, NoMemory> {
        Ok(read_circle(layout.version, main))
    }

    #[tactic(auto, unfolding(crate::specs::Circles::circle_main))]
    fn fits_in(&self, layout: Layout, _base: Handle) -> bool {
        circle_row!(known self, layout.version);
        true
    }

    #[tactic(auto, unfolding(crate::specs::Circles::circle_main))]
    fn lengths_in(&self, layout: Layout, _base: Handle) -> Lengths {
        Lengths {
            main: circle_row!(bits self, layout.version),
            refs: 0,
        }
    }

    #[tactic(auto, unfolding(crate::specs::Circles::circle_main))]
    fn write_main_in(&self, layout: Layout, _base: Handle, sink: &mut BitSink) {
        circle_row!(write self, layout.version, sink);
    }

    fn write_refs_in(&self, _layout: Layout, _base: Handle, _sink: &mut BitSink) {}

    ghost laws = { λ layout base few small. circle_is_body layout.version base };
}

impl BodyCode14 for Circle {
    ghost narrower = { circle_narrower };

    ghost sizes_alike = { λ size base value. same_alike (circle_body Ac1014 base) value };
}
