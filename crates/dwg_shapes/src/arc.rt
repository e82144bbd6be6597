//! Arcs of circles.

ghost use Rattle.std.specs.Prelude.{◌≡◌, ◌<◌, length};
ghost use Rattle.dwg_base.specs.declared.version.Version.TheVariants.{Ac1014};
ghost use Rattle.dwg_common.proofs.LayoutLemmas.{same_alike};
ghost use Rattle.dwg_common.specs.Parsing.{Keeps, Parses};
ghost use Rattle.dwg_shapes.specs.Arcs.{arc_body, arc_main};
ghost use Rattle.dwg_shapes.specs.ShapeLaws.{arc_is_body, arc_narrower};

use dwg_base::{Handle, NoMemory, Version};
use dwg_bits::{BitCursor, BitSink};
use dwg_codes::{Code3BD, CodeBD, CodeExtrusion, CodeThickness, Point3};
use dwg_common::{BodyCode, BodyCode14, Layout, Lengths, field, row};
use std::alloc::Global;

/// An arc of a circle (Open Design Specification, "ARC").
#[derive(Clone, Copy, Debug, PartialEq, Eq)]
pub struct Arc {
    /// The centre of its circle.
    pub centre: Point3,
    /// The radius of its circle, the word of a floating-point number.
    pub radius: u64,
    /// How thick it is, the word of a floating-point number.
    pub thickness: u64,
    /// The direction in which it is thick.
    pub extrusion: Point3,
    /// The angle at which it starts, in radians, the word of a floating-point number.
    pub start_angle: u64,
    /// The angle at which it ends, in radians, the word of a floating-point number.
    pub end_angle: u64,
}

/// What is done with the fields of an arc.
macro_rules! arc_row {
    ($($done:tt)*) => {
        row!([Arc {
            centre: Code3BD,
            radius: CodeBD,
            thickness: CodeThickness,
            extrusion: CodeExtrusion,
            start_angle: CodeBD,
            end_angle: CodeBD,
        }] $($done)*)
    };
}

/// Reads an arc, as it is parsed.
#[tactic(auto, unfolding(crate::specs::Arcs::arc_main))]
fn read_arc(version: Version, cursor: &mut BitCursor<'_>) -> Option<Arc>
    ensures parsed { Parses (arc_main version) result cursor.old cursor.new }
    ensures kept { Keeps cursor.old cursor.new }
{
    arc_row!(read version, cursor)
}

impl BodyCode for Arc {
    ghost grammar = { λ layout. arc_body layout.version };

    fn parse(
        _alloc: Global,
        layout: Layout,
        main: &mut BitCursor<'_>,
        _refs: &mut BitCursor<'_>,
        _base: Handle,
    ) -> Result<Option<Arc>, NoMemory> {
        Ok(read_arc(layout.version, main))
    }

    #[tactic(auto, unfolding(crate::specs::Arcs::arc_main))]
    fn fits_in(&self, layout: Layout, _base: Handle) -> bool {
        arc_row!(known self, layout.version);
        true
    }

    #[tactic(auto, unfolding(crate::specs::Arcs::arc_main))]
    fn lengths_in(&self, layout: Layout, _base: Handle) -> Lengths {
        Lengths {
            main: arc_row!(bits self, layout.version),
            refs: 0,
        }
    }

    #[tactic(auto, unfolding(crate::specs::Arcs::arc_main))]
    fn write_main_in(&self, layout: Layout, _base: Handle, sink: &mut BitSink) {
        arc_row!(write self, layout.version, sink);
    }

    fn write_refs_in(&self, _layout: Layout, _base: Handle, _sink: &mut BitSink) {}

    ghost laws = { λ layout base few small. arc_is_body layout.version base };
}

impl BodyCode14 for Arc {
    ghost narrower = { arc_narrower };

    ghost sizes_alike = { λ size base value. same_alike (arc_body Ac1014 base) value };
}
