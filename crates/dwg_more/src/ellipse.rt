//! Ellipses.

ghost use Rattle.std.specs.Prelude.{◌≡◌, ◌<◌, length};
ghost use Rattle.dwg_common.specs.Parsing.{Keeps, Parses};
ghost use Rattle.dwg_more.specs.Ellipses.{ellipse_body, ellipse_main};
ghost use Rattle.dwg_more.specs.MoreLaws.{ellipse_is_body};

use dwg_base::{Handle, NoMemory, Version};
use dwg_bits::{BitCursor, BitSink};
use dwg_codes::{Code3BD, CodeBD, Point3};
use dwg_common::{BodyCode, Layout, Lengths, field, row};
use std::alloc::Global;

/// An ellipse, or an arc of one (Open Design Specification, "ELLIPSE").
#[derive(Clone, Copy, Debug, PartialEq, Eq)]
pub struct Ellipse {
    /// Its centre.
    pub centre: Point3,
    /// From its centre to an end of its longer axis.
    pub axis: Point3,
    /// Which way is up.
    pub extrusion: Point3,
    /// How long its shorter axis is for its longer one, the word of a floating-point number.
    pub ratio: u64,
    /// The angle at which it starts, in radians, the word of a floating-point number.
    pub start_angle: u64,
    /// The angle at which it ends, in radians, the word of a floating-point number.
    pub end_angle: u64,
}

/// What is done with the fields of an ellipse.
macro_rules! ellipse_row {
    ($($done:tt)*) => {
        row!([Ellipse {
            centre: Code3BD,
            axis: Code3BD,
            extrusion: Code3BD,
            ratio: CodeBD,
            start_angle: CodeBD,
            end_angle: CodeBD,
        }] $($done)*)
    };
}

/// Reads an ellipse, as it is parsed.
#[tactic(auto, unfolding(crate::specs::Ellipses::ellipse_main))]
fn read_ellipse(cursor: &mut BitCursor<'_>) -> Option<Ellipse>
    ensures parsed { Parses ellipse_main result cursor.old cursor.new }
    ensures kept { Keeps cursor.old cursor.new }
{
    ellipse_row!(read Version::Ac1015, cursor)
}

impl BodyCode for Ellipse {
    ghost grammar = { λ layout. ellipse_body };

    fn parse(
        _alloc: Global,
        _layout: Layout,
        main: &mut BitCursor<'_>,
        _refs: &mut BitCursor<'_>,
        _base: Handle,
    ) -> Result<Option<Ellipse>, NoMemory> {
        Ok(read_ellipse(main))
    }

    #[tactic(auto, unfolding(crate::specs::Ellipses::ellipse_main))]
    fn fits_in(&self, _layout: Layout, _base: Handle) -> bool {
        ellipse_row!(known self, Version::Ac1015);
        true
    }

    #[tactic(auto, unfolding(crate::specs::Ellipses::ellipse_main))]
    fn lengths_in(&self, _layout: Layout, _base: Handle) -> Lengths {
        Lengths {
            main: ellipse_row!(bits self, Version::Ac1015),
            refs: 0,
        }
    }

    #[tactic(auto, unfolding(crate::specs::Ellipses::ellipse_main))]
    fn write_main_in(&self, _layout: Layout, _base: Handle, sink: &mut BitSink) {
        ellipse_row!(write self, Version::Ac1015, sink);
    }

    fn write_refs_in(&self, _layout: Layout, _base: Handle, _sink: &mut BitSink) {}

    ghost laws = { λ layout base few small. ellipse_is_body base };
}
