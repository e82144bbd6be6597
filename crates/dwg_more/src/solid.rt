//! Solids.

ghost use Rattle.std.specs.Prelude.{◌≡◌, ◌<◌, length};
ghost use Rattle.dwg_common.specs.Parsing.{Keeps, Parses};
ghost use Rattle.dwg_more.specs.MoreLaws.{solid_is_body};
ghost use Rattle.dwg_more.specs.Solids.{solid_body, solid_main};

use dwg_base::{Handle, NoMemory, Version};
use dwg_bits::{BitCursor, BitSink};
use dwg_codes::{CodeBD, CodeBE, CodeBT, Point2, Point3};
use dwg_common::{BodyCode, Code2RD, Layout, Lengths, field, known_place, point_with_range, row};
use std::alloc::Global;

/// A filled area with four corners (Open Design Specification, "SOLID").
#[derive(Clone, Copy, Debug, PartialEq, Eq)]
pub struct Solid {
    /// How thick it is, the word of a floating-point number.
    pub thickness: u64,
    /// The z of its corners, the word of a floating-point number.
    pub elevation: u64,
    /// Its first corner.
    pub first: Point2,
    /// Its second corner.
    pub second: Point2,
    /// Its third corner.
    pub third: Point2,
    /// Its fourth corner; the third where it has three.
    pub fourth: Point2,
    /// The direction in which it is thick.
    pub extrusion: Point3,
}

/// What is done with the fields of a solid or of a trace, which has the same.
macro_rules! solid_row {
    ($name:ident $($done:tt)*) => {
        row!(solid_field [$name { thickness, elevation, first, second, third, fourth, extrusion };
            thickness: CodeBT,
            elevation: CodeBD,
            first: Code2RD,
            second: Code2RD,
            third: Code2RD,
            fourth: Code2RD,
            extrusion: CodeBE
        ] $($done)*)
    };
}

/// What is done with one of them.
macro_rules! solid_field {
    (fits Code2RD, $of:expr, $field:ident, $version:expr) => {
        known_place(&$of.$field);
    };
    (fits CodeBE, $of:expr, $field:ident, $version:expr) => {
        point_with_range(&$of.$field);
    };
    ($($done:tt)*) => {
        field!($($done)*)
    };
}

pub(crate) use solid_field;
pub(crate) use solid_row;

/// Reads a solid, as it is parsed.
#[tactic(auto, unfolding(crate::specs::Solids::solid_main))]
fn read_solid(cursor: &mut BitCursor<'_>) -> Option<Solid>
    ensures parsed { Parses solid_main result cursor.old cursor.new }
    ensures kept { Keeps cursor.old cursor.new }
{
    solid_row!(Solid read Version::Ac1015, cursor)
}

impl BodyCode for Solid {
    ghost grammar = { λ layout. solid_body };

    fn parse(
        _alloc: Global,
        _layout: Layout,
        main: &mut BitCursor<'_>,
        _refs: &mut BitCursor<'_>,
        _base: Handle,
    ) -> Result<Option<Solid>, NoMemory> {
        Ok(read_solid(main))
    }

    #[tactic(auto, unfolding(crate::specs::Solids::solid_main))]
    fn fits_in(&self, _layout: Layout, _base: Handle) -> bool {
        solid_row!(Solid known self, Version::Ac1015);
        true
    }

    #[tactic(auto, unfolding(crate::specs::Solids::solid_main))]
    fn lengths_in(&self, _layout: Layout, _base: Handle) -> Lengths {
        Lengths {
            main: solid_row!(Solid bits self, Version::Ac1015),
            refs: 0,
        }
    }

    #[tactic(auto, unfolding(crate::specs::Solids::solid_main))]
    fn write_main_in(&self, _layout: Layout, _base: Handle, sink: &mut BitSink) {
        solid_row!(Solid write self, Version::Ac1015, sink);
    }

    fn write_refs_in(&self, _layout: Layout, _base: Handle, _sink: &mut BitSink) {}

    ghost laws = { λ layout base few small. solid_is_body base };
}
