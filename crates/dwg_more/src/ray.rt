//! Rays.

ghost use Rattle.std.specs.Prelude.{◌≡◌, ◌<◌, length};
ghost use Rattle.dwg_common.specs.Parsing.{Keeps, Parses};
ghost use Rattle.dwg_more.specs.MoreLaws.{ray_is_body};
ghost use Rattle.dwg_more.specs.Rays.{ray_body, ray_main};

use dwg_base::{Handle, NoMemory, Version};
use dwg_bits::{BitCursor, BitSink};
use dwg_codes::{Code3BD, Point3};
use dwg_common::{BodyCode, Layout, Lengths, field, row};
use std::alloc::Global;

/// A line that has a start and no end (Open Design Specification, "RAY").
#[derive(Clone, Copy, Debug, PartialEq, Eq)]
pub struct Ray {
    /// Where it starts.
    pub point: Point3,
    /// The direction in which it goes on.
    pub vector: Point3,
}

/// What is done with the fields of a ray.
macro_rules! ray_row {
    ($($done:tt)*) => {
        row!([Ray {
            point: Code3BD,
            vector: Code3BD,
        }] $($done)*)
    };
}

/// Reads a ray, as it is parsed.
#[tactic(auto, unfolding(crate::specs::Rays::ray_main))]
fn read_ray(cursor: &mut BitCursor<'_>) -> Option<Ray>
    ensures parsed { Parses ray_main result cursor.old cursor.new }
    ensures kept { Keeps cursor.old cursor.new }
{
    ray_row!(read Version::Ac1015, cursor)
}

impl BodyCode for Ray {
    ghost grammar = { λ layout. ray_body };

    fn parse(
        _alloc: Global,
        _layout: Layout,
        main: &mut BitCursor<'_>,
        _refs: &mut BitCursor<'_>,
        _base: Handle,
    ) -> Result<Option<Ray>, NoMemory> {
        Ok(read_ray(main))
    }

    #[tactic(auto, unfolding(crate::specs::Rays::ray_main))]
    fn fits_in(&self, _layout: Layout, _base: Handle) -> bool {
        ray_row!(known self, Version::Ac1015);
        true
    }

    #[tactic(auto, unfolding(crate::specs::Rays::ray_main))]
    fn lengths_in(&self, _layout: Layout, _base: Handle) -> Lengths {
        Lengths {
            main: ray_row!(bits self, Version::Ac1015),
            refs: 0,
        }
    }

    #[tactic(auto, unfolding(crate::specs::Rays::ray_main))]
    fn write_main_in(&self, _layout: Layout, _base: Handle, sink: &mut BitSink) {
        ray_row!(write self, Version::Ac1015, sink);
    }

    fn write_refs_in(&self, _layout: Layout, _base: Handle, _sink: &mut BitSink) {}

    ghost laws = { λ layout base few small. ray_is_body base };
}
