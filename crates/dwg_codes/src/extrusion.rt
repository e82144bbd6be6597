//! Extrusions (Open Design Specification, "Bit codes").

ghost use Rattle.std.specs.Prelude.{⊤};
ghost use Rattle.std.proofs.Common.{lit≤};
ghost use Rattle.dwg_grammar.specs.Codes.{be, be_by, be_tag};
ghost use Rattle.dwg_grammar.proofs.TableLemmas.{be_is_code};

use crate::code::BitCode;
use crate::points::Code3BD;
use crate::tagged::{ONE_WORD, Tagged, length_tagged, read_tagged, write_tagged};
use dwg_bits::{BitCursor, BitSink};
use dwg_grammar::Point3;

/// BE: 1 for (0, 0, 1.0), 0 and three BDs.
pub struct CodeBE;

impl Tagged for CodeBE {
    type Context = ();

    type Value = Point3;

    const WIDTH: u32 = 1;

    ghost WIDTH = { 1 };

    ghost by = { λ context. be_by };

    ghost IsTagged = { λ context. be.IsValue };

    ghost pick = { λ context. be_tag };

    fn read_payload(_context: &(), tag: u64, cursor: &mut BitCursor<'_>) -> Option<Point3> {
        match tag {
            0 => Code3BD::read(&(), cursor),
            _ => Some(Point3 {
                x: 0,
                y: 0,
                z: ONE_WORD,
            }),
        }
    }

    fn tag(_context: &(), value: &Point3) -> u64 {
        if value.x != 0 {
            return 0;
        }
        if value.y != 0 {
            return 0;
        }
        if value.z != ONE_WORD {
            return 0;
        }
        1
    }

    #[tactic(auto, using(crate::proofs::PointReading::point_at, dwg_grammar::proofs::Bounds::bd3_at_most))]
    fn length_after(_context: &(), tag: u64, value: &Point3) -> u64 {
        match tag {
            0 => Code3BD::length(&(), value),
            _ => 0,
        }
    }

    #[tactic(auto, using(crate::proofs::PointReading::point_at))]
    fn write_payload(_context: &(), tag: u64, value: &Point3, sink: &mut BitSink) {
        match tag {
            0 => Code3BD::write(&(), value, sink),
            _ => {}
        }
    }

    ghost narrow = { lit≤ tt };
}

impl BitCode for CodeBE {
    type Context = ();

    type Value = Point3;

    ghost grammar = { λ context. be };

    ghost IsContext = { λ context. ⊤ };

    fn read(context: &(), cursor: &mut BitCursor<'_>) -> Option<Point3> {
        read_tagged::<CodeBE>(context, cursor)
    }

    fn length(context: &(), value: &Point3) -> u64 {
        length_tagged::<CodeBE>(context, value)
    }

    fn write(context: &(), value: &Point3, sink: &mut BitSink) {
        write_tagged::<CodeBE>(context, value, sink);
    }

    ghost laws = { λ context is. be_is_code };
}
