//! Points of space by three words (Open Design Specification, "Bit codes").

ghost use Rattle.std.specs.Prelude.{⊤};
ghost use Rattle.dwg_grammar.specs.Codes.{bd3};
ghost use Rattle.dwg_grammar.proofs.TableLemmas.{bd3_is_code};

use crate::code::BitCode;
use crate::tagged::CodeBD;
use dwg_bits::{BitCursor, BitSink};
use dwg_grammar::Point3;

/// 3BD: a BD for each word of a point of space, x first.
pub struct Code3BD;

impl BitCode for Code3BD {
    type Context = ();

    type Value = Point3;

    ghost grammar = { λ context. bd3 };

    ghost IsContext = { λ context. ⊤ };

    fn read(_context: &(), cursor: &mut BitCursor<'_>) -> Option<Point3> {
        let mut ahead = *cursor;
        let x = CodeBD::read(&(), &mut ahead)?;
        let y = CodeBD::read(&(), &mut ahead)?;
        let z = CodeBD::read(&(), &mut ahead)?;
        *cursor = ahead;
        Some(Point3 { x, y, z })
    }

    #[tactic(auto, using(dwg_grammar::proofs::Bounds::bd3_at_most, dwg_grammar::proofs::Bounds::bd_at_most))]
    fn length(_context: &(), value: &Point3) -> u64 {
        CodeBD::length(&(), &value.x)
            + CodeBD::length(&(), &value.y)
            + CodeBD::length(&(), &value.z)
    }

    fn write(_context: &(), value: &Point3, sink: &mut BitSink) {
        CodeBD::write(&(), &value.x, sink);
        CodeBD::write(&(), &value.y, sink);
        CodeBD::write(&(), &value.z, sink);
    }

    ghost laws = { λ context is. bd3_is_code };
}
