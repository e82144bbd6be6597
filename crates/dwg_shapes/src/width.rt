//! The widths of a lightweight polyline, as bits (Open Design Specification, "LWPOLYLINE").

ghost use Rattle.std.specs.Prelude.{◌≡◌, ⊤, length};
ghost use Rattle.std.specs.List.{AllByRecursion};
ghost use Rattle.dwg_common.specs.Parsing.{Keeps, Parses};
ghost use Rattle.dwg_shapes.specs.LwPolylines.{width_pair};
ghost use Rattle.dwg_shapes.specs.VertexLaws.{width_pair_is_code};

use crate::lwpolyline::Width;
use dwg_bits::{BitCursor, BitSink};
use dwg_codes::{BitCode, CodeBD};
use dwg_common::parse_code;

/// The words of a width lie in the range of their type.
fn known_width(width: &Width)
    ensures { width_pair.IsValue width.now }
{
    let _start = width.start;
    let _end = width.end;
}

/// So do those of many widths.
#[tactic(auto, using(crate::proofs::Known::none_known, crate::proofs::Known::all_known))]
pub(crate) fn known_widths(widths: &[Width])
    ensures { AllByRecursion width_pair.IsValue widths.now }
{
    // It finds nothing out: a turn gives the proof of one width what holds of every value of its type.
    'widths: for width in widths {
        known_width(width);
    }
}

/// Reads a width, as it is parsed.
fn read_width(cursor: &mut BitCursor<'_>) -> Option<Width>
    ensures parsed { Parses width_pair result cursor.old cursor.new }
    ensures kept { Keeps cursor.old cursor.new }
{
    let start = parse_code::<CodeBD>(&(), cursor)?;
    let end = parse_code::<CodeBD>(&(), cursor)?;
    Some(Width { start, end })
}

/// A width: two BDs, its start first.
pub(crate) struct CodeWidth;

impl BitCode for CodeWidth {
    type Context = ();

    type Value = Width;

    ghost grammar = { λ context. width_pair };

    ghost IsContext = { λ context. ⊤ };

    #[tactic(auto, using(dwg_common::proofs::PartReading::part_read, dwg_common::proofs::PartReading::part_unread, dwg_grammar::proofs::BodyReading::parsed_value, crate::specs::VertexLaws::width_pair_is_code))]
    fn read(_context: &(), cursor: &mut BitCursor<'_>) -> Option<Width> {
        let mut ahead = *cursor;
        let width = read_width(&mut ahead)?;
        *cursor = ahead;
        Some(width)
    }

    #[tactic(auto, using(dwg_grammar::proofs::Bounds::bd_at_most))]
    fn length(_context: &(), value: &Width) -> u64 {
        CodeBD::length(&(), &value.start) + CodeBD::length(&(), &value.end)
    }

    fn write(_context: &(), value: &Width, sink: &mut BitSink) {
        CodeBD::write(&(), &value.start, sink);
        CodeBD::write(&(), &value.end, sink);
    }

    ghost laws = { λ context is. width_pair_is_code };
}
