//! What the main bits of a dash give, as a code (Open Design Specification, "LTYPE").

ghost use Rattle.std.specs.Prelude.{◌≡◌, ⊤, map};
ghost use Rattle.dwg_grammar.specs.ToEnd.{AreValues};
ghost use Rattle.dwg_common.specs.Parsing.{Keeps, Parses};
ghost use Rattle.dwg_tables.specs.LtypeBody.{dash_of, stroke, stroke_of, style_of};
ghost use Rattle.dwg_tables.specs.TableLaws.{stroke_is_code};

use crate::ltype::{Dash, Stroke};
use crate::members::{Joined, Part};
use dwg_bits::{BitCursor, BitSink};
use dwg_codes::{BitCode, CodeBD, CodeBS, CodeRD};
use dwg_common::{field, row};
use dwg_handles::Ref;

impl Part<Stroke> for Dash {
    ghost part = { stroke_of };

    fn part(&self) -> Stroke {
        Stroke {
            length: self.length,
            code: self.code,
            x: self.x,
            y: self.y,
            scale: self.scale,
            rotation: self.rotation,
            flag: self.flag,
        }
    }
}

impl Part<Ref> for Dash {
    ghost part = { style_of };

    fn part(&self) -> Ref {
        self.style
    }
}

impl Joined<Stroke> for Dash {
    ghost join = { dash_of };

    fn joined(parsed: &Stroke, name: Ref) -> Dash {
        Dash {
            length: parsed.length,
            code: parsed.code,
            x: parsed.x,
            y: parsed.y,
            scale: parsed.scale,
            rotation: parsed.rotation,
            flag: parsed.flag,
            style: name,
        }
    }
}

/// What is done with what the main bits of a dash give.
macro_rules! stroke_row {
    ($($done:tt)*) => {
        row!([Stroke {
            length: CodeBD, code: CodeBS,
            x: CodeRD, y: CodeRD, scale: CodeBD, rotation: CodeBD,
            flag: CodeBS,
        }] $($done)*)
    };
}

/// Reads what the main bits of a dash give, as it is parsed.
#[tactic(auto, unfolding(crate::specs::LtypeBody::stroke))]
fn read_stroke(cursor: &mut BitCursor<'_>) -> Option<Stroke>
    ensures parsed { Parses stroke result cursor.old cursor.new }
    ensures kept { Keeps cursor.old cursor.new }
{
    stroke_row!(read(), cursor)
}

/// What the main bits of a dash give lies in the ranges of its types.
#[tactic(auto, unfolding(crate::specs::LtypeBody::stroke))]
fn known_stroke(dash: &Dash)
    ensures { stroke.IsValue (stroke_of dash.now) }
{
    stroke_row!(known dash, ());
}

/// So it is with those of many dashes.
pub(crate) fn known_strokes(dashes: &[Dash])
    ensures { AreValues stroke (map stroke_of dashes.now) }
{
    // It finds nothing out: a turn gives the proof of one dash what holds of every value of its type.
    'dashes: for dash in dashes {
        known_stroke(dash);
    }
}

/// What the main bits of a dash give: BD length, BS code, RD x, RD y, BD scale, BD rotation and BS flag.
pub(crate) struct CodeStroke;

impl BitCode for CodeStroke {
    type Context = ();

    type Value = Stroke;

    ghost grammar = { λ context. stroke };

    ghost IsContext = { λ context. ⊤ };

    #[tactic(auto, using(dwg_common::proofs::PartReading::part_read, dwg_common::proofs::PartReading::part_unread, dwg_grammar::proofs::BodyReading::parsed_value, crate::specs::TableLaws::stroke_is_code))]
    fn read(_context: &(), cursor: &mut BitCursor<'_>) -> Option<Stroke> {
        let mut ahead = *cursor;
        let parsed = read_stroke(&mut ahead)?;
        *cursor = ahead;
        Some(parsed)
    }

    #[tactic(auto, unfolding(crate::specs::LtypeBody::stroke), using(dwg_grammar::proofs::Bounds::bd_at_most, dwg_grammar::proofs::Bounds::bs_at_most, dwg_grammar::proofs::NumberLemmas::length_of_rd))]
    fn length(_context: &(), value: &Stroke) -> u64 {
        stroke_row!(bits value, ())
    }

    #[tactic(auto, unfolding(crate::specs::LtypeBody::stroke))]
    fn write(_context: &(), value: &Stroke, sink: &mut BitSink) {
        stroke_row!(write value, (), sink);
    }

    ghost laws = { λ context is. stroke_is_code };
}
