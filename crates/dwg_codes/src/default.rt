//! DD, a word against a default (Open Design Specification, "Bit codes").

ghost use Rattle.std.specs.Prelude.{◌≡◌, ◌/◌, ◌%◌, ◌^◌, ◌<◌, ◌≤◌, length, IfSome};
ghost use Rattle.std.proofs.Common.{lit≤};
ghost use Rattle.dwg_bits.specs.Cursor.{rest};
ghost use Rattle.dwg_bits.specs.Sink.{Extends};
ghost use Rattle.dwg_grammar.specs.Codes.{dd, dd_by, dd_tag};
ghost use Rattle.dwg_grammar.specs.Grammar.{Reads};
ghost use Rattle.dwg_grammar.proofs.DefaultLemmas.{dd_is_code};

use crate::code::BitCode;
use crate::fixed::{CodeRC, CodeRD, CodeRL};
use crate::tagged::{Tagged, length_tagged, read_tagged, write_tagged};
use dwg_bits::{BitCursor, BitSink};

/// The weight of the fifth byte of a word; its lowest byte is the first.
const FIFTH: u64 = 1 << 32;

/// The weight of the sixth byte of a word.
const SIXTH: u64 = 1 << 40;

/// The weight of the seventh byte of a word.
const SEVENTH: u64 = 1 << 48;

/// Reads the four low bytes of a word that has the high bytes of the default.
fn read_four_bytes(default: u64, cursor: &mut BitCursor<'_>) -> Option<u64>
    ensures reads { Reads (dd_by default 1) result (rest cursor.old) (rest cursor.new) }
    ensures value { IfSome result (λ value. value < 2 ^ 64) }
    ensures same_bytes { cursor.new.bytes.now ≡ cursor.old.bytes.now }
    ensures same_end { cursor.new.end ≡ cursor.old.end }
{
    let low = CodeRL::read(&(), cursor)?;
    Some(default / FIFTH * FIFTH + u64::from(low))
}

/// Reads the fifth and the sixth byte and then the four low bytes of a word that has the high bytes of the default.
fn read_six_bytes(default: u64, cursor: &mut BitCursor<'_>) -> Option<u64>
    ensures reads { Reads (dd_by default 2) result (rest cursor.old) (rest cursor.new) }
    ensures value { IfSome result (λ value. value < 2 ^ 64) }
    ensures same_bytes { cursor.new.bytes.now ≡ cursor.old.bytes.now }
    ensures same_end { cursor.new.end ≡ cursor.old.end }
{
    let mut ahead = *cursor;
    let fifth = CodeRC::read(&(), &mut ahead)?;
    let sixth = CodeRC::read(&(), &mut ahead)?;
    let low = CodeRL::read(&(), &mut ahead)?;
    *cursor = ahead;
    Some(
        default / SEVENTH * SEVENTH
            + u64::from(sixth) * SIXTH
            + u64::from(fifth) * FIFTH
            + u64::from(low),
    )
}

/// Writes the fifth and the sixth byte of a word and then its four low bytes; these are the same against any default.
#[tactic(auto, using(dwg_grammar::proofs::NumberLemmas::length_of_rl, dwg_grammar::proofs::NumberLemmas::length_of_rc))]
fn write_six_bytes(value: u64, sink: &mut BitSink)
    requires { 48 ≤ sink.old.spare }
    ensures { Extends sink.old sink.new ((dd_by value 2).short value) }
{
    CodeRC::write(&(), &((value / FIFTH % 256) as u8), sink);
    CodeRC::write(&(), &((value / SIXTH % 256) as u8), sink);
    CodeRL::write(&(), &((value % FIFTH) as u32), sink);
}

/// DD, a word against a default: 00 for the default, 01 and its four low bytes, 10 and its fifth and sixth byte and then
/// its four low bytes, 11 and an RD.
pub struct CodeDD;

impl Tagged for CodeDD {
    type Context = u64;

    type Value = u64;

    const WIDTH: u32 = 2;

    ghost WIDTH = { 2 };

    ghost by = { dd_by };

    ghost IsTagged = { λ default. (dd default).IsValue };

    ghost pick = { dd_tag };

    fn read_payload(context: &u64, tag: u64, cursor: &mut BitCursor<'_>) -> Option<u64> {
        match tag {
            0 => Some(*context),
            1 => read_four_bytes(*context, cursor),
            2 => read_six_bytes(*context, cursor),
            _ => CodeRD::read(&(), cursor),
        }
    }

    fn tag(context: &u64, value: &u64) -> u64 {
        if *value == *context {
            return 0;
        }
        if *value / FIFTH == *context / FIFTH {
            return 1;
        }
        if *value / SEVENTH == *context / SEVENTH {
            return 2;
        }
        3
    }

    #[tactic(auto, using(dwg_grammar::proofs::NumberLemmas::length_of_rl, dwg_grammar::proofs::NumberLemmas::length_of_rd, crate::proofs::DefaultReading::six_counted))]
    fn length_after(_context: &u64, tag: u64, value: &u64) -> u64 {
        match tag {
            0 => 0,
            1 => 32,
            2 => 48,
            _ => CodeRD::length(&(), value),
        }
    }

    #[tactic(auto, using(crate::proofs::DefaultReading::six_counted))]
    fn write_payload(_context: &u64, tag: u64, value: &u64, sink: &mut BitSink) {
        match tag {
            0 => {}
            1 => CodeRL::write(&(), &((*value % FIFTH) as u32), sink),
            2 => write_six_bytes(*value, sink),
            _ => CodeRD::write(&(), value, sink),
        }
    }

    ghost narrow = { lit≤ tt };
}

impl BitCode for CodeDD {
    type Context = u64;

    type Value = u64;

    ghost grammar = { dd };

    ghost IsContext = { λ default. default < 2 ^ 64 };

    fn read(context: &u64, cursor: &mut BitCursor<'_>) -> Option<u64> {
        read_tagged::<CodeDD>(context, cursor)
    }

    fn length(context: &u64, value: &u64) -> u64 {
        length_tagged::<CodeDD>(context, value)
    }

    fn write(context: &u64, value: &u64, sink: &mut BitSink) {
        write_tagged::<CodeDD>(context, value, sink);
    }

    ghost laws = { λ default is. dd_is_code default is };
}
