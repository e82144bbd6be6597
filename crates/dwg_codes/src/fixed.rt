//! Codes of fixed length (Open Design Specification, "Bit codes").

ghost use Rattle.std.specs.Prelude.{⊤};
ghost use Rattle.dwg_grammar.specs.Codes.{bb, rc, rs, rl, rd, b};
ghost use Rattle.dwg_grammar.proofs.TruthCode.{b_is_code};
ghost use Rattle.dwg_grammar.proofs.NumberLemmas.{bb_is_code, rc_is_code, rs_is_code, rl_is_code, rd_is_code};

use crate::code::{BitCode, take_bits};
use dwg_bits::{BitCursor, BitSink};

/// BB: two bits.
pub struct CodeBB;

impl BitCode for CodeBB {
    type Context = ();

    type Value = u8;

    ghost grammar = { λ context. bb };

    ghost IsContext = { λ context. ⊤ };

    fn read(_context: &(), cursor: &mut BitCursor<'_>) -> Option<u8> {
        let bits = take_bits(cursor, 2)?;
        Some(bits as u8)
    }

    #[tactic(auto, using(dwg_bits::proofs::BitLaws::length_of_low_bits))]
    fn length(_context: &(), _value: &u8) -> u64 {
        2
    }

    #[tactic(auto, using(dwg_bits::proofs::BitLaws::length_of_low_bits))]
    fn write(_context: &(), value: &u8, sink: &mut BitSink) {
        sink.push(u64::from(*value), 2);
    }

    ghost laws = { λ context is. bb_is_code };
}

/// RC: eight bits, a byte.
pub struct CodeRC;

impl BitCode for CodeRC {
    type Context = ();

    type Value = u8;

    ghost grammar = { λ context. rc };

    ghost IsContext = { λ context. ⊤ };

    fn read(_context: &(), cursor: &mut BitCursor<'_>) -> Option<u8> {
        let bits = take_bits(cursor, 8)?;
        Some(bits as u8)
    }

    #[tactic(auto, using(dwg_bits::proofs::BitLaws::length_of_low_bits))]
    fn length(_context: &(), _value: &u8) -> u64 {
        8
    }

    #[tactic(auto, using(dwg_bits::proofs::BitLaws::length_of_low_bits))]
    fn write(_context: &(), value: &u8, sink: &mut BitSink) {
        sink.push(u64::from(*value), 8);
    }

    ghost laws = { λ context is. rc_is_code };
}

/// B: one bit, of which 1 is true.
pub struct CodeB;

impl BitCode for CodeB {
    type Context = ();

    type Value = bool;

    ghost grammar = { λ context. b };

    ghost IsContext = { λ context. ⊤ };

    fn read(_context: &(), cursor: &mut BitCursor<'_>) -> Option<bool> {
        let bit = take_bits(cursor, 1)?;
        Some(bit == 1)
    }

    #[tactic(auto, using(dwg_bits::proofs::BitLaws::length_of_low_bits))]
    fn length(_context: &(), _value: &bool) -> u64 {
        1
    }

    #[tactic(auto, using(dwg_bits::proofs::BitLaws::length_of_low_bits))]
    fn write(_context: &(), value: &bool, sink: &mut BitSink) {
        sink.push(u64::from(*value), 1);
    }

    ghost laws = { λ context is. b_is_code };
}

/// RS: two bytes, the least significant first.
pub struct CodeRS;

impl BitCode for CodeRS {
    type Context = ();

    type Value = u16;

    ghost grammar = { λ context. rs };

    ghost IsContext = { λ context. ⊤ };

    fn read(_context: &(), cursor: &mut BitCursor<'_>) -> Option<u16> {
        let bits = take_bits(cursor, 16)? as u16;
        Some(u16::from_le_bytes(bits.to_be_bytes()))
    }

    #[tactic(auto, using(dwg_grammar::proofs::NumberLemmas::length_of_rs))]
    fn length(_context: &(), _value: &u16) -> u64 {
        16
    }

    #[tactic(auto, using(dwg_grammar::proofs::NumberLemmas::length_of_rs))]
    fn write(_context: &(), value: &u16, sink: &mut BitSink) {
        let bits = u16::from_be_bytes(value.to_le_bytes());
        sink.push(u64::from(bits), 16);
    }

    ghost laws = { λ context is. rs_is_code };
}

/// RL: four bytes, the least significant first.
pub struct CodeRL;

impl BitCode for CodeRL {
    type Context = ();

    type Value = u32;

    ghost grammar = { λ context. rl };

    ghost IsContext = { λ context. ⊤ };

    fn read(_context: &(), cursor: &mut BitCursor<'_>) -> Option<u32> {
        let bits = take_bits(cursor, 32)? as u32;
        Some(u32::from_le_bytes(bits.to_be_bytes()))
    }

    #[tactic(auto, using(dwg_grammar::proofs::NumberLemmas::length_of_rl))]
    fn length(_context: &(), _value: &u32) -> u64 {
        32
    }

    #[tactic(auto, using(dwg_grammar::proofs::NumberLemmas::length_of_rl))]
    fn write(_context: &(), value: &u32, sink: &mut BitSink) {
        let bits = u32::from_be_bytes(value.to_le_bytes());
        sink.push(u64::from(bits), 32);
    }

    ghost laws = { λ context is. rl_is_code };
}

/// RD: eight bytes, the least significant first.
pub struct CodeRD;

impl BitCode for CodeRD {
    type Context = ();

    type Value = u64;

    ghost grammar = { λ context. rd };

    ghost IsContext = { λ context. ⊤ };

    fn read(_context: &(), cursor: &mut BitCursor<'_>) -> Option<u64> {
        let bits = take_bits(cursor, 64)?;
        Some(u64::from_le_bytes(bits.to_be_bytes()))
    }

    #[tactic(auto, using(dwg_grammar::proofs::NumberLemmas::length_of_rd))]
    fn length(_context: &(), _value: &u64) -> u64 {
        64
    }

    #[tactic(auto, using(dwg_grammar::proofs::NumberLemmas::length_of_rd))]
    fn write(_context: &(), value: &u64, sink: &mut BitSink) {
        let bits = u64::from_be_bytes(value.to_le_bytes());
        sink.push(bits, 64);
    }

    ghost laws = { λ context is. rd_is_code };
}
