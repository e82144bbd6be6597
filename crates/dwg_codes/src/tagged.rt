//! Codes that begin with a tag (Open Design Specification, "Bit codes").

ghost use Rattle.std.specs.Prelude.{◌≡◌, ◌+◌, ◌^◌, ◌<◌, ◌≤◌, ⊤, ℕ, Bool, length, IfSome, IfNone};
ghost use Rattle.std.proofs.Common.{lit≤};
ghost use Rattle.dwg_bits.specs.Cursor.{rest};
ghost use Rattle.dwg_bits.specs.Sink.{Extends};
ghost use Rattle.dwg_grammar.specs.Codes.{bs, bs_by, bs_tag, bl, bl_by, bl_tag, bd, bd_by, bd_tag, bt, bt_by, bt_tag};
ghost use Rattle.dwg_grammar.specs.Combinators.{fixed, tagged};
ghost use Rattle.dwg_grammar.specs.Grammar.{Grammar, Reads};
ghost use Rattle.dwg_grammar.proofs.TableLemmas.{bs_is_code, bl_is_code, bd_is_code, bt_is_code};

use crate::code::{BitCode, take_bits};
use crate::fixed::{CodeRC, CodeRD, CodeRL, CodeRS};
use dwg_bits::{BitCursor, BitSink};

/// The word of 1.0: the 64-bit floating-point number by its bits.
pub const ONE_WORD: u64 = 0x3FF0_0000_0000_0000;

/// A tag of a few bits, and what is spelled after each tag.
pub(crate) trait Tagged {
    /// What a spelling depends on beside its value.
    type Context;
    /// What is spelled.
    type Value;

    /// How many bits a tag has.
    const WIDTH: u32;

    ghost WIDTH: { ℕ };

    // What is spelled after each tag.
    ghost by: { Self.Context → ℕ → Grammar Bool Self.Value };

    // The value has a spelling after some tag.
    ghost IsTagged: { Self.Context → Self.Value → Type 0 };

    // The tag under which a value is written.
    ghost pick: { Self.Context → Self.Value → ℕ };

    /// Reads the value after a tag. None exactly where no prefix spells one there.
    fn read_payload(
        context: &Self::Context,
        tag: u64,
        cursor: &mut BitCursor<'_>,
    ) -> Option<Self::Value>
        requires { tag < 2 ^ WIDTH }
        ensures reads { Reads (by context.now tag) result (rest cursor.old) (rest cursor.new) }
        ensures value { IfSome result (IsTagged context.now) }
        ensures same_bytes { cursor.new.bytes.now ≡ cursor.old.bytes.now }
        ensures same_end { cursor.new.end ≡ cursor.old.end };

    /// The tag under which a value is written.
    fn tag(context: &Self::Context, value: &Self::Value) -> u64
        requires { IsTagged context.now value.now }
        ensures pick { result ≡ pick context.now value.now }
        ensures fits { result < 2 ^ WIDTH }
        ensures value { (by context.now result).IsValue value.now };

    /// How many bits are written of a value after a tag.
    fn length_after(context: &Self::Context, tag: u64, value: &Self::Value) -> u64
        requires tag { tag < 2 ^ WIDTH }
        requires value { (by context.now tag).IsValue value.now }
        ensures length { result ≡ length ((by context.now tag).short value.now) }
        ensures few { result < 2 ^ 16 };

    /// Writes a value after a tag.
    fn write_payload(context: &Self::Context, tag: u64, value: &Self::Value, sink: &mut BitSink)
        requires tag { tag < 2 ^ WIDTH }
        requires value { (by context.now tag).IsValue value.now }
        requires room { length ((by context.now tag).short value.now) ≤ sink.old.spare }
        ensures { Extends sink.old sink.new ((by context.now tag).short value.now) };

    // A tag is taken as a word.
    ghost narrow: { WIDTH ≤ 64 };
}

/// Reads a tag and the value after it.
pub(crate) fn read_tagged<C: Tagged>(
    context: &C::Context,
    cursor: &mut BitCursor<'_>,
) -> Option<C::Value>
    ensures reads { Reads (tagged (fixed C.WIDTH) (C.by context.now) (C.IsTagged context.now) (C.pick context.now)) result (rest cursor.old) (rest cursor.new) }
    ensures value { IfSome result (C.IsTagged context.now) }
    ensures unmoved { IfNone result (cursor.new.place ≡ cursor.old.place) }
    ensures same_bytes { cursor.new.bytes.now ≡ cursor.old.bytes.now }
    ensures same_end { cursor.new.end ≡ cursor.old.end }
{
    let mut ahead = *cursor;
    let tag = take_bits(&mut ahead, C::WIDTH)?;
    let value = C::read_payload(context, tag, &mut ahead)?;
    *cursor = ahead;
    Some(value)
}

/// How many bits a value is written by with its tag.
pub(crate) fn length_tagged<C: Tagged>(context: &C::Context, value: &C::Value) -> u64
    requires { C.IsTagged context.now value.now }
    ensures length { result ≡ length ((tagged (fixed C.WIDTH) (C.by context.now) (C.IsTagged context.now) (C.pick context.now)).short value.now) }
    ensures few { result < 2 ^ 32 }
{
    let tag = C::tag(context, value);
    u64::from(C::WIDTH) + C::length_after(context, tag, value)
}

/// Writes a value with its tag.
pub(crate) fn write_tagged<C: Tagged>(context: &C::Context, value: &C::Value, sink: &mut BitSink)
    requires value { C.IsTagged context.now value.now }
    requires room { length ((tagged (fixed C.WIDTH) (C.by context.now) (C.IsTagged context.now) (C.pick context.now)).short value.now) ≤ sink.old.spare }
    ensures { Extends sink.old sink.new ((tagged (fixed C.WIDTH) (C.by context.now) (C.IsTagged context.now) (C.pick context.now)).short value.now) }
{
    let tag = C::tag(context, value);
    sink.push(tag, C::WIDTH);
    C::write_payload(context, tag, value, sink);
}

/// BS: 00 and an RS, 01 and an RC, 10 for 0, 11 for 256.
pub struct CodeBS;

impl Tagged for CodeBS {
    type Context = ();

    type Value = u16;

    const WIDTH: u32 = 2;

    ghost WIDTH = { 2 };

    ghost by = { λ context. bs_by };

    ghost IsTagged = { λ context. bs.IsValue };

    ghost pick = { λ context. bs_tag };

    fn read_payload(_context: &(), tag: u64, cursor: &mut BitCursor<'_>) -> Option<u16> {
        match tag {
            0 => CodeRS::read(&(), cursor),
            1 => Some(u16::from(CodeRC::read(&(), cursor)?)),
            2 => Some(0),
            _ => Some(256),
        }
    }

    fn tag(_context: &(), value: &u16) -> u64 {
        match *value {
            0 => 2,
            256 => 3,
            1..=255 => 1,
            _ => 0,
        }
    }

    #[tactic(auto, using(dwg_grammar::proofs::NumberLemmas::length_of_rs, dwg_grammar::proofs::NumberLemmas::length_of_rc))]
    fn length_after(_context: &(), tag: u64, value: &u16) -> u64 {
        match tag {
            0 => CodeRS::length(&(), value),
            1 => CodeRC::length(&(), &(*value as u8)),
            _ => 0,
        }
    }

    fn write_payload(_context: &(), tag: u64, value: &u16, sink: &mut BitSink) {
        match tag {
            0 => CodeRS::write(&(), value, sink),
            1 => CodeRC::write(&(), &(*value as u8), sink),
            _ => {}
        }
    }

    ghost narrow = { lit≤ tt };
}

impl BitCode for CodeBS {
    type Context = ();

    type Value = u16;

    ghost grammar = { λ context. bs };

    ghost IsContext = { λ context. ⊤ };

    fn read(context: &(), cursor: &mut BitCursor<'_>) -> Option<u16> {
        read_tagged::<CodeBS>(context, cursor)
    }

    fn length(context: &(), value: &u16) -> u64 {
        length_tagged::<CodeBS>(context, value)
    }

    fn write(context: &(), value: &u16, sink: &mut BitSink) {
        write_tagged::<CodeBS>(context, value, sink);
    }

    ghost laws = { λ context is. bs_is_code };
}

/// BL: 00 and an RL, 01 and an RC, 10 for 0.
pub struct CodeBL;

impl Tagged for CodeBL {
    type Context = ();

    type Value = u32;

    const WIDTH: u32 = 2;

    ghost WIDTH = { 2 };

    ghost by = { λ context. bl_by };

    ghost IsTagged = { λ context. bl.IsValue };

    ghost pick = { λ context. bl_tag };

    fn read_payload(_context: &(), tag: u64, cursor: &mut BitCursor<'_>) -> Option<u32> {
        match tag {
            0 => CodeRL::read(&(), cursor),
            1 => Some(u32::from(CodeRC::read(&(), cursor)?)),
            2 => Some(0),
            _ => None,
        }
    }

    fn tag(_context: &(), value: &u32) -> u64 {
        match *value {
            0 => 2,
            1..=255 => 1,
            _ => 0,
        }
    }

    #[tactic(auto, using(dwg_grammar::proofs::NumberLemmas::length_of_rl, dwg_grammar::proofs::NumberLemmas::length_of_rc))]
    fn length_after(_context: &(), tag: u64, value: &u32) -> u64 {
        match tag {
            0 => CodeRL::length(&(), value),
            1 => CodeRC::length(&(), &(*value as u8)),
            _ => 0,
        }
    }

    fn write_payload(_context: &(), tag: u64, value: &u32, sink: &mut BitSink) {
        match tag {
            0 => CodeRL::write(&(), value, sink),
            1 => CodeRC::write(&(), &(*value as u8), sink),
            _ => {}
        }
    }

    ghost narrow = { lit≤ tt };
}

impl BitCode for CodeBL {
    type Context = ();

    type Value = u32;

    ghost grammar = { λ context. bl };

    ghost IsContext = { λ context. ⊤ };

    fn read(context: &(), cursor: &mut BitCursor<'_>) -> Option<u32> {
        read_tagged::<CodeBL>(context, cursor)
    }

    fn length(context: &(), value: &u32) -> u64 {
        length_tagged::<CodeBL>(context, value)
    }

    fn write(context: &(), value: &u32, sink: &mut BitSink) {
        write_tagged::<CodeBL>(context, value, sink);
    }

    ghost laws = { λ context is. bl_is_code };
}

/// BD: 00 and an RD, 01 for 1.0, 10 for 0.0.
pub struct CodeBD;

impl Tagged for CodeBD {
    type Context = ();

    type Value = u64;

    const WIDTH: u32 = 2;

    ghost WIDTH = { 2 };

    ghost by = { λ context. bd_by };

    ghost IsTagged = { λ context. bd.IsValue };

    ghost pick = { λ context. bd_tag };

    fn read_payload(_context: &(), tag: u64, cursor: &mut BitCursor<'_>) -> Option<u64> {
        match tag {
            0 => CodeRD::read(&(), cursor),
            1 => Some(ONE_WORD),
            2 => Some(0),
            _ => None,
        }
    }

    fn tag(_context: &(), value: &u64) -> u64 {
        match *value {
            0 => 2,
            ONE_WORD => 1,
            _ => 0,
        }
    }

    #[tactic(auto, using(dwg_grammar::proofs::NumberLemmas::length_of_rd))]
    fn length_after(_context: &(), tag: u64, value: &u64) -> u64 {
        match tag {
            0 => CodeRD::length(&(), value),
            _ => 0,
        }
    }

    fn write_payload(_context: &(), tag: u64, value: &u64, sink: &mut BitSink) {
        match tag {
            0 => CodeRD::write(&(), value, sink),
            _ => {}
        }
    }

    ghost narrow = { lit≤ tt };
}

impl BitCode for CodeBD {
    type Context = ();

    type Value = u64;

    ghost grammar = { λ context. bd };

    ghost IsContext = { λ context. ⊤ };

    fn read(context: &(), cursor: &mut BitCursor<'_>) -> Option<u64> {
        read_tagged::<CodeBD>(context, cursor)
    }

    fn length(context: &(), value: &u64) -> u64 {
        length_tagged::<CodeBD>(context, value)
    }

    fn write(context: &(), value: &u64, sink: &mut BitSink) {
        write_tagged::<CodeBD>(context, value, sink);
    }

    ghost laws = { λ context is. bd_is_code };
}

/// BT: 1 for 0.0, 0 and a BD.
pub struct CodeBT;

impl Tagged for CodeBT {
    type Context = ();

    type Value = u64;

    const WIDTH: u32 = 1;

    ghost WIDTH = { 1 };

    ghost by = { λ context. bt_by };

    ghost IsTagged = { λ context. bt.IsValue };

    ghost pick = { λ context. bt_tag };

    fn read_payload(_context: &(), tag: u64, cursor: &mut BitCursor<'_>) -> Option<u64> {
        match tag {
            0 => CodeBD::read(&(), cursor),
            _ => Some(0),
        }
    }

    fn tag(_context: &(), value: &u64) -> u64 {
        match *value {
            0 => 1,
            _ => 0,
        }
    }

    #[tactic(auto, using(dwg_grammar::proofs::Bounds::bd_at_most))]
    fn length_after(_context: &(), tag: u64, value: &u64) -> u64 {
        match tag {
            0 => CodeBD::length(&(), value),
            _ => 0,
        }
    }

    fn write_payload(_context: &(), tag: u64, value: &u64, sink: &mut BitSink) {
        match tag {
            0 => CodeBD::write(&(), value, sink),
            _ => {}
        }
    }

    ghost narrow = { lit≤ tt };
}

impl BitCode for CodeBT {
    type Context = ();

    type Value = u64;

    ghost grammar = { λ context. bt };

    ghost IsContext = { λ context. ⊤ };

    fn read(context: &(), cursor: &mut BitCursor<'_>) -> Option<u64> {
        read_tagged::<CodeBT>(context, cursor)
    }

    fn length(context: &(), value: &u64) -> u64 {
        length_tagged::<CodeBT>(context, value)
    }

    fn write(context: &(), value: &u64, sink: &mut BitSink) {
        write_tagged::<CodeBT>(context, value, sink);
    }

    ghost laws = { λ context is. bt_is_code };
}
