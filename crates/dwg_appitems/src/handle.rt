//! Handles as eight bytes.

ghost use Rattle.std.specs.Prelude.{⊤};
ghost use Rattle.dwg_grammar.proofs.CombinatorLemmas.{fixed_is_code};
ghost use Rattle.dwg_appitems.specs.Items.{handle};

use dwg_bits::{BitCursor, BitSink};
use dwg_codes::BitCode;

/// A handle: eight bytes, the most significant first.
pub(crate) struct CodeHandle;

impl BitCode for CodeHandle {
    type Context = ();

    type Value = u64;

    ghost grammar = { λ context. handle };

    ghost IsContext = { λ context. ⊤ };

    fn read(_context: &(), cursor: &mut BitCursor<'_>) -> Option<u64> {
        cursor.take(64)
    }

    #[tactic(auto, using(dwg_bits::proofs::BitLaws::length_of_low_bits))]
    fn length(_context: &(), _value: &u64) -> u64 {
        64
    }

    #[tactic(auto, using(dwg_bits::proofs::BitLaws::length_of_low_bits))]
    fn write(_context: &(), value: &u64, sink: &mut BitSink) {
        sink.push(*value, 64);
    }

    ghost laws = { λ context is. fixed_is_code 64 };
}
