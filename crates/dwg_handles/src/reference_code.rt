//! References as bits (Open Design Specification, "Handle references").

ghost use Rattle.std.specs.Prelude.{◌≡◌, ◌^◌, ◌<◌, ◌≤◌, true, length, IfSome, IfNone};
ghost use Rattle.dwg_bits.specs.Cursor.{rest};
ghost use Rattle.dwg_bits.specs.Sink.{Extends};
ghost use Rattle.dwg_grammar.specs.Grammar.{Reads};
ghost use Rattle.dwg_grammar.specs.Reference.{reaches};
ghost use Rattle.dwg_grammar.specs.ReferenceCodes.{number_after, reference};
ghost use Rattle.dwg_grammar.proofs.ReferenceLemmas.{reference_is_code};

use crate::reference::Ref;
use crate::reference_parts::{ReferenceParts, parts_bits, write_parts};
use dwg_base::Handle;
use dwg_bits::{BitCursor, BitSink};
use dwg_codes::BitCode;

/// The number that is written of a reference: the target, how far ahead or back it is, or 0 for the next handle and the
/// one before.
fn number_after(reference: &Ref, base: Handle) -> u64
    requires { reaches base reference.now ≡ true }
    ensures { result ≡ number_after base reference.now }
{
    let target = reference.target.value();
    match reference.code {
        0..=5 => target,
        10 => target - base.value(),
        12 => base.value() - target,
        _ => 0,
    }
}

/// H, a reference of the object of a handle: four bits of code, four bits of a count of at most eight bytes, and so many
/// bytes of a number, the most significant first.
pub struct CodeH;

impl BitCode for CodeH {
    type Context = Handle;

    type Value = Ref;

    ghost grammar = { λ base. reference base };

    ghost IsContext = { λ base. base < 2 ^ 63 };

    #[tactic(auto, using(crate::proofs::ReferenceReading::ref_read, crate::proofs::ReferenceReading::ref_unread, crate::proofs::ReferenceReading::ref_unresolved, crate::proofs::ReferenceReading::resolved_reached), unfolding(dwg_grammar::specs::ReferenceCodes::reference))]
    fn read(context: &Handle, cursor: &mut BitCursor<'_>) -> Option<Ref> {
        let mut ahead = *cursor;
        let parts = ReferenceParts::read(&mut ahead)?;
        let target = parts.target(*context)?;
        *cursor = ahead;
        Some(Ref {
            code: parts.code,
            target,
        })
    }

    #[tactic(auto, using(dwg_grammar::proofs::ReferenceLemmas::reference_short))]
    fn length(context: &Handle, value: &Ref) -> u64 {
        parts_bits(value.code, number_after(value, *context))
    }

    #[tactic(auto, using(dwg_grammar::proofs::ReferenceLemmas::reference_short))]
    fn write(context: &Handle, value: &Ref, sink: &mut BitSink) {
        write_parts(value.code, number_after(value, *context), sink);
    }

    ghost laws = { λ base small. reference_is_code base small };
}

/// Reads a reference of the object of the handle `base`. None, with nothing moved, exactly where no prefix of the rest
/// spells one: too few bits, a count above eight, a code that no reference has, bytes after 6 or 8, or a target below 0 or
/// not below 2^63.
#[tactic(auto, using(crate::proofs::ReferenceReading::value_reached))]
pub fn read_ref(cursor: &mut BitCursor<'_>, base: Handle) -> Option<Ref>
    ensures reads { Reads (reference base) result (rest cursor.old) (rest cursor.new) }
    ensures value { IfSome result (λ value. reaches base value ≡ true) }
    ensures unmoved { IfNone result (cursor.new.place ≡ cursor.old.place) }
    ensures same_bytes { cursor.new.bytes.now ≡ cursor.old.bytes.now }
    ensures same_end { cursor.new.end ≡ cursor.old.end }
{
    CodeH::read(&base, cursor)
}

/// How many bits a reference is written by in the object of the handle `base`.
#[tactic(auto, using(dwg_grammar::proofs::ReferenceLemmas::reference_most), unfolding(dwg_grammar::specs::ReferenceCodes::reference))]
pub fn ref_bits(value: Ref, base: Handle) -> u64
    requires { reaches base value ≡ true }
    ensures length { result ≡ length ((reference base).short value) }
    ensures few { result ≤ 72 }
{
    CodeH::length(&base, &value)
}

/// Writes a reference in the object of the handle `base`, by the fewest bytes.
#[tactic(auto, unfolding(dwg_grammar::specs::ReferenceCodes::reference))]
pub fn write_ref(value: Ref, base: Handle, sink: &mut BitSink)
    requires value { reaches base value ≡ true }
    requires room { length ((reference base).short value) ≤ sink.old.spare }
    ensures { Extends sink.old sink.new ((reference base).short value) }
{
    CodeH::write(&base, &value, sink);
}
