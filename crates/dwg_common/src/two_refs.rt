//! Two references, one after the other, as a code (Open Design Specification, "Handle references").

ghost use Rattle.std.specs.Prelude.{◌≡◌, ◌^◌, ◌<◌, ◌↔◌, IsTrue};
ghost use Rattle.dwg_grammar.specs.References.{two_refs};
ghost use Rattle.dwg_grammar.proofs.ReferenceParts.{two_is_part};
ghost use Rattle.dwg_common.specs.Parsing.{Keeps, Parses};

use crate::part_reading::parse_code;
use dwg_base::Handle;
use dwg_bits::{BitCursor, BitSink};
use dwg_codes::BitCode;
use dwg_handles::{CodeH, Ref, ref_bits};

/// Reads two references of the object of the handle `base`, as they are parsed.
fn read_two(cursor: &mut BitCursor<'_>, base: Handle) -> Option<(Ref, Ref)>
    ensures parsed { Parses (two_refs base).grammar result cursor.old cursor.new }
    ensures kept { Keeps cursor.old cursor.new }
{
    let first = parse_code::<CodeH>(&base, cursor)?;
    let second = parse_code::<CodeH>(&base, cursor)?;
    Some((first, second))
}

/// Whether both references can be given from the object of the handle `base`.
#[tactic(auto, unfolding(dwg_grammar::specs::ReferenceCodes::reference))]
pub fn two_refs_fit(both: (Ref, Ref), base: Handle) -> bool
    ensures { IsTrue result ↔ (two_refs base).grammar.IsValue both }
{
    if !both.0.fits(base) {
        return false;
    }
    both.1.fits(base)
}

/// Two references of the object of a handle, one after the other.
pub struct CodeTwoRefs;

impl BitCode for CodeTwoRefs {
    type Context = Handle;

    type Value = (Ref, Ref);

    ghost grammar = { λ base. (two_refs base).grammar };

    ghost IsContext = { λ base. base < 2 ^ 63 };

    #[tactic(auto, using(crate::proofs::TwoRefsReading::two_refs_read, crate::proofs::TwoRefsReading::two_refs_unread, crate::proofs::TwoRefsReading::two_refs_value))]
    fn read(context: &Handle, cursor: &mut BitCursor<'_>) -> Option<(Ref, Ref)> {
        // The laws of references ask that their base is a handle's number, which one after a reference doesn't give.
        let _base = context.value();
        let mut ahead = *cursor;
        let both = read_two(&mut ahead, *context)?;
        *cursor = ahead;
        Some(both)
    }

    #[tactic(auto, unfolding(dwg_grammar::specs::ReferenceCodes::reference))]
    fn length(context: &Handle, value: &(Ref, Ref)) -> u64 {
        ref_bits(value.0, *context) + ref_bits(value.1, *context)
    }

    fn write(context: &Handle, value: &(Ref, Ref), sink: &mut BitSink) {
        CodeH::write(context, &value.0, sink);
        CodeH::write(context, &value.1, sink);
    }

    ghost laws = { λ base small. (two_is_part base small).is_code };
}
