//! The entities of a block, as a code (Open Design Specification, "BLOCK HEADER").

ghost use Rattle.std.specs.Prelude.{◌≡◌, ◌^◌, ◌<◌, ◌↔◌, IsTrue};
ghost use Rattle.dwg_grammar.specs.Combinators.{when};
ghost use Rattle.dwg_tables.specs.BlockHeaderBody.{block_ends};
ghost use Rattle.dwg_tables.specs.BlockHeaderLaws.{ends_is_part};

use crate::block_header::Ends;
use dwg_base::Handle;
use dwg_bits::{BitCursor, BitSink};
use dwg_codes::BitCode;
use dwg_common::{CodeTwoRefs, two_refs_fit};

/// Whether the first and the last entity are there exactly where they are present, and can be given from the header of the
/// handle `base`.
pub(crate) fn ends_fit_when(present: bool, value: &Option<Ends>, base: Handle) -> bool
    ensures { IsTrue result ↔ (when present (block_ends base).grammar).IsValue value.now }
{
    match value {
        Some(inner) => {
            if !present {
                return false;
            }
            two_refs_fit((inner.first, inner.last), base)
        }
        None => !present,
    }
}

/// The entities of a block of a handle: two references, the first entity before the last.
pub(crate) struct CodeEnds;

impl BitCode for CodeEnds {
    type Context = Handle;

    type Value = Ends;

    ghost grammar = { λ base. (block_ends base).grammar };

    ghost IsContext = { λ base. base < 2 ^ 63 };

    fn read(context: &Handle, cursor: &mut BitCursor<'_>) -> Option<Ends> {
        let both = CodeTwoRefs::read(context, cursor)?;
        Some(Ends {
            first: both.0,
            last: both.1,
        })
    }

    fn length(context: &Handle, value: &Ends) -> u64 {
        CodeTwoRefs::length(context, &(value.first, value.last))
    }

    fn write(context: &Handle, value: &Ends, sink: &mut BitSink) {
        CodeTwoRefs::write(context, &(value.first, value.last), sink);
    }

    ghost laws = { λ base small. (ends_is_part base small).is_code };
}
