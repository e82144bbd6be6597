//! The entities before and after an entity, as a code (Open Design Specification, "Common entity data").

ghost use Rattle.std.specs.Prelude.{◌≡◌, ◌^◌, ◌<◌};
ghost use Rattle.dwg_common.specs.CommonLaws.{links_is_part};
ghost use Rattle.dwg_common.specs.Entities.{links};

use crate::entity::Links;
use crate::two_refs::CodeTwoRefs;
use dwg_base::Handle;
use dwg_bits::{BitCursor, BitSink};
use dwg_codes::BitCode;

/// The entities before and after an entity of a handle: two references, the one before it first.
pub(crate) struct CodeLinks;

impl BitCode for CodeLinks {
    type Context = Handle;

    type Value = Links;

    ghost grammar = { λ base. (links base).grammar };

    ghost IsContext = { λ base. base < 2 ^ 63 };

    fn read(context: &Handle, cursor: &mut BitCursor<'_>) -> Option<Links> {
        let both = CodeTwoRefs::read(context, cursor)?;
        Some(Links {
            previous: both.0,
            next: both.1,
        })
    }

    fn length(context: &Handle, value: &Links) -> u64 {
        CodeTwoRefs::length(context, &(value.previous, value.next))
    }

    fn write(context: &Handle, value: &Links, sink: &mut BitSink) {
        CodeTwoRefs::write(context, &(value.previous, value.next), sink);
    }

    ghost laws = { λ base small. (links_is_part base small).is_code };
}
