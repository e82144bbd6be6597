//! A body that is read, and that may be written again.

ghost use Rattle.std.specs.Prelude.{◌^◌, ◌<◌, length, IfSome};
ghost use Rattle.dwg_common.specs.Layouts.{NEWER, older};

use dwg_base::Handle;
use dwg_bits::BitCursor;
use dwg_common::{BodyCode, BodyCode14};
use std::alloc::Global;

/// The body before the bits, if there is one: it fits, and has no more bits than were there. None: out of memory.
pub(crate) fn read_body<B: BodyCode + Drop>(
    alloc: Global,
    base: Handle,
    main: &mut BitCursor<'_>,
    refs: &mut BitCursor<'_>,
) -> Option<Option<B>>
    requires main { length main.old.bytes.now < 2 ^ 16 }
    requires refs { length refs.old.bytes.now < 2 ^ 16 }
    ensures fits { IfSome result (λ found. IfSome found (B.grammar NEWER base).Fits) }
    ensures few { IfSome result (λ found. IfSome found (λ body. length ((B.grammar NEWER base).short_main body) < 2 ^ 20)) }
    ensures refs_few { IfSome result (λ found. IfSome found (λ body. length ((B.grammar NEWER base).short_references body) < 2 ^ 20)) }
{
    // The laws of bodies ask that their base is a handle's number.
    let _base = base.value();
    match B::read(alloc, main, refs, base) {
        Ok(Some(body)) => Some(Some(body)),
        Ok(None) => Some(None),
        Err(_) => None,
    }
}

/// The same of a body of AC1014 with this bit size.
pub(crate) fn read_body14<B: BodyCode14 + Drop>(
    alloc: Global,
    size: u32,
    base: Handle,
    main: &mut BitCursor<'_>,
    refs: &mut BitCursor<'_>,
) -> Option<Option<B>>
    requires main { length main.old.bytes.now < 2 ^ 16 }
    requires refs { length refs.old.bytes.now < 2 ^ 16 }
    ensures fits { IfSome result (λ found. IfSome found (B.grammar (older 0) base).Fits) }
    ensures few { IfSome result (λ found. IfSome found (λ body. length ((B.grammar (older 0) base).short_main body) < 2 ^ 20)) }
    ensures refs_few { IfSome result (λ found. IfSome found (λ body. length ((B.grammar (older 0) base).short_references body) < 2 ^ 20)) }
{
    let _base = base.value();
    match B::read14(alloc, size, main, refs, base) {
        Ok(Some(body)) => Some(Some(body)),
        Ok(None) => Some(None),
        Err(_) => None,
    }
}
