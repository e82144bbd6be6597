//! Pairs of the map.

ghost use Rattle.std.specs.Prelude.{◌≡◌, ◌+◌, ◌^◌, ◌<◌, ◌≤◌, Some, None, IfSome, IfNone, drop, length};
ghost use Rattle.dwg_objmap.specs.Pairs.{ORIGIN, place_at_step, pair_at_steps, pair_after};

use dwg_base::{Handle, bytes_after};
use dwg_codes::{read_mc, read_signed_mc};

/// Where the frame of an object stands (Open Design Specification, "Object map").
#[derive(Clone, Copy, Debug, PartialEq, Eq)]
pub struct Pair {
    /// The object's handle.
    pub handle: Handle,
    /// The frame's place in the file, in bytes, below 2^63.
    pub place: u64,
}

/// What the first pair of a page is written from: the null handle and the place 0.
pub(crate) fn origin() -> Pair
    ensures { result ≡ ORIGIN }
{
    Pair {
        handle: Handle::NULL,
        place: 0,
    }
}

/// The place that a step leads to. None where it would lie before the begin of the file, or not below 2^63.
fn place_at_step(place: u64, step: i64) -> Option<u64>
    ensures { result ≡ place_at_step place step }
{
    let distance = step.unsigned_abs();
    let to = if step < 0 {
        place.checked_sub(distance)?
    } else {
        place.checked_add(distance)?
    };
    if to < 1 << 63 { Some(to) } else { None }
}

/// The pair that two steps lead to, where its handle and its place are in range.
fn pair_at_steps(before: &Pair, step: u64, move_: i64) -> Option<Pair>
    requires { step < 2 ^ 63 }
    ensures { result ≡ pair_at_steps before.now step move_ }
{
    let handle = Handle::new(before.handle.value() + step)?;
    let place = place_at_step(before.place, move_)?;
    Some(Pair { handle, place })
}

/// Reads a pair at the begin of the bytes, written from the one before: the pair, and how many bytes spell it. None where no
/// prefix spells one that is in range.
#[tactic(auto, using(crate::proofs::PairReading::no_step))]
pub(crate) fn read_pair(before: &Pair, bytes: &[u8]) -> Option<(Pair, usize)>
    ensures found { IfSome result (λ found. (pair_after before.now).parse bytes.now ≡ Some (found.0, drop found.1 bytes.now)) }
    ensures none { IfNone result ((pair_after before.now).parse bytes.now ≡ None) }
    ensures used { IfSome result (λ found. found.1 ≤ length bytes.now) }
{
    let Some((step, prefix)) = read_mc(bytes) else {
        return None;
    };
    let rest = bytes_after(bytes, prefix);
    let Some((move_, back)) = read_signed_mc(rest) else {
        return None;
    };
    let Some(pair) = pair_at_steps(before, step, move_) else {
        return None;
    };
    Some((pair, prefix + back))
}
