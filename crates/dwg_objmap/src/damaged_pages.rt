//! Pages of the map as recovery reads them: each by itself, whatever is wrong with its pairs or its check word.

ghost use Rattle.std.specs.Prelude.{◌≡◌, ◌↔◌, IsTrue, IfOk, IfSome, IfNone};
ghost use Rattle.dwg_objmap.specs.MapLines.{body_at, HasPage, HasPageWord};
ghost use Rattle.dwg_objmap.specs.Walking.{AreLongest, leading_pairs, page_holds_at, size_of_page};

use crate::page_places::{body, is_right, word_at};
use crate::pair::{Pair, origin, read_pair};
use dwg_base::{Items, NoMemory, bytes_after};
use std::alloc::Global;

/// The size of the page at a place of the input: its own two bytes and its pairs (Open Design Specification, "Object map").
/// None exactly where it is below 2, or the page doesn't lie in the input with its check word; this is a rule of this project.
pub fn page_size(bytes: &[u8], place: u64) -> Option<u16>
    ensures is { result ≡ size_of_page bytes.now place }
    ensures lies { IfSome result (λ size. HasPage bytes.now place) }
    ensures none { IfNone result (HasPage bytes.now place → ⊥) }
{
    let length = bytes.len() as u64;
    if length.saturating_sub(place) < 2 {
        return None;
    }
    let size = word_at(bytes, place as usize);
    if size < 2 {
        return None;
    }
    if length - place - 2 < size {
        return None;
    }
    Some(size as u16)
}

/// Whether the check word of a page that lies in the input is right (Open Design Specification, "Object map").
pub fn page_holds(bytes: &[u8], place: u64) -> bool
    requires { HasPage bytes.now place }
    ensures right { IsTrue result ↔ HasPageWord bytes.now place }
    ensures test { result ≡ page_holds_at bytes.now place }
{
    let size = word_at(bytes, place as usize);
    is_right(bytes, place as usize, size as usize)
}

/// Reads pairs up to where no pair in range is spelled. Each takes a byte or more.
fn read_leading(alloc: Global, body: &[u8]) -> Result<Items<Pair>, NoMemory>
    ensures { IfOk result (λ pairs. pairs ≡ leading_pairs body.now) }
{
    let mut pairs = Items::new(alloc);
    let mut last = origin();
    let mut at = 0;
    'pairs: for _ in 0..body.len() {
        let Some((pair, used)) = read_pair(&last, bytes_after(body, at)) else {
            return Ok(pairs);
        };
        last = pair;
        pairs.try_push(last)?;
        at += used;
    }
    Ok(pairs)
}

/// The pairs of a page that lies in the input: the longest list that is spelled from its begin, each pair in range (Open Design
/// Specification, "Object map"). Whether the check word is right doesn't count, and null and repeated handles stay in the list;
/// this is a rule of this project. What memory is taken is for the pairs that are there. Err: out of memory.
pub fn page_pairs(alloc: Global, bytes: &[u8], place: u64) -> Result<Items<Pair>, NoMemory>
    requires { HasPage bytes.now place }
    ensures pairs { IfOk result (λ pairs. pairs ≡ leading_pairs (body_at bytes.now place)) }
    ensures longest { IfOk result (λ pairs. AreLongest (body_at bytes.now place) pairs) }
{
    read_leading(alloc, body(bytes, place))
}
