//! Reading the map: its pages one after the other, and the pairs of each.

ghost use Rattle.std.specs.Prelude.{◌≡◌, ℕ, ◌+◌, ◌-◌, ◌^◌, ◌<◌, ◌≤◌, List, [], drop, length, Ok, Err, IfOk, OnOk, IfErr, IfSome, IfNone};
ghost use Rattle.dwg_base.specs.Refusals.{Answers, IfRefused};
ghost use Rattle.dwg_objmap.specs.declared.pair.Pair.{Pair};
ghost use Rattle.dwg_objmap.specs.Pairs.{ORIGIN};
ghost use Rattle.dwg_objmap.specs.Pages.{PageAt, AreHandles, handles_of, MapOf};
ghost use Rattle.dwg_objmap.specs.MapLines.{word_at, page_end, pairs_after, page_after, pages_after, tried_page, tried_map, HasPage, HasPageWord, RefusesPage, RefusesMap};
ghost use Rattle.dwg_objmap.specs.Reading.{GoesOn, AnswersPage};

use crate::distinct_pairs::DistinctPairs;
use crate::page_places::{Page, body, is_right, word_at};
use crate::pair::{Pair, origin, read_pair};
use dwg_base::refusal_lines::{MAP_CHECK, MAP_DUPLICATE, MAP_NULL, MAP_PAIR, MAP_SHORT, MAP_SIZE};
use dwg_base::{Fault, Items, NoMemory, Refusal, bytes_after};
use std::alloc::Global;

/// The size of the page that ends the map: no more than its own two bytes.
const END_SIZE: u64 = 2;

/// Why the page at a place is refused, whatever its pairs: it is short, its size is below 2, or its check word is wrong.
fn refusal_of_page(bytes: &[u8], place: u64, index: u64) -> Option<Refusal>
    ensures refused { IfSome result (λ refusal. (seen : List Pair) → page_after seen place index bytes.now ≡ Err refusal) }
    ensures lies { IfNone result (HasPage bytes.now place) }
    ensures right { IfNone result (HasPageWord bytes.now place) }
{
    let length = bytes.len() as u64;
    if length.saturating_sub(place) < 2 {
        return Some(Refusal::new(MAP_SHORT, index, place));
    }
    let size = word_at(bytes, place as usize);
    if size < 2 {
        return Some(Refusal::new(MAP_SIZE, index, place));
    }
    if length - place - 2 < size {
        return Some(Refusal::new(MAP_SHORT, index, place));
    }
    if !is_right(bytes, place as usize, size as usize) {
        return Some(Refusal::new(MAP_CHECK, index, place + size));
    }
    None
}

/// A pair that was read, the pairs with it, and how many bytes spell it.
#[derive(Drop)]
struct Step {
    gathered: DistinctPairs,
    pair: Pair,
    used: usize,
}

/// Reads the next pair of a page: no pair begins what is left, its handle is null, or an earlier pair has its handle.
fn read_next(
    gathered: DistinctPairs,
    last: &Pair,
    rest: &[u8],
    place: u64,
    index: u64,
) -> Result<Step, Fault>
    requires { 0 < length rest.now }
    ensures step { (fuel : ℕ) → GoesOn result (pairs_after (fuel + 1) index gathered last.now place rest.now) (λ step. pairs_after fuel index step.gathered step.pair (place + step.used) (drop step.used rest.now)) }
    ensures used { IfOk result (λ step. step.used ≤ length rest.now) }
{
    let Some((pair, used)) = read_pair(last, rest) else {
        return Err(Fault::Refused(Refusal::new(MAP_PAIR, index, place)));
    };
    if pair.handle.value() == 0 {
        return Err(Fault::Refused(Refusal::new(MAP_NULL, index, place)));
    }
    let Some(gathered) = gathered.with_pair(&pair)? else {
        return Err(Fault::Refused(Refusal::new(MAP_DUPLICATE, index, place)));
    };
    Ok(Step {
        gathered,
        pair,
        used,
    })
}

/// Reads the pairs of a page after those that were read before. Each takes a byte or more.
fn read_pairs(
    gathered: DistinctPairs,
    body: &[u8],
    place: u64,
    index: u64,
) -> Result<DistinctPairs, Fault>
    requires { place + length body.now < 2 ^ 64 }
    ensures { Answers result (pairs_after (length body.now) index gathered ORIGIN place body.now) }
{
    let mut gathered = gathered;
    let mut last = origin();
    let mut at = 0;
    'pairs: for _ in 0..body.len() {
        let rest = bytes_after(body, at);
        if rest.is_empty() {
            return Ok(gathered);
        }
        let step = read_next(gathered, &last, rest, place + at as u64, index)?;
        gathered = step.gathered;
        last = step.pair;
        at += step.used;
    }
    Ok(gathered)
}

/// The place after the check word of a page.
fn next_place(bytes: &[u8], place: u64) -> u64
    requires { HasPage bytes.now place }
    ensures { result ≡ page_end bytes.now place }
{
    place + word_at(bytes, place as usize) + 2
}

/// Reads the page at a place after the pairs that were read before.
#[tactic(auto, using(crate::proofs::PageLemmas::page_right, crate::proofs::PagePlaces::length_of_body))]
fn read_page_after(
    gathered: DistinctPairs,
    bytes: &[u8],
    place: u64,
    index: u64,
) -> Result<DistinctPairs, Fault>
    ensures tried { Answers result (page_after gathered place index bytes.now) }
    ensures lies { OnOk result (HasPage bytes.now place) }
{
    if let Some(refusal) = refusal_of_page(bytes, place, index) {
        return Err(Fault::Refused(refusal));
    }
    read_pairs(gathered, body(bytes, place), place + 2, index)
}

/// Reads the page at a place of the input. `index` is the number of the page, counted from 0, which a refusal reports.
///
/// It is refused where it is short, its size is below 2 or its check word is wrong; and by its first pair that isn't spelled
/// or leaves its range, has the null handle, or has the handle of an earlier pair of the page (Open Design Specification,
/// "Object map"). What memory is taken is for the pairs that are there.
pub fn read_page(alloc: Global, bytes: &[u8], place: u64, index: u64) -> Result<Page, Fault>
    // The page that stands at the place, and the place after it.
    ensures found { IfOk result (λ page. PageAt bytes.now place page.pairs page.next × AreHandles (handles_of page.pairs)) }

    // The first line of the table that fails, or out of memory.
    ensures refused { IfErr result (λ fault. IfRefused fault (RefusesPage [] place index bytes.now)) }

    // What trying the page gives.
    ensures tried { AnswersPage result (tried_page place index bytes.now) (page_end bytes.now place) }
{
    let gathered = read_page_after(DistinctPairs::new(alloc), bytes, place, index)?;
    Ok(Page {
        pairs: gathered.into_pairs(),
        next: next_place(bytes, place),
    })
}

/// Reads the pages of the map from a place on. Each takes a byte or more.
fn read_pages(alloc: Global, bytes: &[u8], place: u64) -> Result<DistinctPairs, Fault>
    ensures { Answers result (pages_after (length bytes.now + 1) [] place 0 bytes.now) }
{
    let mut gathered = DistinctPairs::new(alloc);
    let mut at = place;
    'pages: for index in 0..bytes.len() + 1 {
        gathered = read_page_after(gathered, bytes, at, index as u64)?;
        if word_at(bytes, at as usize) == END_SIZE {
            return Ok(gathered);
        }
        at = next_place(bytes, at);
    }
    Ok(gathered)
}

/// Reads all pairs of the map whose first page is at a place of the input, in map order.
///
/// It is refused by the first page that `read_page` would refuse, where the pairs of the pages before it count as earlier
/// pairs; the index in the refusal is the number of that page, counted from 0. What memory is taken is for the pairs that
/// are there.
pub fn read_map(alloc: Global, bytes: &[u8], place: u64) -> Result<Items<Pair>, Fault>
    // The pairs of the map that stands at the place.
    ensures found { IfOk result (λ pairs. MapOf bytes.now place pairs) }

    // The first line of the table that fails, or out of memory.
    ensures refused { IfErr result (λ fault. IfRefused fault (RefusesMap place bytes.now)) }

    // What trying the map gives.
    ensures tried { Answers result (tried_map place bytes.now) }
{
    let gathered = read_pages(alloc, bytes, place)?;
    Ok(gathered.into_pairs())
}
