//! The walk over the pages of the map, past those whose check word is wrong.

ghost use Rattle.std.specs.Prelude.{◌≡◌, [], ◌∷◌, ◌++◌, IfOk};
ghost use Rattle.dwg_objmap.specs.MapLines.{HasPage};
ghost use Rattle.dwg_recover.specs.Walks.{lost_end, lost_pages, pairs_at, pairs_of, walk_from};
ghost use Rattle.dwg_recover.specs.declared.loss.Loss.TheVariants.{MapEnd};

use crate::loss::Loss;
use dwg_base::{Items, NoMemory};
use dwg_objmap::{Pair, page_holds, page_pairs, page_size};
use std::alloc::Global;

/// What a walk comes by: the pairs of the pages whose check word is right, in map order, and the other pages and the end of the
/// map as losses.
#[derive(Drop)]
pub(crate) struct Walked {
    pub(crate) pairs: Items<Pair>,
    pub(crate) losses: Items<Loss>,
}

/// The size of the page that ends the map: no more than its own two bytes.
const END_SIZE: u16 = 2;

/// Pairs and others after them. Err: out of memory.
fn with_pairs(pairs: Items<Pair>, others: &[Pair]) -> Result<Items<Pair>, NoMemory>
    ensures { IfOk result (λ more. more ≡ pairs ++ others.now) }
{
    let mut pairs = pairs;
    'pairs: for pair in others {
        pairs.try_push(*pair)?;
    }
    Ok(pairs)
}

/// What a walk came by, and the page at a place, of which so many stand before it: its pairs, or the page as a loss where its
/// check word is wrong. Err: out of memory.
fn with_page(
    alloc: Global,
    walked: Walked,
    bytes: &[u8],
    place: u64,
    index: u64,
) -> Result<Walked, NoMemory>
    requires { HasPage bytes.now place }
    ensures pairs { IfOk result (λ more. more.pairs ≡ walked.pairs ++ pairs_at bytes.now place) }
    ensures losses { IfOk result (λ more. more.losses ≡ walked.losses ++ lost_pages bytes.now index (place ∷ [])) }
{
    let Walked { pairs, mut losses } = walked;
    if !page_holds(bytes, place) {
        losses.try_push(Loss::Page { index, place })?;
        return Ok(Walked { pairs, losses });
    }
    let others = page_pairs(alloc, bytes, place)?;
    let pairs = with_pairs(pairs, others.as_slice())?;
    Ok(Walked { pairs, losses })
}

/// What a walk came by, and the end of the map, which is lost at a place. Err: out of memory.
fn with_end(walked: Walked, place: u64) -> Result<Walked, NoMemory>
    ensures pairs { IfOk result (λ more. more.pairs ≡ walked.pairs) }
    ensures losses { IfOk result (λ more. more.losses ≡ walked.losses ++ MapEnd place ∷ []) }
{
    let Walked { pairs, mut losses } = walked;
    losses.try_push(Loss::MapEnd { place })?;
    Ok(Walked { pairs, losses })
}

/// Walks over the pages of the map from a place on, each directly after the one before, up to the first of size 2 or up to
/// where no page stands. Err: out of memory.
pub(crate) fn walk(alloc: Global, bytes: &[u8], place: u64) -> Result<Walked, NoMemory>
    ensures pairs { IfOk result (λ walked. walked.pairs ≡ pairs_of bytes.now (walk_from bytes.now place).pages) }
    ensures losses { IfOk result (λ walked. walked.losses ≡ lost_pages bytes.now 0 (walk_from bytes.now place).pages ++ lost_end (walk_from bytes.now place).lost) }
{
    let mut walked = Walked {
        pairs: Items::new(alloc),
        losses: Items::new(alloc),
    };
    let mut at = place;
    'pages: for index in 0..bytes.len() + 1 {
        let Some(size) = page_size(bytes, at) else {
            return with_end(walked, at);
        };
        walked = with_page(alloc, walked, bytes, at, index as u64)?;
        if size == END_SIZE {
            return Ok(walked);
        }
        at = at + u64::from(size) + 2;
    }
    Ok(walked)
}
