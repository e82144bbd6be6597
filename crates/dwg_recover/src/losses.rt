//! What is lost of a damaged file, in its order.

ghost use Rattle.std.specs.Prelude.{◌≡◌, [], ◌∷◌, ◌++◌, IfOk};
ghost use Rattle.dwg_recover.specs.Frames.{lost_pairs};
ghost use Rattle.dwg_recover.specs.Sections.{lost_if, lost_sections};

use crate::kept::KeptFrames;
use crate::loss::Loss;
use dwg_base::{Items, NoMemory};
use dwg_file::is_cut;
use dwg_objmap::Pair;
use dwg_sections::Locator;

/// Losses and one more, if it is one. Err: out of memory.
pub(crate) fn with_loss_if(
    mut losses: Items<Loss>,
    lost: bool,
    loss: Loss,
) -> Result<Items<Loss>, NoMemory>
    ensures { IfOk result (λ more. more ≡ losses ++ lost_if lost loss) }
{
    if !lost {
        return Ok(losses);
    }
    losses.try_push(loss)?;
    Ok(losses)
}

/// Losses and others after them. Err: out of memory.
pub(crate) fn with_losses(losses: Items<Loss>, others: &[Loss]) -> Result<Items<Loss>, NoMemory>
    ensures { IfOk result (λ more. more ≡ losses ++ others.now) }
{
    let mut losses = losses;
    'losses: for loss in others {
        losses.try_push(*loss)?;
    }
    Ok(losses)
}

/// Losses and the unknown section of a locator, where it passes the end of the input. Err: out of memory.
fn with_lost_section(
    mut losses: Items<Loss>,
    bytes: &[u8],
    locator: &Locator,
) -> Result<Items<Loss>, NoMemory>
    ensures { IfOk result (λ more. more ≡ losses ++ lost_sections bytes.now (locator.now ∷ [])) }
{
    if !is_cut(bytes, locator) {
        return Ok(losses);
    }
    losses.try_push(Loss::Section {
        number: locator.number,
        place: u64::from(locator.place),
    })?;
    Ok(losses)
}

/// Losses and the unknown sections of locators that pass the end of the input. Err: out of memory.
pub(crate) fn with_lost_sections(
    losses: Items<Loss>,
    bytes: &[u8],
    locators: &[Locator],
) -> Result<Items<Loss>, NoMemory>
    ensures { IfOk result (λ more. more ≡ losses ++ lost_sections bytes.now locators.now) }
{
    let mut losses = losses;
    'locators: for locator in locators {
        losses = with_lost_section(losses, bytes, locator)?;
    }
    Ok(losses)
}

/// Losses and the pair of a number, where no frame was kept for it. Err: out of memory.
#[tactic(auto, unfolding(crate::specs::Frames::lost_pairs))]
fn with_lost_pair(
    mut losses: Items<Loss>,
    kept: &KeptFrames,
    number: u64,
    pair: &Pair,
) -> Result<Items<Loss>, NoMemory>
    ensures { IfOk result (λ more. more ≡ losses ++ lost_pairs kept.now number (pair.now ∷ [])) }
{
    if kept.is_kept_pair(number) {
        return Ok(losses);
    }
    losses.try_push(Loss::Object {
        handle: pair.handle,
        place: pair.place,
    })?;
    Ok(losses)
}

/// Losses and the pairs that no frame was kept for, in map order. Err: out of memory.
pub(crate) fn with_lost_pairs(
    losses: Items<Loss>,
    kept: &KeptFrames,
    pairs: &[Pair],
) -> Result<Items<Loss>, NoMemory>
    ensures { IfOk result (λ more. more ≡ losses ++ lost_pairs kept.now 0 pairs.now) }
{
    let mut losses = losses;
    'pairs: for index in 0..pairs.len() {
        losses = with_lost_pair(losses, kept, index as u64, &pairs[index])?;
    }
    Ok(losses)
}
