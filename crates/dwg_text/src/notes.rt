//! The notes that the program writes on standard error, one line each.

ghost use Rattle.std.specs.Prelude.{◌≡◌, IfOk, string_bytes};
ghost use Rattle.dwg_text.specs.Notes as texts;

use dwg_base::{ByteRun, NoMemory, Refusal, part_word, reason_word};
use std::alloc::{AllocError, Global};

/// The references of a drawing don't hold together, so it has no certificate.
#[tactic(auto, unfolding(crate::specs::Notes::unsound_note))]
pub fn unsound_note() -> &'static [u8]
    ensures { result.now ≡ texts.unsound_note }
{
    b"dwg: not sound\n"
}

/// No preview stands where the file header says, so none is carried.
#[tactic(auto, unfolding(crate::specs::Notes::preview_dropped_note))]
pub fn preview_dropped_note() -> &'static [u8]
    ensures { result.now ≡ texts.preview_dropped_note }
{
    b"dwg: preview dropped\n"
}

/// How many entities a made drawing may be asked for.
#[tactic(auto, unfolding(crate::specs::Notes::size_note))]
pub fn size_note() -> &'static [u8]
    ensures { result.now ≡ texts.size_note }
{
    b"dwg: size must be 1 to 200000\n"
}

/// The input could not be read.
#[tactic(auto, unfolding(crate::specs::Notes::read_fault_note))]
pub fn read_fault_note() -> &'static [u8]
    ensures { result.now ≡ texts.read_fault_note }
{
    b"dwg: read fault\n"
}

/// The input is longer than the limit.
#[tactic(auto, unfolding(crate::specs::Notes::too_long_note))]
pub fn too_long_note() -> &'static [u8]
    ensures { result.now ≡ texts.too_long_note }
{
    b"dwg: input too long\n"
}

/// The words of a refusal: which part of the input is faulty, where, and why. Err: out of memory.
#[tactic(auto, unfolding(crate::specs::Notes::refusal_words))]
pub fn refusal_words(alloc: Global, refusal: Refusal) -> Result<String, AllocError>
    ensures { IfOk result (λ words. string_bytes words ≡ texts.refusal_words refusal) }
{
    let index = refusal.index;
    let place = refusal.place;
    let mut words = String::from_str(alloc, part_word(refusal.line))?;
    write!(words, " {index} at {place}: ")?;
    words.push_str(reason_word(refusal.line))?;
    Ok(words)
}

/// The line that notes a refusal. Err: out of memory.
#[tactic(auto, unfolding(crate::specs::Notes::refusal_note))]
pub fn refusal_line(alloc: Global, refusal: Refusal) -> Result<String, AllocError>
    ensures { IfOk result (λ note. string_bytes note ≡ texts.refusal_note refusal) }
{
    let words = refusal_words(alloc, refusal)?;
    let mut note = String::from_str(alloc, "dwg: refused: ")?;
    note.push_str(words.as_str())?;
    note.push_str("\n")?;
    Ok(note)
}

/// Which part of the input is faulty, where, and why. Err: out of memory.
pub fn refusal_note(alloc: Global, refusal: Refusal) -> Result<ByteRun, NoMemory>
    ensures { IfOk result (λ note. note ≡ texts.refusal_note refusal) }
{
    let note = refusal_line(alloc, refusal)?;
    Ok(ByteRun::from_vec(note.into_bytes()))
}

#[tactic(auto, unfolding(crate::specs::Notes::too_large_note))]
fn too_large_text(alloc: Global, size: u64) -> Result<String, AllocError>
    ensures { IfOk result (λ note. string_bytes note ≡ texts.too_large_note size) }
{
    let mut note = format!(in alloc; "dwg: drawing too large: {size}")?;
    note.push_str(" bytes\n")?;
    Ok(note)
}

/// The canonical file would have so many bytes, more than the limit. Err: out of memory.
pub fn too_large_note(alloc: Global, size: u64) -> Result<ByteRun, NoMemory>
    ensures { IfOk result (λ note. note ≡ texts.too_large_note size) }
{
    let note = too_large_text(alloc, size)?;
    Ok(ByteRun::from_vec(note.into_bytes()))
}
