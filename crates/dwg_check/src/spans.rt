//! Check words of the spans of a run of bytes, each without going over its bytes.

ghost use Rattle.std.specs.Prelude.{◌≡◌, ◌≤◌, ◌+◌, ◌-◌, length, take, drop, IfOk};
ghost use Rattle.dwg_check.specs.CheckWord.{check_word};
ghost use Rattle.dwg_check.specs.Spans.{prefix_words};

use crate::table::after_byte;
use crate::zeros::after_zeros;
use dwg_base::NoMemory;
use dwg_steps::Steps;
use std::alloc::Global;
use std::marker::Model;
use std::sync::ledger::Ledger;

/// The check word of each prefix of the bytes, begun as 0, from the empty one to all. Err: out of memory.
#[tactic(auto, using(crate::proofs::PrefixWords::one_prefix_more, crate::proofs::PrefixWords::one_byte_more))]
fn words_of(alloc: Global, bytes: &[u8]) -> Result<Vec<u16>, NoMemory>
    ensures { IfOk result (λ words. words.items ≡ prefix_words bytes.now) }
{
    let mut words = Vec::new(alloc);
    let mut word = 0;
    words.push(word)?;
    'bytes: for byte in bytes {
        word = after_byte(word, *byte);
        words.push(word)?;
    }
    Ok(words)
}

/// The check words of the spans of a run of bytes (a rule of this project: it keeps the word of each prefix of the bytes, two bytes of
/// memory for each byte). Contracts see the bytes.
#[derive(Drop)]
pub struct SpanChecks<'a> {
    bytes: &'a [u8],
    words: Vec<u16>,
}

impl<'a> Model for SpanChecks<'a> {
    ghost use Rattle.std.specs.Prelude.{◌≡◌, ℕ, List};
    ghost use Rattle.dwg_check.specs.Spans.{prefix_words};

    ghost Value = { List ℕ };

    ghost view = { λ checks. checks.bytes.now };

    ghost invariant = { λ checks. checks.words.items ≡ prefix_words checks.bytes.now };
}

impl<'a> SpanChecks<'a> {
    /// The check words of the spans of the bytes. Err: out of memory.
    pub fn build(alloc: Global, bytes: &'a [u8]) -> Result<SpanChecks<'a>, NoMemory>
        ensures { IfOk result (λ checks. checks ≡ bytes.now) }
    {
        let words = words_of(alloc, bytes)?;
        Ok(SpanChecks { bytes, words })
    }

    /// The check word, begun as `start`, of the bytes from the place `from` to before the place `to`. A step is one power of a zero byte
    /// that is applied to a word: there are at most 15, however long the span.
    #[tactic(auto, using(crate::proofs::PrefixWords::words_length))]
    pub fn of<L: Ledger>(&self, start: u16, from: usize, to: usize, steps: &mut Steps<L>) -> u16
        requires order { from ≤ to }
        requires within { to ≤ length self.now }
        ensures word { result ≡ check_word start (take (to - from) (drop from self.now)) }
        ensures steps { steps.new ≤ steps.old + 15 }
    {
        let first = self.words[from];
        let last = self.words[to];
        last ^ after_zeros(first ^ start, (to - from) as u64, steps)
    }
}
