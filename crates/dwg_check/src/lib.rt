//! Check words: what a section, a map page or an object frame carries of its own bytes; of any span of the input; and that each
//! short damage is seen.
#![tactic(auto)]

ghost use Rattle.std.specs.Prelude.{◌≡◌, ◌≤◌};
ghost use Rattle.dwg_check.specs.CheckWord.{check_word, header_check_word};

mod damage;
mod laws;
mod spans;
mod table;
mod zeros;

pub use damage::short_damage_laws;
pub use laws::check_word_laws;
pub use spans::SpanChecks;
use table::{after_eight, after_rest};
pub use zeros::shift;

/// What the check words of framed sections, map pages and object frames begin as (Open Design Specification, "CRC").
pub const CHECK_SEED: u16 = 0xC0C1;

/// The check word of `bytes`, begun as `start` (Open Design Specification, "CRC").
///
/// Of no bytes it is `start`; of a run in pieces, each piece is begun as the check word of those before it.
pub fn check(start: u16, bytes: &[u8]) -> u16
    ensures { result ≡ check_word start bytes.now }
{
    let mut word = start;
    let mut at = 0;
    'words: while 8 <= bytes.len() - at {
        word = after_eight(word, bytes, at);
        at += 8;
    }
    after_rest(word, bytes, at)
}

/// The check word that a file header of `count` locators carries: that of all bytes before it from 0, xored with the count's constant (Open Design Specification, "R13 to R2000 file layout, file header").
#[tactic(auto, unfolding(crate::specs::CheckWord::header_check_word))]
pub fn header_word(count: u32, bytes: &[u8]) -> u16
    requires least { 3 ≤ count }
    requires most { count ≤ 6 }
    ensures { result ≡ header_check_word count bytes.now }
{
    let mask = match count {
        3 => 0xA598,
        4 => 0x8101,
        5 => 0x3CC4,
        _ => 0x8461,
    };
    check(0, bytes) ^ mask
}
