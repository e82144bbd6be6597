//! What zero bytes make of a check word: powers of one zero byte, each a table of what becomes of the word's bits.

ghost use Rattle.std.specs.Prelude.{◌≡◌, ◌<◌, ◌≤◌, ◌+◌, ◌*◌, ◌^◌, ◌%◌, [], replicate, slice_index_or, ◌==◌, if◌then◌else◌};
ghost use Rattle.dwg_check.specs.CheckWord.{check_word};

use dwg_steps::Steps;
use std::marker::Brand;
use std::sync::ledger::{Blank, Ledger};

/// So many zero bytes leave every word as it was.
const PERIOD: u64 = 32_767;

/// At each power of two, what so many zero bytes make of each bit of a word, the lowest bit first.
const POWERS: [[u16; 16]; 15] = [
    [
        0xC0C1, 0xC181, 0xC301, 0xC601, 0xCC01, 0xD801, 0xF001, 0xA001, 0x0001, 0x0002, 0x0004,
        0x0008, 0x0010, 0x0020, 0x0040, 0x0080,
    ],
    [
        0x9001, 0x6001, 0xC002, 0xC007, 0xC00D, 0xC019, 0xC031, 0xC061, 0xC0C1, 0xC181, 0xC301,
        0xC601, 0xCC01, 0xD801, 0xF001, 0xA001,
    ],
    [
        0xFC01, 0xB801, 0x3001, 0x6002, 0xC004, 0xC00B, 0xC015, 0xC029, 0xC051, 0xC0A1, 0xC141,
        0xC281, 0xC501, 0xCA01, 0xD401, 0xE801,
    ],
    [
        0xCCC1, 0xD981, 0xF301, 0xA601, 0x0C01, 0x1802, 0x3004, 0x6008, 0xC010, 0xC023, 0xC045,
        0xC089, 0xC111, 0xC221, 0xC441, 0xC881,
    ],
    [
        0x90C1, 0x6181, 0xC302, 0xC607, 0xCC0D, 0xD819, 0xF031, 0xA061, 0x00C1, 0x0182, 0x0304,
        0x0608, 0x0C10, 0x1820, 0x3040, 0x6080,
    ],
    [
        0xAC01, 0x1801, 0x3002, 0x6004, 0xC008, 0xC013, 0xC025, 0xC049, 0xC091, 0xC121, 0xC241,
        0xC481, 0xC901, 0xD201, 0xE401, 0x8801,
    ],
    [
        0xF0C1, 0xA181, 0x0301, 0x0602, 0x0C04, 0x1808, 0x3010, 0x6020, 0xC040, 0xC083, 0xC105,
        0xC209, 0xC411, 0xC821, 0xD041, 0xE081,
    ],
    [
        0x9C01, 0x7801, 0xF002, 0xA007, 0x000D, 0x001A, 0x0034, 0x0068, 0x00D0, 0x01A0, 0x0340,
        0x0680, 0x0D00, 0x1A00, 0x3400, 0x6800,
    ],
    [
        0xFCC1, 0xB981, 0x3301, 0x6602, 0xCC04, 0xD80B, 0xF015, 0xA029, 0x0051, 0x00A2, 0x0144,
        0x0288, 0x0510, 0x0A20, 0x1440, 0x2880,
    ],
    [
        0x9CC1, 0x7981, 0xF302, 0xA607, 0x0C0D, 0x181A, 0x3034, 0x6068, 0xC0D0, 0xC1A3, 0xC345,
        0xC689, 0xCD11, 0xDA21, 0xF441, 0xA881,
    ],
    [
        0xACC1, 0x1981, 0x3302, 0x6604, 0xCC08, 0xD813, 0xF025, 0xA049, 0x0091, 0x0122, 0x0244,
        0x0488, 0x0910, 0x1220, 0x2440, 0x4880,
    ],
    [
        0xA0C1, 0x0181, 0x0302, 0x0604, 0x0C08, 0x1810, 0x3020, 0x6040, 0xC080, 0xC103, 0xC205,
        0xC409, 0xC811, 0xD021, 0xE041, 0x8081,
    ],
    [
        0xA001, 0x0001, 0x0002, 0x0004, 0x0008, 0x0010, 0x0020, 0x0040, 0x0080, 0x0100, 0x0200,
        0x0400, 0x0800, 0x1000, 0x2000, 0x4000,
    ],
    [
        0xF001, 0xA001, 0x0001, 0x0002, 0x0004, 0x0008, 0x0010, 0x0020, 0x0040, 0x0080, 0x0100,
        0x0200, 0x0400, 0x0800, 0x1000, 0x2000,
    ],
    [
        0xCC01, 0xD801, 0xF001, 0xA001, 0x0001, 0x0002, 0x0004, 0x0008, 0x0010, 0x0020, 0x0040,
        0x0080, 0x0100, 0x0200, 0x0400, 0x0800,
    ],
];

/// What `2 ^ power` zero bytes make of a bit.
fn entry(power: usize, bit: usize) -> u16
    requires power { power < 15 }
    requires bit { bit < 16 }
    ensures { result ≡ slice_index_or (slice_index_or POWERS power []) bit 0 }
{
    POWERS[power][bit]
}

/// What the bit of a word gives, at one of the powers: nothing where it is 0.
fn part(power: usize, bit: usize, rest: u16) -> u16
    requires power { power < 15 }
    requires bit { bit < 16 }
    ensures { result ≡ (if rest % 2 == 1 then slice_index_or (slice_index_or POWERS power []) bit 0 else 0) }
{
    if rest % 2 == 1 { entry(power, bit) } else { 0 }
}

/// The word after `2 ^ power` zero bytes.
fn after_power(power: usize, word: u16) -> u16
    requires { power < 15 }
    ensures { result ≡ check_word word (replicate (2 ^ power) 0) }
{
    let mut after = 0;
    let mut rest = word;
    'bits: for bit in 0..16usize {
        after ^= part(power, bit, rest);
        rest /= 2;
    }
    after
}

/// The word after `2 ^ power` zero bytes where the lowest bit of `left` is set, and as it was where not. A step is one power.
#[tactic(auto, using(crate::proofs::Periods::bit_clear))]
fn after_bit<L: Ledger>(power: usize, word: u16, left: u64, steps: &mut Steps<L>) -> u16
    requires { power < 15 }
    ensures word { result ≡ check_word word (replicate (left % 2 * 2 ^ power) 0) }
    ensures steps { steps.new ≤ steps.old + 1 }
{
    if left % 2 == 0 {
        return word;
    }
    steps.tick();
    after_power(power, word)
}

/// The word after so many zero bytes. A step is one power of a zero byte: there are at most 15.
pub(crate) fn after_zeros<L: Ledger>(word: u16, zeros: u64, steps: &mut Steps<L>) -> u16
    ensures word { result ≡ check_word word (replicate zeros 0) }
    ensures steps { steps.new ≤ steps.old + 15 }
{
    let mut after = word;
    let mut left = zeros % PERIOD;
    let mut power = 0;
    'powers: while 0 < left {
        after = after_bit(power, after, left, steps);
        left /= 2;
        power += 1;
    }
    after
}

/// The word after so many zero bytes, with a counter of the ledger that the blank opens.
fn shift_counted<L: Ledger>(word: u16, zeros: u64, blank: Blank) -> u16
    requires name { blank.name ≡ L.name }
    requires parts { blank.parts ≡ L.parts }
    requires some { 0 < blank.parts }
    ensures { result ≡ check_word word (replicate zeros 0) }
{
    let mut steps = Steps::<L>::new(blank);
    after_zeros(word, zeros, &mut steps)
}

/// The word after so many zero bytes: what its check word becomes (Open Design Specification, "CRC"). Since 32,767 of them leave
/// every word as it was, any count of them is taken in at most 15 shifts by powers of two.
pub fn shift(word: u16, zeros: u64) -> u16
    ensures { result ≡ check_word word (replicate zeros 0) }
{
    shift_counted::<Brand>(word, zeros, Blank::new(1))
}
