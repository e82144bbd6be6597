//! Modular chars and modular shorts (Open Design Specification, "Bit codes"): groups of value bits in bytes, the low group
//! first, where the highest bit of a group says that another follows.

ghost use Rattle.std.specs.Prelude.{◌≡◌, ◌+◌, ◌-◌, ◌*◌, ◌^◌, ◌<◌, ◌≤◌, Some, None, drop, length, IfSome, IfNone, if◌then◌else◌};
ghost use Rattle.dwg_bits.specs.Bits.{bits};
ghost use Rattle.dwg_bits.specs.Sink.{Extends};
ghost use Rattle.dwg_grammar.specs.Grammar.{ReadsPrefix};
ghost use Rattle.dwg_grammar.specs.ModularCodes.{mc, mc_within, signed_mc, signed_mc_within, signed_number, sign_and_magnitude, unit, ms, ms_within};

use dwg_bits::BitSink;

/// Reads a number of at most `more` bytes.
#[tactic(auto, using(crate::proofs::GroupReading::mc_of_none, crate::proofs::GroupReading::mc_in_none, crate::proofs::GroupReading::mc_last, crate::proofs::GroupReading::mc_cut, crate::proofs::GroupReading::mc_more, crate::proofs::GroupReading::group_below))]
fn mc_within(bytes: &[u8], more: u32) -> Option<(u128, usize)>
    requires { more ≤ 10 }
    ensures found { IfSome result (λ found. (mc_within more).parse bytes.now ≡ Some (found.0, drop found.1 bytes.now)) }
    ensures none { IfNone result ((mc_within more).parse bytes.now ≡ None) }
    ensures used { IfSome result (λ found. found.1 ≤ length bytes.now) }
    ensures value { IfSome result (λ found. found.0 < 128 ^ more) }
{
    if more == 0 {
        return None;
    }
    let (first, rest) = bytes.split_first()?;
    let byte = u128::from(*first);
    if byte < 128 {
        return Some((byte, 1));
    }
    let (high, used) = mc_within(rest, more - 1)?;
    Some((byte - 128 + 128 * high, used + 1))
}

/// Reads an MC at the begin of the bytes: its value, and how many bytes spell it. None exactly where no prefix spells one.
#[tactic(auto, using(crate::proofs::PrefixReading::mc_read, crate::proofs::PrefixReading::mc_large, crate::proofs::PrefixReading::mc_missing))]
pub fn read_mc(bytes: &[u8]) -> Option<(u64, usize)>
    ensures reads { ReadsPrefix mc result bytes.now }
    ensures value { IfSome result (λ found. found.0 < 2 ^ 63) }
{
    let (value, used) = mc_within(bytes, 10)?;
    if value < 1 << 63 {
        return Some((value as u64, used));
    }
    None
}

/// How many bytes a number of at most `more` groups is written by.
#[tactic(auto, using(crate::proofs::GroupWriting::mc_length_last, crate::proofs::GroupWriting::mc_length_more, crate::proofs::GroupWriting::above_below, crate::proofs::GroupWriting::groups_left))]
fn mc_within_bytes(value: u64, more: u32) -> usize
    requires some { 0 < more }
    requires few { more ≤ 10 }
    requires value { value < 128 ^ more }
    ensures length { result ≡ length ((mc_within more).short value) }
    ensures few { result ≤ more }
{
    if value < 128 {
        return 1;
    }
    1 + mc_within_bytes(value / 128, more - 1)
}

/// How many bytes an MC is written by: the fewest that spell the value.
pub fn mc_bytes(value: u64) -> usize
    requires { value < 2 ^ 63 }
    ensures length { result ≡ length (mc.short value) }
    ensures few { result ≤ 10 }
{
    mc_within_bytes(value, 10)
}

/// Writes a number of at most `more` groups.
#[tactic(auto, using(crate::proofs::GroupWriting::mc_last_written, crate::proofs::GroupWriting::mc_more_written, crate::proofs::GroupWriting::mc_length_last, crate::proofs::GroupWriting::mc_length_more, crate::proofs::GroupWriting::above_below, crate::proofs::GroupWriting::groups_left, dwg_bits::proofs::BitLaws::length_of_low_bits))]
fn write_mc_within(value: u64, more: u32, sink: &mut BitSink)
    requires some { 0 < more }
    requires value { value < 128 ^ more }
    requires room { 8 * length ((mc_within more).short value) ≤ sink.old.spare }
    ensures { Extends sink.old sink.new (bits ((mc_within more).short value)) }
{
    if value < 128 {
        sink.push(value, 8);
        return;
    }
    sink.push(128 + value % 128, 8);
    write_mc_within(value / 128, more - 1, sink);
}

/// Writes an MC by the fewest bytes that spell the value.
pub fn write_mc(value: u64, sink: &mut BitSink)
    requires value { value < 2 ^ 63 }
    requires room { 8 * length (mc.short value) ≤ sink.old.spare }
    ensures { Extends sink.old sink.new (bits (mc.short value)) }
{
    write_mc_within(value, 10, sink);
}

/// Reads a sign and a magnitude of at most `more` bytes.
#[tactic(auto, using(crate::proofs::SignedReading::signed_of_none, crate::proofs::SignedReading::signed_in_none, crate::proofs::SignedReading::signed_last, crate::proofs::SignedReading::signed_cut, crate::proofs::SignedReading::signed_more))]
fn signed_mc_within(bytes: &[u8], more: u32) -> Option<(bool, u128, usize)>
    requires { more ≤ 10 }
    ensures found { IfSome result (λ found. (signed_mc_within more).parse bytes.now ≡ Some ((found.0, found.1), drop found.2 bytes.now)) }
    ensures none { IfNone result ((signed_mc_within more).parse bytes.now ≡ None) }
    ensures used { IfSome result (λ found. found.2 ≤ length bytes.now) }
    ensures value { IfSome result (λ found. found.1 < 128 ^ more) }
{
    if more == 0 {
        return None;
    }
    let (first, rest) = bytes.split_first()?;
    let byte = u128::from(*first);
    if byte < 128 {
        return Some((63 < byte, byte % 64, 1));
    }
    let (negative, high, used) = signed_mc_within(rest, more - 1)?;
    Some((negative, byte - 128 + 128 * high, used + 1))
}

/// The number of a sign and a magnitude; a negative zero is 0.
#[tactic(auto, using(crate::proofs::SignedReading::number_below, crate::proofs::SignedReading::number_above))]
fn signed_number(negative: bool, magnitude: u64) -> i64
    requires { magnitude < 2 ^ 63 }
    ensures { result ≡ signed_number (negative, magnitude) }
{
    let number = magnitude as i64;
    if negative { -number } else { number }
}

/// The sign and the magnitude by which a number is written.
fn sign_and_magnitude(value: i64) -> (bool, u64)
    ensures { result ≡ sign_and_magnitude value }
{
    (value < 0, value.unsigned_abs())
}

/// Reads a signed MC at the begin of the bytes: its value, and how many bytes spell it. None exactly where no prefix spells
/// one.
#[tactic(auto, using(crate::proofs::SignedReading::signed_read, crate::proofs::SignedReading::signed_large, crate::proofs::SignedReading::signed_missing))]
pub fn read_signed_mc(bytes: &[u8]) -> Option<(i64, usize)>
    ensures reads { ReadsPrefix signed_mc result bytes.now }
    ensures value { IfSome result (λ found. (sign_and_magnitude found.0).1 < 2 ^ 63) }
{
    let (negative, magnitude, used) = signed_mc_within(bytes, 10)?;
    if magnitude < 1 << 63 {
        let value = signed_number(negative, magnitude as u64);
        return Some((value, used));
    }
    None
}

/// The byte by which a sign and a last group are written.
fn last_byte(negative: bool, magnitude: u64) -> u64
    requires { magnitude < 64 }
    ensures byte { result ≡ (if negative then 64 + magnitude else magnitude) }
    ensures low { result < 128 }
{
    if negative { 64 + magnitude } else { magnitude }
}

/// How many bytes a sign and a magnitude of at most `more` groups are written by.
fn signed_within_bytes(negative: bool, magnitude: u64, more: u32) -> usize
    requires some { 0 < more }
    requires few { more ≤ 10 }
    requires value { magnitude < 64 * 128 ^ (more - 1) }
    ensures length { result ≡ length ((signed_mc_within more).short (negative, magnitude)) }
    ensures few { result ≤ more }
{
    if magnitude < 64 {
        return 1;
    }
    1 + signed_within_bytes(negative, magnitude / 128, more - 1)
}

/// How many bytes a signed MC is written by: the fewest that spell the value.
pub fn signed_mc_bytes(value: i64) -> usize
    requires { (sign_and_magnitude value).1 < 2 ^ 63 }
    ensures length { result ≡ length (signed_mc.short value) }
    ensures few { result ≤ 10 }
{
    let (negative, magnitude) = sign_and_magnitude(value);
    signed_within_bytes(negative, magnitude, 10)
}

/// Writes a sign and a magnitude of at most `more` groups.
fn write_signed_within(negative: bool, magnitude: u64, more: u32, sink: &mut BitSink)
    requires some { 0 < more }
    requires value { magnitude < 64 * 128 ^ (more - 1) }
    requires room { 8 * length ((signed_mc_within more).short (negative, magnitude)) ≤ sink.old.spare }
    ensures { Extends sink.old sink.new (bits ((signed_mc_within more).short (negative, magnitude))) }
{
    if magnitude < 64 {
        sink.push(last_byte(negative, magnitude), 8);
        return;
    }
    sink.push(128 + magnitude % 128, 8);
    write_signed_within(negative, magnitude / 128, more - 1, sink);
}

/// Writes a signed MC by the fewest bytes that spell the value; zero by one zero byte.
pub fn write_signed_mc(value: i64, sink: &mut BitSink)
    requires value { (sign_and_magnitude value).1 < 2 ^ 63 }
    requires room { 8 * length (signed_mc.short value) ≤ sink.old.spare }
    ensures { Extends sink.old sink.new (bits (signed_mc.short value)) }
{
    let (negative, magnitude) = sign_and_magnitude(value);
    write_signed_within(negative, magnitude, 10, sink);
}

/// Reads a unit of two bytes, the low one first: its number, and the bytes after it.
#[tactic(auto, using(crate::proofs::ShortReading::unit_found, crate::proofs::ShortReading::unit_of_one, crate::proofs::ShortReading::unit_of_none))]
fn split_unit(bytes: &[u8]) -> Option<(u64, &[u8])>
    ensures found { IfSome result (λ found. unit.parse bytes.now ≡ Some (found.0, found.1.now)) }
    ensures none { IfNone result (unit.parse bytes.now ≡ None) }
    ensures rest { IfSome result (λ found. found.1.now ≡ drop 2 bytes.now) }
    ensures within { IfSome result (λ found. 2 ≤ length bytes.now) }
    ensures value { IfSome result (λ found. found.0 < 65536) }
{
    let (low, after) = bytes.split_first()?;
    let (high, rest) = after.split_first()?;
    Some((u64::from(*low) + 256 * u64::from(*high), rest))
}

/// Reads a number of at most `more` units.
#[tactic(auto, using(crate::proofs::ShortReading::ms_of_none, crate::proofs::ShortReading::ms_in_none, crate::proofs::ShortReading::ms_last, crate::proofs::ShortReading::ms_cut, crate::proofs::ShortReading::ms_more))]
fn ms_within(bytes: &[u8], more: u32) -> Option<(u64, usize)>
    requires { more ≤ 4 }
    ensures found { IfSome result (λ found. (ms_within more).parse bytes.now ≡ Some (found.0, drop found.1 bytes.now)) }
    ensures none { IfNone result ((ms_within more).parse bytes.now ≡ None) }
    ensures used { IfSome result (λ found. found.1 ≤ length bytes.now) }
    ensures value { IfSome result (λ found. found.0 < 32768 ^ more) }
{
    if more == 0 {
        return None;
    }
    let (group, rest) = split_unit(bytes)?;
    if group < 32768 {
        return Some((group, 2));
    }
    let (high, used) = ms_within(rest, more - 1)?;
    Some((group - 32768 + 32768 * high, used + 2))
}

/// Reads an MS at the begin of the bytes: its value, and how many bytes spell it. None exactly where no prefix spells one.
#[tactic(auto, using(crate::proofs::ShortReading::ms_read, crate::proofs::ShortReading::ms_missing))]
pub fn read_ms(bytes: &[u8]) -> Option<(u64, usize)>
    ensures reads { ReadsPrefix ms result bytes.now }
    ensures value { IfSome result (λ found. found.0 < 2 ^ 60) }
{
    ms_within(bytes, 4)
}

/// How many bytes a number of at most `more` units is written by.
#[tactic(auto, using(crate::proofs::ShortReading::ms_length_last, crate::proofs::ShortReading::ms_length_more, crate::proofs::GroupWriting::above_below, crate::proofs::GroupWriting::groups_left))]
fn ms_within_bytes(value: u64, more: u32) -> usize
    requires some { 0 < more }
    requires few { more ≤ 4 }
    requires value { value < 32768 ^ more }
    ensures length { result ≡ length ((ms_within more).short value) }
    ensures few { result ≤ 2 * more }
{
    if value < 32768 {
        return 2;
    }
    2 + ms_within_bytes(value / 32768, more - 1)
}

/// How many bytes an MS is written by: the fewest that spell the value.
pub fn ms_bytes(value: u64) -> usize
    requires { value < 2 ^ 60 }
    ensures length { result ≡ length (ms.short value) }
    ensures few { result ≤ 8 }
{
    ms_within_bytes(value, 4)
}

/// Writes a unit of two bytes, the low one first.
#[tactic(auto, using(crate::proofs::ShortReading::unit_written, dwg_bits::proofs::BitLaws::length_of_low_bits))]
fn push_unit(group: u64, sink: &mut BitSink)
    requires value { group < 65536 }
    requires room { 16 ≤ sink.old.spare }
    ensures { Extends sink.old sink.new (bits (unit.short group)) }
{
    sink.push(group % 256, 8);
    sink.push(group / 256, 8);
}

/// Writes a number of at most `more` units.
fn write_ms_within(value: u64, more: u32, sink: &mut BitSink)
    requires some { 0 < more }
    requires value { value < 32768 ^ more }
    requires room { 8 * length ((ms_within more).short value) ≤ sink.old.spare }
    ensures { Extends sink.old sink.new (bits ((ms_within more).short value)) }
{
    if value < 32768 {
        push_unit(value, sink);
        return;
    }
    push_unit(32768 + value % 32768, sink);
    write_ms_within(value / 32768, more - 1, sink);
}

/// Writes an MS by the fewest bytes that spell the value.
pub fn write_ms(value: u64, sink: &mut BitSink)
    requires value { value < 2 ^ 60 }
    requires room { 8 * length (ms.short value) ≤ sink.old.spare }
    ensures { Extends sink.old sink.new (bits (ms.short value)) }
{
    write_ms_within(value, 4, sink);
}
