//! Numbers of up to 64 bits from any bit of a slice of bytes, by words and by bytes.

ghost use Rattle.std.specs.Prelude.{◌≡◌, ◌+◌, ◌*◌, ◌/◌, ◌%◌, ◌^◌, ◌<◌, ◌≤◌, length};
ghost use Rattle.dwg_bits.specs.Bits.{num};
ghost use Rattle.dwg_bits.specs.Cursor.{bits_between};

/// The number that the eight bytes from a place on spell, the first of them highest.
#[tactic(auto, using(crate::proofs::WordParts::eight_spell))]
fn word_at(bytes: &[u8], at: usize) -> u64
    requires { at + 8 ≤ length bytes.now }
    ensures { result ≡ num (bits_between bytes.now (8 * at) (8 * at + 64)) }
{
    u64::from_be_bytes([
        bytes[at],
        bytes[at + 1],
        bytes[at + 2],
        bytes[at + 3],
        bytes[at + 4],
        bytes[at + 5],
        bytes[at + 6],
        bytes[at + 7],
    ])
}

/// The number that bits spell which lie in the eight bytes from a place on.
#[tactic(auto, using(crate::proofs::WordParts::part_of_word))]
fn in_word(bytes: &[u8], at: usize, place: u64, count: u32) -> u64
    requires some { 1 ≤ count }
    requires after { 8 * at ≤ place }
    requires inside { place + count ≤ 8 * at + 64 }
    requires there { at + 8 ≤ length bytes.now }
    ensures { result ≡ num (bits_between bytes.now place (place + count)) }
{
    let skip = place - 8 * at as u64;
    (word_at(bytes, at) << skip) >> (64 - count)
}

/// The number that bits spell which lie in one byte.
#[tactic(auto, using(crate::proofs::WordParts::part_of_byte, crate::proofs::WordParts::part_of_byte_fits))]
fn in_byte(bytes: &[u8], place: u64, count: u32) -> u64
    requires some { 1 ≤ count }
    requires inside { place % 8 + count ≤ 8 }
    requires there { place / 8 < length bytes.now }
    ensures below { result < 2 ^ count }
    ensures value { result ≡ num (bits_between bytes.now place (place + count)) }
{
    let byte = bytes[(place / 8) as usize];
    u64::from((byte << (place % 8)) >> (8 - count))
}

/// A number with another after it, whose bits are so many.
#[tactic(auto, using(crate::proofs::WordParts::joined_number))]
fn joined(prefix: u64, after: u64, count: u32) -> u64
    requires few { count < 64 }
    requires fits { prefix * 2 ^ count < 2 ^ 64 }
    requires below { after < 2 ^ count }
    ensures { result ≡ prefix * 2 ^ count + after }
{
    (prefix << count) | after
}

/// The number that bits spell, byte by byte, as where there are fewer than eight bytes.
#[tactic(auto, using(crate::proofs::WordParts::no_bits, crate::proofs::WordParts::more_bits, crate::proofs::WordParts::moved_fits))]
fn by_bytes(bytes: &[u8], from: u64, to: u64) -> u64
    requires ordered { from ≤ to }
    requires few { to ≤ from + 64 }
    requires within { to ≤ 8 * length bytes.now }
    ensures { result ≡ num (bits_between bytes.now from to) }
{
    let mut value = 0;
    let mut place = from;
    'bytes: while place < to {
        let count = (8 - place % 8).min(to - place) as u32;
        value = joined(value, in_byte(bytes, place, count), count);
        place += u64::from(count);
    }
    value
}

/// The number that up to 64 bits from a place on spell: of one word where they lie in eight bytes, else of a word and the
/// byte after it. In the last bytes the word is the last one there is. Where no bits are asked, no word is read: it would
/// be shifted by all of its 64 bits.
#[tactic(auto, using(crate::proofs::WordParts::word_and_byte, crate::proofs::WordParts::moved_fits))]
pub(crate) fn number_at(bytes: &[u8], place: u64, count: u32) -> u64
    requires few { count ≤ 64 }
    requires reach { place + count < 2 ^ 64 }
    requires within { place + count ≤ 8 * length bytes.now }
    ensures { result ≡ num (bits_between bytes.now place (place + count)) }
{
    if count == 0 || bytes.len() < 8 {
        return by_bytes(bytes, place, place + u64::from(count));
    }
    let at = ((place / 8) as usize).min(bytes.len() - 8);
    let skip = (place - 8 * at as u64) as u32;
    if skip + count <= 64 {
        return in_word(bytes, at, place, count);
    }
    let more = skip + count - 64;
    let rest = place + u64::from(64 - skip);
    joined(
        in_word(bytes, at, place, 64 - skip),
        in_byte(bytes, rest, more),
        more,
    )
}

/// Seven bytes' bits: at whatever bit they begin, they lie in eight bytes.
const BITS_OF_ANY_WORD: u32 = 56;

/// How many of the bits that are left are read as one number: seven bytes' bits, or all of them where there are fewer.
pub(crate) fn next_count(left: u64) -> u32
    requires { 1 ≤ left }
    ensures some { 1 ≤ result }
    ensures most { result ≤ 56 }
    ensures within { result ≤ left }
{
    if left < u64::from(BITS_OF_ANY_WORD) {
        return left as u32;
    }
    BITS_OF_ANY_WORD
}
