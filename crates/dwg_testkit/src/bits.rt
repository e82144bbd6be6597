//! Runs of bits, and bytes, by their texts.

use std::alloc::Global;

/// The weight of a hexadecimal digit.
fn digit_of(letter: u8) -> Option<u8> {
    match letter {
        b'0'..=b'9' => Some(letter - b'0'),
        b'A'..=b'F' => Some(letter - b'A' + 10),
        b'a'..=b'f' => Some(letter - b'a' + 10),
        _ => None,
    }
}

/// The number that up to sixteen hexadecimal digits spell.
pub(crate) fn number_of(word: &str) -> Option<u64> {
    if word.is_empty() || word.len() > 16 {
        return None;
    }
    let mut number = 0u64;
    for letter in word.as_bytes() {
        number = number.wrapping_mul(16) | u64::from(digit_of(*letter)?);
    }
    Some(number)
}

/// The bytes of a text of bits, the last filled up with zeros. None for any other text, and out of memory.
pub fn bytes_of(alloc: Global, text: &str) -> Option<Vec<u8>> {
    Bits::of(alloc, text)?.to_bytes(alloc)
}

/// The common main bits of an entity without application data, graphic, reactors and links: mode 2, colour 256, linetype scale 1.0,
/// both flags 0, invisible 0, line weight 29.
const ENTITY: &str = "'10 '0 '10 '10 '1 '11 '01 '00 '00 '10 1D";

/// The same after the bit size of AC1014, with the linetype by layer.
const OLDER: &str = "'10 '10 '1 '1 '11 '01 '10";

/// A run of bits, the most significant bit of a byte first.
#[derive(Drop)]
pub struct Bits {
    /// The bits in their order.
    all: Vec<bool>,
}

impl Bits {
    /// No bits.
    pub fn new(alloc: Global) -> Bits {
        Bits {
            all: Vec::new(alloc),
        }
    }

    /// How many there are.
    pub fn length(&self) -> usize {
        self.all.len()
    }

    /// Adds the low bits of a number, at most 64 of them, the highest first. None: out of memory, and for more bits.
    pub fn push(&mut self, number: u64, count: u32) -> Option<()> {
        if count > 64 {
            return None;
        }
        for after in (0..count).rev() {
            self.all.push((number >> after) & 1 == 1).ok()?;
        }
        Some(())
    }

    /// Adds bytes.
    pub fn push_bytes(&mut self, bytes: &[u8]) -> Option<()> {
        for byte in bytes {
            self.push(u64::from(*byte), 8)?;
        }
        Some(())
    }

    /// Adds other bits.
    pub fn push_all(&mut self, others: &Bits) -> Option<()> {
        for bit in &others.all {
            self.all.push(*bit).ok()?;
        }
        Some(())
    }

    /// Adds a handle after a code of references: both in four bits, its bytes without leading zeros, and how many they are.
    pub fn push_handle(&mut self, code: u64, handle: u64) -> Option<()> {
        let count = 8 - handle.leading_zeros() / 8;
        self.push(code, 4)?;
        self.push(u64::from(count), 4)?;
        self.push(handle, 8 * count)
    }

    /// Adds hexadecimal digits, of four bits each.
    fn push_digits(&mut self, digits: &str) -> Option<()> {
        for letter in digits.as_bytes() {
            self.push(u64::from(digit_of(*letter)?), 4)?;
        }
        Some(())
    }

    /// Adds eight bytes that begin and end with these digits, and else are zeros.
    fn push_eight(&mut self, first: &str, last: &str) -> Option<()> {
        self.push_digits(first)?;
        for _ in first.len().saturating_add(last.len())..16usize {
            self.push(0, 4)?;
        }
        self.push_digits(last)
    }

    /// Adds digits so many times.
    fn push_often(&mut self, digits: &str, times: &str) -> Option<()> {
        for _ in 0..times.parse::<u16>().ok()? {
            self.push_digits(digits)?;
        }
        Some(())
    }

    /// Adds all bytes from one up to another.
    fn push_range(&mut self, first: &str, last: &str) -> Option<()> {
        for byte in number_of(first)?..=number_of(last)? {
            self.push(byte, 8)?;
        }
        Some(())
    }

    /// Adds one word.
    fn push_word(&mut self, word: &str) -> Option<()> {
        if let Some(bits) = word.strip_prefix("'") {
            for bit in bits.as_bytes() {
                self.push(u64::from(digit_of(*bit)?), 1)?;
            }
            return Some(());
        }
        if let Some((first, last)) = word.split_once("..") {
            return self.push_range(first, last);
        }
        if let Some((code, handle)) = word.split_once(".") {
            return self.push_handle(number_of(code)?, number_of(handle)?);
        }
        if let Some((first, last)) = word.split_once("^") {
            return self.push_eight(first, last);
        }
        match word.split_once("*") {
            Some((digits, times)) => self.push_often(digits, times),
            None => self.push_digits(word),
        }
    }

    /// Adds the words of a text, which are told in `lib.rt`, but for those that are names.
    fn push_words(&mut self, text: &str) -> Option<()> {
        for word in text.split_whitespace() {
            if word != "-" {
                self.push_word(word)?;
            }
        }
        Some(())
    }

    /// Adds the words of a text, among them `ENTITY` and `OLDER` for the common main bits of an entity.
    pub fn push_text(&mut self, text: &str) -> Option<()> {
        for word in text.split_whitespace() {
            match word {
                "ENTITY" => self.push_words(ENTITY)?,
                "OLDER" => self.push_words(OLDER)?,
                _ => self.push_words(word)?,
            }
        }
        Some(())
    }

    /// The bits of a text.
    pub fn of(alloc: Global, text: &str) -> Option<Bits> {
        let mut bits = Bits::new(alloc);
        bits.push_text(text)?;
        Some(bits)
    }

    /// The bits as bytes, the last filled up with zeros.
    pub fn to_bytes(&self, alloc: Global) -> Option<Vec<u8>> {
        let mut bytes = Vec::new(alloc);
        for piece in self.all.chunks(8) {
            bytes.push(byte_of(piece)).ok()?;
        }
        Some(bytes)
    }
}

/// The byte that begins with these bits, and else has zeros.
fn byte_of(bits: &[bool]) -> u8 {
    let mut byte = 0u8;
    for at in 0..8usize {
        let bit = bits.get(at).copied().unwrap_or(false);
        byte = byte.wrapping_mul(2) | u8::from(bit);
    }
    byte
}
