//! What is reported of a case.

use dwg_base::{Fault, Refusal};
use std::alloc::Global;

/// Words, a blank before each.
#[derive(Drop)]
pub struct Report {
    /// The words.
    text: String,
    /// Whether all of them are there; false means out of memory.
    whole: bool,
}

/// The first digits of a number of sixteen hexadecimal digits that ends in eight zeros or more, without these.
fn before_zeros(number: u64) -> Option<u64> {
    let zeros = number.trailing_zeros() / 4;
    if number < 1 << 60 || zeros < 8 {
        return None;
    }
    number.checked_shr(zeros.wrapping_mul(4))
}

impl Report {
    /// No words.
    pub fn new(alloc: Global) -> Report {
        Report {
            text: String::new(alloc),
            whole: true,
        }
    }

    /// The words; `-` where there are none.
    pub fn text(&self) -> &str {
        if !self.whole {
            return "no memory";
        }
        self.text.strip_prefix(" ").unwrap_or("-")
    }

    /// Adds letters to the last word.
    fn push(&mut self, letters: &str) {
        if self.text.push_str(letters).is_err() {
            self.whole = false;
        }
    }

    /// Adds a word.
    pub fn word(&mut self, word: &str) {
        self.push(" ");
        self.push(word);
    }

    /// Adds a number by decimal digits.
    pub fn number(&mut self, number: u64) {
        if write!(self.text, " {number}").is_err() {
            self.whole = false;
        }
    }

    /// Adds a number by hexadecimal digits after an `x`, without it where the number is less than ten; a `^` stands for the zeros
    /// that end a word of a floating-point number.
    pub fn hex(&mut self, number: u64) {
        if number < 10 {
            return self.number(number);
        }
        let zeros = before_zeros(number);
        let digits = zeros.unwrap_or(number);
        if write!(self.text, " x{digits:X}").is_err() {
            self.whole = false;
        }
        if zeros.is_some() {
            self.push("^");
        }
    }

    /// Adds numbers by hexadecimal digits.
    pub fn hexes(&mut self, numbers: &[u64]) {
        for number in numbers {
            self.hex(*number);
        }
    }

    /// Adds two hexadecimal digits to the last word.
    fn byte(&mut self, byte: u8) {
        if write!(self.text, "{byte:02X}").is_err() {
            self.whole = false;
        }
    }

    /// Adds bytes by hexadecimal digits after a colon.
    pub fn bytes(&mut self, bytes: &[u8]) {
        self.word(":");
        for byte in bytes {
            self.byte(*byte);
        }
    }

    /// Adds a text between apostrophes; one that isn't UTF-8 as its bytes.
    pub fn quoted(&mut self, text: &[u8]) {
        let Ok(text) = std::str::from_utf8(text) else {
            return self.bytes(text);
        };
        if write!(self.text, " '{text}'").is_err() {
            self.whole = false;
        }
    }

    /// Adds a reference by its code and its target.
    pub fn reference(&mut self, code: u8, target: u64) {
        if write!(self.text, " {code:X}.{target:X}").is_err() {
            self.whole = false;
        }
    }

    /// Adds whether something is so.
    pub fn truth(&mut self, truth: bool) {
        self.word(if truth { "yes" } else { "no" });
    }

    /// Adds a refusal by its line, its index and its place.
    pub fn refusal(&mut self, refusal: Refusal) {
        self.word("refused");
        self.number(u64::from(refusal.line));
        self.number(refusal.index);
        self.number(refusal.place);
    }

    /// Adds why something isn't read.
    pub fn fault(&mut self, fault: Fault) {
        match fault {
            Fault::Refused(refusal) => self.refusal(refusal),
            Fault::NoMemory => self.word("no memory"),
        }
    }
}
