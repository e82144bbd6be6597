//! Values that are written on one line.

ghost use Rattle.std.specs.Prelude.{◌≡◌, ◌++◌, OnOk, List, ℕ, decimal, string_bytes};
ghost use Rattle.dwg_base.specs.Versions.{version_bytes};
ghost use Rattle.dwg_text.specs.Lines as lines;
ghost use Rattle.dwg_text.specs.Values as values;

use crate::quoted::push_quoted;
use crate::sections::version_word;
use dwg_base::{ByteRun, Version};
use dwg_codes::{Point2, Point3};
use dwg_handles::Ref;
use std::alloc::AllocError;

/// A truth value as it is printed.
pub fn truth(value: bool) -> &'static str
    ensures { result.now ≡ lines.truth value }
{
    if value { "1" } else { "0" }
}

/// A value that is printed on one line.
pub trait Value {
    /// What is printed of it.
    ghost printed: { Self → List ℕ };

    /// Appends what is printed of it. Err: out of memory.
    fn push(&self, text: &mut String) -> Result<(), AllocError>
        ensures { OnOk result (string_bytes text.new ≡ string_bytes text.old ++ printed self.now) };
}

impl Value for u8 {
    ghost printed = { decimal };

    fn push(&self, text: &mut String) -> Result<(), AllocError> {
        let number = *self;
        write!(text, "{number}")
    }
}

impl Value for u16 {
    ghost printed = { decimal };

    fn push(&self, text: &mut String) -> Result<(), AllocError> {
        let number = *self;
        write!(text, "{number}")
    }
}

impl Value for u32 {
    ghost printed = { decimal };

    fn push(&self, text: &mut String) -> Result<(), AllocError> {
        let number = *self;
        write!(text, "{number}")
    }
}

/// A number in decimal digits.
#[derive(Clone, Copy)]
pub struct Count(pub u64);

impl Value for Count {
    ghost printed = { λ count. decimal count.0 };

    fn push(&self, text: &mut String) -> Result<(), AllocError> {
        let number = self.0;
        write!(text, "{number}")
    }
}

/// A number in upper-case hexadecimal digits without leading zeros, 0 for zero, as a handle is.
#[derive(Clone, Copy)]
pub struct Hexadecimal(pub u64);

impl Value for Hexadecimal {
    ghost printed = { λ number. values.upper_digits number.0 };

    fn push(&self, text: &mut String) -> Result<(), AllocError> {
        let number = self.0;
        write!(text, "{number:X}")
    }
}

/// A word of 64 bits.
impl Value for u64 {
    ghost printed = { values.word_text };

    #[tactic(auto, using(crate::proofs::Words::word_padded))]
    fn push(&self, text: &mut String) -> Result<(), AllocError> {
        let word = *self;
        write!(text, "{word:016X}")
    }
}

impl Value for bool {
    ghost printed = { lines.truth };

    fn push(&self, text: &mut String) -> Result<(), AllocError> {
        text.push_str(truth(*self))
    }
}

/// A version, by its word.
impl Value for Version {
    ghost printed = { version_bytes };

    fn push(&self, text: &mut String) -> Result<(), AllocError> {
        text.push_str(version_word(*self))
    }
}

impl Value for Point2 {
    ghost printed = { values.point2_text };

    #[tactic(auto, unfolding(crate::specs::Values::point2_text))]
    fn push(&self, text: &mut String) -> Result<(), AllocError> {
        self.x.push(text)?;
        text.push_str(" ")?;
        self.y.push(text)
    }
}

impl Value for Point3 {
    ghost printed = { values.point3_text };

    #[tactic(auto, unfolding(crate::specs::Values::point3_text))]
    fn push(&self, text: &mut String) -> Result<(), AllocError> {
        self.x.push(text)?;
        text.push_str(" ")?;
        self.y.push(text)?;
        text.push_str(" ")?;
        self.z.push(text)
    }
}

impl Value for Ref {
    ghost printed = { values.reference_text };

    #[tactic(auto, unfolding(crate::specs::Values::reference_text))]
    fn push(&self, text: &mut String) -> Result<(), AllocError> {
        let code = self.code;
        let target = self.target.value();
        write!(text, "{code:X}.{target:X}")
    }
}

/// A text, between quotation marks.
impl Value for ByteRun {
    ghost printed = { lines.quoted };

    fn push(&self, text: &mut String) -> Result<(), AllocError> {
        push_quoted(text, self.as_slice())
    }
}
