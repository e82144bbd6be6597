//! Texts of a drawing between quotation marks.

ghost use Rattle.std.specs.Prelude.{◌≡◌, ◌++◌, OnOk, string_bytes};
ghost use Rattle.dwg_text.specs.Lines.{byte_digits, is_plain, quoted_byte, quoted};

use std::alloc::AllocError;

/// Whether a byte stands between quotation marks as it is.
fn is_plain(byte: u8) -> bool
    ensures { result ≡ is_plain byte }
{
    matches!(byte, 0x20..=0x7E) && byte != b'"' && byte != b'\\'
}

/// The two lower-case hexadecimal digits of a byte.
#[tactic(auto, using(crate::proofs::Digits::two_digits))]
fn digits(byte: u8) -> [u8; 2]
    ensures { result ≡ byte_digits byte }
{
    let mut digits = [0; 2];
    match hex::encode_to_slice([byte], &mut digits) {
        Ok(()) => digits,
        Err(_) => unreachable!(),
    }
}

/// Appends a byte as it stands between quotation marks.
#[tactic(auto, unfolding(crate::specs::Lines::quoted_byte))]
fn push_quoted_byte(text: &mut String, byte: u8) -> Result<(), AllocError>
    ensures { OnOk result (string_bytes text.new ≡ string_bytes text.old ++ quoted_byte byte) }
{
    if is_plain(byte) {
        return text.push(char::from(byte));
    }
    let [high, low] = digits(byte);
    text.push('\\')?;
    text.push(char::from(high))?;
    text.push(char::from(low))
}

/// Appends bytes between quotation marks: visible characters and spaces as they are, but for quotation marks and
/// backslashes, and each other byte as a backslash and two lower-case hexadecimal digits. Err: out of memory.
#[tactic(auto, unfolding(crate::specs::Lines::quoted))]
pub fn push_quoted(text: &mut String, bytes: &[u8]) -> Result<(), AllocError>
    ensures { OnOk result (string_bytes text.new ≡ string_bytes text.old ++ quoted bytes.now) }
{
    text.push_str("\"")?;
    'bytes: for byte in bytes {
        push_quoted_byte(text, *byte)?;
    }
    text.push_str("\"")
}
