//! Items as values.

use dwg_base::ByteRun;
use dwg_codes::Point3;

/// What an application says of an object in one item. Each begins with the byte of its code.
#[derive(Drop)]
pub enum AppItem {
    /// A text: code 0, a byte that counts its bytes, its mark, its bytes.
    Text {
        /// Two bytes that say how its bytes are meant, kept without meaning.
        mark: [u8; 2],
        /// Its bytes, at most 255 where it is written.
        text: ByteRun,
    },
    /// A brace around items: code 2, and 1 where it closes, else 0.
    Brace {
        /// Whether it closes.
        close: bool,
    },
    /// A layer by its handle: code 3, eight bytes, the most significant first.
    Layer {
        /// The handle, whatever it names.
        handle: u64,
    },
    /// Bytes: code 4, a byte that counts them, the bytes.
    Bytes {
        /// At most 255 where they are written.
        bytes: ByteRun,
    },
    /// An object by its handle: code 5, eight bytes, the most significant first.
    Object {
        /// The handle, whatever it names; 0 names none.
        handle: u64,
    },
    /// A point, a displacement or a direction: a code of 10 to 13, and three RDs.
    Point {
        /// The code byte.
        code: u8,
        /// The words of x, y and z, 64-bit floating-point numbers by their bits.
        words: Point3,
    },
    /// A real number, a distance or a factor: a code of 40 to 42, and an RD.
    Word {
        /// The code byte.
        code: u8,
        /// A 64-bit floating-point number by its bits.
        value: u64,
    },
    /// A number of 16 bits: code 70, an RS.
    Short {
        /// The number.
        value: u16,
    },
    /// A number of 32 bits: code 71, an RL.
    Long {
        /// The number.
        value: u32,
    },
}
