//! Bits: a cursor that reads them, a sink that writes them, and lists of them, owned or lent.
#![tactic(auto)]

mod cursor;
mod fill;
mod laws;
mod part;
mod sink;
mod words;

pub use cursor::BitCursor;
pub use laws::bit_laws;
pub use part::{BitPart, BitRun, BitSpan};
pub use sink::BitSink;
