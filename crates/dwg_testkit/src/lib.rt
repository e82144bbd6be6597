//! Samples for tests, and tables of cases. No contract: what is made here is input alone, and tests say what the program makes of it.
//!
//! **A case is a line** `NAME NUMBERS | FIELD | .. | what is reported`: fields with ` | ` between them, of which the first begins with
//! the name of what is tried, where a table tries several things, and the last is what has to be reported (`Case`). Lines that begin with
//! `#` say what those below them show. A test fails by the first line of which something else is reported, and says what; a line with a
//! field too many fails too, and so does a table without a line.
//!
//! What is given: numbers are decimal digits, or hexadecimal ones after an `x`; those that are missing at the end are 0. Bits and bytes are
//! words: `'0110` are bits, `5.10` is a reference of code 5 to handle 10, `01^40` are eight bytes, 01 and 40 with zeros between them (so
//! `^F03F` is the word of 1.0), `00*256` are so many bytes 00, `00..FF` are all bytes in their order, `ENTITY` and `OLDER` are the common
//! main bits of an entity, other words are hexadecimal digits, and `-` is nothing. A frame is `NUMBER HANDLE : MAIN / REFERENCES`
//! (`frame_of`), and ` ; ` stands between frames.
//!
//! What is reported: words. Counts and places are numbers in decimal digits, handles and words of floating-point numbers in hexadecimal ones
//! after an `x`, without it below ten; `x3FF^` is 3FF and zeros up to sixteen digits. Bytes are `:4142`, references `C.7F`, a refusal is
//! `refused LINE INDEX PLACE`, and `-` is nothing (`Report`).
#![tactic(auto)]

mod bits;
mod cases;
mod file;
mod frame;
mod report;

pub use bits::{Bits, bytes_of};
pub use cases::{Case, Line, first_fault, hold, read_number};
pub use file::{file_of, older};
pub use frame::frame_of;
pub use report::Report;
