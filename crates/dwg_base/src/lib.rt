//! What all crates of `dwg` stand on: devices and reading them to their end, byte runs, lists, handles, versions, and refusals.
#![tactic(auto)]

mod bytes;
mod device;
mod handle;
mod intake;
mod items;
mod lists;
mod memory;
mod refusal;
pub mod refusal_lines;
mod slices;
mod version;

pub use bytes::{ByteRun, append_bytes};
pub use device::{Failed, NoMemory, Sink, Source, WriteFault, put_all};
pub use handle::Handle;
pub use intake::{Intake, LIMIT, read_all};
pub use items::Items;
pub use lists::vec_with_capacity;
pub use memory::{MemSink, MemSource};
pub use refusal::{Fault, Refusal, part_word, reason_word};
pub use slices::{bytes_after, bytes_with_range};
pub use version::Version;
