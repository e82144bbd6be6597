//! Lines of text and the values in them, the writer that sends them piece by piece, and the texts of sections, classes and notes.
#![tactic(auto)]

mod bytes;
mod classes;
mod lines;
mod notes;
mod quoted;
mod sections;
mod text_writer;
mod usage;
mod values;

pub use bytes::write_bytes;
pub use classes::{print_classes, write_classes};
pub use lines::write_line;
pub use notes::{
    preview_dropped_note, read_fault_note, refusal_line, refusal_note, refusal_words, size_note,
    too_large_note, too_long_note, unsound_note,
};
pub use quoted::push_quoted;
pub use sections::{print_sections, version_word};
pub use text_writer::{ShowFault, TextWriter};
pub use usage::usage_note;
pub use values::{Count, Hexadecimal, Value, truth};
