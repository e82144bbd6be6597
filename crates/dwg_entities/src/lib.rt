//! Texts, attributes, inserts and the marks of blocks: what each has beside the common part of entities (Open Design
//! Specification, "TEXT", "ATTRIB", "ATTDEF", "INSERT", "MINSERT", "BLOCK", "ENDBLK" and "SEQEND").
#![tactic(auto)]

mod attdef;
mod attrib;
mod attributes;
mod block;
mod block_ends;
mod flags;
mod insert;
mod laws;
mod minsert;
mod scale;
mod text;
mod text_numbers;

pub use attdef::Attdef;
pub use attrib::Attrib;
pub use block::Block;
pub use block_ends::{EndBlk, SeqEnd};
pub use insert::{Attributes, Insert};
pub use laws::entity_laws;
pub use minsert::MInsert;
pub use text::Text;
