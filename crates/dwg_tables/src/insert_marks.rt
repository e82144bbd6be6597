//! The marks of the inserts of a block, as bits (Open Design Specification, "BLOCK HEADER").

ghost use Rattle.std.specs.Prelude.{◌≡◌, ◌^◌, ◌<◌, ◌≤◌, ◌↔◌, length, map, IfOk, IsTrue};
ghost use Rattle.dwg_bits.specs.Sink.{Extends};
ghost use Rattle.dwg_common.specs.Parsing.{Keeps, Parses};
ghost use Rattle.dwg_tables.specs.BlockHeaderBody.{count_of, mark_of, target_of};
ghost use Rattle.dwg_tables.specs.InsertMarks.{IsMarkCount, mark_counts};

use crate::block_header::InsertMark;
use crate::members::{Joined, Part, parts_bits, write_parts};
use dwg_base::{Items, NoMemory};
use dwg_bits::{BitCursor, BitSink};
use dwg_codes::{BitCode, CodeRC};
use dwg_common::parse_code;
use dwg_handles::Ref;
use std::alloc::Global;

/// The count that no mark has, which ends the list.
const END_OF_MARKS: u8 = 0;

impl Part<u8> for InsertMark {
    ghost part = { count_of };

    fn part(&self) -> u8 {
        self.count
    }
}

impl Part<Ref> for InsertMark {
    ghost part = { target_of };

    fn part(&self) -> Ref {
        self.target
    }
}

impl Joined<u8> for InsertMark {
    ghost join = { mark_of };

    fn joined(parsed: &u8, name: Ref) -> InsertMark {
        InsertMark {
            count: *parsed,
            target: name,
        }
    }
}

/// Reads counts up to their mark, as they are parsed. Err: out of memory, which is taken only for counts that
/// are there.
#[tactic(auto, unfolding(crate::specs::InsertMarks::mark_counts, dwg_grammar::specs::Combinators::until), using(dwg_common::proofs::UntilReading::after_none))]
pub(crate) fn read_counts(
    alloc: Global,
    cursor: &mut BitCursor<'_>,
) -> Result<Option<Items<u8>>, NoMemory>
    ensures parsed { IfOk result (λ found. Parses mark_counts found cursor.old cursor.new) }
    ensures kept { Keeps cursor.old cursor.new }
{
    let mut counts = Items::new(alloc);
    'marks: loop {
        let Some(count) = parse_code::<CodeRC>(&(), cursor) else {
            return Ok(None);
        };
        if count == END_OF_MARKS {
            return Ok(Some(counts));
        }
        counts.try_push(count)?;
    }
}

/// Whether a count is one that a mark may have.
fn count_fits(mark: &InsertMark) -> bool
    ensures { IsTrue result ↔ IsMarkCount (count_of mark.now) }
{
    let count = mark.count;
    0 < count
}

/// Whether the counts of marks can be given: none is 0.
#[tactic(auto, unfolding(crate::specs::InsertMarks::mark_counts, dwg_grammar::specs::Combinators::until))]
pub(crate) fn counts_fit(marks: &[InsertMark]) -> bool
    ensures { IsTrue result ↔ mark_counts.IsValue (map count_of marks.now) }
{
    'marks: for mark in marks {
        if !count_fits(mark) {
            return false;
        }
    }
    true
}

/// How many bits the counts of marks are written by.
#[tactic(auto, using(crate::proofs::MarkParts::counts_parsed, crate::proofs::MarkParts::counts_length))]
pub(crate) fn counts_bits(marks: &[InsertMark]) -> u64
    requires value { mark_counts.IsValue (map count_of marks.now) }
    requires few { length (mark_counts.short (map count_of marks.now)) < 2 ^ 62 }
    ensures { result ≡ length (mark_counts.short (map count_of marks.now)) }
{
    parts_bits::<CodeRC, InsertMark>(&(), marks) + CodeRC::length(&(), &END_OF_MARKS)
}

/// Writes the counts of marks, and the one that ends them.
#[tactic(auto, using(crate::proofs::MarkParts::counts_parsed, crate::proofs::MarkParts::counts_length))]
pub(crate) fn write_counts(marks: &[InsertMark], sink: &mut BitSink)
    requires value { mark_counts.IsValue (map count_of marks.now) }
    requires room { length (mark_counts.short (map count_of marks.now)) ≤ sink.old.spare }
    ensures { Extends sink.old sink.new (mark_counts.short (map count_of marks.now)) }
{
    write_parts::<CodeRC, InsertMark>(&(), marks, sink);
    CodeRC::write(&(), &END_OF_MARKS, sink);
}
