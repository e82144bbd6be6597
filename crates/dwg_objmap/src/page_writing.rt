//! Writing the map: which pairs go into which page, and the pages one after the other.

ghost use Rattle.std.specs.Prelude.{◌≡◌, ◌+◌, ◌-◌, ◌*◌, ◌^◌, ◌<◌, ◌≤◌, ◌++◌, [], drop, length, true, false, vec_capacity, IfOk, OnOk, OnErr};
ghost use Rattle.std.specs.Int.{w16, to_be_bytes};
ghost use Rattle.dwg_bits.specs.Bits.{bits};
ghost use Rattle.dwg_bits.specs.Sink.{Extends};
ghost use Rattle.dwg_base.specs.Devices.{Counts, Sends};
ghost use Rattle.dwg_objmap.specs.Pairs.{IsPair, move_between, pair_after};
ghost use Rattle.dwg_objmap.specs.Pages.{page_bytes};
ghost use Rattle.dwg_objmap.specs.Writing.{MOST_PAGE, FRESH, reported_after, has_room, given, filled, closing_body, closing};
ghost use Rattle.dwg_objmap.specs.PageFilling.{page_of, IsPage, HasPairRoom};

use crate::pair::{Pair, origin};
use dwg_base::{
    NoMemory, Sink, WriteFault, append_bytes, bytes_with_range, put_all, vec_with_capacity,
};
use dwg_bits::BitSink;
use dwg_check::{CHECK_SEED, check};
use dwg_codes::{mc_bytes, signed_mc_bytes, write_mc, write_signed_mc};
use std::alloc::Global;
use std::marker::Model;

/// The largest size of a page that is written: its own two bytes and its pairs.
pub(crate) const MOST_PAGE: u64 = 2032;

/// How many bytes the size of a page has.
const SIZE_BYTES: usize = 2;

/// How many bytes the check word of a page has.
const WORD_BYTES: usize = 2;

/// No pair is written by more bytes.
const MOST_PAIR: u64 = 20;

/// The step from a place to another.
fn move_between(from: u64, to: u64) -> i64
    requires from { from < 2 ^ 63 }
    requires to { to < 2 ^ 63 }
    ensures { result ≡ move_between from to }
{
    to as i64 - from as i64
}

/// How many bytes a pair is written by after another.
#[tactic(auto, using(crate::proofs::PairLemmas::move_small, crate::proofs::PairWriting::length_of_pair))]
pub(crate) fn pair_bytes(before: &Pair, pair: &Pair) -> u64
    requires before { IsPair before.now }
    requires pair { IsPair pair.now }
    requires above { before.now.handle ≤ pair.now.handle }
    ensures length { result ≡ length ((pair_after before.now).short pair.now) }
    ensures few { result ≤ 20 }
{
    let step = mc_bytes(pair.handle.value() - before.handle.value());
    let move_ = signed_mc_bytes(move_between(before.place, pair.place));
    (step + move_) as u64
}

/// Writes a pair after another.
#[tactic(auto, using(crate::proofs::PairLemmas::move_small, crate::proofs::PairWriting::length_of_pair, crate::proofs::PairWriting::pair_extends))]
fn write_pair(before: &Pair, pair: &Pair, sink: &mut BitSink)
    requires before { IsPair before.now }
    requires pair { IsPair pair.now }
    requires above { before.now.handle ≤ pair.now.handle }
    requires room { 8 * length ((pair_after before.now).short pair.now) ≤ sink.old.spare }
    ensures { Extends sink.old sink.new (bits ((pair_after before.now).short pair.now)) }
{
    write_mc(pair.handle.value() - before.handle.value(), sink);
    write_signed_mc(move_between(before.place, pair.place), sink);
}

/// From which pair the next one of the page is written.
fn written_from(page: &[u8], last: &Pair) -> Pair
    requires { SIZE_BYTES ≤ length page.now }
    ensures { result ≡ reported_after (drop SIZE_BYTES page.now) last.now }
{
    if page.len() == SIZE_BYTES {
        return origin();
    }
    *last
}

/// Whether the page's size with a pair is no more than a page may have.
fn has_room(page: &[u8], last: &Pair, pair: &Pair) -> bool
    requires size { SIZE_BYTES ≤ length page.now }
    requires most { length page.now ≤ MOST_PAGE }
    requires last { IsPair last.now }
    requires pair { IsPair pair.now }
    requires above { last.now.handle < pair.now.handle }
    ensures { result ≡ has_room (page_of page.now last.now true) pair.now }
{
    page.len() as u64 + pair_bytes(&written_from(page, last), pair) <= MOST_PAGE
}

/// Puts a pair after the bytes of a page that have room for it. It is made in the room of a pair.
fn append_pair(page: &mut Vec<u8>, spelled: &mut BitSink, before: &Pair, pair: &Pair)
    requires before { IsPair before.now }
    requires pair { IsPair pair.now }
    requires above { before.now.handle < pair.now.handle }
    requires room { HasPairRoom spelled.old }
    requires fits { length page.old.items + length ((pair_after before.now).short pair.now) ≤ vec_capacity page.old }
    ensures both { page.new.items ≡ page.old.items ++ (pair_after before.now).short pair.now }
    ensures capacity { vec_capacity page.old ≤ vec_capacity page.new }
    ensures room { HasPairRoom spelled.new }
{
    spelled.clear();
    write_pair(before, pair, spelled);
    append_bytes(page, bytes_with_range(spelled.as_bytes()));
}

/// Reports the size of a page in its first two bytes.
fn put_size(page: &mut Vec<u8>)
    requires size { SIZE_BYTES ≤ length page.old.items }
    requires few { length page.old.items < 2 ^ 16 }
    ensures reported { page.new.items ≡ to_be_bytes w16 (length page.old.items) ++ drop SIZE_BYTES page.old.items }
    ensures capacity { vec_capacity page.new ≡ vec_capacity page.old }
{
    let size = (page.len() as u16).to_be_bytes();
    page[0] = size[0];
    page[1] = size[1];
}

/// Closes a page: reports its size, and puts its check word after its pairs.
fn close(page: &mut Vec<u8>)
    requires size { SIZE_BYTES ≤ length page.old.items }
    requires few { length page.old.items < 2 ^ 16 }
    requires room { length page.old.items + WORD_BYTES ≤ vec_capacity page.old }
    ensures closed { page.new.items ≡ page_bytes (drop SIZE_BYTES page.old.items) }
    ensures capacity { vec_capacity page.old ≤ vec_capacity page.new }
{
    put_size(page);
    let word = check(CHECK_SEED, page.as_slice()).to_be_bytes();
    append_bytes(page, &word);
}

/// Sends a page in one piece, and takes its pairs out of it.
fn send_page<W: Sink>(page: &mut Vec<u8>, sink: &mut W) -> Result<(), WriteFault>
    requires { IsPage page.old.items (vec_capacity page.old) }
    ensures bytes { Sends (W.taken sink.old) (W.taken sink.new) (page_bytes (drop SIZE_BYTES page.old.items)) result }
    ensures counts { Counts (W.faults sink.old) (W.faults sink.new) result }
    ensures size { length page.new.items ≡ SIZE_BYTES }
    ensures none { drop SIZE_BYTES page.new.items ≡ [] }
    ensures capacity { vec_capacity page.old ≤ vec_capacity page.new }
{
    close(page);
    let sent = put_all(sink, page.as_slice());
    page.truncate(SIZE_BYTES);
    sent
}

/// Sends a page and takes its pairs out of it, if it has any.
fn send_filled<W: Sink>(page: &mut Vec<u8>, sink: &mut W) -> Result<(), WriteFault>
    requires { IsPage page.old.items (vec_capacity page.old) }
    ensures bytes { Sends (W.taken sink.old) (W.taken sink.new) (closing_body (drop SIZE_BYTES page.old.items)) result }
    ensures counts { Counts (W.faults sink.old) (W.faults sink.new) result }
    ensures size { length page.new.items ≡ SIZE_BYTES }
    ensures none { drop SIZE_BYTES page.new.items ≡ [] }
    ensures capacity { vec_capacity page.old ≤ vec_capacity page.new }
{
    if page.len() == SIZE_BYTES {
        return Ok(());
    }
    send_page(page, sink)
}

/// A page without pairs, with room for as many as a page may have and for its check word. Err: out of memory.
fn empty_page(alloc: Global) -> Result<Vec<u8>, NoMemory>
    ensures page { IfOk result (λ page. IsPage page.items (vec_capacity page)) }
    ensures none { IfOk result (λ page. drop SIZE_BYTES page.items ≡ []) }
{
    let mut page = vec_with_capacity(alloc, MOST_PAGE as usize + WORD_BYTES)?;
    append_bytes(&mut page, &[0; SIZE_BYTES]);
    Ok(page)
}

/// Room for the bits of a pair. Err: out of memory.
fn pair_room(alloc: Global) -> Result<BitSink, NoMemory>
    ensures { IfOk result (λ spelled. HasPairRoom spelled) }
{
    let mut spelled = BitSink::new(alloc);
    if !spelled.reserve(8 * MOST_PAIR) {
        return Err(NoMemory);
    }
    Ok(spelled)
}

/// Writes the map of pairs that come in ascending order of handle (Open Design Specification, "Object map").
///
/// A pair goes into the page that is being filled where that page's size with it is at most 2032, and else begins the next
/// page. A page goes out in one piece, from where it is filled. Contracts see the page that is being filled, the last pair, and
/// whether the map has ended. After a fault, and after its end, a writer isn't used before [`restart`](PageWriter::restart).
#[derive(Drop)]
pub struct PageWriter {
    // The page that is being filled, as it goes out: two bytes for its size, and then its pairs.
    page: Vec<u8>,
    // Where a pair is made before it goes into the page.
    spelled: BitSink,
    last: Pair,
    ended: bool,
}

impl Model for PageWriter {
    ghost use Rattle.std.specs.Prelude.{vec_capacity};
    ghost use Rattle.dwg_objmap.specs.Writing.{OpenPage};

    ghost Value = { OpenPage };

    ghost use Rattle.dwg_objmap.specs.Pairs.{IsPair};
    ghost use Rattle.dwg_objmap.specs.PageFilling.{page_of, IsPage, HasPairRoom};

    ghost view = { λ writer. page_of writer.page.items writer.last writer.ended };

    ghost invariant = { λ writer. IsPage writer.page.items (vec_capacity writer.page) × HasPairRoom writer.spelled × IsPair writer.last };
}

impl PageWriter {
    /// A writer that was given no pair yet. It takes the memory of a page and of a pair here, and none later. Err: out
    /// of memory.
    pub fn new(alloc: Global) -> Result<PageWriter, NoMemory>
        ensures { IfOk result (λ writer. writer ≡ FRESH) }
    {
        let page = empty_page(alloc)?;
        let spelled = pair_room(alloc)?;
        Ok(PageWriter {
            page,
            spelled,
            last: origin(),
            ended: false,
        })
    }

    /// Makes the writer what it was after `new`, whatever became of it since. It keeps its room, and takes no memory.
    pub fn restart(&mut self)
        ensures { self.new ≡ FRESH }
    {
        self.page.truncate(SIZE_BYTES);
        self.last = origin();
        self.ended = false;
    }

    /// Puts the next pair into the map, and sends the page that has no room for it. A fault comes only where the sink's count
    /// of faults rose; then it took a prefix of that page, and the writer isn't used before `restart`.
    pub fn put<W: Sink>(&mut self, pair: Pair, sink: &mut W) -> Result<(), WriteFault>
        requires handle { self.old.last.handle < pair.handle }
        requires place { pair.place < 2 ^ 63 }
        requires open { self.old.ended ≡ false }
        ensures bytes { Sends (W.taken sink.old) (W.taken sink.new) (given self.old pair) result }
        ensures counts { Counts (W.faults sink.old) (W.faults sink.new) result }
        ensures page { OnOk result (self.new ≡ filled self.old pair) }
        ensures last { OnOk result (self.new.last ≡ pair) }
        ensures still_open { OnOk result (self.new.ended ≡ false) }
        ensures failed { OnErr result (self.new.ended ≡ true) }
    {
        if has_room(self.page.as_slice(), &self.last, &pair) {
            let before = written_from(self.page.as_slice(), &self.last);
            append_pair(&mut self.page, &mut self.spelled, &before, &pair);
            self.last = pair;
            return Ok(());
        }
        match send_page(&mut self.page, sink) {
            Ok(()) => {}
            Err(WriteFault) => {
                self.ended = true;
                return Err(WriteFault);
            }
        }
        append_pair(&mut self.page, &mut self.spelled, &origin(), &pair);
        self.last = pair;
        Ok(())
    }

    /// Ends the map: sends the page that is being filled, if it has pairs, and the page without pairs. A fault comes only
    /// where the sink's count of faults rose; then it took a prefix of these bytes. The writer isn't used before `restart`.
    pub fn end<W: Sink>(&mut self, sink: &mut W) -> Result<(), WriteFault>
        requires { self.old.ended ≡ false }
        ensures bytes { Sends (W.taken sink.old) (W.taken sink.new) (closing self.old) result }
        ensures counts { Counts (W.faults sink.old) (W.faults sink.new) result }
        ensures ended { self.new.ended ≡ true }
    {
        self.ended = true;
        send_filled(&mut self.page, sink)?;
        send_page(&mut self.page, sink)
    }
}
