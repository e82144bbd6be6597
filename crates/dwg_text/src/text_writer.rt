//! A text on its way to a sink, which takes it piece by piece.

ghost use Rattle.std.specs.Prelude.{◌≡◌, ℕ, List, [], Option, Some, None, IfErr, IfOk, OnOk, string_bytes};
ghost use Rattle.dwg_text.specs.Writing.{WritesText};

use crate::values::Value;
use dwg_base::{Sink, put_all};
use std::alloc::{AllocError, Global};
use thiserror::Error;

/// Why a text isn't written to its end.
#[derive(Clone, Copy, Debug, PartialEq, Eq, Error)]
pub enum ShowFault {
    /// Out of memory.
    #[error("out of memory")]
    NoMemory,
    /// The sink failed.
    #[error("write fault")]
    WriteFault,
}

/// How many bytes wait before they are sent.
const PIECE: usize = 1 << 16;

/// A text on its way: what was written and not yet sent, and the first fault, after which nothing more is sent. So what prints
/// with it need not look for faults; the last call says them.
#[derive(Drop)]
pub struct TextWriter {
    /// Where memory is taken.
    pub alloc: Global,
    /// What was written and not yet sent.
    pub piece: String,
    /// The first fault.
    pub fault: Option<ShowFault>,
}

impl TextWriter {
    /// A writer to which nothing was written.
    pub fn new(alloc: Global) -> TextWriter
        ensures piece { string_bytes result.piece ≡ [] }
        ensures fault { result.fault ≡ None }
    {
        TextWriter {
            alloc,
            piece: String::new(alloc),
            fault: None,
        }
    }

    /// Stops out of memory, unless it has stopped before.
    #[tactic(auto, using(crate::proofs::Writing::writes_idle, crate::proofs::Writing::writes_wanting), unfolding(crate::specs::Writing::WritesTextBy))]
    pub fn fail_no_memory(&mut self)
        ensures { (taken : Option (List ℕ)) (faults : ℕ) (text : List ℕ) → WritesText self.old self.new taken taken faults faults text }
    {
        if self.fault.is_none() {
            self.fault = Some(ShowFault::NoMemory);
        }
    }

    /// Sends what stands in the writer.
    #[tactic(auto, using(crate::proofs::Writing::writes_sent, crate::proofs::Writing::writes_in_part), unfolding(crate::specs::Writing::WritesTextBy))]
    fn send<W: Sink>(&mut self, sink: &mut W)
        requires { self.old.fault ≡ None }
        ensures written { WritesText self.old self.new (W.taken sink.old) (W.taken sink.new) (W.faults sink.old) (W.faults sink.new) [] }
        ensures sent { self.new.fault ≡ None → string_bytes self.new.piece ≡ [] }
    {
        match put_all(sink, self.piece.as_bytes()) {
            Ok(()) => self.piece.clear(),
            Err(_) => self.fault = Some(ShowFault::WriteFault),
        }
    }

    /// Sends what stands in the writer, if it is much.
    #[tactic(auto, using(crate::proofs::Writing::writes_nothing))]
    pub fn send_when_full<W: Sink>(&mut self, sink: &mut W)
        requires { self.old.fault ≡ None }
        ensures { WritesText self.old self.new (W.taken sink.old) (W.taken sink.new) (W.faults sink.old) (W.faults sink.new) [] }
    {
        if self.piece.len() >= PIECE {
            self.send(sink);
        }
    }

    /// Writes a text.
    #[tactic(auto, using(crate::proofs::Writing::writes_idle, crate::proofs::Writing::writes_pushed, crate::proofs::Writing::writes_wanting), unfolding(crate::specs::Writing::WritesTextBy))]
    pub fn write<W: Sink>(&mut self, text: &str, sink: &mut W)
        ensures { WritesText self.old self.new (W.taken sink.old) (W.taken sink.new) (W.faults sink.old) (W.faults sink.new) text.now }
    {
        if self.fault.is_some() {
            return;
        }
        match self.piece.push_str(text) {
            Ok(()) => self.send_when_full(sink),
            Err(_) => self.fault = Some(ShowFault::NoMemory),
        }
    }

    /// Writes a value.
    #[tactic(auto, using(crate::proofs::Writing::writes_idle, crate::proofs::Writing::writes_pushed, crate::proofs::Writing::writes_wanting), unfolding(crate::specs::Writing::WritesTextBy))]
    pub fn write_value<T: Value, W: Sink>(&mut self, value: &T, sink: &mut W)
        ensures { WritesText self.old self.new (W.taken sink.old) (W.taken sink.new) (W.faults sink.old) (W.faults sink.new) (T.printed value.now) }
    {
        if self.fault.is_some() {
            return;
        }
        match value.push(&mut self.piece) {
            Ok(()) => self.send_when_full(sink),
            Err(_) => self.fault = Some(ShowFault::NoMemory),
        }
    }

    /// Writes a text that was made for it, where there was memory.
    pub fn write_made<W: Sink>(&mut self, made: Result<String, AllocError>, sink: &mut W)
        ensures { (text : List ℕ) → IfOk made (λ made. string_bytes made ≡ text) → WritesText self.old self.new (W.taken sink.old) (W.taken sink.new) (W.faults sink.old) (W.faults sink.new) text }
    {
        match made {
            Ok(text) => self.write(&text, sink),
            Err(_) => self.fail_no_memory(),
        }
    }

    /// Sends the last of the text, and says which fault there was.
    #[tactic(auto, using(crate::proofs::Writing::writes_nothing))]
    pub fn end<W: Sink>(&mut self, sink: &mut W) -> Result<(), ShowFault>
        ensures written { WritesText self.old self.new (W.taken sink.old) (W.taken sink.new) (W.faults sink.old) (W.faults sink.new) [] }
        ensures whole { OnOk result ((self.new.fault ≡ None) × (string_bytes self.new.piece ≡ [])) }
        ensures cut { IfErr result (λ fault. self.new.fault ≡ Some fault) }
    {
        if self.fault.is_none() {
            self.send(sink);
        }
        match self.fault {
            None => Ok(()),
            Some(fault) => Err(fault),
        }
    }
}
