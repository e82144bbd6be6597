//! Tables of cases, a line each (the language is told in `lib.rt`).

use crate::bits::{Bits, bytes_of, number_of};
use crate::report::Report;
use std::alloc::Global;
use std::test::Fail;

/// What a line gives: its fields but the last.
#[derive(Drop)]
pub struct Line<'a> {
    /// The allocator.
    pub alloc: Global,
    /// The fields.
    given: &'a str,
    /// Up to which of the fields were asked for.
    asked: usize,
}

/// The number of a word: by decimal digits, or by hexadecimal ones after an `x`.
pub fn read_number(word: &str) -> Option<u64> {
    match word.strip_prefix("x") {
        Some(digits) => number_of(digits),
        None => word.parse::<u64>().ok(),
    }
}

/// Numbers by their words, at most five; those that are missing are 0.
fn numbers_of(words: &str) -> Option<[u64; 5]> {
    let mut numbers = [0; 5];
    let mut at = 0usize;
    for word in words.split_whitespace() {
        *numbers.get_mut(at)? = read_number(word)?;
        at = at.saturating_add(1);
    }
    Some(numbers)
}

impl<'a> Line<'a> {
    /// A field, counted from 0.
    pub fn field(&mut self, at: usize) -> Option<&'a str> {
        self.asked = self.asked.max(at.saturating_add(1));
        self.given.split(" | ").nth(at)
    }

    /// Whether it has a field that nobody asked for.
    fn has_more(&self) -> bool {
        !self.given.is_empty() && self.given.split(" | ").count() > self.asked
    }

    /// The bits of a field.
    pub fn bits(&mut self, at: usize) -> Option<Bits> {
        Bits::of(self.alloc, self.field(at)?)
    }

    /// The bytes of a field, the last filled up with zeros.
    pub fn bytes(&mut self, at: usize) -> Option<Vec<u8>> {
        bytes_of(self.alloc, self.field(at)?)
    }

    /// The name of what is tried: the first word, where it is no number.
    pub fn name(&mut self) -> &'a str {
        self.asked = self.asked.max(1);
        match self.given.split_whitespace().next() {
            Some(word) if read_number(word).is_none() => word,
            _ => "",
        }
    }

    /// The numbers of the first field after the name.
    pub fn numbers(&mut self) -> Option<[u64; 5]> {
        let first = self.field(0)?;
        numbers_of(first.strip_prefix(self.name()).unwrap_or(first))
    }
}

/// What a table is about.
pub trait Case {
    /// Reports what comes of a line. None: the line is no case, or there is no memory.
    fn report(line: &mut Line<'_>, report: &mut Report) -> Option<()>;
}

/// What is reported of the fields of a line. None: they are no case, have a field too many, or there is no memory.
fn report_of<C: Case>(alloc: Global, given: &str) -> Option<Report> {
    let mut report = Report::new(alloc);
    let mut line = Line {
        alloc,
        given,
        asked: 0,
    };
    C::report(&mut line, &mut report)?;
    if line.has_more() {
        return None;
    }
    Some(report)
}

/// The fields of a line that are given, and the last, which is what has to be reported.
fn parts_of(line: &str) -> (&str, &str) {
    line.rsplit_once(" | ").unwrap_or(("", line))
}

/// Whether the last field of a line is what is reported of the others.
fn holds<C: Case>(alloc: Global, line: &str) -> bool {
    let (given, wanted) = parts_of(line);
    match report_of::<C>(alloc, given) {
        Some(report) => report.text() == wanted,
        None => false,
    }
}

/// The first line of a table that doesn't hold, or the table itself where it has no line; None where all lines hold.
pub fn first_fault<'t, C: Case>(alloc: Global, table: &'t str) -> Option<&'t str> {
    let mut fault = Some(table);
    for line in table.lines() {
        let line = line.trim();
        if line.is_empty() || line.starts_with("#") {
            continue;
        }
        if !holds::<C>(alloc, line) {
            return Some(line);
        }
        fault = None;
    }
    fault
}

/// Fails by the first line of a table that doesn't hold, and says what is reported of it; a table without a line fails too.
pub fn hold<C: Case>(alloc: Global, table: &str) -> Result<(), Fail> {
    let Some(line) = first_fault::<C>(alloc, table) else {
        return Ok(());
    };
    let (given, _) = parts_of(line);
    match report_of::<C>(alloc, given) {
        Some(report) => Err(Fail::new(format_args!("{}, but: {}", line, report.text()))),
        None => Err(Fail::new(format_args!("{}, which is no case", line))),
    }
}
