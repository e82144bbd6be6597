//! Runs of the program over devices in memory, for tests: what is asked and what comes are texts.

use crate::run::run;
use crate::tests::inputs::input_of;
use dwg_base::{ByteRun, Items, MemSink, MemSource};
use dwg_commands::Status;
use dwg_testkit::{Case, Line, Report};
use std::alloc::Global;

/// How much a call of a device gives or takes at the most, and how much a sink holds, where nothing holds it back: no drawing is larger.
pub(crate) const PLENTY: usize = 33_554_432;

/// How the devices of a run behave. Calls are counted from 1; the call 0 is none.
#[derive(Clone, Copy)]
pub(crate) struct Devices {
    /// How much a read gives at the most.
    pub(crate) read: usize,
    /// The read that fails.
    pub(crate) failing_read: u64,
    /// How much a write takes at the most.
    pub(crate) write: usize,
    /// The write of output that fails.
    pub(crate) failing_write: u64,
    /// How much the output holds.
    pub(crate) room: usize,
    /// The write of notes that fails.
    pub(crate) failing_note: u64,
}

/// Devices that don't fail, and give and take at most `most` bytes a call.
pub(crate) fn in_pieces(most: usize) -> Devices {
    Devices {
        read: most,
        failing_read: 0,
        write: most,
        failing_write: 0,
        room: PLENTY,
        failing_note: 0,
    }
}

/// How a run ended, and what it wrote.
#[derive(Drop)]
pub(crate) struct Left {
    /// How it ended.
    pub(crate) status: Status,
    /// What it wrote to the output.
    pub(crate) output: ByteRun,
    /// What it wrote to the notes.
    pub(crate) notes: ByteRun,
}

/// The call that fails, as a list of calls.
fn failing(alloc: Global, call: u64) -> Option<Items<u64>> {
    let mut fails = Items::new(alloc);
    fails.push(call).ok()?;
    Some(fails)
}

/// A source of the bytes.
fn source(alloc: Global, bytes: &[u8], most: usize, call: u64) -> Option<MemSource> {
    let bytes = ByteRun::from_slice(alloc, bytes).ok()?;
    Some(MemSource::new(bytes, most.max(1), failing(alloc, call)?))
}

/// A sink.
fn sink(alloc: Global, room: usize, most: usize, call: u64) -> Option<MemSink> {
    MemSink::new(alloc, room, most.max(1), failing(alloc, call)?).ok()
}

/// The words after the program's name; `''` is the empty word.
fn words_of(alloc: Global, line: &str) -> Option<Vec<String>> {
    let mut words = Vec::new(alloc);
    for word in line.split_whitespace().skip(1) {
        let word = if word == "''" { "" } else { word };
        words.push(String::from_str(alloc, word).ok()?).ok()?;
    }
    Some(words)
}

/// Runs the program. It stands alone: no caller is to know what the contract of `run` says.
fn ended(
    alloc: Global,
    words: &[String],
    input: &mut MemSource,
    output: &mut MemSink,
    notes: &mut MemSink,
) -> Status {
    run(alloc, words, input, output, notes)
}

/// Runs the program over an input, an output and notes, and says what it left there.
fn left_by(
    alloc: Global,
    words: &[String],
    mut input: MemSource,
    mut output: MemSink,
    mut notes: MemSink,
) -> Left {
    let status = ended(alloc, words, &mut input, &mut output, &mut notes);
    Left {
        status,
        output: output.into_bytes(),
        notes: notes.into_bytes(),
    }
}

/// Runs the program over devices that give the bytes.
fn left_over(alloc: Global, words: &[String], bytes: &[u8], devices: Devices) -> Option<Left> {
    let input = source(alloc, bytes, devices.read, devices.failing_read)?;
    let output = sink(alloc, devices.room, devices.write, devices.failing_write)?;
    let notes = sink(alloc, PLENTY, devices.write, devices.failing_note)?;
    Some(left_by(alloc, words, input, output, notes))
}

/// Runs the program as a command line says, which begins with its name. None: out of memory.
pub(crate) fn ran(alloc: Global, line: &str, bytes: &[u8], devices: Devices) -> Option<Left> {
    left_over(alloc, &words_of(alloc, line)?, bytes, devices)
}

/// What the program wrote where it had to end well, with so much room for it. None where it did not, or wrote notes.
pub(crate) fn written(alloc: Global, line: &str, bytes: &[u8], room: usize) -> Option<ByteRun> {
    let mut devices = in_pieces(PLENTY);
    devices.room = room;
    let ran = ran(alloc, line, bytes, devices)?;
    if ran.status == Status::Done && ran.notes.as_slice().is_empty() {
        Some(ran.output)
    } else {
        None
    }
}

/// Reports how a run ended: its name, with its numbers after it.
pub(crate) fn report_status(status: &Status, report: &mut Report) {
    match status {
        Status::Done => report.word("Done"),
        Status::Found => report.word("Found"),
        Status::Usage => report.word("Usage"),
        Status::Refused(refusal) => report.refusal(*refusal),
        Status::ReadFault => report.word("ReadFault"),
        Status::WriteFault => report.word("WriteFault"),
        Status::NoMemory => report.word("NoMemory"),
        Status::TooLong => report.word("TooLong"),
        Status::TooLarge { size } => report.number(*size),
    }
}

/// The lines that `; ` stands between, each with its end; `-` is none.
fn lines_of(alloc: Global, text: &str) -> Option<Vec<u8>> {
    let mut bytes = Vec::new(alloc);
    if text == "-" {
        return Some(bytes);
    }
    for line in text.split("; ") {
        bytes.extend_from_slice(line.as_bytes()).ok()?;
        bytes.push(b'\n').ok()?;
    }
    Some(bytes)
}

/// The lines without the last line end.
fn cut_lines_of(alloc: Global, text: &str) -> Option<Vec<u8>> {
    let mut bytes = lines_of(alloc, text)?;
    let _end = bytes.pop();
    Some(bytes)
}

/// The bytes of a file after the word `file`, or lines; `..` after them says that the last line isn't whole.
fn output_of(alloc: Global, text: &str) -> Option<Vec<u8>> {
    if let Some(file) = text.strip_prefix("file ") {
        return input_of(alloc, file);
    }
    match text.strip_suffix("..") {
        Some(prefix) => cut_lines_of(alloc, prefix),
        None => lines_of(alloc, text),
    }
}

/// What a run has to write.
#[derive(Drop)]
pub(crate) struct Wanted {
    /// What it has to write to the output.
    pub(crate) output: Vec<u8>,
    /// What it has to write to the notes.
    pub(crate) notes: Vec<u8>,
}

/// What a run has to write, by texts.
pub(crate) fn wanted_of(alloc: Global, output: &str, notes: &str) -> Option<Wanted> {
    Some(Wanted {
        output: output_of(alloc, output)?,
        notes: lines_of(alloc, notes)?,
    })
}

/// Reports how a run ended; and what it wrote, where that isn't what is wanted.
pub(crate) fn report_left(left: &Left, wanted: &Wanted, report: &mut Report) {
    report_status(&left.status, report);
    if left.output.as_slice() != wanted.output.as_slice() {
        report.word("with the output");
        report.quoted(left.output.as_slice());
    }
    if left.notes.as_slice() != wanted.notes.as_slice() {
        report.word("with the notes");
        report.quoted(left.notes.as_slice());
    }
}

/// Whether a run whose devices give and take at most `most` bytes a call leaves what another one left.
fn leaves(alloc: Global, line: &str, bytes: &[u8], most: usize, left: &Left) -> Option<bool> {
    let ran = ran(alloc, line, bytes, in_pieces(most))?;
    Some(
        ran.status == left.status
            && ran.output.as_slice() == left.output.as_slice()
            && ran.notes.as_slice() == left.notes.as_slice(),
    )
}

/// Reports that of a run; and if runs leave something else whose devices give and take one byte a call, or ten.
pub(crate) fn report_in_pieces(
    alloc: Global,
    line: &str,
    bytes: &[u8],
    wanted: &Wanted,
    report: &mut Report,
) -> Option<()> {
    let left = ran(alloc, line, bytes, in_pieces(PLENTY))?;
    report_left(&left, wanted, report);
    if !leaves(alloc, line, bytes, 1, &left)? || !leaves(alloc, line, bytes, 10, &left)? {
        report.word("otherwise in pieces");
    }
    Some(())
}

/// `COMMAND LINE | INPUT | OUTPUT | NOTES`: how such runs end that write so.
pub(crate) struct Answers;

impl Case for Answers {
    fn report(line: &mut Line<'_>, report: &mut Report) -> Option<()> {
        let bytes = input_of(line.alloc, line.field(1)?)?;
        let wanted = wanted_of(line.alloc, line.field(2)?, line.field(3)?)?;
        report_in_pieces(line.alloc, line.field(0)?, &bytes, &wanted, report)
    }
}
