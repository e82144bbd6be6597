//! Byte runs, lists, refusals and devices in memory.

use dwg_base::{
    ByteRun, Failed, Intake, Items, MemSink, MemSource, Sink, Source, part_word, put_all, read_all,
    reason_word,
};
use dwg_testkit::{Case, Line, Report, hold};
use std::alloc::Global;
use std::test::Fail;

/// A copy of the bytes.
pub fn run(alloc: Global, bytes: &[u8]) -> ByteRun {
    match ByteRun::from_slice(alloc, bytes) {
        Ok(run) => run,
        Err(_) => ByteRun::from_vec(Vec::new(alloc)),
    }
}

/// The bytes of a `Vec` as a run.
fn run_of_vec(alloc: Global, bytes: &[u8]) -> ByteRun {
    match Vec::from_slice(alloc, bytes) {
        Ok(bytes) => ByteRun::from_vec(bytes),
        Err(_) => ByteRun::from_vec(Vec::new(alloc)),
    }
}

/// `run | BYTES`: the bytes of a run that is a copy of them, and of one that was a Vec
fn case_run(line: &mut Line<'_>, report: &mut Report) -> Option<()> {
    let bytes = line.bytes(1)?;
    report.bytes(run(line.alloc, &bytes).as_slice());
    report.bytes(run_of_vec(line.alloc, &bytes).as_slice());
    Some(())
}

/// The numbers as a list.
fn list_of(alloc: Global, numbers: [u64; 5]) -> Items<u64> {
    let mut items = Items::new(alloc);
    for number in numbers {
        let _full = items.push(number);
    }
    items
}

/// `list FIVE NUMBERS`: those that are put into a list
fn case_list(line: &mut Line<'_>, report: &mut Report) -> Option<()> {
    for number in list_of(line.alloc, line.numbers()?).as_slice() {
        report.number(*number);
    }
    Some(())
}

/// What is tried is told at the functions.
struct BaseCases;

impl Case for BaseCases {
    fn report(line: &mut Line<'_>, report: &mut Report) -> Option<()> {
        match line.name() {
            "run" => case_run(line, report),
            "list" => case_list(line, report),
            "source" => case_source(line, report),
            "sink" => case_sink(line, report),
            "intake" => case_intake(line, report),
            "line" => case_line(line, report),
            _ => None,
        }
    }
}

#[test]
fn runs_and_lists_hold_what_they_are_given(rt: HostRuntime) -> Result<(), Fail> {
    let cases = "
        run | 414331303135 | :414331303135 :414331303135
        run | 4143 | :4143 :4143
        list 3 1 4 | 3 1 4 0 0";
    hold::<BaseCases>(rt.alloc(), cases)
}

/// The number of the call that fails, counted from 1, as a list; 0 for none.
fn failing_calls(alloc: Global, number: u64) -> Items<u64> {
    let mut fails = Items::new(alloc);
    if number > 0 {
        let _full = fails.push(number);
    }
    fails
}

/// A source of bytes that gives at most so many a call, and fails in one call.
fn source_of(alloc: Global, bytes: &[u8], most: u64, failing: u64) -> MemSource {
    let most = most.clamp(1, 1_000) as usize;
    MemSource::new(run(alloc, bytes), most, failing_calls(alloc, failing))
}

/// Writes what one call gives.
fn report_piece(source: &mut MemSource, report: &mut Report) {
    let mut buf = [0; 4];
    match source.read(&mut buf) {
        Ok(count) => report.bytes(&buf[..count]),
        Err(Failed) => report.word("failed"),
    }
}

/// `source MOST FAILING CALLS | BYTES`: what each of so many calls gives into a buffer of four bytes
fn case_source(line: &mut Line<'_>, report: &mut Report) -> Option<()> {
    let [most, failing, calls, ..] = line.numbers()?;
    let mut source = source_of(line.alloc, &line.bytes(1)?, most, failing);
    for _ in 0..calls {
        report_piece(&mut source, report);
    }
    Some(())
}

/// Reports how many bytes of a piece one call takes.
fn report_taken(sink: &mut MemSink, piece: &str, report: &mut Report) {
    match sink.write(piece.as_bytes()) {
        Ok(count) => report.number(count as u64),
        Err(Failed) => report.word("failed"),
    }
}

/// Reports whether a piece is sent whole.
fn report_sent(sink: &mut MemSink, piece: &str, report: &mut Report) {
    match put_all(sink, piece.as_bytes()) {
        Ok(()) => report.word("sent"),
        Err(_) => report.word("failed"),
    }
}

/// Writes what comes of a piece.
fn report_given(sink: &mut MemSink, piece: &str, report: &mut Report) {
    match piece.strip_prefix("+") {
        Some(whole) => report_sent(sink, whole, report),
        None if piece == "-" => report_taken(sink, "", report),
        None => report_taken(sink, piece, report),
    }
}

/// Writes what comes of pieces.
fn report_pieces(mut sink: MemSink, pieces: &str, report: &mut Report) {
    for piece in pieces.split_whitespace() {
        report_given(&mut sink, piece, report);
    }
    report.bytes(sink.bytes());
}

/// `sink ROOM MOST FAILING | PIECES`: how many bytes each piece gives, and the bytes that are held then: `-` is a piece without bytes, and
/// `+12` is sent whole.
fn case_sink(line: &mut Line<'_>, report: &mut Report) -> Option<()> {
    let [room, most, failing, ..] = line.numbers()?;
    let room = room.min(1_000) as usize;
    let most = most.clamp(1, 1_000) as usize;
    match MemSink::new(line.alloc, room, most, failing_calls(line.alloc, failing)) {
        Ok(sink) => report_pieces(sink, line.field(1)?, report),
        Err(_) => report.word("no memory"),
    }
    Some(())
}

/// What is read to the end.
fn read_whole(alloc: Global, mut source: MemSource, limit: u64) -> Result<ByteRun, Intake> {
    read_all(alloc, &mut source, limit.min(1_000))
}

/// `intake LIMIT MOST FAILING | BYTES`: what is read to the end
fn case_intake(line: &mut Line<'_>, report: &mut Report) -> Option<()> {
    let [limit, most, failing, ..] = line.numbers()?;
    let source = source_of(line.alloc, &line.bytes(1)?, most, failing);
    match read_whole(line.alloc, source, limit) {
        Ok(run) => report.bytes(run.as_slice()),
        Err(Intake::TooLong) => report.word("too long"),
        Err(Intake::ReadFault) => report.word("read fault"),
        Err(Intake::NoMemory) => report.word("no memory"),
    }
    Some(())
}

/// `line LINE`: its words in the table of refusals: the part and the reason
fn case_line(line: &mut Line<'_>, report: &mut Report) -> Option<()> {
    let [number, ..] = line.numbers()?;
    let number = number.clamp(1, 33) as u8;
    report.word(part_word(number));
    report.word(reason_word(number));
    Some(())
}

#[test]
fn each_line_of_the_table_has_its_words(rt: HostRuntime) -> Result<(), Fail> {
    let cases = "
        line 1 | header short
        line 2 | header version
        line 3 | header count
        line 4 | header short
        line 5 | header check
        line 6 | header sentinel
        line 7 | header repeated
        line 8 | header missing
        line 9 | variables short
        line 10 | variables begin
        line 11 | variables length
        line 12 | variables check
        line 13 | variables end
        line 14 | classes short
        line 15 | classes begin
        line 16 | classes length
        line 17 | classes check
        line 18 | classes end
        line 19 | classes spelling
        line 20 | classes number
        line 21 | map short
        line 22 | map size
        line 23 | map check
        line 24 | map pair
        line 25 | map null
        line 26 | map duplicate
        line 27 | objects place
        line 28 | objects length
        line 29 | objects overlap
        line 30 | objects check
        line 31 | objects head
        line 32 | objects handle
        line 33 | sections short";
    hold::<BaseCases>(rt.alloc(), cases)
}

#[test]
fn devices_in_memory_keep_their_bounds_and_fail_where_listed(rt: HostRuntime) -> Result<(), Fail> {
    let cases = "
        source 2 2 5 | 3132333435 | :3132 failed :3334 :35 :
        sink 5 3 2 | 1234 4 456 - 6 | 3 failed 2 0 failed :3132333435
        sink 5 1 0 | +1234 +567 | sent failed :3132333435
        intake 6 1 0 | 414331303135 | :414331303135
        intake 6 100 0 | 414331303135 | :414331303135
        intake 7 4 0 | 414331303135 | :414331303135
        intake 5 4 0 | 414331303135 | too long
        intake 5 4 2 | 414331303135 | read fault";
    hold::<BaseCases>(rt.alloc(), cases)
}
