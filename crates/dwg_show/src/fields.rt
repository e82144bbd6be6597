//! Fields: each on a line of two spaces, its path, a space and its value.

ghost use Rattle.std.specs.Prelude.{◌≡◌, ◌++◌, OnOk, List, ℕ, string_bytes};
ghost use Rattle.dwg_show.specs.Fields as printers;
ghost use Rattle.dwg_text.specs.Writing.{WritesText};

use dwg_base::{ByteRun, Items, Sink};
use dwg_codes::{Point2, Point3};
use dwg_handles::Ref;
use dwg_text::{Count, ShowFault, TextWriter, Value};
use std::alloc::AllocError;

/// What is printed at a path: a value by one line, an option by those of what it holds, a list by those of its elements, and a
/// struct by those of its members.
pub(crate) trait Print {
    /// Its lines at a path.
    ghost lines: { List ℕ → Self → List ℕ };

    /// Prints it at a path.
    fn print<W: Sink>(&self, path: &str, writer: &mut TextWriter, sink: &mut W)
        ensures { WritesText writer.old writer.new (W.taken sink.old) (W.taken sink.new) (W.faults sink.old) (W.faults sink.new) (lines path.now self.now) };
}

/// Appends the line of a value at a path.
#[tactic(auto, unfolding(crate::specs::Fields::field_line))]
fn push_line<T: Value>(text: &mut String, path: &str, value: &T) -> Result<(), AllocError>
    ensures { OnOk result (string_bytes text.new ≡ string_bytes text.old ++ printers.field_line path.now (T.printed value.now)) }
{
    text.push_str("  ")?;
    text.push_str(path)?;
    text.push_str(" ")?;
    value.push(text)?;
    text.push_str("\n")
}

/// Prints the line of a value.
#[tactic(auto, using(dwg_text::proofs::Writing::writes_idle, dwg_text::proofs::Writing::writes_pushed, dwg_text::proofs::Writing::writes_wanting), unfolding(dwg_text::specs::Writing::WritesTextBy))]
fn print_line<T: Value, W: Sink>(value: &T, path: &str, writer: &mut TextWriter, sink: &mut W)
    ensures { WritesText writer.old writer.new (W.taken sink.old) (W.taken sink.new) (W.faults sink.old) (W.faults sink.new) (printers.field_line path.now (T.printed value.now)) }
{
    if writer.fault.is_some() {
        return;
    }
    match push_line(&mut writer.piece, path, value) {
        Ok(()) => writer.send_when_full(sink),
        Err(_) => writer.fault = Some(ShowFault::NoMemory),
    }
}

impl Print for u8 {
    ghost lines = { printers.number };

    fn print<W: Sink>(&self, path: &str, writer: &mut TextWriter, sink: &mut W) {
        print_line(self, path, writer, sink);
    }
}

impl Print for u16 {
    ghost lines = { printers.number };

    fn print<W: Sink>(&self, path: &str, writer: &mut TextWriter, sink: &mut W) {
        print_line(self, path, writer, sink);
    }
}

impl Print for Count {
    ghost lines = { λ path count. printers.number path count.0 };

    fn print<W: Sink>(&self, path: &str, writer: &mut TextWriter, sink: &mut W) {
        print_line(self, path, writer, sink);
    }
}

impl Print for u64 {
    ghost lines = { printers.word };

    fn print<W: Sink>(&self, path: &str, writer: &mut TextWriter, sink: &mut W) {
        print_line(self, path, writer, sink);
    }
}

impl Print for bool {
    ghost lines = { printers.truth_value };

    fn print<W: Sink>(&self, path: &str, writer: &mut TextWriter, sink: &mut W) {
        print_line(self, path, writer, sink);
    }
}

impl Print for Point2 {
    ghost lines = { printers.point2 };

    fn print<W: Sink>(&self, path: &str, writer: &mut TextWriter, sink: &mut W) {
        print_line(self, path, writer, sink);
    }
}

impl Print for Point3 {
    ghost lines = { printers.point3 };

    fn print<W: Sink>(&self, path: &str, writer: &mut TextWriter, sink: &mut W) {
        print_line(self, path, writer, sink);
    }
}

impl Print for Ref {
    ghost lines = { printers.reference };

    fn print<W: Sink>(&self, path: &str, writer: &mut TextWriter, sink: &mut W) {
        print_line(self, path, writer, sink);
    }
}

impl Print for ByteRun {
    ghost lines = { printers.text };

    fn print<W: Sink>(&self, path: &str, writer: &mut TextWriter, sink: &mut W) {
        print_line(self, path, writer, sink);
    }
}

/// Prints a member of what stands at a path.
pub(crate) fn print_member<T: Print, W: Sink>(
    value: &T,
    path: &str,
    name: &str,
    writer: &mut TextWriter,
    sink: &mut W,
)
    ensures { WritesText writer.old writer.new (W.taken sink.old) (W.taken sink.new) (W.faults sink.old) (W.faults sink.new) (printers.member path.now name.now T.lines value.now) }
{
    if path.is_empty() {
        value.print(name, writer, sink);
    } else {
        match format!(in writer.alloc; "{path}.{name}") {
            Ok(path) => value.print(&path, writer, sink),
            Err(_) => writer.fail_no_memory(),
        }
    }
}

/// Prints an element of the list at a path.
#[tactic(auto, using(dwg_text::proofs::Writing::writes_idle))]
fn print_element<T: Print, W: Sink>(
    element: &T,
    path: &str,
    index: usize,
    writer: &mut TextWriter,
    sink: &mut W,
)
    ensures { WritesText writer.old writer.new (W.taken sink.old) (W.taken sink.new) (W.faults sink.old) (W.faults sink.new) (T.lines (printers.element_path path.now index) element.now) }
{
    if writer.fault.is_some() {
        return;
    }
    match format!(in writer.alloc; "{path}[{index}]") {
        Ok(path) => element.print(&path, writer, sink),
        Err(_) => writer.fail_no_memory(),
    }
}

/// Prints the elements of the list at a path.
#[tactic(auto, using(dwg_text::proofs::Writing::writes_nothing))]
fn print_elements<T: Print, W: Sink>(
    elements: &[T],
    path: &str,
    writer: &mut TextWriter,
    sink: &mut W,
)
    ensures { WritesText writer.old writer.new (W.taken sink.old) (W.taken sink.new) (W.faults sink.old) (W.faults sink.new) (printers.listed T.lines path.now elements.now) }
{
    'elements: for index in 0..elements.len() {
        print_element(&elements[index], path, index, writer, sink);
    }
}

impl<T: Print> Print for Items<T> {
    ghost lines = { printers.listed T.lines };

    fn print<W: Sink>(&self, path: &str, writer: &mut TextWriter, sink: &mut W) {
        print_elements(self.as_slice(), path, writer, sink);
    }
}

impl<T: Print> Print for Option<T> {
    ghost lines = { printers.optional T.lines };

    #[tactic(auto, using(dwg_text::proofs::Writing::writes_nothing))]
    fn print<W: Sink>(&self, path: &str, writer: &mut TextWriter, sink: &mut W) {
        match self {
            Some(value) => value.print(path, writer, sink),
            None => {}
        }
    }
}
