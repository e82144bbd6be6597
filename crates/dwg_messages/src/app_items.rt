//! Items, a line each.

ghost use Rattle.std.specs.Prelude.{◌++◌, codes};
ghost use Rattle.dwg_text.specs.Writing.{WritesText};
ghost use Rattle.dwg_text.specs.Values.{bytes_text};
ghost use Rattle.dwg_text.specs.Lines.{line, quoted};
ghost use Rattle.dwg_messages.specs.AppText as texts;

use crate::paragraphs::Paragraph;
use dwg_appitems::AppItem;
use dwg_base::{ByteRun, Sink};
use dwg_text::{Count, Hexadecimal, TextWriter, Value, write_bytes, write_line};

/// Writes a line: what stands before bytes, and the bytes.
pub(crate) fn write_bytes_line<W: Sink>(
    prefix: &str,
    bytes: &[u8],
    writer: &mut TextWriter,
    sink: &mut W,
)
    ensures { WritesText writer.old writer.new (W.taken sink.old) (W.taken sink.new) (W.faults sink.old) (W.faults sink.new) (line (prefix.now ++ bytes_text bytes.now)) }
{
    writer.write(prefix, sink);
    write_bytes(bytes, writer, sink);
    writer.write("\n", sink);
}

/// Writes a text: its mark and its bytes.
fn write_text<W: Sink>(mark: &[u8; 2], text: &ByteRun, writer: &mut TextWriter, sink: &mut W)
    ensures { WritesText writer.old writer.new (W.taken sink.old) (W.taken sink.new) (W.faults sink.old) (W.faults sink.new) (line (codes "  text " ++ bytes_text mark.now ++ codes " " ++ quoted text.now)) }
{
    writer.write("  text ", sink);
    write_bytes(mark, writer, sink);
    writer.write(" ", sink);
    writer.write_value(text, sink);
    writer.write("\n", sink);
}

/// Writes a line: what stands before a code, the code of this code byte as it is printed, and a value.
fn write_coded<T: Value, W: Sink>(
    prefix: &str,
    code: u8,
    value: &T,
    writer: &mut TextWriter,
    sink: &mut W,
)
    ensures { WritesText writer.old writer.new (W.taken sink.old) (W.taken sink.new) (W.faults sink.old) (W.faults sink.new) (line (prefix.now ++ texts.code_text code ++ codes " " ++ T.printed value.now)) }
{
    writer.write(prefix, sink);
    writer.write_value(&Count(1000 + u64::from(code)), sink);
    writer.write(" ", sink);
    writer.write_value(value, sink);
    writer.write("\n", sink);
}

impl Paragraph for AppItem {
    ghost written = { texts.item_line };

    #[tactic(auto, unfolding(crate::specs::AppText::item_line))]
    fn write<W: Sink>(&self, writer: &mut TextWriter, sink: &mut W) {
        match self {
            AppItem::Text { mark, text } => write_text(mark, text, writer, sink),
            AppItem::Brace { close } => write_line("  brace ", close, writer, sink),
            AppItem::Layer { handle } => {
                write_line("  layer ", &Hexadecimal(*handle), writer, sink);
            }
            AppItem::Bytes { bytes } => write_bytes_line(
                "  bytes ",
                bytes.as_slice(),
                writer,
                sink,
            ),
            AppItem::Object { handle } => {
                write_line("  object ", &Hexadecimal(*handle), writer, sink);
            }
            AppItem::Point { code, words } => write_coded("  point ", *code, words, writer, sink),
            AppItem::Word { code, value } => write_coded("  word ", *code, value, writer, sink),
            AppItem::Short { value } => write_line("  short ", value, writer, sink),
            AppItem::Long { value } => write_line("  long ", value, writer, sink),
        }
    }
}
