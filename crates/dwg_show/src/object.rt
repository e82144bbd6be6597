//! The text of an object.

ghost use Rattle.std.specs.Prelude.{◌≡◌, ◌%◌, ◌^◌, ◌<◌, [], ◌++◌, codes, length, IfOk, IfSome, string_bytes};
ghost use Rattle.dwg_bits.specs.Bits.{bits};
ghost use Rattle.dwg_bits.specs.Parts.{part_bits};
ghost use Rattle.dwg_bits.specs.Sink.{padding};
ghost use Rattle.dwg_bits.specs.WholeBytes.{whole_bytes};
ghost use Rattle.dwg_object.specs.Objects.{value_of};
ghost use Rattle.dwg_show.specs.BodyFields.{body_fields};
ghost use Rattle.dwg_show.specs.Fields as printers;
ghost use Rattle.dwg_show.specs.FewBits.{HasFewBits};
ghost use Rattle.dwg_show.specs.ObjectText as texts;
ghost use Rattle.dwg_text.specs.Writing.{WritesText};

use crate::bytes::print_slice;
use crate::fields::{Print, print_member};
use crate::paragraphs::Paragraph;
use dwg_base::Sink;
use dwg_bits::{BitPart, BitSink};
use dwg_kinds::name_of;
use dwg_object::{Body, Common, Object, match_body};
use dwg_text::{Count, TextWriter};
use std::alloc::{AllocError, Global};

impl Print for Common {
    ghost lines = { texts.common_fields };

    #[tactic(auto, unfolding(crate::specs::ObjectText::common_fields))]
    fn print<W: Sink>(&self, path: &str, writer: &mut TextWriter, sink: &mut W) {
        match self {
            Common::Entity(common) => common.print(path, writer, sink),
            Common::Object(common) => common.print(path, writer, sink),
        }
    }
}

impl Print for Body {
    ghost lines = { body_fields };

    #[tactic(auto, unfolding(crate::specs::BodyFields::body_fields))]
    fn print<W: Sink>(&self, path: &str, writer: &mut TextWriter, sink: &mut W) {
        match_body!(body self, body => body.print(path, writer, sink))
    }
}

/// The form of an object.
fn form_word(object: &Object<'_>) -> &'static str
    ensures { result.now ≡ texts.form_word (value_of object.now) }
{
    match object {
        Object::Typed(_) => "typed",
        Object::Plain(_) => "plain",
        Object::Raw(_) => "raw",
    }
}

/// The line that an object begins with. Err: out of memory.
#[tactic(auto, unfolding(crate::specs::ObjectText::head_line))]
fn head_line(alloc: Global, object: &Object<'_>) -> Result<String, AllocError>
    ensures { IfOk result (λ line. string_bytes line ≡ texts.head_line (value_of object.now)) }
{
    let handle = object.handle().value();
    let number = object.number();
    let mut line = format!(in alloc; "object {handle:X} ")?;
    line.push_str(name_of(object.kind()))?;
    line.push_str(" ")?;
    line.push_str(form_word(object))?;
    write!(line, " {number}")?;
    line.push_str("\n")?;
    Ok(line)
}

/// Bits in a sink, with zero bits up to a whole byte. None: out of memory.
fn padded(alloc: Global, bits: &BitPart<'_>) -> Option<BitSink>
    requires { length (part_bits bits.now) < 2 ^ 32 }
    ensures { IfSome result (λ sink. sink.written ≡ part_bits bits.now ++ padding (part_bits bits.now)) }
{
    let mut sink = BitSink::new(alloc);
    if !sink.reserve(bits.length() + 7) {
        return None;
    }
    sink.push_part(bits);
    sink.pad();
    Some(sink)
}

/// Bytes as they are: a parameter's are known to be bytes, so that they follow from their bits.
fn whole_of(bytes: &[u8]) -> &[u8]
    ensures { result.now ≡ whole_bytes (bits bytes.now) }
{
    bytes
}

/// The bytes of a sink.
fn bytes_of(sink: &BitSink) -> &[u8]
    requires { length sink.now.written % 8 ≡ 0 }
    ensures { result.now ≡ whole_bytes sink.now.written }
{
    whole_of(sink.as_bytes())
}

/// Prints the own bits of an object.
fn print_rest<W: Sink>(bits: &BitPart<'_>, writer: &mut TextWriter, sink: &mut W)
    requires { length (part_bits bits.now) < 2 ^ 32 }
    ensures { WritesText writer.old writer.new (W.taken sink.old) (W.taken sink.new) (W.faults sink.old) (W.faults sink.new) (printers.member [] (codes "rest") printers.bytes (whole_bytes (part_bits bits.now ++ padding (part_bits bits.now)))) }
{
    match padded(writer.alloc, bits) {
        Some(whole) => print_slice(bytes_of(&whole), "", "rest", writer, sink),
        None => writer.fail_no_memory(),
    }
}

/// Prints the fields of an object.
#[tactic(auto, using(crate::proofs::Runs::writes_2, crate::proofs::Runs::writes_4), unfolding(crate::specs::ObjectText::object_fields))]
fn print_fields<W: Sink>(object: &Object<'_>, writer: &mut TextWriter, sink: &mut W)
    requires { HasFewBits (value_of object.now) }
    ensures { WritesText writer.old writer.new (W.taken sink.old) (W.taken sink.new) (W.faults sink.old) (W.faults sink.new) (texts.object_fields (value_of object.now)) }
{
    match object {
        Object::Typed(typed) => {
            typed.common.print("", writer, sink);
            typed.body.print("", writer, sink);
        }
        Object::Plain(plain) => {
            plain.common.print("", writer, sink);
            print_member(&Count(plain.rest.length()), "", "bits", writer, sink);
            print_rest(&plain.rest, writer, sink);
            print_member(&plain.refs, "", "refs", writer, sink);
        }
        Object::Raw(raw) => print_slice(raw.bytes.as_slice(), "", "bytes", writer, sink),
    }
}

impl Paragraph for Object<'_> {
    ghost can_write = { λ object. HasFewBits (value_of object) };

    ghost written = { λ object. texts.object_text (value_of object) };

    #[tactic(auto, using(dwg_text::proofs::Writing::writes_idle), unfolding(crate::specs::ObjectText::object_text))]
    fn write<W: Sink>(&self, writer: &mut TextWriter, sink: &mut W) {
        if writer.fault.is_some() {
            return;
        }
        writer.write_made(head_line(writer.alloc, self), sink);
        print_fields(self, writer, sink);
    }
}
