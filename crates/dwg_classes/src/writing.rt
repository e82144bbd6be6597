//! Writing classes.

ghost use Rattle.std.specs.Prelude.{◌≡◌, ◌+◌, ◌*◌, ◌%◌, ◌^◌, ◌<◌, ◌≤◌, length};
ghost use Rattle.dwg_bits.specs.Sink.{Extends};
ghost use Rattle.dwg_grammar.specs.Codes.{tv};
ghost use Rattle.dwg_grammar.specs.ToEnd.{AreValues, short_all};
ghost use Rattle.dwg_classes.specs.Class.{IsClassText, IsClass, any_class, numbered_class};
ghost use Rattle.dwg_classes.specs.WrittenClasses.{IsWritable, AreWritable, padded};

use crate::class::Class;
use dwg_base::ByteRun;
use dwg_bits::BitSink;
use dwg_codes::{BitCode, CodeB, CodeBS, text_length, write_text};

/// How many bits a text of a class is written by.
#[tactic(auto, using(dwg_base::proofs::ByteLists::are_bytes))]
fn text_bits(text: &[u8]) -> u64
    requires { length text.now ≤ 65535 }
    ensures length { result ≡ length (tv.short text.now) }
    ensures few { result ≤ 18 + 8 * length text.now }
    ensures text { IsClassText text.now }
{
    text_length(text)
}

/// How many bits a class is written by.
#[tactic(auto, using(crate::proofs::ClassWriting::length_of_class))]
fn class_bits(class: &Class) -> u64
    requires { IsWritable class.now }
    ensures length { result ≡ length (any_class.short class.now) }
    ensures value { IsClass class.now }
{
    let number = class.number;
    let version = class.version;
    let item = class.item;
    CodeBS::length(&(), &number)
        + CodeBS::length(&(), &version)
        + text_bits(class.application.as_slice())
        + text_bits(class.cpp_name.as_slice())
        + text_bits(class.dxf_name.as_slice())
        + CodeB::length(&(), &class.proxy)
        + CodeBS::length(&(), &item)
}

/// Writes a text of a class.
fn write_name(name: &ByteRun, sink: &mut BitSink)
    requires name { length name.now ≤ 65535 }
    requires room { length (tv.short name.now) ≤ sink.old.spare }
    ensures { Extends sink.old sink.new (tv.short name.now) }
{
    write_text(name.as_slice(), sink);
}

/// Writes a class.
#[tactic(auto, using(crate::proofs::ClassWriting::class_written))]
fn write_class(class: &Class, sink: &mut BitSink)
    requires class { IsWritable class.now }
    requires room { length (any_class.short class.now) ≤ sink.old.spare }
    ensures { Extends sink.old sink.new (any_class.short class.now) }
{
    let number = class.number;
    let version = class.version;
    let item = class.item;
    CodeBS::write(&(), &number, sink);
    CodeBS::write(&(), &version, sink);
    write_name(&class.application, sink);
    write_name(&class.cpp_name, sink);
    write_name(&class.dxf_name, sink);
    CodeB::write(&(), &class.proxy, sink);
    CodeBS::write(&(), &item, sink);
}

/// How many bits classes are written by, without padding. Each has a number of at least 500 and texts of at most 65,535
/// bytes, and there are fewer than 2^62 bits in all; so each has a spelling.
pub fn classes_bits(classes: &[Class]) -> u64
    requires writable { AreWritable classes.now }
    requires few { length (short_all numbered_class classes.now) < 2 ^ 62 }
    ensures bits { result ≡ length (short_all numbered_class classes.now) }
    ensures values { AreValues numbered_class classes.now }
{
    let mut bits = 0;
    'classes: for class in classes {
        bits += class_bits(class);
    }
    bits
}

/// Writes classes, one after the other.
fn write_all(classes: &[Class], sink: &mut BitSink)
    requires writable { AreWritable classes.now }
    requires room { length (short_all numbered_class classes.now) ≤ sink.old.spare }
    ensures { Extends sink.old sink.new (short_all numbered_class classes.now) }
{
    'classes: for class in classes {
        write_class(class, sink);
    }
}

/// Writes classes, each by its shortest spelling, and pads them with zero bits to a byte. Each has a number of at least 500
/// and texts of at most 65,535 bytes, and there are fewer than 2^62 bits in all; the sink ends at a whole byte and has the
/// room.
pub fn write_classes(classes: &[Class], sink: &mut BitSink)
    requires writable { AreWritable classes.now }
    requires few { length (short_all numbered_class classes.now) < 2 ^ 62 }
    requires aligned { length sink.old.written % 8 ≡ 0 }
    requires room { length (padded classes.now) ≤ sink.old.spare }
    ensures { Extends sink.old sink.new (padded classes.now) }
{
    write_all(classes, sink);
    sink.pad();
}
