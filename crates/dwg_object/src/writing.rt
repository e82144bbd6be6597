//! Frames as they are written.

ghost use Rattle.std.specs.Prelude.{◌≡◌, ◌+◌, ◌*◌, ◌/◌, ◌%◌, ◌^◌, ◌<◌, ◌≤◌, drop, length};
ghost use Rattle.dwg_base.specs.Bytes.{AreBytes};
ghost use Rattle.dwg_bits.specs.Bits.{bits};
ghost use Rattle.dwg_bits.specs.Sink.{Extends};
ghost use Rattle.dwg_bits.specs.WholeBytes.{whole_bytes};
ghost use Rattle.dwg_check.specs.CheckWord.{CHECK_SEED, check_word};
ghost use Rattle.dwg_object.specs.Forms.{common_part, layout_in};
ghost use Rattle.dwg_object.specs.Frames.{frame_bytes, sized};
ghost use Rattle.dwg_object.specs.Objects.{is_of_entity, value_of};
ghost use Rattle.dwg_object.specs.Written.{PartsFit, body_bytes, prefix_bits, object_bytes, refs_bits};

use crate::common::Common;
use crate::head::{head_length, write_head};
use crate::object::Object;
use crate::part::Part;
use crate::span::CHECK_SIZE;
use dwg_base::{Handle, Version, bytes_after, bytes_with_range};
use dwg_bits::BitSink;
use dwg_check::{CHECK_SEED, check};
use dwg_codes::{ms_bytes, write_ms};

/// What an object is written by.
#[derive(Clone, Copy)]
struct ObjectLengths {
    /// How many bits stand before the references.
    prefix: u64,
    /// How many bytes there are in all.
    bytes: u64,
}

/// What an object is written by.
#[tactic(auto, using(crate::proofs::WrittenLemmas::prefix_long, crate::proofs::WrittenLemmas::refs_long, crate::proofs::WrittenLemmas::object_long, crate::proofs::FrameWriting::object_small))]
fn object_lengths<P: Part>(
    version: Version,
    number: u16,
    handle: Handle,
    common: &Common,
    own: &P,
) -> ObjectLengths
    requires positive { 0 < handle }
    requires common { (common_part (layout_in version 0) (is_of_entity common.now) handle).Fits common.now }
    requires own { P.PartFits version handle own.now }
    requires few { length (object_bytes version number handle common.now (P.main version handle own.now) (P.refs version handle own.now)) < 2 ^ 29 }
    ensures prefix { result.prefix ≡ length (prefix_bits version number handle common.now (P.main version handle own.now)) }
    ensures few { result.prefix < 2 ^ 32 }
    ensures bytes { result.bytes ≡ length (object_bytes version number handle common.now (P.main version handle own.now) (P.refs version handle own.now)) }
{
    let shared = common.lengths(version, handle);
    let owned = own.lengths(version, handle);
    let prefix = head_length(version, number, handle) + shared.main + owned.main;
    let refs = shared.refs + owned.refs;
    ObjectLengths {
        prefix,
        bytes: (prefix + refs).div_ceil(8),
    }
}

/// Writes what stands before the references: head, common part, its own bits; together as many bits as the head says.
#[tactic(auto, using(crate::proofs::WrittenLemmas::prefix_long, crate::proofs::WrittenLemmas::head_long_written, crate::proofs::WrittenLemmas::sized_long))]
fn write_prefix<P: Part>(
    version: Version,
    number: u16,
    handle: Handle,
    common: &Common,
    own: &P,
    size: u32,
    sink: &mut BitSink,
)
    requires positive { 0 < handle }
    requires common { (common_part (layout_in version 0) (is_of_entity common.now) handle).Fits common.now }
    requires own { P.PartFits version handle own.now }
    requires size { size ≡ length (prefix_bits version number handle common.now (P.main version handle own.now)) }
    requires room { length (prefix_bits version number handle common.now (P.main version handle own.now)) ≤ sink.old.spare }
    ensures { Extends sink.old sink.new (prefix_bits version number handle common.now (P.main version handle own.now)) }
{
    write_head(version, number, size, handle, sink);
    common.write_main(version, size, handle, sink);
    own.write_main(version, handle, sink);
}

/// Writes the references: those of the common part, and its own.
#[tactic(auto, using(crate::proofs::WrittenLemmas::refs_long))]
fn write_references<P: Part>(
    version: Version,
    handle: Handle,
    common: &Common,
    own: &P,
    sink: &mut BitSink,
)
    requires common { (common_part (layout_in version 0) (is_of_entity common.now) handle).Fits common.now }
    requires own { P.PartFits version handle own.now }
    requires few { length (refs_bits version handle common.now (P.refs version handle own.now)) < 2 ^ 32 }
    requires room { length (refs_bits version handle common.now (P.refs version handle own.now)) ≤ sink.old.spare }
    ensures { Extends sink.old sink.new (refs_bits version handle common.now (P.refs version handle own.now)) }
{
    common.write_refs(version, handle, sink);
    own.write_refs(version, handle, sink);
}

/// How many bytes an object is written by.
#[tactic(auto, using(dwg_bits::proofs::WholeBytes::whole_are_bytes))]
fn parts_length<P: Part>(
    version: Version,
    number: u16,
    handle: Handle,
    common: &Common,
    own: &P,
) -> u64
    requires positive { 0 < handle }
    requires common { (common_part (layout_in version 0) (is_of_entity common.now) handle).Fits common.now }
    requires own { P.PartFits version handle own.now }
    requires few { length (object_bytes version number handle common.now (P.main version handle own.now) (P.refs version handle own.now)) < 2 ^ 29 }
    ensures length { result ≡ length (object_bytes version number handle common.now (P.main version handle own.now) (P.refs version handle own.now)) }
    ensures bytes { AreBytes (object_bytes version number handle common.now (P.main version handle own.now) (P.refs version handle own.now)) }
{
    object_lengths(version, number, handle, common, own).bytes
}

/// Writes an object at a whole byte, after its length in the fewest units and with zero bits up to a whole byte. It is measured
/// once.
#[tactic(auto, using(crate::proofs::FrameWriting::object_small, crate::proofs::WrittenLemmas::object_long, crate::proofs::FrameWriting::object_room, crate::proofs::FrameWriting::room_after_size, dwg_bits::proofs::BitLaws::length_of_bits, dwg_bits::proofs::WholeBytes::whole_are_bytes))]
fn write_sized_parts<P: Part>(
    version: Version,
    number: u16,
    handle: Handle,
    common: &Common,
    own: &P,
    sink: &mut BitSink,
)
    requires positive { 0 < handle }
    requires common { (common_part (layout_in version 0) (is_of_entity common.now) handle).Fits common.now }
    requires own { P.PartFits version handle own.now }
    requires few { length (object_bytes version number handle common.now (P.main version handle own.now) (P.refs version handle own.now)) < 2 ^ 29 }
    requires aligned { length sink.old.written % 8 ≡ 0 }
    requires room { 8 * length (sized (object_bytes version number handle common.now (P.main version handle own.now) (P.refs version handle own.now))) ≤ sink.old.spare }
    ensures written { Extends sink.old sink.new (bits (sized (object_bytes version number handle common.now (P.main version handle own.now) (P.refs version handle own.now)))) }
    ensures bytes { AreBytes (object_bytes version number handle common.now (P.main version handle own.now) (P.refs version handle own.now)) }
{
    let lengths = object_lengths(version, number, handle, common, own);
    write_ms(lengths.bytes, sink);
    write_prefix(
        version,
        number,
        handle,
        common,
        own,
        lengths.prefix as u32,
        sink,
    );
    write_references(version, handle, common, own, sink);
    sink.pad();
}

/// Writes bytes at a whole byte, after their length in the fewest units.
#[tactic(auto, using(crate::proofs::FrameWriting::sized_room, dwg_bits::proofs::BitLaws::length_of_bits))]
fn write_sized_bytes(bytes: &[u8], sink: &mut BitSink)
    requires few { length bytes.now < 2 ^ 29 }
    requires room { 8 * length (sized bytes.now) ≤ sink.old.spare }
    ensures { Extends sink.old sink.new (bits (sized bytes.now)) }
{
    write_ms(bytes.len() as u64, sink);
    sink.push_bytes(bytes);
}

impl Object<'_> {
    /// How many bytes the body is written by.
    fn body_length(&self, version: Version) -> u64
        requires fits { PartsFit version (value_of self.now) }
        requires few { length (body_bytes version (value_of self.now)) < 2 ^ 29 }
        ensures length { result ≡ length (body_bytes version (value_of self.now)) }
        ensures bytes { AreBytes (body_bytes version (value_of self.now)) }
    {
        match self {
            Object::Typed(typed) => parts_length(
                version,
                typed.number,
                typed.handle,
                &typed.common,
                &typed.body,
            ),
            Object::Plain(plain) => parts_length(
                version,
                plain.number,
                plain.handle,
                &plain.common,
                plain,
            ),
            Object::Raw(raw) => bytes_with_range(raw.bytes.as_slice()).len() as u64,
        }
    }

    /// Writes the body at a whole byte, after its length in the fewest units.
    fn write_sized_body(&self, version: Version, sink: &mut BitSink)
        requires fits { PartsFit version (value_of self.now) }
        requires few { length (body_bytes version (value_of self.now)) < 2 ^ 29 }
        requires aligned { length sink.old.written % 8 ≡ 0 }
        requires room { 8 * length (sized (body_bytes version (value_of self.now))) ≤ sink.old.spare }
        ensures written { Extends sink.old sink.new (bits (sized (body_bytes version (value_of self.now)))) }
        ensures bytes { AreBytes (body_bytes version (value_of self.now)) }
    {
        match self {
            Object::Typed(typed) => {
                write_sized_parts(
                    version,
                    typed.number,
                    typed.handle,
                    &typed.common,
                    &typed.body,
                    sink,
                )
            }
            Object::Plain(plain) => {
                write_sized_parts(
                    version,
                    plain.number,
                    plain.handle,
                    &plain.common,
                    plain,
                    sink,
                )
            }
            Object::Raw(raw) => write_sized_bytes(bytes_with_range(raw.bytes.as_slice()), sink),
        }
    }
}

/// How many bytes the frame of an object is written by in a version: a length in the fewest units, the body, a check word.
#[tactic(auto, using(crate::proofs::FormLaws::length_of_frame))]
pub fn frame_length(object: &Object<'_>, version: Version) -> u64
    requires fits { PartsFit version (value_of object.now) }
    requires few { length (body_bytes version (value_of object.now)) < 2 ^ 29 }
    ensures length { result ≡ length (frame_bytes version (value_of object.now)) }
    ensures few { result < 2 ^ 30 }
{
    let length = object.body_length(version);
    ms_bytes(length) as u64 + length + CHECK_SIZE
}

/// The check word of what was written after so many whole bytes.
#[tactic(auto, using(crate::proofs::FrameWriting::sink_bytes, dwg_bits::proofs::BitLaws::length_of_bits))]
fn word_after(sink: &BitSink, from: u64) -> u16
    requires aligned { length sink.now.written % 8 ≡ 0 }
    requires within { 8 * from ≤ length sink.now.written }
    ensures { result ≡ check_word CHECK_SEED (drop from (whole_bytes sink.now.written)) }
{
    check(
        CHECK_SEED,
        bytes_after(bytes_with_range(sink.as_bytes()), from as usize),
    )
}

/// Writes the frame of an object in a version at a whole byte: a length in the fewest units, the body, a check word.
#[tactic(auto, using(crate::proofs::FrameWriting::frame_room, dwg_bits::proofs::BitLaws::length_of_bits, crate::proofs::FrameWriting::aligned_after))]
pub fn write_frame(object: &Object<'_>, version: Version, sink: &mut BitSink)
    requires fits { PartsFit version (value_of object.now) }
    requires few { length (body_bytes version (value_of object.now)) < 2 ^ 29 }
    requires aligned { length sink.old.written % 8 ≡ 0 }
    requires room { 8 * length (frame_bytes version (value_of object.now)) ≤ sink.old.spare }
    ensures { Extends sink.old sink.new (bits (frame_bytes version (value_of object.now))) }
{
    let from = sink.length() / 8;
    object.write_sized_body(version, sink);
    let word = word_after(sink, from);
    sink.push_bytes(&word.to_le_bytes());
}
