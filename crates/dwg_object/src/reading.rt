//! Reading bodies, in the strongest form that they have.

ghost use Rattle.std.specs.Prelude.{◌≡◌, ◌≢◌, ◌*◌, ◌^◌, ◌<◌, ◌↔◌, ◌⊎◌, ℕ, Bool, List, length, Ok, Some, None, IfOk, IfSome, IfNone, IsTrue};
ghost use Rattle.dwg_bits.specs.Bits.{bits};
ghost use Rattle.dwg_base.specs.declared.version.Version.TheVariants.{Ac1014};
ghost use Rattle.dwg_bits.specs.Cursor.{bits_between, rest};
ghost use Rattle.dwg_classes.specs.declared.class.Class.{Class};
ghost use Rattle.dwg_common.specs.BitSizes.{SpellsSize};
ghost use Rattle.dwg_grammar.specs.ToEnd.{ReadsToEnd};
ghost use Rattle.dwg_grammar.specs.Reference.{Reference};
ghost use Rattle.dwg_grammar.specs.ReferenceCodes.{reference};
ghost use Rattle.dwg_kinds.specs.declared.kind.Kind.TheVariants as kinds;
ghost use Rattle.dwg_object.specs.declared.reading.Rest.{Rest};
ghost use Rattle.dwg_object.specs.Forms.{CommonForm, FormOf, HasCommonForm, HasPlainForm, HasTypedForm, HasSize, kind_under};
ghost use Rattle.dwg_object.specs.Heads.{BeginsWithHead, IsHeadAt};
ghost use Rattle.dwg_object.specs.Objects.{IsBorrowedObject, PlainValue, parts_of, value_of};
ghost use Rattle.dwg_object.specs.OwnBits.{HasOwn};

use crate::body::Body;
use crate::common::Common;
use crate::head::{Head, HeadAt, head_of};
use crate::object::{Object, Plain, Raw, Typed};
use crate::object_layout::layout_in;
use dwg_base::{Handle, Items, NoMemory, Version};
use dwg_bits::{BitCursor, BitPart, BitSpan};
use dwg_classes::{Class, Hints};
use dwg_codes::BytePart;
use dwg_common::read_size;
use dwg_handles::{Ref, read_refs_to_end};
use dwg_kinds::{Kind, is_entity, kind_of};
use std::alloc::Global;

/// All bits that are left, as a span of the same bytes.
fn span_left<'a>(cursor: &BitCursor<'a>) -> BitSpan<'a>
    ensures { result ≡ rest cursor.now }
{
    let mut ahead = *cursor;
    match ahead.run(ahead.left()) {
        Some(span) => span,
        None => unreachable!(),
    }
}

/// The common part of a body, and what is left before the references and of these.
#[derive(Drop)]
struct CommonStart<'a> {
    /// The common part.
    common: Common,
    /// The bits after it before the references.
    main: BitCursor<'a>,
    /// The bits after its references.
    refs: BitCursor<'a>,
}

/// The bit size that AC1014 has after the head of a body, of an entity or of another object. None exactly where none is spelled there.
fn size_after(body: &[u8], found: &HeadAt, entity: bool) -> Option<u32>
    requires small { length body.now < 2 ^ 60 }
    requires head { IsHeadAt Ac1014 (bits body.now) (parts_of found.now.head) found.now.end }
    ensures some { IfSome result (λ size. SpellsSize entity found.now.head.own size (bits_between body.now found.now.end (8 * length body.now))) }
    ensures none { IfNone result ((size : ℕ) → SpellsSize entity found.now.head.own size (bits_between body.now found.now.end (8 * length body.now)) → ⊥) }
{
    let mut cursor = BitCursor::new(body, found.end, 8 * body.len() as u64);
    match read_size(&mut cursor, entity, found.head.own) {
        Some(size) => Some(size),
        None => None,
    }
}

/// The bit size of a body with this head, of an entity or of another object: in AC1015 the head has it. None exactly where none is reported.
fn size_of(version: Version, body: &[u8], found: &HeadAt, entity: bool) -> Option<u32>
    requires small { length body.now < 2 ^ 60 }
    requires head { IsHeadAt version (bits body.now) (parts_of found.now.head) found.now.end }
    ensures some { IfSome result (λ size. HasSize version entity (parts_of found.now.head) size (bits_between body.now found.now.end (8 * length body.now))) }
    ensures none { IfNone result ((size : ℕ) → HasSize version entity (parts_of found.now.head) size (bits_between body.now found.now.end (8 * length body.now)) → ⊥) }
{
    match version {
        Version::Ac1014 => size_after(body, found, entity),
        Version::Ac1015 => Some(found.head.size),
    }
}

/// Reads the common part of a body of a kind. None exactly where the body isn't cut into head, common part, own bits and
/// references. Err: out of memory.
fn read_prefix<'a>(
    alloc: Global,
    body: &'a [u8],
    version: Version,
    found: &HeadAt,
    kind: Kind,
) -> Result<Option<CommonStart<'a>>, NoMemory>
    requires small { length body.now < 2 ^ 60 }
    requires head { IsHeadAt version (bits body.now) (parts_of found.now.head) found.now.end }
    ensures form { IfOk result (λ read. IfSome read (λ prefix. (classes : List Class) → kind ≡ kind_under classes found.now.head.number → CommonForm version classes body.now found.now.head.number found.now.head.own prefix.common (rest prefix.main) (rest prefix.refs))) }
    ensures none { result ≡ Ok None → (classes : List Class) → kind ≡ kind_under classes found.now.head.number → HasCommonForm version classes body.now → ⊥ }
{
    let entity = is_entity(kind);
    let Some(reported) = size_of(version, body, found, entity) else {
        return Ok(None);
    };
    let size = u64::from(reported);
    let end = 8 * body.len() as u64;
    if size < found.end || end < size {
        return Ok(None);
    }
    let layout = layout_in(version, reported);
    let own = found.head.own;
    let mut main = BitCursor::new(body, found.end, size);
    let mut refs = BitCursor::new(body, size, end);
    let Some(common) = Common::parse(alloc, layout, entity, &mut main, &mut refs, own)? else {
        return Ok(None);
    };
    Ok(Some(CommonStart { common, main, refs }))
}

/// Whether all is read that a body of a kind has of its own: no bit is left of its own, and of the references fewer than eight.
fn is_read_out(main: &BitCursor<'_>, refs: &BitCursor<'_>) -> bool
    ensures { IsTrue result ↔ ((length (rest main.now) ≡ 0) × (length (rest refs.now) < 8)) }
{
    main.left() == 0 && refs.left() < 8
}

/// What stands after the common part of a body in its Plain form.
#[derive(Drop)]
struct Rest<'a> {
    /// The bits before the references.
    bits: BitSpan<'a>,
    /// The references.
    refs: Items<Ref>,
}

/// Reads what stands after the common part of a body in its Plain form. None exactly where the kind is unknown or what stands there
/// are no references. Err: out of memory.
fn read_rest<'a>(
    alloc: Global,
    prefix: &CommonStart<'a>,
    kind: Kind,
    own: Handle,
) -> Result<Option<Rest<'a>>, NoMemory>
    ensures known { IfOk result (λ read. IfSome read (λ after. kind ≢ kinds.Unknown)) }
    ensures bits { IfOk result (λ read. IfSome read (λ after. after.bits ≡ rest prefix.now.main)) }
    ensures refs { IfOk result (λ read. IfSome read (λ after. (left : List Bool) × ReadsToEnd 8 (reference own) (Some after.refs) (rest prefix.now.refs) left)) }
    ensures none { result ≡ Ok None → (kind ≡ kinds.Unknown) ⊎ ((left : List Bool) × ReadsToEnd {V = Reference} 8 (reference own) None (rest prefix.now.refs) left) }
{
    if kind == Kind::Unknown {
        return Ok(None);
    }
    let mut cursor = prefix.refs;
    let Some(refs) = read_refs_to_end(alloc, &mut cursor, own)? else {
        return Ok(None);
    };
    let bits = span_left(&prefix.main);
    Ok(Some(Rest { bits, refs }))
}

/// The object that keeps a body as its bytes, under the number and the own handle of its head.
fn raw_object<'a>(version: Version, found: &HeadAt, body: &'a [u8]) -> Object<'a>
    requires head { IsHeadAt version (bits body.now) (parts_of found.now.head) found.now.end }
    ensures form { (classes : List Class) → (HasPlainForm version classes body.now → ⊥) → (HasTypedForm version classes body.now → ⊥) → FormOf version classes body.now (value_of result) }
    ensures lent { IsBorrowedObject result }
{
    Object::Raw(Raw {
        number: found.head.number,
        handle: found.head.own,
        bytes: BytePart::Lent(body),
    })
}

/// The object of a body in its Plain form, which borrows its free bits.
fn plain_object<'a>(found: &HeadAt, common: Common, after: Rest<'a>) -> Object<'a>
    ensures value { value_of result ≡ PlainValue found.now.head.number found.now.head.own common after.entry.bits after.entry.refs }
    ensures lent { IsBorrowedObject result }
{
    Object::Plain(Plain {
        number: found.head.number,
        handle: found.head.own,
        common,
        rest: BitPart::Lent(after.bits),
        refs: after.refs,
    })
}

/// The object of a body that has no Typed form: in its Plain form where it has that, else as its bytes. Err: out of memory.
fn read_untyped<'a>(
    alloc: Global,
    body: &'a [u8],
    version: Version,
    found: &HeadAt,
    kind: Kind,
    prefix: CommonStart<'a>,
) -> Result<Object<'a>, NoMemory>
    requires head { IsHeadAt version (bits body.now) (parts_of found.now.head) found.now.end }
    requires form { (classes : List Class) → kind ≡ kind_under classes found.now.head.number → CommonForm version classes body.now found.now.head.number found.now.head.own prefix.common (rest prefix.main) (rest prefix.refs) }
    requires untyped { HasOwn version kind found.now.head.own (rest prefix.main) (rest prefix.refs) → ⊥ }
    ensures form { IfOk result (λ object. (classes : List Class) → kind ≡ kind_under classes found.now.head.number → FormOf version classes body.now (value_of object)) }
    ensures lent { IfOk result IsBorrowedObject }
{
    let Some(after) = read_rest(alloc, &prefix, kind, found.head.own)? else {
        return Ok(raw_object(version, found, body));
    };
    Ok(plain_object(found, prefix.common, after))
}

/// Reads a body of a kind, in the strongest form that it has: its parts are read one by one, and put together where the object is
/// answered. Err: out of memory.
fn read_kind<'a>(
    alloc: Global,
    body: &'a [u8],
    version: Version,
    found: &HeadAt,
    kind: Kind,
) -> Result<Object<'a>, NoMemory>
    requires small { length body.now < 2 ^ 60 }
    requires head { IsHeadAt version (bits body.now) (parts_of found.now.head) found.now.end }
    ensures form { IfOk result (λ object. (classes : List Class) → kind ≡ kind_under classes found.now.head.number → FormOf version classes body.now (value_of object)) }
    ensures lent { IfOk result IsBorrowedObject }
{
    let Head { number, own, .. } = found.head;
    let Some(prefix) = read_prefix(alloc, body, version, found, kind)? else {
        return Ok(raw_object(version, found, body));
    };
    // The laws of bodies ask that their base is a handle's number.
    let _base = own.value();
    let mut main = prefix.main;
    let mut refs = prefix.refs;
    match Body::parse(alloc, version, kind, &mut main, &mut refs, own)? {
        Some(value) if is_read_out(&main, &refs) => Ok(Object::Typed(Typed {
            number,
            handle: own,
            common: prefix.common,
            body: value,
        })),
        _ => read_untyped(alloc, body, version, found, kind, prefix),
    }
}

/// Reads a body that begins with this head, in the strongest form that it has under the classes of its drawing. Err: out of memory.
pub(crate) fn read_after_head<'a>(
    alloc: Global,
    body: &'a [u8],
    found: &HeadAt,
    hints: &Hints<'_>,
    version: Version,
) -> Result<Object<'a>, NoMemory>
    requires small { length body.now < 2 ^ 60 }
    requires head { IsHeadAt version (bits body.now) (parts_of found.now.head) found.now.end }
    ensures form { IfOk result (λ object. FormOf version hints.now body.now (value_of object)) }
    ensures lent { IfOk result IsBorrowedObject }
{
    let number = found.head.number;
    let kind = kind_of(number, hints.hint(number));
    read_kind(alloc, body, version, found, kind)
}

/// Reads a body of fewer than 2^60 bytes by the rules of a version, in the strongest form that it has under the classes of its
/// drawing: with its common part and the body of its kind, or with its common part and its references, or as its bytes, whichever
/// of these comes first. None exactly where the body has no head. Err: out of memory.
pub fn read_body_hinted<'a>(
    alloc: Global,
    body: &'a [u8],
    hints: &Hints<'_>,
    version: Version,
) -> Result<Option<Object<'a>>, NoMemory>
    requires { length body.now < 2 ^ 60 }
    // The object that the body is read as; there is one exactly where the body has a head.
    ensures form { IfOk result (λ found. IfSome found (λ object. FormOf version hints.now body.now (value_of object))) }
    ensures none { result ≡ Ok None → (number own : ℕ) → BeginsWithHead version (bits body.now) number own → ⊥ }

    // The free bits of a Plain object and the bytes of a Raw one are lent.
    ensures lent { IfOk result (λ found. IfSome found IsBorrowedObject) }
{
    let Some(found) = head_of(version, body) else {
        return Ok(None);
    };
    Ok(Some(read_after_head(alloc, body, &found, hints, version)?))
}

/// The same by the classes themselves: it makes a table of them, which who reads more than one body makes once.
pub fn read_body<'a>(
    alloc: Global,
    body: &'a [u8],
    classes: &[Class],
    version: Version,
) -> Result<Option<Object<'a>>, NoMemory>
    requires { length body.now < 2 ^ 60 }
    // The object that the body is read as; there is one exactly where the body has a head.
    ensures form { IfOk result (λ found. IfSome found (λ object. FormOf version classes.now body.now (value_of object))) }
    ensures none { result ≡ Ok None → (number own : ℕ) → BeginsWithHead version (bits body.now) number own → ⊥ }

    // The free bits of a Plain object and the bytes of a Raw one are lent.
    ensures lent { IfOk result (λ found. IfSome found IsBorrowedObject) }
{
    let hints = Hints::build(alloc, classes)?;
    read_body_hinted(alloc, body, &hints, version)
}
