//! Objects as values.

ghost use Rattle.std.specs.Prelude.{◌≡◌};
ghost use Rattle.dwg_object.specs.Objects.{handle_of, kind_of, hint_of_common, number_of, value_of};

use crate::body::Body;
use crate::common::Common;
use dwg_base::{Handle, Items};
use dwg_bits::BitPart;
use dwg_codes::BytePart;
use dwg_handles::Ref;
use dwg_kinds::{ClassHint, Kind, kind_of};

/// An object whose kind has a body, all of which is read.
#[derive(Drop)]
pub struct Typed {
    /// The type number in its head.
    pub number: u16,
    /// Its own handle, positive in a drawing.
    pub handle: Handle,
    /// What all entities have, or all other objects; in a drawing an entity's exactly where the body's kind is one.
    pub common: Common,
    /// What it has of its own.
    pub body: Body,
}

/// An object whose common part is read, while its own bits are kept as they are.
#[derive(Drop)]
pub struct Plain<'a> {
    /// The type number in its head.
    pub number: u16,
    /// Its own handle, positive in a drawing.
    pub handle: Handle,
    /// What all entities have, or all other objects.
    pub common: Common,
    /// The bits between the common part and the references.
    pub rest: BitPart<'a>,
    /// The references after those of the common part.
    pub refs: Items<Ref>,
}

/// An object whose body is kept as its bytes.
#[derive(Drop)]
pub struct Raw<'a> {
    /// The type number in its head.
    pub number: u16,
    /// Its own handle, positive in a drawing.
    pub handle: Handle,
    /// The whole body, head included.
    pub bytes: BytePart<'a>,
}

/// An object of a drawing, in the strongest form in which it could be read.
pub enum Object<'a> {
    /// Its common part and the body of its kind.
    Typed(Typed),
    /// Its common part and its references, with its own bits as they are.
    Plain(Plain<'a>),
    /// Its bytes alone.
    Raw(Raw<'a>),
}

impl Drop for Object<'_> {
    // Written for the same reason as a body's.
    fn drop(self) {
        match self {
            Object::Typed(_typed) => (),
            Object::Plain(_plain) => (),
            Object::Raw(_raw) => (),
        }
    }
}

/// What a common part says of its object, as a class would.
fn hint_of(common: &Common) -> ClassHint
    ensures { result ≡ hint_of_common common.now }
{
    match common {
        Common::Entity(_) => ClassHint::Entity,
        Common::Object(_) => ClassHint::Object,
    }
}

impl Object<'_> {
    /// The object's own handle.
    pub fn handle(&self) -> Handle
        ensures { result ≡ handle_of (value_of self.now) }
    {
        match self {
            Object::Typed(typed) => typed.handle,
            Object::Plain(plain) => plain.handle,
            Object::Raw(raw) => raw.handle,
        }
    }

    /// The object's type number.
    pub fn number(&self) -> u16
        ensures { result ≡ number_of (value_of self.now) }
    {
        match self {
            Object::Typed(typed) => typed.number,
            Object::Plain(plain) => plain.number,
            Object::Raw(raw) => raw.number,
        }
    }

    /// The object's kind: where its body is read, the body's, and else by its number. From 500 on an object whose common part
    /// alone is read is an entity or another object as that part is, and one that is kept as its bytes is unknown.
    pub fn kind(&self) -> Kind
        ensures { result ≡ kind_of (value_of self.now) }
    {
        match self {
            Object::Typed(typed) => typed.body.kind(),
            Object::Plain(plain) => kind_of(plain.number, hint_of(&plain.common)),
            Object::Raw(raw) => kind_of(raw.number, ClassHint::Absent),
        }
    }
}
