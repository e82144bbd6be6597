//! Type numbers: the kind that each stands for.

ghost use Rattle.std.specs.Prelude.{◌≡◌, ◌<◌};
ghost use Rattle.dwg_kinds.specs.Kinds.{hinted_kind_of, kind_at};

use crate::kind::{Kind, fixed_kind};

/// What the classes of a drawing say of a type number from 500 on.
#[derive(Clone, Copy, Debug, PartialEq, Eq)]
pub enum ClassHint {
    /// No class has the number.
    Absent,
    /// Its class makes entities.
    Entity,
    /// Its class makes other objects.
    Object,
    /// Its class makes polylines in a plane.
    LwPolyline,
    /// Its class makes records of free data.
    XRecord,
    /// Its class says neither.
    Other,
}

/// The least number that a class can have.
const LEAST_CLASS_NUMBER: u16 = 500;

/// The kind of a number that a class can have, by what its class says.
#[tactic(auto, unfolding(crate::specs::Kinds::hinted_kind_of))]
fn hinted_kind(hint: ClassHint) -> Kind
    ensures { result ≡ hinted_kind_of hint }
{
    match hint {
        ClassHint::Entity => Kind::PlainEntity,
        ClassHint::Object => Kind::PlainObject,
        ClassHint::LwPolyline => Kind::LwPolyline,
        ClassHint::XRecord => Kind::XRecord,
        ClassHint::Absent | ClassHint::Other => Kind::Unknown,
    }
}

/// The kind that a type number stands for: from 500 on what its class says, and below whatever the hint (Open Design
/// Specification, "R13 to R2000 file layout, object data").
#[tactic(auto, unfolding(crate::specs::Kinds::kind_at))]
pub fn kind_of(number: u16, hint: ClassHint) -> Kind
    ensures { result ≡ kind_at number hint }
{
    if number < LEAST_CLASS_NUMBER {
        fixed_kind(number)
    } else {
        hinted_kind(hint)
    }
}
