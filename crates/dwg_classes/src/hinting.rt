//! What the classes say of a type number.

ghost use Rattle.std.specs.Prelude.{◌≡◌, ◌↔◌, ℕ};
ghost use Rattle.dwg_base.specs.FirstItem.{HaveOther};
ghost use Rattle.dwg_kinds.specs.declared.number.ClassHint.TheVariants.{Absent};
ghost use Rattle.dwg_classes.specs.FirstClass.{number_of, IsFirst};
ghost use Rattle.dwg_classes.specs.Hints.{hint_of_class, hint_at};

use crate::class::Class;
use crate::finding::find;
use dwg_kinds::ClassHint;

/// The item of a class that makes entities.
const ENTITIES: u16 = 498;

/// The item of a class that makes other objects.
const OBJECTS: u16 = 499;

/// What a class makes.
#[tactic(auto, unfolding(crate::specs::Hints::hint_of_class))]
pub(crate) fn hint_of(class: &Class) -> ClassHint
    ensures { result ≡ hint_of_class class.now }
{
    let name = class.dxf_name.as_slice();
    if class.item == ENTITIES {
        if name == b"LWPOLYLINE".as_slice() {
            ClassHint::LwPolyline
        } else {
            ClassHint::Entity
        }
    } else if class.item == OBJECTS {
        if name == b"XRECORD".as_slice() {
            ClassHint::XRecord
        } else {
            ClassHint::Object
        }
    } else {
        ClassHint::Other
    }
}

/// What the classes of a drawing say of a type number: the first class with it decides, and Absent comes exactly where none
/// has it (Open Design Specification, "Classes").
pub fn hint(classes: &[Class], number: u16) -> ClassHint
    ensures reported { result ≡ hint_at classes.now number }
    ensures absent { (result ≡ Absent) ↔ HaveOther number_of number classes.now }
    ensures first { (place : ℕ) (is : IsFirst classes.now number place) → result ≡ hint_of_class is.class }
{
    match find(classes, number) {
        Some(place) => hint_of(&classes[place]),
        None => ClassHint::Absent,
    }
}
