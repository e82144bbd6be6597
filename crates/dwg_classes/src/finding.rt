//! Classes by their numbers.

ghost use Rattle.std.specs.Prelude.{◌≡◌, ◌==◌, position, IfSome, IfNone};
ghost use Rattle.dwg_base.specs.FirstItem.{HaveOther};
ghost use Rattle.dwg_classes.specs.FirstClass.{number_of, IsFirst};

use crate::class::Class;

/// The first place in the list at which the number stands.
fn first_place(classes: &[Class], number: u16) -> Option<usize>
    ensures { result ≡ position (λ class. class.number == number) classes.now }
{
    classes.iter().position(|class| class.number == number)
}

/// The place in the list of the first class with this number. None exactly where no class has it.
#[tactic(auto, using(crate::proofs::ClassFinding::found_some, crate::proofs::ClassFinding::found_none))]
pub fn find(classes: &[Class], number: u16) -> Option<usize>
    ensures place { result ≡ position (λ class. class.number == number) classes.now }
    ensures first { IfSome result (IsFirst classes.now number) }
    ensures none { IfNone result (HaveOther number_of number classes.now) }
{
    first_place(classes, number)
}
