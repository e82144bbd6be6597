//! A table of what the classes say, for drawings of many objects.

ghost use Rattle.std.specs.Prelude.{◌≡◌, ℕ, IfOk, OnOk, ◌==◌, Some, None, if◌then◌else◌};
ghost use Rattle.std.specs.Option.{option_or};
ghost use Rattle.std.specs.Ordering.{nat_cmp};
ghost use Rattle.std.specs.BTreeMap as tree;
ghost use Rattle.dwg_classes.specs.Firsts.{AreFirsts};
ghost use Rattle.dwg_classes.specs.Hints.{hint_of_class, hint_at};

use crate::class::Class;
use crate::hinting::hint_of;
use dwg_base::NoMemory;
use dwg_kinds::ClassHint;
use std::alloc::Global;
use std::collections::BTreeMap;
use std::marker::Model;

/// Classes, with what they say of each type number: contracts see the classes. What they say is reported in as many steps as an
/// ordered map takes, however many classes there are, and memory grows with the numbers that differ.
#[derive(Drop)]
pub struct Hints<'c> {
    classes: &'c [Class],
    // What the first class of each number says.
    firsts: BTreeMap<u16, ClassHint>,
}

impl<'c> Model for Hints<'c> {
    ghost use Rattle.std.specs.Prelude.{List};
    ghost use Rattle.dwg_classes.specs.declared.class.Class.{Class};

    ghost Value = { List Class };

    ghost use Rattle.dwg_classes.specs.Firsts.{AreFirsts};

    ghost view = { λ hints. hints.classes.now };

    ghost invariant = { λ hints. AreFirsts hints.classes.now hints.firsts };
}

/// Notes what a class says of its number, where nothing is noted of that yet. Err: out of memory.
fn note(firsts: &mut BTreeMap<u16, ClassHint>, class: &Class) -> Result<(), NoMemory>
    ensures { OnOk result ((number : ℕ) → tree.get nat_cmp firsts.new number ≡ option_or (tree.get nat_cmp firsts.old number) (if class.now.number == number then Some (hint_of_class class.now) else None)) }
{
    if firsts.contains_key(&class.number) {
        return Ok(());
    }
    firsts.insert(class.number, hint_of(class))?;
    Ok(())
}

/// What the first class of each number says.
fn firsts_of(alloc: Global, classes: &[Class]) -> Result<BTreeMap<u16, ClassHint>, NoMemory>
    ensures { IfOk result (AreFirsts classes.now) }
{
    let mut firsts = BTreeMap::new(alloc);
    'classes: for class in classes {
        note(&mut firsts, class)?;
    }
    Ok(firsts)
}

impl<'c> Hints<'c> {
    /// The table of the classes. Err: out of memory.
    pub fn build(alloc: Global, classes: &'c [Class]) -> Result<Hints<'c>, NoMemory>
        ensures { IfOk result (λ hints. hints ≡ classes.now) }
    {
        let firsts = firsts_of(alloc, classes)?;
        Ok(Hints { classes, firsts })
    }

    /// What the classes say of a type number.
    #[tactic(auto, using(crate::proofs::FirstHints::some_noted, crate::proofs::FirstHints::none_noted))]
    pub fn hint(&self, number: u16) -> ClassHint
        ensures { result ≡ hint_at self.now number }
    {
        match self.firsts.get(&number) {
            Some(hint) => *hint,
            None => ClassHint::Absent,
        }
    }
}
