//! References as values.

ghost use Rattle.std.specs.Prelude.{◌≡◌, ◌<◌, IsTrue};
ghost use Rattle.std.specs.Option.{SomeIff};
ghost use Rattle.dwg_grammar.specs.Reference.{is_reference_code, reaches};

use dwg_base::Handle;
use std::marker::Model;

/// A reference of one object to another (Open Design Specification, "Handle references").
///
/// Codes 2 to 5 are soft owner, hard owner, soft pointer and hard pointer. 6 and 8 reach the handle next to the object's
/// own and the one before it, A one at or ahead of it, and C one at or after it. Contracts see a reference as its code
/// and the number of its target.
#[derive(Clone, Copy, Debug, PartialEq, Eq)]
pub struct Ref {
    /// What the reference is for, and how its target is given: 0 to 6, 8, 10 or 12.
    pub code: u8,
    /// The object that is named, always by its own handle.
    pub target: Handle,
}

impl Model for Ref {
    ghost use Rattle.std.specs.Prelude.{IsTrue};
    ghost use Rattle.dwg_grammar.specs.Reference.{Reference, is_reference_code};

    ghost Value = { Reference };

    ghost view = { λ reference. record { code = reference.code; target = reference.target } };

    ghost invariant = { λ reference. IsTrue (is_reference_code reference.code) };

    ghost inverse = { λ reference. record { code = reference.code; target = reference.target } };
}

impl Ref {
    /// The reference of a code to a target. None exactly where no reference has the code.
    pub fn new(code: u8, target: Handle) -> Option<Ref>
        ensures { SomeIff result (IsTrue (is_reference_code code)) (record { code = code; target = target }) }
    {
        match code {
            0..=6 | 8 | 10 | 12 => Some(Ref { code, target }),
            _ => None,
        }
    }

    /// Whether the code can give the target from the object of the handle `base`: 6 gives only the next handle, 8 only the
    /// one before, A none before `base`, C none after it, the others any.
    pub fn fits(&self, base: Handle) -> bool
        ensures { result ≡ reaches base self.now }
    {
        let base = base.value();
        let target = self.target.value();
        match self.code {
            0..=5 => true,
            6 => target == base + 1,
            8 => target + 1 == base,
            10 => base <= target,
            12 => target <= base,
            _ => false,
        }
    }
}
