//! What the codes of references mean: 0 to 5 give a handle, and 6, 8, A and C are relative to the object that refers (Open Design
//! Specification, "Handle references").

ghost use Rattle.std.specs.Prelude.{ℕ, IfSome, IfNone};
ghost use Rattle.dwg_grammar.specs.Reference.{GivesTarget};

use crate::reference_parts::ReferenceParts;
use dwg_base::Handle;

impl ReferenceParts {
    /// The target that the parts give, seen from the object of the handle `base`. None exactly where they give none.
    pub(crate) fn target(&self, base: Handle) -> Option<Handle>
        ensures resolved { IfSome result (λ target. GivesTarget base self.now.code self.now.count self.now.number target) }
        ensures unresolved { IfNone result ((target : ℕ) → GivesTarget base self.now.code self.now.count self.now.number target → ⊥) }
    {
        let base = base.value();
        match self.code {
            0..=5 => Handle::new(self.number),
            6 if self.count == 0 => Handle::new(base + 1),
            8 if self.count == 0 => Handle::new(base.checked_sub(1)?),
            10 => Handle::new(base.checked_add(self.number)?),
            12 => Handle::new(base.checked_sub(self.number)?),
            _ => None,
        }
    }
}
