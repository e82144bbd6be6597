//! Laws of references and own handles, as the contract of a function without code.

ghost use Rattle.std.specs.Prelude.{◌≡◌, ◌^◌, ◌<◌, ◌↔◌, ℕ, true, Bool, List};
ghost use Rattle.dwg_grammar.specs.Combinators.{items};
ghost use Rattle.dwg_grammar.specs.Grammar.{IsLawful};
ghost use Rattle.dwg_grammar.specs.ToEnd.{HaveLeast, IsCutUniquely};
ghost use Rattle.dwg_grammar.specs.Reference.{Reference, RefSpells, OwnSpells, reaches};
ghost use Rattle.dwg_grammar.specs.ReferenceCodes.{reference, own_handle};

/// What holds of references, seen from any handle, and of own handles: bits spell at most one, and no spelling is a proper
/// prefix of another; the spelling that is written of one spells it, and no other is shorter. The codes spell just what the
/// relations say, and a code reaches a target exactly where some bits spell the reference. A reference has eight bits at
/// the least, and bits are cut into references to their end in one way at the most. Lists of so many references are such a
/// code too.
pub fn reference_laws()
    ensures lawful { (base : ℕ) → base < 2 ^ 63 → IsLawful (reference base) }
    ensures values { (base : ℕ) (value : Reference) → (reference base).IsValue value ↔ (reaches base value ≡ true) }
    ensures spelled { (base : ℕ) (value : Reference) (letters : List Bool) → (reference base).Spells value letters ↔ RefSpells base value letters }
    ensures reached { (base : ℕ) (value : Reference) → base < 2 ^ 63 → (reaches base value ≡ true) ↔ ((letters : List Bool) × RefSpells base value letters) }
    ensures least { (base : ℕ) → HaveLeast 8 (reference base) }
    ensures cut { (base : ℕ) → base < 2 ^ 63 → IsCutUniquely 8 (reference base) }
    ensures lists { (base count : ℕ) → base < 2 ^ 63 → IsLawful (items (reference base) count) }
    ensures own_lawful { IsLawful own_handle }
    ensures own_values { (own : ℕ) → own_handle.IsValue own ↔ ((0 < own) × (own < 2 ^ 63)) }
    ensures own_spelled { (own : ℕ) (letters : List Bool) → own_handle.Spells own letters ↔ OwnSpells own letters }
{}
