//! Laws of classes, as the contract of a function without code.

ghost use Rattle.std.specs.Prelude.{◌≡◌, ◌*◌, ◌≤◌, ◌↔◌, ℕ, List, Ok, Err, length};
ghost use Rattle.std.specs.List.{AllByRecursion};
ghost use Rattle.dwg_base.specs.Refusal.{Refusal};
ghost use Rattle.dwg_bits.specs.Bits.{bits};
ghost use Rattle.dwg_grammar.specs.Grammar.{IsLawful};
ghost use Rattle.dwg_grammar.specs.ToEnd.{AreValues, HaveLeast, short_all};
ghost use Rattle.dwg_classes.specs.declared.class.Class.{Class};
ghost use Rattle.dwg_classes.specs.Class.{any_class, numbered_class, AreClasses};
ghost use Rattle.dwg_classes.specs.ClassLines.{RefusesClass, tried_classes};
ghost use Rattle.dwg_classes.specs.WrittenClasses.{IsNumbered, padded};

/// What holds of classes: letters spell at most one, and no spelling is a proper prefix of another; one with a number from 500
/// on has at least 29 bits; a content is cut into classes in one way at the most; what is tried class by class gives classes
/// exactly where a content is cut into them, and a refusal exactly where it is that of the first class that fails a line;
/// which lists of classes have spellings; that bytes which hold what is written of them are cut into them; and that what a
/// content is cut into has spellings and is written by no more bits.
pub fn classes_laws()
    ensures any { IsLawful any_class }
    ensures numbered { IsLawful numbered_class }
    ensures least { HaveLeast 29 numbered_class }
    ensures cut { (content : List ℕ) (classes others : List Class) → AreClasses content classes → AreClasses content others → classes ≡ others }
    ensures read { (place : ℕ) (content : List ℕ) (classes : List Class) → (tried_classes place content ≡ Ok classes) ↔ AreClasses content classes }
    ensures refused { (place : ℕ) (content : List ℕ) (refusal : Refusal) → (tried_classes place content ≡ Err refusal) ↔ RefusesClass place content refusal }
    ensures values { (classes : List Class) → AreValues numbered_class classes ↔ AllByRecursion IsNumbered classes }
    ensures written { (content : List ℕ) (classes : List Class) → AreValues numbered_class classes → bits content ≡ padded classes → AreClasses content classes }
    ensures again { (content : List ℕ) (classes : List Class) → AreClasses content classes → AreValues numbered_class classes × (length (short_all numbered_class classes) ≤ 8 * length content) }
{}
