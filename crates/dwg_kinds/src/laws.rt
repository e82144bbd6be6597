//! Laws of kinds, as the contract of a function without code.

ghost use Rattle.std.specs.Prelude.{◌≡◌, ◌≢◌, ◌<◌, ◌≤◌, ◌↔◌, ℕ, IsTrue, Contains};
ghost use Rattle.std.specs.List.{AllByRecursion};
ghost use Rattle.dwg_kinds.specs.declared.kind.Kind.{Kind};
ghost use Rattle.dwg_kinds.specs.declared.kind.Kind.TheVariants.{PlainEntity, PlainObject, Unknown};
ghost use Rattle.dwg_kinds.specs.declared.number.ClassHint.{ClassHint};
ghost use Rattle.dwg_kinds.specs.Kinds.{TYPED_KINDS, PLAIN_ENTITIES, PLAIN_OBJECTS, ENTITY_KINDS, LiesOutside, hinted_kind_of, kind_at, is_entity_kind, kind_name, same_kind};
ghost use Rattle.dwg_kinds.specs.declared.field.Field.{Field};
ghost use Rattle.dwg_kinds.specs.declared.field.Field.TheVariants.{Owner};
ghost use Rattle.dwg_kinds.specs.Needs.{field_number, field_name, has_field};

/// What holds of kinds: each number of the table gives its kind, whatever the hint; so do the numbers of the two plain kinds;
/// a number below 500 in none of the lists is Unknown; below 500 the hint is ignored, and from 500 on it alone decides; no two
/// kinds have one name; the test of two kinds for being one; and which kinds are entities.
#[tactic(auto, unfolding(crate::specs::Kinds::kind_at, crate::specs::Kinds::fixed_kind_of, crate::specs::Kinds::TYPED_KINDS, crate::specs::Kinds::PLAIN_ENTITIES, crate::specs::Kinds::PLAIN_OBJECTS))]
pub fn kind_laws()
    ensures typed { (hint : ClassHint) → AllByRecursion (λ typed. kind_at typed.0 hint ≡ typed.1) TYPED_KINDS }
    ensures plain_entities { (number : ℕ) (hint : ClassHint) → AllByRecursion (λ run. run.0 ≤ number → number ≤ run.1 → kind_at number hint ≡ PlainEntity) PLAIN_ENTITIES }
    ensures plain_objects { (number : ℕ) (hint : ClassHint) → AllByRecursion (λ run. run.0 ≤ number → number ≤ run.1 → kind_at number hint ≡ PlainObject) PLAIN_OBJECTS }
    ensures no_other { (number : ℕ) (hint : ClassHint) → number < 500 → AllByRecursion (λ typed. number ≢ typed.0) TYPED_KINDS → LiesOutside PLAIN_ENTITIES number → LiesOutside PLAIN_OBJECTS number → kind_at number hint ≡ Unknown }
    ensures unheeded { (number : ℕ) (hint other : ClassHint) → number < 500 → kind_at number hint ≡ kind_at number other }
    ensures heeded { (number : ℕ) (hint : ClassHint) → 500 ≤ number → kind_at number hint ≡ hinted_kind_of hint }
    ensures names { (kind other : Kind) → kind_name kind ≡ kind_name other → kind ≡ other }
    ensures same { (kind other : Kind) → IsTrue (same_kind kind other) ↔ (kind ≡ other) }
    ensures entities { (kind : Kind) → IsTrue (is_entity_kind kind) ↔ Contains ENTITY_KINDS kind }
{}

/// What holds of fields: no two have one number or one name; and every kind that is typed has a need for its owner.
#[tactic(auto, unfolding(crate::specs::Needs::has_field, crate::specs::Needs::need_of, crate::specs::Needs::owner_need, crate::specs::Kinds::TYPED_KINDS))]
pub fn field_laws()
    ensures numbers { (field other : Field) → field_number field ≡ field_number other → field ≡ other }
    ensures words { (field other : Field) → field_name field ≡ field_name other → field ≡ other }
    ensures owners { AllByRecursion (λ typed. IsTrue (has_field Owner typed.1)) TYPED_KINDS }
{}
