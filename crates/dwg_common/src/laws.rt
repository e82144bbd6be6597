//! Laws of the common parts, as the contract of a function without code.

ghost use Rattle.std.specs.Prelude.{◌^◌, ◌<◌, ℕ};
ghost use Rattle.dwg_grammar.specs.Bodies.{IsFreeBody};
ghost use Rattle.dwg_common.specs.declared.bit_layout.Layout.{Layout};
ghost use Rattle.dwg_common.specs.Entities.{entity_common};
ghost use Rattle.dwg_common.specs.NonEntities.{object_common};

/// What holds of the common parts of entities and of other objects, in the object of any handle: main bits and reference bits
/// spell at most one by their prefixes; just those that fit are spelled, each by what is written of it, and none by fewer main
/// bits or fewer reference bits; other bits that spell the same references spell the same; and any bits may follow the
/// references.
pub fn common_laws()
    ensures entity { (layout : Layout) (base : ℕ) → layout.size < 2 ^ 32 → base < 2 ^ 63 → IsFreeBody base (entity_common layout base) }
    ensures object { (layout : Layout) (base : ℕ) → layout.size < 2 ^ 32 → base < 2 ^ 63 → IsFreeBody base (object_common layout base) }
{}
