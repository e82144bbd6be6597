//! The common parts of entities and of other objects.

ghost use Rattle.std.specs.Prelude.{ℕ};
ghost use Rattle.dwg_common.specs.declared.bit_layout.Layout.{Layout};
ghost use Rattle.dwg_part_laws.specs.AsDefined.{IsDefinedBy};
ghost use Rattle.dwg_common.specs.Entities.{entity_common};
ghost use Rattle.dwg_common.specs.NonEntities.{object_common};
ghost use Rattle.dwg_common.specs.contracts.entity.EntityCommonBodyCode.TheImpl as entity;
ghost use Rattle.dwg_common.specs.contracts.object.ObjectCommonBodyCode.TheImpl as object;

/// The common parts of entities and of other objects are read, given to fit, measured and written by the definition of their layout.
#[tactic(auto, using(crate::proofs::AsDefined::by_itself))]
pub fn commons_as_defined()
    ensures entity { (layout : Layout) (base : ℕ) → IsDefinedBy (entity.ghosts.grammar layout base) (entity_common layout base) }
    ensures object { (layout : Layout) (base : ℕ) → IsDefinedBy (object.ghosts.grammar layout base) (object_common layout base) }
{}
