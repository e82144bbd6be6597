//! The bit size of AC1014.

ghost use Rattle.std.specs.Prelude.{◌≡◌, ◌^◌, ◌<◌, ℕ, Bool, true, false, List};
ghost use Rattle.dwg_common.specs.BitSizes.{SpellsSize};
ghost use Rattle.dwg_common.specs.Entities.{entity_common};
ghost use Rattle.dwg_common.specs.Layouts.{older};
ghost use Rattle.dwg_common.specs.NonEntities.{object_common};
ghost use Rattle.dwg_common.specs.declared.entity.EntityCommon.{EntityCommon};
ghost use Rattle.dwg_common.specs.declared.object.ObjectCommon.{ObjectCommon};

/// Main bits spell one bit size at the most; and where they spell a common part in AC1014, they spell its size: what
/// [`dwg_common::read_size`] gives is the size by which the common part is read.
#[tactic(auto, using(dwg_common::proofs::SizeLemmas::entity_spells_size, dwg_common::proofs::SizeLemmas::object_spells_size))]
pub fn size_laws()
    ensures one { (entity : Bool) (base size other : ℕ) (main : List Bool) → base < 2 ^ 63 → SpellsSize entity base size main → SpellsSize entity base other main → size ≡ other }
    ensures entity { (size base : ℕ) (common : EntityCommon) (main references : List Bool) (over : ℕ) → (entity_common (older size) base).Spells common main references over → SpellsSize true base size main }
    ensures object { (size base : ℕ) (common : ObjectCommon) (main references : List Bool) (over : ℕ) → (object_common (older size) base).Spells common main references over → SpellsSize false base size main }
{}
