//! Laws of audits, as the contracts of functions without code.

ghost use Rattle.dwg_audit.specs.Auditable.{ValidIsAuditable};
ghost use Rattle.dwg_audit.specs.FindingLaws.{FindingsStand, NothingIsFoundIfSound};
ghost use Rattle.dwg_audit.specs.FindingOrder.{FindingsAreDetermined, FindingsAreOrdered};

use dwg_graph::slot_laws;

/// What holds of the findings of a drawing whose handles ascend: they are exactly its failures; there are none exactly where the
/// drawing is sound; and those of whole objects stand in strictly ascending order of handle, rule, field and position. So there is one
/// list of them: each that has just the failures of whole objects, in that order, is the findings.
pub fn finding_laws()
    ensures stands { FindingsStand }
    ensures sound { NothingIsFoundIfSound }
    ensures ordered { FindingsAreOrdered }
    ensures one { FindingsAreDetermined }
{
    slot_laws();
}

/// What holds of valid drawings: their objects are such as an audit asks for, so that each valid drawing can be audited.
pub fn auditable_laws()
    ensures auditable { ValidIsAuditable }
{
    slot_laws();
}
