//! Laws of the canonical file, as the contract of a function without code of its own.

ghost use Rattle.dwg_file.specs.Canonical.{IsCarried, NO_PICTURE};
ghost use Rattle.dwg_file.specs.CanonicalLaws.{CarryingSpells, CarryingIsCounted, CarryingSpellsNoOther, CarryingIsDoneOnce, PreviewIsCarried, NoneIsEmpty, CanonicalSpells, CanonicalIsCounted, CanonicalSpellsNoOther, CanonicalGivesDrawing, CanonicalIsRead, RewritingIsDoneOnce};

use crate::laws::drawing_laws;

/// What holds of the canonical file of a valid drawing, where it has at most `LIMIT` bytes: it spells the drawing and no
/// other, so that two drawings with one canonical file are one; it has the size that is counted, and is bytes. It is read
/// as its drawing, so that rewriting twice is rewriting once.
pub fn canonical_laws()
    ensures spells { CanonicalSpells }
    ensures no_other { CanonicalSpellsNoOther }
    ensures reports { CanonicalGivesDrawing }
    ensures counted { CanonicalIsCounted }
    ensures read { CanonicalIsRead }
    ensures once { RewritingIsDoneOnce }
{
    drawing_laws();
}

/// What holds of the canonical file that carries a preview, where the drawing is valid and the file has at most `LIMIT` bytes: it
/// spells the drawing and no other, has the size that is counted, and is bytes. The preview stands where the header says, with the
/// places of its pictures moved there; carrying it once more gives the same file. What stands where there is none can be carried, and
/// has no entry.
pub fn carrying_laws()
    ensures spells { CarryingSpells }
    ensures no_other { CarryingSpellsNoOther }
    ensures counted { CarryingIsCounted }
    ensures preview { PreviewIsCarried }
    ensures once { CarryingIsDoneOnce }
    ensures none { NoneIsEmpty }
    ensures no_picture { IsCarried NO_PICTURE }
{
    drawing_laws();
}
