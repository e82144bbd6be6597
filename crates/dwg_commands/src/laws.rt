//! Laws of what is answered, as the contract of a function without code of its own.

ghost use Rattle.dwg_commands.specs.Meaning.{AcceptedIsAudited, CertifyEndsAsAudit, RecoverDoneIsSpelled, StatusesMean};
ghost use Rattle.dwg_commands.specs.OutcomeLaws.{AcceptReportsAccepted, AppdataReportsItems, AuditReportsSound, CarryNotesNone, CarryWritesPreview, CertifiedIsAccepted, ClassesPrintsClasses, NoCertificateIsRefused, NoClassesAreRefused, NoDrawingAfterIsRefused, NoDrawingIsRefused, NoHeaderIsRefused, MakeWritesDrawing, NoItemsAreReported, NoneIsCarried, NoneIsCertified, ReadersAreNamed, RecoverRewritesDrawing, RecoverWritesFrames, RewriteReportsSize, RewriteWritesDrawing, SectionsPrintsHeader, ShortDamageIsReported, ShowPrintsDrawing, SoundIsCertified, UnsoundIsNoted};

use dwg_appitems::app_finding_laws;
use dwg_audit::{auditable_laws, finding_laws};
use dwg_cert::{acceptance_laws, certificate_laws};
use dwg_classes::classes_laws;
use dwg_file::{
    canonical_laws, carrying_laws, drawing_laws, short_damage_laws as frame_damage_laws,
};
use dwg_make::make_laws;
use dwg_preview::preview_laws;
use dwg_recover::{answer_laws, short_damage_laws};
use dwg_sections::{file_header_laws, framed_laws};

/// Each command that reads is named by its own word. What they answer to an input of at most 32 MiB: `sections` prints the file header that
/// it begins with, and `classes` the classes that it has; each refuses an input without them by the first of its lines that fails. Where an
/// input spells a drawing, `show` prints the text of that drawing; `rewrite` writes the canonical file, where that has at most 32 MiB, and
/// it spells the drawing and no other and is rewritten as it is, and else reports its size; `audit` prints the findings, which are the line
/// `audit yes` alone exactly where the references of the drawing hold together, and ends with Done exactly there, and else with Found; and
/// `recover` answers as `rewrite` does. Where it spells none, `show`, `rewrite` and `audit` refuse it by the first line that fails, and
/// print nothing; and `recover` notes that line, ends with Found, and writes the canonical file of what is recovered, a valid drawing whose
/// objects are those of frames that stand in the input, where that file has at most 32 MiB.
///
/// Where an input differs from the canonical file of a valid drawing, with any preview, in one byte, or in two neighbouring ones, in the
/// body and the check word of one object's frame, `show`, `rewrite`, `audit`, `carry`, `appdata` and `certify` refuse it for the check
/// word of that object and print nothing, and so does `accept` where it stands after a certificate; what is recovered has every other object, and where its canonical file has at most 32 MiB, `recover` writes that and notes that
/// refusal and the loss of that object alone; else it reports the size.
///
/// `carry` refuses an input that spells no drawing by the first line that fails. Where it spells one, `carry` writes the canonical file
/// with the preview section that stands where the file header says, and where none stands there the one that `rewrite` writes, and notes
/// that. The file spells the drawing and no other, and is carried as it is, without a note; where it would have more than 32 MiB, its
/// size is reported.
///
/// `make` writes the canonical file of the drawing of its two numbers, whatever the input. It spells that drawing and no other, and is
/// rewritten as it is.
///
/// `appdata` refuses an input that spells no drawing by the first line that fails. Where it spells one, `appdata` prints the items of
/// its extended data and then those whose references lead nowhere, and ends with Done exactly where there are none, and else with Found.
///
/// `certify` refuses an input that spells no drawing by the first line that fails. Where it spells one, `certify` writes the certificate of
/// its objects and ends with Done where their references hold together, and else notes that they don't and ends with Found. `accept`
/// refuses an input that begins with no certificate by the first line on it that fails, and one whose rest spells no drawing by the first
/// line that fails there. Where the rest spells a drawing, `accept` ends with Done exactly where the certificate is one of its objects, and
/// prints `accept yes`, and else ends with Found and prints `accept no`; with Done the references of the drawing hold together. What
/// `certify` writes is accepted before what it was written of, where both together have at most 32 MiB.
pub fn outcome_laws()
    ensures named { ReadersAreNamed }
    ensures sections { SectionsPrintsHeader }
    ensures no_header { NoHeaderIsRefused }
    ensures classes { ClassesPrintsClasses }
    ensures no_classes { NoClassesAreRefused }
    ensures refused { NoDrawingIsRefused }
    ensures show { ShowPrintsDrawing }
    ensures rewrite { RewriteWritesDrawing }
    ensures large { RewriteReportsSize }
    ensures no_carried { NoneIsCarried }
    ensures carry { CarryWritesPreview }
    ensures no_preview { CarryNotesNone }
    ensures audit { AuditReportsSound }
    ensures recover { RecoverRewritesDrawing }
    ensures damaged { RecoverWritesFrames }
    ensures short { ShortDamageIsReported }
    ensures make { MakeWritesDrawing }
    ensures no_items { NoItemsAreReported }
    ensures items { AppdataReportsItems }
    ensures no_certified { NoneIsCertified }
    ensures certify { SoundIsCertified }
    ensures unsound { UnsoundIsNoted }
    ensures no_certificate { NoCertificateIsRefused }
    ensures no_drawing_after { NoDrawingAfterIsRefused }
    ensures accept { AcceptReportsAccepted }
    ensures certified { CertifiedIsAccepted }
{
    file_header_laws();
    framed_laws();
    classes_laws();
    drawing_laws();
    canonical_laws();
    carrying_laws();
    preview_laws();
    auditable_laws();
    finding_laws();
    app_finding_laws();
    answer_laws();
    make_laws();
    frame_damage_laws();
    short_damage_laws();
    certificate_laws();
    acceptance_laws();
}

/// What a status of a command says of an input of at most 32 MiB, whatever it is. `sections` ends with Done only where it begins with a file
/// header, and `classes` where it has classes. `show`, `rewrite`, `carry`, `appdata` and `recover` end with Done only where it spells a
/// drawing: that of `recover` is the one that is written, and the references in the extended data of that of `appdata` lead somewhere.
/// With Found `appdata` ends only where they don't, and `recover` only where it spells none. `audit` and `certify` end alike: with Done only
/// where it spells a drawing whose references hold together, and with Found only where it spells another. `accept` ends with Done only
/// where it is a certificate and after it a drawing, of whose objects that is one, and whose references hold together: `audit` of what
/// stands after the certificate ends with Done too; and with Found only where it isn't one of them.
pub fn status_laws()
    ensures means { StatusesMean }
    ensures recovered { RecoverDoneIsSpelled }
    ensures alike { CertifyEndsAsAudit }
    ensures audited { AcceptedIsAudited }
{
    file_header_laws();
    framed_laws();
    classes_laws();
    drawing_laws();
    answer_laws();
    auditable_laws();
    certificate_laws();
    acceptance_laws();
    outcome_laws();
}
