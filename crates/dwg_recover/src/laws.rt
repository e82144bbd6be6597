//! Laws of recovery, as the contract of a function without code of its own.

ghost use Rattle.dwg_recover.specs.FoundFrames.{CandidatesAreOfPairs, CandidatesHold, ScannedAreRead};
ghost use Rattle.dwg_recover.specs.FoundParts.{ContentIsTaken, HeaderIsFound, PagesGivePairs, PartsAreKept, SectionIsWhole, WalkIsLocated};
ghost use Rattle.dwg_recover.specs.FoundSections.{SectionsAreFirst};
ghost use Rattle.dwg_recover.specs.Intact.{CanonicalPartsStand, IntactObjectsAreKept};
ghost use Rattle.dwg_recover.specs.KeptFrames.{MapKeepsExactly, NoOthersAreKept, ObjectsAreOfFrames, ScanKeepsExactly};
ghost use Rattle.dwg_recover.specs.OrderOfPlace.{PlacesAreInOrder};
ghost use Rattle.dwg_recover.specs.RecoveredLaws.{FramesAreKept, PairsAreFew, RecoveredPartsAreRead};
ghost use Rattle.dwg_recover.specs.Reported.{DamagedIsAnswered, MappedAreReported, RecoveredIsValid, SpelledIsAnswered};
ghost use Rattle.dwg_recover.specs.ReportedLosses.{LossesAreDetermined, LossesAreInOrder, LossesAreReported};
ghost use Rattle.dwg_recover.specs.Walks.{WalkIsOne, WalkStands};

use dwg_classes::classes_laws;
use dwg_file::drawing_laws;
use dwg_object::frame_laws;
use dwg_objmap::page_laws;
use dwg_sections::{file_header_laws, framed_laws};

/// What holds of what is recovered of a damaged input; what holds of every answer is said by `answer_laws`.
///
/// A section that is found is that of its locator where it is whole there, and else the first whole one; none is found only where
/// none is whole. The pages of the walk are those that stand one after the other, and there is one walk; their pairs are no more
/// than the input has bytes. A pair has a candidate exactly where a frame with its handle, which isn't null, stands at its place;
/// the scan finds a frame exactly where one stands whose body has the Typed or the Plain form. The order of place loses
/// no frame that begins in the input, and leaves those of one place as they come. A candidate is kept exactly where it lies after those that are kept before it and
/// has a new handle; a frame that stands elsewhere exactly where it shares no byte and no handle with those that are kept before
/// it. No others are kept. So the frames that are kept were found in the input, and no two share a byte or a handle; the objects
/// are those of the frames, each read of its own. The parts of the drawing are such as are read of an input of at most 32 MiB, where
/// the input has no more, so that it is valid.
pub fn recovered_laws()
    ensures sections { SectionsAreFirst }
    ensures walk { WalkStands }
    ensures one_walk { WalkIsOne }
    ensures few { PairsAreFew }
    ensures candidates { CandidatesHold }
    ensures read { ScannedAreRead }
    ensures order { PlacesAreInOrder }
    ensures mapped { MapKeepsExactly }
    ensures scanned { ScanKeepsExactly }
    ensures members { NoOthersAreKept }
    ensures kept { FramesAreKept }
    ensures objects { ObjectsAreOfFrames }
    ensures parts { RecoveredPartsAreRead }
{
    classes_laws();
    drawing_laws();
    frame_laws();
    page_laws();
    file_header_laws();
}

/// What holds of the parts that are found. The header is the one that the input begins with. A section is whole exactly where it
/// stands with its sentinels, its size and its check word, that of the classes around what is cut into classes; what is taken of
/// it is its content, or these classes. The walk goes from the place of the map's locator, and without a header there is none.
/// A page with a right check word gives the longest list of leading pairs of its bytes, one with a wrong one gives none. The
/// candidates are those of the pairs, each under the number of its pair. The drawing has the version by which the input is read, the
/// lead, the mark and the code page of the header, or zeros without one, the unknown sections that don't pass the end, and what is taken of the sections that are found.
pub fn part_laws()
    ensures header { HeaderIsFound }
    ensures whole { SectionIsWhole }
    ensures content { ContentIsTaken }
    ensures located { WalkIsLocated }
    ensures pages { PagesGivePairs }
    ensures candidates { CandidatesAreOfPairs }
    ensures kept { PartsAreKept }
{
    file_header_laws();
    framed_laws();
}

/// What holds of every answer, whether the input spells a drawing or is damaged: the frames that are reported stand in the input, in
/// order of place, and no two share a byte or have one handle; the objects of the drawing are those that the bodies of these frames
/// are read as under its classes, and have their handles; and of an input of at most 32 MiB the drawing is valid. Of an input that
/// spells a drawing it is that drawing, nothing is refused or lost, and the frames that it is spelled with are reported, all as mapped. Of
/// any other its first refusal is reported; just the frames that are kept for pairs of the map are reported as mapped; and each of what is
/// lost is reported, and nothing else. Losses stand in the order of their parts, and those of one part in the order of the locators, of
/// the pages or of the pairs, one for each of these; so there is one list of them.
pub fn answer_laws()
    ensures valid { RecoveredIsValid }
    ensures spelled { SpelledIsAnswered }
    ensures damaged { DamagedIsAnswered }
    ensures mapped { MappedAreReported }
    ensures losses { LossesAreReported }
    ensures losses_ordered { LossesAreInOrder }
    ensures losses_determined { LossesAreDetermined }
{
    file_header_laws();
    framed_laws();
}

/// What is recovered of a damaged canonical file. Let a valid drawing have a canonical file, with any preview, of at most 32 MiB, and an input of the same
/// length have that file's header, its pages of the map and the frame of an object; let each other frame be that file's too, or let no
/// frame with the handle of its pair hold at its place, wherever it would end. Then the frame of the object is kept, as one of the
/// map's; where the input has the section of the classes too, the object is one of those that are recovered. The parts that this
/// speaks of do stand in the canonical file, each at its place, and its frames are as many as the objects of the drawing.
pub fn intact_laws()
    ensures stand { CanonicalPartsStand }
    ensures intact { IntactObjectsAreKept }
{
    file_header_laws();
    framed_laws();
}
