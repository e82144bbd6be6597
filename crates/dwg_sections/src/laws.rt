//! Laws of the file header and of framed sections, each the contract of a function without code.

ghost use Rattle.std.specs.Prelude.{◌≡◌};
ghost use Rattle.dwg_sections.specs.FileHeader.{OF_LOCATOR, WITHOUT_LOCATORS};
ghost use Rattle.dwg_sections.specs.Framed.{WITHOUT_CONTENT};
ghost use Rattle.dwg_sections.specs.FramedLaws.{PassingBytesHaveSection, SectionIsRead, SectionIsCounted};
ghost use Rattle.dwg_sections.specs.FramedLines.{BEFORE_CONTENT};
ghost use Rattle.dwg_sections.specs.FramedRefusals.{SectionIsRefused};
ghost use Rattle.dwg_sections.specs.HeaderLaws.{PassingBytesBeginWithHeader, HeaderIsRead, HeaderIsCounted, HeaderGivesVersion, SectionsAreLocated, RepeatedIsFirst, MissingIsLeast};
ghost use Rattle.dwg_sections.specs.declared.framed.TheConstants.{CONTENT_PLACE, FRAMED_SIZE};
ghost use Rattle.dwg_sections.specs.declared.header_places.TheConstants.{HEADER_SIZE, LOCATOR_SIZE};
ghost use Rattle.dwg_sections.specs.declared.section_numbers.TheConstants.{VARIABLES_NUMBER, CLASSES_NUMBER, OBJECT_MAP_NUMBER};

/// The input begins with a file header exactly where no line on the header fails, and with one alone; its version
/// is the one by which the input is read, its length follows from the count of its locators, and it locates the header
/// variables (0), the classes (1) and the object map (2). The line on repeated numbers reports the first locator that has the number of an
/// earlier one, and the line on missing numbers the least of 0, 1 and 2 that no locator has. The public constants say how many bytes a
/// header has without locators, and a locator.
pub fn file_header_laws()
    ensures sound { PassingBytesBeginWithHeader }
    ensures complete { HeaderIsRead }
    ensures version { HeaderGivesVersion }
    ensures counted { HeaderIsCounted }
    ensures located { SectionsAreLocated }
    ensures numbers { (VARIABLES_NUMBER ≡ 0) × (CLASSES_NUMBER ≡ 1) × (OBJECT_MAP_NUMBER ≡ 2) }
    ensures repeated { RepeatedIsFirst }
    ensures missing { MissingIsLeast }
    ensures sizes { (HEADER_SIZE ≡ WITHOUT_LOCATORS) × (LOCATOR_SIZE ≡ OF_LOCATOR) }
{}

/// A framed section stands at a place of the input exactly where no line on it there fails, and with one content
/// alone; the lines refuse an input exactly where the section's begin, its room, its check word or its end is the first thing that
/// isn't there; its length follows from that of its content. The public constants say how many bytes a section has before its content,
/// and without it.
pub fn framed_laws()
    ensures sound { PassingBytesHaveSection }
    ensures complete { SectionIsRead }
    ensures refused { SectionIsRefused }
    ensures counted { SectionIsCounted }
    ensures content_place { CONTENT_PLACE ≡ BEFORE_CONTENT }
    ensures size { FRAMED_SIZE ≡ WITHOUT_CONTENT }
{}
