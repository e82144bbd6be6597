//! Laws of preview sections, as the contract of a function without code.

ghost use Rattle.dwg_preview.specs.PreviewLaws.{ContentIsFound, EntriesAreMoved, MovedIsContent, MovedStays, MovedTwiceIsMoved, PreviewIsCounted, PreviewIsOne, SectionIsPieces};

/// At a place of an input stands one preview section at the most; its length follows from that of its content. What is moved to
/// another place has the place of each entry with a picture changed by as much as the section's, 0 for each other entry, and all
/// else as it was; it is a content there. What is moved twice is moved at once, and where it stands already it stays as it is.
/// A section at another place is what stands there before its further bytes, these as they were, and the end sentinel.
/// `content_at` finds exactly the content of the section that stands at a place.
pub fn preview_laws()
    ensures one { PreviewIsOne }
    ensures counted { PreviewIsCounted }
    ensures entries { EntriesAreMoved }
    ensures content { MovedIsContent }
    ensures twice { MovedTwiceIsMoved }
    ensures stays { MovedStays }
    ensures pieces { SectionIsPieces }
    ensures found { ContentIsFound }
{}
