//! The lines of the table of refusals, in the order in which they are tried: the number of each, and in one row its part and its reason.

ghost use Rattle.std.specs.Prelude.{◌≡◌, ◌≤◌};
ghost use Rattle.dwg_base.specs.Refusal.{LAST_LINE};
ghost use Rattle.dwg_base.specs.Refusals.{part_word_of, reason_word_of};

/// Fewer bytes than a file header has up to its count of locators.
pub const HEADER_SHORT: u8 = 1;

/// Another version than those that are read.
pub const HEADER_VERSION: u8 = 2;

/// Fewer than three or more than six locators.
pub const HEADER_COUNT: u8 = 3;

/// Fewer bytes than a file header with so many locators has.
pub const HEADER_CUT: u8 = 4;

/// A file header's check word is wrong.
pub const HEADER_CHECK: u8 = 5;

/// Another sentinel at the end of the file header.
pub const HEADER_END: u8 = 6;

/// A locator has the number of an earlier one.
pub const LOCATOR_REPEATED: u8 = 7;

/// One of the sections that each drawing has is without a locator.
pub const LOCATOR_MISSING: u8 = 8;

/// Fewer bytes than the section of the header variables has up to its content.
pub const VARIABLES_SHORT: u8 = 9;

/// Another begin sentinel before the header variables.
pub const VARIABLES_BEGIN: u8 = 10;

/// Fewer bytes than the section of the header variables says that it has.
pub const VARIABLES_LENGTH: u8 = 11;

/// The check word of the header variables is wrong.
pub const VARIABLES_CHECK: u8 = 12;

/// Another end sentinel after the header variables.
pub const VARIABLES_END: u8 = 13;

/// Fewer bytes than the section of the classes has up to its content.
pub const CLASSES_SHORT: u8 = 14;

/// Another begin sentinel before the classes.
pub const CLASSES_BEGIN: u8 = 15;

/// Fewer bytes than the section of the classes says that it has.
pub const CLASSES_LENGTH: u8 = 16;

/// The check word of the classes is wrong.
pub const CLASSES_CHECK: u8 = 17;

/// Another end sentinel after the classes.
pub const CLASSES_END: u8 = 18;

/// The bits that are left spell no class.
pub const CLASS_SPELLING: u8 = 19;

/// A class has a number below the least.
pub const CLASS_NUMBER: u8 = 20;

/// A page of the object map passes the end of the input.
pub const MAP_SHORT: u8 = 21;

/// A page's size is 0 or 1, below that of the size itself.
pub const MAP_SIZE: u8 = 22;

/// A page's check word is wrong.
pub const MAP_CHECK: u8 = 23;

/// The bytes of a page spell no pair, or a running value leaves its range.
pub const MAP_PAIR: u8 = 24;

/// A pair has the null handle.
pub const MAP_NULL: u8 = 25;

/// An earlier pair has the handle.
pub const MAP_DUPLICATE: u8 = 26;

/// A pair's place is at the end of the input or after it.
pub const FRAME_PLACE: u8 = 27;

/// A frame's length isn't spelled, or it passes the end of the input.
pub const FRAME_LENGTH: u8 = 28;

/// A frame overlaps that of an earlier pair.
pub const FRAME_OVERLAP: u8 = 29;

/// A frame's check word is wrong.
pub const FRAME_CHECK: u8 = 30;

/// The body of a frame has no head.
pub const FRAME_HEAD: u8 = 31;

/// An object has another handle than its pair.
pub const FRAME_HANDLE: u8 = 32;

/// An unknown section passes the end of the input.
pub const SECTION_SHORT: u8 = 33;

/// Fewer bytes than a certificate has up to its entries.
pub const CERTIFICATE_SHORT: u8 = 34;

/// Other bytes than those that a certificate begins with.
pub const CERTIFICATE_BEGIN: u8 = 35;

/// Fewer bytes than a certificate with so many entries has.
pub const CERTIFICATE_LENGTH: u8 = 36;

/// An entry's handle is too large or isn't above that of the entry before, or its rank or its place in a chain is too large.
pub const CERTIFICATE_ENTRY: u8 = 37;

/// The part of the input that a line speaks of, and why the line refuses.
#[tactic(auto, unfolding(crate::specs::Refusals::part_word_of, crate::specs::Refusals::reason_word_of))]
pub(crate) fn words_of(line: u8) -> (&'static str, &'static str)
    requires least { 1 ≤ line }
    requires most { line ≤ LAST_LINE }
    ensures part { result.0.now ≡ part_word_of line }
    ensures reason { result.1.now ≡ reason_word_of line }
{
    match line {
        HEADER_SHORT => ("header", "short"),
        HEADER_VERSION => ("header", "version"),
        HEADER_COUNT => ("header", "count"),
        HEADER_CUT => ("header", "short"),
        HEADER_CHECK => ("header", "check"),
        HEADER_END => ("header", "sentinel"),
        LOCATOR_REPEATED => ("header", "repeated"),
        LOCATOR_MISSING => ("header", "missing"),
        VARIABLES_SHORT => ("variables", "short"),
        VARIABLES_BEGIN => ("variables", "begin"),
        VARIABLES_LENGTH => ("variables", "length"),
        VARIABLES_CHECK => ("variables", "check"),
        VARIABLES_END => ("variables", "end"),
        CLASSES_SHORT => ("classes", "short"),
        CLASSES_BEGIN => ("classes", "begin"),
        CLASSES_LENGTH => ("classes", "length"),
        CLASSES_CHECK => ("classes", "check"),
        CLASSES_END => ("classes", "end"),
        CLASS_SPELLING => ("classes", "spelling"),
        CLASS_NUMBER => ("classes", "number"),
        MAP_SHORT => ("map", "short"),
        MAP_SIZE => ("map", "size"),
        MAP_CHECK => ("map", "check"),
        MAP_PAIR => ("map", "pair"),
        MAP_NULL => ("map", "null"),
        MAP_DUPLICATE => ("map", "duplicate"),
        FRAME_PLACE => ("objects", "place"),
        FRAME_LENGTH => ("objects", "length"),
        FRAME_OVERLAP => ("objects", "overlap"),
        FRAME_CHECK => ("objects", "check"),
        FRAME_HEAD => ("objects", "head"),
        FRAME_HANDLE => ("objects", "handle"),
        SECTION_SHORT => ("sections", "short"),
        CERTIFICATE_SHORT => ("certificate", "short"),
        CERTIFICATE_BEGIN => ("certificate", "begin"),
        CERTIFICATE_LENGTH => ("certificate", "length"),
        CERTIFICATE_ENTRY => ("certificate", "entry"),
        _ => unreachable!(),
    }
}
