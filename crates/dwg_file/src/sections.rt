//! Reading the sections of a file, each where the locator of its number says.

ghost use Rattle.std.specs.Prelude.{◌≡◌, ◌≤◌, [], ◌∷◌, length, map, IfOk, IfErr, OnOk, Ok, None, Some};
ghost use Rattle.dwg_base.specs.Devices.{MOST_BYTES};
ghost use Rattle.dwg_base.specs.Refusals.{first_fault, Answers, Reports};
ghost use Rattle.dwg_objmap.specs.Pages.{AreHandles, handles_of};
ghost use Rattle.dwg_sections.specs.FramedLines.{content_at};
ghost use Rattle.dwg_sections.specs.HeaderLines.{header_at};
ghost use Rattle.std.specs.List.{All};
ghost use Rattle.dwg_file.specs.Borrowed.{IsBorrowedSection};
ghost use Rattle.dwg_file.specs.Contents.{other_value};
ghost use Rattle.dwg_file.specs.FileLines.{section_place, variables_row, classes_section_row, classes_tried, classes_row, map_tried, sections_row};
ghost use Rattle.dwg_file.specs.ReadAs.{sections_at};

use crate::drawing_parts::Other;
use crate::unknown_sections::{refusal_of_others, whole_others};
use dwg_base::{Fault, Items, NoMemory, Refusal};
use dwg_classes::{Class, read_classes};
use dwg_objmap::{Pair, read_map};
use dwg_sections::{
    CLASSES_NUMBER, CONTENT_PLACE, FileHeader, Framed, OBJECT_MAP_NUMBER, VARIABLES_NUMBER,
    read_framed,
};
use std::alloc::Global;

/// The content of the header variables.
#[tactic(auto, unfolding(crate::specs::FileLines::variables_row))]
pub(crate) fn variables_of_file<'a>(
    bytes: &'a [u8],
    header: &FileHeader,
) -> Result<&'a [u8], Refusal>
    requires { header.now ≡ header_at bytes.now }
    ensures value { IfOk result (λ content. content.now ≡ content_at bytes.now (section_place 0 bytes.now)) }
    ensures holds { OnOk result (variables_row bytes.now ≡ None) }
    ensures refused { IfErr result (λ refusal. variables_row bytes.now ≡ Some refusal) }
{
    let place = header.place_of(VARIABLES_NUMBER).unwrap_or(0);
    read_framed(bytes, place, Framed::Variables)
}

/// The classes of a file, by the header that it begins with. They are refused by the first failing one of the lines on their
/// section and on the classes themselves; nothing else of the file is looked at.
#[tactic(auto, unfolding(crate::specs::FileLines::classes_section_row, crate::specs::FileLines::classes_tried, crate::specs::FileLines::classes_row))]
pub fn classes_of_file(
    alloc: Global,
    bytes: &[u8],
    header: &FileHeader,
) -> Result<Items<Class>, Fault>
    requires length { length bytes.now ≤ MOST_BYTES }
    requires header { header.now ≡ header_at bytes.now }
    ensures classes { IfOk result (λ classes. classes_tried bytes.now ≡ Ok classes) }
    ensures holds { OnOk result (first_fault (classes_section_row ∷ classes_row ∷ []) bytes.now ≡ None) }
    ensures refused { IfErr result (λ fault. Reports fault (first_fault (classes_section_row ∷ classes_row ∷ []) bytes.now)) }
{
    let place = header.place_of(CLASSES_NUMBER).unwrap_or(0);
    let content = read_framed(bytes, place, Framed::Classes)?;
    read_classes(alloc, content, u64::from(place) + CONTENT_PLACE as u64)
}

/// The pairs of the map of the file.
#[tactic(auto, unfolding(crate::specs::FileLines::map_tried))]
pub(crate) fn pairs_of_file(
    alloc: Global,
    bytes: &[u8],
    header: &FileHeader,
) -> Result<Items<Pair>, Fault>
    requires { header.now ≡ header_at bytes.now }
    ensures tried { Answers result (map_tried bytes.now) }
    ensures handles { IfOk result (λ pairs. AreHandles (handles_of pairs)) }
{
    let place = header.place_of(OBJECT_MAP_NUMBER).unwrap_or(0);
    read_map(alloc, bytes, u64::from(place))
}

/// The unknown sections of the file.
#[tactic(auto, unfolding(crate::specs::FileLines::sections_row), using(crate::proofs::OthersAlong::uncut_sections))]
pub(crate) fn others_of_file<'a>(
    alloc: Global,
    bytes: &'a [u8],
    header: &FileHeader,
) -> Result<Items<Other<'a>>, Fault>
    requires { header.now ≡ header_at bytes.now }
    ensures value { IfOk result (λ others. map other_value others ≡ sections_at bytes.now (header_at bytes.now).locators) }
    ensures lent { IfOk result (All IsBorrowedSection) }
    ensures holds { OnOk result (sections_row bytes.now ≡ None) }
    ensures refused { IfErr result (λ fault. Reports fault (sections_row bytes.now)) }
{
    let locators = header.locators.as_slice();
    if let Some(refusal) = refusal_of_others(bytes, locators) {
        return Err(Fault::Refused(refusal));
    }
    let others = whole_others(alloc, bytes, locators)?;
    Ok(others)
}
