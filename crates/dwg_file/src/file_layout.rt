//! Where the parts of the canonical file stand.

ghost use Rattle.std.specs.Prelude.{◌≡◌, ◌+◌, ◌*◌, ◌^◌, ◌<◌, ◌≤◌, ◌++◌, ◌∷◌, [], length, map, IfOk, OnOk};
ghost use Rattle.dwg_base.specs.Devices.{MOST_BYTES};
ghost use Rattle.dwg_file.specs.Canonical.{IsCarried, carried_by, others_bytes, others_located, header_with, size_with};
ghost use Rattle.dwg_file.specs.Contents.{other_value, contents_of};
ghost use Rattle.dwg_file.specs.Plans.{HasRoom, IsLayout};
ghost use Rattle.dwg_file.specs.Valid.{IsValid};

use crate::drawing_parts::{Other, Parts};
use crate::frame_layout::{content_length, others_length, place_objects};
use dwg_base::{Items, NoMemory};
use dwg_objmap::{Pair, map_length};
use dwg_preview::{Preview, prefix_length, preview_length};
use dwg_sections::{
    CLASSES_NUMBER, FRAMED_SIZE, FileHeader, HEADER_SIZE, LOCATOR_SIZE, Locator, OBJECT_MAP_NUMBER,
    VARIABLES_NUMBER,
};
use std::alloc::Global;

/// Where the parts of a drawing's canonical file stand, and its size in bytes.
#[derive(Drop)]
pub(crate) struct Layout<'a> {
    /// The preview that it carries.
    pub carried: Preview<'a>,
    /// The place of the header variables.
    pub variables: u64,
    /// The place of the classes.
    pub classes: u64,
    /// The place of the preview.
    pub preview: u64,
    /// For each object its handle and the place of its frame.
    pub pairs: Items<Pair>,
    /// The place of the map.
    pub map: u64,
    /// The place of the unknown sections.
    pub others: u64,
    /// The size of the file.
    pub size: u64,
    /// How many bytes the largest part has that isn't held elsewhere, so that it is made to be sent.
    pub part: u64,
}

/// Lays out the canonical file of valid parts with a preview. Err: out of memory.
pub(crate) fn layout_of<'a>(
    alloc: Global,
    parts: &Parts<'_>,
    carried: Preview<'a>,
) -> Result<Layout<'a>, NoMemory>
    requires valid { IsValid (contents_of parts.now) }
    requires carried { IsCarried (carried_by carried) }
    ensures carried { IfOk result (λ layout. layout.carried ≡ carried.entry) }
    ensures places { IfOk result (λ layout. IsLayout layout (carried_by carried.entry) (contents_of parts.now)) }
    ensures room { IfOk result (λ layout. HasRoom (carried_by carried.entry) (8 * layout.part) (contents_of parts.now)) }
    ensures few { IfOk result (λ layout. layout.part < 2 ^ 58) }
{
    let sections = parts.others.as_slice();
    let variables = HEADER_SIZE as u64 + LOCATOR_SIZE as u64 * (3 + sections.len() as u64);
    let classes = variables + FRAMED_SIZE as u64 + parts.variables.as_slice().len() as u64;
    let content = content_length(parts.classes.as_slice());
    let preview = classes + FRAMED_SIZE as u64 + content;
    let frames = place_objects(
        alloc,
        parts.version,
        parts.objects.as_slice(),
        preview + preview_length(&carried),
    )?;
    let others = frames.end + map_length(frames.pairs.as_slice());
    let size = others + others_length(sections);
    Ok(Layout {
        carried,
        variables,
        classes,
        preview,
        pairs: frames.pairs,
        map: frames.end,
        others,
        size,
        part: variables
            .max(prefix_length(&carried))
            .max(content)
            .max(frames.part),
    })
}

/// Puts a locator at the end. Err: out of memory.
fn add_locator(
    locators: &mut Items<Locator>,
    number: u8,
    place: u64,
    size: u64,
) -> Result<(), NoMemory>
    requires place { place < 2 ^ 32 }
    requires size { size < 2 ^ 32 }
    ensures { OnOk result (locators.new ≡ locators.old ++ record { number = number; place = place; size = size } ∷ []) }
{
    locators.try_push(Locator {
        number,
        place: place as u32,
        size: size as u32,
    })
}

/// Puts the locators of unknown sections that stand one after the other at the end. Err: out of memory.
fn locate_others(
    others: &[Other<'_>],
    from: u64,
    locators: &mut Items<Locator>,
) -> Result<(), NoMemory>
    requires { from + length (others_bytes (map other_value others.now)) < 2 ^ 32 }
    ensures { OnOk result (locators.new ≡ locators.old ++ others_located from (map other_value others.now)) }
{
    let mut place = from;
    'others: for other in others {
        let size = other.bytes.as_slice().len() as u64;
        add_locator(locators, other.number, place, size)?;
        place += size;
    }
    Ok(())
}

/// The locators of the canonical file. Err: out of memory.
fn locators_of(
    alloc: Global,
    parts: &Parts<'_>,
    layout: &Layout<'_>,
) -> Result<Items<Locator>, NoMemory>
    requires layout { IsLayout layout.now (carried_by layout.now.carried) (contents_of parts.now) }
    requires small { size_with (carried_by layout.now.carried) (contents_of parts.now) ≤ MOST_BYTES }
    ensures { IfOk result (λ all. all ≡ (header_with (carried_by layout.now.carried) (contents_of parts.now)).locators) }
{
    let mut locators = Items::new(alloc);
    add_locator(
        &mut locators,
        VARIABLES_NUMBER,
        layout.variables,
        layout.classes - layout.variables,
    )?;
    add_locator(
        &mut locators,
        CLASSES_NUMBER,
        layout.classes,
        layout.preview - layout.classes,
    )?;
    add_locator(
        &mut locators,
        OBJECT_MAP_NUMBER,
        layout.map,
        layout.others - layout.map,
    )?;
    locate_others(parts.others.as_slice(), layout.others, &mut locators)?;
    Ok(locators)
}

/// The header of the canonical file. Err: out of memory.
pub(crate) fn header_of(
    alloc: Global,
    parts: &Parts<'_>,
    layout: &Layout<'_>,
) -> Result<FileHeader, NoMemory>
    requires layout { IsLayout layout.now (carried_by layout.now.carried) (contents_of parts.now) }
    requires small { size_with (carried_by layout.now.carried) (contents_of parts.now) ≤ MOST_BYTES }
    ensures { IfOk result (λ header. header ≡ header_with (carried_by layout.now.carried) (contents_of parts.now)) }
{
    let locators = locators_of(alloc, parts, layout)?;
    Ok(FileHeader {
        version: parts.version,
        lead: parts.lead,
        preview: layout.preview as u32,
        mark: parts.mark,
        code_page: parts.code_page,
        locators,
    })
}
