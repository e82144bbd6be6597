//! Recovery of a whole input.

ghost use Rattle.std.specs.Prelude.{◌≡◌, ◌+◌, ◌*◌, ◌≤◌, [], ◌++◌, length, map, None, Some, IfOk, IfSome};
ghost use Rattle.std.specs.List.{AllByRecursion};
ghost use Rattle.std.specs.Result.{result_unwrap_or};
ghost use Rattle.dwg_base.specs.Devices.{MOST_BYTES};
ghost use Rattle.dwg_base.specs.Refusals.{Reports, first_fault};
ghost use Rattle.dwg_file.specs.Contents.{contents_of};
ghost use Rattle.dwg_file.specs.DrawingAt.{drawing_at};
ghost use Rattle.dwg_file.specs.FileLines.{ALL_LINES, frames_tried};
ghost use Rattle.dwg_file.specs.ObjectFrames.{frame_of};
ghost use Rattle.dwg_object.specs.Objects.{value_of};
ghost use Rattle.dwg_recover.specs.Finding.{AreFound};
ghost use Rattle.dwg_recover.specs.Frames.{kept_of, in_order_of_place};
ghost use Rattle.dwg_recover.specs.KeptObjects.{HoldsObjects};
ghost use Rattle.dwg_recover.specs.MapFrames.{all_numbered, numbered};
ghost use Rattle.dwg_recover.specs.Placing.{IsPlaced};
ghost use Rattle.dwg_recover.specs.Recovering.{classes_found, code_page_of, drawing_recovered, frames_found, frames_kept, frames_mapped, lead_of, losses_of, mark_of, object_of, pairs_read, recovered, recovered_damaged, recovered_whole, reported, walk_of};
ghost use Rattle.dwg_recover.specs.Results.{recovered_value};
ghost use Rattle.dwg_recover.specs.Sections.{header_of, locators_of, section_found};
ghost use Rattle.dwg_recover.specs.Walks.{lost_end, lost_pages};
ghost use Rattle.dwg_recover.specs.declared.frame.Frame.{Frame};

use crate::candidates::{in_order_of_place, mapped_frames};
use crate::frame::Frame;
use crate::kept::KeptFrames;
use crate::laws::recovered_laws;
use crate::loss::{Kept, Loss};
use crate::losses::{with_loss_if, with_losses, with_lost_pairs, with_lost_sections};
use crate::map_walk::{Walked, walk};
use crate::objects::KeptObjects;
use crate::scan::scan;
use crate::sections::{classes_at, header_of, place_located, section_found, variables_at};
use dwg_base::{Fault, Items, NoMemory, Refusal, Version};
use dwg_check::SpanChecks;
use dwg_classes::Class;
use dwg_file::{
    Drawing, FramedDrawing, ObjectFrame, Parts, drawing_laws, in_handle_order, read_with_frames,
    whole_others,
};
use dwg_object::Object;
use dwg_sections::{FileHeader, Framed, Locator, OBJECT_MAP_NUMBER};
use dwg_steps::Steps;
use std::alloc::Global;
use std::sync::ledger::Ledger;

/// What is recovered of an input. A rule of this project.
#[derive(Drop)]
pub struct Recovered<'a> {
    /// The drawing: the one that the input spells, or all that is left of it.
    pub drawing: Drawing<'a>,
    /// Why the input spells no drawing; none where it spells one.
    pub refusal: Option<Refusal>,
    /// What is lost, in the order of [`Loss`] and within it in that of the locators, of the walk or of the map.
    pub losses: Items<Loss>,
    /// The frames of the drawing's objects, in order of place.
    pub kept: Items<Kept>,
}

/// A frame as it is reported.
fn kept_of(frame: &Frame) -> Kept
    ensures { result ≡ kept_of frame.now }
{
    Kept {
        handle: frame.handle,
        from: frame.from,
        end: frame.end,
        mapped: frame.pair.is_some(),
    }
}

/// Frames as they are reported, in their order. Err: out of memory.
fn all_kept(alloc: Global, frames: &[Frame]) -> Result<Items<Kept>, NoMemory>
    ensures { IfOk result (λ kept. kept ≡ map kept_of frames.now) }
{
    let mut kept = Items::new(alloc);
    'frames: for frame in frames {
        kept.try_push(kept_of(frame))?;
    }
    Ok(kept)
}

/// Frames as they are reported, in order of place. Err: out of memory.
#[tactic(auto, unfolding(crate::specs::Recovering::reported))]
fn reported(alloc: Global, bytes: &[u8], frames: Vec<Frame>) -> Result<Items<Kept>, NoMemory>
    requires { AllByRecursion (IsPlaced (length bytes.now)) frames.items }
    ensures { IfOk result (λ kept. kept ≡ reported bytes.now frames.items) }
{
    let ordered = in_order_of_place(alloc, frames)?;
    all_kept(alloc, ordered.as_slice())
}

/// The pages of the map that are walked over, and their pairs; where the header is lost there are none. Err: out of memory.
fn walk_of(alloc: Global, bytes: &[u8], header: &Option<FileHeader>) -> Result<Walked, NoMemory>
    requires { header.now ≡ header_of bytes.now }
    ensures pairs { IfOk result (λ walked. walked.pairs ≡ pairs_read bytes.now) }
    ensures losses { IfOk result (λ walked. walked.losses ≡ lost_pages bytes.now 0 (walk_of bytes.now).pages ++ lost_end (walk_of bytes.now).lost) }
{
    let Some(place) = place_located(header, OBJECT_MAP_NUMBER) else {
        return Ok(Walked {
            pairs: Items::new(alloc),
            losses: Items::new(alloc),
        });
    };
    let walked = walk(alloc, bytes, u64::from(place))?;
    Ok(walked)
}

/// Where the two framed sections are found.
#[derive(Clone, Copy)]
struct Places {
    variables: Option<usize>,
    classes: Option<usize>,
}

/// Where the two framed sections are found. Err: out of memory.
fn find_sections<L: Ledger>(
    alloc: Global,
    bytes: &[u8],
    checks: &SpanChecks<'_>,
    header: &Option<FileHeader>,
    steps: &mut Steps<L>,
) -> Result<Places, NoMemory>
    requires limit { length bytes.now ≤ MOST_BYTES }
    requires same { checks.now ≡ bytes.now }
    requires header { header.now ≡ header_of bytes.now }
    ensures variables { IfOk result (λ places. places.variables ≡ section_found Framed.Variables bytes.now) }
    ensures classes { IfOk result (λ places. places.classes ≡ section_found Framed.Classes bytes.now) }
    ensures steps { steps.new ≤ steps.old + 15 * (2 * length bytes.now + 2) }
{
    let variables = section_found(alloc, bytes, checks, header, Framed::Variables, steps)?;
    let classes = section_found(alloc, bytes, checks, header, Framed::Classes, steps)?;
    Ok(Places { variables, classes })
}

/// The locators of a header; where it is lost there are none.
fn locators_of(header: &Option<FileHeader>) -> &[Locator]
    ensures { result.now ≡ locators_of header.now }
{
    match header {
        Some(header) => header.locators.as_slice(),
        None => &[],
    }
}

/// All losses, in their order. Err: out of memory.
#[tactic(auto, unfolding(crate::specs::Recovering::losses_of))]
fn losses_of(
    alloc: Global,
    bytes: &[u8],
    header: &Option<FileHeader>,
    places: &Places,
    walked: &Walked,
    mapped: &KeptFrames,
) -> Result<Items<Loss>, NoMemory>
    requires header { header.now ≡ header_of bytes.now }
    requires variables { places.now.variables ≡ section_found Framed.Variables bytes.now }
    requires classes { places.now.classes ≡ section_found Framed.Classes bytes.now }
    requires pairs { walked.now.pairs ≡ pairs_read bytes.now }
    requires pages { walked.now.losses ≡ lost_pages bytes.now 0 (walk_of bytes.now).pages ++ lost_end (walk_of bytes.now).lost }
    requires mapped { mapped.now ≡ frames_mapped bytes.now }
    ensures { IfOk result (λ losses. losses ≡ losses_of bytes.now) }
{
    let losses = with_loss_if(Items::new(alloc), header.is_none(), Loss::Header)?;
    let losses = with_loss_if(losses, places.variables.is_none(), Loss::Variables)?;
    let losses = with_loss_if(losses, places.classes.is_none(), Loss::Classes)?;
    let losses = with_lost_sections(losses, bytes, locators_of(header))?;
    let losses = with_losses(losses, walked.losses.as_slice())?;
    let losses = with_lost_pairs(losses, mapped, walked.pairs.as_slice())?;
    Ok(losses)
}

/// What a header reports of a drawing beside its sections.
#[derive(Clone, Copy)]
struct HeaderFields {
    lead: [u8; 7],
    mark: [u8; 2],
    code_page: u16,
}

/// What a header reports of a drawing beside its sections; where it is lost these are zeros.
fn header_fields_of(header: &Option<FileHeader>) -> HeaderFields
    ensures lead { result.lead ≡ lead_of header.now }
    ensures mark { result.mark ≡ mark_of header.now }
    ensures code_page { result.code_page ≡ code_page_of header.now }
{
    match header {
        Some(header) => HeaderFields {
            lead: header.lead,
            mark: header.mark,
            code_page: header.code_page,
        },
        None => HeaderFields {
            lead: [0; 7],
            mark: [0; 2],
            code_page: 0,
        },
    }
}

/// The parts of the drawing of what is found: the header, the sections, the classes and the objects of the frames that are kept.
/// Err: out of memory.
fn parts_recovered<'a>(
    alloc: Global,
    bytes: &'a [u8],
    header: &Option<FileHeader>,
    places: &Places,
    classes: Items<Class>,
    objects: Vec<Object<'a>>,
) -> Result<Parts<'a>, NoMemory>
    requires header { header.now ≡ header_of bytes.now }
    requires variables { places.now.variables ≡ section_found Framed.Variables bytes.now }
    requires classes { classes ≡ classes_found bytes.now }
    requires objects { map value_of objects.items ≡ map (object_of (classes_found bytes.now) bytes.now) (frames_kept bytes.now) }
    ensures { IfOk result (λ parts. contents_of parts ≡ drawing_recovered bytes.now) }
{
    let prefix = header_fields_of(header);
    let (lead, mark) = (prefix.lead, prefix.mark);
    let variables = variables_at(bytes, places.variables);
    let others = whole_others(alloc, bytes, locators_of(header))?;
    let objects = in_handle_order(objects);
    Ok(Parts {
        version: Version::of_input(bytes),
        lead,
        mark,
        code_page: prefix.code_page,
        variables,
        classes,
        others,
        objects,
    })
}

/// The drawing of parts that were recovered, which are valid.
fn drawing_of<'a>(bytes: &[u8], parts: Parts<'a>) -> Drawing<'a>
    requires limit { length bytes.now ≤ MOST_BYTES }
    requires parts { contents_of parts ≡ drawing_recovered bytes.now }
    ensures { contents_of result ≡ drawing_recovered bytes.now }
{
    drawing_laws();
    recovered_laws();
    Drawing::build(parts)
}

/// The walk over the map, and the frames that are kept for its pairs.
#[derive(Drop)]
struct Mapped {
    walked: Walked,
    kept: KeptFrames,
}

/// Walks over the map and keeps the frames of its pairs. Err: out of memory.
#[tactic(auto, unfolding(crate::specs::Recovering::frames_mapped))]
fn read_mapped<L: Ledger>(
    alloc: Global,
    bytes: &[u8],
    checks: &SpanChecks<'_>,
    header: &Option<FileHeader>,
    steps: &mut Steps<L>,
) -> Result<Mapped, NoMemory>
    requires same { checks.now ≡ bytes.now }
    requires header { header.now ≡ header_of bytes.now }
    ensures pairs { IfOk result (λ mapped. mapped.walked.pairs ≡ pairs_read bytes.now) }
    ensures pages { IfOk result (λ mapped. mapped.walked.losses ≡ lost_pages bytes.now 0 (walk_of bytes.now).pages ++ lost_end (walk_of bytes.now).lost) }
    ensures kept { IfOk result (λ mapped. mapped.kept ≡ frames_mapped bytes.now) }
    ensures steps { steps.new ≤ steps.old + 15 * length bytes.now }
{
    recovered_laws();
    let walked = walk_of(alloc, bytes, header)?;
    let kept = mapped_frames(alloc, bytes, checks, walked.pairs.as_slice(), steps)?;
    Ok(Mapped { walked, kept })
}

/// What is found of an input beside its frames: the header, where the two framed sections stand, and the classes.
#[derive(Drop)]
struct PartsFound {
    header: Option<FileHeader>,
    places: Places,
    classes: Items<Class>,
}

/// What is found of an input beside its frames. Err: out of memory.
#[tactic(auto, unfolding(crate::specs::Recovering::classes_found))]
fn find_parts<L: Ledger>(
    alloc: Global,
    bytes: &[u8],
    checks: &SpanChecks<'_>,
    steps: &mut Steps<L>,
) -> Result<PartsFound, NoMemory>
    requires limit { length bytes.now ≤ MOST_BYTES }
    requires same { checks.now ≡ bytes.now }
    ensures found { IfOk result (AreFound bytes.now) }
    ensures steps { steps.new ≤ steps.old + 15 * (2 * length bytes.now + 2) }
{
    let header = header_of(alloc, bytes)?;
    let places = find_sections(alloc, bytes, checks, &header, steps)?;
    let classes = classes_at(alloc, bytes, places.classes)?;
    Ok(PartsFound {
        header,
        places,
        classes,
    })
}

/// What is lost of an input, and the frames that are kept with their objects.
#[derive(Drop)]
struct Salvage<'a> {
    losses: Items<Loss>,
    kept: KeptObjects<'a>,
}

/// What is lost of an input, and the frames that are kept with their objects. Err: out of memory.
fn gather_frames<'a, L: Ledger>(
    alloc: Global,
    bytes: &'a [u8],
    checks: &SpanChecks<'_>,
    found: &PartsFound,
    steps: &mut Steps<L>,
) -> Result<Salvage<'a>, NoMemory>
    requires same { checks.now ≡ bytes.now }
    requires found { AreFound bytes.now found.now }
    ensures losses { IfOk result (λ gathered. gathered.losses ≡ losses_of bytes.now) }
    ensures frames { IfOk result (λ gathered. gathered.kept.frames ≡ frames_kept bytes.now) }
    ensures objects { IfOk result (λ gathered. HoldsObjects (classes_found bytes.now) bytes.now gathered.kept) }
    ensures steps { steps.new ≤ steps.old + 15 * (2 * length bytes.now) }
{
    let Mapped { walked, kept } = read_mapped(alloc, bytes, checks, &found.header, steps)?;
    let losses = losses_of(alloc, bytes, &found.header, &found.places, &walked, &kept)?;
    let kept = scan(alloc, bytes, checks, found.classes.as_slice(), kept, steps)?;
    Ok(Salvage { losses, kept })
}

/// What is recovered of an input that spells no drawing, by what is found of it, what is lost, and the frames that are kept with their
/// objects. Err: out of memory.
fn recovered_of<'a>(
    alloc: Global,
    bytes: &'a [u8],
    refusal: Refusal,
    found: PartsFound,
    gathered: Salvage<'a>,
) -> Result<Recovered<'a>, NoMemory>
    requires limit { length bytes.now ≤ MOST_BYTES }
    requires refusal { first_fault ALL_LINES bytes.now ≡ Some refusal }
    requires found { AreFound bytes.now found }
    requires losses { gathered.losses ≡ losses_of bytes.now }
    requires frames { gathered.kept.frames ≡ frames_kept bytes.now }
    requires objects { HoldsObjects (classes_found bytes.now) bytes.now gathered.kept }
    ensures recovered { IfOk result (λ value. recovered_value value ≡ recovered_damaged bytes.now) }
{
    let PartsFound {
        header,
        places,
        classes,
    } = found;
    let Salvage { losses, kept } = gathered;
    let KeptObjects { frames, objects } = kept;
    let frames = frames.into_frames();
    let parts = parts_recovered(alloc, bytes, &header, &places, classes, objects)?;
    let kept = reported(alloc, bytes, frames)?;
    Ok(Recovered {
        drawing: drawing_of(bytes, parts),
        refusal: Some(refusal),
        losses,
        kept,
    })
}

/// What is recovered of an input that spells no drawing, for which it is refused so. Err: out of memory.
fn recover_damaged<'a, L: Ledger>(
    alloc: Global,
    bytes: &'a [u8],
    refusal: Refusal,
    steps: &mut Steps<L>,
) -> Result<Recovered<'a>, NoMemory>
    requires limit { length bytes.now ≤ MOST_BYTES }
    requires refusal { first_fault ALL_LINES bytes.now ≡ Some refusal }
    ensures recovered { IfOk result (λ value. recovered_value value ≡ recovered_damaged bytes.now) }
    ensures steps { steps.new ≤ steps.old + 15 * (4 * length bytes.now + 4) }
{
    let checks = SpanChecks::build(alloc, bytes)?;
    let found = find_parts(alloc, bytes, &checks, steps)?;
    let gathered = gather_frames(alloc, bytes, &checks, &found, steps)?;
    recovered_of(alloc, bytes, refusal, found, gathered)
}

/// The frame of a pair of a map, which has this number.
fn numbered(number: u64, frame: &ObjectFrame) -> Frame
    ensures { result ≡ numbered number frame.now }
{
    Frame {
        pair: Some(number),
        handle: frame.handle,
        from: frame.from,
        end: frame.end,
    }
}

/// The frames of a map, in its order, each for its pair. Err: out of memory.
fn all_numbered(alloc: Global, frames: &[ObjectFrame]) -> Result<Vec<Frame>, NoMemory>
    ensures { IfOk result (λ all. all.items ≡ all_numbered 0 frames.now) }
{
    let mut all = Vec::new(alloc);
    'frames: for index in 0..frames.len() {
        all.push(numbered(index as u64, &frames[index]))?;
    }
    Ok(all)
}

/// The frames of the map of an input that spells a drawing, as they are reported. Err: out of memory.
fn map_reported(
    alloc: Global,
    bytes: &[u8],
    frames: &[ObjectFrame],
) -> Result<Items<Kept>, NoMemory>
    requires { frames.now ≡ map frame_of (result_unwrap_or (frames_tried bytes.now) []) }
    ensures { IfOk result (λ kept. kept ≡ reported bytes.now (frames_found 0 (result_unwrap_or (frames_tried bytes.now) []))) }
{
    let all = all_numbered(alloc, frames)?;
    reported(alloc, bytes, all)
}

/// What is recovered of an input that spells a drawing: that drawing, and the frames of its map. Err: out of memory.
fn recover_whole<'a>(
    alloc: Global,
    bytes: &'a [u8],
    read: FramedDrawing<'a>,
) -> Result<Recovered<'a>, NoMemory>
    requires drawing { contents_of read.drawing ≡ drawing_at bytes.now }
    requires frames { read.frames ≡ map frame_of (result_unwrap_or (frames_tried bytes.now) []) }
    ensures recovered { IfOk result (λ value. recovered_value value ≡ recovered_whole bytes.now) }
{
    let kept = map_reported(alloc, bytes, read.frames.as_slice())?;
    Ok(Recovered {
        drawing: read.drawing,
        refusal: None,
        losses: Items::new(alloc),
        kept,
    })
}

/// What is recovered of an input in which a line fails; where memory was wanted, that. Err: out of memory.
fn recover_refused<'a, L: Ledger>(
    alloc: Global,
    bytes: &'a [u8],
    fault: Fault,
    steps: &mut Steps<L>,
) -> Result<Recovered<'a>, NoMemory>
    requires limit { length bytes.now ≤ MOST_BYTES }
    requires refused { Reports fault (first_fault ALL_LINES bytes.now) }
    ensures recovered { IfOk result (λ value. recovered_value value ≡ recovered bytes.now) }
    ensures steps { steps.new ≤ steps.old + 15 * (4 * length bytes.now + 4) }
{
    match fault {
        Fault::Refused(refusal) => recover_damaged(alloc, bytes, refusal, steps),
        Fault::NoMemory => Err(NoMemory),
    }
}

/// Recovers what an input of at most 32 MiB holds. A rule of this project.
///
/// Where the input spells a drawing, it is that drawing, nothing is lost, and the frames of all its pairs are kept. Otherwise the
/// first line of the table that refuses it is reported, and what can be shown to be whole is kept: the file header; the header
/// variables and the classes at the places of their locators, or else the first whole ones that stand in the input; the unknown
/// sections that it holds; of the pairs of the map pages with right check words, in order of place, each whose frame stands at
/// its place with its handle, shares no byte with the frames before and has a new handle; and then every frame that stands
/// elsewhere, shares no byte with these, has a new handle, and is read with its common part.
///
/// A step is one application of a power of a zero byte to a check word. Err: out of memory, which is taken for
/// what the input holds.
pub fn recover<'a, L: Ledger>(
    alloc: Global,
    bytes: &'a [u8],
    steps: &mut Steps<L>,
) -> Result<Recovered<'a>, NoMemory>
    requires { length bytes.now ≤ MOST_BYTES }
    // What is recovered is what the rules say.
    ensures recovered { IfOk result (λ value. recovered_value value ≡ recovered bytes.now) }

    // Check words of spans take few steps, whatever the input and the answer.
    ensures steps { steps.new ≤ steps.old + 15 * (4 * length bytes.now + 4) }
{
    drawing_laws();
    match read_with_frames(alloc, bytes) {
        Ok(read) => recover_whole(alloc, bytes, read),
        Err(fault) => recover_refused(alloc, bytes, fault, steps),
    }
}
