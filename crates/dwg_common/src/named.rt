//! What an entity names, as bits (Open Design Specification, "Common entity data").

ghost use Rattle.std.specs.Prelude.{◌≡◌, ◌^◌, ◌<◌, ◌≤◌, ◌↔◌, length, is_none, not, option_map, IfOk, IsTrue};
ghost use Rattle.dwg_bits.specs.Sink.{Extends};
ghost use Rattle.dwg_grammar.specs.Combinators.{items, when};
ghost use Rattle.dwg_grammar.specs.ReferenceCodes.{reference};
ghost use Rattle.dwg_common.specs.Entities.{after_dictionary, refs_after_dictionary, entity_refs, links, look_of, named_of, start_of};
ghost use Rattle.dwg_common.specs.EntityReading.{after_dictionary_read, look_read, named_read, start_read};
ghost use Rattle.dwg_common.specs.Parsing.{Keeps, Parses};

use crate::entity::{AfterDictionary, EntityCommon, Links, Look, Named, Start};
use crate::links::CodeLinks;
use crate::part_reading::{parse_code, parse_refs, parse_when};
use crate::two_refs::two_refs_fit;
use dwg_base::{Handle, NoMemory, Version};
use dwg_bits::{BitCursor, BitSink};
use dwg_codes::{BitCode, length_when, write_when};
use dwg_handles::{CodeH, Ref, refs_bits, refs_fit, write_refs};
use std::alloc::Global;

/// The mode of an entity that names its owner.
const TO_OWNER: u8 = 0;

/// The flag of a linetype or a plot style that is named.
const NAMED: u8 = 3;

/// Reads what an entity names after its dictionary, as it is parsed.
fn read_after_dictionary(
    version: Version,
    cursor: &mut BitCursor<'_>,
    base: Handle,
    nolinks: bool,
    look: Look,
) -> Option<AfterDictionary>
    ensures parsed { Parses (refs_after_dictionary version base nolinks look.linetype_flag look.plotstyle_flag).grammar (option_map after_dictionary_read result) cursor.old cursor.new }
    ensures kept { Keeps cursor.old cursor.new }
{
    match version {
        Version::Ac1014 => {
            let layer = parse_code::<CodeH>(&base, cursor)?;
            let linetype = parse_when::<CodeH>(&base, look.linetype_flag == NAMED, cursor)?;
            let links = parse_when::<CodeLinks>(&base, !nolinks, cursor)?;
            let plotstyle = parse_when::<CodeH>(&base, look.plotstyle_flag == NAMED, cursor)?;
            Some(AfterDictionary {
                links,
                layer,
                linetype,
                plotstyle,
            })
        }
        Version::Ac1015 => {
            let links = parse_when::<CodeLinks>(&base, !nolinks, cursor)?;
            let layer = parse_code::<CodeH>(&base, cursor)?;
            let linetype = parse_when::<CodeH>(&base, look.linetype_flag == NAMED, cursor)?;
            let plotstyle = parse_when::<CodeH>(&base, look.plotstyle_flag == NAMED, cursor)?;
            Some(AfterDictionary {
                links,
                layer,
                linetype,
                plotstyle,
            })
        }
    }
}

/// Reads what the entity of the handle `base` names, as it is parsed: what there is of it is given by what it begins with and
/// by its look. Err: out of memory, which is taken only for references that are there.
pub(crate) fn read_named(
    alloc: Global,
    version: Version,
    cursor: &mut BitCursor<'_>,
    base: Handle,
    start: &Start,
    look: Look,
) -> Result<Option<Named>, NoMemory>
    ensures parsed { IfOk result (λ found. Parses (entity_refs version base (start_read start.now, look_read look)).grammar (option_map named_read found) cursor.old cursor.new) }
    ensures kept { Keeps cursor.old cursor.new }
{
    let Some(owner) = parse_when::<CodeH>(&base, start.mode == TO_OWNER, cursor) else {
        return Ok(None);
    };
    let Some(reactors) = parse_refs(alloc, cursor, base, start.reactors)? else {
        return Ok(None);
    };
    let Some(xdict) = parse_code::<CodeH>(&base, cursor) else {
        return Ok(None);
    };
    let Some(after) = read_after_dictionary(version, cursor, base, start.nolinks, look) else {
        return Ok(None);
    };
    Ok(Some(Named {
        owner,
        reactors,
        xdict,
        after,
    }))
}

/// Whether a reference is there exactly where it is present, and can be given from the object of the handle `base`.
#[tactic(auto, unfolding(dwg_grammar::specs::ReferenceCodes::reference))]
fn ref_fits_when(present: bool, value: &Option<Ref>, base: Handle) -> bool
    ensures { IsTrue result ↔ (when present (reference base)).IsValue value.now }
{
    match value {
        Some(inner) => {
            if !present {
                return false;
            }
            inner.fits(base)
        }
        None => !present,
    }
}

/// Whether each of so many references can be given from the object of the handle `base`.
#[tactic(auto, unfolding(dwg_grammar::specs::Combinators::chain))]
fn reactors_fit(refs: &[Ref], base: Handle) -> bool
    ensures { IsTrue result ↔ (items (reference base) (length refs.now)).IsValue refs.now }
{
    refs_fit(refs, base)
}

/// Whether the entities before and after an entity can be given from it, where it names them.
fn links_fit_where_there(value: &Option<Links>, base: Handle) -> bool
    ensures { IsTrue result ↔ (when (not (is_none value.now)) (links base).grammar).IsValue value.now }
{
    match value {
        Some(inner) => two_refs_fit((inner.previous, inner.next), base),
        None => true,
    }
}

/// Whether what an entity names after its dictionary can be given from it.
#[tactic(auto, unfolding(dwg_grammar::specs::ReferenceCodes::reference), using(crate::proofs::AfterDictionaryLemmas::after_dictionary_value))]
fn after_dictionary_fits(common: &EntityCommon, version: Version, base: Handle) -> bool
    ensures { IsTrue result ↔ (refs_after_dictionary version base (is_none common.now.links) common.now.linetype_flag common.now.plotstyle_flag).grammar.IsValue (after_dictionary common.now) }
{
    if !links_fit_where_there(&common.links, base) {
        return false;
    }
    if !common.layer.fits(base) {
        return false;
    }
    if !ref_fits_when(common.linetype_flag == NAMED, &common.linetype, base) {
        return false;
    }
    ref_fits_when(common.plotstyle_flag == NAMED, &common.plotstyle, base)
}

/// Whether what an entity names can be given from it: its owner is there exactly where its mode is 0, its linetype and its
/// plot style exactly where their flags are 3, and each reference reaches its target.
#[tactic(auto, unfolding(dwg_grammar::specs::ReferenceCodes::reference))]
pub(crate) fn names_fit(common: &EntityCommon, version: Version, base: Handle) -> bool
    ensures { IsTrue result ↔ (entity_refs version base (start_of version common.now, look_of common.now)).grammar.IsValue (named_of common.now) }
{
    if !ref_fits_when(common.mode == TO_OWNER, &common.owner, base) {
        return false;
    }
    if !reactors_fit(common.reactors.as_slice(), base) {
        return false;
    }
    if !common.xdict.fits(base) {
        return false;
    }
    after_dictionary_fits(common, version, base)
}

/// How many bits what an entity names after its dictionary is written by.
fn after_dictionary_bits(common: &EntityCommon, version: Version, base: Handle) -> u64
    requires value { (refs_after_dictionary version base (is_none common.now.links) common.now.linetype_flag common.now.plotstyle_flag).grammar.IsValue (after_dictionary common.now) }
    ensures length { result ≡ length ((refs_after_dictionary version base (is_none common.now.links) common.now.linetype_flag common.now.plotstyle_flag).grammar.short (after_dictionary common.now)) }
    ensures few { result < 2 ^ 36 }
{
    let links = !common.links.is_none();
    let linetype = common.linetype_flag == NAMED;
    let plotstyle = common.plotstyle_flag == NAMED;
    match version {
        Version::Ac1014 => {
            CodeH::length(&base, &common.layer)
                + length_when::<CodeH>(&base, linetype, &common.linetype)
                + length_when::<CodeLinks>(&base, links, &common.links)
                + length_when::<CodeH>(&base, plotstyle, &common.plotstyle)
        }
        Version::Ac1015 => {
            length_when::<CodeLinks>(&base, links, &common.links)
                + CodeH::length(&base, &common.layer)
                + length_when::<CodeH>(&base, linetype, &common.linetype)
                + length_when::<CodeH>(&base, plotstyle, &common.plotstyle)
        }
    }
}

/// How many bits what an entity names is written by.
#[tactic(auto, unfolding(dwg_grammar::specs::Combinators::chain))]
pub(crate) fn names_bits(common: &EntityCommon, version: Version, base: Handle) -> u64
    requires value { (entity_refs version base (start_of version common.now, look_of common.now)).grammar.IsValue (named_of common.now) }
    requires few { length ((entity_refs version base (start_of version common.now, look_of common.now)).grammar.short (named_of common.now)) < 2 ^ 62 }
    ensures { result ≡ length ((entity_refs version base (start_of version common.now, look_of common.now)).grammar.short (named_of common.now)) }
{
    length_when::<CodeH>(&base, common.mode == TO_OWNER, &common.owner)
        + refs_bits(common.reactors.as_slice(), base)
        + CodeH::length(&base, &common.xdict)
        + after_dictionary_bits(common, version, base)
}

/// Writes what an entity names after its dictionary.
fn write_after_dictionary(common: &EntityCommon, version: Version, base: Handle, sink: &mut BitSink)
    requires value { (refs_after_dictionary version base (is_none common.now.links) common.now.linetype_flag common.now.plotstyle_flag).grammar.IsValue (after_dictionary common.now) }
    requires room { length ((refs_after_dictionary version base (is_none common.now.links) common.now.linetype_flag common.now.plotstyle_flag).grammar.short (after_dictionary common.now)) ≤ sink.old.spare }
    ensures { Extends sink.old sink.new ((refs_after_dictionary version base (is_none common.now.links) common.now.linetype_flag common.now.plotstyle_flag).grammar.short (after_dictionary common.now)) }
{
    let links = !common.links.is_none();
    let linetype = common.linetype_flag == NAMED;
    let plotstyle = common.plotstyle_flag == NAMED;
    match version {
        Version::Ac1014 => {
            CodeH::write(&base, &common.layer, sink);
            write_when::<CodeH>(&base, linetype, &common.linetype, sink);
            write_when::<CodeLinks>(&base, links, &common.links, sink);
            write_when::<CodeH>(&base, plotstyle, &common.plotstyle, sink);
        }
        Version::Ac1015 => {
            write_when::<CodeLinks>(&base, links, &common.links, sink);
            CodeH::write(&base, &common.layer, sink);
            write_when::<CodeH>(&base, linetype, &common.linetype, sink);
            write_when::<CodeH>(&base, plotstyle, &common.plotstyle, sink);
        }
    }
}

/// Writes what an entity names.
#[tactic(auto, unfolding(dwg_grammar::specs::Combinators::chain))]
pub(crate) fn write_names(common: &EntityCommon, version: Version, base: Handle, sink: &mut BitSink)
    requires value { (entity_refs version base (start_of version common.now, look_of common.now)).grammar.IsValue (named_of common.now) }
    requires room { length ((entity_refs version base (start_of version common.now, look_of common.now)).grammar.short (named_of common.now)) ≤ sink.old.spare }
    ensures { Extends sink.old sink.new ((entity_refs version base (start_of version common.now, look_of common.now)).grammar.short (named_of common.now)) }
{
    write_when::<CodeH>(&base, common.mode == TO_OWNER, &common.owner, sink);
    write_refs(common.reactors.as_slice(), base, sink);
    CodeH::write(&base, &common.xdict, sink);
    write_after_dictionary(common, version, base, sink);
}
