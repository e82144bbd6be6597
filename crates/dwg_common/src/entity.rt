//! What all entities have.

ghost use Rattle.dwg_common.specs.CommonLaws.{entity_is_body, entity_narrower, entity_sizes_alike};
ghost use Rattle.dwg_common.specs.Entities.{entity_common};

use crate::app_data::AppData;
use crate::bit_layout::Layout;
use crate::body::{BodyCode, BodyCode14, Lengths};
use crate::entity_start::{read_start, start_bits, start_fits, write_start};
use crate::look::{look_bits, look_fits, read_look, write_look};
use crate::named::{names_bits, names_fit, read_named, write_names};
use dwg_base::{ByteRun, Handle, Items, NoMemory};
use dwg_bits::{BitCursor, BitSink};
use dwg_handles::Ref;
use std::alloc::Global;

/// The entities before and after an entity in its block (Open Design Specification, "Common entity data").
#[derive(Clone, Copy, Debug, PartialEq, Eq)]
pub struct Links {
    /// The entity before it.
    pub previous: Ref,
    /// The entity after it.
    pub next: Ref,
}

/// What all entities have (Open Design Specification, "Common entity data").
#[derive(Drop)]
pub struct EntityCommon {
    /// What applications keep with it.
    pub app: Items<AppData>,
    /// A picture of it, below 2^32 bytes, kept without meaning.
    pub graphic: Option<ByteRun>,
    /// Where it belongs: 0 to its owner, 1 to the paper space, 2 to the model space.
    pub mode: u8,
    /// Its owner, there exactly where the mode is 0.
    pub owner: Option<Ref>,
    /// The objects that watch it, fewer than 2^32.
    pub reactors: Items<Ref>,
    /// Its dictionary of extensions.
    pub xdict: Ref,
    /// The entities before and after it, where it names them.
    pub links: Option<Links>,
    /// Its colour.
    pub colour: u16,
    /// The scale of its linetype, the word of a floating-point number.
    pub linetype_scale: u64,
    /// How its linetype is given, 0 to 3.
    pub linetype_flag: u8,
    /// Its linetype, there exactly where the flag is 3.
    pub linetype: Option<Ref>,
    /// How its plot style is given, 0 to 3.
    pub plotstyle_flag: u8,
    /// Its plot style, there exactly where the flag is 3.
    pub plotstyle: Option<Ref>,
    /// Not 0 where it isn't shown.
    pub invisible: u16,
    /// Its line weight.
    pub lineweight: u8,
    /// Its layer.
    pub layer: Ref,
}

/// What the main bits of an entity give before its look: how many references of each sort it has, and what applications keep.
#[derive(Drop)]
pub(crate) struct Start {
    /// What applications keep with it.
    pub(crate) app: Items<AppData>,
    /// A picture of it.
    pub(crate) graphic: Option<ByteRun>,
    /// Where it belongs; it names its owner where this is 0.
    pub(crate) mode: u8,
    /// How many objects watch it.
    pub(crate) reactors: u32,
    /// Whether its linetype is that of its layer, where that is spelled here.
    pub(crate) bylayer: bool,
    /// Whether it names no entities before and after it.
    pub(crate) nolinks: bool,
}

/// How an entity looks.
#[derive(Clone, Copy)]
pub(crate) struct Look {
    /// Its colour.
    pub(crate) colour: u16,
    /// The scale of its linetype.
    pub(crate) linetype_scale: u64,
    /// How its linetype is given; it names it where this is 3.
    pub(crate) linetype_flag: u8,
    /// How its plot style is given; it names it where this is 3.
    pub(crate) plotstyle_flag: u8,
    /// Not 0 where it isn't shown.
    pub(crate) invisible: u16,
    /// Its line weight.
    pub(crate) lineweight: u8,
}

/// What an entity names.
#[derive(Drop)]
pub(crate) struct Named {
    /// Its owner.
    pub(crate) owner: Option<Ref>,
    /// The objects that watch it.
    pub(crate) reactors: Items<Ref>,
    /// Its dictionary of extensions.
    pub(crate) xdict: Ref,
    /// What it names after that.
    pub(crate) after: AfterDictionary,
}

/// What an entity names after its dictionary.
#[derive(Clone, Copy)]
pub(crate) struct AfterDictionary {
    /// The entities before and after it.
    pub(crate) links: Option<Links>,
    /// Its layer.
    pub(crate) layer: Ref,
    /// Its linetype.
    pub(crate) linetype: Option<Ref>,
    /// Its plot style.
    pub(crate) plotstyle: Option<Ref>,
}

#[tactic(auto, unfolding(crate::specs::Entities::entity_common))]
impl BodyCode for EntityCommon {
    ghost grammar = { entity_common };

    fn parse(
        alloc: Global,
        layout: Layout,
        main: &mut BitCursor<'_>,
        refs: &mut BitCursor<'_>,
        base: Handle,
    ) -> Result<Option<EntityCommon>, NoMemory> {
        let Some(start) = read_start(alloc, layout, main, base)? else {
            return Ok(None);
        };
        let Some(look) = read_look(layout.version, start.bylayer, main) else {
            return Ok(None);
        };
        let Some(named) = read_named(alloc, layout.version, refs, base, &start, look)? else {
            return Ok(None);
        };
        Ok(Some(EntityCommon {
            app: start.app,
            graphic: start.graphic,
            mode: start.mode,
            owner: named.owner,
            reactors: named.reactors,
            xdict: named.xdict,
            links: named.after.links,
            colour: look.colour,
            linetype_scale: look.linetype_scale,
            linetype_flag: look.linetype_flag,
            linetype: named.after.linetype,
            plotstyle_flag: look.plotstyle_flag,
            plotstyle: named.after.plotstyle,
            invisible: look.invisible,
            lineweight: look.lineweight,
            layer: named.after.layer,
        }))
    }

    fn fits_in(&self, layout: Layout, base: Handle) -> bool {
        if !start_fits(self, layout, base) {
            return false;
        }
        if !look_fits(self, layout.version) {
            return false;
        }
        names_fit(self, layout.version, base)
    }

    fn lengths_in(&self, layout: Layout, base: Handle) -> Lengths {
        Lengths {
            main: start_bits(self, layout, base) + look_bits(self, layout.version),
            refs: names_bits(self, layout.version, base),
        }
    }

    fn write_main_in(&self, layout: Layout, base: Handle, sink: &mut BitSink) {
        write_start(self, layout, base, sink);
        write_look(self, layout.version, sink);
    }

    fn write_refs_in(&self, layout: Layout, base: Handle, sink: &mut BitSink) {
        write_names(self, layout.version, base, sink);
    }

    ghost laws = { λ layout base few small. entity_is_body layout base few small };
}

impl BodyCode14 for EntityCommon {
    ghost narrower = { entity_narrower };

    ghost sizes_alike = { entity_sizes_alike };
}
