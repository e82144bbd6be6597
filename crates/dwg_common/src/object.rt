//! What all objects have that are no entities.

ghost use Rattle.dwg_common.specs.CommonLaws.{object_is_body, object_narrower, object_sizes_alike};
ghost use Rattle.dwg_common.specs.NonEntities.{object_common};

use crate::app_data::AppData;
use crate::app_list::{app_fits, app_length, read_items, write_app};
use crate::bit_layout::Layout;
use crate::bit_size::{bit_size_bits, read_bit_size, write_bit_size};
use crate::body::{BodyCode, BodyCode14, Lengths};
use crate::counts::TOO_MANY;
use crate::part_reading::{parse_code, parse_ref, parse_refs};
use dwg_base::{Handle, Items, NoMemory};
use dwg_bits::{BitCursor, BitSink};
use dwg_codes::{BitCode, CodeBL};
use dwg_handles::{Ref, ref_bits, refs_bits, refs_fit, write_ref, write_refs};
use std::alloc::Global;

/// What all objects have that are no entities (Open Design Specification, "Common non-entity object format").
#[derive(Drop)]
pub struct ObjectCommon {
    /// What applications keep with it.
    pub app: Items<AppData>,
    /// The objects that watch it, fewer than 2^32.
    pub reactors: Items<Ref>,
    /// Its owner.
    pub owner: Ref,
    /// Its dictionary of extensions.
    pub xdict: Ref,
}

#[tactic(auto, unfolding(crate::specs::NonEntities::object_common, dwg_grammar::specs::ReferenceCodes::reference, dwg_grammar::specs::Combinators::chain))]
impl BodyCode for ObjectCommon {
    ghost grammar = { object_common };

    fn parse(
        alloc: Global,
        layout: Layout,
        main: &mut BitCursor<'_>,
        refs: &mut BitCursor<'_>,
        base: Handle,
    ) -> Result<Option<ObjectCommon>, NoMemory> {
        let Some(app) = read_items(alloc, main, base)? else {
            return Ok(None);
        };
        let Some(()) = read_bit_size(layout, main) else {
            return Ok(None);
        };
        let Some(count) = parse_code::<CodeBL>(&(), main) else {
            return Ok(None);
        };
        let Some(owner) = parse_ref(refs, base) else {
            return Ok(None);
        };
        let Some(reactors) = parse_refs(alloc, refs, base, count)? else {
            return Ok(None);
        };
        let Some(xdict) = parse_ref(refs, base) else {
            return Ok(None);
        };
        Ok(Some(ObjectCommon {
            app,
            reactors,
            owner,
            xdict,
        }))
    }

    fn fits_in(&self, _layout: Layout, base: Handle) -> bool {
        let reactors = self.reactors.as_slice();
        if !app_fits(self.app.as_slice(), base) {
            return false;
        }
        if reactors.len() >= TOO_MANY {
            return false;
        }
        if !refs_fit(reactors, base) {
            return false;
        }
        if !self.owner.fits(base) {
            return false;
        }
        self.xdict.fits(base)
    }

    fn lengths_in(&self, layout: Layout, base: Handle) -> Lengths {
        let reactors = self.reactors.as_slice();
        let count = reactors.len() as u32;
        Lengths {
            main: app_length(self.app.as_slice(), base)
                + bit_size_bits(layout)
                + CodeBL::length(&(), &count),
            refs: ref_bits(self.owner, base)
                + refs_bits(reactors, base)
                + ref_bits(self.xdict, base),
        }
    }

    fn write_main_in(&self, layout: Layout, base: Handle, sink: &mut BitSink) {
        let count = self.reactors.as_slice().len() as u32;
        write_app(self.app.as_slice(), base, sink);
        write_bit_size(layout, sink);
        CodeBL::write(&(), &count, sink);
    }

    fn write_refs_in(&self, _layout: Layout, base: Handle, sink: &mut BitSink) {
        write_ref(self.owner, base, sink);
        write_refs(self.reactors.as_slice(), base, sink);
        write_ref(self.xdict, base, sink);
    }

    ghost laws = { λ layout base few small. object_is_body layout base few small };
}

impl BodyCode14 for ObjectCommon {
    ghost narrower = { object_narrower };

    ghost sizes_alike = { object_sizes_alike };
}
