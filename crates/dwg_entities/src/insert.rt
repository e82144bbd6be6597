//! An insert of a block.

ghost use Rattle.std.specs.Prelude.{◌≡◌, ◌<◌, length};
ghost use Rattle.dwg_base.specs.declared.version.Version.TheVariants.{Ac1014};
ghost use Rattle.dwg_common.proofs.LayoutLemmas.{same_alike};
ghost use Rattle.dwg_entities.specs.BodiesLaws.{insert_is_body, insert_narrower};
ghost use Rattle.dwg_entities.specs.InsertBody.{insert_body};

use crate::attributes::{CodeAttributes, attributes_fit_where_there};
use crate::scale::{CodeScale, known_scale};
use dwg_base::{Handle, NoMemory};
use dwg_bits::{BitCursor, BitSink};
use dwg_codes::{BitCode, Code3BD, CodeB, CodeBD, Point3, length_when, write_when};
use dwg_common::{
    BodyCode, BodyCode14, Layout, Lengths, parse_code, parse_ref, parse_when, point_with_range,
};
use dwg_handles::{CodeH, Ref};
use std::alloc::Global;

/// The attributes of an insert, which stand one after the other (Open Design Specification, "INSERT").
#[derive(Clone, Copy, Debug, PartialEq, Eq)]
pub struct Attributes {
    /// The first of them.
    pub first: Ref,
    /// The last of them.
    pub last: Ref,
    /// The end after them.
    pub seqend: Ref,
}

/// An insert of a block (Open Design Specification, "INSERT").
#[derive(Clone, Copy, Debug, PartialEq, Eq)]
pub struct Insert {
    /// Where it stands.
    pub place: Point3,
    /// By how much it is scaled along each axis.
    pub scale: Point3,
    /// How it is turned, the word of an angle in radians.
    pub rotation: u64,
    /// Which way is up.
    pub extrusion: Point3,
    /// The header of the block.
    pub block: Ref,
    /// Its attributes, where it has some.
    pub attributes: Option<Attributes>,
}

impl BodyCode for Insert {
    ghost grammar = { λ layout. insert_body layout.version };

    #[tactic(auto, unfolding(crate::specs::InsertBody::insert_body))]
    fn parse(
        _alloc: Global,
        layout: Layout,
        main: &mut BitCursor<'_>,
        refs: &mut BitCursor<'_>,
        base: Handle,
    ) -> Result<Option<Insert>, NoMemory> {
        let Some(place) = parse_code::<Code3BD>(&(), main) else {
            return Ok(None);
        };
        let Some(scale) = parse_code::<CodeScale>(&layout.version, main) else {
            return Ok(None);
        };
        let Some(rotation) = parse_code::<CodeBD>(&(), main) else {
            return Ok(None);
        };
        let Some(extrusion) = parse_code::<Code3BD>(&(), main) else {
            return Ok(None);
        };
        let Some(there) = parse_code::<CodeB>(&(), main) else {
            return Ok(None);
        };
        let Some(block) = parse_ref(refs, base) else {
            return Ok(None);
        };
        let Some(attributes) = parse_when::<CodeAttributes>(&base, there, refs) else {
            return Ok(None);
        };
        Ok(Some(Insert {
            place,
            scale,
            rotation,
            extrusion,
            block,
            attributes,
        }))
    }

    #[tactic(auto, unfolding(crate::specs::InsertBody::insert_body, dwg_grammar::specs::ReferenceCodes::reference))]
    fn fits_in(&self, layout: Layout, base: Handle) -> bool {
        // The codes of the main bits give every number of their types.
        point_with_range(&self.place);
        known_scale(layout.version, &self.scale);
        let _rotation = self.rotation;
        point_with_range(&self.extrusion);
        if !self.block.fits(base) {
            return false;
        }
        attributes_fit_where_there(&self.attributes, base)
    }

    #[tactic(auto, unfolding(crate::specs::InsertBody::insert_body))]
    fn lengths_in(&self, layout: Layout, base: Handle) -> Lengths {
        let there = self.attributes.is_some();
        Lengths {
            main: Code3BD::length(&(), &self.place)
                + CodeScale::length(&layout.version, &self.scale)
                + CodeBD::length(&(), &self.rotation)
                + Code3BD::length(&(), &self.extrusion)
                + CodeB::length(&(), &there),
            refs: CodeH::length(&base, &self.block)
                + length_when::<CodeAttributes>(&base, there, &self.attributes),
        }
    }

    #[tactic(auto, unfolding(crate::specs::InsertBody::insert_body))]
    fn write_main_in(&self, layout: Layout, _base: Handle, sink: &mut BitSink) {
        Code3BD::write(&(), &self.place, sink);
        CodeScale::write(&layout.version, &self.scale, sink);
        CodeBD::write(&(), &self.rotation, sink);
        Code3BD::write(&(), &self.extrusion, sink);
        CodeB::write(&(), &self.attributes.is_some(), sink);
    }

    #[tactic(auto, unfolding(crate::specs::InsertBody::insert_body))]
    fn write_refs_in(&self, _layout: Layout, base: Handle, sink: &mut BitSink) {
        let there = self.attributes.is_some();
        CodeH::write(&base, &self.block, sink);
        write_when::<CodeAttributes>(&base, there, &self.attributes, sink);
    }

    ghost laws = { λ layout base few small. insert_is_body layout.version base small };
}

impl BodyCode14 for Insert {
    ghost narrower = { insert_narrower };

    ghost sizes_alike = { λ size base value. same_alike (insert_body Ac1014 base) value };
}
