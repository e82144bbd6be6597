//! The definition of an attribute.

ghost use Rattle.std.specs.Prelude.{◌≡◌};
ghost use Rattle.dwg_base.specs.declared.version.Version.TheVariants.{Ac1014};
ghost use Rattle.dwg_common.proofs.LayoutLemmas.{same_alike};
ghost use Rattle.dwg_entities.specs.AttdefBody.{attdef_body};
ghost use Rattle.dwg_entities.specs.BodiesLaws.{attdef_is_body, attdef_narrower};

use crate::attrib::Attrib;
use dwg_base::{ByteRun, Handle, NoMemory};
use dwg_bits::{BitCursor, BitSink};
use dwg_common::{BodyCode, BodyCode14, Layout, Lengths, parse_tv, tv_bits, tv_fits, write_tv};
use std::alloc::Global;

/// The definition of an attribute (Open Design Specification, "ATTDEF").
#[derive(Drop)]
pub struct Attdef {
    /// The attribute as it is by default.
    pub attrib: Attrib,
    /// What a user is asked by, at most 65,535 bytes.
    pub prompt: ByteRun,
}

impl BodyCode for Attdef {
    ghost grammar = { λ layout. attdef_body layout.version };

    #[tactic(auto, using(crate::proofs::GoingOn::attdef_parsed))]
    fn parse(
        alloc: Global,
        layout: Layout,
        main: &mut BitCursor<'_>,
        refs: &mut BitCursor<'_>,
        base: Handle,
    ) -> Result<Option<Attdef>, NoMemory> {
        let Some(attrib) = Attrib::parse(alloc, layout, main, refs, base)? else {
            return Ok(None);
        };
        let Some(prompt) = parse_tv(alloc, main)? else {
            return Ok(None);
        };
        Ok(Some(Attdef { attrib, prompt }))
    }

    #[tactic(auto, unfolding(crate::specs::AttdefBody::attdef_body, crate::specs::AttribBody::attrib_body))]
    fn fits_in(&self, layout: Layout, base: Handle) -> bool {
        if !tv_fits(self.prompt.as_slice()) {
            return false;
        }
        self.attrib.fits_in(layout, base)
    }

    #[tactic(auto, unfolding(crate::specs::AttdefBody::attdef_body, crate::specs::AttribBody::attrib_body))]
    fn lengths_in(&self, layout: Layout, base: Handle) -> Lengths {
        let attrib = self.attrib.lengths_in(layout, base);
        Lengths {
            main: attrib.main + tv_bits(self.prompt.as_slice()),
            refs: attrib.refs,
        }
    }

    #[tactic(auto, unfolding(crate::specs::AttdefBody::attdef_body, crate::specs::AttribBody::attrib_body))]
    fn write_main_in(&self, layout: Layout, base: Handle, sink: &mut BitSink) {
        self.attrib.write_main_in(layout, base, sink);
        write_tv(self.prompt.as_slice(), sink);
    }

    #[tactic(auto, unfolding(crate::specs::AttdefBody::attdef_body, crate::specs::AttribBody::attrib_body))]
    fn write_refs_in(&self, layout: Layout, base: Handle, sink: &mut BitSink) {
        self.attrib.write_refs_in(layout, base, sink);
    }

    ghost laws = { λ layout base few small. attdef_is_body layout.version base small };
}

impl BodyCode14 for Attdef {
    ghost narrower = { attdef_narrower };

    ghost sizes_alike = { λ size base value. same_alike (attdef_body Ac1014 base) value };
}
