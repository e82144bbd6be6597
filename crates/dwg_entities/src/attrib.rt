//! An attribute of an insert.

ghost use Rattle.std.specs.Prelude.{◌≡◌};
ghost use Rattle.dwg_base.specs.declared.version.Version.TheVariants.{Ac1014};
ghost use Rattle.dwg_common.proofs.LayoutLemmas.{same_alike};
ghost use Rattle.dwg_entities.specs.AttribBody.{attrib_body};
ghost use Rattle.dwg_entities.specs.BodiesLaws.{attrib_is_body, attrib_narrower};

use crate::text::Text;
use dwg_base::{ByteRun, Handle, NoMemory};
use dwg_bits::{BitCursor, BitSink};
use dwg_codes::{BitCode, CodeBS, CodeRC};
use dwg_common::{
    BodyCode, BodyCode14, Layout, Lengths, parse_code, parse_tv, tv_bits, tv_fits, write_tv,
};
use std::alloc::Global;

/// An attribute of an insert (Open Design Specification, "ATTRIB").
#[derive(Drop)]
pub struct Attrib {
    /// What it shows, and how.
    pub text: Text,
    /// Its name, at most 65,535 bytes.
    pub tag: ByteRun,
    /// The length of its field.
    pub length: u16,
    /// What is given of it by single bits.
    pub flags: u8,
}

impl BodyCode for Attrib {
    ghost grammar = { λ layout. attrib_body layout.version };

    #[tactic(auto, using(crate::proofs::GoingOn::attrib_parsed))]
    fn parse(
        alloc: Global,
        layout: Layout,
        main: &mut BitCursor<'_>,
        refs: &mut BitCursor<'_>,
        base: Handle,
    ) -> Result<Option<Attrib>, NoMemory> {
        let Some(text) = Text::parse(alloc, layout, main, refs, base)? else {
            return Ok(None);
        };
        let Some(tag) = parse_tv(alloc, main)? else {
            return Ok(None);
        };
        let Some(length) = parse_code::<CodeBS>(&(), main) else {
            return Ok(None);
        };
        let Some(flags) = parse_code::<CodeRC>(&(), main) else {
            return Ok(None);
        };
        Ok(Some(Attrib {
            text,
            tag,
            length,
            flags,
        }))
    }

    #[tactic(auto, unfolding(crate::specs::AttribBody::attrib_body, crate::specs::AttribBody::attrib_main, crate::specs::TextBody::text_body))]
    fn fits_in(&self, layout: Layout, base: Handle) -> bool {
        // Their codes give every number of their types.
        let _length = self.length;
        let _flags = self.flags;
        if !tv_fits(self.tag.as_slice()) {
            return false;
        }
        self.text.fits_in(layout, base)
    }

    #[tactic(auto, unfolding(crate::specs::AttribBody::attrib_body, crate::specs::AttribBody::attrib_main, crate::specs::TextBody::text_body))]
    fn lengths_in(&self, layout: Layout, base: Handle) -> Lengths {
        let text = self.text.lengths_in(layout, base);
        Lengths {
            main: text.main
                + tv_bits(self.tag.as_slice())
                + CodeBS::length(&(), &self.length)
                + CodeRC::length(&(), &self.flags),
            refs: text.refs,
        }
    }

    #[tactic(auto, unfolding(crate::specs::AttribBody::attrib_body, crate::specs::AttribBody::attrib_main, crate::specs::TextBody::text_body))]
    fn write_main_in(&self, layout: Layout, base: Handle, sink: &mut BitSink) {
        self.text.write_main_in(layout, base, sink);
        write_tv(self.tag.as_slice(), sink);
        CodeBS::write(&(), &self.length, sink);
        CodeRC::write(&(), &self.flags, sink);
    }

    #[tactic(auto, unfolding(crate::specs::AttribBody::attrib_body, crate::specs::AttribBody::attrib_main, crate::specs::TextBody::text_body))]
    fn write_refs_in(&self, layout: Layout, base: Handle, sink: &mut BitSink) {
        self.text.write_refs_in(layout, base, sink);
    }

    ghost laws = { λ layout base few small. attrib_is_body layout.version base small };
}

impl BodyCode14 for Attrib {
    ghost narrower = { attrib_narrower };

    ghost sizes_alike = { λ size base value. same_alike (attrib_body Ac1014 base) value };
}
