//! Records: bytes of an application, and objects that they name.

ghost use Rattle.std.specs.Prelude.{◌≡◌, ◌^◌, ◌<◌, IfOk};
ghost use Rattle.std.specs.Option.{option_map};
ghost use Rattle.dwg_base.specs.declared.version.Version.TheVariants.{Ac1014};
ghost use Rattle.dwg_bits.specs.Cursor.{rest};
ghost use Rattle.dwg_common.proofs.LayoutLemmas.{same_alike};
ghost use Rattle.dwg_common.specs.Parsing.{Keeps};
ghost use Rattle.dwg_dicts.specs.DictLaws.{xrecord_is_body, xrecord_narrower};
ghost use Rattle.dwg_dicts.specs.XRecords.{all_targets, xrecord_body};

use crate::cloning::{CodeCloning, cloning_fits};
use dwg_base::{ByteRun, Handle, Items, NoMemory};
use dwg_bits::{BitCursor, BitSink};
use dwg_codes::BitCode;
use dwg_common::{
    BodyCode, BodyCode14, Layout, Lengths, parse_code, parse_sized, sized_bits, sized_fits,
    write_sized,
};
use dwg_handles::{Ref, read_refs_to_end, refs_bits, refs_fit, write_refs};
use std::alloc::Global;

/// A record of an application (Open Design Specification, "XRECORD").
#[derive(Drop)]
pub struct XRecord {
    /// Its bytes, fewer than 2^32, kept without meaning.
    pub bytes: ByteRun,
    /// What becomes of it where one of its name is there already when dictionaries are merged.
    pub cloning: u16,
    /// The objects that it names: references to the end of the object, while at least eight bits are left.
    pub targets: Items<Ref>,
}

/// Reads references until fewer than eight bits are left, as they are parsed. Err: out of memory, which is taken only for
/// references that are there.
#[tactic(auto, using(crate::proofs::EndReading::all_parsed))]
fn read_targets(
    alloc: Global,
    cursor: &mut BitCursor<'_>,
    base: Handle,
) -> Result<Option<Items<Ref>>, NoMemory>
    ensures parsed { IfOk result (λ found. all_targets base (rest cursor.old) ≡ option_map (λ targets. (targets, rest cursor.new)) found) }
    ensures kept { Keeps cursor.old cursor.new }
{
    read_refs_to_end(alloc, cursor, base)
}

#[tactic(auto, unfolding(crate::specs::XRecords::xrecord_body))]
impl BodyCode for XRecord {
    ghost grammar = { λ layout. xrecord_body layout.version };

    fn parse(
        alloc: Global,
        layout: Layout,
        main: &mut BitCursor<'_>,
        refs: &mut BitCursor<'_>,
        base: Handle,
    ) -> Result<Option<XRecord>, NoMemory> {
        let Some(bytes) = parse_sized(alloc, main)? else {
            return Ok(None);
        };
        let Some(cloning) = parse_code::<CodeCloning>(&layout.version, main) else {
            return Ok(None);
        };
        let Some(targets) = read_targets(alloc, refs, base)? else {
            return Ok(None);
        };
        Ok(Some(XRecord {
            bytes,
            cloning,
            targets,
        }))
    }

    fn fits_in(&self, layout: Layout, base: Handle) -> bool {
        if !cloning_fits(layout.version, self.cloning) {
            return false;
        }
        if !sized_fits(self.bytes.as_slice()) {
            return false;
        }
        refs_fit(self.targets.as_slice(), base)
    }

    fn lengths_in(&self, layout: Layout, base: Handle) -> Lengths {
        Lengths {
            main: sized_bits(self.bytes.as_slice())
                + CodeCloning::length(&layout.version, &self.cloning),
            refs: refs_bits(self.targets.as_slice(), base),
        }
    }

    fn write_main_in(&self, layout: Layout, _base: Handle, sink: &mut BitSink) {
        write_sized(self.bytes.as_slice(), sink);
        CodeCloning::write(&layout.version, &self.cloning, sink);
    }

    fn write_refs_in(&self, _layout: Layout, base: Handle, sink: &mut BitSink) {
        write_refs(self.targets.as_slice(), base, sink);
    }

    ghost laws = { λ layout base few small. xrecord_is_body layout.version base small };
}

impl BodyCode14 for XRecord {
    ghost narrower = { xrecord_narrower };

    ghost sizes_alike = { λ size base value. same_alike (xrecord_body Ac1014 base) value };
}
