//! What stands in an object after its common part, as it is written.

ghost use Rattle.std.specs.Prelude.{◌≡◌, ◌^◌, ◌<◌, ◌≤◌, ℕ, Bool, List, length};
ghost use Rattle.dwg_bits.specs.Parts.{part_bits};
ghost use Rattle.dwg_bits.specs.Sink.{Extends};
ghost use Rattle.dwg_grammar.specs.ToEnd.{AreValues, short_all};
ghost use Rattle.dwg_grammar.specs.ReferenceCodes.{reference};
ghost use Rattle.dwg_base.specs.declared.version.Version.{Version};
ghost use Rattle.dwg_object.specs.OwnBodies.{body_kind, own_body};
ghost use Rattle.dwg_object.specs.Written.{own_main, own_refs};

use crate::body::Body;
use crate::match_body;
use crate::object::Plain;
use dwg_base::{Handle, Version};
use dwg_bits::BitSink;
use dwg_common::{BodyCode, Layout, Lengths};
use dwg_handles::{refs_bits, write_refs};

/// A part of an object that is written: bits before the references, and references.
pub(crate) trait Part {
    // It can be written in a version, in the object of a handle.
    ghost PartFits: { Version → ℕ → Self → Type 0 };

    // Its bits before the references, and its references.
    ghost main: { Version → ℕ → Self → List Bool };

    ghost refs: { Version → ℕ → Self → List Bool };

    /// How many bits it is written by.
    fn lengths(&self, version: Version, base: Handle) -> Lengths
        requires fits { PartFits version base self.now }
        requires few { length (main version base self.now) < 2 ^ 32 }
        requires refs_few { length (refs version base self.now) < 2 ^ 32 }
        ensures main { result.main ≡ length (main version base self.now) }
        ensures refs { result.refs ≡ length (refs version base self.now) };

    /// Writes the bits that stand before the references.
    fn write_main(&self, version: Version, base: Handle, sink: &mut BitSink)
        requires fits { PartFits version base self.now }
        requires few { length (main version base self.now) < 2 ^ 32 }
        requires room { length (main version base self.now) ≤ sink.old.spare }
        ensures { Extends sink.old sink.new (main version base self.now) };

    /// Writes the references.
    fn write_refs(&self, version: Version, base: Handle, sink: &mut BitSink)
        requires fits { PartFits version base self.now }
        requires few { length (refs version base self.now) < 2 ^ 32 }
        requires room { length (refs version base self.now) ≤ sink.old.spare }
        ensures { Extends sink.old sink.new (refs version base self.now) };
}

#[tactic(auto, unfolding(crate::specs::OwnBodies::own_body))]
impl Part for Body {
    ghost PartFits = { λ version base body. (own_body version (body_kind body) base).Fits body };

    ghost main = { own_main };

    ghost refs = { own_refs };

    fn lengths(&self, version: Version, base: Handle) -> Lengths {
        match_body!(body self, body => body.lengths_in(Layout { version, size: 0 }, base))
    }

    fn write_main(&self, version: Version, base: Handle, sink: &mut BitSink) {
        match_body!(body self, body => body.write_main_in(Layout { version, size: 0 }, base, sink))
    }

    fn write_refs(&self, version: Version, base: Handle, sink: &mut BitSink) {
        match_body!(body self, body => body.write_refs_in(Layout { version, size: 0 }, base, sink))
    }
}

impl Part for Plain<'_> {
    ghost PartFits = { λ version base plain. AreValues (reference base) plain.refs };

    ghost main = { λ version base plain. part_bits plain.rest };

    ghost refs = { λ version base plain. short_all (reference base) plain.refs };

    fn lengths(&self, _version: Version, base: Handle) -> Lengths {
        Lengths {
            main: self.rest.length(),
            refs: refs_bits(self.refs.as_slice(), base),
        }
    }

    fn write_main(&self, _version: Version, _base: Handle, sink: &mut BitSink) {
        sink.push_part(&self.rest);
    }

    fn write_refs(&self, _version: Version, base: Handle, sink: &mut BitSink) {
        write_refs(self.refs.as_slice(), base, sink);
    }
}
