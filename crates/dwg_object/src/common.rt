//! The common part of an object, whether it is an entity or not.

ghost use Rattle.std.specs.Prelude.{◌≡◌, ◌^◌, ◌<◌, ◌≤◌, length, IfOk};
ghost use Rattle.dwg_bits.specs.Sink.{Extends};
ghost use Rattle.dwg_common.specs.Parsing.{ParsesBody};
ghost use Rattle.dwg_object.specs.Forms.{common_part, layout_in};
ghost use Rattle.dwg_object.specs.Objects.{is_of_entity};
ghost use Rattle.dwg_object.specs.Written.{common_main, common_refs};

use crate::object_layout::layout_in;
use dwg_base::{Handle, NoMemory, Version};
use dwg_bits::{BitCursor, BitSink};
use dwg_common::{BodyCode, EntityCommon, Layout, Lengths, ObjectCommon};
use std::alloc::Global;

/// What all entities have, or what all other objects have (Open Design Specification, "Common entity data" and "Common
/// non-entity object format").
pub enum Common {
    /// An entity's.
    Entity(EntityCommon),
    /// Another object's.
    Object(ObjectCommon),
}

impl Drop for Common {
    // Written for the same reason as a body's.
    fn drop(self) {
        match self {
            Common::Entity(_common) => (),
            Common::Object(_common) => (),
        }
    }
}

impl Common {
    /// Reads the common part that is parsed in a layout in the object of the handle `base`, which is an entity or isn't, and moves
    /// both cursors as far as it came. None exactly where no prefixes of the main bits and of the reference bits spell one. Err:
    /// out of memory.
    pub(crate) fn parse(
        alloc: Global,
        layout: Layout,
        entity: bool,
        main: &mut BitCursor<'_>,
        refs: &mut BitCursor<'_>,
        base: Handle,
    ) -> Result<Option<Common>, NoMemory>
        ensures parsed { IfOk result (λ found. ParsesBody (common_part layout entity base) found main.old main.new refs.old refs.new) }
    {
        if entity {
            match EntityCommon::parse(alloc, layout, main, refs, base)? {
                Some(common) => Ok(Some(Common::Entity(common))),
                None => Ok(None),
            }
        } else {
            match ObjectCommon::parse(alloc, layout, main, refs, base)? {
                Some(common) => Ok(Some(Common::Object(common))),
                None => Ok(None),
            }
        }
    }

    /// How many bits it is written by in a layout.
    fn lengths_in(&self, layout: Layout, base: Handle) -> Lengths
        requires fits { (common_part layout (is_of_entity self.now) base).Fits self.now }
        requires few { length (common_main layout base self.now) < 2 ^ 32 }
        requires refs_few { length (common_refs layout base self.now) < 2 ^ 32 }
        ensures main { result.main ≡ length (common_main layout base self.now) }
        ensures refs { result.refs ≡ length (common_refs layout base self.now) }
    {
        match self {
            Common::Entity(common) => common.lengths_in(layout, base),
            Common::Object(common) => common.lengths_in(layout, base),
        }
    }

    /// How many bits it is written by, whatever the bit size.
    pub(crate) fn lengths(&self, version: Version, base: Handle) -> Lengths
        requires fits { (common_part (layout_in version 0) (is_of_entity self.now) base).Fits self.now }
        requires few { length (common_main (layout_in version 0) base self.now) < 2 ^ 32 }
        requires refs_few { length (common_refs (layout_in version 0) base self.now) < 2 ^ 32 }
        ensures main { result.main ≡ length (common_main (layout_in version 0) base self.now) }
        ensures refs { result.refs ≡ length (common_refs (layout_in version 0) base self.now) }
    {
        self.lengths_in(layout_in(version, 0), base)
    }

    /// Writes the bits that stand before the references, in a layout.
    fn write_main_in(&self, layout: Layout, base: Handle, sink: &mut BitSink)
        requires fits { (common_part layout (is_of_entity self.now) base).Fits self.now }
        requires few { length (common_main layout base self.now) < 2 ^ 32 }
        requires room { length (common_main layout base self.now) ≤ sink.old.spare }
        ensures { Extends sink.old sink.new (common_main layout base self.now) }
    {
        match self {
            Common::Entity(common) => common.write_main_in(layout, base, sink),
            Common::Object(common) => common.write_main_in(layout, base, sink),
        }
    }

    /// Writes the bits that stand before the references, with this bit size.
    pub(crate) fn write_main(&self, version: Version, size: u32, base: Handle, sink: &mut BitSink)
        requires fits { (common_part (layout_in version size) (is_of_entity self.now) base).Fits self.now }
        requires few { length (common_main (layout_in version size) base self.now) < 2 ^ 32 }
        requires room { length (common_main (layout_in version size) base self.now) ≤ sink.old.spare }
        ensures { Extends sink.old sink.new (common_main (layout_in version size) base self.now) }
    {
        self.write_main_in(layout_in(version, size), base, sink);
    }

    /// Writes the references, in a layout.
    fn write_refs_in(&self, layout: Layout, base: Handle, sink: &mut BitSink)
        requires fits { (common_part layout (is_of_entity self.now) base).Fits self.now }
        requires few { length (common_refs layout base self.now) < 2 ^ 32 }
        requires room { length (common_refs layout base self.now) ≤ sink.old.spare }
        ensures { Extends sink.old sink.new (common_refs layout base self.now) }
    {
        match self {
            Common::Entity(common) => common.write_refs_in(layout, base, sink),
            Common::Object(common) => common.write_refs_in(layout, base, sink),
        }
    }

    /// Writes the references, which are the same whatever the bit size.
    pub(crate) fn write_refs(&self, version: Version, base: Handle, sink: &mut BitSink)
        requires fits { (common_part (layout_in version 0) (is_of_entity self.now) base).Fits self.now }
        requires few { length (common_refs (layout_in version 0) base self.now) < 2 ^ 32 }
        requires room { length (common_refs (layout_in version 0) base self.now) ≤ sink.old.spare }
        ensures { Extends sink.old sink.new (common_refs (layout_in version 0) base self.now) }
    {
        self.write_refs_in(layout_in(version, 0), base, sink);
    }
}
