//! What a body is to those who read and write one.

ghost use Rattle.std.specs.Prelude.{◌≡◌, ◌^◌, ◌<◌, ◌≤◌, ◌↔◌, ℕ, Ok, None, length, IfOk, IfSome, IsTrue};
ghost use Rattle.dwg_bits.specs.Cursor.{rest};
ghost use Rattle.dwg_bits.specs.Sink.{Extends};
ghost use Rattle.dwg_grammar.specs.Bodies.{BodyGrammar, IsBody, ReadsBody, IsLawfulBody};
ghost use Rattle.dwg_common.specs.Layouts.{NEWER, WritesAlike, older};
ghost use Rattle.dwg_common.specs.Parsing.{Keeps, ParsesBody};
ghost use Rattle.dwg_common.specs.declared.bit_layout.Layout.{Layout};

use crate::bit_layout::Layout;
use dwg_base::{Handle, NoMemory};
use dwg_bits::{BitCursor, BitSink};
use std::alloc::Global;

/// How many bits a part of an object is written by.
#[derive(Clone, Copy, Debug, PartialEq, Eq)]
pub struct Lengths {
    /// Before the references of the object.
    pub main: u64,
    /// Among its references.
    pub refs: u64,
}

/// A part of an object whose bits stand in two places: main bits before the references of the object, and reference bits
/// among them (Open Design Specification, "Common entity data" and "Common non-entity object format").
///
/// A value may have spellings that are longer than the one that is written. All of them are read.
pub trait BodyCode: Sized {
    // What the part spells in a layout, in the object of a handle.
    ghost grammar: { Layout → ℕ → BodyGrammar Self };

    /// Reads the value that is parsed of the main bits and of the reference bits in the object of the handle `base`, and moves
    /// both cursors as far as it came. None exactly where no prefixes spell one. Err: out of memory, which is
    /// taken only for what is there.
    fn parse(
        alloc: Global,
        layout: Layout,
        main: &mut BitCursor<'_>,
        refs: &mut BitCursor<'_>,
        base: Handle,
    ) -> Result<Option<Self>, NoMemory>
        ensures parsed { IfOk result (λ found. ParsesBody (grammar layout base) found main.old main.new refs.old refs.new) }
        ensures kept { Keeps main.old main.new }
        ensures refs_kept { Keeps refs.old refs.new };

    /// Whether the value has a spelling in the object of the handle `base`: lists and texts are no longer than their counts
    /// can give, each part is there exactly where the others say so, and the codes of references reach their targets.
    fn fits_in(&self, layout: Layout, base: Handle) -> bool
        ensures { IsTrue result ↔ (grammar layout base).Fits self.now };

    /// How many bits the spelling has that is written of the value, fewer than 2^62 in each place.
    fn lengths_in(&self, layout: Layout, base: Handle) -> Lengths
        requires fits { (grammar layout base).Fits self.now }
        requires few { length ((grammar layout base).short_main self.now) < 2 ^ 62 }
        requires refs_few { length ((grammar layout base).short_references self.now) < 2 ^ 62 }
        ensures main { result.main ≡ length ((grammar layout base).short_main self.now) }
        ensures refs { result.refs ≡ length ((grammar layout base).short_references self.now) };

    /// Writes the main bits of the shortest spelling.
    fn write_main_in(&self, layout: Layout, base: Handle, sink: &mut BitSink)
        requires fits { (grammar layout base).Fits self.now }
        requires few { length ((grammar layout base).short_main self.now) < 2 ^ 62 }
        requires room { length ((grammar layout base).short_main self.now) ≤ sink.old.spare }
        ensures { Extends sink.old sink.new ((grammar layout base).short_main self.now) };

    /// Writes the reference bits of the shortest spelling.
    fn write_refs_in(&self, layout: Layout, base: Handle, sink: &mut BitSink)
        requires fits { (grammar layout base).Fits self.now }
        requires few { length ((grammar layout base).short_references self.now) < 2 ^ 62 }
        requires room { length ((grammar layout base).short_references self.now) ≤ sink.old.spare }
        ensures { Extends sink.old sink.new ((grammar layout base).short_references self.now) };

    // What is read is spelled, what is spelled is read and fits, what is written is a spelling and a shortest one, and other
    // bits of the same references spell the same.
    ghost laws: { (layout : Layout) (base : ℕ) → layout.size < 2 ^ 32 → base < 2 ^ 63 → IsBody base (grammar layout base) };

    /// Reads the value that prefixes of the main bits and of the reference bits spell in the object of the handle `base`, and moves
    /// after those prefixes. None, with nothing moved, exactly where no prefixes spell one. Err: out of memory, which is taken only
    /// for what is there.
    final fn read_in(
        alloc: Global,
        layout: Layout,
        main: &mut BitCursor<'_>,
        refs: &mut BitCursor<'_>,
        base: Handle,
    ) -> Result<Option<Self>, NoMemory>
        ensures reads { IfOk result (λ found. ReadsBody (grammar layout base) found (rest main.old) (rest main.new) (rest refs.old) (rest refs.new)) }
        ensures value { IfOk result (λ found. IfSome found (grammar layout base).Fits) }
        ensures unmoved { result ≡ Ok None → main.new.place ≡ main.old.place }
        ensures refs_unmoved { result ≡ Ok None → refs.new.place ≡ refs.old.place }
        ensures same_bytes { main.new.bytes.now ≡ main.old.bytes.now }
        ensures same_end { main.new.end ≡ main.old.end }
        ensures refs_same_bytes { refs.new.bytes.now ≡ refs.old.bytes.now }
        ensures refs_same_end { refs.new.end ≡ refs.old.end }
    {
        let mut ahead = *main;
        let mut refs_ahead = *refs;
        let Some(value) = Self::parse(alloc, layout, &mut ahead, &mut refs_ahead, base)? else {
            return Ok(None);
        };
        *main = ahead;
        *refs = refs_ahead;
        Ok(Some(value))
    }

    /// Reads the value that prefixes of the main bits and of the reference bits spell in the object of the handle `base`, and moves
    /// after those prefixes. None, with nothing moved, exactly where no prefixes spell one. Err: out of memory, which is taken only
    /// for what is there.
    final fn read(
        alloc: Global,
        main: &mut BitCursor<'_>,
        refs: &mut BitCursor<'_>,
        base: Handle,
    ) -> Result<Option<Self>, NoMemory>
        ensures reads { IfOk result (λ found. ReadsBody (grammar NEWER base) found (rest main.old) (rest main.new) (rest refs.old) (rest refs.new)) }
        ensures value { IfOk result (λ found. IfSome found (grammar NEWER base).Fits) }
        ensures unmoved { result ≡ Ok None → main.new.place ≡ main.old.place }
        ensures refs_unmoved { result ≡ Ok None → refs.new.place ≡ refs.old.place }
        ensures same_bytes { main.new.bytes.now ≡ main.old.bytes.now }
        ensures same_end { main.new.end ≡ main.old.end }
        ensures refs_same_bytes { refs.new.bytes.now ≡ refs.old.bytes.now }
        ensures refs_same_end { refs.new.end ≡ refs.old.end }
    {
        Self::read_in(alloc, Layout::newer(), main, refs, base)
    }

    /// Whether the value has a spelling in the object of the handle `base`: lists and texts are no longer than their counts
    /// can give, each part is there exactly where the others say so, and the codes of references reach their targets.
    final fn fits(&self, base: Handle) -> bool
        ensures { IsTrue result ↔ (grammar NEWER base).Fits self.now }
    {
        self.fits_in(Layout::newer(), base)
    }

    /// How many bits the spelling has that is written of the value, fewer than 2^62 in each place.
    final fn lengths(&self, base: Handle) -> Lengths
        requires fits { (grammar NEWER base).Fits self.now }
        requires few { length ((grammar NEWER base).short_main self.now) < 2 ^ 62 }
        requires refs_few { length ((grammar NEWER base).short_references self.now) < 2 ^ 62 }
        ensures main { result.main ≡ length ((grammar NEWER base).short_main self.now) }
        ensures refs { result.refs ≡ length ((grammar NEWER base).short_references self.now) }
    {
        self.lengths_in(Layout::newer(), base)
    }

    /// Writes the main bits of the shortest spelling.
    final fn write_main(&self, base: Handle, sink: &mut BitSink)
        requires fits { (grammar NEWER base).Fits self.now }
        requires few { length ((grammar NEWER base).short_main self.now) < 2 ^ 62 }
        requires room { length ((grammar NEWER base).short_main self.now) ≤ sink.old.spare }
        ensures { Extends sink.old sink.new ((grammar NEWER base).short_main self.now) }
    {
        self.write_main_in(Layout::newer(), base, sink);
    }

    /// Writes the reference bits of the shortest spelling.
    final fn write_refs(&self, base: Handle, sink: &mut BitSink)
        requires fits { (grammar NEWER base).Fits self.now }
        requires few { length ((grammar NEWER base).short_references self.now) < 2 ^ 62 }
        requires room { length ((grammar NEWER base).short_references self.now) ≤ sink.old.spare }
        ensures { Extends sink.old sink.new ((grammar NEWER base).short_references self.now) }
    {
        self.write_refs_in(Layout::newer(), base, sink);
    }
}

/// A part of an object that AC1014 spells too. Its calls answer as those of [`BodyCode`] do for AC1015. `size` is the bit size, which
/// only the common parts spell: whether a value fits, and how many bits it is written by, depend on no size.
pub trait BodyCode14: BodyCode {
    // What AC1014 can spell, AC1015 can spell.
    ghost narrower: { (base : ℕ) (value : Self) → (Self.grammar (older 0) base).Fits value → (Self.grammar NEWER base).Fits value };

    // Only the bits of the size itself depend on the size.
    ghost sizes_alike: { (size base : ℕ) (value : Self) → WritesAlike (Self.grammar (older 0) base) (Self.grammar (older size) base) value };

    /// Reads the value that prefixes of the main bits and of the reference bits spell with this bit size in the object of the
    /// handle `base`, and moves after those prefixes. None, with nothing moved, exactly where no prefixes spell one. Err: out of
    /// memory, which is taken only for what is there.
    final fn read14(
        alloc: Global,
        size: u32,
        main: &mut BitCursor<'_>,
        refs: &mut BitCursor<'_>,
        base: Handle,
    ) -> Result<Option<Self>, NoMemory>
        ensures reads { IfOk result (λ found. ReadsBody (Self.grammar (older size) base) found (rest main.old) (rest main.new) (rest refs.old) (rest refs.new)) }
        ensures value { IfOk result (λ found. IfSome found (Self.grammar (older 0) base).Fits) }
        ensures unmoved { result ≡ Ok None → main.new.place ≡ main.old.place }
        ensures refs_unmoved { result ≡ Ok None → refs.new.place ≡ refs.old.place }
        ensures same_bytes { main.new.bytes.now ≡ main.old.bytes.now }
        ensures same_end { main.new.end ≡ main.old.end }
        ensures refs_same_bytes { refs.new.bytes.now ≡ refs.old.bytes.now }
        ensures refs_same_end { refs.new.end ≡ refs.old.end }
    {
        Self::read_in(alloc, Layout::older(size), main, refs, base)
    }

    /// Whether AC1014 has a spelling of the value in the object of the handle `base`: what it can't spell has its fixed value, and
    /// the value fits in AC1015.
    final fn fits14(&self, base: Handle) -> bool
        ensures fits { IsTrue result ↔ (Self.grammar (older 0) base).Fits self.now }
        ensures narrower { IsTrue result → (Self.grammar NEWER base).Fits self.now }
    {
        self.fits_in(Layout::older(0), base)
    }

    /// How many bits the spelling has that is written of the value, fewer than 2^62 in each place, whatever the bit size.
    final fn lengths14(&self, base: Handle) -> Lengths
        requires fits { (Self.grammar (older 0) base).Fits self.now }
        requires few { length ((Self.grammar (older 0) base).short_main self.now) < 2 ^ 62 }
        requires refs_few { length ((Self.grammar (older 0) base).short_references self.now) < 2 ^ 62 }
        ensures main { result.main ≡ length ((Self.grammar (older 0) base).short_main self.now) }
        ensures refs { result.refs ≡ length ((Self.grammar (older 0) base).short_references self.now) }
    {
        self.lengths_in(Layout::older(0), base)
    }

    /// Writes the main bits of the shortest spelling with this bit size.
    final fn write_main14(&self, size: u32, base: Handle, sink: &mut BitSink)
        requires fits { (Self.grammar (older 0) base).Fits self.now }
        requires few { length ((Self.grammar (older 0) base).short_main self.now) < 2 ^ 62 }
        requires room { length ((Self.grammar (older 0) base).short_main self.now) ≤ sink.old.spare }
        ensures { Extends sink.old sink.new ((Self.grammar (older size) base).short_main self.now) }
    {
        self.write_main_in(Layout::older(size), base, sink);
    }

    /// Writes the reference bits of the shortest spelling.
    final fn write_refs14(&self, base: Handle, sink: &mut BitSink)
        requires fits { (Self.grammar (older 0) base).Fits self.now }
        requires few { length ((Self.grammar (older 0) base).short_references self.now) < 2 ^ 62 }
        requires room { length ((Self.grammar (older 0) base).short_references self.now) ≤ sink.old.spare }
        ensures { Extends sink.old sink.new ((Self.grammar (older 0) base).short_references self.now) }
    {
        self.write_refs_in(Layout::older(0), base, sink);
    }
}

/// The laws of a body in the object of a handle: main bits and reference bits spell at most one value by their prefixes; just
/// the values that fit are spelled, each by what is written of it, and none by fewer main bits or fewer reference bits; and
/// other bits that spell the same references spell the same value.
pub fn body_laws<B: BodyCode>()
    ensures { (layout : Layout) (base : ℕ) → layout.size < 2 ^ 32 → base < 2 ^ 63 → IsLawfulBody base (B.grammar layout base) }
{}

/// What AC1014 can spell of a body, AC1015 can spell; and with each bit size a value fits or not as with size 0, and is written by as
/// many main bits and by the same reference bits.
pub fn older_laws<B: BodyCode14>()
    ensures narrower { (base : ℕ) (value : B) → (B.grammar (older 0) base).Fits value → (B.grammar NEWER base).Fits value }
    ensures sizes_alike { (size base : ℕ) (value : B) → WritesAlike (B.grammar (older 0) base) (B.grammar (older size) base) value }
{}
