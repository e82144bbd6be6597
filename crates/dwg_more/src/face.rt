//! Faces.

ghost use Rattle.std.specs.Prelude.{◌≡◌, ◌<◌, ◌≤◌, not, is_none, length};
ghost use Rattle.dwg_bits.specs.Sink.{Extends};
ghost use Rattle.dwg_grammar.specs.Codes.{bs, IsPoint3};
ghost use Rattle.dwg_grammar.specs.Combinators.{when};
ghost use Rattle.dwg_common.specs.Parsing.{Keeps, Parses};
ghost use Rattle.dwg_more.specs.Faces.{after_first, after_first_of, face_body, face_main};
ghost use Rattle.dwg_more.specs.MoreLaws.{face_is_body};

use crate::corners::{Code3DD, CodeFirstCorner};
use dwg_base::{Handle, NoMemory};
use dwg_bits::{BitCursor, BitSink};
use dwg_codes::{BitCode, CodeB, CodeBS, Point3, length_when, write_when};
use dwg_common::{BodyCode, Layout, Lengths, parse_code, parse_when, point_with_range};
use std::alloc::Global;

/// A face with four corners in space (Open Design Specification, "3DFACE").
#[derive(Clone, Copy, Debug, PartialEq, Eq)]
pub struct Face3d {
    /// Its first corner.
    pub first: Point3,
    /// Its second corner.
    pub second: Point3,
    /// Its third corner.
    pub third: Point3,
    /// Its fourth corner; the third where it has three.
    pub fourth: Point3,
    /// Which of its edges aren't seen, a bit for each, that of the first edge lowest. None where no flags are given.
    pub invisible: Option<u16>,
}

/// Reads a face, as it is parsed.
#[tactic(auto, unfolding(crate::specs::Faces::face_main))]
fn read_face(cursor: &mut BitCursor<'_>) -> Option<Face3d>
    ensures parsed { Parses face_main result cursor.old cursor.new }
    ensures kept { Keeps cursor.old cursor.new }
{
    let no_flags = parse_code::<CodeB>(&(), cursor)?;
    let first = parse_code::<CodeFirstCorner>(&(), cursor)?;
    point_with_range(&first);
    let second = parse_code::<Code3DD>(&first, cursor)?;
    point_with_range(&second);
    let third = parse_code::<Code3DD>(&second, cursor)?;
    point_with_range(&third);
    let fourth = parse_code::<Code3DD>(&third, cursor)?;
    let invisible = parse_when::<CodeBS>(&(), !no_flags, cursor)?;
    Some(Face3d {
        first,
        second,
        third,
        fourth,
        invisible,
    })
}

/// Whether no flags are given, which the bit before the corners says.
fn has_no_flags(invisible: Option<u16>) -> bool
    ensures { result ≡ is_none invisible }
{
    match invisible {
        Some(_flags) => false,
        None => true,
    }
}

/// Flags are there exactly where that bit is 0.
fn known_flags(invisible: Option<u16>)
    ensures { (when (not (is_none invisible)) bs).IsValue invisible }
{
    match invisible {
        Some(_flags) => {}
        None => {}
    }
}

/// Writes what stands after the first corner of a face.
fn write_after_first(no_flags: bool, face: &Face3d, sink: &mut BitSink)
    requires first { IsPoint3 face.now.first }
    requires value { (after_first no_flags face.now.first).IsValue (after_first_of face.now) }
    requires room { length ((after_first no_flags face.now.first).short (after_first_of face.now)) ≤ sink.old.spare }
    ensures { Extends sink.old sink.new ((after_first no_flags face.now.first).short (after_first_of face.now)) }
{
    Code3DD::write(&face.first, &face.second, sink);
    Code3DD::write(&face.second, &face.third, sink);
    Code3DD::write(&face.third, &face.fourth, sink);
    write_when::<CodeBS>(&(), !no_flags, &face.invisible, sink);
}

impl BodyCode for Face3d {
    ghost grammar = { λ layout. face_body };

    fn parse(
        _alloc: Global,
        _layout: Layout,
        main: &mut BitCursor<'_>,
        _refs: &mut BitCursor<'_>,
        _base: Handle,
    ) -> Result<Option<Face3d>, NoMemory> {
        Ok(read_face(main))
    }

    #[tactic(auto, unfolding(crate::specs::Faces::face_main))]
    fn fits_in(&self, _layout: Layout, _base: Handle) -> bool {
        point_with_range(&self.first);
        point_with_range(&self.second);
        point_with_range(&self.third);
        point_with_range(&self.fourth);
        known_flags(self.invisible);
        true
    }

    #[tactic(auto, unfolding(crate::specs::Faces::face_main))]
    fn lengths_in(&self, _layout: Layout, _base: Handle) -> Lengths {
        let no_flags = has_no_flags(self.invisible);
        Lengths {
            main: CodeB::length(&(), &no_flags)
                + CodeFirstCorner::length(&(), &self.first)
                + Code3DD::length(&self.first, &self.second)
                + Code3DD::length(&self.second, &self.third)
                + Code3DD::length(&self.third, &self.fourth)
                + length_when::<CodeBS>(&(), !no_flags, &self.invisible),
            refs: 0,
        }
    }

    #[tactic(auto, unfolding(crate::specs::Faces::face_main))]
    fn write_main_in(&self, _layout: Layout, _base: Handle, sink: &mut BitSink) {
        let no_flags = has_no_flags(self.invisible);
        CodeB::write(&(), &no_flags, sink);
        CodeFirstCorner::write(&(), &self.first, sink);
        write_after_first(no_flags, self, sink);
    }

    fn write_refs_in(&self, _layout: Layout, _base: Handle, _sink: &mut BitSink) {}

    ghost laws = { λ layout base few small. face_is_body base };
}
