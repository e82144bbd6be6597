//! The numbers and the alignment of a text as bits, by another code in each version (Open Design Specification, "TEXT").

ghost use Rattle.std.specs.Prelude.{◌<◌, ⊤};
ghost use Rattle.dwg_grammar.specs.Points.{IsPoint2};
ghost use Rattle.dwg_entities.specs.TextBody.{aligned, word};
ghost use Rattle.dwg_entities.specs.TextLaws.{aligned_is_code, word_is_code};

use dwg_base::Version;
use dwg_bits::{BitCursor, BitSink};
use dwg_codes::{BitCode, CodeBD, CodeRD, Point2};
use dwg_common::{Code2DD, Code2RD, known_place};

/// A number of a text: RD, in AC1014 BD.
pub(crate) struct CodeWord;

impl BitCode for CodeWord {
    type Context = Version;

    type Value = u64;

    ghost grammar = { word };

    ghost IsContext = { λ version. ⊤ };

    fn read(context: &Version, cursor: &mut BitCursor<'_>) -> Option<u64> {
        match *context {
            Version::Ac1014 => CodeBD::read(&(), cursor),
            Version::Ac1015 => CodeRD::read(&(), cursor),
        }
    }

    fn length(context: &Version, value: &u64) -> u64 {
        match *context {
            Version::Ac1014 => CodeBD::length(&(), value),
            Version::Ac1015 => CodeRD::length(&(), value),
        }
    }

    fn write(context: &Version, value: &u64, sink: &mut BitSink) {
        match *context {
            Version::Ac1014 => CodeBD::write(&(), value, sink),
            Version::Ac1015 => CodeRD::write(&(), value, sink),
        }
    }

    ghost laws = { λ version is. word_is_code version };
}

/// The alignment of a text: 2DD against its insertion, in AC1014 2RD.
pub(crate) struct CodeAlignment;

impl BitCode for CodeAlignment {
    type Context = (Version, Point2);

    type Value = Point2;

    ghost grammar = { λ context. aligned context.0 context.1 };

    ghost IsContext = { λ context. IsPoint2 context.1 };

    fn read(context: &(Version, Point2), cursor: &mut BitCursor<'_>) -> Option<Point2> {
        match context.0 {
            Version::Ac1014 => Code2RD::read(&(), cursor),
            Version::Ac1015 => Code2DD::read(&context.1, cursor),
        }
    }

    fn length(context: &(Version, Point2), value: &Point2) -> u64 {
        match context.0 {
            Version::Ac1014 => Code2RD::length(&(), value),
            Version::Ac1015 => Code2DD::length(&context.1, value),
        }
    }

    fn write(context: &(Version, Point2), value: &Point2, sink: &mut BitSink) {
        match context.0 {
            Version::Ac1014 => Code2RD::write(&(), value, sink),
            Version::Ac1015 => Code2DD::write(&context.1, value, sink),
        }
    }

    ghost laws = { λ context is. aligned_is_code context.0 context.1 is };
}

/// A word is a number of a text in each version: it finds nothing out, as `point_with_range`.
#[tactic(auto, using(crate::specs::TextLaws::word_value))]
pub(crate) fn known_word(version: Version, number: u64)
    ensures { (word version).IsValue number }
{
    let _newer = version.is_newer();
    let _number = number;
}

/// A point is an alignment in each version: as [`known_word`].
#[tactic(auto, using(crate::specs::TextLaws::aligned_value))]
pub(crate) fn known_alignment(version: Version, insertion: Point2, alignment: Point2)
    ensures { (aligned version insertion).IsValue alignment }
{
    let _newer = version.is_newer();
    known_place(&insertion);
    known_place(&alignment);
}
