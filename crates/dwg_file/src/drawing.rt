//! Drawings that are valid.

use crate::drawing_parts::Parts;
use std::marker::Model;

/// A drawing whose parts are valid: what its canonical file spells again.
///
/// Contracts see its parts as they are held; what it says is the contents of these.
#[derive(Drop)]
pub struct Drawing<'a> {
    parts: Parts<'a>,
}

impl<'a> Model for Drawing<'a> {
    ghost use Rattle.dwg_file.specs.Contents.{contents_of};
    ghost use Rattle.dwg_file.specs.Valid.{IsValid};
    ghost use Rattle.dwg_file.specs.declared.drawing_parts.Parts as declared;

    ghost Value = { declared.Parts };

    ghost view = { λ drawing. drawing.parts };

    ghost invariant = { λ drawing. IsValid (contents_of drawing.parts) };
}

impl<'a> Drawing<'a> {
    ghost use Rattle.std.specs.Prelude.{◌≡◌};
    ghost use Rattle.dwg_file.specs.Contents.{contents_of};
    ghost use Rattle.dwg_file.specs.Valid.{IsValid};

    /// The drawing of these parts.
    pub fn build(parts: Parts<'a>) -> Drawing<'a>
        requires { IsValid (contents_of parts) }
        ensures { result ≡ parts.entry }
    {
        Drawing { parts }
    }

    /// Its parts.
    pub fn parts(&self) -> &Parts<'a>
        ensures held { result.now ≡ self.now }
        ensures parts { contents_of result.now ≡ contents_of self.now }
        ensures valid { IsValid (contents_of self.now) }
    {
        &self.parts
    }
}
