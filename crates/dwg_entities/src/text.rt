//! A line of text.

ghost use Rattle.std.specs.Prelude.{◌≡◌, ◌≤◌, ◌↔◌, length, option_map, IfOk, IsTrue};
ghost use Rattle.dwg_bits.specs.Sink.{Extends};
ghost use Rattle.dwg_base.specs.declared.version.Version.TheVariants.{Ac1014};
ghost use Rattle.dwg_common.proofs.LayoutLemmas.{same_alike};
ghost use Rattle.dwg_common.specs.Parsing.{Keeps, Parses};
ghost use Rattle.dwg_grammar.specs.Codes.{rc};
ghost use Rattle.dwg_grammar.specs.Versions.{since_1015};
ghost use Rattle.dwg_entities.specs.BodiesLaws.{text_is_body, text_narrower};
ghost use Rattle.dwg_entities.specs.TextBody.{flags_of, lettering_of, placing_of, text_body, text_lettering, text_placing, text_wording, wording_of};
ghost use Rattle.dwg_entities.specs.TextReading.{lettering_read, placing_read, wording_read};

use crate::flags::{alignment_fits, has, number_fits, weight_unless, word_fits};
use crate::text_numbers::{CodeAlignment, CodeWord, known_word};
use dwg_base::{ByteRun, Handle, NoMemory, Version};
use dwg_bits::{BitCursor, BitSink};
use dwg_codes::{
    BitCode, CodeBS, CodeExtrusion, CodeRC, CodeThickness, Point2, Point3, length_when, write_when,
};
use dwg_common::{
    BodyCode, BodyCode14, Code2RD, Layout, Lengths, field, known_place, length_given, parse_code,
    parse_given, parse_ref, parse_when, write_given,
};
use dwg_handles::{Ref, ref_bits, write_ref};
use std::alloc::Global;

/// A line of text (Open Design Specification, "TEXT"). What isn't there has the value that the specification names there.
#[derive(Drop)]
pub struct Text {
    /// How high above the plane it stands, the word of a floating-point number.
    pub elevation: Option<u64>,
    /// Where it begins, or where its left end is.
    pub insertion: Point2,
    /// Where it is aligned to.
    pub alignment: Option<Point2>,
    /// Which way is up.
    pub extrusion: Point3,
    /// How thick it is, the word of a floating-point number.
    pub thickness: u64,
    /// How oblique its letters are, the word of an angle in radians.
    pub oblique: Option<u64>,
    /// How it is turned, the word of an angle in radians.
    pub rotation: Option<u64>,
    /// How high its letters are, the word of a floating-point number.
    pub height: u64,
    /// How wide its letters are for their height, the word of a floating-point number.
    pub width: Option<u64>,
    /// Its bytes, at most 65,535.
    pub text: ByteRun,
    /// How it is mirrored, by single bits.
    pub generation: Option<u16>,
    /// How it is aligned along its line.
    pub horizontal: Option<u16>,
    /// How it is aligned across its line.
    pub vertical: Option<u16>,
    /// Its text style.
    pub style: Ref,
}

/// Where a text stands, as it is read.
#[derive(Drop)]
struct Placing {
    /// Its elevation.
    elevation: Option<u64>,
    /// Where it begins.
    insertion: Point2,
    /// Where it is aligned to.
    alignment: Option<Point2>,
    /// Which way is up.
    extrusion: Point3,
    /// How thick it is.
    thickness: u64,
}

/// The form of its letters, as it is read.
#[derive(Drop)]
struct Lettering {
    /// How oblique they are.
    oblique: Option<u64>,
    /// How they are turned.
    rotation: Option<u64>,
    /// How high they are.
    height: u64,
    /// How wide they are.
    width: Option<u64>,
}

/// Its words, as they are read.
#[derive(Drop)]
struct Wording {
    /// The bytes.
    text: ByteRun,
    /// How they are mirrored.
    generation: Option<u16>,
    /// How they are aligned along the line.
    horizontal: Option<u16>,
    /// How they are aligned across it.
    vertical: Option<u16>,
}

/// The weight of the flag of a text without an elevation.
const NO_ELEVATION: u8 = 0x01;

/// Of one without an alignment.
const NO_ALIGNMENT: u8 = 0x02;

/// Of one without an oblique angle.
const NO_OBLIQUE: u8 = 0x04;

/// Of one without a rotation.
const NO_ROTATION: u8 = 0x08;

/// Of one without a width.
const NO_WIDTH: u8 = 0x10;

/// Of one without a generation.
const NO_GENERATION: u8 = 0x20;

/// Of one without a horizontal alignment.
const NO_HORIZONTAL: u8 = 0x40;

/// Of one without a vertical alignment.
const NO_VERTICAL: u8 = 0x80;

/// What is done with a part of a text: its fields in the order of their bits, each with its code, with the field that it is given
/// against, and with the flag that is set where it is missing.
///
/// - `parse alloc, version, flags, cursor`: the part as it is parsed, `Ok(None)` where there is none;
/// - `fits of, version, flags`: goes on where all fit;
/// - `bits of, version, flags`: its length;
/// - `write of, version, flags, sink`.
macro_rules! text_row {
    ([$name:ident { $($field:ident: $code:ident $(against $default:ident)? $(unless $flag:ident)?),* $(,)? }] parse $alloc:expr, $version:expr, $flags:expr, $cursor:expr) => {{
        $(text_field!(parse $code [$($default)?] [$($flags, $flag)?] $field, $alloc, $version, $cursor);)*
        Ok(Some($name { $($field),* }))
    }};
    ([$name:ident { $first:ident: $first_code:ident $(unless $first_flag:ident)? $(, $field:ident: $code:ident $(against $default:ident)? $(unless $flag:ident)?)* $(,)? }] bits $of:expr, $version:expr, $flags:expr) => {
        text_field!(bits $first_code [] [$($flags, $first_flag)?] $of, $first, $version)
            $(+ text_field!(bits $code [$($of.$default)?] [$($flags, $flag)?] $of, $field, $version))*
    };
    ([$name:ident { $($field:ident: $code:ident $(against $default:ident)? $(unless $flag:ident)?),* $(,)? }] fits $of:expr, $version:expr, $flags:expr) => {
        $(text_field!(fits $code [$($of.$default)?] [$($flags, $flag)?] $of, $field, $version);)*
    };
    ([$name:ident { $($field:ident: $code:ident $(against $default:ident)? $(unless $flag:ident)?),* $(,)? }] write $of:expr, $version:expr, $flags:expr, $sink:expr) => {
        $(text_field!(write $code [$($of.$default)?] [$($flags, $flag)?] $of, $field, $version, $sink);)*
    };
}

/// What is done with one field, by its code, the field that it is given against, and the flags with its own.
macro_rules! text_field {
    (context CodeWord [] $version:expr) => {
        &$version
    };
    (context CodeAlignment [$default:expr] $version:expr) => {
        &($version, $default)
    };
    (context CodeBS [] $version:expr) => {
        &()
    };
    (parse $code:ident [$($default:expr)?] [$flags:expr, $flag:ident] $field:ident, $alloc:expr, $version:expr, $cursor:expr) => {
        let Some($field) = parse_when::<$code>(text_field!(context $code [$($default)?] $version), !has($flags, $flag), $cursor) else {
            return Ok(None);
        };
    };
    (parse CodeWord [] [] $field:ident, $alloc:expr, $version:expr, $cursor:expr) => {
        let Some($field) = parse_code::<CodeWord>(&$version, $cursor) else {
            return Ok(None);
        };
    };
    (fits CodeWord [] [$flags:expr, $flag:ident] $of:expr, $field:ident, $version:expr) => {
        if !word_fits($version, $flags, $flag, $of.$field) {
            return false;
        }
    };
    (fits CodeAlignment [$default:expr] [$flags:expr, $flag:ident] $of:expr, $field:ident, $version:expr) => {
        if !alignment_fits($version, $flags, $flag, $default, $of.$field) {
            return false;
        }
    };
    (fits CodeBS [] [$flags:expr, $flag:ident] $of:expr, $field:ident, $version:expr) => {
        if !number_fits($flags, $flag, $of.$field) {
            return false;
        }
    };
    (fits CodeWord [] [] $of:expr, $field:ident, $version:expr) => {
        known_word($version, $of.$field);
    };
    (fits Code2RD [] [] $of:expr, $field:ident, $version:expr) => {
        known_place(&$of.$field);
    };
    (bits $code:ident [$($default:expr)?] [$flags:expr, $flag:ident] $of:expr, $field:ident, $version:expr) => {
        length_when::<$code>(text_field!(context $code [$($default)?] $version), !has($flags, $flag), &$of.$field)
    };
    (bits CodeWord [] [] $of:expr, $field:ident, $version:expr) => {
        CodeWord::length(&$version, &$of.$field)
    };
    (write $code:ident [$($default:expr)?] [$flags:expr, $flag:ident] $of:expr, $field:ident, $version:expr, $sink:expr) => {
        write_when::<$code>(text_field!(context $code [$($default)?] $version), !has($flags, $flag), &$of.$field, $sink);
    };
    (write CodeWord [] [] $of:expr, $field:ident, $version:expr, $sink:expr) => {
        CodeWord::write(&$version, &$of.$field, $sink);
    };
    ($done:ident $code:ident [] [] $($how:tt)*) => {
        field!($done $code, $($how)*)
    };
}

/// What is done with where a text stands.
macro_rules! placing_row {
    ($($done:tt)*) => {
        text_row!([Placing {
            elevation: CodeWord unless NO_ELEVATION,
            insertion: Code2RD,
            alignment: CodeAlignment against insertion unless NO_ALIGNMENT,
            extrusion: CodeExtrusion,
            thickness: CodeThickness,
        }] $($done)*)
    };
}

/// What is done with the form of its letters.
macro_rules! lettering_row {
    ($($done:tt)*) => {
        text_row!([Lettering {
            oblique: CodeWord unless NO_OBLIQUE,
            rotation: CodeWord unless NO_ROTATION,
            height: CodeWord,
            width: CodeWord unless NO_WIDTH,
        }] $($done)*)
    };
}

/// What is done with its words.
macro_rules! wording_row {
    ($($done:tt)*) => {
        text_row!([Wording {
            text: Tv,
            generation: CodeBS unless NO_GENERATION,
            horizontal: CodeBS unless NO_HORIZONTAL,
            vertical: CodeBS unless NO_VERTICAL,
        }] $($done)*)
    };
}

/// The flags of a text: each is set exactly where its part is missing.
#[tactic(auto, unfolding(crate::specs::TextBody::flags_of))]
fn flags_of(text: &Text) -> u8
    ensures { result ≡ flags_of text.now }
{
    weight_unless(&text.elevation, NO_ELEVATION)
        + weight_unless(&text.alignment, NO_ALIGNMENT)
        + weight_unless(&text.oblique, NO_OBLIQUE)
        + weight_unless(&text.rotation, NO_ROTATION)
        + weight_unless(&text.width, NO_WIDTH)
        + weight_unless(&text.generation, NO_GENERATION)
        + weight_unless(&text.horizontal, NO_HORIZONTAL)
        + weight_unless(&text.vertical, NO_VERTICAL)
}

/// Reads where a text stands, as it is parsed after its flags. Err: out of memory.
fn read_placing(
    alloc: Global,
    version: Version,
    flags: u8,
    cursor: &mut BitCursor<'_>,
) -> Result<Option<Placing>, NoMemory>
    ensures parsed { IfOk result (λ found. Parses (text_placing version flags) (option_map placing_read found) cursor.old cursor.new) }
    ensures kept { Keeps cursor.old cursor.new }
{
    placing_row!(parse alloc, version, flags, cursor)
}

/// Reads the form of its letters, as it is parsed. Err: out of memory.
fn read_lettering(
    alloc: Global,
    version: Version,
    flags: u8,
    cursor: &mut BitCursor<'_>,
) -> Result<Option<Lettering>, NoMemory>
    ensures parsed { IfOk result (λ found. Parses (text_lettering version flags) (option_map lettering_read found) cursor.old cursor.new) }
    ensures kept { Keeps cursor.old cursor.new }
{
    lettering_row!(parse alloc, version, flags, cursor)
}

/// Reads its words, as they are parsed. Err: out of memory, which is taken only for what is there.
fn read_wording(
    alloc: Global,
    version: Version,
    flags: u8,
    cursor: &mut BitCursor<'_>,
) -> Result<Option<Wording>, NoMemory>
    ensures parsed { IfOk result (λ found. Parses (text_wording flags) (option_map wording_read found) cursor.old cursor.new) }
    ensures kept { Keeps cursor.old cursor.new }
{
    wording_row!(parse alloc, version, flags, cursor)
}

/// Whether flags can be given: AC1014 has none.
fn flags_fit(version: Version, flags: u8) -> bool
    ensures { IsTrue result ↔ (since_1015 version 0 rc).IsValue flags }
{
    match version {
        Version::Ac1014 => flags == 0,
        Version::Ac1015 => true,
    }
}

/// Writes where a text stands after its flags.
fn write_placing(version: Version, flags: u8, text: &Text, sink: &mut BitSink)
    requires value { (text_placing version flags).IsValue (placing_of text.now) }
    requires room { length ((text_placing version flags).short (placing_of text.now)) ≤ sink.old.spare }
    ensures { Extends sink.old sink.new ((text_placing version flags).short (placing_of text.now)) }
{
    placing_row!(write text, version, flags, sink);
}

/// Writes the form of its letters.
fn write_lettering(version: Version, flags: u8, text: &Text, sink: &mut BitSink)
    requires value { (text_lettering version flags).IsValue (lettering_of text.now) }
    requires room { length ((text_lettering version flags).short (lettering_of text.now)) ≤ sink.old.spare }
    ensures { Extends sink.old sink.new ((text_lettering version flags).short (lettering_of text.now)) }
{
    lettering_row!(write text, version, flags, sink);
}

/// Writes its words.
fn write_wording(version: Version, flags: u8, text: &Text, sink: &mut BitSink)
    requires value { (text_wording flags).IsValue (wording_of text.now) }
    requires room { length ((text_wording flags).short (wording_of text.now)) ≤ sink.old.spare }
    ensures { Extends sink.old sink.new ((text_wording flags).short (wording_of text.now)) }
{
    wording_row!(write text, version, flags, sink);
}

impl BodyCode for Text {
    ghost grammar = { λ layout. text_body layout.version };

    #[tactic(auto, unfolding(crate::specs::TextBody::text_body, crate::specs::TextBody::text_main))]
    fn parse(
        alloc: Global,
        layout: Layout,
        main: &mut BitCursor<'_>,
        refs: &mut BitCursor<'_>,
        base: Handle,
    ) -> Result<Option<Text>, NoMemory> {
        let version = layout.version;
        let Some(flags) = parse_given::<CodeRC>(&(), version.is_newer(), 0, main) else {
            return Ok(None);
        };
        let Some(placing) = read_placing(alloc, version, flags, main)? else {
            return Ok(None);
        };
        let Some(lettering) = read_lettering(alloc, version, flags, main)? else {
            return Ok(None);
        };
        let Some(wording) = read_wording(alloc, version, flags, main)? else {
            return Ok(None);
        };
        let Some(style) = parse_ref(refs, base) else {
            return Ok(None);
        };
        Ok(Some(Text {
            elevation: placing.elevation,
            insertion: placing.insertion,
            alignment: placing.alignment,
            extrusion: placing.extrusion,
            thickness: placing.thickness,
            oblique: lettering.oblique,
            rotation: lettering.rotation,
            height: lettering.height,
            width: lettering.width,
            text: wording.text,
            generation: wording.generation,
            horizontal: wording.horizontal,
            vertical: wording.vertical,
            style,
        }))
    }

    #[tactic(auto, unfolding(crate::specs::TextBody::text_body, crate::specs::TextBody::text_main, dwg_grammar::specs::ReferenceCodes::reference))]
    fn fits_in(&self, layout: Layout, base: Handle) -> bool {
        let version = layout.version;
        let flags = flags_of(self);
        if !flags_fit(version, flags) {
            return false;
        }
        placing_row!(fits self, version, flags);
        lettering_row!(fits self, version, flags);
        wording_row!(fits self, version, flags);
        self.style.fits(base)
    }

    #[tactic(auto, unfolding(crate::specs::TextBody::text_body, crate::specs::TextBody::text_main, dwg_grammar::specs::ReferenceCodes::reference))]
    fn lengths_in(&self, layout: Layout, base: Handle) -> Lengths {
        let version = layout.version;
        let flags = flags_of(self);
        Lengths {
            main: length_given::<CodeRC>(&(), version.is_newer(), 0, &flags)
                + placing_row!(bits self, version, flags)
                + lettering_row!(bits self, version, flags)
                + wording_row!(bits self, version, flags),
            refs: ref_bits(self.style, base),
        }
    }

    #[tactic(auto, unfolding(crate::specs::TextBody::text_body, crate::specs::TextBody::text_main))]
    fn write_main_in(&self, layout: Layout, _base: Handle, sink: &mut BitSink) {
        let version = layout.version;
        let flags = flags_of(self);
        write_given::<CodeRC>(&(), version.is_newer(), 0, &flags, sink);
        write_placing(version, flags, self, sink);
        write_lettering(version, flags, self, sink);
        write_wording(version, flags, self, sink);
    }

    #[tactic(auto, unfolding(crate::specs::TextBody::text_body, dwg_grammar::specs::ReferenceCodes::reference))]
    fn write_refs_in(&self, _layout: Layout, base: Handle, sink: &mut BitSink) {
        write_ref(self.style, base, sink);
    }

    ghost laws = { λ layout base few small. text_is_body layout.version base small };
}

impl BodyCode14 for Text {
    ghost narrower = { text_narrower };

    ghost sizes_alike = { λ size base value. same_alike (text_body Ac1014 base) value };
}
