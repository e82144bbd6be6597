//! The form of the letters of a text style, as bits (Open Design Specification, "SHAPEFILE").
#![tactic(auto, unfolding(crate::specs::StyleBody::style_form))]

ghost use Rattle.std.specs.Prelude.{◌≡◌, ◌^◌, ◌<◌, ◌≤◌, length, option_map};
ghost use Rattle.dwg_bits.specs.Sink.{Extends};
ghost use Rattle.dwg_common.specs.Parsing.{Keeps, Parses};
ghost use Rattle.dwg_tables.specs.StyleBody.{form_of, style_form};
ghost use Rattle.dwg_tables.specs.TableReading.{form_read};

use crate::style::{Form, Style};
use dwg_bits::{BitCursor, BitSink};
use dwg_codes::{CodeB, CodeBD, CodeRC};
use dwg_common::{field, row};

/// What is done with the fields of the form of letters.
macro_rules! form_row {
    ($($done:tt)*) => {
        row!([Form {
            flag_a: CodeB,
            flag_b: CodeB,
            height: CodeBD,
            width: CodeBD,
            oblique: CodeBD,
            generation: CodeRC,
            last_height: CodeBD,
        }] $($done)*)
    };
}

/// Reads the form of letters, as it is parsed.
pub(crate) fn read_form(cursor: &mut BitCursor<'_>) -> Option<Form>
    ensures parsed { Parses style_form (option_map form_read result) cursor.old cursor.new }
    ensures kept { Keeps cursor.old cursor.new }
{
    form_row!(read(), cursor)
}

/// The form of the letters of every text style can be given: its codes give every number of their types.
pub(crate) fn known_form(style: &Style)
    ensures { style_form.IsValue (form_of style.now) }
{
    form_row!(known style, ());
}

/// How many bits the form of the letters of a text style is written by.
pub(crate) fn form_bits(style: &Style) -> u64
    requires { style_form.IsValue (form_of style.now) }
    ensures length { result ≡ length (style_form.short (form_of style.now)) }
    ensures few { result < 2 ^ 36 }
{
    form_row!(bits style, ())
}

/// Writes the form of the letters of a text style.
pub(crate) fn write_form(style: &Style, sink: &mut BitSink)
    requires value { style_form.IsValue (form_of style.now) }
    requires room { length (style_form.short (form_of style.now)) ≤ sink.old.spare }
    ensures { Extends sink.old sink.new (style_form.short (form_of style.now)) }
{
    form_row!(write style, (), sink);
}
