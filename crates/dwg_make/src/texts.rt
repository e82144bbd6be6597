//! Texts in the one style.

ghost use Rattle.std.specs.Prelude.{◌≡◌};
ghost use Rattle.dwg_make.specs.Parts.{plain_text};

use crate::references::{ONE, hard_pointer, point};
use dwg_base::ByteRun;
use dwg_codes::Point2;
use dwg_entities::Text;

/// A text by its insertion, height and bytes.
pub(crate) fn plain_text(insertion: Point2, height: u64, text: ByteRun) -> Text
    ensures { result ≡ plain_text insertion height text }
{
    Text {
        elevation: None,
        insertion,
        alignment: None,
        extrusion: point(0, 0, ONE),
        thickness: 0,
        oblique: None,
        rotation: None,
        height,
        width: None,
        text,
        generation: None,
        horizontal: None,
        vertical: None,
        style: hard_pointer(0x11),
    }
}
