//! Laws of short damage, as the contract of a function without code of its own.

ghost use Rattle.dwg_file.specs.ShortDamage.{AllElseIsSame, DamagedFrameFails, ShortDamageIsRefused};

use dwg_check::short_damage_laws as check_word_damage_laws;
use dwg_sections::{file_header_laws, framed_laws};

/// What a change of one byte, or of two neighbouring ones, in the body and the check word of one object's frame does to the
/// canonical file of a valid drawing, with any preview: the input is refused for the check word of that frame and for nothing before, and no
/// frame with its pair's handle stands at its place. The file header, both framed sections, the preview, the map, the
/// unknown sections and each other frame are as they were.
pub fn short_damage_laws()
    ensures refused { ShortDamageIsRefused }
    ensures frame { DamagedFrameFails }
    ensures elsewhere { AllElseIsSame }
{
    check_word_damage_laws();
    file_header_laws();
    framed_laws();
}
