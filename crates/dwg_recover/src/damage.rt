//! Laws of short damage, as the contract of a function without code of its own.

ghost use Rattle.dwg_recover.specs.ShortDamage.{ShortDamageCostsOneObject};

use dwg_file::short_damage_laws as frame_damage_laws;
use dwg_sections::{file_header_laws, framed_laws};

/// What is recovered of a canonical file with a short change. Let a valid drawing have a canonical file, with any preview, of at most 32 MiB, and an
/// input differ from it in one byte, or in two neighbouring ones, in the body and the check word of one object's frame. Then that
/// object's check word is the refusal that is reported, the object is lost and nothing else is, neither a part nor a page nor another
/// object, and every other object of the drawing is recovered as it was.
pub fn short_damage_laws()
    ensures short { ShortDamageCostsOneObject }
{
    frame_damage_laws();
    file_header_laws();
    framed_laws();
}
