//! Laws of what an input spells, as the contract of a function without code of its own.

ghost use Rattle.std.specs.Prelude.{◌≡◌, ◌≤◌, ℕ, List, None, length};
ghost use Rattle.dwg_base.specs.Bytes.{AreBytes};
ghost use Rattle.dwg_base.specs.Devices.{MOST_BYTES};
ghost use Rattle.dwg_base.specs.Refusals.{first_fault};
ghost use Rattle.dwg_file.specs.Contents.{Contents};
ghost use Rattle.dwg_file.specs.FileLines.{ALL_LINES};
ghost use Rattle.dwg_file.specs.FrameRefusals.{FramesAreRefused};
ghost use Rattle.dwg_file.specs.DrawingAt.{FormsAreFound, drawing_at};
ghost use Rattle.dwg_file.specs.PartRefusals.{VariablesAreRefused, ClassSectionIsRefused, ClassesAreRefused, MapIsRefused};
ghost use Rattle.dwg_file.specs.ReadAs.{ReadsAs};
ghost use Rattle.dwg_file.specs.SectionRefusals.{SectionsAreRefused};
ghost use Rattle.dwg_file.specs.Spelled.{Spelled};
ghost use Rattle.dwg_file.specs.Valid.{IsValid};
ghost use Rattle.dwg_file.specs.ValidLaws.{ReadPartsAreValid, WholeSectionsAreRead};

use dwg_sections::{file_header_laws, framed_laws};

/// What holds of every input: it spells one drawing at the most; it spells one exactly where no line of the table fails;
/// what is read of it by its places, where none fails, is what it spells, and the other way round; and what an input of at
/// most 32 MiB spells is valid. The object that a body is read as is the one that is found from its head (`form_at`). The lines on the header variables, the section of the classes and the map refuse an input with a header
/// exactly as the first thing in them that fails is refused, and so do the lines on the classes where their section stands. The lines on
/// frames refuse an input with a map exactly where after frames that stand, with
/// their pairs' handles and without a common byte, a pair is the first whose frame fails, and as it does; and the line on
/// unknown sections exactly where one is the first that passes the end. Parts that are read of no more bytes than an input may
/// have make a valid drawing, and the unknown sections that don't pass the end are such parts.
pub fn drawing_laws()
    ensures one { (bytes : List ℕ) (drawing other : Contents) → AreBytes bytes → Spelled drawing bytes → Spelled other bytes → drawing ≡ other }
    ensures passes { (bytes : List ℕ) (drawing : Contents) → AreBytes bytes → Spelled drawing bytes → first_fault ALL_LINES bytes ≡ None }
    ensures spelled { (bytes : List ℕ) → AreBytes bytes → first_fault ALL_LINES bytes ≡ None → Spelled (drawing_at bytes) bytes }
    ensures read { (bytes : List ℕ) (drawing : Contents) → AreBytes bytes → ReadsAs drawing bytes → Spelled drawing bytes }
    ensures again { (bytes : List ℕ) (drawing : Contents) → AreBytes bytes → Spelled drawing bytes → ReadsAs drawing bytes }
    ensures form { FormsAreFound }
    ensures variables { VariablesAreRefused }
    ensures class_section { ClassSectionIsRefused }
    ensures classes { ClassesAreRefused }
    ensures map { MapIsRefused }
    ensures frames { FramesAreRefused }
    ensures sections { SectionsAreRefused }
    ensures parts { ReadPartsAreValid }
    ensures whole { WholeSectionsAreRead }
    ensures valid { (bytes : List ℕ) (drawing : Contents) → AreBytes bytes → length bytes ≤ MOST_BYTES → Spelled drawing bytes → IsValid drawing }
{
    file_header_laws();
    framed_laws();
}
