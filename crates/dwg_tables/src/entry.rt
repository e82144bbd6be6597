//! What every entry of a table begins with.

ghost use Rattle.std.specs.Prelude.{◌≡◌};
ghost use Rattle.dwg_tables.specs.Entries.{entry_of};
ghost use Rattle.dwg_tables.specs.TableReading.{title_read};

use dwg_base::ByteRun;
use dwg_handles::Ref;

/// What every entry of a table begins with (Open Design Specification, "LAYER", "SHAPEFILE", "LTYPE", "APPID" and "BLOCK
/// HEADER").
#[derive(Drop)]
pub struct Entry {
    /// Its name, at most 65,535 bytes.
    pub name: ByteRun,
    /// The bit of weight 64 among its flags: whether it is used.
    pub flag64: bool,
    /// One more than the place of its drawing among the external references; 0 where it is of this drawing.
    pub xref_index: u16,
    /// Whether it is of another drawing.
    pub xref_dependent: bool,
    /// The block of the external reference that it is of; it may be null.
    pub xref: Ref,
}

/// What the main bits of an entry give before those of its own kind.
#[derive(Drop)]
pub(crate) struct Title {
    /// Its name.
    pub(crate) name: ByteRun,
    /// The bit of weight 64 among its flags.
    pub(crate) flag64: bool,
    /// One more than the place of its drawing among the external references.
    pub(crate) xref_index: u16,
    /// Whether it is of another drawing.
    pub(crate) xref_dependent: bool,
}

/// An entry from what its main bits give and from the block that it is of.
pub(crate) fn entry_of(title: Title, xref: Ref) -> Entry
    ensures { result ≡ entry_of (title_read title) xref }
{
    Entry {
        name: title.name,
        flag64: title.flag64,
        xref_index: title.xref_index,
        xref_dependent: title.xref_dependent,
        xref,
    }
}
