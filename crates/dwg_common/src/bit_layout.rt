//! How the bits of a part are laid out.

ghost use Rattle.std.specs.Prelude.{◌≡◌};
ghost use Rattle.dwg_common.specs.Layouts.{NEWER, older};

use dwg_base::Version;

/// How the bits of a part of an object are laid out: in which version, and with which bit size, which only the common parts of
/// AC1014 spell.
#[derive(Clone, Copy, Debug, PartialEq, Eq)]
pub struct Layout {
    /// The version.
    pub version: Version,
    /// How many bits the object has before its references.
    pub size: u32,
}

impl Layout {
    /// The layout of AC1015, where no part spells the bit size.
    pub fn newer() -> Layout
        ensures { result ≡ NEWER }
    {
        Layout {
            version: Version::Ac1015,
            size: 0,
        }
    }

    /// The layout of AC1014 with a bit size.
    pub fn older(size: u32) -> Layout
        ensures { result ≡ older size }
    {
        Layout {
            version: Version::Ac1014,
            size,
        }
    }
}
