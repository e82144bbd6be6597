//! What becomes of an object of a name that is there already when dictionaries are merged, as bits (Open Design Specification,
//! "DICTIONARY" and "XRECORD").

ghost use Rattle.std.specs.Prelude.{◌↔◌, ⊤, IsTrue};
ghost use Rattle.dwg_dicts.specs.Cloning.{cloning};
ghost use Rattle.dwg_dicts.specs.DictLaws.{cloning_is_code};

use dwg_base::Version;
use dwg_bits::{BitCursor, BitSink};
use dwg_codes::{BitCode, CodeBS};

/// BS; in AC1014 nothing, and it is 0.
pub(crate) struct CodeCloning;

impl BitCode for CodeCloning {
    type Context = Version;

    type Value = u16;

    ghost grammar = { cloning };

    ghost IsContext = { λ version. ⊤ };

    fn read(context: &Version, cursor: &mut BitCursor<'_>) -> Option<u16> {
        match *context {
            Version::Ac1014 => Some(0),
            Version::Ac1015 => CodeBS::read(&(), cursor),
        }
    }

    fn length(context: &Version, value: &u16) -> u64 {
        match *context {
            Version::Ac1014 => 0,
            Version::Ac1015 => CodeBS::length(&(), value),
        }
    }

    fn write(context: &Version, value: &u16, sink: &mut BitSink) {
        match *context {
            Version::Ac1014 => {}
            Version::Ac1015 => CodeBS::write(&(), value, sink),
        }
    }

    ghost laws = { λ version is. cloning_is_code version };
}

/// Whether a version gives this number: AC1015 each, AC1014 just 0.
pub(crate) fn cloning_fits(version: Version, number: u16) -> bool
    ensures { IsTrue result ↔ (cloning version).IsValue number }
{
    match version {
        Version::Ac1014 => number == 0,
        Version::Ac1015 => true,
    }
}
