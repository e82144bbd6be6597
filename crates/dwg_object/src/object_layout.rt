//! How the parts of an object are laid out.

ghost use Rattle.std.specs.Prelude.{◌≡◌};
ghost use Rattle.dwg_object.specs.Forms.{layout_in};

use dwg_base::Version;
use dwg_common::Layout;

/// The layout of the parts of an object of a version, with this bit size, which AC1014 alone spells in them.
pub(crate) fn layout_in(version: Version, size: u32) -> Layout
    ensures { result ≡ layout_in version size }
{
    match version {
        Version::Ac1014 => Layout::older(size),
        Version::Ac1015 => Layout::newer(),
    }
}
