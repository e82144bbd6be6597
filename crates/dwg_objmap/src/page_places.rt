//! Pages of the map, and where their parts stand.

ghost use Rattle.std.specs.Prelude.{◌≡◌, ◌+◌, ◌<◌, ◌≤◌, ◌↔◌, length, IsTrue};
ghost use Rattle.dwg_objmap.specs.MapLines.{word_at, sized_at, body_at, HasPage, HasPageWord};
ghost use Rattle.dwg_objmap.specs.Walking.{page_holds_at};

use crate::pair::Pair;
use dwg_base::{Items, bytes_after};
use dwg_check::{CHECK_SEED, check};

/// What one page of the map says (Open Design Specification, "Object map").
#[derive(Drop)]
pub struct Page {
    /// Its pairs, in file order; none in the page that ends the map.
    pub pairs: Items<Pair>,
    /// The place after its check word.
    pub next: u64,
}

/// The two bytes at a place as a number, the most significant byte first.
pub(crate) fn word_at(bytes: &[u8], place: usize) -> u64
    requires { place + 2 ≤ length bytes.now }
    ensures word { result ≡ word_at bytes.now place }
    ensures bound { result < 65536 }
{
    256 * u64::from(bytes[place]) + u64::from(bytes[place + 1])
}

/// The size and the pairs of a page, over which its check word is.
fn sized(bytes: &[u8], place: usize, size: usize) -> &[u8]
    requires within { place + size ≤ length bytes.now }
    requires size { size ≡ word_at bytes.now place }
    ensures { result.now ≡ sized_at bytes.now place }
{
    &bytes[place..place + size]
}

/// Whether the check word of a page is right.
pub(crate) fn is_right(bytes: &[u8], place: usize, size: usize) -> bool
    requires within { place + size + 2 ≤ length bytes.now }
    requires size { size ≡ word_at bytes.now place }
    ensures right { IsTrue result ↔ HasPageWord bytes.now place }
    ensures test { result ≡ page_holds_at bytes.now place }
{
    word_at(bytes, place + size) == u64::from(check(CHECK_SEED, sized(bytes, place, size)))
}

/// The pairs of a page, as bytes.
pub(crate) fn body(bytes: &[u8], place: u64) -> &[u8]
    requires { HasPage bytes.now place }
    ensures { result.now ≡ body_at bytes.now place }
{
    let size = word_at(bytes, place as usize);
    bytes_after(sized(bytes, place as usize, size as usize), 2)
}
