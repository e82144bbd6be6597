//! The law of made drawings.

ghost use Rattle.std.specs.Prelude.{ℕ, ◌^◌, ◌<◌, ◌≤◌};
ghost use Rattle.dwg_base.specs.Devices.{MOST_BYTES};
ghost use Rattle.dwg_file.specs.Canonical.{size_of};
ghost use Rattle.dwg_file.specs.Valid.{IsValid};
ghost use Rattle.dwg_make.specs.Made.{made, MOST_ENTITIES};

/// What is made of 1 to 200,000 entities and any seed is valid, and its canonical file is within the limit. So that file is read again as
/// what was made.
pub fn make_laws()
    ensures valid { (count seed : ℕ) → 0 < count → count ≤ MOST_ENTITIES → seed < 2 ^ 32 → IsValid (made count seed) }
    ensures within { (count seed : ℕ) → 0 < count → count ≤ MOST_ENTITIES → seed < 2 ^ 32 → size_of (made count seed) ≤ MOST_BYTES }
{}
