//! Refusals by the lines of the table.

ghost use Rattle.std.specs.Prelude.{◌≡◌, ◌≤◌};
ghost use Rattle.dwg_base.specs.Refusal.{LAST_LINE};

use dwg_base::Refusal;

/// The refusal by a line, with an index, at a place.
pub fn refusal(line: u8, index: u32, place: usize) -> Refusal
    requires least { 1 ≤ line }
    requires most { line ≤ LAST_LINE }
    ensures { result ≡ record { line = line; index = index; place = place } }
{
    Refusal::new(line, u64::from(index), place as u64)
}
