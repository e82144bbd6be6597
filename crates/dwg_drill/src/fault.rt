//! Why there is no drill.

ghost use Rattle.std.specs.Prelude.{◌≡◌};
ghost use Rattle.dwg_drill.specs.declared.fault.DrillFault.TheVariants.{NoMemory};

use dwg_base::NoMemory;

/// Why there is no drill.
#[derive(Clone, Copy, Debug, PartialEq, Eq)]
pub enum DrillFault {
    /// Out of memory.
    NoMemory,
    /// No drawing is made of so many entities.
    Size,
    /// The canonical file would be longer than the limit.
    TooLarge {
        /// How many bytes it would have.
        size: u64,
    },
}

impl From<NoMemory> for DrillFault {
    ghost from_gives = { λ _ fault. fault ≡ NoMemory };

    fn from(_error: NoMemory) -> DrillFault {
        DrillFault::NoMemory
    }
}
