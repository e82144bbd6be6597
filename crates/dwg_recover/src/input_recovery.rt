//! Recovery of an input without a count of steps.

ghost use Rattle.std.specs.Prelude.{◌≡◌, ◌≤◌, ◌<◌, length, IfOk, IfSome};
ghost use Rattle.dwg_base.specs.Devices.{MOST_BYTES};
ghost use Rattle.dwg_recover.specs.Recovering.{recovered};
ghost use Rattle.dwg_recover.specs.Results.{recovered_value};

use crate::recovery::{Recovered, recover};
use dwg_base::NoMemory;
use dwg_steps::Steps;
use std::alloc::Global;
use std::marker::Brand;
use std::sync::ledger::{Blank, Ledger};

/// What an input holds, with a counter of the ledger that the blank opens. Err: out of memory.
fn recover_counted<'a, L: Ledger>(
    alloc: Global,
    bytes: &'a [u8],
    blank: Blank,
) -> Result<Recovered<'a>, NoMemory>
    requires limit { length bytes.now ≤ MOST_BYTES }
    requires name { blank.name ≡ L.name }
    requires parts { blank.parts ≡ L.parts }
    requires some { 0 < blank.parts }
    ensures recovered { IfOk result (λ value. recovered_value value ≡ recovered bytes.now) }
{
    let mut steps = Steps::<L>::new(blank);
    recover(alloc, bytes, &mut steps)
}

/// What an input of at most 32 MiB holds: the drawing that it spells, or all that is left of one, with the losses and the frames that
/// are kept. A rule of this project. Err: out of memory.
pub fn recover_input<'a>(alloc: Global, bytes: &'a [u8]) -> Result<Recovered<'a>, NoMemory>
    requires { length bytes.now ≤ MOST_BYTES }
    ensures recovered { IfOk result (λ value. recovered_value value ≡ recovered bytes.now) }
{
    recover_counted::<Brand>(alloc, bytes, Blank::new(1))
}
