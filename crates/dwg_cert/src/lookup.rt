//! Where the object of a handle stands, and what tables say of places.

ghost use Rattle.std.specs.Prelude.{◌≡◌, ◌<◌};
ghost use Rattle.dwg_chains.specs.Tables.{leads};
ghost use Rattle.dwg_graph.specs.Placed.{place_in};
ghost use Rattle.dwg_graph.specs.Places.{Ascend};

use dwg_base::Handle;
use dwg_graph::Index;
use dwg_steps::Steps;
use std::marker::Brand;
use std::sync::ledger::{Blank, Ledger};

/// Where the object of a handle stands, with a counter of the ledger that the blank opens.
#[tactic(auto, using(dwg_graph::proofs::Placing::place_known))]
fn place_counted<L: Ledger>(index: &Index, handle: Handle, blank: Blank) -> Option<usize>
    requires ascend { Ascend index.now }
    requires name { blank.name ≡ L.name }
    requires parts { blank.parts ≡ L.parts }
    requires some { 0 < blank.parts }
    ensures { result ≡ place_in index.now handle }
{
    let mut steps = Steps::<L>::new(blank);
    index.find(handle, &mut steps)
}

/// Where the object of a handle stands, `None` exactly where no object has it.
pub(crate) fn place_of(index: &Index, handle: Handle) -> Option<usize>
    requires ascend { Ascend index.now }
    ensures { result ≡ place_in index.now handle }
{
    place_counted::<Brand>(index, handle, Blank::new(1))
}

/// What a table says of a place, none after its end.
pub(crate) fn reported_at(table: &[Option<usize>], place: usize) -> Option<usize>
    ensures { result ≡ leads table.now place }
{
    match table.get(place) {
        Some(reported) => *reported,
        None => None,
    }
}
