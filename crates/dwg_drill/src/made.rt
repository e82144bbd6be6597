//! The file of a drill: the canonical file of a made drawing.

ghost use Rattle.std.specs.Prelude.{◌≡◌, ◌≤◌, ◌<◌, ◌⊎◌, ℕ, Err, IfOk, OnOk, IsErrOf};
ghost use Rattle.dwg_base.specs.Devices.{MOST_BYTES};
ghost use Rattle.dwg_drill.specs.Drilled.{DRILL_SEED};
ghost use Rattle.dwg_file.specs.Contents.{contents_of};
ghost use Rattle.dwg_file.specs.Canonical.{canonical, canonical_with, size_of};
ghost use Rattle.dwg_make.specs.Made.{MOST_ENTITIES, made};

use crate::fault::DrillFault;
use dwg_base::{ByteRun, Items, MemSink, NoMemory, WriteFault};
use dwg_file::{Drawing, Plan, PlanFault};
use dwg_make::{MakeFault, make};
use std::alloc::Global;

/// The seed of a drill's drawing.
const SEED: u32 = 1;

/// Makes the drawing of a drill. Size exactly where the count is out of range; the only other refusal is out of memory.
fn make_drawing(alloc: Global, n: u32) -> Result<Drawing<'static>, DrillFault>
    ensures made { IfOk result (λ drawing. contents_of drawing ≡ made n DRILL_SEED) }
    ensures within { OnOk result ((0 < n) × (n ≤ MOST_ENTITIES)) }
    ensures size { IsErrOf result DrillFault.Size → (n ≡ 0) ⊎ (MOST_ENTITIES < n) }
    ensures size_reported { (n ≡ 0) ⊎ (MOST_ENTITIES < n) → IsErrOf result DrillFault.Size }
    ensures never_too_large { (size : ℕ) → result ≡ Err (DrillFault.TooLarge size) → ⊥ }
{
    match make(alloc, n, SEED) {
        Ok(drawing) => Ok(drawing),
        Err(MakeFault::Size) => Err(DrillFault::Size),
        Err(MakeFault::NoMemory) => Err(DrillFault::NoMemory),
    }
}

/// Sends the file of a plan into memory. Err: out of memory: the sink has the room and fails in no call, so no run
/// comes to a fault of it.
fn send(alloc: Global, plan: &mut Plan<'_, '_>) -> Result<ByteRun, NoMemory>
    ensures { IfOk result (λ file. file ≡ canonical_with plan.old.carried plan.old.drawing) }
{
    let room = plan.size() as usize;
    let mut sink = MemSink::new(alloc, room, usize::MAX, Items::new(alloc))?;
    match plan.write_to(&mut sink) {
        Ok(()) => Ok(sink.into_bytes()),
        Err(WriteFault) => Err(NoMemory),
    }
}

/// The canonical file of a drawing. TooLarge exactly where it has more bytes than a file may have, with their count; the only other
/// refusal is out of memory.
fn write_drawing(alloc: Global, drawing: &Drawing<'_>) -> Result<ByteRun, DrillFault>
    ensures file { IfOk result (λ file. file ≡ canonical (contents_of drawing.now)) }
    ensures within { OnOk result (size_of (contents_of drawing.now) ≤ MOST_BYTES) }
    ensures too_large { (size : ℕ) → result ≡ Err (DrillFault.TooLarge size) → (MOST_BYTES < size_of (contents_of drawing.now)) × (size ≡ size_of (contents_of drawing.now)) }
    ensures never_size { IsErrOf result DrillFault.Size → ⊥ }
{
    let mut plan = match Plan::prepare(alloc, drawing) {
        Ok(plan) => plan,
        Err(PlanFault::TooLarge { size }) => return Err(DrillFault::TooLarge { size }),
        Err(PlanFault::NoMemory) => return Err(DrillFault::NoMemory),
    };
    let file = send(alloc, &mut plan)?;
    Ok(file)
}

/// The canonical file of the drawing of a drill. Size exactly where the count is out of range, TooLarge exactly where the file has
/// more bytes than a file may have; the only other refusal is out of memory.
pub(crate) fn make_file(alloc: Global, n: u32) -> Result<ByteRun, DrillFault>
    ensures file { IfOk result (λ file. file ≡ canonical (made n DRILL_SEED)) }
    ensures within { OnOk result ((0 < n) × (n ≤ MOST_ENTITIES) × (size_of (made n DRILL_SEED) ≤ MOST_BYTES)) }
    ensures size { IsErrOf result DrillFault.Size → (n ≡ 0) ⊎ (MOST_ENTITIES < n) }
    ensures size_reported { (n ≡ 0) ⊎ (MOST_ENTITIES < n) → IsErrOf result DrillFault.Size }
    ensures too_large { (size : ℕ) → result ≡ Err (DrillFault.TooLarge size) → (0 < n) × (n ≤ MOST_ENTITIES) × (MOST_BYTES < size_of (made n DRILL_SEED)) × (size ≡ size_of (made n DRILL_SEED)) }
{
    let drawing = make_drawing(alloc, n)?;
    write_drawing(alloc, &drawing)
}
