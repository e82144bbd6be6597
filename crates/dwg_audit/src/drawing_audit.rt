//! The audit of a whole drawing.

ghost use Rattle.std.specs.Prelude.{◌≡◌, ◌↔◌, ◌<◌, [], IfOk};
ghost use Rattle.dwg_audit.specs.Findings.{findings};
ghost use Rattle.dwg_file.specs.Contents.{contents_of};
ghost use Rattle.dwg_graph.specs.Sound.{IsSound};

use crate::auditing::audit;
use crate::finding::Finding;
use dwg_base::{Items, NoMemory};
use dwg_file::Drawing;
use dwg_graph::slot_laws;
use dwg_steps::Steps;
use std::alloc::Global;
use std::marker::Brand;
use std::sync::ledger::{Blank, Ledger};

/// What the references of a drawing fail, with a counter of the ledger that the blank opens. Err: out of memory.
fn audit_counted<L: Ledger>(
    alloc: Global,
    drawing: &Drawing<'_>,
    blank: Blank,
) -> Result<Items<Finding>, NoMemory>
    requires name { blank.name ≡ L.name }
    requires parts { blank.parts ≡ L.parts }
    requires some { 0 < blank.parts }
    ensures findings { IfOk result (λ found. found ≡ findings (contents_of drawing.now).objects) }
    ensures sound { IfOk result (λ found. (found ≡ []) ↔ IsSound (contents_of drawing.now).objects) }
{
    slot_laws();
    let parts = drawing.parts();
    let mut steps = Steps::<L>::new(blank);
    audit(alloc, parts.objects.as_slice(), &mut steps)
}

/// What the references of a drawing fail (a rule of this project): nothing exactly where the drawing is sound. The findings stand
/// in order of handle, rule, field and position. Err: out of memory.
pub fn audit_drawing(alloc: Global, drawing: &Drawing<'_>) -> Result<Items<Finding>, NoMemory>
    ensures findings { IfOk result (λ found. found ≡ findings (contents_of drawing.now).objects) }
    ensures sound { IfOk result (λ found. (found ≡ []) ↔ IsSound (contents_of drawing.now).objects) }
{
    audit_counted::<Brand>(alloc, drawing, Blank::new(1))
}
