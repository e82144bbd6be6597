//! The drill: a made drawing written, read again and audited, and read with a changed byte.

ghost use Rattle.std.specs.Prelude.{◌≡◌, ◌≤◌, ◌<◌, ◌⊎◌, ℕ, Option, None, Err, length, IfOk, IfSome, OnOk, IsErrOf};
ghost use Rattle.dwg_audit.specs.Findings.{findings};
ghost use Rattle.dwg_base.specs.Devices.{MOST_BYTES};
ghost use Rattle.dwg_base.specs.Refusals.{Reports, first_fault};
ghost use Rattle.dwg_base.specs.Refusal.{Refusal};
ghost use Rattle.dwg_check.specs.CheckWord.{CHECK_SEED, check_word};
ghost use Rattle.dwg_drill.specs.Drilled.{DRILL_SEED, changed, drilled, middle_of};
ghost use Rattle.dwg_file.specs.Canonical.{size_of};
ghost use Rattle.dwg_file.specs.DrawingAt.{drawing_at};
ghost use Rattle.dwg_file.specs.FileLines.{ALL_LINES};
ghost use Rattle.dwg_make.specs.Made.{MOST_ENTITIES, made};

use crate::fault::DrillFault;
use crate::made::make_file;
use crate::report::DrillReport;
use dwg_audit::audit_drawing;
use dwg_base::{ByteRun, Fault, NoMemory, Refusal};
use dwg_check::{CHECK_SEED, check};
use dwg_file::{canonical_laws, drawing_laws, read_drawing};
use dwg_make::make_laws;
use std::alloc::Global;

/// What is counted of a drawing that is read.
#[derive(Clone, Copy)]
struct Counts {
    /// Its objects.
    objects: u64,
    /// The findings of its audit.
    findings: u64,
}

/// Reads a file and audits its drawing. Err: out of memory.
fn count(alloc: Global, file: &[u8]) -> Result<Counts, NoMemory>
    requires length { length file.now ≤ MOST_BYTES }
    requires passes { first_fault ALL_LINES file.now ≡ None }
    ensures objects { IfOk result (λ counts. counts.objects ≡ length (drawing_at file.now).objects) }
    ensures findings { IfOk result (λ counts. counts.findings ≡ length (findings (drawing_at file.now).objects)) }
{
    drawing_laws();
    let drawing = match read_drawing(alloc, file) {
        Ok(drawing) => drawing,
        Err(Fault::NoMemory) => return Err(NoMemory),
        Err(Fault::Refused(_)) => unreachable!(),
    };
    let found = audit_drawing(alloc, &drawing)?;
    Ok(Counts {
        objects: drawing.parts().objects.as_slice().len() as u64,
        findings: found.as_slice().len() as u64,
    })
}

/// Changes the middle byte of a file to its complement.
fn change(file: &mut Vec<u8>)
    requires { 0 < length file.old.items }
    ensures { file.new.items ≡ changed file.old.items }
{
    let middle = file.len() / 2;
    file[middle] = 255 - file[middle];
}

/// The refusal of a fault. Err: out of memory.
fn refusal_of(fault: Fault) -> Result<Option<Refusal>, NoMemory>
    ensures { (first : Option Refusal) → Reports fault first → IfOk result (λ refusal. refusal ≡ first) }
{
    match fault {
        Fault::Refused(refusal) => Ok(Some(refusal)),
        Fault::NoMemory => Err(NoMemory),
    }
}

/// The first fault of a file, if it has one. Err: out of memory.
fn fault_of(alloc: Global, file: &[u8]) -> Result<Option<Refusal>, NoMemory>
    requires { length file.now ≤ MOST_BYTES }
    ensures fault { IfOk result (λ fault. fault ≡ first_fault ALL_LINES file.now) }
{
    match read_drawing(alloc, file) {
        Ok(_drawing) => Ok(None),
        Err(fault) => refusal_of(fault),
    }
}

/// The bytes of a run as a `Vec`, which takes the place of the run. Err: out of memory.
fn owned(alloc: Global, run: ByteRun) -> Result<Vec<u8>, NoMemory>
    ensures { IfOk result (λ file. file.items ≡ run) }
{
    let file = Vec::from_slice(alloc, run.as_slice())?;
    Ok(file)
}

/// Drills over the file of a drawing of so many entities. The file is read again and audited, and then changed in its place. Err: out of memory.
fn drill_file(alloc: Global, entities: u32, file: ByteRun) -> Result<DrillReport, NoMemory>
    requires length { length file ≤ MOST_BYTES }
    requires some { 0 < length file }
    requires passes { first_fault ALL_LINES file ≡ None }
    ensures report { IfOk result (λ report. report ≡ record {
      entities = entities;
      objects = length (drawing_at file).objects;
      size = length file;
      check = check_word CHECK_SEED file;
      middle = middle_of file;
      fault = first_fault ALL_LINES (changed file);
      findings = length (findings (drawing_at file).objects);
    }) }
{
    let mut file = owned(alloc, file)?;
    let size = file.len() as u64;
    let counts = count(alloc, file.as_slice())?;
    let word = check(CHECK_SEED, file.as_slice());
    change(&mut file);
    let fault = fault_of(alloc, file.as_slice())?;
    Ok(DrillReport {
        entities,
        objects: counts.objects,
        size,
        check: word,
        middle: size / 2,
        fault,
        findings: counts.findings,
    })
}

/// Drills (a rule of this project): makes a drawing of so many entities, writes its canonical file, reads that again and audits
/// what was read, and reads the file once more with its middle byte changed to its complement. Size exactly where the count is out
/// of range, TooLarge exactly where the file has more bytes than a file may have, with their count; the only other refusal is out
/// of memory.
pub fn drill(alloc: Global, n: u32) -> Result<DrillReport, DrillFault>
    ensures report { IfOk result (λ report. report ≡ drilled n) }
    ensures within { OnOk result ((0 < n) × (n ≤ MOST_ENTITIES) × (size_of (made n DRILL_SEED) ≤ MOST_BYTES)) }
    ensures size { IsErrOf result DrillFault.Size → (n ≡ 0) ⊎ (MOST_ENTITIES < n) }
    ensures size_reported { (n ≡ 0) ⊎ (MOST_ENTITIES < n) → IsErrOf result DrillFault.Size }
    ensures too_large { (size : ℕ) → result ≡ Err (DrillFault.TooLarge size) → (0 < n) × (n ≤ MOST_ENTITIES) × (MOST_BYTES < size_of (made n DRILL_SEED)) × (size ≡ size_of (made n DRILL_SEED)) }
{
    make_laws();
    canonical_laws();
    let file = make_file(alloc, n)?;
    let report = drill_file(alloc, n, file)?;
    Ok(report)
}
