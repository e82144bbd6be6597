//! Checking a certificate: what is to be trusted by whoever doesn't trust the audit.

ghost use Rattle.std.specs.Prelude.{◌≡◌, ◌↔◌, ◌<◌, ◌+◌, ◌^◌, length, map, IfOk, IsTrue};
ghost use Rattle.std.specs.List.{AllByRecursion, list_all};
ghost use Rattle.dwg_cert.specs.AcceptTests.{are_handles, is_accepted, is_right};
ghost use Rattle.dwg_cert.specs.Accepts.{Accepts};
ghost use Rattle.dwg_cert.specs.Checked.{CanBeChecked};
ghost use Rattle.dwg_graph.specs.Claimed.{reference_count};
ghost use Rattle.dwg_graph.specs.Owners.{spaces};
ghost use Rattle.dwg_graph.specs.Placed.{owner_table};
ghost use Rattle.dwg_graph.specs.Places.{Ascend, handles_of};
ghost use Rattle.dwg_graph.specs.Sound.{IsSound};
ghost use Rattle.dwg_object.specs.Objects.{value_of};
ghost use Rattle.dwg_object.specs.Written.{IsWhole};

use crate::acceptance::acceptance_laws;
use crate::certificate::Certificate;
use crate::checker::Checker;
use crate::counting::{count_claims, count_members};
use crate::entry::Entry;
use crate::placing::Indexed;
use dwg_base::NoMemory;
use dwg_graph::control_count;
use dwg_object::Object;
use std::alloc::Global;

/// Whether the handles of entries are those of objects.
fn are_handles(entries: &[Entry], objects: &[Object<'_>]) -> bool
    ensures { result ≡ are_handles entries.now (map value_of objects.now) }
{
    if entries.len() != objects.len() {
        return false;
    }
    'entries: for i in 0..entries.len() {
        if entries[i].handle != objects[i].handle() {
            return false;
        }
    }
    true
}

/// Whether what the certificate says of each object is right, and the references of all hold together.
fn are_right(objects: &[Object<'_>], checker: &Checker<'_, '_>) -> bool
    requires { checker.now.objects ≡ map value_of objects.now }
    ensures { result ≡ list_all (is_right checker.now.objects checker.now.cert) checker.now.objects }
{
    'objects: for place in 0..objects.len() {
        if !checker.is_right(place, &objects[place]) {
            return false;
        }
    }
    true
}

/// Whether what entries, one for each object, say of it is right, where the owners of the objects stand there.
fn are_entries_right(
    alloc: Global,
    drawing: &Indexed<'_, '_>,
    owners: &[Option<usize>],
    entries: &[Entry],
) -> Result<bool, NoMemory>
    requires can { CanBeChecked drawing.now }
    requires owners { owners.now ≡ owner_table drawing.now (spaces drawing.now) }
    requires handles { IsTrue (are_handles entries.now drawing.now) }
    ensures { IfOk result (λ is. is ≡ list_all (is_right drawing.now entries.now) drawing.now) }
{
    let objects = drawing.objects;
    let Some(claimed) = count_claims(alloc, objects, &drawing.known, &drawing.index)? else {
        return Ok(false);
    };
    let members = count_members(alloc, objects, &drawing.known, owners)?;
    let checker = Checker {
        objects,
        entries,
        known: drawing.known,
        index: &drawing.index,
        owners,
        members,
        claimed,
    };
    Ok(are_right(objects, &checker))
}

/// Whether a certificate with an entry for each object is accepted, where the owners of the objects stand there.
#[tactic(auto, unfolding(crate::specs::AcceptTests::is_accepted))]
pub(crate) fn accepts_entries(
    alloc: Global,
    drawing: &Indexed<'_, '_>,
    owners: &[Option<usize>],
    entries: &[Entry],
) -> Result<bool, NoMemory>
    requires can { CanBeChecked drawing.now }
    requires owners { owners.now ≡ owner_table drawing.now (spaces drawing.now) }
    requires handles { IsTrue (are_handles entries.now drawing.now) }
    ensures { IfOk result (λ is. is ≡ is_accepted drawing.now entries.now) }
{
    if control_count(drawing.objects) != 1 {
        return Ok(false);
    }
    are_entries_right(alloc, drawing, owners, entries)
}

/// Whether the tests of a certificate with these entries pass.
#[tactic(auto, unfolding(crate::specs::AcceptTests::is_accepted))]
fn tested(alloc: Global, objects: &[Object<'_>], entries: &[Entry]) -> Result<bool, NoMemory>
    requires can { CanBeChecked (map value_of objects.now) }
    ensures { IfOk result (λ is. is ≡ is_accepted (map value_of objects.now) entries.now) }
{
    if !are_handles(entries, objects) {
        return Ok(false);
    }
    let drawing = Indexed::build(alloc, objects)?;
    let owners = drawing.owners(alloc)?;
    accepts_entries(alloc, &drawing, &owners, entries)
}

/// Whether a certificate is one of these objects (a rule of this project): exactly where it has an entry for each of them, its ranks lead
/// to roots and its places follow the chains of blocks, and what needs no certificate holds. Then the references of the objects hold
/// together, whoever made the certificate. Err: out of memory.
pub fn accepts(alloc: Global, objects: &[Object<'_>], cert: &Certificate) -> Result<bool, NoMemory>
    requires ascending { Ascend (handles_of (map value_of objects.now)) }
    requires whole { AllByRecursion IsWhole (map value_of objects.now) }
    requires few { length objects.now + reference_count (map value_of objects.now) < 2 ^ 58 }
    // It is true exactly where the certificate is one of these objects, and by the tests that say so.
    ensures accepted { IfOk result (λ is. IsTrue is ↔ Accepts (map value_of objects.now) cert.now) }
    ensures reported { IfOk result (λ is. is ≡ is_accepted (map value_of objects.now) cert.now) }

    // What is accepted is sound.
    ensures sound { IfOk result (λ is. IsTrue is → IsSound (map value_of objects.now)) }
{
    acceptance_laws();
    tested(alloc, objects, cert.entries())
}
