//! Drawing up the certificate of a drawing's objects.

ghost use Rattle.std.specs.Prelude.{◌≡◌, ◌↔◌, ◌<◌, ◌+◌, ◌^◌, length, map, is_some, IfOk, IfSome, IsTrue, Some};
ghost use Rattle.std.specs.List.{AllByRecursion, slice_get};
ghost use Rattle.dwg_cert.specs.Certified.{certificate_of};
ghost use Rattle.dwg_cert.specs.Checked.{CanBeChecked};
ghost use Rattle.dwg_cert.specs.Drawn.{AreTables, drawn, drawn_entry, drawn_place, left_of, steps_between, steps_left};
ghost use Rattle.dwg_graph.specs.Claimed.{reference_count};
ghost use Rattle.dwg_graph.specs.Owners.{spaces};
ghost use Rattle.dwg_graph.specs.Placed.{owner_place, owner_table};
ghost use Rattle.dwg_graph.specs.Places.{Ascend, handles_of};
ghost use Rattle.dwg_graph.specs.Sound.{IsSound};
ghost use Rattle.dwg_object.specs.Objects.{value_of};
ghost use Rattle.dwg_object.specs.Written.{IsWhole};

use crate::accepting::accepts_entries;
use crate::certificate::Certificate;
use crate::entry::Entry;
use crate::lookup::reported_at;
use crate::placing::{Indexed, Tables};
use dwg_base::{Handle, Items, NoMemory, vec_with_capacity};
use dwg_object::Object;
use std::alloc::Global;

/// A count of steps as a certificate holds it.
fn number(steps: Option<usize>) -> Option<u64>
    ensures { result ≡ steps }
{
    match steps {
        Some(count) => Some(count as u64),
        None => None,
    }
}

/// How many fewer steps are left from one than from the other, none where there are more.
fn steps_between(from: Option<usize>, to: Option<usize>) -> Option<u64>
    ensures { result ≡ steps_between from to }
{
    match from {
        Some(all) => match to {
            Some(left) => number(all.checked_sub(left)),
            None => None,
        },
        None => None,
    }
}

/// How many steps are left from a handle to the last of a block.
#[tactic(auto, using(crate::proofs::StepTables::left_placed))]
fn left_at(drawing: &Indexed<'_, '_>, left: &[Option<usize>], handle: Handle) -> Option<usize>
    requires left { left.now ≡ map (left_of drawing.now) drawing.now }
    ensures { result ≡ steps_left drawing.now handle }
{
    match drawing.place_of(handle) {
        Some(place) => reported_at(left, place),
        None => None,
    }
}

/// The place of an object in the chain of its block: how many fewer steps are left from it than from the first.
#[tactic(auto, unfolding(crate::specs::Drawn::drawn_place))]
fn chain_place(
    drawing: &Indexed<'_, '_>,
    left: &[Option<usize>],
    object: &Object<'_>,
    owner: Option<usize>,
    here: Option<usize>,
) -> Option<u64>
    requires left { left.now ≡ map (left_of drawing.now) drawing.now }
    requires owner { owner ≡ owner_place drawing.now (spaces drawing.now) (value_of object.now) }
    requires here { here ≡ left_of drawing.now (value_of object.now) }
    ensures { result ≡ drawn_place drawing.now (value_of object.now) }
{
    match drawing.home_ends(object, owner) {
        Some(ends) => steps_between(left_at(drawing, left, ends.first), here),
        None => None,
    }
}

/// The entry of the object at a place.
#[tactic(auto, using(crate::proofs::StepTables::reported_at))]
fn entry(drawing: &Indexed<'_, '_>, tables: &Tables, object: &Object<'_>, place: usize) -> Entry
    requires tables { AreTables drawing.now tables.now.owners.items tables.now.ranks.items tables.now.left.items }
    requires there { slice_get drawing.now place ≡ Some (value_of object.now) }
    ensures { result ≡ drawn_entry drawing.now (value_of object.now) }
{
    Entry {
        handle: object.handle(),
        rank: number(tables.ranks[place]),
        chain: chain_place(
            drawing,
            &tables.left,
            object,
            tables.owners[place],
            tables.left[place],
        ),
    }
}

/// The entries of all objects. Err: out of memory.
#[tactic(auto, unfolding(crate::specs::Drawn::drawn), using(dwg_graph::proofs::Counting::value_there))]
fn entries(
    alloc: Global,
    drawing: &Indexed<'_, '_>,
    tables: &Tables,
) -> Result<Items<Entry>, NoMemory>
    requires tables { AreTables drawing.now tables.now.owners.items tables.now.ranks.items tables.now.left.items }
    ensures { IfOk result (λ entries. entries ≡ drawn drawing.now) }
{
    let mut entries = vec_with_capacity(alloc, drawing.objects.len())?;
    'objects: for (place, object) in drawing.objects.iter().enumerate() {
        entries.push(entry(drawing, tables, object, place))?;
    }
    Ok(Items::from_vec(entries))
}

/// The certificate that is drawn up of objects, whether their references hold together or not. Err: out of memory.
#[tactic(auto, using(crate::proofs::DrawnUp::drawn_of_sound))]
fn draw_up(
    alloc: Global,
    drawing: &Indexed<'_, '_>,
    tables: &Tables,
) -> Result<Certificate, NoMemory>
    requires ascending { Ascend (handles_of drawing.now) }
    requires few { length drawing.now < 2 ^ 58 }
    requires tables { AreTables drawing.now tables.now.owners.items tables.now.ranks.items tables.now.left.items }
    // It has an entry for each object, with its rank, and a place where it is a member of a block.
    ensures drawn { IfOk result (λ cert. cert ≡ drawn drawing.now) }
    // It is that of the objects where they are sound.
    ensures sound { IfOk result (λ cert. IsSound drawing.now → cert ≡ certificate_of drawing.now) }
{
    let entries = entries(alloc, drawing, tables)?;
    Ok(Certificate::build(entries))
}

/// Whether the references of objects hold together: exactly where the certificate that is drawn up of them is accepted.
fn are_sound(
    alloc: Global,
    drawing: &Indexed<'_, '_>,
    owners: &[Option<usize>],
    cert: &Certificate,
) -> Result<bool, NoMemory>
    requires can { CanBeChecked drawing.now }
    requires owners { owners.now ≡ owner_table drawing.now (spaces drawing.now) }
    requires drawn { cert.now ≡ drawn drawing.now }
    ensures { IfOk result (λ are. IsTrue are ↔ IsSound drawing.now) }
{
    accepts_entries(alloc, drawing, owners, cert.entries())
}

/// The certificate of objects (a rule of this project), None exactly where their references don't hold together: of each its handle, how
/// many owners lead from it to a root, and where it stands in the chain of its block. Err: out of memory.
pub fn certify(alloc: Global, objects: &[Object<'_>]) -> Result<Option<Certificate>, NoMemory>
    requires ascending { Ascend (handles_of (map value_of objects.now)) }
    requires whole { AllByRecursion IsWhole (map value_of objects.now) }
    requires few { length objects.now + reference_count (map value_of objects.now) < 2 ^ 58 }
    // It is their own certificate, and it is there exactly where they are sound.
    ensures certified { IfOk result (λ found. IfSome found (λ cert. cert ≡ certificate_of (map value_of objects.now))) }
    ensures sound { IfOk result (λ found. IsTrue (is_some found) ↔ IsSound (map value_of objects.now)) }
{
    let drawing = Indexed::build(alloc, objects)?;
    let tables = drawing.tables(alloc)?;
    let cert = draw_up(alloc, &drawing, &tables)?;
    if are_sound(alloc, &drawing, &tables.owners, &cert)? {
        Ok(Some(cert))
    } else {
        Ok(None)
    }
}
