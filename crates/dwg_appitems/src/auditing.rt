//! The audit of the references of items.

ghost use Rattle.std.specs.Prelude.{◌≡◌, ◌++◌, [], length, map, IfOk, OnOk};
ghost use Rattle.std.specs.List.{sum_by};
ghost use Rattle.std.specs.Option.{option_map_or};
ghost use Rattle.dwg_appitems.specs.AppFindings as found_by;
ghost use Rattle.dwg_appitems.specs.ItemLookups.{TakeAtMost, all_item_references, app_references, item_references};
ghost use Rattle.dwg_graph.specs.Places.{Ascend, handles_of};
ghost use Rattle.dwg_object.specs.Objects.{value_of};

use crate::apps::apps_of;
use crate::finding::AppFinding;
use crate::item::AppItem;
use crate::reading::read_items;
use crate::referring::{is_met, target};
use dwg_base::{Handle, Items, NoMemory};
use dwg_common::AppData;
use dwg_graph::Index;
use dwg_object::Object;
use dwg_steps::Steps;
use std::alloc::Global;
use std::sync::ledger::Ledger;

/// Finds that what an item refers to isn't there. Err: out of memory.
fn judge_item<L: Ledger>(
    objects: &[Object<'_>],
    known: &Index,
    handle: Handle,
    index: u64,
    item: u64,
    one: &AppItem,
    steps: &mut Steps<L>,
    found: &mut Items<AppFinding>,
) -> Result<(), NoMemory>
    requires ascend { Ascend (handles_of (map value_of objects.now)) }
    requires known { known.now ≡ handles_of (map value_of objects.now) }
    ensures found { OnOk result (found.new ≡ found.old ++ found_by.item_findings (map value_of objects.now) handle index item one.now) }
    ensures steps { TakeAtMost (length objects.now) (item_references one.now) steps.old steps.new }
{
    if is_met(objects, known, one, steps) {
        return Ok(());
    }
    found.try_push(AppFinding {
        handle,
        index,
        item,
        target: target(one),
    })
}

/// Finds the items whose references aren't there. Err: out of memory.
fn judge_items<L: Ledger>(
    objects: &[Object<'_>],
    known: &Index,
    handle: Handle,
    index: u64,
    items: &[AppItem],
    steps: &mut Steps<L>,
    found: &mut Items<AppFinding>,
) -> Result<(), NoMemory>
    requires ascend { Ascend (handles_of (map value_of objects.now)) }
    requires known { known.now ≡ handles_of (map value_of objects.now) }
    ensures found { OnOk result (found.new ≡ found.old ++ found_by.items_findings (map value_of objects.now) handle index 0 items.now) }
    ensures steps { TakeAtMost (length objects.now) (sum_by item_references items.now) steps.old steps.new }
{
    'items: for place in 0..items.len() {
        judge_item(
            objects,
            known,
            handle,
            index,
            place as u64,
            &items[place],
            steps,
            found,
        )?;
    }
    Ok(())
}

/// Finds what the items of application data fail, nothing where its bytes are none. Err: out of memory.
fn judge_app<L: Ledger>(
    alloc: Global,
    objects: &[Object<'_>],
    known: &Index,
    handle: Handle,
    index: u64,
    app: &AppData,
    steps: &mut Steps<L>,
    found: &mut Items<AppFinding>,
) -> Result<(), NoMemory>
    requires ascend { Ascend (handles_of (map value_of objects.now)) }
    requires known { known.now ≡ handles_of (map value_of objects.now) }
    ensures found { OnOk result (found.new ≡ found.old ++ option_map_or (found_by.items_findings (map value_of objects.now) handle index 0) (found_by.items_in app.now.bytes) []) }
    ensures steps { TakeAtMost (length objects.now) (app_references app.now) steps.old steps.new }
{
    let Some(items) = read_items(alloc, app.bytes.as_slice())? else {
        return Ok(());
    };
    judge_items(
        objects,
        known,
        handle,
        index,
        items.as_slice(),
        steps,
        found,
    )
}

/// Finds what application data fails, one after the other. Err: out of memory.
fn judge_apps<L: Ledger>(
    alloc: Global,
    objects: &[Object<'_>],
    known: &Index,
    handle: Handle,
    apps: &[AppData],
    steps: &mut Steps<L>,
    found: &mut Items<AppFinding>,
) -> Result<(), NoMemory>
    requires ascend { Ascend (handles_of (map value_of objects.now)) }
    requires known { known.now ≡ handles_of (map value_of objects.now) }
    ensures found { OnOk result (found.new ≡ found.old ++ found_by.apps_findings (map value_of objects.now) handle 0 apps.now) }
    ensures steps { TakeAtMost (length objects.now) (sum_by app_references apps.now) steps.old steps.new }
{
    'apps: for index in 0..apps.len() {
        judge_app(
            alloc,
            objects,
            known,
            handle,
            index as u64,
            &apps[index],
            steps,
            found,
        )?;
    }
    Ok(())
}

/// Finds what the items of all objects fail. Err: out of memory.
fn judge_all<L: Ledger>(
    alloc: Global,
    objects: &[Object<'_>],
    known: &Index,
    steps: &mut Steps<L>,
) -> Result<Items<AppFinding>, NoMemory>
    requires ascend { Ascend (handles_of (map value_of objects.now)) }
    requires known { known.now ≡ handles_of (map value_of objects.now) }
    ensures found { IfOk result (λ found. found ≡ found_by.app_findings (map value_of objects.now)) }
    ensures steps { TakeAtMost (length objects.now) (all_item_references (map value_of objects.now)) steps.old steps.new }
{
    let mut found = Items::new(alloc);
    'objects: for place in 0..objects.len() {
        let object = &objects[place];
        judge_apps(
            alloc,
            objects,
            known,
            object.handle(),
            apps_of(object),
            steps,
            &mut found,
        )?;
    }
    Ok(found)
}

/// What the items of extended data refer to and isn't there (a rule of this project): a layer whose handle isn't that of an object
/// of kind LAYER, or an object whose handle isn't null and isn't that of an object. The findings stand in order of handle, application
/// data and item. Raw objects, and application data whose bytes are no items, have none. A step is one probe of the index of handles:
/// each item that refers is looked up once at the most, and a lookup takes as many probes as the count of objects has binary digits.
/// Memory is taken for that index, for the items of one application data at a time, and for the findings. Err: out of memory.
pub fn app_audit<L: Ledger>(
    alloc: Global,
    objects: &[Object<'_>],
    steps: &mut Steps<L>,
) -> Result<Items<AppFinding>, NoMemory>
    requires ascending { Ascend (handles_of (map value_of objects.now)) }
    ensures findings { IfOk result (λ found. found ≡ found_by.app_findings (map value_of objects.now)) }

    // As many probes as one lookup for each item that refers takes, whatever the answer.
    ensures steps { TakeAtMost (length objects.now) (all_item_references (map value_of objects.now)) steps.old steps.new }
{
    let known = Index::build(alloc, objects)?;
    judge_all(alloc, objects, &known, steps)
}
