//! Where the object of a handle stands among the objects of a drawing.

ghost use Rattle.std.specs.Prelude.{◌≡◌, ◌<◌, ◌≤◌, ◌+◌, ◌-◌, ◌^◌, ℕ, List, length, map, IfOk};
ghost use Rattle.std.specs.List.{slice_index_or};
ghost use Rattle.dwg_graph.specs.Places.{Ascend, CanStand, IsPlaceOf, handles_of};
ghost use Rattle.dwg_object.specs.Objects.{value_of};

use dwg_base::{Handle, NoMemory, vec_with_capacity};
use dwg_object::Object;
use dwg_steps::Steps;
use std::alloc::Global;
use std::marker::Model;
use std::sync::ledger::Ledger;

/// The handles of objects in ascending order, each with its place. Contracts see the list of handles.
#[derive(Drop)]
pub struct Index {
    handles: Vec<Handle>,
    // The first and the last of them, null where there are none.
    lowest: Handle,
    highest: Handle,
}

impl Model for Index {
    ghost use Rattle.std.specs.Prelude.{◌≡◌, ◌-◌, ℕ, List, length};
    ghost use Rattle.std.specs.List.{slice_index_or};
    ghost use Rattle.dwg_graph.specs.Places.{Ascend};

    ghost Value = { List ℕ };

    ghost view = { λ index. index.handles.items };

    ghost invariant = { λ index. Ascend index.handles.items × (index.lowest ≡ slice_index_or index.handles.items 0 0) × (index.highest ≡ slice_index_or index.handles.items (length index.handles.items - 1) 0) };
}

/// So many places from one on.
#[derive(Clone, Copy, Drop)]
struct Span {
    from: usize,
    width: usize,
}

/// Where a handle can stand among handles that ascend. Each is greater than the one before it, so that a handle stands at most as far
/// after the lowest, and before the highest, as it differs from them: at few places, where few numbers between are no handles.
#[inline(always)]
fn span_of(handles: &[Handle], lowest: Handle, highest: Handle, handle: Handle) -> Span
    requires ascend { Ascend handles.now }
    requires lowest { lowest ≡ slice_index_or handles.now 0 0 }
    requires highest { highest ≡ slice_index_or handles.now (length handles.now - 1) 0 }
    ensures { CanStand handles.now handle result.from result.width }
{
    let count = handles.len();
    if handle.value() < lowest.value() {
        return Span { from: 0, width: 0 };
    }
    if highest.value() < handle.value() {
        return Span {
            from: count,
            width: 0,
        };
    }
    let above = (highest.value() - handle.value()) as usize;
    let below = (handle.value() - lowest.value()) as usize;
    let from = count.saturating_sub(above + 1);
    let end = count.min(below + 1);
    Span {
        from,
        width: end - from,
    }
}

/// Where a handle stands among handles that ascend, by where it can stand. A step is one probe.
#[inline(always)]
fn place_of<L: Ledger>(
    handles: &[Handle],
    span: Span,
    handle: Handle,
    steps: &mut Steps<L>,
) -> Option<usize>
    requires ascend { Ascend handles.now }
    requires span { CanStand handles.now handle span.from span.width }
    ensures place { IsPlaceOf handles.now handle result }
    ensures steps { (k : ℕ) → length handles.now < 2 ^ k → steps.new ≤ steps.old + k }
{
    let mut from = span.from;
    let mut width = span.width;
    'halves: while 0 < width {
        let half = width / 2;
        let here = handles[from + half];
        steps.tick();
        if here == handle {
            return Some(from + half);
        }
        if here < handle {
            from = from + half + 1;
            width = width - half - 1;
        } else {
            width = half;
        }
    }
    None
}

/// The handles of objects, in their order. Err: out of memory.
fn gather(alloc: Global, objects: &[Object<'_>]) -> Result<Vec<Handle>, NoMemory>
    ensures { IfOk result (λ handles. handles.items ≡ handles_of (map value_of objects.now)) }
{
    let mut handles = vec_with_capacity(alloc, objects.len())?;
    'objects: for object in objects {
        handles.push(object.handle())?;
    }
    Ok(handles)
}

/// The first of handles, null where there are none.
fn first_of(handles: &[Handle]) -> Handle
    ensures { result ≡ slice_index_or handles.now 0 0 }
{
    match handles.first() {
        Some(first) => *first,
        None => Handle::NULL,
    }
}

/// The last of handles, null where there are none.
fn last_of(handles: &[Handle]) -> Handle
    ensures { result ≡ slice_index_or handles.now (length handles.now - 1) 0 }
{
    match handles.last() {
        Some(last) => *last,
        None => Handle::NULL,
    }
}

impl Index {
    /// The index of objects whose handles ascend. Err: out of memory.
    pub fn build(alloc: Global, objects: &[Object<'_>]) -> Result<Index, NoMemory>
        requires ascending { Ascend (handles_of (map value_of objects.now)) }
        ensures { IfOk result (λ index. index ≡ handles_of (map value_of objects.now)) }
    {
        let handles = gather(alloc, objects)?;
        let lowest = first_of(handles.as_slice());
        let highest = last_of(handles.as_slice());
        Ok(Index {
            handles,
            lowest,
            highest,
        })
    }

    /// The place of the object that has the handle, `None` exactly where no object has it. A step is one probe of the index: there
    /// are at most as many as the count of objects has binary digits.
    #[inline(always)]
    pub fn find<L: Ledger>(&self, handle: Handle, steps: &mut Steps<L>) -> Option<usize>
        ensures place { IsPlaceOf self.now handle result }
        ensures steps { (k : ℕ) → length self.now < 2 ^ k → steps.new ≤ steps.old + k }
    {
        let handles = self.handles.as_slice();
        let span = span_of(handles, self.lowest, self.highest, handle);
        place_of(handles, span, handle, steps)
    }
}
