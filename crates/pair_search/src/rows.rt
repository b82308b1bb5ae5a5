//! Who shares with whom: a row of bits for each task above a third of the cycle.
//!
//! Each two such tasks are looked at once from each side. Most conflicts are seen from the two tasks alone, or from a
//! third such task between them. Only where that leaves it open the times of what lies between them are summed. So n
//! tasks cost n * n looks, and sums for those alone that follow each other closely.
ghost use Rattle.std.specs.Prelude.{◌≡◌, ◌≢◌, ℕ, ◌<◌, ◌≤◌, ◌↔◌, [], length, slice_index_or, IsTrue, IfOk};
ghost use Rattle.line_instance.specs.Truths.{In, full_to};
ghost use Rattle.line_instance.specs.Line.{IsTaskSet, tasks, has};
ghost use Rattle.line_instance.specs.Sums.{sum_where};
ghost use Rattle.line_rules.specs.Ranges.{IsCycle};
ghost use Rattle.line_rules.specs.Pairs.{time_between, Conflict};
ghost use Rattle.pair_search.specs.Sharing.{AreLong, IsRowOf};

use line_instance::{Instance, TaskSet};
use line_rules::LineKind;
use std::alloc::{AllocError, Global};

// The tasks that count between two tasks, whichever of the two comes first; none on a U-line.
fn between(inst: &Instance, kind: LineKind, i: u32, j: u32) -> TaskSet
    requires first { i < tasks inst.now }
    requires second { j < tasks inst.now }
    ensures set { IsTaskSet inst.now result }
    ensures time { sum_where (has result) inst.now.times ≡ time_between kind inst.now (full_to (tasks inst.now)) i j }
{
    match kind {
        LineKind::U => return TaskSet::empty(),
        LineKind::Straight => {}
    }
    let onward = inst.after(i).meet(inst.before(j));
    let back = inst.after(j).meet(inst.before(i));
    inst.all().meet(&onward.union(&back))
}

// Whether two long tasks conflict at a cycle in the set of all tasks. With a third long task between them they do.
fn conflict(inst: &Instance, kind: LineKind, cycle: u64, long: &TaskSet, i: u32, j: u32) -> bool
    requires long { AreLong inst.now cycle long.now }
    requires first { In long.now i }
    requires second { In long.now j }
    ensures { IsTrue result ↔ Conflict kind inst.now cycle (full_to (tasks inst.now)) i j }
{
    let _tasks = inst.tasks();
    if inst.apart(j).has(i) {
        return true;
    }
    let times = inst.time(i) + inst.time(j);
    if times > cycle {
        return true;
    }
    let between = between(inst, kind, i, j);
    if let Some(_) = between.meet(long).least() {
        return true;
    }
    times + inst.sum(&between) > cycle
}

// The tasks above a third of a cycle.
pub(crate) fn long_tasks(inst: &Instance, cycle: u64) -> TaskSet
    ensures { AreLong inst.now cycle result }
{
    let _tasks = inst.tasks();
    let all = inst.all();
    let mut long = all;
    for j in &all {
        if 3 * inst.time(j) <= cycle {
            long.remove(j);
        }
    }
    long
}

// The long tasks that share with task `i`; none where it isn't long.
fn row_of(inst: &Instance, kind: LineKind, cycle: u64, long: &TaskSet, i: u32) -> TaskSet
    requires long { AreLong inst.now cycle long.now }
    requires task { i < tasks inst.now }
    ensures { In long.now i → IsRowOf kind inst.now cycle long.now i result }
{
    let _tasks = inst.tasks();
    if !long.has(i) {
        return TaskSet::empty();
    }
    let others = long.without(i);
    let mut row = others;
    for j in &others {
        if conflict(inst, kind, cycle, long, i, j) {
            row.remove(j);
        }
    }
    row
}

// A row for each task: of a long one the long tasks that share with it, of another one none.
pub(crate) fn rows(
    alloc: Global,
    inst: &Instance,
    kind: LineKind,
    cycle: u64,
    long: &TaskSet,
) -> Result<Vec<TaskSet>, AllocError>
    requires long { AreLong inst.now cycle long.now }
    ensures many { IfOk result (λ rows. length rows.items ≡ tasks inst.now) }
    ensures rows { IfOk result (λ rows. (i : ℕ) → In long.now i
        → IsRowOf kind inst.now cycle long.now i (slice_index_or rows.items i [])) }
{
    let tasks = inst.tasks();
    let mut rows = Vec::with_capacity(alloc, tasks as usize)?;
    for i in 0..tasks {
        rows.push(row_of(inst, kind, cycle, long, i))?;
    }
    Ok(rows)
}
