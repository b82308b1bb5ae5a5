//! Which tasks of a set conflict: they can't share a station, whatever else the set has.
//!
//! Most conflicts are seen from the two tasks alone. What lies between them is summed only where that leaves the
//! question open, and never on a U-line.
ghost use Rattle.std.specs.Prelude.{◌≡◌, ◌≢◌, ℕ, ◌≤◌, ◌<◌, ◌↔◌, IsTrue};
ghost use Rattle.line_instance.specs.Truths.{In, IsSubset};
ghost use Rattle.line_instance.specs.Line.{IsTaskSet, tasks};
ghost use Rattle.line_rules.specs.Pairs.{time_between, Conflict};

use line_instance::{Instance, TaskSet};
use line_rules::LineKind;

/// The times of the tasks of a set between two tasks, whichever of the two comes first; 0 on a U-line.
fn time_between(inst: &Instance, kind: LineKind, set: &TaskSet, i: u32, j: u32) -> u64
    requires set { IsTaskSet inst.now set.now }
    requires first { i < tasks inst.now }
    requires second { j < tasks inst.now }
    ensures time { result ≡ time_between kind inst.now set.now i j }
    ensures limit { result ≤ 204800000000000000 }
{
    match kind {
        LineKind::U => return 0,
        LineKind::Straight => {}
    }
    let onward = inst.after(i).meet(inst.before(j));
    let back = inst.after(j).meet(inst.before(i));
    let between = set.meet(&onward.union(&back));
    inst.sum(&between)
}

/// Whether two tasks conflict in a set at a cycle.
pub(crate) fn conflict(
    inst: &Instance,
    kind: LineKind,
    cycle: u64,
    set: &TaskSet,
    i: u32,
    j: u32,
) -> bool
    requires set { IsTaskSet inst.now set.now }
    requires first { i < tasks inst.now }
    requires second { j < tasks inst.now }
    ensures { IsTrue result ↔ Conflict kind inst.now cycle set.now i j }
{
    let _tasks = inst.tasks();
    if inst.apart(j).has(i) {
        return true;
    }
    let times = inst.time(i) + inst.time(j);
    if times > cycle {
        return true;
    }
    times + time_between(inst, kind, set, i, j) > cycle
}

/// Whether each of some tasks of a set conflicts with task `j`.
pub(crate) fn each_conflicts(
    inst: &Instance,
    kind: LineKind,
    cycle: u64,
    set: &TaskSet,
    others: &TaskSet,
    j: u32,
) -> bool
    requires set { IsTaskSet inst.now set.now }
    requires others { IsSubset others.now set.now }
    requires task { j < tasks inst.now }
    ensures { IsTrue result ↔ ((i : ℕ) → In others.now i → Conflict kind inst.now cycle set.now i j) }
{
    for i in others {
        if !conflict(inst, kind, cycle, set, i, j) {
            return false;
        }
    }
    true
}

/// Whether each two of some tasks of a set conflict.
pub(crate) fn each_two_conflict(
    inst: &Instance,
    kind: LineKind,
    cycle: u64,
    set: &TaskSet,
    two: &TaskSet,
) -> bool
    requires set { IsTaskSet inst.now set.now }
    requires two { IsSubset two.now set.now }
    ensures { IsTrue result ↔ ((i j : ℕ) → In two.now i → In two.now j → i ≢ j
        → Conflict kind inst.now cycle set.now i j) }
{
    let _tasks = inst.tasks();
    let _truths = two.capacity();
    let mut left = *two;
    'left: while let Some(j) = left.least() {
        left.remove(j);
        if !each_conflicts(inst, kind, cycle, set, &left, j) {
            return false;
        }
    }
    true
}
