//! Whether a pair of sets is a load.
//!
//! The last load of a frame comes from a text, so whether it is one has to be tested. It has to be a part of the set
//! and to fit the cycle. No two of its tasks may be apart, and each side needs what has to stand there. One pass over
//! the tasks, with a few operations on sets for each.
ghost use Rattle.std.specs.Prelude.{◌≡◌, ℕ, ◌<◌, ◌↔◌, true, IsTrue};
ghost use Rattle.line_instance.specs.Truths.{In};
ghost use Rattle.line_instance.specs.Line.{tasks};
ghost use Rattle.line_rules.specs.Loads.{IsLoad, taken};
ghost use Rattle.line_rules.specs.Ranges.{IsLoadLike};
ghost use Rattle.line_check.specs.inner.Pairs.{IsClosedAt};

use crate::entries::is_met;
use line_instance::{Instance, TaskSet};
use line_rules::{Load, Mode};

/// Whether a task, where it is present, leaves nothing out of a side that its row and the set have in common.
fn keeps(present: bool, set: &TaskSet, row: &TaskSet, side: &TaskSet) -> bool
    ensures { IsTrue result ↔ (present ≡ true → (j : ℕ) → In set.now j → In row.now j → In side.now j) }
{
    if !present {
        return true;
    }
    is_met(set, row, side)
}

/// Whether a task of a load is apart from no task of it, and has at its side what has to stand there.
fn is_closed_at(inst: &Instance, set: &TaskSet, load: &Load, taken: &TaskSet, i: u32) -> bool
    requires task { i < tasks inst.now }
    ensures { IsTrue result ↔ IsClosedAt inst.now set.now load.now taken.now i }
{
    let _tasks = inst.tasks();
    if !keeps(taken.has(i), taken, inst.apart(i), &TaskSet::empty()) {
        return false;
    }
    if !keeps(load.front.has(i), set, inst.before(i), &load.front) {
        return false;
    }
    keeps(load.back.has(i), set, inst.after(i), &load.back)
}

/// Whether that is so of each task.
fn is_closed(inst: &Instance, set: &TaskSet, load: &Load, taken: &TaskSet) -> bool
    ensures { IsTrue result ↔ ((i : ℕ) → i < tasks inst.now → IsClosedAt inst.now set.now load.now taken.now i) }
{
    for i in 0..inst.tasks() {
        if !is_closed_at(inst, set, load, taken, i) {
            return false;
        }
    }
    true
}

/// Whether a pair of sets is a load of a set at a cycle in a mode.
pub(crate) fn is_load(inst: &Instance, cycle: u64, mode: Mode, set: &TaskSet, load: &Load) -> bool
    requires like { IsLoadLike (tasks inst.now) mode load.now }
    ensures { IsTrue result ↔ IsLoad inst.now cycle mode set.now load.now }
{
    let _tasks = inst.tasks();
    let taken = load.front.union(&load.back);
    if !taken.is_subset(set) {
        return false;
    }
    if !is_met(&load.front, &load.back, &TaskSet::empty()) {
        return false;
    }
    if taken.is_empty() {
        return false;
    }
    if inst.sum(&taken) > cycle {
        return false;
    }
    is_closed(inst, set, load, &taken)
}
