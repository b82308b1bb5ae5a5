//! Whether a load that is given is full.
//!
//! It keeps nothing from load to load, and tests each task afresh. It serves the last loads of frames alone, of which a
//! trail has at most 1,024. A walk that keeps its ends asks the same at less cost.
ghost use Rattle.std.specs.Prelude.{◌≡◌, ℕ, ◌<◌, ◌↔◌, IsTrue, true, false};
ghost use Rattle.line_instance.specs.Line.{IsTaskSet, tasks};
ghost use Rattle.line_rules.specs.Loads.{IsLoad, IsFull};
ghost use Rattle.line_rules.specs.Sides.{MayJoin, fills};
ghost use Rattle.line_rules.specs.Sides.{AreSets};

use crate::sides::{ahead, fills, part};
use line_instance::{Instance, TaskSet};
use line_rules::{Load, Mode, Side};

/// Whether a task may join a side of a load, whatever the mode.
fn may_join(inst: &Instance, cycle: u64, set: &TaskSet, load: &Load, side: Side, task: u32) -> bool
    requires task { task < tasks inst.now }
    requires sets { AreSets inst.now load.now }
    ensures { IsTrue result ↔ MayJoin inst.now cycle set.now side load.now task }
{
    let _tasks = inst.tasks();
    let taken = load.front.union(&load.back);
    if !set.has(task) {
        return false;
    }
    if taken.has(task) {
        return false;
    }
    if inst.sum(&taken) + inst.time(task) > cycle {
        return false;
    }
    if !taken.meet(inst.apart(task)).is_empty() {
        return false;
    }
    ahead(inst, side, task)
        .meet(set)
        .is_subset(part(load, side))
}

/// Whether a task of the set may join a side that loads of the mode fill.
fn may_grow(inst: &Instance, cycle: u64, set: &TaskSet, mode: Mode, load: &Load, side: Side) -> bool
    requires set { IsTaskSet inst.now set.now }
    requires sets { AreSets inst.now load.now }
    ensures some { IsTrue result → (i : ℕ) × (fills mode side ≡ true) × MayJoin inst.now cycle set.now side load.now i }
    ensures none { result ≡ false → (i : ℕ) → fills mode side ≡ true → MayJoin inst.now cycle set.now side load.now i
        → ⊥ }
{
    if !fills(mode, side) {
        return false;
    }
    let tasks = inst.tasks();
    for task in 0..tasks {
        if may_join(inst, cycle, set, load, side, task) {
            return true;
        }
    }
    false
}

/// Whether no task of the set can be added to a load so that it is one, with each test made afresh.
pub fn is_full_load(inst: &Instance, cycle: u64, set: &TaskSet, mode: Mode, load: &Load) -> bool
    requires set { IsTaskSet inst.now set.now }
    requires load { IsLoad inst.now cycle mode set.now load.now }
    ensures { IsTrue result ↔ IsFull inst.now cycle mode set.now load.now }
{
    let _tasks = inst.tasks();
    if may_grow(inst, cycle, set, mode, load, Side::Front) {
        return false;
    }
    if may_grow(inst, cycle, set, mode, load, Side::Back) {
        return false;
    }
    true
}
