//! The plain form, for all modes: from a load to the next over the places from the last one down, with each test made
//! afresh.
//!
//! It keeps nothing from load to load, so it serves where a load is given and no walk stands at it. Each place that
//! is passed costs the whole test of its task: the sum of the load's times, what is apart from the task, and what is
//! ahead of it in the set.
ghost use Rattle.std.specs.Prelude.{◌≡◌, ℕ, ◌<◌, ◌↔◌, IsTrue, IsNone, IfSome, None, Some, true, false};
ghost use Rattle.line_instance.specs.Line.{IsTaskSet, tasks};
ghost use Rattle.line_rules.specs.Loads.{IsLoad, IsFull};
ghost use Rattle.line_rules.specs.Order.{Precedes, IsNext, IsFollowing};
ghost use Rattle.line_rules.specs.declared.types.Load.{Load as Pair};
ghost use Rattle.line_rules.specs.inner.Scan.{IsPart};
ghost use Rattle.line_rules.specs.Sides.{MayJoin, fills, spot};
ghost use Rattle.line_rules.specs.Sides.{AreSets};
ghost use Rattle.line_rules.specs.inner.Scan.{Scan};

use crate::sides::{ahead, fills, nothing, part, put, stands, take, task_at};
use line_instance::{Instance, TaskSet};
use line_rules::{Load, Mode, Side};

/// Whether a task may join a side of a load, whatever the mode.
fn may_join(inst: &Instance, cycle: u64, set: &TaskSet, load: &Load, side: Side, task: u32) -> bool
    requires task { task < tasks inst.now }
    requires sets { AreSets inst.now load.now }
    ensures { IsTrue result ↔ MayJoin inst.now cycle set.now side load.now task }
{
    let _tasks = inst.tasks();
    let taken = load.front.union(&load.back);
    if !set.has(task) {
        return false;
    }
    if taken.has(task) {
        return false;
    }
    if inst.sum(&taken) + inst.time(task) > cycle {
        return false;
    }
    if !taken.meet(inst.apart(task)).is_empty() {
        return false;
    }
    ahead(inst, side, task)
        .meet(set)
        .is_subset(part(load, side))
}

/// Goes over the places of a side from the last one down: gives up what stands there, up to the first place where a
/// task may join. Whether one has joined.
fn climb(
    inst: &Instance,
    cycle: u64,
    set: &TaskSet,
    mode: Mode,
    side: Side,
    base: &Load,
    load: &mut Load,
) -> bool
    requires { Scan inst.now cycle mode set.now base.now load.old (spot inst.now side (tasks inst.now)) }
    ensures joined { IsTrue result → IsNext inst.now cycle mode set.now base.now load.new }
    ensures passed { result ≡ false → Scan inst.now cycle mode set.now base.now load.new (spot inst.now side 0) }
{
    if !fills(mode, side) {
        return false;
    }
    let mut place = inst.tasks();
    while place > 0 {
        place -= 1;
        let task = task_at(inst, side, place);
        if stands(load, side, task) {
            take(load, side, task);
        } else if may_join(inst, cycle, set, load, side, task) {
            put(load, side, task);
            return true;
        }
    }
    false
}

/// The least load above a load or above nothing.
fn above(inst: &Instance, cycle: u64, set: &TaskSet, mode: Mode, base: &Load) -> Option<Load>
    requires { IsPart inst.now cycle mode set.now base.now }
    ensures none { IsNone result → (l : Pair) → IsLoad inst.now cycle mode set.now l → Precedes inst.now base.now l
        → ⊥ }
    ensures next { IfSome result (IsNext inst.now cycle mode set.now base.now) }
{
    let _tasks = inst.tasks();
    let mut load = *base;
    if climb(inst, cycle, set, mode, Side::Back, base, &mut load) {
        return Some(load);
    }
    if climb(inst, cycle, set, mode, Side::Front, base, &mut load) {
        return Some(load);
    }
    None
}

/// The first load of a set of tasks at a cycle, in the instance's time unit, in a mode; None where the set has none.
pub fn first(inst: &Instance, cycle: u64, set: &TaskSet, mode: Mode) -> Option<Load>
    ensures none { IsNone result → (l : Pair) → IsLoad inst.now cycle mode set.now l → ⊥ }
    ensures first { IfSome result (IsFollowing inst.now cycle mode set.now None) }
{
    let _tasks = inst.tasks();
    above(inst, cycle, set, mode, &nothing())
}

/// The load after a load of the set; None after the last.
pub fn next(inst: &Instance, cycle: u64, set: &TaskSet, mode: Mode, last: &Load) -> Option<Load>
    requires load { IsLoad inst.now cycle mode set.now last.now }
    ensures none { IsNone result → (l : Pair) → IsLoad inst.now cycle mode set.now l → Precedes inst.now last.now l
        → ⊥ }
    ensures next { IfSome result (IsFollowing inst.now cycle mode set.now (Some last.now)) }
{
    let _tasks = inst.tasks();
    above(inst, cycle, set, mode, last)
}

/// Whether a task of the set may join a side that loads of the mode fill.
fn grows(inst: &Instance, cycle: u64, set: &TaskSet, mode: Mode, load: &Load, side: Side) -> bool
    requires set { IsTaskSet inst.now set.now }
    requires sets { AreSets inst.now load.now }
    ensures some { IsTrue result → (i : ℕ) × (fills mode side ≡ true) × MayJoin inst.now cycle set.now side load.now i }
    ensures none { result ≡ false → (i : ℕ) → fills mode side ≡ true → MayJoin inst.now cycle set.now side load.now i
        → ⊥ }
{
    if !fills(mode, side) {
        return false;
    }
    let tasks = inst.tasks();
    for task in 0..tasks {
        if may_join(inst, cycle, set, load, side, task) {
            return true;
        }
    }
    false
}

/// Whether no task of the set can be added to a load so that it is one.
pub fn full(inst: &Instance, cycle: u64, set: &TaskSet, mode: Mode, load: &Load) -> bool
    requires set { IsTaskSet inst.now set.now }
    requires load { IsLoad inst.now cycle mode set.now load.now }
    ensures { IsTrue result ↔ IsFull inst.now cycle mode set.now load.now }
{
    let _tasks = inst.tasks();
    if grows(inst, cycle, set, mode, load, Side::Front) {
        return false;
    }
    if grows(inst, cycle, set, mode, load, Side::Back) {
        return false;
    }
    true
}
