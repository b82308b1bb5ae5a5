//! The test of the rule: which tasks conflict, and two counts.
ghost use Rattle.std.specs.Prelude.{◌↔◌, IsTrue};
ghost use Rattle.line_instance.specs.Truths.{In, IsSubset};
ghost use Rattle.line_instance.specs.Line.{IsTaskSet};
ghost use Rattle.line_rules.specs.Ranges.{IsCycle};
ghost use Rattle.line_rules.specs.Pairs.{IsOne, AreOne, IsRefutedByPairs};

use crate::conflicts::{each_conflicts, each_two_conflict};
use line_instance::{Instance, TaskSet};
use line_rules::LineKind;

/// Whether task `j` of a set, outside `two`, is above a third of the cycle and conflicts with each task of `two`.
fn is_one(inst: &Instance, kind: LineKind, cycle: u64, set: &TaskSet, two: &TaskSet, j: u32) -> bool
    requires set { IsTaskSet inst.now set.now }
    requires two { IsSubset two.now set.now }
    requires member { In set.now j }
    requires outside { In two.now j → ⊥ }
    ensures { IsTrue result ↔ IsOne kind inst.now cycle set.now two.now j }
{
    let _tasks = inst.tasks();
    if 3 * inst.time(j) <= cycle {
        return false;
    }
    each_conflicts(inst, kind, cycle, set, two, j)
}

/// The tasks of a set outside `two` that are above a third of the cycle and conflict with each task of `two`.
fn ones(inst: &Instance, kind: LineKind, cycle: u64, set: &TaskSet, two: &TaskSet) -> TaskSet
    requires set { IsTaskSet inst.now set.now }
    requires two { IsSubset two.now set.now }
    ensures { AreOne kind inst.now cycle set.now two.now result }
{
    let _tasks = inst.tasks();
    let rest = set.minus(two);
    let mut one = rest;
    for j in &rest {
        if !is_one(inst, kind, cycle, set, two, j) {
            one.remove(j);
        }
    }
    one
}

/// Whether pairs refute a set in `most` stations, with `two` as the tasks that count twice; it may be any set. Takes no
/// memory.
pub fn pairs_hold(
    inst: &Instance,
    kind: LineKind,
    cycle: u64,
    set: &TaskSet,
    most: u32,
    two: &TaskSet,
) -> bool
    requires set { IsTaskSet inst.now set.now }
    requires cycle { IsCycle cycle }
    ensures { IsTrue result ↔ IsRefutedByPairs kind inst.now cycle set.now most two.now }
{
    let _truths = two.capacity();
    if !two.is_subset(set) {
        return false;
    }
    if !each_two_conflict(inst, kind, cycle, set, two) {
        return false;
    }
    let one = ones(inst, kind, cycle, set, two);
    2 * u64::from(two.count()) + u64::from(one.count()) > 2 * u64::from(most)
}
