//! The stations that what is before and after a task needs.
//!
//! On a straight line a task with all before it needs some stations, and with all after it some more; its own is
//! counted once. To sum both for each task costs two passes over the set. Two tests come before that. The longest task
//! is asked about once for the set. Then what is neither before nor after a task is summed, up to a limit.
ghost use Rattle.std.specs.Prelude.{◌≡◌, ℕ, ◌≤◌, ◌<◌, ◌+◌, ◌-◌, ◌*◌, ◌↔◌, IsTrue};
ghost use Rattle.line_instance.specs.Truths.{In};
ghost use Rattle.line_instance.specs.Line.{IsTaskSet, has, time};
ghost use Rattle.line_instance.specs.Sums.{sum_where};
ghost use Rattle.line_rules.specs.Bounds.{chained, head, tail, IsChained};
ghost use Rattle.line_rules.specs.declared.types.LineKind.TheVariants.{Straight};
ghost use Rattle.line_rules.specs.Times.{AreTimes, time_elsewhere};

use crate::sizes::Times;
use line_instance::{Instance, TaskSet};
use line_rules::LineKind;

/// The stations that the head and the tail of task `j` of a set need, its own counted once.
fn chain(inst: &Instance, cycle: u64, set: &TaskSet, j: u32) -> u64
    requires set { IsTaskSet inst.now set.now }
    requires some { 1 ≤ cycle }
    requires member { In set.now j }
    ensures { result ≡ head inst.now cycle set.now j + tail inst.now cycle set.now j - 1 }
{
    let _tasks = inst.tasks();
    let head = inst.sum(&set.meet(inst.before(j))) + inst.time(j);
    let tail = inst.sum(&set.meet(inst.after(j))) + inst.time(j);
    (head.div_ceil(cycle) + tail.div_ceil(cycle)).saturating_sub(1)
}

/// A time from which on a head and a tail together may need more than `stations`: 2 more than so many cycles.
fn enough(cycle: u64, stations: u64) -> u128
    requires { cycle ≤ 1000000000000000000 }
    ensures { result ≡ stations * cycle + 2 }
{
    u128::from(stations) * u128::from(cycle) + 2
}

/// Whether the total time of a set of tasks is more than `limit`, known as soon as it is.
fn is_longer(inst: &Instance, set: &TaskSet, limit: u64) -> bool
    requires { IsTaskSet inst.now set.now }
    ensures { IsTrue result ↔ limit < sum_where (has set.now) inst.now.times }
{
    let _tasks = inst.tasks();
    let mut sum = 0;
    for i in set {
        sum += inst.time(i);
        if sum > limit {
            return true;
        }
    }
    false
}

/// The tasks of a set that are neither before nor after task `j`, without `j`.
fn elsewhere(inst: &Instance, set: &TaskSet, j: u32) -> TaskSet
    requires set { IsTaskSet inst.now set.now }
    requires member { In set.now j }
    ensures set { IsTaskSet inst.now result }
    ensures sum { sum_where (has result) inst.now.times ≡ time_elsewhere inst.now set.now j }
{
    let _tasks = inst.tasks();
    let before = inst.before(j);
    let after = inst.after(j);
    let mut elsewhere = set.minus(before).minus(after);
    elsewhere.remove(j);
    elsewhere
}

/// Whether the head and the tail of task `j` of a set need more than `stations`: not where all tasks with `j`
/// once more take too little time, or those that are neither before nor after it too much. The set's total time is
/// `total`.
fn needs_more(inst: &Instance, cycle: u64, set: &TaskSet, total: u64, stations: u64, j: u32) -> bool
    requires set { IsTaskSet inst.now set.now }
    requires some { 1 ≤ cycle }
    requires limit { cycle ≤ 1000000000000000000 }
    requires total { total ≡ sum_where (has set.now) inst.now.times }
    requires total_limit { total ≤ 204800000000000000 }
    requires member { In set.now j }
    ensures { IsTrue result ↔ stations < head inst.now cycle set.now j + tail inst.now cycle set.now j - 1 }
{
    let _tasks = inst.tasks();
    let most = u128::from(total + inst.time(j));
    let enough = enough(cycle, stations);
    if most < enough {
        return false;
    }
    if is_longer(inst, &elsewhere(inst, set, j), (most - enough) as u64) {
        return false;
    }
    chain(inst, cycle, set, j) > stations
}

/// The tasks of a set whose head and tail there need more than `most` stations on a straight line, their own counted
/// once. Head and tail are sums over the set, so what needs more in a part of the set is among them.
pub fn chained_tasks(inst: &Instance, cycle: u64, set: &TaskSet, times: Times, most: u32) -> TaskSet
    requires set { IsTaskSet inst.now set.now }
    requires some { 1 ≤ cycle }
    requires limit { cycle ≤ 1000000000000000000 }
    requires times { AreTimes inst.now set.now times.total times.longest }
    ensures { (j : ℕ) → In result j ↔ IsChained Straight inst.now cycle set.now most j }
{
    let _tasks = inst.tasks();
    let stations = u64::from(most);
    let mut found = TaskSet::empty();
    if u128::from(times.total + times.longest) < enough(cycle, stations) {
        return found;
    }
    for j in set {
        if needs_more(inst, cycle, set, times.total, stations, j) {
            found.insert(j);
        }
    }
    found
}

/// Whether the head and the tail of a task of a set need more than `stations`, which those of none do on a U-line. The
/// tasks that do are in the set `among`, and no others are looked at.
pub fn has_longer_chain(
    inst: &Instance,
    kind: LineKind,
    cycle: u64,
    set: &TaskSet,
    times: Times,
    among: &TaskSet,
    stations: u64,
) -> bool
    requires set { IsTaskSet inst.now set.now }
    requires some { 1 ≤ cycle }
    requires limit { cycle ≤ 1000000000000000000 }
    requires times { AreTimes inst.now set.now times.total times.longest }
    requires among { (j : ℕ) → IsChained kind inst.now cycle set.now stations j → In among.now j }
    ensures { IsTrue result ↔ stations < chained kind inst.now cycle set.now }
{
    let _tasks = inst.tasks();
    match kind {
        LineKind::U => return false,
        LineKind::Straight => {}
    }
    if u128::from(times.total + times.longest) < enough(cycle, stations) {
        return false;
    }
    let looked = set.meet(among);
    for j in &looked {
        if needs_more(inst, cycle, set, times.total, stations, j) {
            return true;
        }
    }
    false
}
