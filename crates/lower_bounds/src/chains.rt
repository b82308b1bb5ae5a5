//! The stations that what is before and after a task needs, on a straight line.
//!
//! A task's head is the time of what is before it in the set, with its own, and its tail the same of what is after
//! it; in cycles, rounded up, they need as many stations, of which the task's own is counted twice. Head and tail
//! take the set's time and the task's own less the time of what is elsewhere, that is neither before nor after the
//! task. So a task can only need more than `most` stations where what is elsewhere takes no more than that time less
//! `most` cycles. It is passed over as soon as the times found elsewhere exceed that; the task with which they did is
//! kept as a witness, and is tried first at the next task. Only what stays gets its head summed. The cost is one pass
//! over the set for each of its tasks at most.
//!
//! A task is chained in a set for so many stations where it needs more. Head and tail are sums over the set, so what is
//! chained in a part of it is chained in the whole. Who asks of many parts of a set finds its chained tasks once, and
//! asks of each part these alone.
ghost use Rattle.std.specs.Prelude.{◌≡◌, ℕ, ◌≤◌, ◌<◌, ◌+◌, ◌-◌, ◌*◌, ◌↔◌, max, IsTrue, IsNone, IfSome, IfOk, IfErr};
ghost use Rattle.line_instance.specs.Truths.{In};
ghost use Rattle.line_instance.specs.Line.{IsTaskSet, has, tasks};
ghost use Rattle.line_instance.specs.Sums.{sum_where};
ghost use Rattle.line_rules.specs.Bounds.{head, tail, chained, IsChained};
ghost use Rattle.line_rules.specs.declared.types.LineKind.TheVariants.{Straight};
ghost use Rattle.line_rules.specs.Times.{AreTimes, time_elsewhere};

use crate::sizes::{Times, times_in};
use line_instance::{Instance, TaskSet};
use line_rules::LineKind;

/// The total time of a set of tasks, where it is at most `limit`; otherwise a task with which it is more.
fn sum_up_to(inst: &Instance, set: &TaskSet, limit: u64) -> Result<u64, u32>
    requires { IsTaskSet inst.now set.now }
    ensures more { IfErr result (λ i. limit < sum_where (has set.now) inst.now.times) }
    ensures task { IfErr result (λ i. i < tasks inst.now) }
    ensures sum { IfOk result (λ s. s ≡ sum_where (has set.now) inst.now.times) }
    ensures within { IfOk result (λ s. s ≤ limit) }
{
    let _tasks = inst.tasks();
    let mut sum = 0;
    for i in set {
        sum += inst.time(i);
        if sum > limit {
            return Err(i);
        }
    }
    Ok(sum)
}

/// The times of the tasks of a set that are neither before nor after task `j`, without `j`, where they are at most
/// `limit` together. The `witness` is a task that is tried first, and becomes one that may serve the next time.
#[inline(always)]
fn time_elsewhere(
    inst: &Instance,
    set: &TaskSet,
    j: u32,
    limit: u64,
    witness: &mut u32,
) -> Option<u64>
    requires set { IsTaskSet inst.now set.now }
    requires member { In set.now j }
    requires witness { witness.old < tasks inst.now }
    ensures none { IsNone result → limit < time_elsewhere inst.now set.now j }
    ensures some { IfSome result (λ s. s ≡ time_elsewhere inst.now set.now j) }
    ensures within { IfSome result (λ s. s ≤ limit) }
    ensures witness { witness.new < tasks inst.now }
{
    let _tasks = inst.tasks();
    let tried = *witness;
    let before = inst.before(j);
    let after = inst.after(j);
    if set.has(tried)
        && tried != j
        && !before.has(tried)
        && !after.has(tried)
        && inst.time(tried) > limit
    {
        return None;
    }
    let mut elsewhere = *set;
    inst.take_out(&mut elsewhere, before);
    inst.take_out(&mut elsewhere, after);
    elsewhere.remove(j);
    match sum_up_to(inst, &elsewhere, limit) {
        Ok(sum) => Some(sum),
        Err(i) => {
            *witness = i;
            None
        }
    }
}

/// A time from which on a head and a tail together may need more than `most` stations: two more than so many cycles.
fn enough(cycle: u64, most: u64) -> u128
    requires { cycle ≤ 1000000000000000000 }
    ensures { result ≡ most * cycle + 2 }
{
    u128::from(most) * u128::from(cycle) + 2
}

/// The stations that the head and the tail of task `j` of a set need, its own counted once, where they are more than
/// `least`. The set's total time is `total`; the `witness` is a task that is tried first to show that they aren't more.
#[inline(always)]
fn around(
    inst: &Instance,
    cycle: u64,
    set: &TaskSet,
    total: u64,
    least: u64,
    j: u32,
    witness: &mut u32,
) -> Option<u64>
    requires set { IsTaskSet inst.now set.now }
    requires some { 1 ≤ cycle }
    requires limit { cycle ≤ 1000000000000000000 }
    requires total { total ≡ sum_where (has set.now) inst.now.times }
    requires member { In set.now j }
    requires witness { witness.old < tasks inst.now }
    ensures none { IsNone result → head inst.now cycle set.now j + tail inst.now cycle set.now j - 1 ≤ least }
    ensures some { IfSome result (λ r. r ≡ head inst.now cycle set.now j + tail inst.now cycle set.now j - 1) }
    ensures more { IfSome result (λ r. least < r) }
    ensures witness { witness.new < tasks inst.now }
{
    let _tasks = inst.tasks();
    let own = inst.time(j);
    let most = total + own;
    let enough = enough(cycle, least);
    if u128::from(most) < enough {
        return None;
    }
    let apart = time_elsewhere(inst, set, j, most - enough as u64, witness)?;
    let before = inst.before(j);
    let head = times_in(inst, &set.meet(before)).total + own;
    let tail = most - apart - head;
    let stations = head.div_ceil(cycle) + tail.div_ceil(cycle) - 1;
    if stations > least {
        Some(stations)
    } else {
        None
    }
}

/// The greater of `least` and the most stations that the head and the tail of a task of a set need, which is `least` on
/// a U-line. The times are those of the set.
pub(crate) fn longest_chain(
    inst: &Instance,
    kind: LineKind,
    cycle: u64,
    set: &TaskSet,
    times: Times,
    least: u64,
) -> u64
    requires set { IsTaskSet inst.now set.now }
    requires some { 1 ≤ cycle }
    requires limit { cycle ≤ 1000000000000000000 }
    requires times { AreTimes inst.now set.now times.total times.longest }
    ensures { result ≡ max least (chained kind inst.now cycle set.now) }
{
    let _tasks = inst.tasks();
    match kind {
        LineKind::U => return least,
        LineKind::Straight => {}
    }
    if u128::from(times.total + times.longest) < enough(cycle, least) {
        return least;
    }
    let mut longest = least;
    let mut witness = 0;
    for j in set {
        if let Some(stations) = around(inst, cycle, set, times.total, longest, j, &mut witness) {
            longest = stations;
        }
    }
    longest
}

/// The tasks of a set whose head and tail there need more than `least` stations on a straight line, their own counted
/// once. The times are those of the set. The cycle is 1 to 1,000,000,000,000,000,000, in the instance's time unit. Takes
/// no memory.
pub fn chained_tasks(
    inst: &Instance,
    cycle: u64,
    set: &TaskSet,
    times: Times,
    least: u32,
) -> TaskSet
    requires set { IsTaskSet inst.now set.now }
    requires some { 1 ≤ cycle }
    requires limit { cycle ≤ 1000000000000000000 }
    requires times { AreTimes inst.now set.now times.total times.longest }
    ensures members { (j : ℕ) → In result j ↔ IsChained Straight inst.now cycle set.now least j }
    ensures set { IsTaskSet inst.now result }
{
    let _tasks = inst.tasks();
    let least = u64::from(least);
    let mut chained = TaskSet::empty();
    if u128::from(times.total + times.longest) < enough(cycle, least) {
        return chained;
    }
    let mut witness = 0;
    for j in set {
        if around(inst, cycle, set, times.total, least, j, &mut witness).is_some() {
            chained.insert(j);
        }
    }
    chained
}

/// Whether the head and the tail of a task of a set need more than `most` stations, which no task does on a U-line. The
/// times are those of the set. Only tasks of `asked` are asked, which has all those that are chained.
pub(crate) fn has_longer_chain(
    inst: &Instance,
    kind: LineKind,
    cycle: u64,
    set: &TaskSet,
    times: Times,
    asked: &TaskSet,
    most: u64,
) -> bool
    requires set { IsTaskSet inst.now set.now }
    requires some { 1 ≤ cycle }
    requires limit { cycle ≤ 1000000000000000000 }
    requires times { AreTimes inst.now set.now times.total times.longest }
    requires asked { (j : ℕ) → IsChained kind inst.now cycle set.now most j → In asked.now j }
    ensures { IsTrue result ↔ most < chained kind inst.now cycle set.now }
{
    let _tasks = inst.tasks();
    match kind {
        LineKind::U => return false,
        LineKind::Straight => {}
    }
    if u128::from(times.total + times.longest) < enough(cycle, most) {
        return false;
    }
    let chosen = inst.meet(set, asked);
    let mut witness = 0;
    for j in &chosen {
        if around(inst, cycle, set, times.total, most, j, &mut witness).is_some() {
            return true;
        }
    }
    false
}
