//! The bound on the stations of a set of tasks, and whether it exceeds a number.
//!
//! Whether is asked far oftener than how many, so a question is settled as soon as may be. The total time comes first:
//! one pass and one division. Then the sizes of the tasks are counted, in one pass; and only then heads and tails are
//! gone over, at most a pass over the set for each of its tasks. A search asks of each load, about the set that the
//! load leaves. It keeps total times, and the tasks of its line in sets by their sizes. So it asks these two, which
//! cost no pass, and then heads and tails alone, of the tasks that are chained in the set before the load.
ghost use Rattle.std.specs.Prelude.{◌≡◌, ◌≤◌, ◌<◌, ◌*◌, ◌↔◌, ℕ, IsTrue};
ghost use Rattle.line_instance.specs.Truths.{In, IsEmpty};
ghost use Rattle.line_instance.specs.Line.{IsTaskSet};
ghost use Rattle.line_rules.specs.Balance.{Holds};
ghost use Rattle.line_rules.specs.Bounds.{bound, lm1, IsChained};
ghost use Rattle.line_rules.specs.Times.{AreTimes};
ghost use Rattle.lower_bounds.specs.Sizes.{FitsBySizes};

use crate::chains::{has_longer_chain, longest_chain};
use crate::sizes::{Times, counts_of, times_in};
use line_instance::{Instance, TaskSet};
use line_rules::LineKind;

/// The bound of a set with a task longer than the cycle: more stations than any line has tasks.
const TOO_LONG: u32 = 1025;

/// A number of stations that a balance of the set needs at least, on a line of that kind at that cycle: 0 for the empty
/// set, 1,025 where a task is longer than the cycle, and otherwise the greatest of 1, the set's total time in cycles
/// (Scholl's LM1), what its tasks of half a cycle or more need (LM2), what its tasks of a third or more need (LM3),
/// and, on a straight line, what the head and the tail of a task need. The cycle is 1 to 1,000,000,000,000,000,000, in
/// the instance's time unit. Takes no memory.
pub fn bound(inst: &Instance, kind: LineKind, cycle: u64, set: &TaskSet) -> u32
    requires set { IsTaskSet inst.now set.now }
    requires some { 1 ≤ cycle }
    requires limit { cycle ≤ 1000000000000000000 }
    ensures value { result ≡ bound kind inst.now cycle set.now }
    ensures holds { (r : ℕ) → r < result → Holds kind inst.now cycle set.now r }
{
    let _tasks = inst.tasks();
    if set.is_empty() {
        return 0;
    }
    let times = times_in(inst, set);
    let counts = counts_of(inst, cycle, set, times.longest);
    if counts.too_long > 0 {
        return TOO_LONG;
    }
    let least = times.total.div_ceil(cycle).max(counts.stations());
    longest_chain(inst, kind, cycle, set, times, least) as u32
}

/// Whether the bound of a set exceeds `most`, given up as soon as that is settled: by the total time first, then by the
/// tasks of a third of a cycle or more, and last by what is before and after a task. The cycle is 1 to
/// 1,000,000,000,000,000,000, in the instance's time unit. Takes no memory.
pub fn exceeds(inst: &Instance, kind: LineKind, cycle: u64, set: &TaskSet, most: u32) -> bool
    requires set { IsTaskSet inst.now set.now }
    requires some { 1 ≤ cycle }
    requires limit { cycle ≤ 1000000000000000000 }
    ensures { IsTrue result ↔ most < bound kind inst.now cycle set.now }
{
    let _tasks = inst.tasks();
    // Before the pass over the members, so that nothing waits for it behind the pass.
    if set.is_empty() {
        return false;
    }
    exceeds_with(inst, kind, cycle, set, times_in(inst, set), most)
}

/// The same, with the times of the set.
fn exceeds_with(
    inst: &Instance,
    kind: LineKind,
    cycle: u64,
    set: &TaskSet,
    times: Times,
    most: u32,
) -> bool
    requires set { IsTaskSet inst.now set.now }
    requires some { 1 ≤ cycle }
    requires limit { cycle ≤ 1000000000000000000 }
    requires times { AreTimes inst.now set.now times.total times.longest }
    ensures { IsTrue result ↔ most < bound kind inst.now cycle set.now }
{
    let _tasks = inst.tasks();
    if set.is_empty() || most >= TOO_LONG {
        return false;
    }
    let most = u64::from(most);
    if most == 0 || times.total.div_ceil(cycle) > most {
        return true;
    }
    exceeds_by_tasks(inst, kind, cycle, set, times, most)
}

/// Whether the bound of a set exceeds `most`, where its total time doesn't: by its tasks of a third of a cycle or more,
/// and last by what is before and after a task. It is a function of its own, so that the tests by the total time alone
/// are inlined where they are asked.
#[inline(never)]
fn exceeds_by_tasks(
    inst: &Instance,
    kind: LineKind,
    cycle: u64,
    set: &TaskSet,
    times: Times,
    most: u64,
) -> bool
    requires set { IsTaskSet inst.now set.now }
    requires task { IsEmpty set.now → ⊥ }
    requires some { 1 ≤ cycle }
    requires limit { cycle ≤ 1000000000000000000 }
    requires times { AreTimes inst.now set.now times.total times.longest }
    requires one { 1 ≤ most }
    requires few { most < 1025 }
    requires total { lm1 inst.now cycle set.now ≤ most }
    ensures { IsTrue result ↔ most < bound kind inst.now cycle set.now }
{
    let _tasks = inst.tasks();
    let counts = counts_of(inst, cycle, set, times.longest);
    if counts.too_long > 0 || counts.stations() > most {
        return true;
    }
    has_longer_chain(inst, kind, cycle, set, times, set, most)
}

/// Whether the bound of a set exceeds `most`, where neither its total time nor the sizes of its tasks show it: by what
/// is before and after a task (Scholl's heads and tails), or since `most` is 0 and the set has a task. Only the tasks of
/// `chained` are asked: it has those that need more than `most` stations in the set, as the chained tasks of a set do of
/// which this one is a part. No task of the set takes longer than the longest of the times. The cycle is 1 to
/// 1,000,000,000,000,000,000, in the instance's time unit. Takes no memory.
pub fn exceeds_by_chains_of(
    inst: &Instance,
    kind: LineKind,
    cycle: u64,
    set: &TaskSet,
    times: Times,
    chained: &TaskSet,
    most: u32,
) -> bool
    requires set { IsTaskSet inst.now set.now }
    requires some { 1 ≤ cycle }
    requires limit { cycle ≤ 1000000000000000000 }
    requires times { AreTimes inst.now set.now times.total times.longest }
    requires few { most < 1025 }
    requires total { times.total ≤ most * cycle }
    requires sizes { FitsBySizes inst.now cycle set.now most }
    requires chained { (j : ℕ) → IsChained kind inst.now cycle set.now most j → In chained.now j }
    ensures { IsTrue result ↔ most < bound kind inst.now cycle set.now }
{
    let _tasks = inst.tasks();
    if inst.is_empty(set) {
        return false;
    }
    if most == 0 {
        return true;
    }
    has_longer_chain(inst, kind, cycle, set, times, chained, u64::from(most))
}
