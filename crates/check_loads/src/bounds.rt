//! The bound on the stations of a set of tasks: its value, and whether it exceeds a number.
//!
//! The tests go from cheap to dear: the total time, the sizes of the tasks, and last what is before and after a task.
//! Most questions ask only whether the bound exceeds a number. The value itself is needed only where an entry is
//! refused. It is found by asking for 0, 1, 2 and so on, at most 1,025 times, so that the bound has one code.
ghost use Rattle.std.specs.Prelude.{◌≡◌, ℕ, ◌≤◌, ◌<◌, ◌↔◌, IsTrue};
ghost use Rattle.line_instance.specs.Truths.{In};
ghost use Rattle.line_instance.specs.Line.{IsTaskSet};
ghost use Rattle.line_rules.specs.Bounds.{bound, IsChained};
ghost use Rattle.line_rules.specs.Times.{AreTimes};

use crate::chains::has_longer_chain;
use crate::sizes::{Times, counts_of, stations};
use line_instance::{Instance, TaskSet};
use line_rules::LineKind;

/// The bound of a set with a task longer than the cycle: 1,025, more stations than any line has tasks.
pub const TOO_LONG: u32 = 1025;

/// Whether the bound of a set of tasks exceeds `most`, settled as soon as may be. The bound is 0 for the empty set,
/// 1,025 where a task is longer than the cycle, and otherwise the greatest of 1, the set's total time in cycles
/// (Scholl's LM1), which is looked at first, what its tasks of half a cycle or more need (LM2), what its tasks of a
/// third or more need (LM3), and, on a straight line, what the head and the tail of a task need, which is looked at
/// last. The cycle is in the instance's time unit.
pub fn exceeds(
    inst: &Instance,
    kind: LineKind,
    cycle: u64,
    set: &TaskSet,
    times: Times,
    most: u32,
) -> bool
    requires set { IsTaskSet inst.now set.now }
    requires some { 1 ≤ cycle }
    requires limit { cycle ≤ 1000000000000000000 }
    requires times { AreTimes inst.now set.now times.total times.longest }
    ensures { IsTrue result ↔ most < bound kind inst.now cycle set.now }
{
    exceeds_of(inst, kind, cycle, set, times, set, most)
}

/// The same, where only tasks of `chained` are looked at for their heads and tails. It has all those of the set that need
/// more than `most` stations by them.
pub fn exceeds_of(
    inst: &Instance,
    kind: LineKind,
    cycle: u64,
    set: &TaskSet,
    times: Times,
    chained: &TaskSet,
    most: u32,
) -> bool
    requires set { IsTaskSet inst.now set.now }
    requires some { 1 ≤ cycle }
    requires limit { cycle ≤ 1000000000000000000 }
    requires times { AreTimes inst.now set.now times.total times.longest }
    requires chained { (j : ℕ) → IsChained kind inst.now cycle set.now most j → In chained.now j }
    ensures { IsTrue result ↔ most < bound kind inst.now cycle set.now }
{
    let _tasks = inst.tasks();
    if set.is_empty() || most >= TOO_LONG {
        return false;
    }
    let most = u64::from(most);
    if most == 0 || times.total.div_ceil(cycle) > most {
        return true;
    }
    let counts = counts_of(inst, cycle, set, times.longest);
    if counts.too_long > 0 || stations(counts) > most {
        return true;
    }
    has_longer_chain(inst, kind, cycle, set, times, chained, most)
}

/// The bound of a set of tasks: the first number that it doesn't exceed.
pub fn bound(inst: &Instance, kind: LineKind, cycle: u64, set: &TaskSet, times: Times) -> u32
    requires set { IsTaskSet inst.now set.now }
    requires some { 1 ≤ cycle }
    requires limit { cycle ≤ 1000000000000000000 }
    requires times { AreTimes inst.now set.now times.total times.longest }
    ensures { result ≡ bound kind inst.now cycle set.now }
{
    let _tasks = inst.tasks();
    let mut least = 0;
    'climb: while exceeds(inst, kind, cycle, set, times, least) {
        least += 1;
    }
    least
}
