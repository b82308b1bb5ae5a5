//! What the tasks of a set count for, by their times in parts of the cycle.
//!
//! Two tasks longer than half a cycle share no station, and two of exactly half a cycle fill one (Scholl's LM2). Of
//! tasks measured in sixths of a station (LM3), those above two thirds count six, those of two thirds four, those
//! above a third three and those of a third two: no station holds more than six. One pass counts all of these,
//! without branches; where the longest time is below a third of the cycle there is nothing to count, and no pass.
ghost use Rattle.std.specs.Prelude.{◌≡◌, ℕ, ◌≤◌, ◌+◌, max};
ghost use Rattle.line_instance.specs.Truths.{In};
ghost use Rattle.line_instance.specs.Line.{IsTaskSet, time};
ghost use Rattle.line_rules.specs.Bounds.{sixths, up};
ghost use Rattle.line_rules.specs.Times.{AreCounts, AreTimes, longest_of};

use line_instance::{Instance, TaskSet};

/// What is known of the times of the tasks of a set, in the instance's time unit.
#[derive(Clone, Copy)]
pub struct Times {
    /// The total time, at most 204,800,000,000,000,000.
    pub total: u64,
    /// A time that no task of the set exceeds, at most 200,000,000,000,000.
    pub longest: u64,
}

/// The total time of a set of tasks, and their greatest time, 0 where there is no task.
pub fn times_in(inst: &Instance, set: &TaskSet) -> Times
    requires { IsTaskSet inst.now set.now }
    ensures times { AreTimes inst.now set.now result.total result.longest }
    ensures longest { result.longest ≡ longest_of inst.now set.now }
{
    let _tasks = inst.tasks();
    let mut times = Times {
        total: 0,
        longest: 0,
    };
    for i in set {
        let time = inst.time(i);
        times.total += time;
        times.longest = times.longest.max(time);
    }
    times
}

/// How many tasks of a set have times of some size, measured in cycles.
#[derive(Clone, Copy)]
pub(crate) struct SizeCounts {
    /// The tasks longer than a cycle.
    pub(crate) too_long: u32,
    /// The tasks longer than half a cycle.
    pub(crate) above_half: u32,
    /// The tasks of exactly half a cycle.
    pub(crate) at_half: u32,
    /// The sixths of a station of all tasks together.
    pub(crate) sixths: u32,
}

impl SizeCounts {
    /// The stations that the tasks need by their halves (Scholl's LM2) and sixths (LM3), and 1 at least.
    pub(crate) fn stations(&self) -> u64
        ensures { result ≡ max 1 (max (self.now.above_half + up self.now.at_half 2) (up self.now.sixths 6)) }
    {
        let by_halves = u64::from(self.above_half) + u64::from(self.at_half.div_ceil(2));
        let by_sixths = u64::from(self.sixths.div_ceil(6));
        by_halves.max(by_sixths).max(1)
    }
}

/// The counts of a set of tasks, of which none takes more than `longest`: all 0 where that is less than a third of the
/// cycle.
#[tactic(auto, using(line_rules::proofs::SizeClasses::one_more))]
pub(crate) fn counts_of(inst: &Instance, cycle: u64, set: &TaskSet, longest: u64) -> SizeCounts
    requires set { IsTaskSet inst.now set.now }
    requires some { 1 ≤ cycle }
    requires limit { cycle ≤ 1000000000000000000 }
    requires longest { (i : ℕ) → In set.now i → time inst.now i ≤ longest }
    requires longest_limit { longest ≤ 200000000000000 }
    ensures { AreCounts inst.now cycle set.now result.too_long result.above_half result.at_half result.sixths }
{
    let _tasks = inst.tasks();
    let mut counts = SizeCounts {
        too_long: 0,
        above_half: 0,
        at_half: 0,
        sixths: 0,
    };
    if 3 * longest < cycle {
        return counts;
    }
    for i in set {
        let time = inst.time(i);
        counts.too_long += u32::from(time > cycle);
        counts.above_half += u32::from(2 * time > cycle);
        counts.at_half += u32::from(2 * time == cycle);
        counts.sixths += sixths(cycle, time);
    }
    counts
}

/// The sixths of a station that a time counts for.
fn sixths(cycle: u64, time: u64) -> u32
    requires some { 1 ≤ cycle }
    requires cycle { cycle ≤ 1000000000000000000 }
    requires time { time ≤ 200000000000000 }
    ensures value { result ≡ sixths cycle time }
    ensures most { result ≤ 6 }
{
    let (thirds, cycles) = (3 * time, 2 * cycle);
    // Without branches, since the times of a set come in no order: 2, 3, 4 and 6 in steps.
    2 * u32::from(thirds >= cycle)
        + u32::from(thirds > cycle)
        + u32::from(thirds >= cycles)
        + 2 * u32::from(thirds > cycles)
}
