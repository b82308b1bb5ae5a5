//! The times of a set of tasks, and what its tasks count for by their times in parts of the cycle.
//!
//! Tasks over half a cycle can't share a station, and tasks of more than a third can share it in pairs at most. The
//! bound LM3 counts this in sixths of a station. A task over two thirds of the cycle counts 6, at two thirds 4, above a
//! third 3, and at a third 2. It is one pass over the set, spared where the longest task is below a third.
ghost use Rattle.std.specs.Prelude.{◌≡◌, ℕ, ◌≤◌, ◌+◌, max};
ghost use Rattle.line_instance.specs.Truths.{In};
ghost use Rattle.line_instance.specs.Line.{IsTaskSet, time};
ghost use Rattle.line_rules.specs.Bounds.{sixths, up};
ghost use Rattle.line_rules.specs.Times.{AreCounts, AreTimes};

use line_instance::{Instance, TaskSet};

/// What is known of the times of a set of tasks, in the instance's time unit.
#[derive(Clone, Copy)]
pub struct Times {
    /// The total time, at most 204,800,000,000,000,000, the time of 1,024 longest tasks.
    pub total: u64,
    /// A time that no task of the set exceeds, at most 200,000,000,000,000.
    pub longest: u64,
}

/// The total and the greatest time of a set of tasks.
pub fn times_in(inst: &Instance, set: &TaskSet) -> Times
    requires { IsTaskSet inst.now set.now }
    ensures { AreTimes inst.now set.now result.total result.longest }
{
    let _tasks = inst.tasks();
    let mut times = Times {
        total: 0,
        longest: 0,
    };
    for i in set {
        let time = inst.time(i);
        times.total += time;
        times.longest = times.longest.max(time);
    }
    times
}

/// How many tasks of a set have times of some size, measured in cycles.
#[derive(Clone, Copy)]
pub struct SizeCounts {
    /// The tasks longer than a cycle.
    pub too_long: u32,
    /// The tasks longer than half a cycle.
    pub above_half: u32,
    /// The tasks of exactly half a cycle.
    pub at_half: u32,
    /// The sixths of a station of all tasks together.
    pub sixths: u32,
}

/// The counts of a set of tasks, of which none takes more than `longest`: all 0 where that is less than a third of the
/// cycle.
#[tactic(auto, using(line_rules::proofs::SizeClasses::one_more))]
pub fn counts_of(inst: &Instance, cycle: u64, set: &TaskSet, longest: u64) -> SizeCounts
    requires set { IsTaskSet inst.now set.now }
    requires some { 1 ≤ cycle }
    requires limit { cycle ≤ 1000000000000000000 }
    requires longest { (i : ℕ) → In set.now i → time inst.now i ≤ longest }
    requires longest_limit { longest ≤ 200000000000000 }
    ensures { AreCounts inst.now cycle set.now result.too_long result.above_half result.at_half result.sixths }
{
    let _tasks = inst.tasks();
    let mut counts = SizeCounts {
        too_long: 0,
        above_half: 0,
        at_half: 0,
        sixths: 0,
    };
    if 3 * longest < cycle {
        return counts;
    }
    for i in set {
        let time = inst.time(i);
        counts.too_long += u32::from(time > cycle);
        counts.above_half += u32::from(2 * time > cycle);
        counts.at_half += u32::from(2 * time == cycle);
        counts.sixths += sixths(cycle, time);
    }
    counts
}

/// The sixths of a station that a time counts for.
fn sixths(cycle: u64, time: u64) -> u32
    requires some { 1 ≤ cycle }
    requires cycle { cycle ≤ 1000000000000000000 }
    requires time { time ≤ 200000000000000 }
    ensures value { result ≡ sixths cycle time }
    ensures most { result ≤ 6 }
{
    let (thirds, cycles) = (3 * time, 2 * cycle);
    if thirds > cycles {
        6
    } else if thirds == cycles {
        4
    } else if thirds > cycle {
        3
    } else if thirds == cycle {
        2
    } else {
        0
    }
}

/// The stations that the tasks need by their halves (Scholl's LM2) and sixths (LM3), and 1 at least. There are at most
/// 6,144 sixths, 6 for each of 1,024 tasks.
pub fn stations(counts: SizeCounts) -> u64
    requires halves { counts.above_half ≤ 1024 }
    requires half { counts.at_half ≤ 1024 }
    requires sixths { counts.sixths ≤ 6144 }
    ensures value { result ≡ max 1 (max (counts.above_half + up counts.at_half 2) (up counts.sixths 6)) }
{
    let by_halves = u64::from(counts.above_half) + u64::from(counts.at_half.div_ceil(2));
    let by_sixths = u64::from(counts.sixths.div_ceil(6));
    by_halves.max(by_sixths).max(1)
}
