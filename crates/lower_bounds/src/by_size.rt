//! The tasks of a line in sets by their sizes at a cycle, and what a set of tasks needs by its sizes.
//!
//! At one cycle the size of a task never changes, so the tasks of each size are a set that is made once. How many tasks
//! of a size a set has is then the count of what it has in common with that set, by words, and no task is gone over.
//! Sixths of a station come of four counts: two for each task of a third of the cycle or more, one more above a third,
//! one more from two thirds on, and two more above them. A question costs seven counts; the sets cost seven passes over
//! the tasks once.
ghost use Rattle.std.specs.Prelude.{◌≡◌, ◌≤◌, ◌<◌, ◌*◌, ◌↔◌, ℕ, false, true, length, slice_set, IsTrue};
ghost use Rattle.line_instance.specs.Truths.{In};
ghost use Rattle.line_instance.specs.Line.{IsTaskSet, tasks, time};
ghost use Rattle.line_rules.specs.Bounds.{bound};
ghost use Rattle.line_rules.specs.Times.{AreCounts};
ghost use Rattle.line_rules.specs.declared.types.LineKind.{LineKind};
ghost use Rattle.lower_bounds.specs.Sizes.{AreSizeSets, FitsBySizes};

use crate::sizes::SizeCounts;
use line_instance::{Instance, TaskSet};

/// The tasks of a line in sets by their sizes at one cycle, by which LM2 and LM3 (Scholl) count them.
#[derive(Clone, Copy)]
pub struct SizeSets {
    /// The tasks longer than a cycle.
    pub too_long: TaskSet,
    /// The tasks longer than half a cycle.
    pub above_half: TaskSet,
    /// The tasks of exactly half a cycle.
    pub at_half: TaskSet,
    /// The tasks of a third of a cycle or more.
    pub third: TaskSet,
    /// The tasks longer than a third of a cycle.
    pub above_third: TaskSet,
    /// The tasks of two thirds of a cycle or more.
    pub two_thirds: TaskSet,
    /// The tasks longer than two thirds of a cycle.
    pub above_two_thirds: TaskSet,
}

/// The tasks of the instance in sets by their sizes at a cycle of 1 to 1,000,000,000,000,000,000, in the instance's
/// time unit. Takes no memory.
pub fn size_sets(inst: &Instance, cycle: u64) -> SizeSets
    requires some { 1 ≤ cycle }
    requires limit { cycle ≤ 1000000000000000000 }
    ensures { AreSizeSets inst.now cycle result }
{
    let _tasks = inst.tasks();
    let above_half = longer(inst, 2, cycle);
    SizeSets {
        too_long: longer(inst, 1, cycle),
        above_half,
        at_half: longer(inst, 2, cycle - 1).minus(&above_half),
        third: longer(inst, 3, cycle - 1),
        above_third: longer(inst, 3, cycle),
        two_thirds: longer(inst, 3, 2 * cycle - 1),
        above_two_thirds: longer(inst, 3, 2 * cycle),
    }
}

/// The tasks of which so many times the time, three at most, is more than `limit`.
fn longer(inst: &Instance, parts: u64, limit: u64) -> TaskSet
    requires { parts ≤ 3 }
    ensures { (i : ℕ) → In result i ↔ (i < tasks inst.now) × (limit < parts * time inst.now i) }
{
    let mut set = TaskSet::empty();
    for i in 0..inst.tasks() {
        add_longer(inst, parts, limit, i, &mut set);
    }
    set
}

/// Adds task `i` to a set where so many times its time, three at most, is more than `limit`.
fn add_longer(inst: &Instance, parts: u64, limit: u64, i: u32, set: &mut TaskSet)
    requires parts { parts ≤ 3 }
    requires task { i < tasks inst.now }
    requires truths { length set.old ≡ 1024 }
    ensures truths { length set.new ≡ 1024 }
    ensures longer { limit < parts * time inst.now i → set.new ≡ slice_set set.old i true }
    ensures other { parts * time inst.now i ≤ limit → set.new ≡ set.old }
{
    let _tasks = inst.tasks();
    if parts * inst.time(i) > limit {
        set.insert(i);
    }
}

impl SizeSets {
    /// What the tasks of a set count for by their sizes.
    #[inline(always)]
    fn counts(&self, inst: &Instance, set: &TaskSet) -> SizeCounts
        requires set { IsTaskSet inst.now set.now }
        ensures few { result.above_half ≤ 1024 }
        ensures half { result.at_half ≤ 1024 }
        ensures counts { (c : ℕ) → AreSizeSets inst.now c self.now
            → AreCounts inst.now c set.now result.too_long result.above_half result.at_half result.sixths }
    {
        let third = inst.count_common(set, &self.third);
        let above_third = inst.count_common(set, &self.above_third);
        let two_thirds = inst.count_common(set, &self.two_thirds);
        let above_two_thirds = inst.count_common(set, &self.above_two_thirds);
        SizeCounts {
            too_long: inst.count_common(set, &self.too_long),
            above_half: inst.count_common(set, &self.above_half),
            at_half: inst.count_common(set, &self.at_half),
            sixths: 2 * third + above_third + two_thirds + 2 * above_two_thirds,
        }
    }
}

/// Whether a set needs more than `most` stations by the sizes of its tasks alone: by those longer than half a cycle
/// and of half a cycle (Scholl's LM2), by the sixths of its tasks (LM3), or since a task takes longer than the cycle,
/// which is that of the size sets. Costs seven counts, and takes no memory.
#[inline]
pub fn exceeds_by_sizes(inst: &Instance, sizes: &SizeSets, set: &TaskSet, most: u32) -> bool
    requires set { IsTaskSet inst.now set.now }
    requires few { most < 1025 }
    ensures over { (kind : LineKind) (c : ℕ) → AreSizeSets inst.now c sizes.now → IsTrue result
        → most < bound kind inst.now c set.now }
    ensures fits { (c : ℕ) → AreSizeSets inst.now c sizes.now → result ≡ false → FitsBySizes inst.now c set.now most }
{
    let counts = sizes.counts(inst, set);
    let by_halves = counts.above_half + counts.at_half.div_ceil(2);
    let by_sixths = counts.sixths.div_ceil(6);
    if counts.too_long > 0 {
        return true;
    }
    by_halves.max(by_sixths) > most
}
