//! The jobs of a question: the first loads of all tasks that a search would have to go into, for helpers to share.
//!
//! One walk over at most 65,536 loads, with a test of fullness and of the bound for each, until 4,096 jobs are found.
ghost use Rattle.std.specs.Prelude.{◌≡◌, ◌≤◌, IfOk, IfSome, IsNone, Some};
ghost use Rattle.line_rules.specs.Entries.{IsOpen};
ghost use Rattle.line_rules.specs.Loads.{rest};
ghost use Rattle.line_rules.specs.Ranges.{IsCycle};
ghost use Rattle.station_load.specs.Walking.{IsWalk};
ghost use Rattle.round_helpers.specs.Jobs.{AreJobs};

use line_instance::{Instance, TaskSet};
use line_rules::{LineKind, Load};
use lower_bounds::exceeds;
use station_load::Walk;
use station_load::steps::begin;
use station_search::choose_mode;
use std::alloc::{AllocError, Global};

/// How many loads are gone over at most.
const MAX_LOADS: u32 = 65_536;

/// How many jobs are listed at most.
const MAX_JOBS: usize = 4096;

/// A piece of a question: a load of all tasks, and the rest that it leaves.
#[derive(Clone, Copy)]
pub struct Job {
    /// The tasks that the load leaves.
    pub set: TaskSet,
    /// The load of the end station.
    pub load: Load,
}

/// The jobs of the question whether all tasks have a balance in `most` stations, 1 to 1,024, at a cycle of 1 to 10^18
/// in the instance's time unit: of the first 65,536 loads, in their order, the first 4,096 that are full and whose rest
/// the bound leaves open for one station less. An error where memory is wanting.
pub fn jobs(
    alloc: Global,
    inst: &Instance,
    kind: LineKind,
    cycle: u64,
    most: u32,
) -> Result<Vec<Job>, AllocError>
    requires cycle { IsCycle cycle }
    requires some { 1 ≤ most }
    requires few { most ≤ 1024 }
    ensures { IfOk result (λ v. AreJobs kind inst.now cycle most v.items) }
{
    let _tasks = inst.tasks();
    let all = inst.all();
    let mut walk = begin(inst, cycle, &all, choose_mode(inst, kind, &all));
    let mut jobs = Vec::new(alloc);
    'listing: for _step in 0..MAX_LOADS {
        let Some(load) = walk.step(inst) else {
            return Ok(jobs);
        };
        if let Some(set) = rest_at(inst, kind, cycle, &all, most, &walk, &load) {
            jobs.push(Job { set, load })?;
            if jobs.len() == MAX_JOBS {
                return Ok(jobs);
            }
        }
    }
    Ok(jobs)
}

/// What the load at which a walk stands leaves of the set, where the load is full and the bound leaves the rest open
/// for one station less.
pub fn rest_at(
    inst: &Instance,
    kind: LineKind,
    cycle: u64,
    set: &TaskSet,
    most: u32,
    walk: &Walk,
    load: &Load,
) -> Option<TaskSet>
    requires walk { IsWalk inst.now walk.now }
    requires last { walk.now.last ≡ Some load.now }
    requires same_cycle { walk.now.cycle ≡ cycle }
    requires same_set { walk.now.set ≡ set.now }
    requires cycle { IsCycle cycle }
    requires some { 1 ≤ most }
    ensures none { IsNone result → IsOpen kind inst.now cycle walk.now.mode set.now most load.now → ⊥ }
    ensures some { IfSome result (λ r. (r ≡ rest set.now load.now)
        × IsOpen kind inst.now cycle walk.now.mode set.now most load.now) }
{
    if !walk.full(inst) {
        return None;
    }
    let rest = set.minus(&load.front.union(&load.back));
    if exceeds(inst, kind, cycle, &rest, most - 1) {
        return None;
    }
    Some(rest)
}
