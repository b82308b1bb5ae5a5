//! The walk over the loads of a set in their order, for all modes: it keeps the sum of times and the tasks that are
//! free to join, and changes them with each task that comes or goes.
//!
//! The load after a load is found from the last place down. What stands there is given up, until a free task may join
//! at a place where none stood. Only the places of the load's tasks and of free tasks are gone over. A walk is a plain
//! value and takes no memory.
ghost use Rattle.std.specs.Prelude.{◌≡◌, ℕ, ◌<◌, ◌≤◌, ◌↔◌, IsTrue, true, false};
ghost use Rattle.line_instance.specs.Truths.{union};
ghost use Rattle.line_instance.specs.Line.{IsTaskSet, tasks, has};
ghost use Rattle.line_instance.specs.Sums.{sum_where};
ghost use Rattle.line_rules.specs.Loads.{IsLoad, IsFull, taken};
ghost use Rattle.line_rules.specs.Order.{After, IsNext, IsFollowing};
ghost use Rattle.line_rules.specs.Sides.{MayJoin, fills, spot};
ghost use Rattle.line_rules.specs.declared.types.Load.{Load as Pair};
ghost use Rattle.line_rules.specs.inner.Scan.{Scan};
ghost use Rattle.line_rules.specs.Ends.{IsEnd};
ghost use Rattle.line_rules.specs.Sides.{HasRoom, pair_at};
ghost use Rattle.check_loads.specs.Standing.{IsWalk, stand, last_of};

use crate::ends::End;
use crate::questions::Question;
use crate::sides::{fills, task_at};
use line_instance::{Instance, TaskSet};
use line_rules::{Load, Mode, Side};

/// A walk over the loads of a question's set: the load that it has come to, or none before the first.
#[derive(Clone, Copy)]
pub struct Walk {
    /// Whether a load has been given.
    pub given: bool,
    /// The total time of the load, in the instance's time unit.
    pub sum: u64,
    pub front: End,
    pub back: End,
}

/// Whether a task's time is left, and nothing of a load with these tasks at its sides is apart from it.
#[inline]
fn fits(inst: &Instance, left: u64, here: &TaskSet, other: &TaskSet, task: u32) -> bool
    requires { task < tasks inst.now }
    ensures { IsTrue result ↔ HasRoom inst.now left (union here.now other.now) task }
{
    if inst.time(task) > left {
        return false;
    }
    let apart = inst.apart(task);
    if apart.is_empty() {
        return true;
    }
    here.union(other).meet(apart).is_empty()
}

/// Goes over the places of a side from the last one down: gives up what stands there, up to the first place where a
/// task may join. Whether one has joined. The load given last tells contracts where the scan began.
fn advance(
    inst: &Instance,
    cycle: u64,
    set: &TaskSet,
    mode: Mode,
    side: Side,
    last: &Load,
    other: &TaskSet,
    end: &mut End,
    sum: &mut u64,
) -> bool
    requires set { IsTaskSet inst.now set.now }
    requires scan { Scan inst.now cycle mode set.now last.now (pair_at side end.old.tasks other.now)
        (spot inst.now side (tasks inst.now)) }
    requires kept { fills mode side ≡ true → IsEnd inst.now side set.now end.old.tasks end.old.free end.old.places }
    requires sum { sum.old ≡ sum_where (has (taken (pair_at side end.old.tasks other.now))) inst.now.times }
    ensures joined { IsTrue result → IsNext inst.now cycle mode set.now last.now
        (pair_at side end.new.tasks other.now) }
    ensures passed { result ≡ false → Scan inst.now cycle mode set.now last.now (pair_at side end.new.tasks other.now)
        (spot inst.now side 0) }
    ensures kept { fills mode side ≡ true → IsEnd inst.now side set.now end.new.tasks end.new.free end.new.places }
    ensures sum { sum.new ≡ sum_where (has (taken (pair_at side end.new.tasks other.now))) inst.now.times }
{
    if !fills(mode, side) {
        return false;
    }
    let mut below = inst.tasks();
    while let Some(place) = end.places.greatest_below(below) {
        below = place;
        let task = task_at(inst, side, place);
        if end.tasks.has(task) {
            end.give_up(inst, side, task);
            *sum -= inst.time(task);
        } else if !other.has(task) && fits(inst, cycle - *sum, &end.tasks, other, task) {
            end.take_in(inst, set, side, task);
            *sum += inst.time(task);
            return true;
        }
    }
    false
}

/// Whether a task that is free may join the side, at a load of so much time.
fn grows(
    inst: &Instance,
    cycle: u64,
    set: &TaskSet,
    mode: Mode,
    side: Side,
    end: &End,
    other: &TaskSet,
    sum: u64,
) -> bool
    requires set { IsTaskSet inst.now set.now }
    requires kept { fills mode side ≡ true → IsEnd inst.now side set.now end.now.tasks end.now.free end.now.places }
    requires sum { sum ≡ sum_where (has (taken (pair_at side end.now.tasks other.now))) inst.now.times }
    requires fits { sum ≤ cycle }
    ensures some { IsTrue result → (i : ℕ) × (fills mode side ≡ true)
        × MayJoin inst.now cycle set.now side (pair_at side end.now.tasks other.now) i }
    ensures none { result ≡ false → (i : ℕ) → fills mode side ≡ true
        → MayJoin inst.now cycle set.now side (pair_at side end.now.tasks other.now) i → ⊥ }
{
    if !fills(mode, side) {
        return false;
    }
    let mut below = inst.tasks();
    while let Some(task) = end.free.greatest_below(below) {
        below = task;
        if !other.has(task) && fits(inst, cycle - sum, &end.tasks, other, task) {
            return true;
        }
    }
    false
}

impl Walk {
    /// A walk over the loads of a question's set, before the first.
    pub fn begin(inst: &Instance, q: &Question) -> Walk
        requires { IsTaskSet inst.now q.now.set }
        ensures walk { IsWalk inst.now q.now.cycle q.now.mode q.now.set result }
        ensures given { result.given ≡ false }
    {
        let _tasks = inst.tasks();
        Walk {
            given: false,
            sum: 0,
            front: End::start(inst, &q.set, q.mode, Side::Front),
            back: End::start(inst, &q.set, q.mode, Side::Back),
        }
    }

    /// The load that the walk has come to, or nothing before the first.
    #[inline]
    pub fn load(&self) -> Load
        ensures { result ≡ stand self.now }
    {
        Load {
            front: self.front.tasks,
            back: self.back.tasks,
        }
    }

    /// Goes to the next load. Whether there is one: after the last there is none, and the walk is no more of use.
    pub fn step(&mut self, inst: &Instance, q: &Question) -> bool
        requires set { IsTaskSet inst.now q.now.set }
        requires walk { IsWalk inst.now q.now.cycle q.now.mode q.now.set self.old }
        ensures none { result ≡ false → (l : Pair) → IsLoad inst.now q.now.cycle q.now.mode q.now.set l
            → After inst.now (last_of self.old) l → ⊥ }
        ensures next { IsTrue result → IsFollowing inst.now q.now.cycle q.now.mode q.now.set (last_of self.old)
            (stand self.new) }
        ensures given { IsTrue result → self.new.given ≡ true }
        ensures walk { IsTrue result → IsWalk inst.now q.now.cycle q.now.mode q.now.set self.new }
    {
        let _tasks = inst.tasks();
        let last = self.load();
        if advance(
            inst,
            q.cycle,
            &q.set,
            q.mode,
            Side::Back,
            &last,
            &self.front.tasks,
            &mut self.back,
            &mut self.sum,
        ) {
            self.given = true;
            return true;
        }
        if advance(
            inst,
            q.cycle,
            &q.set,
            q.mode,
            Side::Front,
            &last,
            &self.back.tasks,
            &mut self.front,
            &mut self.sum,
        ) {
            self.given = true;
            return true;
        }
        false
    }

    /// Whether the load is full: no further task of the set can be added to it so that it is a load.
    pub fn is_full(&self, inst: &Instance, q: &Question) -> bool
        requires set { IsTaskSet inst.now q.now.set }
        requires walk { IsWalk inst.now q.now.cycle q.now.mode q.now.set self.now }
        requires given { self.now.given ≡ true }
        ensures { IsTrue result ↔ IsFull inst.now q.now.cycle q.now.mode q.now.set (stand self.now) }
    {
        let _tasks = inst.tasks();
        if grows(
            inst,
            q.cycle,
            &q.set,
            q.mode,
            Side::Front,
            &self.front,
            &self.back.tasks,
            self.sum,
        ) {
            return false;
        }
        if grows(
            inst,
            q.cycle,
            &q.set,
            q.mode,
            Side::Back,
            &self.back,
            &self.front.tasks,
            self.sum,
        ) {
            return false;
        }
        true
    }
}
