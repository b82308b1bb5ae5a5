//! A line that is being filled.
//!
//! The state is a plain value: what stands in front and at the back, the present station, and what time it has left.
//! Whether a task may join is a few operations on sets, and to join it is one. Contracts ask for a station below 2^31;
//! a line gets to one station a task at most.
ghost use Rattle.std.specs.Prelude.{◌≡◌, ◌≤◌, ◌<◌, ◌^◌, ◌↔◌, IsTrue, length};
ghost use Rattle.line_instance.specs.Line.{tasks, time};
ghost use Rattle.first_fit.specs.inner.Filling.{MayJoin, joined, next_station, started};

use line_instance::{Instance, TaskSet};
use line_rules::{LineKind, Side};

/// A task and the side that it is to stand at.
#[derive(Clone, Copy, Debug)]
pub struct Choice {
    pub task: u32,
    pub side: Side,
}

/// The tasks placed in front and at the back, those of the station that is being filled, that station, from 1, and the
/// time that is left of it.
#[derive(Clone, Copy)]
pub struct Filling {
    pub front: TaskSet,
    pub back: TaskSet,
    pub here: TaskSet,
    pub station: u32,
    pub left: u64,
}

impl Filling {
    /// The first station, with nothing placed.
    pub fn start(cycle: u64) -> Filling
        ensures { result ≡ started cycle }
    {
        Filling {
            front: TaskSet::empty(),
            back: TaskSet::empty(),
            here: TaskSet::empty(),
            station: 1,
            left: cycle,
        }
    }

    /// The line with the next station, empty.
    pub fn next_station(&self, cycle: u64) -> Filling
        requires { self.now.station < 2 ^ 31 }
        ensures { result ≡ next_station self.now cycle }
    {
        Filling {
            here: TaskSet::empty(),
            station: self.station + 1,
            left: cycle,
            ..*self
        }
    }

    /// Whether a task may join the station so.
    pub fn may_join(&self, inst: &Instance, kind: LineKind, choice: Choice) -> bool
        requires { choice.task < tasks inst.now }
        ensures { IsTrue result ↔ MayJoin kind inst.now self.now choice }
    {
        let _tasks = inst.tasks();
        let task = choice.task;
        if self.front.has(task) || self.back.has(task) {
            return false;
        }
        if inst.time(task) > self.left || !self.here.meet(inst.apart(task)).is_empty() {
            return false;
        }
        match (choice.side, kind) {
            (Side::Front, _) => inst.before(task).is_subset(&self.front),
            (Side::Back, LineKind::U) => inst.after(task).is_subset(&self.back),
            (Side::Back, LineKind::Straight) => false,
        }
    }

    /// The line with a task of this time at the station.
    pub fn joined(&self, choice: Choice, time: u64) -> Filling
        requires task { choice.task < 1024 }
        requires fits { time ≤ self.now.left }
        ensures { result ≡ joined self.now choice time }
    {
        let mut filling = *self;
        match choice.side {
            Side::Front => filling.front = filling.front.with(choice.task),
            Side::Back => filling.back = filling.back.with(choice.task),
        }
        filling.here = filling.here.with(choice.task);
        filling.left -= time;
        filling
    }
}
