//! The loads of a set, one after the other, and each once.
//!
//! From the empty load down: to the load at hand the first task is added, by place, that joins it and wasn't passed.
//! Where none is left, the load at hand is listed, its last task is taken away and passed, and the listing goes on from
//! there. A load takes a few operations on sets of words, and no memory but a step for each of its tasks, on a stack in
//! the heap.
use crate::placed::Placed;
use line_instance::TaskSet;
use line_rules::Mode;
use std::alloc::{AllocError, Global};

/// A task that was added to a load, by place, and what the listing had before.
#[derive(Clone, Copy)]
struct Step {
    place: u32,
    ready: TaskSet,
    passed: TaskSet,
    left: u64,
}

/// A listing of the loads of a set.
#[derive(Drop)]
pub(crate) struct Listing {
    mode: Mode,
    set: TaskSet,
    /// The load at hand.
    load: TaskSet,
    /// The tasks of the set outside the load that may be the next of them in the mode.
    ready: TaskSet,
    /// The tasks that were passed: loads with them have been listed.
    passed: TaskSet,
    /// What the load leaves of the cycle.
    left: u64,
    steps: Vec<Step>,
}

/// A load that was listed.
#[derive(Clone, Copy)]
pub(crate) struct Listed {
    pub load: TaskSet,
    /// What it leaves of the cycle.
    pub left: u64,
    /// Whether no task joins it.
    pub is_full: bool,
}

impl Listing {
    /// A listing of the loads of a set at a cycle, before the first.
    pub fn begin(alloc: Global, line: &Placed, mode: Mode, cycle: u64, set: &TaskSet) -> Listing {
        let mut ready = TaskSet::empty();
        for place in set.iter() {
            if place < 1024 && line.is_ready(place, mode, set) {
                ready.insert(place);
            }
        }
        Listing {
            mode,
            set: *set,
            load: TaskSet::empty(),
            ready,
            passed: TaskSet::empty(),
            left: cycle,
            steps: Vec::new(alloc),
        }
    }

    /// The first of these places at which no task is apart from the load.
    fn first_of(&self, line: &Placed, places: &TaskSet) -> Option<u32> {
        if !line.has_apart() {
            return places.least();
        }
        for place in places.iter() {
            if line.may_join(place, &self.load) {
                return Some(place);
            }
        }
        None
    }

    /// The places that are ready after the task at a place joined the load.
    fn ready_without(&self, line: &Placed, place: u32) -> TaskSet {
        let mut ready = self.ready.minus(&self.load);
        let outside = self.set.minus(&self.load);
        let beside = line.beside(place, self.mode).meet(&outside);
        for next in beside.minus(&ready).iter() {
            if next < 1024 && line.is_ready(next, self.mode, &outside) {
                ready.insert(next);
            }
        }
        ready
    }

    /// Adds the task at a place to the load.
    fn step_down(&mut self, line: &Placed, place: u32) -> Result<(), AllocError> {
        self.steps.push(Step {
            place,
            ready: self.ready,
            passed: self.passed,
            left: self.left,
        })?;
        if place < 1024 {
            self.load.insert(place);
        }
        self.left = self.left.saturating_sub(line.time(place));
        self.ready = self.ready_without(line, place);
        Ok(())
    }

    /// Lists the load at hand and takes its last task away; None where it is the empty one.
    fn step_up(&mut self, joining: &TaskSet, line: &Placed) -> Option<Listed> {
        let listed = Listed {
            load: self.load,
            left: self.left,
            is_full: self.first_of(line, joining).is_none(),
        };
        let step = self.steps.pop()?;
        self.passed = step.passed;
        if step.place < 1024 {
            self.passed.insert(step.place);
            self.load.remove(step.place);
        }
        self.ready = step.ready;
        self.left = step.left;
        Some(listed)
    }

    /// The next load, where there is one.
    pub fn next(&mut self, line: &Placed) -> Result<Option<Listed>, AllocError> {
        for _ in 0..line.len().saturating_add(1) {
            let fitting = line.fitting(&self.ready, self.left);
            match self.first_of(line, &fitting.minus(&self.passed)) {
                Some(place) => self.step_down(line, place)?,
                None => return Ok(self.step_up(&fitting, line)),
            }
        }
        Ok(None)
    }
}
