//! What a search for alternating paths keeps: the tasks that it goes on from, and the way back.
//!
//! The tasks stand in a queue, each at most once, so a search goes over each row at most once. Where a search ends
//! without a path, no later path leads through what it met: that is left out from then on, and its tasks are loose.
ghost use Rattle.std.specs.Prelude.{◌<◌};

use crate::task_map::TaskMap;
use line_instance::TaskSet;

/// The paths of one search, and what the searches before it met.
#[derive(Drop)]
pub(crate) struct Paths {
    queue: TaskMap,
    came_from: TaskMap,
    /// How many tasks were put in the queue.
    put: u32,
    /// The tasks that were met as second ones, in this search or in one that ended without a path.
    met: TaskSet,
    closed: TaskSet,
    loose: TaskSet,
}

impl Paths {
    /// No search.
    pub(crate) fn new() -> Paths {
        let none = TaskSet::empty();
        Paths {
            queue: TaskMap::new(),
            came_from: TaskMap::new(),
            put: 0,
            met: none,
            closed: none,
            loose: none,
        }
    }

    /// Forgets all searches.
    pub(crate) fn clear(&mut self) {
        self.closed = TaskSet::empty();
        self.loose = TaskSet::empty();
    }

    /// Begins a search at a task.
    pub(crate) fn begin(&mut self, start: u32) {
        self.met = self.closed;
        self.queue.put(0, start);
        self.put = 1;
    }

    /// The task at a place of the queue, from 0; None behind its end.
    #[inline]
    pub(crate) fn next(&self, place: u32) -> Option<u32> {
        if place < self.put {
            return Some(self.queue.at(place));
        }
        None
    }

    /// The task at which the search began.
    pub(crate) fn start(&self) -> u32
        ensures { result < 1024 }
    {
        self.queue.at(0)
    }

    /// The task from which the search came to this one.
    #[inline]
    pub(crate) fn before(&self, task: u32) -> u32 {
        self.came_from.at(task)
    }

    /// Those of some tasks that weren't met.
    #[inline]
    pub(crate) fn unmet(&self, tasks: &TaskSet) -> TaskSet {
        tasks.minus(&self.met)
    }

    /// Meets some tasks from another one, and goes on to those that come first in their pairs.
    pub(crate) fn meet(&mut self, from: u32, tasks: &TaskSet, firsts: &TaskMap) {
        self.met = self.met.union(tasks);
        for second in tasks {
            let first = firsts.at(second);
            self.came_from.put(first, from);
            self.queue.put(self.put, first);
            self.put = self.put.saturating_add(1);
        }
    }

    /// Ends a search that found no path: its tasks are loose.
    pub(crate) fn close(&mut self) {
        self.closed = self.met;
        for place in 0..self.put {
            self.loose.insert(self.queue.at(place));
        }
    }

    /// The tasks of all searches that found no path.
    pub(crate) fn loose(&self) -> TaskSet {
        self.loose
    }
}
