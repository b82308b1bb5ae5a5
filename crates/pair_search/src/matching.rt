//! A double matching: ordered pairs of different tasks that share, each task at most once first and at most once
//! second. It is made greater along alternating paths, after Berge, 1957.
//!
//! A path goes from a task that comes first in no pair to one that it shares with, and on to the first of that one's
//! pair. Where it comes to a task that is second in no pair, each task of the path takes the next one as its second.
//! Nothing of this is proved but that it ends: what is found from it is tested.
ghost use Rattle.std.specs.Prelude.{◌<◌};

use crate::paths::Paths;
use crate::task_map::TaskMap;
use line_instance::TaskSet;

/// Pairs of tasks.
#[derive(Clone, Copy)]
pub(crate) struct Matching {
    /// The tasks that come first in a pair, and those that come second.
    first: TaskSet,
    second: TaskSet,
    /// The other task of the pair, where there is one.
    seconds: TaskMap,
    firsts: TaskMap,
}

/// The row of a task; the empty set where there is none.
#[inline]
fn row(rows: &[TaskSet], task: u32) -> TaskSet {
    match rows.get(task as usize) {
        Some(row) => *row,
        None => TaskSet::empty(),
    }
}

/// The tasks that share with some of these tasks.
pub(crate) fn sharing(rows: &[TaskSet], tasks: &TaskSet) -> TaskSet {
    let mut sharing = TaskSet::empty();
    for task in tasks {
        sharing = sharing.union(&row(rows, task));
    }
    sharing
}

impl Matching {
    /// No pair.
    pub(crate) fn new() -> Matching {
        let none = TaskSet::empty();
        Matching {
            first: none,
            second: none,
            seconds: TaskMap::new(),
            firsts: TaskMap::new(),
        }
    }

    /// Drops the pairs whose first task isn't among these tasks.
    fn drop_firsts(&mut self, tasks: &TaskSet) {
        let gone = self.first.minus(tasks);
        for first in &gone {
            self.second.remove(self.seconds.at(first));
        }
        self.first = self.first.meet(tasks);
    }

    /// Drops the pairs whose second task isn't among these tasks.
    fn drop_seconds(&mut self, tasks: &TaskSet) {
        let gone = self.second.minus(tasks);
        for second in &gone {
            self.first.remove(self.firsts.at(second));
        }
        self.second = self.second.meet(tasks);
    }

    /// A number of pairs that it has at least within these tasks: those whose first task is there, less the second
    /// tasks that aren't.
    #[inline]
    pub(crate) fn at_least(&self, tasks: &TaskSet) -> u32 {
        let gone = self.second.minus(tasks);
        self.first.meet(tasks).count().saturating_sub(gone.count())
    }

    /// Drops the pairs with a task that isn't among these tasks.
    pub(crate) fn keep(&mut self, tasks: &TaskSet) {
        self.drop_firsts(tasks);
        self.drop_seconds(tasks);
    }

    /// Takes each task of a path as the second of the one before it. The path ends at task `end`, behind `last`.
    fn shift(&mut self, paths: &Paths, last: u32, end: u32)
        requires { end < 1024 }
    {
        let start = paths.start();
        self.first.insert(start);
        self.second.insert(end);
        let mut task = last;
        let mut next = end;
        for _ in 0..1024 {
            let before = self.seconds.at(task);
            self.seconds.put(task, next);
            self.firsts.put(next, task);
            if task == start {
                return;
            }
            next = before;
            task = paths.before(task);
        }
    }

    /// Makes the matching greater along a path that begins at a task, where there is one.
    fn grow(&mut self, rows: &[TaskSet], items: &TaskSet, start: u32, paths: &mut Paths) {
        paths.begin(start);
        for place in 0..1024 {
            let Some(task) = paths.next(place) else {
                paths.close();
                return;
            };
            let near = paths.unmet(&row(rows, task).meet(items));
            if let Some(end) = near.minus(&self.second).least() {
                self.shift(paths, task, end);
                return;
            }
            paths.meet(task, &near, &self.firsts);
        }
        paths.close();
    }

    /// The items that are loose: those that come first in no pair of some greatest matching of them. None where the
    /// matching has, or gets, so many pairs as are enough.
    pub(crate) fn loose(
        &mut self,
        rows: &[TaskSet],
        items: &TaskSet,
        enough: u32,
        paths: &mut Paths,
    ) -> Option<TaskSet> {
        self.keep(items);
        paths.clear();
        let free = items.minus(&self.first);
        for start in &free {
            if self.first.count() >= enough {
                return None;
            }
            self.grow(rows, items, start, paths);
        }
        if self.first.count() >= enough {
            return None;
        }
        Some(paths.loose())
    }
}
