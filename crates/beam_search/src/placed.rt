//! A line whose tasks are numbered by place: the longest first, and of equal times the one of the lower rank.
//!
//! So the first task of a set by place is its least member, and the tasks that fit into what is left of a cycle are
//! those from one place on.
use line_instance::{Instance, TaskSet};
use line_rules::Mode;
use std::alloc::{AllocError, Global};

/// The tasks of a line by place. Sets are of places.
#[derive(Drop)]
pub(crate) struct Placed {
    /// The task at each place.
    tasks: Vec<u32>,
    /// Its time.
    times: Vec<u64>,
    /// The places before it.
    before: Vec<TaskSet>,
    /// The places after it.
    after: Vec<TaskSet>,
    /// The places apart from it.
    apart: Vec<TaskSet>,
    /// Whether some tasks are apart.
    has_apart: bool,
    /// For each place, and one behind the last, the places from there on.
    from: Vec<TaskSet>,
}

/// The tasks of a line in the order of their places.
fn tasks_by_place(alloc: Global, inst: &Instance) -> Result<Vec<u32>, AllocError> {
    let mut keys = Vec::with_capacity(alloc, inst.tasks() as usize)?;
    for rank in 0..inst.tasks() {
        let task = inst.at_rank(rank);
        keys.push((u64::MAX - inst.time(task), rank, task))?;
    }
    keys.sort_unstable();
    let mut tasks = Vec::with_capacity(alloc, keys.len())?;
    for (_, _, task) in &keys {
        tasks.push(*task)?;
    }
    Ok(tasks)
}

/// The places of a set of tasks.
fn places_of(tasks: &[u32], set: &TaskSet) -> TaskSet {
    let mut places = TaskSet::empty();
    for (place, task) in tasks.iter().enumerate() {
        if place < 1024 && *task < 1024 && set.has(*task) {
            places.insert(place as u32);
        }
    }
    places
}

/// For each of so many places, and one behind the last, the places from there on.
fn places_from(alloc: Global, count: usize) -> Result<Vec<TaskSet>, AllocError> {
    let all = TaskSet::full_to(count.min(1024) as u32);
    let mut from = Vec::with_capacity(alloc, count)?;
    for place in 0..count {
        from.push(all.minus(&TaskSet::full_to(place.min(1024) as u32)))?;
    }
    from.push(TaskSet::empty())?;
    Ok(from)
}

/// The set at a place, empty where there is none.
fn set_at(sets: &[TaskSet], place: u32) -> TaskSet {
    match sets.get(place as usize) {
        Some(set) => *set,
        None => TaskSet::empty(),
    }
}

/// Whether no place of a set is in the one at a place.
#[inline]
fn is_disjoint(sets: &[TaskSet], place: u32, other: &TaskSet) -> bool {
    match sets.get(place as usize) {
        Some(set) => set.meet(other).is_empty(),
        None => true,
    }
}

impl Placed {
    /// The line by places.
    pub fn of(alloc: Global, inst: &Instance) -> Result<Placed, AllocError> {
        let tasks = tasks_by_place(alloc, inst)?;
        let mut times = Vec::with_capacity(alloc, tasks.len())?;
        let mut before = Vec::with_capacity(alloc, tasks.len())?;
        let mut after = Vec::with_capacity(alloc, tasks.len())?;
        let mut apart = Vec::with_capacity(alloc, tasks.len())?;
        let mut has_apart = false;
        for task in &tasks {
            if *task < inst.tasks() {
                times.push(inst.time(*task))?;
                before.push(places_of(&tasks, inst.before(*task)))?;
                after.push(places_of(&tasks, inst.after(*task)))?;
                has_apart |= !inst.apart(*task).is_empty();
                apart.push(places_of(&tasks, inst.apart(*task)))?;
            }
        }
        let from = places_from(alloc, tasks.len())?;
        Ok(Placed {
            tasks,
            times,
            before,
            after,
            apart,
            has_apart,
            from,
        })
    }

    /// How many tasks there are.
    pub fn len(&self) -> usize {
        self.tasks.len()
    }

    /// All places.
    pub fn all(&self) -> TaskSet {
        TaskSet::full_to(self.tasks.len().min(1024) as u32)
    }

    /// The task at a place, where there is one.
    pub fn task(&self, place: u32) -> Option<u32> {
        self.tasks.get(place as usize).copied()
    }

    /// The time of the task at a place.
    pub fn time(&self, place: u32) -> u64 {
        match self.times.get(place as usize) {
            Some(time) => *time,
            None => 0,
        }
    }

    /// The places of the tasks before that at a place.
    pub fn before(&self, place: u32) -> TaskSet {
        set_at(&self.before, place)
    }

    /// Whether some tasks of the line are apart.
    pub fn has_apart(&self) -> bool {
        self.has_apart
    }

    /// Whether the task at a place may share a station with all of a load.
    pub fn may_join(&self, place: u32, load: &TaskSet) -> bool {
        is_disjoint(&self.apart, place, load)
    }

    /// The places that may become ready in a mode where the task at a place is taken away.
    pub fn beside(&self, place: u32, mode: Mode) -> TaskSet {
        match mode {
            Mode::Fore => set_at(&self.after, place),
            Mode::Back => set_at(&self.before, place),
            Mode::Both => set_at(&self.after, place).union(&set_at(&self.before, place)),
        }
    }

    /// Whether the task at a place may be the next of those outside a load, in a mode: none of them is before it, none
    /// is after it, or one of the two.
    pub fn is_ready(&self, place: u32, mode: Mode, outside: &TaskSet) -> bool {
        match mode {
            Mode::Fore => is_disjoint(&self.before, place, outside),
            Mode::Back => is_disjoint(&self.after, place, outside),
            Mode::Both => {
                is_disjoint(&self.before, place, outside)
                    || is_disjoint(&self.after, place, outside)
            }
        }
    }

    /// Those of some places whose tasks take no longer than so much: from the first such place on, all do.
    pub fn fitting(&self, places: &TaskSet, left: u64) -> TaskSet {
        let first = self.times.partition_point(|time: &u64| *time > left);
        match self.from.get(first) {
            Some(from) => places.meet(from),
            None => TaskSet::empty(),
        }
    }

    /// The tasks at these places.
    pub fn tasks_at(&self, places: &TaskSet) -> TaskSet {
        let mut tasks = TaskSet::empty();
        for place in places.iter() {
            match self.task(place) {
                Some(task) if task < 1024 => {
                    tasks.insert(task);
                }
                _ => {}
            }
        }
        tasks
    }
}
