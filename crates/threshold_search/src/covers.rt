//! The neighbours of each task in the precedences: the tasks that cover it, or those that it covers.
//!
//! Slots never fall along the precedences. So the greatest slot of all tasks before a task is that of the tasks which
//! cover it, which are few.
ghost use Rattle.std.specs.Prelude.{◌<◌, IfSome};

use crate::slots::Slots;
use line_instance::Instance;
use std::alloc::{AllocError, Global};

/// The neighbours of each task on one side.
#[derive(Drop)]
pub(crate) struct Neighbours {
    /// Those of task 0, those of task 1, and so on.
    tasks: Vec<u16>,
    /// Where those of each task begin, and where those of the last one end.
    begin: Vec<usize>,
}

/// Adds the tasks that cover a task.
fn add_covering(inst: &Instance, task: u32, list: &mut Vec<u16>) -> Result<(), AllocError> {
    if task >= inst.tasks() {
        return Ok(());
    }
    for other in inst.before(task) {
        if other < inst.tasks() && inst.covers(other, task) {
            list.push((other % 1024) as u16)?;
        }
    }
    Ok(())
}

/// Adds the tasks that a task covers.
fn add_covered(inst: &Instance, task: u32, list: &mut Vec<u16>) -> Result<(), AllocError> {
    if task >= inst.tasks() {
        return Ok(());
    }
    for other in inst.after(task) {
        if other < inst.tasks() && inst.covers(task, other) {
            list.push((other % 1024) as u16)?;
        }
    }
    Ok(())
}

impl Neighbours {
    /// The tasks that cover each task.
    pub(crate) fn ahead(alloc: Global, inst: &Instance) -> Result<Neighbours, AllocError> {
        let mut tasks = Vec::new(alloc);
        let mut begin = Vec::new(alloc);
        for task in 0..inst.tasks() {
            begin.push(tasks.len())?;
            add_covering(inst, task, &mut tasks)?;
        }
        begin.push(tasks.len())?;
        Ok(Neighbours { tasks, begin })
    }

    /// The tasks that each task covers.
    pub(crate) fn behind(alloc: Global, inst: &Instance) -> Result<Neighbours, AllocError> {
        let mut tasks = Vec::new(alloc);
        let mut begin = Vec::new(alloc);
        for task in 0..inst.tasks() {
            begin.push(tasks.len())?;
            add_covered(inst, task, &mut tasks)?;
        }
        begin.push(tasks.len())?;
        Ok(Neighbours { tasks, begin })
    }

    /// Where the neighbours of a task begin.
    #[inline]
    fn begin(&self, task: u32) -> usize {
        match self.begin.get(task as usize) {
            Some(begin) => *begin,
            None => 0,
        }
    }

    /// The slot of a neighbour, by its number among those of all tasks.
    #[inline]
    fn slot(&self, slots: &Slots, number: usize) -> Option<u32>
        ensures { IfSome result (λ s. s < 65536) }
    {
        let task = self.tasks.get(number)?;
        Some(slots.slot(u32::from(*task)))
    }

    /// The greatest slot of a task's neighbours, and at least this one.
    #[inline]
    pub(crate) fn greatest(&self, slots: &Slots, task: u32, least: u32) -> u32 {
        let mut greatest = least;
        for number in self.begin(task)..self.begin(task.saturating_add(1)) {
            if let Some(slot) = self.slot(slots, number) {
                greatest = greatest.max(slot);
            }
        }
        greatest
    }

    /// The least slot of a task's neighbours, and at most this one.
    #[inline]
    pub(crate) fn least(&self, slots: &Slots, task: u32, most: u32) -> u32 {
        let mut least = most;
        for number in self.begin(task)..self.begin(task.saturating_add(1)) {
            if let Some(slot) = self.slot(slots, number) {
                least = least.min(slot);
            }
        }
        least
    }

    /// Whether a neighbour of a task is in a slot.
    #[inline]
    pub(crate) fn is_in(&self, slots: &Slots, task: u32, slot: u32) -> bool {
        for number in self.begin(task)..self.begin(task.saturating_add(1)) {
            if self.slot(slots, number) == Some(slot) {
                return true;
            }
        }
        false
    }
}
