//! What the tasks of a line are called.
ghost use Rattle.std.specs.Prelude.{◌≡◌, ◌≤◌, length, IfOk};
ghost use Rattle.task_names.specs.Naming.{FitTasks, names_for};
ghost use Rattle.task_names.specs.TaskNames.{AreDistinct};

use crate::name_list::{Names, numbers};
use std::alloc::{AllocError, Global};

/// What the tasks of a line are called in printed texts.
pub enum Naming {
    /// By their numbers, counted from 1.
    Numbered,
    /// By these names, one for each task.
    Named(Names),
}

impl Drop for Naming {
    fn drop(self) {
        match self {
            Naming::Numbered => {}
            Naming::Named(_) => {}
        }
    }
}

impl Naming {
    /// The names of so many tasks, at most 1,024: their own, or their numbers. The one error is that memory is out.
    pub fn into_names(self, alloc: Global, tasks: u32) -> Result<Names, AllocError>
        requires { tasks ≤ 1024 }
        ensures names { IfOk result (λ names. names ≡ names_for self tasks) }
        ensures fit { FitTasks self tasks → IfOk result (λ names. (length names ≡ tasks) × AreDistinct names) }
    {
        match self {
            Naming::Numbered => numbers(alloc, tasks),
            Naming::Named(names) => Ok(names),
        }
    }
}
