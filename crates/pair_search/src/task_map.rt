//! A task for each task, two bytes each: which one it is paired with, or from which one a path came to it.
ghost use Rattle.std.specs.Prelude.{◌<◌};

/// A task, below 1,024, for each number below 1,024; at first it is task 0. Greater numbers stand for their rest by
/// 1,024, so no call refuses anything.
#[derive(Clone, Copy)]
pub(crate) struct TaskMap {
    tasks: [u16; 1024],
}

impl TaskMap {
    /// Task 0 at each number.
    pub(crate) fn new() -> TaskMap {
        TaskMap { tasks: [0; 1024] }
    }

    /// The task at a number.
    #[inline]
    pub(crate) fn at(&self, i: u32) -> u32
        ensures { result < 1024 }
    {
        u32::from(self.tasks[(i % 1024) as usize]) % 1024
    }

    /// Puts a task at a number.
    #[inline]
    pub(crate) fn put(&mut self, i: u32, task: u32) {
        self.tasks[(i % 1024) as usize] = (task % 1024) as u16;
    }
}
