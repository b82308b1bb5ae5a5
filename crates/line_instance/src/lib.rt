//! Instances: tasks with times, the tasks before each task, and the order of the tasks by rank; and sets of tasks.
//!
//! A set is 16 words of 64 bits, a bit for each of at most 1,024 tasks, and contracts see it as a list of truths. An
//! instance is made once and then only read. Its rows, a set for each task, are closed in one pass in the order of
//! ranks: n unions for n tasks and as many again for the pairs apart, which a search later asks for without a loop.
#![tactic(auto)]

mod arcs;
mod instance;
mod iter;
pub mod laws;
mod making;
mod order;
mod partners;
mod rings;
mod rows;
pub mod set_laws;
mod sets;

pub use arcs::Prec;
pub use instance::{Instance, MAX_TASKS, MAX_TIME};
pub use iter::Tasks;
pub use making::{Made, make};
pub use rings::Ring;
pub use sets::TaskSet;
