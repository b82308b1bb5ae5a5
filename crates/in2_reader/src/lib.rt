//! Instances as IN2 texts, and texts of tasks that are apart.
//!
//! An IN2 text has the number of tasks, their times, pairs of tasks and an end mark, a line each. It is read in one
//! pass. A text of tasks that are apart has the pairs and the end mark alone. The parts that an ALB text has in common
//! with these are public here: contents of lines, pairs, and covering pairs.
#![tactic(auto)]

mod apart;
mod draft;
mod fault;
mod instance;
pub mod laws;
mod line;
mod pair;
mod text;
mod writing;

pub use apart::{ApartRead, read_apart};
pub use fault::{In2Fault, In2Kind};
pub use instance::{In2Read, read_in2};
pub use line::{Content, next_content};
pub use pair::{Meaning, Pair, behind_gaps, is_gap, pair_of};
pub use text::{RingTasks, push_fault};
pub use writing::{covers_of, push_pairs, write_in2};
