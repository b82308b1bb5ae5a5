//! The ranked balance: station by station, the task of the greatest weight first.
//!
//! The ranked positional weight of a task is its time with that of all its successors. The rule gives a right balance
//! at once, with at most as many stations as tasks, and often not the best one. Each placing and each new station looks
//! at all tasks on both sides. That is at most 4 n^2 tests for n tasks, about four million for 1,024.
#![tactic(auto)]

mod filling;
mod pick;
mod ranked;
mod weights;

pub use ranked::{Ranked, ranked_balance};
