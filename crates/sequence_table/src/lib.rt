//! Tables of nodes for rows of units: few starts in place of many, and what the rows cost at least from each.
//!
//! A node stands for all states whose units are begun where it says, or later. Each model leads from a node to a next
//! one, whose starts are no later than those of the step. So what a pass tells of a node is a lower bound on the
//! charged cost of every row from there. Opening a step makes its next node exact, and an index finds the node whose
//! starts the step leads to. A pass takes time proportional to nodes times models times stations, and to nodes times
//! models times units.
#![tactic(auto)]

mod known;
pub mod laws;
mod pass;
mod table;
mod told;
mod types;

pub use table::{Table, open_table};
pub use told::Told;
pub use types::{Opened, Passed, Tabled};
