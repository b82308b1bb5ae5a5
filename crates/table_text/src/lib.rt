//! The canonical table of an instance whose tasks have names, as comma-separated values that a spreadsheet opens.
//!
//! Each pair of tasks is asked once whether the one is directly before the other, so the whole takes time proportional
//! to the square of the tasks, and to the text.
#![tactic(auto)]

pub mod laws;
mod writing;

pub use writing::{has_pair, write_table};
