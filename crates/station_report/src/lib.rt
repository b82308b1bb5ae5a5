//! The printed texts that the commands share: the station lines of a balance, with its idle time; the line about a task
//! that no station can hold; and the timeline of a sequence of units as comma-separated values.
//!
//! Each station line takes up to three passes over the places, so the whole takes the stations times the tasks. A
//! timeline takes the stations times the units.
#![tactic(auto)]

mod balance_lines;
mod infeasible;
mod stations;
mod timeline_text;

pub use balance_lines::{balance_text, idle_of};
pub use infeasible::infeasible_line;
pub use stations::stations_text;
pub use timeline_text::{TimelineRead, timeline};
