//! The rule of pairs: a few tasks, of which no two can share a station, show that a set needs more stations. What the
//! rule says stands in line_rules, with its laws; here is the test of it.
//!
//! Tasks above a third of the cycle stand at most two to a station, and which two may share one is known beforehand. So
//! the test looks at two tasks at a time and counts. How the right tasks are found is no part of it.
#![tactic(auto)]

mod conflicts;
mod pairs;

pub use pairs::pairs_hold;
