//! Threshold accepting (Dueck and Scheuer, 1990): a balance is squeezed into fewer stations, and drifts from there.
//!
//! Some stations are then too long. Random steps follow: a task goes to another station, or changes places with a task
//! there, or all tasks of two neighbouring stations change places. A step is made where it keeps the precedences and
//! doesn't make the stations longer by more than a threshold, which falls from a sixteenth of the cycle to almost
//! nothing. Where no station is too long any more, the drift has a balance, which is tested as every balance is. So
//! nothing of this has to be believed, and nothing is promised of what is found. A step costs a few operations on the
//! tasks of two stations, whatever the line has; so a drift finds on lines of hundreds of tasks what lists of loads
//! don't.
//!
//! `chance` draws numbers, `slots` has the tasks of each station and side, `stations` their times, `covers` the
//! neighbours of a task in the precedences; `state` puts them together and makes the steps, `drifts` goes from step to
//! step.
#![tactic(auto)]

mod chance;
mod covers;
mod drifts;
mod slots;
mod state;
mod stations;

pub use drifts::{Drifted, drift};
pub use rand_pcg::Lcg64Xsh32;
