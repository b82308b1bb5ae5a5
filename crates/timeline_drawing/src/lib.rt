//! The picture of a timeline: the movement diagram of a sequence of units on a balanced line, in one SVG text.
//!
//! The line goes from left to right with a panel for each station, and launches go down with a row for each unit. A bar
//! is the work on a unit from where it is begun in the station, and what of it would go past the station's end is red.
//! Where a bar begins and ends follows from the times counted from the station's beginning, rounded down, so that bar
//! and red part meet. The units are gone over twice, each at all stations: once for the scale, and once for the rows.
//! So the time is proportional to stations times units, and to stations times models times tasks. The text is built on
//! one string; beside it the works of the models and the row of one unit are kept.
#![tactic(auto)]

mod drawing;
mod figures;
mod rows;
mod visits;

pub use drawing::{TimelineRead, timeline_picture};
pub use visits::Visit;
