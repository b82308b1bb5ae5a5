//! The picture of a balance whose tasks have names: a certificate's stations as rows of segments with the names of
//! their tasks, and below them a list of all tasks, in one SVG text.
//!
//! Segments, bounds and totals are those of the picture without names. A name stands in its segment where it fits,
//! whole or in two parts around one of its blanks; else the task's number does, and else the number is noted beside the
//! row. How wide a text is follows from its bytes, so it takes no fonts. All tasks are gone over some eight times for
//! each station, and each name some eight times in all. The text is built on one string; beside it the segments and the
//! note of one station are kept.
#![tactic(auto)]

mod escapes;
mod labels;
mod named_rows;
mod page;
mod picture;
mod task_list;
mod widths;

pub use labels::Label;
pub use page::Page;
pub use picture::draw_named;
