//! The picture of a balance: a certificate's stations as rows of segments, in one SVG text.
//!
//! A row is a cycle long, and a task's segment has the length of its time in it. Where a segment begins follows from
//! the sum of the times before it, rounded down, so that neighbours meet and no error adds up. All tasks are gone over
//! six times for each station, so the time is that of the stations times the tasks. The text is built on one string;
//! beside it the segments and the note of one station are kept.
#![tactic(auto)]

mod drawing;
mod figures;
mod notes;
mod rows;
mod segments;

pub use drawing::{
    draw_text, push_bounds, push_head, push_headings, push_legend, push_notes, push_totals,
    upper_cycle,
};
pub use figures::{Figures, column_of, longest_of, room_for, sum_at};
pub use notes::{digits, is_narrow, shortened};
pub use rows::{push_columns, push_margin, push_slowest, push_times};
pub use segments::{Segment, segments_at};
