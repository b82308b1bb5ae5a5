//! The commands for lines that build several models: `combine` writes the instance that a mix combines to, `utility`
//! tells the utility work of a sequence of units on a balanced line, `timeline` tells it unit by unit, and
//! `timeline-draw` writes that as a picture.
//!
//! The time is that of what the files say, and of stations times units.
#![tactic(auto)]

mod combine;
mod timeline;
mod timeline_draw;
mod utility;

pub use combine::combine_report;
pub use timeline::timeline_report;
pub use timeline_draw::timeline_draw_report;
pub use utility::utility_report;
