//! The plan of a balance: a sheet that says for each task at which station it is done, on which side, and when in the
//! cycle it begins and ends.
//!
//! Each station takes a pass over the tasks for either side, so the whole takes time proportional to stations times
//! tasks, and to the text.
#![tactic(auto)]

mod plan;

pub use plan::plan_text;
