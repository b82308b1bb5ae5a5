//! Lists of entries: trimmed to what one entry stands on, raised behind others, and renumbered; and the certificates of
//! version 1, whose parts are such lists.
#![tactic(auto)]

pub mod laws;
mod trimming;
pub mod version_one;

pub use trimming::{answers, trim};
