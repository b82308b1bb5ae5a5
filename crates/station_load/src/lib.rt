//! The loads of a set in their order, none left out: the first, the one after a load, and a walk from the first to the
//! last.
#![tactic(auto)]

mod ends;
pub mod laws;
mod loads;
mod marks;
pub mod places;
mod sides;
pub mod steps;

pub use loads::{first_load, is_full, next_load, resume, walk};
pub use steps::Walk;
