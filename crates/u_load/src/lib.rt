//! The loads of a set on a U-line in their order, none left out: the first, the one after a load, and a walk from the
//! first to the last. The code is that of `station_load`, which serves all modes.
#![tactic(auto)]

mod loads;

pub use loads::{first_load, is_full, next_load, resume, walk};
pub use station_load::Walk;
