//! An independent check of certificates of the least product of stations and cycle (Scholl's SALBP-E).
//!
//! The balance is tested first, then each entry, then that the entries leave no number of stations open below the lower
//! bound, and then the trail of a search that stopped. Entries and frames are checked by the code that checks every
//! certificate. No memory is taken; the entries are gone over once, and once more for each number of stations that is
//! asked for.
#![tactic(auto)]

mod checking;
pub mod laws;
mod verdict;

pub use checking::verify_effic;
pub use verdict::{EfficPlace, EfficVerified};
