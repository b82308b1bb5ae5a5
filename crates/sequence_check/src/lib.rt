//! An independent check of certificates of sequences of least utility work.
//!
//! The sequence is tested first, then each entry in order, then that an entry shows the lower bound, and then the
//! frames of a search that stopped. Each step that is walked is counted, and its bound takes time proportional to
//! stations times models. An entry by Charge is walked over a unit of each model, each in time proportional to the
//! stations. No call takes memory.
#![tactic(auto)]

mod checking;
mod entries;
mod frames;
pub mod laws;
mod rows;
mod types;
mod walks;

pub use checking::verify_seq;
pub use entries::verify_seq_entry;
pub use types::{SeqEntryChecked, SeqEntryFault, SeqFrameFault, SeqPlace, SeqVerified};
