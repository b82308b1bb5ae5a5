//! The warm start of a search for sequences: which entries of an old list hold on this mix and line.
//!
//! Each old entry is checked as it stands, after those that were kept before it, so nothing is believed of the old
//! list. It is gone over once, in order; an entry is walked once at most, and one that stands on what wasn't kept isn't
//! walked at all. `numbers` renumbers cites, and `warming` goes over the list.
#![tactic(auto)]

mod numbers;
mod warming;

pub use warming::{SeqWarmed, warm_seq};
