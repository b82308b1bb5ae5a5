//! A seek for a sequence of little utility work, and for lemmas by Charge that show how little there can be.
//!
//! Rounds of passes over a table, walks over states and moves of the charges take turns, within so many units; they
//! stand in `sequence_walk`. The lemmas and their form are own.
//!
//! `rounds` calls the parts in turn, and `list` writes down the lemmas: `branches` says which states of a walk they are
//! about, and `asking` which nodes. `testing` tests what comes out. A pass costs a unit for each node, and a walk one
//! for each step, so a seek ends.
#![tactic(auto)]

mod asking;
mod branches;
mod list;
mod orders;
mod rounds;
mod seeking;
mod testing;
mod types;

pub use seeking::seek_order;
pub use types::SeqSought;
