//! The search for pairs: whether a few tasks, of which no two can share a station, show that a set of tasks has no
//! balance in so many stations. Own; the matching is made greater by the alternating paths of Berge, 1957.
//!
//! Which tasks above a third of the cycle may share a station is the same in each set that a search meets. So it is
//! kept in a table, one for each cycle, as rows of bits. A question costs a greatest matching in those rows, begun with
//! that of the question above it. What is found is tested by rows of bits again, so nothing rests on the matching.
#![tactic(auto)]

mod matching;
mod paths;
mod rows;
mod step;
mod table;
mod task_map;

pub use table::{PairTable, Paired, pair_table};
