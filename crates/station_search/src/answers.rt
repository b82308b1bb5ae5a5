//! What a search is given to spend, and what it answers.

use line_rules::{Frames, Loads};

/// How many loads may still be listed, and how many were.
#[derive(Clone, Copy, Debug, PartialEq, Eq)]
pub struct Units {
    /// The units that are left: one for each load that may still be listed.
    pub left: u64,
    /// The units used so far.
    pub used: u64,
}

/// What refutes a question.
#[derive(Clone, Copy, Debug, PartialEq, Eq)]
pub enum Reason {
    /// The lower bound of the set exceeds the stations.
    ByBound,
    /// The entry of this number answers the question.
    ByEntry(u64),
}

/// The answer to the question whether a set of tasks has a balance in so many stations.
#[derive(Drop)]
pub enum Decided {
    /// It has none.
    Refuted(Reason),
    /// It has one: the loads of its stations, in order.
    Found(Loads),
    /// The units ended before it was decided: the open frames of the search, from the question down. This answer takes
    /// no memory: where no unit is left and one more load is needed, the search never gives `NoMemory` in its place.
    Spent(Frames),
    /// Out of memory before it was decided: open frames of the search, or none.
    NoMemory(Frames),
}
