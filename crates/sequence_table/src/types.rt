//! What the calls on a table answer.

use crate::table::Table;
use crate::told::Told;

/// What opening a table comes to.
#[derive(Drop)]
pub enum Tabled {
    /// The table with node 0 alone.
    Done(Table),
    /// Memory is wanting.
    NoMemory,
}

/// What opening a step comes to. Nodes are counted from 0.
#[derive(Clone, Copy)]
pub enum Opened {
    /// This node had the starts that the step leads to. It is the next one now.
    Known(u32),
    /// This node was added with these starts. It is the next one now.
    Added(u32),
    /// No node has these starts, and there is no room for one more. Nothing was changed.
    Full,
    /// Memory is wanting. Nothing was changed.
    NoMemory,
}

/// What a pass comes to.
#[derive(Drop)]
pub enum Passed {
    /// The value of each node, with up to as many units left as are wanted.
    Done(Told),
    /// Memory is wanting.
    NoMemory,
}
