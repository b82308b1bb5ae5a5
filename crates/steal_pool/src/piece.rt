//! A piece of work.
use line_instance::TaskSet;

/// A piece of work: a question of a set of tasks, at a depth, with so many stations at most.
#[derive(Drop)]
pub struct Piece {
    /// The number by which the pool tells it from all other pieces.
    pub number: u64,
    pub depth: u32,
    pub most: u32,
    pub set: TaskSet,
}
