//! The search between two tries: its ends, its balance, its book, and the proof of its lower end where the book doesn't
//! hold that; and what its seeks come to.

use crate::seek::Seeks;
use lemma_core::Book;
use line_rules::{Balance, Entries};

/// A search between two tries, in the instance's time unit.
#[derive(Drop)]
pub(crate) struct Halving {
    /// There is no balance at a cycle below it.
    pub lower: u64,
    /// The balance is right at it.
    pub upper: u64,
    /// A balance in the stations that are asked for.
    pub balance: Balance,
    /// The proof of the lower end, from an earlier book; empty where the book holds it.
    pub proof: Entries,
    /// The entries so far.
    pub book: Book,
    /// At least the units of the book's entries: what was spent on them.
    pub paid: u64,
    /// The seeks so far.
    pub seeks: Seeks,
}
