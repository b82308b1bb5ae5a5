//! What is asked for, and the search between two tries: its balance, its book, and what the entries of the book are.
ghost use Rattle.std.specs.Prelude.{◌≡◌, ◌≤◌, ◌<◌, ◌^◌};
ghost use Rattle.effic_check.specs.Accepted.{cycle_below};
ghost use Rattle.effic_search.specs.inner.Going.{product_of};

use crate::counting::Listed;
use cycle_search::Seeks;
use lemma_core::Book;
use line_rules::{Balance, LineKind};

/// What is asked for.
#[derive(Clone, Copy)]
pub(crate) struct Wanted {
    /// The kind of line.
    pub kind: LineKind,
    /// The least number of stations.
    pub least: u32,
    /// The greatest number of stations.
    pub most: u32,
}

/// A search between two tries, in the instance's time unit.
#[derive(Drop)]
pub(crate) struct Lowering {
    /// The cycle of the balance: the greater of 1 and its longest station.
    pub cycle: u64,
    /// The best balance, in a number of stations that is asked for.
    pub balance: Balance,
    /// The entries so far.
    pub book: Book,
    /// What the entries of the book are.
    pub listed: Listed,
    /// The seeks so far.
    pub seeks: Seeks,
}

impl Lowering {
    /// The product of the stations of the balance and its cycle.
    pub(crate) fn product(&self) -> u128
        ensures { result ≡ product_of self.now }
    {
        u128::from(self.balance.stations) * u128::from(self.cycle)
    }

    /// The greatest cycle whose product with so many stations is below that of the balance.
    pub(crate) fn cycle_below(&self, stations: u32) -> u64
        requires some { 1 ≤ stations }
        requires small { cycle_below (product_of self.now) stations < 2 ^ 64 }
        ensures { result ≡ cycle_below (product_of self.now) stations }
    {
        (self.product().saturating_sub(1) / u128::from(stations)) as u64
    }
}
