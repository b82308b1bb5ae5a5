//! What a book is asked, what it answers, and what its log keeps. Each is plain data and copied like a number, but
//! for an event, which hands its entry or its balance over.
use line_rules::{Balance, Entry, TaskSet};

/// What a look into the entries finds.
#[derive(Clone, Copy, Debug, PartialEq, Eq)]
pub enum Looked {
    /// The last entry that answers the question: its number, from 0, and its number of stations.
    Found { id: u64, most: u32 },
    /// No entry answers it.
    Absent,
}

/// What becomes of an entry that is published.
#[derive(Clone, Copy, Debug, PartialEq, Eq)]
pub enum Published {
    /// The last entry that answers it, by its number. Nothing is added.
    Known(u64),
    /// It was added, with this number.
    Added(u64),
    /// Out of memory: nothing is added, and the entry is given up.
    NoMemory,
}

/// What becomes of a balance that is offered.
#[derive(Clone, Copy, Debug, PartialEq, Eq)]
pub enum Offered {
    /// It has fewer stations than the best, and is the best now.
    Better,
    /// It hasn't, and is given up.
    NotBetter,
}

/// What a log keeps of an event.
#[derive(Clone, Copy, Debug, PartialEq, Eq)]
pub enum LogItem {
    /// An entry was added with this number.
    Added(u64),
    /// An entry was published that an earlier one answers: the number of that one, and the stations of the published
    /// one.
    Known { id: u64, most: u32 },
    /// A balance of so many stations became the best.
    Offered { stations: u32 },
}

/// What can happen to a book.
#[derive(Drop)]
pub enum Event {
    /// A look for an entry that answers the question of the set and so many stations, at the book's cycle.
    Look { set: TaskSet, most: u32 },
    /// An entry that follows from the entries of the book.
    Publish(Entry),
    /// A right balance of all tasks.
    Offer(Balance),
}

/// What a book answers to an event.
#[derive(Clone, Copy, Debug, PartialEq, Eq)]
pub enum Reply {
    /// To a look.
    Looked(Looked),
    /// To an entry that was known: the last entry that answers it.
    Known(u64),
    /// To an entry that was added: its number.
    Added(u64),
    /// To a balance.
    Offered(Offered),
}
