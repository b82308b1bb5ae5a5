//! The book of entries: what its events do and answer, and the history that it replays from.
//!
//! `book` keeps entries, best balance and log; `index` finds entries by their sets, `sieve` has its marks, and
//! `plain_lookup` finds without it; `desk` is what a search sees of a book; `event_run` runs a list of events; `laws`
//! are what is true of all runs.
#![tactic(auto)]

mod book;
mod desk;
mod event_run;
mod index;
pub mod laws;
mod plain_lookup;
pub mod sieve;
mod types;

pub use book::Book;
pub use desk::Desk;
pub use event_run::run_events;
pub use types::{Event, LogItem, Looked, Offered, Published, Reply};
