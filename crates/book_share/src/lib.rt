//! A book that several threads share, by turns. There is one history of events, each pass has seen a beginning of it,
//! and each answer is the book's own at one point of it.
//!
//! A table (the crate `atomic_table`) has three words, the turn, the number of events and the least station count, and
//! one slot with the book. Who has the turn has the book. The rule of the table says what is true between any two steps
//! (specs/Rule.antt), and each step tells its pass what it learns (specs/Steps.antt). The promises of the calls are in
//! terms of what a pass knows before and after (specs/Passes.antt, specs/Calls.antt), and a reader needs no step for
//! them. A pass may keep a memo of what it has seen, which answers most questions without a turn (src/memo.rt).
#![tactic(auto)]

mod desked;
mod lemma_rows;
mod marks;
mod memo;
mod pass;
mod rule;
mod share;
#[cfg(test)]
mod tests;
mod turns;
mod view;

pub use desked::Desked;
pub use pass::{Glimpsed, Pass, Share, Started, TryLooked, TryPublished};
