//! A board of hints on which helpers say which question each of them is at.
//!
//! Helpers that search one question together put off what another one is at, and come back to it later. So each claims
//! the question that it begins. Who has settled a question leaves a lemma in the book, which is asked before the board.
//! So nothing is ever wiped off: a claim stays until another one falls on its word.
//!
//! The board has 16,384 words, 0 at first, and one for the end. A hash of the set and its number of stations picks a
//! word. There are many more words than questions that helpers are at, and the words of 64 helpers fit a cache. A call
//! costs one hash of the set and one load or store. It waits for nobody and takes no memory, but for `open_board`.
//!
//! **Nothing may rest on what the board says.** A wrong hint costs time and nothing else, so no call says more than
//! that it returns. The idea is that of deferred moves in a table shared by searchers (Weill's ABDADA, 1996).
#![tactic(auto)]

mod board;

pub use board::{Board, open_board};
