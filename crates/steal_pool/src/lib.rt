//! A pool of pieces of work that hands take from each other, each from its own deque first.
//!
//! A hand puts pieces on the deque that it owns (the crate `crossbeam_deque`, first in, first out) and takes them from
//! any deque. Beside each deque is a tally (the crate `atomic_table`), one word that counts the pieces put and not yet
//! taken: a hand finds a deque empty where it finds 0 there, and tries again while another hand's step wins. What was
//! put on a deque and what was taken from it is known to the rules of the two alone (specs/Deques.antt), and the
//! promises of the calls are in terms of what a hand knows before and after (specs/Hands.antt, specs/Calls.antt).
//!
//! A put costs two atomic steps, a take three and two looks at most for each deque that it finds empty. Room for 4,096
//! pieces a hand is taken when the pool is opened, and none after.
#![tactic(auto)]

mod closing;
mod deque;
mod hand;
mod opening;
mod piece;
mod pool;
mod port;
mod rules;
mod views;

pub use closing::Closed;
pub use hand::{Hand, Hands};
pub use opening::{Opened, open_pool};
pub use piece::Piece;
pub use pool::{Pool, PutBack, Took};
