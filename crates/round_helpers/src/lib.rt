//! Helpers: threads that search one question together, over one shared book.
//!
//! Each walks the whole question, and skips for a while what another one is at. `job_list` lists the jobs: the first
//! loads of all tasks that a search would have to go into. Each becomes a piece in a pool, and a helper that has none
//! left takes another's, so that they begin apart. `question_work` is how a helper asks a question beside the others,
//! and `piece_work` what it does with its pieces and its last question, over any desk beside others. `helper_desk` is a
//! helper's desk at the shared book, with the board of hints, and `gates` has what it meets before each publish.
//! `equipment` is what a team needs, `teams` splits the book's first pass among the helpers, runs them in threads and
//! joins their passes again, and `helping` is the whole of it, from a book to the book that comes back. What a helper
//! costs is its searches: a unit for each load that is listed, for each piece and for the last question. (The search
//! with deferred moves is that of Weill's ABDADA, 1996.)
#![tactic(auto)]

mod equipment;
mod gates;
mod helper_desk;
mod helping;
mod job_list;
mod piece_work;
mod question_work;
mod teams;

pub use equipment::equip;
pub use gates::{AlwaysOpen, Gate};
pub use helping::{Help, Helped, call_helpers, help_at};
pub use job_list::{Job, jobs};
pub use question_work::Question;
