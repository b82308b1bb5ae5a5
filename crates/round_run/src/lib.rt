//! Rounds: the questions of a run, asked one after the other over one book until the least number of stations is known.
//!
//! `solving` starts from the bound and the ranked balance, and says what a run comes to; `questions` raises the lower
//! bound question by question; `rounds` decides one question over a book, by the helpers of the crate below and then by
//! a closing pass, which stands in `closing`, and `bounding` publishes what the bound refutes. `plans` has what a run
//! may spend. A run without helpers spends its units in its closing passes alone.
//!
//! `certify` makes of what a run proved a certificate that the check accepts. Where the run was solved it has the best
//! balance, and of the book the entry that shows the lower bound with all that it stands on: one pass over the entries.
//! Where the units ended it has the whole book and the trail. Where a task is longer than the cycle it names the first
//! one.
#![tactic(auto)]

mod bounding;
mod certify;
mod closing;
pub mod laws;
mod plans;
mod questions;
mod rounds;
mod solving;

pub use certify::{
    certify_optimum, certify_stop, certify_too_long, certify_warm_optimum, certify_warm_stop,
};
pub use closing::Verdict;
pub use plans::{Plan, Purse, fill};
pub use round_helpers::{AlwaysOpen, Gate, Helped, Job, jobs};
pub use rounds::{Round, decide_round};
pub use solving::{Cause, Outcome, open_book, solve, solve_from};
