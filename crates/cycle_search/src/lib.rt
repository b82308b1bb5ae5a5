//! The least cycle of a line with so many stations (Scholl's SALBP-2, and its counterpart for U-lines).
//!
//! Two ends are kept: all tasks have a balance at the upper one, and none below the lower one. The cycle halfway
//! between them is tried until they meet. A try makes the ranked balance first, then a seek, where the plan asks for
//! one, and then a search over the book. The book is kept from try to try, since a lemma at a greater cycle serves at a
//! smaller one. With ends L and U there are at most log2(U - L) + 1 tries, each with the units of the plan.
//!
//! `ends` has the first ends, `opening` the first book and its first entry; `asking` asks one question over a book;
//! `halving` is the search between two tries; `seek` has the seek at a tried cycle, and what it adds to the book;
//! `trying` has one try, and `joining` makes one list of the entries of a search; `searching` says what a search comes
//! to.
//!
//! `certify` makes of what a search proved a certificate that the check accepts. Where the least cycle was found it has
//! a balance at it, and of the entries the one that shows that there is none at the cycle below, with all that it
//! stands on: one pass over the entries. Where units ended it has all entries and the trail.
#![tactic(auto)]

mod asking;
mod certify;
mod ends;
mod halving;
mod joining;
mod opening;
mod searching;
mod seek;
mod trying;

pub use asking::{Asked, ask_book};
pub use certify::{certify_cycle, certify_cycle_stop};
pub use ends::{Ends, all_at_first, first_ends};
pub use opening::open_book;
pub use round_run::{Cause, Gate, Plan, Verdict};
pub use searching::{CycleOutcome, least_cycle};
pub use seek::{Seeks, SoughtBook, seek_book};
pub use trying::widened;
