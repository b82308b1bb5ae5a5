//! The least product of stations and cycle of a line, in a range of stations (Scholl's SALBP-E, and its counterpart for
//! U-lines).
//!
//! All tasks at the first of the fewest stations are a balance; its product is the first best one. The numbers of
//! stations are gone through in order. At each, the greatest cycle whose product is below the best one is tried, by the
//! ranked balance first, then by a seek where the plan has one, and then by a search over one book, until that cycle
//! is refuted: a balance that is found makes the product smaller, and what is refuted at a cycle is refuted at each
//! smaller one. Each try has the units of the plan, and its seek the loads of the plan.
//!
//! `lowering` is the search between two tries; `opening` has the first balance and the first book; `counting` what the
//! entries of a book are; `trying` one try, and `settling` all tries at one number of stations; `searching` says what a
//! search comes to.
#![tactic(auto)]

mod counting;
mod lowering;
mod opening;
mod searching;
mod settling;
mod trying;

pub use cycle_search::{Gate, Plan, Seeks};
pub use searching::{EfficOutcome, Ended, least_product};
