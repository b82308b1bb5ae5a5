//! The search for a sequence of least utility work.
//!
//! A lower and an upper bound are brought together by tries. Each asks whether some sequence costs less than a need
//! between them, and goes through the states in depth, models in order. A state that is refuted becomes an entry that
//! all tries share.
#![tactic(auto)]

mod book;
mod frames;
mod ordering;
mod outcome;
mod tables;
mod trying;

pub use ordering::{model_order, order, order_from};
pub use outcome::Ordered;
pub use tables::station_times;
