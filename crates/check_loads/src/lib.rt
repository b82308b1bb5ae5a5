//! The loads of a set in their order, whether one is full, and the bound of a set, for the check of certificates alone:
//! beyond sets and lines it shares no code with what finds them.
//!
//! The loads are given in their order, one after the other, and a walk keeps what it can from one to the next. The
//! bound is asked as a question about a number, and its dear parts come last.
#![tactic(auto)]

pub mod bounds;
pub mod chains;
pub mod ends;
pub mod full;
pub mod loads;
pub mod questions;
pub mod sides;
pub mod sizes;
