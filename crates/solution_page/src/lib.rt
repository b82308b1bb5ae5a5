//! The certificate that a search for a line's balance keeps, and the page that tells it: it is written where the words
//! name a file.
//!
//! A certificate is written piece by piece, so that its text never stands in memory as a whole. The report is made
//! before, so that a run without memory for it writes nothing.
//!
//! A certificate that the check accepts has a short text, by its entries and its units: that is a law (`laws`).
#![tactic(auto)]

pub mod laws;
mod page;

pub use page::write_certificate;
