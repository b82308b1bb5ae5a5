//! Whether a certificate is within its ranges: what a text of one can say, and what its writers ask for.
//!
//! Each part of a certificate has its own test, which answers true exactly where the part is within its ranges:
//! questions and balances (`certificate`), entries and cites (`entries`), frames (`trails`), and sets and cycles
//! (`sets`). Nothing is said of what follows from what. One pass over the places, the entries and the frames, and over
//! their cites. No memory is taken.
#![tactic(auto)]

mod certificate;
mod entries;
mod sets;
mod trails;

pub use certificate::is_in_range;
