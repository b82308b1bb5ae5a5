//! Laws of the forms in which a line is kept: tables, IN2 and ALB. It has no code that runs.
//!
//! Each form has a law of its own, that what is written is read back. Here a text is read by whatever form it is taken
//! for: a canonical text is taken for its own form, by its first bytes (`proofs/FirstBytes.antt`). So a line stays the
//! same through any chain of runs of `convert` (`proofs/RunFacts.antt`).
#![tactic(auto)]

pub mod laws;
