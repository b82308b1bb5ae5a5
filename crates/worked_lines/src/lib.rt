//! Small lines worked by hand: what the definitions of `line_rules` and `lemma_core` give for them. They show that the
//! definitions mean what they should. It has no code that runs, and no crate stands on it.
//!
//! A row is proved by computing where its definition computes; where it speaks of all loads, by tests that list them.
#![tactic(auto)]

pub mod laws;
