//! How many units a search at a cycle can spend: the law that they are few. It has no code that runs.
//!
//! A unit at a cycle is a triple: a set of tasks, a number of stations and a load of the set. No triple comes twice,
//! and a triple is told by what each task is to it (`proofs/TripleCodes.antt`), so they can be counted.
#![tactic(auto)]

pub mod laws;
