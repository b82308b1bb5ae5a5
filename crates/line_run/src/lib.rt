//! A run of the program, from the words of the command line to the exit code: the contract of the call that `main`
//! makes.
//!
//! `program` reads the words and puts what their job ends with, and `jobs` joins the commands; `pages` has what is
//! printed of the program itself, and `usage` the line that a fault of the words is answered by.
#![tactic(auto)]

mod jobs;
mod pages;
mod program;
mod usage;

pub use program::{run, run_gated};
