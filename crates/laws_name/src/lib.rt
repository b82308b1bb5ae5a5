//! That the names of tasks change nothing: a law on what the commands come to. It has no code that runs.
//!
//! What a command answers is defined over the line that its files say, and over what the tasks are called. So the law
//! takes an answer apart, and puts it together again with other names.
#![tactic(auto)]

pub mod laws;
