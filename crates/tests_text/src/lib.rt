//! Tests of what comes from outside and goes there: files and output in memory and on disk, texts that no command reads,
//! the values of words, and what a command leaves.
#![tactic(auto)]

#[cfg(test)]
mod alb_texts;
#[cfg(test)]
mod files;
#[cfg(test)]
mod outcomes;
#[cfg(test)]
mod words;
