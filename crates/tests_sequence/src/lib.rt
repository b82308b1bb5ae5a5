//! Tests of sequences: tables with values that were worked by hand, and lists of old lemmas of which some don't follow.
#![tactic(auto)]

#[cfg(test)]
mod tables;
#[cfg(test)]
mod warm_lists;
