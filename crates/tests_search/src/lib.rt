//! Tests of searches: of one question, alone and beside another caller, and of pairs, by their rule and by the search for
//! them.
#![tactic(auto)]

#[cfg(test)]
mod pair_rules;
#[cfg(test)]
mod pair_searches;
#[cfg(test)]
mod searches;
