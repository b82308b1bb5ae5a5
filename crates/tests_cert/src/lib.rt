//! Tests of certificates that no run shows: those that are out of their ranges, which no text says; and texts that are
//! read and written piece by piece, with calls that fail.
#![tactic(auto)]

#[cfg(test)]
mod ranges;
#[cfg(test)]
mod streams;
