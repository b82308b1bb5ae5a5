//! Tests of whole runs and of what comes before them: beams and seeks, with the loads that they list and what they find,
//! old entries that a book takes in, rounds with the entries that they publish, and helpers.
#![tactic(auto)]

#[cfg(test)]
mod beams;
#[cfg(test)]
mod books;
#[cfg(test)]
mod ends;
#[cfg(test)]
mod old_entries;
#[cfg(test)]
mod rounds;
#[cfg(test)]
mod seeks;
