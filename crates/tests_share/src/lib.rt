//! Tests of what threads share. Of a book: one pass, glimpses, threads whose every answer is found again in the one
//! history, searches in which one caller's lemma stands in another's proof, and searches beside others. Of a pool of
//! pieces of work, and of the board of hints.
#![tactic(auto)]

#[cfg(test)]
mod beside;
#[cfg(test)]
mod boards;
#[cfg(test)]
mod books;
#[cfg(test)]
mod cited;
#[cfg(test)]
mod glimpses;
#[cfg(test)]
mod one_pass;
#[cfg(test)]
mod pools;
#[cfg(test)]
mod threads;
