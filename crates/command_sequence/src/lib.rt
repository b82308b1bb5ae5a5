//! The commands `sequence` and `sequence-check`: the order of the units of a mix that has the least utility work on a
//! balanced line, with a certificate of it; and whether such a certificate holds of the mix, and what it shows then.
//!
//! The mix and the balance are read and tested as for `utility`, and become a table of works. Where the words ask for a
//! seek, its sequence and its lemmas are tested, and the search begins with them. It takes up to the units that the
//! words allow. Its certificate is kept, and written where the words name a file. The check takes no
//! memory, and at most the steps that the words allow.
#![tactic(auto)]

mod beginning;
mod check;
mod print_sequence;
mod print_verdict;
mod sequence;
mod timed_mix;

pub use check::sequence_check_report;
pub use sequence::sequence_report;
