//! The commands `effic` and `effic-check`: the least product of stations and cycle of the line that a file says, over a
//! range of stations, with a certificate of it; and whether such a certificate holds of the line, and what it shows
//! then.
//!
//! Each cycle that is tried may take the units that the words allow. The certificate is kept, and written where the
//! words name a file.
#![tactic(auto)]

mod check;
mod effic;
mod print_effic;
mod print_verdict;

pub use check::effic_check_report;
pub use effic::effic_report;
