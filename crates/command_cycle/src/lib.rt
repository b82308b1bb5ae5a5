//! The command `cycle`: the least cycle of the line that a file says, in so many stations, with a certificate of it.
//!
//! Each cycle that is tried may take the units that the words allow. What was proved becomes a certificate, which is
//! kept, and written where the words name a file. The report is made before the file, so that a run without memory for
//! it writes none.
#![tactic(auto)]

mod least;
mod print_cycle;

pub use least::cycle_report;
