//! The command `solve`: the fewest stations of the line that its files say, at a cycle time, with a certificate of it.
//!
//! A run goes in turns (`effort`): a first search of a few units, which closes most lines; a seek, where that one left
//! the bounds apart; and the search, up to the units that its plan allows. What was proved becomes a certificate, which
//! is kept, and written where the words name a file. The report is made before the file, so that a run without memory
//! for it writes none. Where the words name an old certificate, the run begins with those of its entries that hold on
//! the line.
#![tactic(auto)]

mod effort;
mod first_search;
mod print_solution;
mod said;
mod solution;
mod warm_start;

pub use effort::Effort;
pub use round_run::{AlwaysOpen, Gate, Plan};
pub use solution::solve_report;
pub use warm_start::entries_in;
