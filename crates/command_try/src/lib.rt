//! The command `try`: the fewest stations of a line that is drawn from a seed, with a certificate that is written in
//! memory, read again and verified. It takes what drawing, solving with no helpers and verifying take.
#![tactic(auto)]

mod print_try;
mod trying;

pub use trying::try_report;
