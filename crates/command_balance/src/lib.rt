//! The command `balance`: the ranked balance of the line that its files say, with the bound by total time and the idle
//! time, or the first task that no station can hold.
//!
//! One pass over the files, one over the tasks, and up to three over the places for each station line that is
//! printed.
#![tactic(auto)]

mod balance;
mod print_balance;

pub use balance::balance_report;
