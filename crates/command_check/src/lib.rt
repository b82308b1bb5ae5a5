//! The command `check`: whether a certificate holds of the line that its files say, and what it shows then.
//!
//! The entries are checked side by side in threads; where there is no memory for that, one after the other, which takes
//! none.
#![tactic(auto)]

mod check;

pub use check::check_report;
