//! The rules of assembly lines: balances of straight lines and U-lines, loads, bounds, what follows from what,
//! certificates, and the test of a balance.
//!
//! The definitions and the facts about them serve the search and the check alike; the code that walks over loads or
//! asks for a bound stands in crates above, once for the search and once for the check.
#![tactic(auto)]

mod boxed;
mod checking;
pub mod laws;
mod listed;
mod products;
mod types;

pub use boxed::BoxedSet;
pub use checking::check_balance;
pub use line_instance::{Instance, MAX_TASKS, MAX_TIME, Made, Prec, Ring, TaskSet, Tasks, make};
pub use listed::{Cites, Entries, EqualCopy, Frames, Listed, Loads, Places};
pub use products::EfficCert;
pub use types::{
    Ask, Balance, BalanceCheck, Certificate, Claim, Entry, LineKind, Load, Mode, OpenFrame,
    Seatplace, Side, Trail, Why,
};
