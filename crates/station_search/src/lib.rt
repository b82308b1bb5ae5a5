//! Decides whether a set of tasks has a balance in so many stations: by the bound, by what a desk has seen, by pairs,
//! or by a search over the loads of the end station. Each load that is listed costs one unit, and what is refuted is
//! published. A set is decided alone, or beside others that search over the same book.
#![tactic(auto)]

mod answers;
mod beside;
mod deciding;
mod listings;
mod looking;
mod modes;
mod ordering;
mod pairing;
mod placing;
mod searching;
mod searching_beside;
mod sorting;
mod stacks;
mod standing;
mod swaps;

pub use answers::{Decided, Reason, Units};
pub use beside::{Beside, DecidedBeside, decide_beside};
pub use deciding::{decide, decide_in};
pub use modes::choose_mode;
pub use pair_search::{PairTable, Paired, pair_table};
pub use pairing::{ask_pairs, table_for};
pub use placing::balance_of;
