//! A beam search for a balance in few stations: it finds balances, and proves nothing that anybody has to believe.
//!
//! Station by station, the loads of a few rests are listed, the longest tasks first, and of what full loads leave the
//! few rests of the least total time are kept. A balance that comes out is tested as every balance is. So a beam costs
//! so many loads at most, and is often the quickest way to a better balance than the ranked one.
//!
//! `placed` numbers the tasks by place, `listing` lists the loads of a set, and `beams` goes from level to level.
#![tactic(auto)]

mod beams;
mod listing;
mod placed;

pub use beams::{Beamed, Wanted, beam};
pub use lower_bounds::{bound, times_in};
pub use pair_search::{PairTable, Paired, pair_table};
