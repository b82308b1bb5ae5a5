//! Beams, searches and drifts before a run: they seek a better balance and lemmas, with a limit on what they may list.
//!
//! A run goes from the lower bound up, so its first questions are the hardest. `seek` goes the other way: from the best
//! balance down, by one station less each time, with beams, which are quick to find a balance, and searches, which may
//! show that there is none. They take turns with a purse that grows fourfold round by round. On lines of at least 150
//! tasks each round but the first begins with a drift, by random steps from the best balance. Nothing of them is
//! believed: a balance is tested, and lemmas are checked anew by whoever takes them into a book. Each load that is
//! listed costs one of the limit, and so does a unit of a drift. `seek_for` asks for one number of stations alone, as
//! before a question of so many.
//!
//! `aims` says for how many stations a seek goes, `tries` has the turns, `trying` makes one try, and `seeking` goes
//! from try to try; `answering` tells where there is nothing to seek.
#![tactic(auto)]

mod aims;
mod answering;
mod seeking;
mod tries;
mod trying;

pub use answering::is_answered;
pub use beam_search::times_in;
pub use seeking::{Sought, seek, seek_for};
pub use station_search::Units;
