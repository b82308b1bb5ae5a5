//! The rules of sequences of least utility work on a mixed-model line (Scholl): states, steps and their cost, bounds,
//! what follows from what, certificates, and the law that the bound of an accepted certificate is true.
//!
//! Charges on the models are prices on what is demanded. An entry by Charge speaks of every row of so many units, whatever
//! its models, so few starts serve in place of many states.
//!
//! A state is what is left to be launched of each model, and where the next unit is begun at each station. A step
//! launches one unit. Its cost takes time proportional to the stations, and the bound of a state to stations times
//! models. No call takes memory, except for copies.
#![tactic(auto)]

mod answering;
mod charging;
mod comparing;
pub mod laws;
mod sequences;
mod steps;

pub use answering::{answered_need, answers, answers_plainly, serves};
pub use charging::{listed_charges, unit_cost};
pub use comparing::{is_no_later, is_same};
pub use sequences::{is_sequence_of, sequence_cost};
pub use steps::{MAX_STATIONS, launch, state_bound, step, unit_work, units_left};
pub use utility_work::MAX_MODELS;
