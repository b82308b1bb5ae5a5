//! Utility work of a sequence of models on a balanced line (Scholl).
//!
//! A station is closed: its worker can't go past its end. Units are launched one interval apart, and each is begun
//! where the worker meets it. The work that would go past the end is utility work, done by a utility worker. The work
//! that a model brings to a station is summed once for each station and model. So the time is proportional to stations
//! times units, and to stations times models times tasks. No call takes memory.
#![tactic(auto)]

mod work;

pub use work::{MAX_MODELS, utility, utility_step, works_at};
