//! Lines that are drawn from a seed: the same seed gives the same line everywhere. A task takes two words of a
//! generator and constant time; what the arcs imply is joined by `make`.
#![tactic(auto)]

mod drawing;

pub use drawing::{Generated, generate};
