//! The question that the loads of a set are walked for.
//!
//! What doesn't change from load to load stands here once: the times of the set, and the room, the time of all stations
//! but one. A rest with more time than the room is closed by one comparison. The room has up to 1,024 * 10^18, so it
//! needs 128 bits.
ghost use Rattle.std.specs.Prelude.{◌≡◌, ◌≤◌, ◌-◌, ◌*◌, length};
ghost use Rattle.line_rules.specs.Loads.{rest};

use crate::sizes::Times;
use line_instance::TaskSet;
use line_rules::{LineKind, Load, Mode};

/// Whether a set has a balance in `most` stations at a cycle, on a line of that kind, of which an end station is filled
/// in that mode.
#[derive(Clone, Copy)]
pub struct Question {
    pub kind: LineKind,
    pub set: TaskSet,
    pub most: u32,
    pub cycle: u64,
    pub mode: Mode,
    /// The times of the set.
    pub times: Times,
    /// The time of all the stations but one.
    pub room: u128,
}

/// The time of all stations but one, of `most` at a cycle.
pub fn room(most: u32, cycle: u64) -> u128
    requires { cycle ≤ 1000000000000000000 }
    ensures { result ≡ (most - 1) * cycle }
{
    u128::from(most.saturating_sub(1)) * u128::from(cycle)
}

/// The tasks of a set that a load leaves.
pub fn rest(set: &TaskSet, load: &Load) -> TaskSet
    ensures rest { result ≡ rest set.now load.now }
    ensures truths { length result ≡ 1024 }
{
    set.minus(&load.front.union(&load.back))
}
