//! Sequences: whether one is of the demands, and what it costs.
ghost use Rattle.std.specs.Prelude.{◌≡◌, ℕ, ◌<◌, ◌≤◌, ◌↔◌, length, nat_eq, count_by, All, IsTrue};
ghost use Rattle.utility_work.specs.Utility.{utility_from};
ghost use Rattle.sequence_rules.specs.States.{unit_work, IsSequenceOf, cost, root_starts};
ghost use Rattle.sequence_rules.specs.Ranges.{AreTimes};

use crate::steps::unit_work;
use sequence_values::Times;
use utility_work::utility_step;

/// How many units of a sequence are of a model.
fn units_of(sequence: &[u64], model: u64) -> u64
    requires { length sequence.now ≤ 1000 }
    ensures { result ≡ count_by (λ u. nat_eq u model) sequence.now }
{
    let mut count = 0;
    for u in sequence {
        if *u == model {
            count += 1;
        }
    }
    count
}

/// Whether a sequence has each model as often as it is wanted: one pass over the sequence for each model.
pub fn is_sequence_of(demands: &[u64], sequence: &[u64]) -> bool
    requires few { length sequence.now ≤ 1000 }
    requires models { All (λ u. u < length demands.now) sequence.now }
    ensures { IsTrue result ↔ IsSequenceOf demands.now sequence.now }
{
    for m in 0..demands.len() {
        if units_of(sequence, m as u64) != demands[m] {
            return false;
        }
    }
    true
}

/// The utility work of a sequence at a station, counted from 0.
fn station_cost(times: &Times, interval: u64, reach: u64, sequence: &[u64], station: usize) -> u64
    requires times { AreTimes times.now }
    requires reach { reach ≤ 1000000000 }
    requires few { length sequence.now ≤ 1000 }
    requires models { All (λ u. u < length times.now.demands) sequence.now }
    requires station { station < times.now.stations }
    ensures cost { result ≡ utility_from reach interval (λ m. unit_work times.now m station) 0 sequence.now }
    ensures limit { result ≤ 1024000000000000 }
{
    let mut sum = 0;
    let mut start = 0;
    for k in 0..sequence.len() {
        let work = unit_work(times, sequence[k] as usize, station);
        let (over, next) = utility_step(start, work, reach, interval);
        sum += over;
        start = next;
    }
    sum
}

/// The cost of a sequence that begins at the root: its utility work at all stations, at most 65,536,000,000,000,000.
///
/// `interval` is the launch interval and `reach` the length of each station, in the mix's time unit. Takes time
/// proportional to stations times units.
pub fn sequence_cost(times: &Times, interval: u64, reach: u64, sequence: &[u64]) -> u64
    requires times { AreTimes times.now }
    requires reach { reach ≤ 1000000000 }
    requires few { length sequence.now ≤ 1000 }
    requires models { All (λ u. u < length times.now.demands) sequence.now }
    ensures cost { result ≡ cost times.now interval reach (root_starts times.now) sequence.now }
    ensures limit { result ≤ 65536000000000000 }
{
    let mut total = 0;
    for k in 0..times.stations as usize {
        total += station_cost(times, interval, reach, sequence, k);
    }
    total
}
