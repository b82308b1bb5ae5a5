//! The charges of a certificate, and the charged cost of a unit: what a row of models pays for it.
ghost use Rattle.std.specs.Prelude.{◌≡◌, ◌<◌, ◌≤◌, length, All};
ghost use Rattle.sequence_rules.specs.States.{next_starts};
ghost use Rattle.sequence_rules.specs.Charges.{AreCharges, listed_charges, unit_cost};
ghost use Rattle.sequence_rules.specs.Ranges.{AreTimes, AreStarts, AreLight};

use crate::steps::step;
use sequence_values::{Numbers, Times};

/// The charge of each model, or nothing where there are no charges.
pub fn listed_charges(charges: &Option<Numbers>) -> &[u64]
    ensures { result.now ≡ listed_charges charges.now }
{
    match charges {
        Some(charges) => charges.as_slice(),
        None => &[],
    }
}

/// The charged cost of a unit of a model, counted from 0: 1000 times its utility work, and its charge. Writes into
/// `next` where the unit after it is begun at each station.
///
/// `starts` is where this unit is begun at each station, `interval` the launch interval and `reach` the length of each
/// station, all in the mix's time unit; `charges` has the charge of each model, 0 to 10^14. Takes no memory, and time
/// proportional to the stations.
pub fn unit_cost(
    times: &Times,
    interval: u64,
    reach: u64,
    charges: &[u64],
    model: usize,
    starts: &[u64],
    next: &mut [u64],
) -> u64
    requires times { AreTimes times.now }
    requires reach { reach ≤ 1000000000 }
    requires charges { AreCharges times.now charges.now }
    requires model { model < length times.now.demands }
    requires starts { AreStarts times.now starts.now }
    requires next { length next.old ≡ times.now.stations }
    ensures cost { result ≡ unit_cost times.now reach charges.now starts.now model }
    ensures next { next.new ≡ next_starts times.now interval reach model starts.now }
    ensures within { All (λ s. s ≤ reach) next.new }
    ensures limit { result ≤ 65700000000000000 }
    ensures light { AreLight times.now → All (λ s. s ≤ reach) starts.now → result ≤ 740000000000000 }
{
    let work = step(times, interval, reach, model, starts, next);
    1000 * work + charges[model]
}
