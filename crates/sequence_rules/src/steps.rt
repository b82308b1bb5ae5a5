//! The step of a state, its cost, and the bound of a state.
ghost use Rattle.std.specs.Prelude.{◌≡◌, ◌≤◌, ◌<◌, ◌*◌, length, sum, All};
ghost use Rattle.sequence_rules.specs.States.{unit_work, step_cost, next_starts, less_one, work_left, state_bound};
ghost use Rattle.sequence_rules.specs.Ranges.{AreTimes};

use sequence_values::Times;
use utility_work::utility_step;

/// The most stations of a line that sequences are found for.
pub const MAX_STATIONS: usize = 64;

/// The work that a unit of a model brings to a station, both counted from 0.
#[inline]
pub fn unit_work(times: &Times, model: usize, station: usize) -> u64
    requires times { AreTimes times.now }
    requires model { model < length times.now.demands }
    requires station { station < times.now.stations }
    ensures work { result ≡ unit_work times.now model station }
    ensures limit { result ≤ 1024000000000 }
{
    *times.work.at(model * times.stations as usize + station)
}

/// The step by a model, counted from 0: answers its utility work over all stations, and writes into `next` where the
/// unit after it is begun at each station.
///
/// `starts` is where this unit is begun at each station, `interval` the launch interval and `reach` the length of each
/// station, all in the mix's time unit. Takes no memory, and time proportional to the stations.
pub fn step(
    times: &Times,
    interval: u64,
    reach: u64,
    model: usize,
    starts: &[u64],
    next: &mut [u64],
) -> u64
    requires times { AreTimes times.now }
    requires reach { reach ≤ 1000000000 }
    requires model { model < length times.now.demands }
    requires stations { length starts.now ≡ times.now.stations }
    requires starts { All (λ s. s ≤ 1000000000) starts.now }
    requires next { length next.old ≡ times.now.stations }
    ensures cost { result ≡ step_cost times.now reach model starts.now }
    ensures next { next.new ≡ next_starts times.now interval reach model starts.now }
    ensures within { All (λ s. s ≤ reach) next.new }
    ensures limit { result ≤ 65600000000000 }
{
    let mut cost = 0;
    for k in 0..starts.len() {
        let (over, begun) = utility_step(starts[k], unit_work(times, model, k), reach, interval);
        cost += over;
        next[k] = begun;
    }
    cost
}

/// How many units are left, of so many of each model.
#[inline]
pub fn units_left(rem: &[u64]) -> u64
    requires { sum rem.now ≤ 16000 }
    ensures { result ≡ sum rem.now }
{
    let mut units = 0;
    for n in rem {
        units += *n;
    }
    units
}

/// The work that the units that are left bring to a station, counted from 0: one product a model.
#[inline]
fn work_left(times: &Times, rem: &[u64], station: usize) -> u64
    requires times { AreTimes times.now }
    requires models { length rem.now ≡ length times.now.demands }
    requires few { sum rem.now ≤ 16000 }
    requires station { station < times.now.stations }
    ensures work { result ≡ work_left times.now rem.now station }
    ensures limit { result ≤ 16384000000000000 }
{
    let mut work = 0;
    for m in 0..rem.len() {
        work += rem[m] * unit_work(times, m, station);
    }
    work
}

/// The bound of a state: no sequence of the units that are left, `rem` of each model, begun at `starts`, has less
/// utility work. At most 1,048,640,000,000,000,000.
///
/// `interval` is the launch interval and `reach` the length of each station, in the mix's time unit. Takes no memory,
/// and time proportional to stations times models.
pub fn state_bound(times: &Times, interval: u64, reach: u64, rem: &[u64], starts: &[u64]) -> u64
    requires times { AreTimes times.now }
    requires interval { interval ≤ 1000000000 }
    requires models { length rem.now ≡ length times.now.demands }
    requires few { sum rem.now ≤ 16000 }
    requires stations { length starts.now ≡ times.now.stations }
    requires starts { All (λ s. s ≤ 1000000000) starts.now }
    ensures bound { result ≡ state_bound times.now interval reach rem.now starts.now }
    ensures limit { result ≤ 1048640000000000000 }
{
    let units = units_left(rem);
    if units == 0 {
        return 0;
    }
    let room = (units - 1) * interval;
    let mut bound = 0;
    for k in 0..starts.len() {
        let end = starts[k] + work_left(times, rem, k);
        bound += end.saturating_sub(reach).saturating_sub(room);
    }
    bound
}

/// Writes into `left` what is left of each model when a unit of a model, counted from 0, is launched.
pub fn launch(rem: &[u64], model: usize, left: &mut [u64])
    requires model { model < length rem.now }
    requires left { length left.old ≡ length rem.now }
    ensures { left.new ≡ less_one rem.now model }
{
    left.copy_from_slice(rem);
    left[model] = rem[model].saturating_sub(1);
}
