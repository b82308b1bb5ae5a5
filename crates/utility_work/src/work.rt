//! The recurrence of utility work, unit by unit.
ghost use Rattle.std.specs.Prelude.{◌≡◌, ◌≤◌, ◌<◌, ◌+◌, ℕ, length, slice_index, slice_index_or, cond, nat_eq, sum, All};
ghost use Rattle.combined_graph.specs.Mixes.{model_at, time_of};
ghost use Rattle.line_rules.specs.Balance.{seat};
ghost use Rattle.utility_work.specs.Utility.{work_at, utility_of, next_start, utility_from, station_utility};

use combined_graph::Mix;
use line_rules::Balance;

/// The most models of a mix.
pub const MAX_MODELS: usize = 16;

/// One unit at a station: its utility work, and where the next unit is begun.
///
/// `start` is where this unit is begun, `work` its work at the station, `length` the station's length and `interval`
/// the launch interval, all in one time unit; places are counted from the station's beginning.
pub fn utility_step(start: u64, work: u64, length: u64, interval: u64) -> (u64, u64)
    requires start { start ≤ 1000000000 }
    requires work { work ≤ 1024000000000 }
    requires length { length ≤ 1000000000 }
    ensures utility { result.0 ≡ utility_of start work length }
    ensures next { result.1 ≡ next_start start work length interval }
    ensures within { result.1 ≤ length }
    ensures own { start ≤ length → result.0 ≤ work }
{
    let end = start + work;
    let over = end.saturating_sub(length);
    (over, (end - over).saturating_sub(interval))
}

// The time of a model's task, where the task is at the station, counted from 1.
fn time_at(mix: &Mix, balance: &Balance, station: u32, model: u32, task: u32) -> u64
    requires places { length balance.now.place ≡ mix.now.tasks }
    requires model { model < length mix.now.models }
    requires task { task < mix.now.tasks }
    ensures time { result
        ≡ cond (nat_eq (seat balance.now.place task).station station) (time_of (model_at mix.now.models model) task) 0 }
    ensures limit { result ≤ 1000000000 }
{
    if balance.place.at(task as usize).station == station {
        mix.time(model, task)
    } else {
        0
    }
}

// The work that a model brings to a station, counted from 1.
fn work_of(mix: &Mix, balance: &Balance, station: u32, model: u32) -> u64
    requires places { length balance.now.place ≡ mix.now.tasks }
    requires model { model < length mix.now.models }
    ensures work { result ≡ work_at balance.now.place station (model_at mix.now.models model) }
    ensures limit { result ≤ 1024000000000 }
{
    let mut work = 0;
    for task in 0..mix.tasks() {
        work += time_at(mix, balance, station, model, task);
    }
    work
}

/// The work that each model brings to a station, counted from 1: models times tasks additions.
#[inline]
pub fn works_at(mix: &Mix, balance: &Balance, station: u32) -> [u64; MAX_MODELS]
    requires { length balance.now.place ≡ mix.now.tasks }
    ensures each { (m : ℕ) → m < length mix.now.models
        → slice_index_or result m 0 ≡ work_at balance.now.place station (model_at mix.now.models m) }
    ensures limit { (m : ℕ) → slice_index_or result m 0 ≤ 1024000000000 }
{
    let mut works = [0; MAX_MODELS];
    for m in 0..mix.models() {
        works[m as usize] = work_of(mix, balance, station, m);
    }
    works
}

// The utility work of all units at one station, which reaches so far.
fn utility_at(works: &[u64; MAX_MODELS], sequence: &[u32], interval: u64, reach: u64) -> u64
    requires limit { (m : ℕ) → slice_index_or works.now m 0 ≤ 1024000000000 }
    requires few { length sequence.now ≤ 100000 }
    requires models { All (λ m. m < 16) sequence.now }
    requires reach { reach ≤ 1000000000 }
    ensures utility { result ≡ utility_from reach interval (λ m. slice_index_or works.now m 0) 0 sequence.now }
    ensures limit { result ≤ 102400000000000000 }
{
    let mut sum = 0;
    let mut start = 0;
    for k in 0..sequence.len() {
        let work = works[sequence[k] as usize];
        let (over, next) = utility_step(start, work, reach, interval);
        sum += over;
        start = next;
    }
    sum
}

// The sum of all stations.
fn total_of(per: &[u64]) -> u128
    requires { length per.now ≤ 1024 }
    ensures { result ≡ sum per.now }
{
    let mut total = 0;
    for k in 0..per.len() {
        total += u128::from(per[k]);
    }
    total
}

/// The utility work of a sequence of units on a balanced line, each unit a model of the mix: writes that of each
/// station into `per`, the first station first, and answers their sum.
///
/// The interval and the lengths of the stations are in the mix's time unit. The sum is at most 102,400,000,000,000,000,
/// since there is no more of it than work of the units.
pub fn utility(
    mix: &Mix,
    balance: &Balance,
    sequence: &[u32],
    interval: u64,
    lengths: &[u64],
    per: &mut [u64],
) -> u128
    requires places { length balance.now.place ≡ mix.now.tasks }
    requires stations { balance.now.stations ≤ 1024 }
    requires few { length sequence.now ≤ 100000 }
    requires models { All (λ m. m < length mix.now.models) sequence.now }
    requires lengths { length lengths.now ≡ balance.now.stations }
    requires limit { All (λ l. l ≤ 1000000000) lengths.now }
    requires per { length per.old ≡ balance.now.stations }
    ensures each { (k : ℕ) → k < balance.now.stations
        → slice_index per.new k
        ≡ station_utility mix.now balance.now.place sequence.now interval (slice_index lengths.now k) (k + 1) }
    ensures total { result ≡ sum per.new }
    ensures limit { result ≤ 102400000000000000 }
{
    let _tasks = mix.tasks();
    for k in 0..lengths.len() {
        let works = works_at(mix, balance, k as u32 + 1);
        per[k] = utility_at(&works, sequence, interval, lengths[k]);
    }
    total_of(per)
}
