//! The test of a balance by the rules of its line, which names the first rule that is broken.
//!
//! One rule is looked at after the other: a place for each task, stations in range, sides that the line has, times
//! within the cycle, precedences, and tasks that are apart. Each look ends at the least task, station or pair that
//! breaks its rule, so an answer also says that all that comes before it is right. The times at all stations are
//! summed in one pass over the tasks, in an array of 8 KB on the stack. Each pair of tasks that are before one
//! another or apart is looked at once. No memory is taken.
ghost use Rattle.std.specs.Prelude.{◌≡◌, ◌≤◌, ◌<◌, ◌↔◌, ℕ, length, slice_index, slice_index_or, IsTrue, IsNone, IfSome};
ghost use Rattle.line_instance.specs.Truths.{In};
ghost use Rattle.line_instance.specs.Line.{Line, Before, tasks};
ghost use Rattle.line_rules.specs.Balance.{IsSide, Keeps, all_tasks, seat, time_at};
ghost use Rattle.line_rules.specs.Checked.{IsChecked, IsLeastWhere, IsLeastPair, KeepsAll, Breaks, Meets};
ghost use Rattle.line_rules.specs.declared.types.Seatplace.{Seatplace as Seat};

use crate::listed::Places;
use crate::types::{Balance, BalanceCheck, LineKind, Seatplace, Side};
use line_instance::Instance;

/// One more than the most stations of a balance.
const STATIONS: usize = 1025;

/// The least task whose station isn't 1..`stations`.
fn out_of_range(tasks: u32, stations: u32, place: &Places) -> Option<u32>
    requires { tasks ≤ length place.now }
    ensures none { IsNone result → (i : ℕ) → i < tasks → (1 ≤ (seat place.now i).station)
        × ((seat place.now i).station ≤ stations) }
    ensures some { IfSome result (IsLeastWhere (λ j. (j < tasks)
        × ((1 ≤ (seat place.now j).station) × ((seat place.now j).station ≤ stations) → ⊥))) }
{
    for i in 0..tasks {
        let station = place.at(i as usize).station;
        if station < 1 || station > stations {
            return Some(i);
        }
    }
    None
}

/// The least task at a side that the line doesn't have.
fn wrong_side(tasks: u32, kind: LineKind, place: &Places) -> Option<u32>
    requires { tasks ≤ length place.now }
    ensures none { IsNone result → (i : ℕ) → i < tasks → IsSide kind (seat place.now i).side }
    ensures some { IfSome result (IsLeastWhere (λ j. (j < tasks) × (IsSide kind (seat place.now j).side → ⊥))) }
{
    for i in 0..tasks {
        if !is_side(kind, place.at(i as usize).side) {
            return Some(i);
        }
    }
    None
}

fn is_side(kind: LineKind, side: Side) -> bool
    ensures { IsTrue result ↔ IsSide kind side }
{
    match (kind, side) {
        (LineKind::Straight, Side::Back) => false,
        _ => true,
    }
}

/// Whether the places of a task and of one after it keep their precedence.
fn keeps(kind: LineKind, earlier: &Seatplace, later: &Seatplace) -> bool
    ensures { IsTrue result ↔ Keeps kind earlier.now later.now }
{
    match kind {
        LineKind::Straight => earlier.station <= later.station,
        LineKind::U => match (earlier.side, later.side) {
            (Side::Front, Side::Front) => earlier.station <= later.station,
            (Side::Back, Side::Back) => later.station <= earlier.station,
            (Side::Front, Side::Back) => true,
            (Side::Back, Side::Front) => false,
        },
    }
}

/// Nothing at each station.
fn no_times() -> [u64; STATIONS]
    ensures long { length result ≡ 1025 }
    ensures none { (s : ℕ) → slice_index result s ≡ 0 }
{
    [0; STATIONS]
}

/// The times at each station, by station.
fn station_times(inst: &Instance, place: &Places) -> [u64; STATIONS]
    requires each { tasks inst.now ≤ length place.now }
    requires few { (i : ℕ) → i < tasks inst.now → (seat place.now i).station ≤ 1024 }
    ensures long { length result ≡ 1025 }
    ensures times { (s : ℕ) → s < 1025 → slice_index result s
        ≡ time_at inst.now (all_tasks inst.now) (seat place.now) s }
{
    let mut times = no_times();
    for i in 0..inst.tasks() {
        times[place.at(i as usize).station as usize] += inst.time(i);
    }
    times
}

/// The least station whose time exceeds the cycle.
fn overfull(times: &[u64], cycle: u64) -> Option<u32>
    requires { length times.now ≤ 1025 }
    ensures none { IsNone result → (s : ℕ) → s < length times.now → slice_index times.now s ≤ cycle }
    ensures some { IfSome result (IsLeastWhere (λ s. (s < length times.now) × (cycle < slice_index times.now s))) }
{
    for s in 0..times.len() {
        if times[s] > cycle {
            return Some(s as u32);
        }
    }
    None
}

/// The least task after `i` whose place breaks their precedence.
fn broken_after(inst: &Instance, kind: LineKind, balance: &Balance, i: u32) -> Option<u32>
    requires each { tasks inst.now ≤ length balance.now.place }
    requires task { i < tasks inst.now }
    ensures none { IsNone result → (j : ℕ) → In (all_tasks inst.now) j → Before inst.now i j
        → Keeps kind (seat balance.now.place i) (seat balance.now.place j) }
    ensures some { IfSome result (IsLeastWhere (Breaks kind inst.now balance.now i)) }
{
    let _tasks = inst.tasks();
    let earlier = balance.place.at(i as usize);
    let mut left = *inst.after(i);
    'later: while let Some(j) = left.least() {
        if !keeps(kind, earlier, balance.place.at(j as usize)) {
            return Some(j);
        }
        left = left.without(j);
    }
    None
}

/// The least pair whose precedence is broken.
fn first_broken(inst: &Instance, kind: LineKind, balance: &Balance) -> Option<(u32, u32)>
    requires { tasks inst.now ≤ length balance.now.place }
    ensures none { IsNone result → KeepsAll kind inst.now balance.now }
    ensures some { IfSome result (λ p. IsLeastPair (Breaks kind inst.now balance.now) p.0 p.1) }
{
    for i in 0..inst.tasks() {
        if let Some(j) = broken_after(inst, kind, balance, i) {
            return Some((i, j));
        }
    }
    None
}

/// The least task above `i` that is apart from it and at its station.
fn together_with(inst: &Instance, balance: &Balance, i: u32) -> Option<u32>
    requires each { tasks inst.now ≤ length balance.now.place }
    requires task { i < tasks inst.now }
    ensures none { IsNone result → (j : ℕ) → Meets inst.now balance.now i j → ⊥ }
    ensures some { IfSome result (IsLeastWhere (Meets inst.now balance.now i)) }
{
    let _tasks = inst.tasks();
    let station = balance.place.at(i as usize).station;
    let mut left = *inst.apart(i);
    'parted: while let Some(j) = left.least() {
        if i < j && balance.place.at(j as usize).station == station {
            return Some(j);
        }
        left = left.without(j);
    }
    None
}

/// The least pair of tasks that are apart and at one station.
fn first_together(inst: &Instance, balance: &Balance) -> Option<(u32, u32)>
    requires { tasks inst.now ≤ length balance.now.place }
    ensures none { IsNone result → (i j : ℕ) → Meets inst.now balance.now i j → ⊥ }
    ensures some { IfSome result (λ p. IsLeastPair (Meets inst.now balance.now) p.0 p.1) }
{
    for i in 0..inst.tasks() {
        if let Some(j) = together_with(inst, balance, i) {
            return Some((i, j));
        }
    }
    None
}

/// Whether a balance is one of all tasks, by the rules of its kind of line; if not, the first thing that is wrong with
/// it.
///
/// The answers are tested in the order of `BalanceCheck`, and each says that everything before it is right. Takes no
/// memory, and time proportional to the tasks and the pairs of tasks that are before one another or apart.
pub fn check_balance(inst: &Instance, kind: LineKind, cycle: u64, balance: &Balance) -> BalanceCheck
    requires places { length balance.now.place ≤ tasks inst.now }
    requires stations { balance.now.stations ≤ 1024 }
    ensures { IsChecked kind inst.now cycle balance.now result }
{
    let tasks = inst.tasks();
    let places = balance.place.len() as u32;
    if places < tasks {
        return BalanceCheck::Unplaced(places);
    }
    if let Some(i) = out_of_range(tasks, balance.stations, &balance.place) {
        return BalanceCheck::StationRange(i);
    }
    if let Some(i) = wrong_side(tasks, kind, &balance.place) {
        return BalanceCheck::SideWrong(i);
    }
    let times = station_times(inst, &balance.place);
    if let Some(s) = overfull(&times, cycle) {
        return BalanceCheck::Overfull(s, times[s as usize]);
    }
    if let Some((i, j)) = first_broken(inst, kind, balance) {
        return BalanceCheck::Broken(i, j);
    }
    if let Some((i, j)) = first_together(inst, balance) {
        return BalanceCheck::Together(i, j);
    }
    BalanceCheck::Right
}
