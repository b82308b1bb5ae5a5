//! The units at the stations, as utility work tells them.
//!
//! The units are gone over in their order, each at all stations. Between two units it is kept where the next one is
//! begun at each station.
ghost use Rattle.std.specs.Prelude.{◌≡◌, ◌≤◌, ◌<◌, ◌+◌, ◌*◌, ◌^◌, ℕ, All, IfOk, OnOk, length, map};
ghost use Rattle.timeline_drawing.specs.Visits.{AreStarts, AreWorks, Course, course, latest_of, row_of, row_utility};
ghost use Rattle.timeline_drawing.specs.Visits.{visit_of};
ghost use Rattle.timeline_drawing.specs.Visits.{IsVisit};

use combined_graph::Mix;
use line_rules::Balance;
use std::alloc::{AllocError, Global};
use utility_work::{MAX_MODELS, utility_step, works_at};

/// A unit at a station.
#[derive(Clone, Copy, Debug)]
pub struct Visit {
    /// The station, from 0.
    pub station: u32,
    /// The unit, from 0.
    pub unit: u32,
    /// Where the unit is begun, counted from the station's beginning, in the mix's time unit.
    pub start: u64,
    /// The work that it brings to the station.
    pub work: u64,
    /// What of that would be done behind the station's end.
    pub utility: u64,
    /// Where the next unit is begun.
    pub next: u64,
}

/// The works of all models at each station.
pub(crate) fn works_of(
    alloc: Global,
    mix: &Mix,
    balance: &Balance,
) -> Result<Vec<[u64; MAX_MODELS]>, AllocError>
    requires { length balance.now.place ≡ mix.now.tasks }
    ensures { IfOk result (λ v. AreWorks mix.now balance.now.place v.items balance.now.stations) }
{
    let mut rows = Vec::new(alloc);
    for s in 0..balance.stations {
        rows.push(works_at(mix, balance, s + 1))?;
    }
    Ok(rows)
}

/// A unit at a station, where it is begun there and brings this work.
fn visit_of(station: u32, unit: u32, start: u64, work: u64, reach: u64, interval: u64) -> Visit
    requires start { start ≤ reach }
    requires work { work ≤ 1024000000000 }
    requires reach { reach ≤ 1000000000 }
    ensures visit { result ≡ visit_of station unit start work reach interval }
    ensures sound { IsVisit result }
{
    let (utility, next) = utility_step(start, work, reach, interval);
    Visit {
        station,
        unit,
        start,
        work,
        utility,
        next,
    }
}

/// A unit at all stations, which is begun there at these starts.
fn row_of(
    alloc: Global,
    mix: &Mix,
    balance: &Balance,
    sequence: &[u32],
    interval: u64,
    reach: u64,
    works: &[[u64; MAX_MODELS]],
    starts: &[u64],
    unit: u32,
) -> Result<Vec<Visit>, AllocError>
    requires works { AreWorks mix.now balance.now.place works.now balance.now.stations }
    requires starts { AreStarts (course mix.now balance.now sequence.now interval reach) unit starts.now }
    requires models { All (λ m. m < length mix.now.models) sequence.now }
    requires unit { unit < length sequence.now }
    requires reach { reach ≤ 1000000000 }
    ensures row { IfOk result (λ v. v.items ≡ row_of (course mix.now balance.now sequence.now interval reach) unit) }
    ensures sound { IfOk result (λ v. All IsVisit v.items) }
{
    let _models = mix.models();
    let model = sequence[unit as usize] as usize;
    let mut row = Vec::new(alloc);
    for station in 0..balance.stations {
        let start = starts[station as usize];
        let work = works[station as usize][model];
        row.push(visit_of(station, unit, start, work, reach, interval))?;
    }
    Ok(row)
}

/// Where the first unit is begun at so many stations.
pub(crate) fn first_starts(alloc: Global, stations: u32) -> Result<Vec<u64>, AllocError>
    ensures { IfOk result (λ v. (d : Course) → d.balance.stations ≡ stations → AreStarts d 0 v.items) }
{
    vec![in alloc; 0; stations as usize]
}

/// Where the next unit is begun, behind a unit at all stations.
fn starts_after(alloc: Global, row: &[Visit]) -> Result<Vec<u64>, AllocError>
    ensures { IfOk result (λ v. v.items ≡ map (λ w. w.next) row.now) }
{
    row.iter().map(|visit| visit.next).collect(alloc)
}

/// A unit at all stations, which is begun there at these starts; they become those of the next unit.
pub(crate) fn next_row(
    alloc: Global,
    mix: &Mix,
    balance: &Balance,
    sequence: &[u32],
    interval: u64,
    reach: u64,
    works: &[[u64; MAX_MODELS]],
    starts: &mut Vec<u64>,
    unit: u32,
) -> Result<Vec<Visit>, AllocError>
    requires works { AreWorks mix.now balance.now.place works.now balance.now.stations }
    requires starts { AreStarts (course mix.now balance.now sequence.now interval reach) unit starts.old.items }
    requires models { All (λ m. m < length mix.now.models) sequence.now }
    requires unit { unit < length sequence.now }
    requires reach { reach ≤ 1000000000 }
    ensures row { IfOk result (λ v. v.items ≡ row_of (course mix.now balance.now sequence.now interval reach) unit) }
    ensures sound { IfOk result (λ v. All IsVisit v.items) }
    ensures starts { OnOk result
        (AreStarts (course mix.now balance.now sequence.now interval reach) (unit + 1) starts.new.items) }
{
    let row = row_of(
        alloc, mix, balance, sequence, interval, reach, works, starts, unit,
    )?;
    *starts = starts_after(alloc, &row)?;
    Ok(row)
}

/// The utility work of a unit at all stations.
pub(crate) fn row_utility(row: &[Visit]) -> u64
    requires few { length row.now ≤ 64 }
    requires sound { All IsVisit row.now }
    ensures { result ≡ row_utility row.now }
{
    let mut sum = 0;
    for visit in row {
        sum += visit.utility;
    }
    sum
}

/// The greatest place at which the work of a unit ends.
pub(crate) fn latest_of(row: &[Visit]) -> u64
    requires { All IsVisit row.now }
    ensures { result ≡ latest_of row.now }
{
    let mut latest = 0;
    for visit in row {
        latest = (visit.start + visit.work).max(latest);
    }
    latest
}
