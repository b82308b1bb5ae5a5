//! The balance of loads in the order of their stations.
//!
//! A task stands at the first load that has it, so a balance takes as many steps as there are tasks and loads before
//! theirs.
ghost use Rattle.std.specs.Prelude.{◌≡◌, ℕ, ◌+◌, ◌<◌, ◌≤◌, ◌↔◌, IsTrue, length, IfOk};
ghost use Rattle.line_instance.specs.Truths.{In};
ghost use Rattle.line_instance.specs.Line.{tasks};
ghost use Rattle.line_rules.specs.Balance.{IsRight, all_tasks, seat};
ghost use Rattle.line_rules.specs.Loads.{taken};
ghost use Rattle.line_rules.specs.Seats.{side_of, IsPlacement, AreSeated};
ghost use Rattle.line_rules.specs.declared.types.Seatplace.{Seatplace as Place};
ghost use Rattle.station_search.specs.Parts.{AreParts, IsOnce, IsPlaceOf};

use line_instance::Instance;
use line_rules::{Balance, LineKind, Load, Loads, Places, Seatplace, Side};
use std::alloc::{AllocError, Global};

// Whether a load has a task.
#[inline]
fn has_task(load: &Load, task: u32) -> bool
    requires { task < 1024 }
    ensures { IsTrue result ↔ In (taken load.now) task }
{
    load.front.has(task) || load.back.has(task)
}

// The side at which a load has one of its tasks.
fn side_in(kind: LineKind, load: &Load, task: u32) -> Side
    requires { task < 1024 }
    ensures { result ≡ side_of kind load.now task }
{
    match kind {
        LineKind::Straight => Side::Front,
        LineKind::U => {
            if load.front.has(task) {
                Side::Front
            } else {
                Side::Back
            }
        }
    }
}

// The place of a task: that of the first load that has it.
fn place_of(kind: LineKind, loads: &Loads, task: u32) -> Seatplace
    requires task { task < 1024 }
    requires few { length loads.now ≤ 1024 }
    requires once { IsOnce loads.now }
    ensures { IsPlaceOf kind loads.now task result }
{
    for k in 0..loads.len() {
        let load = loads.at(k);
        if has_task(load, task) {
            return Seatplace {
                station: k as u32 + 1,
                side: side_in(kind, load, task),
            };
        }
    }
    Seatplace {
        station: 1,
        side: Side::Front,
    }
}

/// The balance of loads that part all tasks, in so many stations: each task has the number of its load, counted from 1,
/// as its station, and on a U-line the side of its part. The stations are at most 1,024, and no fewer than the loads.
/// An error where memory is wanting.
pub fn balance_of(
    alloc: Global,
    inst: &Instance,
    kind: LineKind,
    stations: u32,
    loads: &Loads,
) -> Result<Balance, AllocError>
    requires few { stations ≤ 1024 }
    requires loads { length loads.now ≤ stations }
    requires parts { AreParts inst.now loads.now }
    ensures stations { IfOk result (λ b. b.stations ≡ stations) }
    ensures each { IfOk result (λ b. length b.place ≡ tasks inst.now) }
    ensures placed { IfOk result (λ b. IsPlacement kind loads.now (seat b.place)) }
    ensures right { IfOk result (λ b. (c : ℕ)
        → AreSeated kind inst.now c (all_tasks inst.now) loads.now
        → IsRight kind inst.now c b) }
{
    let tasks = inst.tasks();
    let mut place = Vec::with_capacity(alloc, tasks as usize)?;
    for task in 0..tasks {
        place.push(place_of(kind, loads, task))?;
    }
    Ok(Balance {
        stations,
        place: Places::from_vec(place),
    })
}
