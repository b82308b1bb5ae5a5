//! The ranked balance.
//!
//! The line is filled until all tasks stand; where no task may join, the next station is opened. No task is longer than
//! the cycle, so each new station takes one at least and the loop ends.
ghost use Rattle.std.specs.Prelude.{◌≡◌, ℕ, IfOk, length};
ghost use Rattle.line_rules.specs.Bounds.{IsTooLong};
ghost use Rattle.line_rules.specs.Ranked.{IsRankedBalance};
ghost use Rattle.first_fit.specs.RankedBalance.{IsRanked};

use crate::filling::Filling;
use crate::pick::pick;
use crate::weights::weights_of;
use line_instance::Instance;
use line_rules::{Balance, LineKind, Places, Seatplace, Side};
use lower_bounds::first_too_long;
use std::alloc::{AllocError, Global};

/// The ranked balance of an instance, or why there is none.
#[derive(Drop)]
pub enum Ranked {
    /// The balance: right, with at most as many stations as tasks.
    Good(Balance),
    /// The least task whose time exceeds the cycle.
    TooLong(u32),
    /// Out of memory.
    NoMemory,
}

/// So many places, none of them at a station yet.
fn no_places(alloc: Global, n: usize) -> Result<Vec<Seatplace>, AllocError>
    ensures { IfOk result (λ v. length v.items ≡ n) }
{
    let none = Seatplace {
        station: 0,
        side: Side::Front,
    };
    vec![in alloc; none; n]
}

/// Fills the line, where no task is longer than the cycle.
fn filled(alloc: Global, inst: &Instance, kind: LineKind, cycle: u64) -> Result<Balance, AllocError>
    requires { (i : ℕ) → IsTooLong inst.now cycle i → ⊥ }
    ensures { IfOk result (IsRankedBalance kind inst.now cycle) }
{
    let weights = weights_of(alloc, inst)?;
    let mut place = no_places(alloc, inst.tasks() as usize)?;
    let all = inst.all();
    let mut filling = Filling::start(cycle);
    'filling: while !all.is_subset(&filling.front.union(&filling.back)) {
        match pick(inst, kind, &weights, &filling) {
            Some(choice) => {
                place[choice.task as usize] = Seatplace {
                    station: filling.station,
                    side: choice.side,
                };
                filling = filling.joined(choice, inst.time(choice.task));
            }
            None => filling = filling.next_station(cycle),
        }
    }
    Ok(Balance {
        stations: filling.station,
        place: Places::from_vec(place),
    })
}

/// The ranked balance at a cycle time: stations are filled one after the other, each time with the task of the greatest
/// weight that may join the station, of equal weights the least task, in front before the back. A station ends only
/// where no task may join it.
pub fn ranked_balance(alloc: Global, inst: &Instance, kind: LineKind, cycle: u64) -> Ranked
    ensures { IsRanked kind inst.now cycle result }
{
    let _tasks = inst.tasks();
    if let Some(task) = first_too_long(inst, cycle) {
        return Ranked::TooLong(task);
    }
    match filled(alloc, inst, kind, cycle) {
        Ok(balance) => Ranked::Good(balance),
        Err(_) => Ranked::NoMemory,
    }
}
