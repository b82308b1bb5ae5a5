//! Where the search for the least cycle begins.
//!
//! No cycle below the longest time serves, nor one that so many stations can't fill with the total time; all tasks at
//! the first station have a balance at the total time. One pass over the tasks for each.
ghost use Rattle.std.specs.Prelude.{◌≡◌, ◌≤◌, IfOk, replicate};
ghost use Rattle.line_instance.specs.Line.{tasks};
ghost use Rattle.cycle_search.specs.Ends.{at_first, first_lower, first_upper};

use line_instance::Instance;
use line_rules::{Balance, Places, Seatplace, Side};
use line_seek::times_in;
use std::alloc::{AllocError, Global};

/// The first ends of a search, in the instance's time unit.
#[derive(Clone, Copy)]
pub struct Ends {
    /// There is no balance at a cycle below it.
    pub lower: u64,
    /// There is one at it.
    pub upper: u64,
}

/// The first ends, for 1 to 1,024 stations.
pub fn first_ends(inst: &Instance, stations: u32) -> Ends
    requires some { 1 ≤ stations }
    ensures lower { result.lower ≡ first_lower inst.now stations }
    ensures upper { result.upper ≡ first_upper inst.now }
    ensures limit { result.upper ≤ 204800000000000000 }
{
    let times = times_in(inst, &inst.all());
    Ends {
        lower: times
            .total
            .div_ceil(u64::from(stations))
            .max(times.longest)
            .max(1),
        upper: times.total.max(1),
    }
}

/// All tasks at the first of so many stations, in front. An error where memory is wanting.
pub fn all_at_first(alloc: Global, inst: &Instance, stations: u32) -> Result<Balance, AllocError>
    ensures { IfOk result (λ b. b ≡ record { stations = stations; place = replicate (tasks inst.now) at_first }) }
{
    let first = Seatplace {
        station: 1,
        side: Side::Front,
    };
    let place = vec![in alloc; first; inst.tasks() as usize]?;
    Ok(Balance {
        stations,
        place: Places::from_vec(place),
    })
}
