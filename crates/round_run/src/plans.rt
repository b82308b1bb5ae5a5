//! What a run may spend: units, in its closing passes and, where it has helpers, in each of them.
//!
//! The helpers have as many units together as the closing passes of the whole run, each an equal part of them.
ghost use Rattle.std.specs.Prelude.{IfOk};
ghost use Rattle.round_run.specs.Plans.{IsPlan, IsFilled};

use station_search::Units;
use std::alloc::{AllocError, Global};

/// The helpers and the units of a run, and what it asks.
#[derive(Clone, Copy, Debug, PartialEq, Eq)]
pub struct Plan {
    /// How many helpers search beside the closing passes, 0 to 64.
    pub helpers: u32,
    /// How many loads the closing passes of the whole run may list, 1 to 3,000,000.
    pub units: u64,
    /// Whether the searches ask pairs: tasks of which no two can share a station.
    pub pairs: bool,
    /// How many loads the seek of each tried cycle may list, 0 to 3,000,000, in a search that tries cycles; 0 for no
    /// seek. A run at one cycle leaves it alone.
    pub seek: u64,
}

/// The units of a run: those of its closing passes, and those of each helper.
#[derive(Drop)]
pub struct Purse {
    pub closing: Units,
    pub helper: Vec<Units>,
}

/// A purse as a plan has it, of which nothing is used: each helper has the plan's units, divided by the number of
/// helpers and rounded down. An error where memory is out.
pub fn fill(alloc: Global, plan: &Plan) -> Result<Purse, AllocError>
    requires { IsPlan plan.now }
    ensures { IfOk result (IsFilled plan.now) }
{
    let count = plan.helpers as usize;
    let mut helper = Vec::with_capacity(alloc, count)?;
    for _made in 0..plan.helpers {
        let left = plan.units / u64::from(plan.helpers);
        helper.push_reserved(Units { left, used: 0 });
    }
    Ok(Purse {
        closing: Units {
            left: plan.units,
            used: 0,
        },
        helper,
    })
}
