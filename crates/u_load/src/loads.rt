//! Loads of a U-line, from both ends.
//!
//! A U-line is filled from both ends at once, so a load has a front and a back, and the mode is always Both. The calls
//! ask for that mode and hand on to the code for all modes. They cost what that costs.
ghost use Rattle.std.specs.Prelude.{◌≡◌, ◌↔◌, IsTrue, IsNone, IfSome, None, Some};
ghost use Rattle.line_instance.specs.Line.{IsTaskSet, has};
ghost use Rattle.line_instance.specs.Sums.{sum_where};
ghost use Rattle.line_rules.specs.Loads.{Belongs, IsLoad, IsFull, taken};
ghost use Rattle.line_rules.specs.Order.{Precedes, IsFollowing};
ghost use Rattle.line_rules.specs.declared.types.LineKind.TheVariants.{U};
ghost use Rattle.line_rules.specs.declared.types.Load.{Load as Pair};
ghost use Rattle.station_load.specs.Walking.{IsWalk};

use line_instance::{Instance, TaskSet};
use line_rules::{Load, Mode};
use station_load::places;
use station_load::steps::{self, Walk, begin};

/// The first load of a set of tasks, or None where the set has none.
///
/// The cycle is in the instance's time unit. The mode is `Both`: the fronts are compared by rank from the first rank
/// on, and of equal fronts the backs from the last rank on (ULINO, Scholl and Klein).
pub fn first_load(inst: &Instance, cycle: u64, set: &TaskSet, mode: Mode) -> Option<Load>
    requires set { IsTaskSet inst.now set.now }
    requires mode { Belongs U mode }
    ensures none { IsNone result → (l : Pair) → IsLoad inst.now cycle mode set.now l → ⊥ }
    ensures first { IfSome result (IsFollowing inst.now cycle mode set.now None) }
{
    places::first(inst, cycle, set, mode)
}

/// The load after a load of the set, or None where it is the last.
pub fn next_load(
    inst: &Instance,
    cycle: u64,
    set: &TaskSet,
    mode: Mode,
    last: &Load,
) -> Option<Load>
    requires set { IsTaskSet inst.now set.now }
    requires mode { Belongs U mode }
    requires load { IsLoad inst.now cycle mode set.now last.now }
    ensures none { IsNone result → (l : Pair) → IsLoad inst.now cycle mode set.now l → Precedes inst.now last.now l
        → ⊥ }
    ensures next { IfSome result (IsFollowing inst.now cycle mode set.now (Some last.now)) }
{
    places::next(inst, cycle, set, mode, last)
}

/// Whether a load of the set is full: no further task of the set can be added to it so that it is a load.
pub fn is_full(inst: &Instance, cycle: u64, set: &TaskSet, mode: Mode, load: &Load) -> bool
    requires set { IsTaskSet inst.now set.now }
    requires mode { Belongs U mode }
    requires load { IsLoad inst.now cycle mode set.now load.now }
    ensures { IsTrue result ↔ IsFull inst.now cycle mode set.now load.now }
{
    places::full(inst, cycle, set, mode, load)
}

/// A walk over the loads of a set, before its first one.
pub fn walk(inst: &Instance, cycle: u64, set: &TaskSet, mode: Mode) -> Walk
    requires set { IsTaskSet inst.now set.now }
    requires mode { Belongs U mode }
    ensures walk { IsWalk inst.now result }
    ensures cycle { result.cycle ≡ cycle }
    ensures mode { result.mode ≡ mode }
    ensures set { result.set ≡ set.now }
    ensures last { result.last ≡ None }
{
    begin(inst, cycle, set, mode)
}

/// A walk over the loads of a set that goes on after a load of the set, as if it had given that load last.
pub fn resume(inst: &Instance, cycle: u64, set: &TaskSet, mode: Mode, last: &Load) -> Walk
    requires set { IsTaskSet inst.now set.now }
    requires mode { Belongs U mode }
    requires load { IsLoad inst.now cycle mode set.now last.now }
    ensures walk { IsWalk inst.now result }
    ensures cycle { result.cycle ≡ cycle }
    ensures mode { result.mode ≡ mode }
    ensures set { result.set ≡ set.now }
    ensures last { result.last ≡ Some last.now }
    ensures sum { result.sum ≡ sum_where (has (taken last.now)) inst.now.times }
{
    steps::resume(inst, cycle, set, mode, last)
}
