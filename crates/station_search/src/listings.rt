//! The listing of a frame's loads: the walk from load to load, beside the times of the frame's set.
//!
//! The rest of a load takes the total time of the set less the load's own, which the walk keeps. So most loads are
//! closed by two numbers, before the tasks that they leave are looked at. Others are closed since they aren't full, by
//! the sizes of these tasks, or by heads and tails. What is left is a part of the set, so heads and tails are asked of
//! the set's chained tasks alone, which the first load that comes so far finds. All loads that aren't open are passed
//! over in one loop, and nothing is copied of them: only the walk stands at the last one.
ghost use Rattle.std.specs.Prelude.{◌≡◌, ℕ, ◌+◌, ◌-◌, ◌*◌, ◌^◌, ◌<◌, ◌≤◌, ◌↔◌, ◌⊎◌, IsTrue, false, Some, None, IsNone};
ghost use Rattle.std.specs.Prelude.{IfSome, IsSome};
ghost use Rattle.line_instance.specs.Truths.{In};
ghost use Rattle.line_instance.specs.Line.{IsTaskSet};
ghost use Rattle.line_rules.specs.Bounds.{IsChained};
ghost use Rattle.line_rules.specs.Loads.{IsLoad, rest};
ghost use Rattle.line_rules.specs.Order.{After, IsFollowing};
ghost use Rattle.line_rules.specs.declared.types.Load.{Load as Pair};
ghost use Rattle.line_rules.specs.Entries.{IsOpen};
ghost use Rattle.line_rules.specs.Ranges.{IsCycle};
ghost use Rattle.line_rules.specs.Times.{AreTimes};
ghost use Rattle.station_search.specs.inner.Work.{IsBeside, with_last};
ghost use Rattle.station_search.specs.inner.Steps.{HasSkipped, HasMet, IsLast, with_mark};
ghost use Rattle.lower_bounds.specs.Sizes.{AreSizeSets};

use crate::answers::Units;
use line_instance::{Instance, TaskSet};
use line_rules::{LineKind, Load, OpenFrame};
use lower_bounds::{
    SizeSets, Times, chained_tasks, exceeds_by_chains_of, exceeds_by_sizes, times_in,
};
use station_load::Walk;
use station_load::steps::begin;

/// A walk over the loads of a set, and the times of the set.
#[derive(Drop)]
pub struct Listing {
    /// The walk, which stands at the load that was listed last.
    pub walk: Walk,
    /// The times of the set.
    pub times: Times,
    /// The tasks of the set that need more stations than its frame has but one by their heads and tails, once a load has
    /// asked for them.
    pub chained: Option<TaskSet>,
}

/// The listing of a frame of which no load was listed.
pub fn begin_listing(inst: &Instance, cycle: u64, frame: &OpenFrame) -> Listing
    requires set { IsTaskSet inst.now frame.now.set }
    requires last { frame.now.last ≡ None }
    ensures { IsBeside inst.now cycle frame.now result }
{
    Listing {
        walk: begin(inst, cycle, &frame.set, frame.mode),
        times: times_in(inst, &frame.set),
        chained: None,
    }
}

// The least time that a load needs to have, so that the rest of a set of this total time takes no more than so many
// cycles.
fn least_sum(total: u64, most: u32, cycle: u64) -> u64
    ensures less { (sum : ℕ) → sum < result → most * cycle < total - sum }
    ensures enough { (sum : ℕ) → result ≤ sum → total - sum ≤ most * cycle }
{
    let room = u128::from(most) * u128::from(cycle);
    let total = u128::from(total);
    if room < total {
        return (total - room) as u64;
    }
    0
}

// The times of what the load leaves at which a listing stands: their total, and a time that no task of the set exceeds.
#[inline]
fn rest_times(inst: &Instance, cycle: u64, frame: &OpenFrame, listing: &Listing) -> Times
    requires beside { IsBeside inst.now cycle (with_mark frame.now listing.now.walk.last) listing.now }
    requires given { IsSome listing.now.walk.last }
    ensures times { (l : Pair) → listing.now.walk.last ≡ Some l
        → AreTimes inst.now (rest frame.now.set l) result.total result.longest }
    ensures total { result.total ≡ listing.now.times.total - listing.now.walk.sum }
{
    Times {
        total: listing.times.total - listing.walk.sum(),
        longest: listing.times.longest,
    }
}

// The chained tasks of the frame's set, for a station less than it has: none on a U-line. They are found where no load
// has asked for them yet, and kept with the listing.
fn chained_for(
    inst: &Instance,
    kind: LineKind,
    cycle: u64,
    frame: &OpenFrame,
    listing: &mut Listing,
) -> TaskSet
    requires cycle { IsCycle cycle }
    requires beside { IsBeside inst.now cycle (with_mark frame.now listing.old.walk.last) listing.old }
    requires some { 1 ≤ frame.now.most }
    ensures all { (j : ℕ) → IsChained kind inst.now cycle frame.now.set (frame.now.most - 1) j → In result j }
    ensures walk { listing.new.walk ≡ listing.old.walk }
    ensures times { listing.new.times ≡ listing.old.times }
    ensures beside { IsBeside inst.now cycle (with_mark frame.now listing.old.walk.last) listing.new }
{
    match kind {
        LineKind::U => return TaskSet::empty(),
        LineKind::Straight => {}
    }
    if let Some(chained) = listing.chained {
        return chained;
    }
    let chained = chained_tasks(inst, cycle, &frame.set, listing.times, frame.most - 1);
    listing.chained = Some(chained);
    chained
}

// Whether the load at which a listing stands is open, where what it leaves doesn't take too long.
fn is_open(
    inst: &Instance,
    kind: LineKind,
    cycle: u64,
    sizes: &SizeSets,
    frame: &OpenFrame,
    listing: &mut Listing,
) -> bool
    requires cycle { IsCycle cycle }
    requires sizes { AreSizeSets inst.now cycle sizes.now }
    requires beside { IsBeside inst.now cycle (with_mark frame.now listing.old.walk.last) listing.old }
    requires given { IsSome listing.old.walk.last }
    requires some { 1 ≤ frame.now.most }
    requires few { frame.now.most ≤ 1024 }
    requires heavy { listing.old.times.total - listing.old.walk.sum ≤ (frame.now.most - 1) * cycle }
    ensures open { (l : Pair) → listing.old.walk.last ≡ Some l
        → IsTrue result ↔ IsOpen kind inst.now cycle frame.now.mode frame.now.set frame.now.most l }
    ensures walk { listing.new.walk ≡ listing.old.walk }
    ensures times { listing.new.times ≡ listing.old.times }
    ensures beside { IsBeside inst.now cycle (with_mark frame.now listing.old.walk.last) listing.new }
{
    let _tasks = inst.tasks();
    if !listing.walk.full(inst) {
        return false;
    }
    let rest = listing.walk.rest(inst);
    let most = frame.most - 1;
    if exceeds_by_sizes(inst, sizes, &rest, most) {
        return false;
    }
    let times = rest_times(inst, cycle, frame, listing);
    let chained = chained_for(inst, kind, cycle, frame, listing);
    !exceeds_by_chains_of(inst, kind, cycle, &rest, times, &chained, most)
}

/// Passes over the next loads of a frame that aren't open: what such a load leaves takes longer than the stations that
/// are left, or needs more by its bound, or the load isn't full. Each costs a unit. True where the listing has come to an
/// open load, which costs one too. False where no load is left, or no unit.
pub fn pass_over(
    inst: &Instance,
    kind: LineKind,
    cycle: u64,
    sizes: &SizeSets,
    frame: &OpenFrame,
    listing: &mut Listing,
    units: &mut Units,
) -> bool
    requires cycle { IsCycle cycle }
    requires sizes { AreSizeSets inst.now cycle sizes.now }
    requires beside { IsBeside inst.now cycle frame.now listing.old }
    requires some { 1 ≤ frame.now.most }
    requires few { frame.now.most ≤ 1024 }
    requires units { units.old.used + units.old.left < 2 ^ 64 }
    ensures units { units.new.used + units.new.left ≡ units.old.used + units.old.left }
    ensures met { IsTrue result
        → HasMet kind inst.now cycle frame.now units.old.used units.new.used listing.new }
    ensures opens { IsTrue result → (l : Pair) → listing.new.walk.last ≡ Some l
        → IsOpen kind inst.now cycle frame.now.mode frame.now.set frame.now.most l }
    ensures stops { result ≡ false
        → HasSkipped kind inst.now cycle frame.now units.old.used units.new.used listing.new }
    ensures ends { result ≡ false → (units.new.left ≡ 0)
        ⊎ IsLast inst.now cycle frame.now listing.new.walk.last }
{
    let _tasks = inst.tasks();
    let least = least_sum(listing.times.total, frame.most - 1, cycle);
    'closed: while units.left > 0 {
        if !listing.walk.go_on(inst) {
            return false;
        }
        units.left -= 1;
        units.used += 1;
        if listing.walk.sum() < least {
            continue 'closed;
        }
        if is_open(inst, kind, cycle, sizes, frame, listing) {
            return true;
        }
    }
    false
}

/// The load after the last one of a frame, by the listing beside it.
pub fn next_load(
    inst: &Instance,
    cycle: u64,
    frame: &OpenFrame,
    listing: &mut Listing,
) -> Option<Load>
    requires { IsBeside inst.now cycle frame.now listing.old }
    ensures none { IsNone result → (l : Pair) → IsLoad inst.now cycle frame.now.mode frame.now.set l
        → After inst.now frame.now.last l → ⊥ }
    ensures next { IfSome result (IsFollowing inst.now cycle frame.now.mode frame.now.set frame.now.last) }
    ensures beside { IfSome result (λ l. IsBeside inst.now cycle (with_last frame.now l) listing.new) }
{
    listing.walk.step(inst)
}
