//! The walk over the loads of a set, which takes a cite for each load that needs one.
//!
//! A load needs a cite only if it is full and the bound leaves its rest open. Such loads take the cites in their order.
//! The tests of a load go from cheap to dear: the total time of its rest, whether it is full, the bound of its rest.
//! The first is one comparison. The last asks heads and tails of the set's chained tasks alone, which the first load that
//! comes so far finds. Each load costs one unit, whatever it needs.
ghost use Rattle.std.specs.Prelude.{◌≡◌, ℕ, ◌-◌, ◌<◌, ◌≤◌, ◌↔◌, length, take, slice_get, Some, IsTrue, IsNone, IfSome};
ghost use Rattle.std.specs.Prelude.{true, false};
ghost use Rattle.line_instance.specs.Truths.{In};
ghost use Rattle.line_rules.specs.Loads.{IsLoad, rest};
ghost use Rattle.line_rules.specs.Bounds.{bound, IsChained};
ghost use Rattle.line_rules.specs.Entries.{IsOpen, Cites as Refutes};
ghost use Rattle.line_check.specs.Walks.{IsFirstLate, AreBelow, Tells};
ghost use Rattle.line_check.specs.inner.Steps.{AreChained, IsLacking, Takes};
ghost use Rattle.line_check.specs.Reaches.{TellsTo, HasEnded};
ghost use Rattle.check_loads.specs.inner.Posed.{IsPosed};
ghost use Rattle.check_loads.specs.Standing.{IsWalk, stand};

use crate::entries::is_same;
use crate::types::Walked;
use check_loads::bounds::{TOO_LONG, exceeds_of};
use check_loads::chains::chained_tasks;
use check_loads::loads::Walk;
use check_loads::questions::{Question, rest};
use check_loads::sizes::Times;
use line_instance::{Instance, TaskSet};
use line_rules::{Cites, Entries, LineKind, Load};

/// The first cite that isn't below `k`.
pub(crate) fn first_late(cites: &Cites, k: u64) -> Option<u64>
    ensures none { IsNone result → AreBelow cites.now k }
    ensures some { IfSome result (IsFirstLate cites.now k) }
{
    for p in 0..cites.len() {
        let cite = *cites.at(p);
        if cite >= k {
            return Some(cite);
        }
    }
    None
}

/// Whether the total time of the rest of the load alone shows that the bound of the rest is at least as many stations
/// as are asked for.
#[inline]
fn is_closed_by_time(inst: &Instance, q: &Question, walk: &Walk) -> bool
    requires posed { IsPosed inst.now q.now }
    requires walk { IsWalk inst.now q.now.cycle q.now.mode q.now.set walk.now }
    requires given { walk.now.given ≡ true }
    ensures closed { IsTrue result → q.now.most ≤ bound q.now.kind inst.now q.now.cycle
        (rest q.now.set (stand walk.now)) }
    ensures some { result ≡ false → 1 ≤ q.now.most }
{
    let _tasks = inst.tasks();
    if q.most == 0 {
        return true;
    }
    if q.most > TOO_LONG {
        return false;
    }
    if u128::from(q.times.total - walk.sum) <= q.room {
        return false;
    }
    true
}

/// The chained tasks of the question's set, for a station less than it asks for: none on a U-line. They are found where
/// no load has asked for them yet.
fn chained_for(inst: &Instance, q: &Question, chained: &mut Option<TaskSet>) -> TaskSet
    requires posed { IsPosed inst.now q.now }
    requires some { 1 ≤ q.now.most }
    requires chained { IfSome chained.old (AreChained inst.now q.now) }
    ensures chained { IfSome chained.new (AreChained inst.now q.now) }
    ensures all { (j : ℕ) → IsChained q.now.kind inst.now q.now.cycle q.now.set (q.now.most - 1) j → In result j }
{
    match q.kind {
        LineKind::U => return TaskSet::empty(),
        LineKind::Straight => {}
    }
    if let Some(found) = *chained {
        return found;
    }
    let found = chained_tasks(inst, q.cycle, &q.set, q.times, q.most - 1);
    *chained = Some(found);
    found
}

/// Whether the bound of the rest of the load is at least as many stations as are asked for. Heads and tails are looked at
/// of the chained tasks alone, of which the rest can have no others.
fn is_closed(inst: &Instance, q: &Question, walk: &Walk, chained: &TaskSet) -> bool
    requires posed { IsPosed inst.now q.now }
    requires walk { IsWalk inst.now q.now.cycle q.now.mode q.now.set walk.now }
    requires given { walk.now.given ≡ true }
    requires some { 1 ≤ q.now.most }
    requires chained { (j : ℕ) → IsChained q.now.kind inst.now q.now.cycle q.now.set (q.now.most - 1) j
        → In chained.now j }
    ensures { IsTrue result ↔ q.now.most ≤ bound q.now.kind inst.now q.now.cycle (rest q.now.set (stand walk.now)) }
{
    let _tasks = inst.tasks();
    let times = Times {
        total: q.times.total - walk.sum,
        longest: q.times.longest,
    };
    let left = rest(&q.set, &walk.load());
    exceeds_of(inst, q.kind, q.cycle, &left, times, chained, q.most - 1)
}

/// Whether the load is full and the bound leaves its rest open, so that it needs a cite.
fn is_open(inst: &Instance, q: &Question, walk: &Walk, chained: &mut Option<TaskSet>) -> bool
    requires posed { IsPosed inst.now q.now }
    requires walk { IsWalk inst.now q.now.cycle q.now.mode q.now.set walk.now }
    requires given { walk.now.given ≡ true }
    requires chained { IfSome chained.old (AreChained inst.now q.now) }
    ensures chained { IfSome chained.new (AreChained inst.now q.now) }
    ensures open { IsTrue result ↔ IsOpen q.now.kind inst.now q.now.cycle q.now.mode q.now.set q.now.most
        (stand walk.now) }
{
    if is_closed_by_time(inst, q, walk) {
        return false;
    }
    if !walk.is_full(inst, q) {
        return false;
    }
    let looked = chained_for(inst, q, chained);
    !is_closed(inst, q, walk, &looked)
}

/// Whether the entry `cite`, one of the first `k`, refutes a set in `most` stations at a cycle.
fn refutes(entries: &Entries, k: usize, cite: u64, rest: &TaskSet, most: u32, cycle: u64) -> bool
    requires cite { cite < k }
    requires k { k ≤ length entries.now }
    ensures { IsTrue result ↔ Refutes (take k entries.now) cite rest.now most cycle }
{
    let entry = entries.at(cite as usize);
    if !entry.set.is_subset(rest) {
        return false;
    }
    if entry.most < most {
        return false;
    }
    entry.cycle >= cycle
}

/// How many cites are taken with a load, of which `taken` are taken before it. None where the load needs a cite and
/// none is left, or where its cite doesn't refute its rest.
fn taken_with(
    inst: &Instance,
    q: &Question,
    entries: &Entries,
    k: usize,
    cites: &Cites,
    taken: usize,
    walk: &Walk,
    chained: &mut Option<TaskSet>,
) -> Option<usize>
    requires posed { IsPosed inst.now q.now }
    requires k { k ≤ length entries.now }
    requires cites { AreBelow cites.now k }
    requires taken { taken ≤ length cites.now }
    requires walk { IsWalk inst.now q.now.cycle q.now.mode q.now.set walk.now }
    requires given { walk.now.given ≡ true }
    requires chained { IfSome chained.old (AreChained inst.now q.now) }
    ensures chained { IfSome chained.new (AreChained inst.now q.now) }
    ensures open { IsNone result → IsOpen q.now.kind inst.now q.now.cycle q.now.mode q.now.set q.now.most
        (stand walk.now) }
    ensures lacking { IsNone result → IsLacking q.now.kind inst.now q.now.cycle q.now.mode q.now.set q.now.most
        (take k entries.now) cites.now (stand walk.now) taken }
    ensures some { IfSome result (Takes q.now.kind inst.now q.now.cycle q.now.mode q.now.set q.now.most
        (take k entries.now) cites.now (stand walk.now) taken) }
{
    if !is_open(inst, q, walk, chained) {
        return Some(taken);
    }
    if taken >= cites.len() {
        return None;
    }
    let left = rest(&q.set, &walk.load());
    if !refutes(entries, k, *cites.at(taken), &left, q.most - 1, q.cycle) {
        return None;
    }
    Some(taken + 1)
}

/// What a walk over so many loads tells at its end, when so many cites are taken.
pub(crate) fn ended(cites: &Cites, taken: usize, units: u64) -> Walked
    ensures { HasEnded cites.now taken units result }
{
    if taken < cites.len() {
        return Walked::Spare { units };
    }
    Walked::Right { units }
}

/// Walks over all loads of a question's set, and takes a cite for each that needs one.
pub(crate) fn walk_all(
    inst: &Instance,
    q: &Question,
    entries: &Entries,
    k: usize,
    cites: &Cites,
    steps: u64,
) -> Walked
    requires posed { IsPosed inst.now q.now }
    requires k { k ≤ length entries.now }
    requires cites { AreBelow cites.now k }
    ensures { Tells inst.now (IsLoad inst.now q.now.cycle q.now.mode q.now.set)
        (IsOpen q.now.kind inst.now q.now.cycle q.now.mode q.now.set q.now.most) (take k entries.now) q.now.set
        q.now.most q.now.cycle cites.now steps result }
{
    let _tasks = inst.tasks();
    let mut walk = Walk::begin(inst, q);
    let mut units: u64 = 0;
    let mut taken: usize = 0;
    let mut chained: Option<TaskSet> = None;
    'loads: loop {
        if !walk.step(inst, q) {
            return ended(cites, taken, units);
        }
        if units >= steps {
            return Walked::StepsEnded;
        }
        units += 1;
        match taken_with(inst, q, entries, k, cites, taken, &walk, &mut chained) {
            None => {
                return Walked::Uncovered {
                    load: walk.load(),
                    units,
                };
            }
            Some(more) => taken = more,
        }
    }
}

/// Whether the walk has come to a load.
#[inline]
fn is_at(walk: &Walk, load: &Load) -> bool
    ensures { IsTrue result ↔ stand walk.now ≡ load.now }
{
    if !is_same(&walk.front.tasks, &load.front) {
        return false;
    }
    is_same(&walk.back.tasks, &load.back)
}

/// Walks over the loads of a question's set up to and including `end`, and takes a cite for each that needs one: of the
/// deepest frame of a trail for the end too, and above it for those before the end alone.
pub(crate) fn walk_to(
    inst: &Instance,
    q: &Question,
    entries: &Entries,
    cites: &Cites,
    end: &Load,
    deepest: bool,
    steps: u64,
) -> Walked
    requires posed { IsPosed inst.now q.now }
    requires cites { AreBelow cites.now (length entries.now) }
    requires end { IsLoad inst.now q.now.cycle q.now.mode q.now.set end.now }
    ensures { TellsTo q.now.kind inst.now q.now.cycle q.now.mode q.now.set q.now.most entries.now cites.now end.now
        deepest steps result }
{
    let _tasks = inst.tasks();
    let mut walk = Walk::begin(inst, q);
    let mut units: u64 = 0;
    let mut taken: usize = 0;
    let mut chained: Option<TaskSet> = None;
    'loads: loop {
        if !walk.step(inst, q) {
            return Walked::Right { units };
        }
        if steps <= units {
            return Walked::StepsEnded;
        }
        units += 1;
        let ends = is_at(&walk, end);
        if ends && !deepest {
            return ended(cites, taken, units);
        }
        match taken_with(
            inst,
            q,
            entries,
            entries.len(),
            cites,
            taken,
            &walk,
            &mut chained,
        ) {
            None => {
                return Walked::Uncovered {
                    load: walk.load(),
                    units,
                };
            }
            Some(more) => taken = more,
        }
        if ends {
            return ended(cites, taken, units);
        }
    }
}
