//! The check of one entry after others: whether it follows from them in the way that it says.
//!
//! An entry gives one of four reasons. A Bound costs one bound of its set, a Swap a few operations on sets, and Pairs a
//! look at each two of a few tasks; none of these walks a load. A Branch costs one unit for each load of its set. The
//! faults are looked for in a fixed order, so a wrong entry has one fault.
ghost use Rattle.std.specs.Prelude.{◌≡◌, ℕ, ◌<◌, ◌≤◌, ◌↔◌, List, length, take, slice_get, Some, IsTrue};
ghost use Rattle.line_instance.specs.Truths.{In};
ghost use Rattle.line_instance.specs.Line.{IsTaskSet, tasks, has};
ghost use Rattle.line_rules.specs.Loads.{Belongs};
ghost use Rattle.line_rules.specs.Ranges.{IsCycle};
ghost use Rattle.line_rules.specs.declared.types.Why.TheVariants as why;
ghost use Rattle.line_rules.specs.declared.types.Entry.{Entry as Step};
ghost use Rattle.line_rules.specs.declared.types.LineKind.{LineKind as Kind};
ghost use Rattle.line_check.specs.Faults.{IsFound, IsChecked};
ghost use Rattle.line_check.specs.inner.Swaps.{StandsFor, IsSwapped};

use crate::types::{Checked, EntryChecked, EntryFault, Walked};
use crate::walks::{first_late, walk_all};
use check_loads::bounds::{bound, exceeds};
use check_loads::questions::{Question, room};
use check_loads::sizes::times_in;
use line_instance::{Instance, TaskSet};
use line_rules::{BoxedSet, Cites, Entries, Entry, LineKind, Mode, Why};
use pair_rule::pairs_hold;

/// Whether the mode belongs to the kind of line.
pub(crate) fn belongs(kind: LineKind, mode: Mode) -> bool
    ensures { IsTrue result ↔ Belongs kind mode }
{
    match (kind, mode) {
        (LineKind::Straight, Mode::Fore) => true,
        (LineKind::Straight, Mode::Back) => true,
        (LineKind::U, Mode::Both) => true,
        _ => false,
    }
}

/// Whether what a set has in common with one row, it has in common with another.
pub(crate) fn is_met(set: &TaskSet, row: &TaskSet, other: &TaskSet) -> bool
    ensures { IsTrue result ↔ ((i : ℕ) → In set.now i → In row.now i → In other.now i) }
{
    set.meet(row).is_subset(other)
}

/// Whether two sets have the same tasks.
pub(crate) fn is_same(set: &TaskSet, other: &TaskSet) -> bool
    ensures { IsTrue result ↔ set.now ≡ other.now }
{
    set == other
}

/// Whether a task can stand for another one in the set: it is no longer, and bound by no more.
fn stands_for(inst: &Instance, set: &TaskSet, out_task: u32, in_task: u32) -> bool
    requires out { out_task < tasks inst.now }
    requires into { in_task < tasks inst.now }
    ensures { IsTrue result ↔ StandsFor inst.now set.now out_task in_task }
{
    if inst.time(in_task) > inst.time(out_task) {
        return false;
    }
    if !is_met(set, inst.before(in_task), inst.before(out_task)) {
        return false;
    }
    if !is_met(set, inst.after(in_task), inst.after(out_task)) {
        return false;
    }
    is_met(set, inst.apart(in_task), inst.apart(out_task))
}

/// Whether an entry follows by Swap from the one that it cites.
fn is_swapped(inst: &Instance, entry: &Entry, cited: &Entry, out_task: u32, in_task: u32) -> bool
    requires set { IsTaskSet inst.now entry.now.set }
    ensures { IsTrue result ↔ IsSwapped inst.now entry.now cited.now out_task in_task }
{
    let tasks = inst.tasks();
    if out_task >= tasks || in_task >= tasks {
        return false;
    }
    if !entry.set.has(out_task) || entry.set.has(in_task) {
        return false;
    }
    if cited.most < entry.most || cited.cycle < entry.cycle {
        return false;
    }
    if !is_same(&cited.set, &entry.set.without(out_task).with(in_task)) {
        return false;
    }
    stands_for(inst, &cited.set, out_task, in_task)
}

/// Checks an entry by Bound.
fn check_bound(inst: &Instance, kind: LineKind, entry: &Entry) -> Checked<EntryFault>
    requires set { IsTaskSet inst.now entry.now.set }
    requires cycle { IsCycle entry.now.cycle }
    requires way { entry.now.why ≡ why.Bound }
    ensures { (earlier : List Step) (steps : ℕ) → IsFound kind inst.now earlier entry.now steps result }
{
    let times = times_in(inst, &entry.set);
    if exceeds(inst, kind, entry.cycle, &entry.set, times, entry.most) {
        return Checked::Right { units: 0 };
    }
    Checked::Fails {
        why: EntryFault::Bound(bound(inst, kind, entry.cycle, &entry.set, times)),
        units: 0,
    }
}

/// Checks an entry by Branch, after the first `k` entries.
fn check_branch(
    inst: &Instance,
    kind: LineKind,
    entries: &Entries,
    k: usize,
    entry: &Entry,
    mode: Mode,
    cites: &Cites,
    steps: u64,
) -> Checked<EntryFault>
    requires k { k ≤ length entries.now }
    requires set { IsTaskSet inst.now entry.now.set }
    requires cycle { IsCycle entry.now.cycle }
    requires way { entry.now.why ≡ why.Branch mode cites.now }
    ensures { IsFound kind inst.now (take k entries.now) entry.now steps result }
{
    if !belongs(kind, mode) {
        return Checked::Fails {
            why: EntryFault::Mode,
            units: 0,
        };
    }
    if entry.most == 0 || entry.set.is_empty() {
        return Checked::Fails {
            why: EntryFault::Most,
            units: 0,
        };
    }
    if let Some(cite) = first_late(cites, k as u64) {
        return Checked::Fails {
            why: EntryFault::Cite(cite),
            units: 0,
        };
    }
    let question = Question {
        kind,
        set: entry.set,
        most: entry.most,
        cycle: entry.cycle,
        mode,
        times: times_in(inst, &entry.set),
        room: room(entry.most, entry.cycle),
    };
    match walk_all(inst, &question, entries, k, cites, steps) {
        Walked::Right { units } => Checked::Right { units },
        Walked::Uncovered { load, units } => Checked::Fails {
            why: EntryFault::Uncovered(load),
            units,
        },
        Walked::Spare { units } => Checked::Fails {
            why: EntryFault::Spare,
            units,
        },
        Walked::StepsEnded => Checked::StepsEnded,
    }
}

/// Checks an entry by Swap, after the first `k` entries.
fn check_swap(
    inst: &Instance,
    entries: &Entries,
    k: usize,
    entry: &Entry,
    cite: u64,
    out_task: u32,
    in_task: u32,
) -> Checked<EntryFault>
    requires k { k ≤ length entries.now }
    requires set { IsTaskSet inst.now entry.now.set }
    requires cycle { IsCycle entry.now.cycle }
    requires way { entry.now.why ≡ why.Swap cite out_task in_task }
    ensures { (kind : Kind) (steps : ℕ) → IsFound kind inst.now (take k entries.now) entry.now steps result }
{
    if cite >= k as u64 {
        return Checked::Fails {
            why: EntryFault::Cite(cite),
            units: 0,
        };
    }
    if is_swapped(inst, entry, entries.at(cite as usize), out_task, in_task) {
        return Checked::Right { units: 0 };
    }
    Checked::Fails {
        why: EntryFault::Swap,
        units: 0,
    }
}

/// Checks an entry by Pairs.
fn check_pairs(
    inst: &Instance,
    kind: LineKind,
    entry: &Entry,
    two: &BoxedSet,
) -> Checked<EntryFault>
    requires set { IsTaskSet inst.now entry.now.set }
    requires cycle { IsCycle entry.now.cycle }
    requires way { entry.now.why ≡ why.Pairs two.now }
    ensures { (earlier : List Step) (steps : ℕ) → IsFound kind inst.now earlier entry.now steps result }
{
    if pairs_hold(inst, kind, entry.cycle, &entry.set, entry.most, two.set()) {
        return Checked::Right { units: 0 };
    }
    Checked::Fails {
        why: EntryFault::Pairs,
        units: 0,
    }
}

/// Checks an entry after the first `k` entries of a list: whether it follows from them, or the first thing that is
/// wrong with it, with the number of loads that were walked; or that more than `steps` loads had to be walked. Takes no
/// memory.
pub fn check_entry(
    inst: &Instance,
    kind: LineKind,
    entries: &Entries,
    k: usize,
    entry: &Entry,
    steps: u64,
) -> Checked<EntryFault>
    requires k { k ≤ length entries.now }
    requires set { IsTaskSet inst.now entry.now.set }
    requires cycle { IsCycle entry.now.cycle }
    ensures { IsFound kind inst.now (take k entries.now) entry.now steps result }
{
    match &entry.why {
        Why::Bound => check_bound(inst, kind, entry),
        Why::Branch { mode, cites } => {
            check_branch(inst, kind, entries, k, entry, *mode, cites, steps)
        }
        Why::Swap {
            cite,
            out_task,
            in_task,
        } => check_swap(inst, entries, k, entry, *cite, *out_task, *in_task),
        Why::Pairs { two } => check_pairs(inst, kind, entry, two),
    }
}

/// Checks one entry after a list of entries, as if it stood at their end: whether it follows from them, with the number
/// of loads that were walked, or that more than `steps` loads had to be walked. Takes no memory.
pub fn verify_entry(
    inst: &Instance,
    kind: LineKind,
    entries: &Entries,
    entry: &Entry,
    steps: u64,
) -> EntryChecked
    requires set { IsTaskSet inst.now entry.now.set }
    requires cycle { IsCycle entry.now.cycle }
    ensures { IsChecked kind inst.now entries.now entry.now steps result }
{
    match check_entry(inst, kind, entries, entries.len(), entry, steps) {
        Checked::Right { units } => EntryChecked::Right { units },
        Checked::Fails { units, .. } => EntryChecked::Fails { units },
        Checked::StepsEnded => EntryChecked::StepsEnded,
    }
}
