//! What the entries of a book are: how many of them aren't by Bound, their units, and how far they refute all tasks.
//!
//! Entries are counted once, as the book gains them. The loads of an entry by Branch are listed once more for its
//! units. The lower bound takes one pass over the entries for each number of stations, and is made once.
ghost use Rattle.std.specs.Prelude.{◌≡◌, ◌+◌, ◌*◌, ◌≤◌, ◌<◌, ◌^◌, ℕ, length, take, drop, true, false};
ghost use Rattle.std.specs.Prelude.{slice_get, Some};
ghost use Rattle.line_rules.specs.Balance.{all_tasks};
ghost use Rattle.line_rules.specs.Entries.{Follows, IsDerived, HasAnswer};
ghost use Rattle.line_rules.specs.Ranges.{IsCycle};
ghost use Rattle.line_rules.specs.Units.{UnitsBy, UnitsOf};
ghost use Rattle.line_rules.specs.declared.types.Entry.{Entry as Said};
ghost use Rattle.line_rules.specs.declared.types.Why.TheVariants as why;
ghost use Rattle.lemma_core.specs.Own.{AreStatable};
ghost use Rattle.effic_search.specs.Counted.{IsCounted, bounds, by_bound, other};
ghost use Rattle.effic_search.specs.inner.Going.{EndsWith};
ghost use Rattle.effic_search.specs.Lowest.{IsGreatestRefuted, IsLowest};

use line_check::{EntryChecked, has_answer, verify_entry};
use line_instance::{Instance, TaskSet};
use line_rules::{Entries, Entry, LineKind, Why};

/// What the entries of a book are, but for those by Bound.
#[derive(Clone, Copy)]
pub(crate) struct Listed {
    /// How many there are.
    pub entries: u64,
    /// Their units.
    pub units: u64,
}

/// 1 for a reason other than Bound.
fn searched(why: &Why) -> u64
    ensures { result ≡ other why.now }
{
    match why {
        Why::Bound => 0,
        Why::Branch { .. } | Why::Swap { .. } | Why::Pairs { .. } => 1,
    }
}

/// The units of an entry that follows from others, at most `most`.
fn units_of(inst: &Instance, kind: LineKind, entries: &Entries, entry: &Entry, most: u64) -> u64
    requires follows { Follows kind inst.now entries.now entry.now }
    requires cycle { IsCycle entry.now.cycle }
    requires units { (units : ℕ) × UnitsBy inst.now entry.now entry.now.why units × (units ≤ most) }
    ensures units { UnitsBy inst.now entry.now entry.now.why result }
{
    if let Why::Bound = entry.why {
        return 0;
    }
    match verify_entry(inst, kind, entries, entry, most) {
        EntryChecked::Right { units } => units,
        EntryChecked::Fails { .. } | EntryChecked::StepsEnded => unreachable!(),
    }
}

/// What the entries of a derived list are, where the first `from` of them are counted, and the further ones have at
/// most `most` units.
pub(crate) fn counted(
    inst: &Instance,
    kind: LineKind,
    entries: &Entries,
    from: usize,
    listed: Listed,
    most: u64,
) -> Listed
    requires derived { IsDerived kind inst.now entries.now }
    requires statable { AreStatable entries.now }
    requires from { from ≤ length entries.now }
    requires counted { IsCounted inst.now entries.now from listed }
    requires few { length entries.now < 2 ^ 32 }
    requires small { listed.units + most < 2 ^ 63 }
    requires most { (units : ℕ) × UnitsOf inst.now (drop from entries.now) units × (units ≤ most) }
    ensures counted { IsCounted inst.now entries.now (length entries.now) result }
    ensures units { result.units ≤ listed.units + most }
{
    let mut all = listed;
    for k in from..entries.len() {
        let entry = entries.at(k);
        all = Listed {
            entries: all.entries + searched(&entry.why),
            units: all.units + units_of(inst, kind, entries, entry, most),
        };
    }
    all
}

/// 1 for the reason Bound.
fn bounded(why: &Why) -> u64
    ensures { result ≡ by_bound why.now }
{
    match why {
        Why::Bound => 1,
        Why::Branch { .. } | Why::Swap { .. } | Why::Pairs { .. } => 0,
    }
}

/// Whether an entry is by Bound, of other tasks than all.
fn is_stray(entry: &Entry, all: &TaskSet) -> bool
    ensures { result ≡ false → entry.now.why ≡ why.Bound → entry.now.set ≡ all.now }
{
    match entry.why {
        Why::Bound => entry.set != *all,
        Why::Branch { .. } | Why::Swap { .. } | Why::Pairs { .. } => false,
    }
}

/// Whether, from number `from` on, an entry by Bound isn't of all tasks, or more than so many are by Bound. One pass over
/// the entries from there on.
pub(crate) fn has_stray_bound(inst: &Instance, entries: &Entries, from: usize, most: u64) -> bool
    requires from { from ≤ length entries.now }
    ensures goals { result ≡ false → (k : ℕ) (e : Said) → from ≤ k → slice_get entries.now k ≡ Some e
        → e.why ≡ why.Bound → e.set ≡ all_tasks inst.now }
    ensures few { result ≡ false → bounds entries.now ≤ bounds (take from entries.now) + most }
{
    let all = inst.all();
    let mut found = 0;
    for k in from..entries.len() {
        let entry = entries.at(k);
        if is_stray(entry, &all) {
            return true;
        }
        found += bounded(&entry.why);
    }
    found > most
}

/// Whether an entry refutes all tasks in so many stations at a cycle, or the cycle is 0. One pass over the entries.
pub(crate) fn is_closed(inst: &Instance, entries: &Entries, stations: u32, cycle: u64) -> bool
    ensures closed { result ≡ true → 1 ≤ cycle → HasAnswer entries.now (all_tasks inst.now) stations cycle }
    ensures some { result ≡ false → 1 ≤ cycle }
    ensures left { result ≡ false → HasAnswer entries.now (all_tasks inst.now) stations cycle → ⊥ }
{
    if cycle == 0 {
        return true;
    }
    has_answer(entries, &inst.all(), u64::from(stations), cycle)
}

/// Whether the last entry is of all tasks.
pub(crate) fn ends_with_all(inst: &Instance, entries: &Entries) -> bool
    ensures { result ≡ true → EndsWith entries.now (all_tasks inst.now) }
{
    let count = entries.len();
    if count == 0 {
        return false;
    }
    entries.at(count - 1).set == inst.all()
}

/// Whether an entry is of all tasks, from the one of number `from` on.
pub(crate) fn has_all_from(inst: &Instance, entries: &Entries, from: usize) -> bool
    ensures { result ≡ false → (k : ℕ) (e : Said) → from ≤ k → slice_get entries.now k ≡ Some e
        → e.set ≡ all_tasks inst.now → ⊥ }
{
    let all = inst.all();
    for k in from..entries.len() {
        if entries.at(k).set == all {
            return true;
        }
    }
    false
}

/// The greatest cycle at which an entry refutes all tasks in so many stations, 0 for none. One pass over the entries.
fn greatest_refuted(inst: &Instance, entries: &Entries, stations: u32) -> u64
    ensures { IsGreatestRefuted inst.now entries.now stations result }
{
    let all = inst.all();
    let mut greatest = 0;
    for k in 0..entries.len() {
        let entry = entries.at(k);
        if entry.most < stations || entry.cycle <= greatest {
            continue;
        }
        if entry.set == all {
            greatest = entry.cycle;
        }
    }
    greatest
}

/// The lower bound that entries show on the product in `least` to `most` stations, where a balance has the product
/// `upper`.
pub(crate) fn lowest(inst: &Instance, entries: &Entries, least: u32, most: u32, upper: u128) -> u128
    requires order { least ≤ most }
    requires few { most ≤ 1024 }
    ensures { IsLowest inst.now entries.now least (most + 1) upper result }
{
    let mut lower = upper;
    for stations in least..most + 1 {
        let cycle = greatest_refuted(inst, entries, stations);
        lower = lower.min(u128::from(stations) * (u128::from(cycle) + 1));
    }
    lower
}
