//! Entries within their ranges.
ghost use Rattle.std.specs.Prelude.{◌↔◌, IsTrue};
ghost use Rattle.line_rules.specs.Ranges.{AreCites, AreEntries, IsEntry, IsWhy};

use crate::sets::{is_cycle, is_of};
use line_rules::{Cites, Entries, Entry, Why};

/// The most entries of a certificate.
const MAX_ENTRIES: usize = 20_000_000;

/// The most stations that an entry or a frame speaks of.
pub(crate) const MAX_STATIONS: u32 = 1024;

/// Whether there are at most 20,000,000 entries, each within its ranges beside the others.
pub(crate) fn are_entries(entries: &Entries, tasks: u32) -> bool
    ensures { IsTrue result ↔ AreEntries tasks entries.now }
{
    let count = entries.len();
    if count > MAX_ENTRIES {
        return false;
    }
    for k in 0..count {
        if !is_entry(entries.at(k), tasks, count) {
            return false;
        }
    }
    true
}

/// Whether an entry of a list of `count` entries is within its ranges.
fn is_entry(entry: &Entry, tasks: u32, count: usize) -> bool
    ensures { IsTrue result ↔ IsEntry tasks count entry.now }
{
    is_of(&entry.set, tasks)
        && entry.most <= MAX_STATIONS
        && is_cycle(entry.cycle)
        && is_why(&entry.why, tasks, count)
}

/// Whether a reason cites entries of a list of `count`, and names tasks of the line.
fn is_why(why: &Why, tasks: u32, count: usize) -> bool
    ensures { IsTrue result ↔ IsWhy tasks count why.now }
{
    match why {
        Why::Bound => true,
        Why::Branch { mode: _, cites } => are_cites(cites, count),
        Why::Swap {
            cite,
            out_task,
            in_task,
        } => *cite < count as u64 && *out_task < tasks && *in_task < tasks,
        Why::Pairs { two } => is_of(two.set(), tasks),
    }
}

/// Whether each cite is of one of `count` entries.
pub(crate) fn are_cites(cites: &Cites, count: usize) -> bool
    ensures { IsTrue result ↔ AreCites count cites.now }
{
    for p in 0..cites.len() {
        if *cites.at(p) >= count as u64 {
            return false;
        }
    }
    true
}
