//! The walk over a unit of each model from the starts of an entry by Charge, which takes a cite for each unit whose
//! charged cost is below the base.
//!
//! A unit takes time proportional to the stations.
ghost use Rattle.std.specs.Prelude.{◌≡◌, ℕ, ◌<◌, ◌≤◌, ◌↔◌, length, take, slice_get, Some, true, IsTrue, IsNone, IfSome};
ghost use Rattle.sequence_values.specs.declared.types.SeqEntry.{SeqEntry as Step};
ghost use Rattle.sequence_rules.specs.Entries.{row_units, IsServed, is_light};
ghost use Rattle.sequence_check.specs.Walks.{AreBelow, IsPosedRow, AreCitable, ServesUnit, Takes, Lacks, Tells};

use crate::types::Walked;
use sequence_rules::{MAX_STATIONS, serves, unit_cost, units_left};
use sequence_values::{Numbers, SeqEntries, SeqEntry, Times};

/// Whether the entry of a number serves so many units from these starts and a need.
fn is_served(entries: &SeqEntries, cite: usize, units: u64, starts: &[u64], need: u64) -> bool
    requires cite { cite < length entries.now }
    requires rows { (k : ℕ) (e : Step) → slice_get entries.now k ≡ Some e → row_units e ≤ 16000 }
    ensures { IsTrue result ↔ IsServed entries.now cite units starts.now need }
{
    serves(entries.at(cite), units, starts, need)
}

/// How many cites are taken with a unit of a model, of which `taken` are taken before it; the entries below `k` may be
/// cited. None where the unit needs a cite and none is left, or where its cite doesn't serve it.
fn taken_with(
    times: &Times,
    interval: u64,
    reach: u64,
    charges: &[u64],
    entries: &SeqEntries,
    k: usize,
    entry: &SeqEntry,
    cites: &Numbers,
    taken: usize,
    model: usize,
) -> Option<usize>
    requires posed { IsPosedRow times.now reach charges.now entry.now }
    requires citable { AreCitable charges.now entries.now }
    requires some { 0 < row_units entry.now }
    requires k { k ≤ length entries.now }
    requires cites { AreBelow cites.now k }
    requires taken { taken ≤ length cites.now }
    requires model { model < length charges.now }
    ensures none { IsNone result → Lacks (is_light times.now reach charges.now entry.now.starts entry.now.least)
        (ServesUnit times.now interval reach charges.now (take k entries.now) entry.now) cites.now model taken }
    ensures some { IfSome result (Takes (is_light times.now reach charges.now entry.now.starts entry.now.least)
        (ServesUnit times.now interval reach charges.now (take k entries.now) entry.now) cites.now model taken) }
{
    let starts = entry.starts.as_slice();
    let mut nexts = [0; MAX_STATIONS];
    let next = &mut nexts[..starts.len()];
    let cost = unit_cost(times, interval, reach, charges, model, starts, next);
    if cost >= entry.least {
        return Some(taken);
    }
    if taken >= cites.len() {
        return None;
    }
    let rest = units_left(entry.rem.as_slice()) - 1;
    let cite = *cites.at(taken) as usize;
    if !is_served(entries, cite, rest, next, entry.least - cost) {
        return None;
    }
    Some(taken + 1)
}

/// Walks over a unit of each model, and takes a cite for each that needs one; the entries below `k` may be cited. Each
/// unit is a step, and at most `steps` steps are walked.
pub(crate) fn walk_row(
    times: &Times,
    interval: u64,
    reach: u64,
    charges: &[u64],
    entries: &SeqEntries,
    k: usize,
    entry: &SeqEntry,
    cites: &Numbers,
    steps: u64,
) -> Walked
    requires posed { IsPosedRow times.now reach charges.now entry.now }
    requires citable { AreCitable charges.now entries.now }
    requires some { 0 < row_units entry.now }
    requires k { k ≤ length entries.now }
    requires cites { AreBelow cites.now k }
    ensures { Tells (is_light times.now reach charges.now entry.now.starts entry.now.least)
        (ServesUnit times.now interval reach charges.now (take k entries.now) entry.now) cites.now (λ model. true)
        (length charges.now) steps result }
{
    let mut taken: usize = 0;
    for model in 0..charges.len() {
        if model as u64 >= steps {
            return Walked::StepsEnded;
        }
        match taken_with(
            times, interval, reach, charges, entries, k, entry, cites, taken, model,
        ) {
            None => {
                return Walked::Uncovered {
                    model: model as u32,
                    units: model as u64 + 1,
                };
            }
            Some(more) => taken = more,
        }
    }
    Walked::Through {
        units: charges.len() as u64,
        taken,
    }
}
