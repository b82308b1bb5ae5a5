//! The entries of a certificate, checked in batches side by side.
//!
//! A batch is walked side by side, and then gone over in order, where the units are added up and the first fault is
//! found. So the answer is that of the check in order. An entry that isn't decided within 65,536 loads is walked again
//! in its turn, with the steps that are left. So no more than a batch is walked beyond the steps.
ghost use Rattle.std.specs.Prelude.{◌≡◌, ◌<◌, ◌≤◌, ◌-◌, ◌+◌, IfOk, length};
ghost use Rattle.line_instance.specs.Line.{tasks};
ghost use Rattle.line_rules.specs.Ranges.{AreEntries};
ghost use Rattle.line_check.specs.Lists.{AreFound, AreRightBelow};
ghost use Rattle.wide_check.specs.inner.Batches.{IsFoundAt, AreChecked, AreFoundTo};

use line_check::{Checked, EntryFault, ListFound, check_entry};
use line_instance::Instance;
use line_rules::{Entries, LineKind};
use rayon::prelude::*;
use std::alloc::{AllocError, Global};
use std::thread::Threads;

/// How many entries are checked side by side: many for each thread, so that few threads wait at the end of a batch.
/// With `QUICK` it limits what is walked in vain after an entry that is refused.
const BATCH: usize = 4096;

/// The most loads that an entry is walked for beside others. One that needs more is walked alone, in order.
const QUICK: u64 = 65_536;

/// Checks the entry of number `k` after those before it.
fn entry_found(
    inst: &Instance,
    kind: LineKind,
    entries: &Entries,
    k: usize,
    steps: u64,
) -> Checked<EntryFault>
    requires range { AreEntries (tasks inst.now) entries.now }
    requires k { k < length entries.now }
    ensures { IsFoundAt kind inst.now entries.now k steps result }
{
    check_entry(inst, kind, entries, k, entries.at(k), steps)
}

/// Checks the entries from number `from` up to below `to` side by side, each for a few loads.
fn batch_found<R: Threads + Sync>(
    rt: &R,
    alloc: Global,
    inst: &Instance,
    kind: LineKind,
    entries: &Entries,
    from: usize,
    to: usize,
) -> Result<Vec<Checked<EntryFault>>, AllocError>
    requires range { AreEntries (tasks inst.now) entries.now }
    requires from { from ≤ to }
    requires to { to ≤ length entries.now }
    ensures { IfOk result (λ v. AreChecked kind inst.now entries.now from to 65536 v.items) }
{
    (from..to)
        .into_par_iter()
        .with_min_len(1)
        .map(
            |k: usize| -> Checked<EntryFault>
                requires { (k < length entries.now) × AreEntries (tasks inst.now) entries.now }
                ensures { IsFoundAt kind inst.entry.now entries.entry.now k 65536 result }
            { entry_found(inst, kind, entries, k, QUICK) },
        )
        .collect(rt, alloc)
}

/// What is found of an entry with so many loads left, from what was found of it in a few loads: where these don't
/// decide, it is walked again.
fn settled(
    inst: &Instance,
    kind: LineKind,
    entries: &Entries,
    k: usize,
    quick: Checked<EntryFault>,
    left: u64,
) -> Checked<EntryFault>
    requires range { AreEntries (tasks inst.now) entries.now }
    requires k { k < length entries.now }
    requires quick { IsFoundAt kind inst.now entries.now k 65536 quick }
    ensures { IsFoundAt kind inst.now entries.now k left result }
{
    match quick {
        Checked::Right { units } if units <= left => quick,
        Checked::Fails { units, .. } if units <= left => quick,
        _ => entry_found(inst, kind, entries, k, left),
    }
}

/// What is found of the entries up to the end of a batch, in their order, when those before it have so many units.
fn gone_over(
    inst: &Instance,
    kind: LineKind,
    entries: &Entries,
    from: usize,
    to: usize,
    quick: &[Checked<EntryFault>],
    steps: u64,
    before: u64,
) -> ListFound
    requires range { AreEntries (tasks inst.now) entries.now }
    requires from { from ≤ to }
    requires to { to ≤ length entries.now }
    requires quick { AreChecked kind inst.now entries.now from to 65536 quick.now }
    requires below { AreRightBelow kind inst.now entries.now from before }
    requires few { before ≤ steps }
    ensures { AreFoundTo kind inst.now entries.now steps to result }
{
    let mut units = before;
    for k in from..to {
        match settled(inst, kind, entries, k, quick[k - from], steps - units) {
            Checked::Right { units: more } => units += more,
            Checked::Fails { why, .. } => {
                return ListFound::Refused {
                    entry: k as u64,
                    why,
                };
            }
            Checked::StepsEnded => return ListFound::StepsEnded,
        }
    }
    ListFound::Right { units }
}

/// What is found of entries that are in their ranges, each after those before it, with at most so many steps: they are
/// checked batch by batch, side by side in a batch. For callers that check the rest of a list themselves.
pub fn entries_found<R: Threads + Sync>(
    rt: &R,
    alloc: Global,
    inst: &Instance,
    kind: LineKind,
    entries: &Entries,
    steps: u64,
) -> Result<ListFound, AllocError>
    requires range { AreEntries (tasks inst.now) entries.now }
    ensures { IfOk result (AreFound kind inst.now entries.now steps) }
{
    let mut units = 0;
    let mut from = 0;
    while from < entries.len() {
        let to = entries.len().min(from + BATCH);
        let quick = batch_found(rt, alloc, inst, kind, entries, from, to)?;
        match gone_over(inst, kind, entries, from, to, &quick, steps, units) {
            ListFound::Right { units: sum } => units = sum,
            ListFound::Refused { entry, why } => return Ok(ListFound::Refused { entry, why }),
            ListFound::StepsEnded => return Ok(ListFound::StepsEnded),
        }
        from = to;
    }
    Ok(ListFound::Right { units })
}
