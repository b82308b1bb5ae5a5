//! The walk over the steps of a state, which takes a cite for each step that needs one.
ghost use Rattle.std.specs.Prelude.{◌≡◌, ◌-◌, ◌<◌, ◌≤◌, length, take, slice_index, true, false};
ghost use Rattle.std.specs.Prelude.{IsNone, IfSome};
ghost use Rattle.sequence_rules.specs.States.{step_cost, next_starts, less_one};
ghost use Rattle.sequence_rules.specs.Entries.{is_left, needs_cite};
ghost use Rattle.sequence_check.specs.Walks.{IsFirstLate, AreBelow, IsPosed, AreCitable, AnswersStep};
ghost use Rattle.sequence_check.specs.Walks.{Takes, Lacks, Tells};

use crate::types::Walked;
use sequence_rules::{MAX_MODELS, MAX_STATIONS, answers, launch, state_bound, step};
use sequence_values::{Numbers, SeqEntries, Times};

/// The first cite that isn't below `k`.
pub(crate) fn first_late(cites: &Numbers, k: u64) -> Option<u64>
    ensures none { IsNone result → AreBelow cites.now k }
    ensures some { IfSome result (IsFirstLate cites.now k) }
{
    for p in 0..cites.len() {
        let cite = *cites.at(p);
        if cite >= k {
            return Some(cite);
        }
    }
    None
}

/// Writes the state after the step by a model, and answers what the step leaves of the need, where it needs a cite.
fn open_need(
    times: &Times,
    interval: u64,
    reach: u64,
    rem: &[u64],
    starts: &[u64],
    need: u64,
    model: usize,
    left: &mut [u64],
    next: &mut [u64],
) -> Option<u64>
    requires posed { IsPosed times.now interval reach rem.now starts.now }
    requires model { model < length rem.now }
    requires some { 0 < slice_index rem.now model }
    requires left { length left.old ≡ length rem.now }
    requires next { length next.old ≡ length starts.now }
    ensures left { left.new ≡ less_one rem.now model }
    ensures next { next.new ≡ next_starts times.now interval reach model starts.now }
    ensures none { IsNone result → needs_cite times.now interval reach rem.now starts.now need model ≡ false }
    ensures needs { IfSome result (λ rest. needs_cite times.now interval reach rem.now starts.now need model ≡ true) }
    ensures rest { IfSome result (λ rest. rest ≡ need - step_cost times.now reach model starts.now) }
{
    launch(rem, model, left);
    let cost = step(times, interval, reach, model, starts, next);
    if cost >= need {
        return None;
    }
    let rest = need - cost;
    if state_bound(times, interval, reach, left, next) >= rest {
        return None;
    }
    Some(rest)
}

/// How many cites are taken with the step by a model, of which `taken` are taken before it; the entries below `k` may
/// be cited. None where the step needs a cite and none is left, or where its cite doesn't answer it.
fn taken_with(
    times: &Times,
    interval: u64,
    reach: u64,
    charges: &[u64],
    entries: &SeqEntries,
    k: usize,
    rem: &[u64],
    starts: &[u64],
    need: u64,
    cites: &Numbers,
    taken: usize,
    model: usize,
) -> Option<usize>
    requires posed { IsPosed times.now interval reach rem.now starts.now }
    requires citable { AreCitable charges.now entries.now }
    requires k { k ≤ length entries.now }
    requires cites { AreBelow cites.now k }
    requires taken { taken ≤ length cites.now }
    requires model { model < length rem.now }
    requires some { 0 < slice_index rem.now model }
    ensures none { IsNone result → Lacks (needs_cite times.now interval reach rem.now starts.now need)
        (AnswersStep times.now interval reach charges.now (take k entries.now) rem.now starts.now need) cites.now model
        taken }
    ensures some { IfSome result (Takes (needs_cite times.now interval reach rem.now starts.now need)
        (AnswersStep times.now interval reach charges.now (take k entries.now) rem.now starts.now need) cites.now model
        taken) }
{
    let mut lefts = [0; MAX_MODELS];
    let mut nexts = [0; MAX_STATIONS];
    let left = &mut lefts[..rem.len()];
    let next = &mut nexts[..starts.len()];
    let Some(rest) = open_need(times, interval, reach, rem, starts, need, model, left, next) else {
        return Some(taken);
    };
    if taken >= cites.len() {
        return None;
    }
    let cited = entries.at(*cites.at(taken) as usize);
    if !answers(charges, cited, left, next, rest) {
        return None;
    }
    Some(taken + 1)
}

/// Walks over the steps by the models below `n`, and takes a cite for each that needs one; the entries below `k` may be
/// cited. At most `steps` steps are walked.
pub(crate) fn walk(
    times: &Times,
    interval: u64,
    reach: u64,
    charges: &[u64],
    entries: &SeqEntries,
    k: usize,
    rem: &[u64],
    starts: &[u64],
    need: u64,
    cites: &Numbers,
    n: usize,
    steps: u64,
) -> Walked
    requires posed { IsPosed times.now interval reach rem.now starts.now }
    requires citable { AreCitable charges.now entries.now }
    requires k { k ≤ length entries.now }
    requires cites { AreBelow cites.now k }
    requires n { n ≤ length rem.now }
    ensures { Tells (needs_cite times.now interval reach rem.now starts.now need)
        (AnswersStep times.now interval reach charges.now (take k entries.now) rem.now starts.now need) cites.now
        (is_left rem.now) n steps result }
{
    let mut units: u64 = 0;
    let mut taken: usize = 0;
    for model in 0..n {
        if rem[model] == 0 {
            continue;
        }
        if units >= steps {
            return Walked::StepsEnded;
        }
        units += 1;
        match taken_with(
            times, interval, reach, charges, entries, k, rem, starts, need, cites, taken, model,
        ) {
            None => {
                return Walked::Uncovered {
                    model: model as u32,
                    units,
                };
            }
            Some(more) => taken = more,
        }
    }
    Walked::Through { units, taken }
}
