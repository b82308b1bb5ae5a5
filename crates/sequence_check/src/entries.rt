//! The check of entries, each after those before it.
ghost use Rattle.std.specs.Prelude.{◌≡◌, ℕ, ◌<◌, ◌≤◌, List, length, take, slice_get, Some, sum, option_map};
ghost use Rattle.sequence_values.specs.declared.types.SeqEntry.{SeqEntry as Step};
ghost use Rattle.sequence_values.specs.declared.types.SeqWhy.TheVariants as why;
ghost use Rattle.sequence_check.specs.Walks.{AreBelow, AreCitable, IsPosed, Tells};
ghost use Rattle.sequence_check.specs.Faults.{cites_of, models_by, is_walked, is_open, IsCiteFor};
ghost use Rattle.sequence_check.specs.Faults.{IsPosedEntry, IsFoundBy, IsFound, IsChecked, IsRuledOut};
ghost use Rattle.sequence_rules.specs.Charges.{listed_charges};
ghost use Rattle.sequence_rules.specs.Ranges.{AreTimes, IsPlace, AreChargesIf, IsEntry};
ghost use Rattle.sequence_check.specs.Lists.{AreFound};

use crate::rows::walk_row;
use crate::types::{Checked, EntriesFound, SeqEntryChecked, SeqEntryFault, Walked};
use crate::walks::{first_late, walk};
use sequence_rules::{state_bound, units_left};
use sequence_values::{Numbers, SeqEntries, SeqEntry, SeqWhy, Times};

/// Checks an entry by Bound.
fn check_bound(times: &Times, interval: u64, reach: u64, entry: &SeqEntry) -> Checked<SeqEntryFault>
    requires posed { IsPosed times.now interval reach entry.now.rem entry.now.starts }
    ensures { (charges : List ℕ) (earlier : List Step) (steps : ℕ)
        → IsFoundBy times.now interval reach charges earlier entry.now why.Bound steps result }
{
    let bound = state_bound(
        times,
        interval,
        reach,
        entry.rem.as_slice(),
        entry.starts.as_slice(),
    );
    if bound < entry.least {
        return Checked::Fails {
            why: SeqEntryFault::Bound(bound),
            units: 0,
        };
    }
    Checked::Right { units: 0 }
}

/// Walks over the steps of an entry, or by Charge over a unit of each model; the entries below `k` may be cited.
fn walk_entry(
    times: &Times,
    interval: u64,
    reach: u64,
    charges: &[u64],
    entries: &SeqEntries,
    k: usize,
    entry: &SeqEntry,
    cites: &Numbers,
    steps: u64,
) -> Walked
    requires k { k ≤ length entries.now }
    requires posed { IsPosedEntry times.now interval reach charges.now entry.now }
    requires citable { AreCitable charges.now entries.now }
    requires some { 0 < sum entry.now.rem }
    requires cites { AreBelow cites.now k }
    ensures { Tells (is_open times.now interval reach charges.now entry.now entry.now.why)
        (IsCiteFor times.now interval reach charges.now (take k entries.now) entry.now entry.now.why) cites.now
        (is_walked entry.now entry.now.why) (models_by charges.now entry.now entry.now.why) steps result }
{
    let rem = entry.rem.as_slice();
    let starts = entry.starts.as_slice();
    match &entry.why {
        SeqWhy::Charge { .. } => walk_row(
            times, interval, reach, charges, entries, k, entry, cites, steps,
        ),
        SeqWhy::Bound | SeqWhy::Branch { .. } => walk(
            times,
            interval,
            reach,
            charges,
            entries,
            k,
            rem,
            starts,
            entry.least,
            cites,
            rem.len(),
            steps,
        ),
    }
}

/// Checks an entry with cites, by Branch or by Charge, after the first `k` entries.
fn check_cited(
    times: &Times,
    interval: u64,
    reach: u64,
    charges: &[u64],
    entries: &SeqEntries,
    k: usize,
    entry: &SeqEntry,
    cites: &Numbers,
    steps: u64,
) -> Checked<SeqEntryFault>
    requires k { k ≤ length entries.now }
    requires posed { IsPosedEntry times.now interval reach charges.now entry.now }
    requires few { sum entry.now.rem ≤ 16000 }
    requires citable { AreCitable charges.now entries.now }
    requires way { cites_of entry.now.why ≡ Some cites.now }
    ensures { IsFound times.now interval reach charges.now (take k entries.now) entry.now steps result }
{
    if units_left(entry.rem.as_slice()) == 0 {
        return Checked::Fails {
            why: SeqEntryFault::Empty,
            units: 0,
        };
    }
    if let Some(cite) = first_late(cites, k as u64) {
        return Checked::Fails {
            why: SeqEntryFault::Cite(cite),
            units: 0,
        };
    }
    match walk_entry(
        times, interval, reach, charges, entries, k, entry, cites, steps,
    ) {
        Walked::Through { units, taken } => {
            if taken < cites.len() {
                return Checked::Fails {
                    why: SeqEntryFault::Spare,
                    units,
                };
            }
            Checked::Right { units }
        }
        Walked::Uncovered { model, units } => Checked::Fails {
            why: SeqEntryFault::Uncovered(model),
            units,
        },
        Walked::StepsEnded => Checked::StepsEnded,
    }
}

/// Checks an entry after the first `k` entries of a list.
pub(crate) fn check_entry(
    times: &Times,
    interval: u64,
    reach: u64,
    charges: &[u64],
    entries: &SeqEntries,
    k: usize,
    entry: &SeqEntry,
    steps: u64,
) -> Checked<SeqEntryFault>
    requires k { k ≤ length entries.now }
    requires posed { IsPosedEntry times.now interval reach charges.now entry.now }
    requires few { sum entry.now.rem ≤ 16000 }
    requires citable { AreCitable charges.now entries.now }
    ensures { IsFound times.now interval reach charges.now (take k entries.now) entry.now steps result }
{
    match &entry.why {
        SeqWhy::Bound => check_bound(times, interval, reach, entry),
        SeqWhy::Branch { cites } => check_cited(
            times, interval, reach, charges, entries, k, entry, cites, steps,
        ),
        SeqWhy::Charge { cites } => check_cited(
            times, interval, reach, charges, entries, k, entry, cites, steps,
        ),
    }
}

/// Checks entries in order, each after those before it, up to the first that doesn't follow. At most `steps` steps are
/// walked.
pub(crate) fn check_entries(
    times: &Times,
    interval: u64,
    reach: u64,
    charges: &[u64],
    entries: &SeqEntries,
    steps: u64,
) -> EntriesFound
    requires posed { (k : ℕ) (e : Step) → slice_get entries.now k ≡ Some e
        → IsPosedEntry times.now interval reach charges.now e }
    requires citable { AreCitable charges.now entries.now }
    ensures { AreFound times.now interval reach charges.now entries.now steps result }
{
    let mut units: u64 = 0;
    for k in 0..entries.len() {
        match check_entry(
            times,
            interval,
            reach,
            charges,
            entries,
            k,
            entries.at(k),
            steps - units,
        ) {
            Checked::Right { units: more } => units += more,
            Checked::Fails { why, .. } => {
                return EntriesFound::Refused {
                    entry: k as u64,
                    why,
                };
            }
            Checked::StepsEnded => return EntriesFound::StepsEnded,
        }
    }
    EntriesFound::Right { units }
}

/// What is found of an entry after others.
fn check_after(
    times: &Times,
    interval: u64,
    reach: u64,
    charges: &[u64],
    before: &SeqEntries,
    entry: &SeqEntry,
    steps: u64,
) -> SeqEntryChecked
    requires posed { IsPosedEntry times.now interval reach charges.now entry.now }
    requires few { sum entry.now.rem ≤ 16000 }
    requires citable { AreCitable charges.now before.now }
    ensures checked { IsChecked times.now interval reach charges.now before.now entry.now steps result }
    ensures ruled_out { IsRuledOut times.now interval reach charges.now before.now entry.now steps result }
{
    let many = before.len();
    match check_entry(times, interval, reach, charges, before, many, entry, steps) {
        Checked::Right { units } => SeqEntryChecked::Right { units },
        Checked::Fails { units, .. } => SeqEntryChecked::Fails { units },
        Checked::StepsEnded => SeqEntryChecked::StepsEnded,
    }
}

/// Checks one entry after a list of entries, as if it stood at their end: whether it follows from them, with its units,
/// or that more than `steps` steps had to be walked.
///
/// `charges` has the charge of each model, 0 to 10^14, where there are entries by Charge. `interval` is the launch
/// interval and `reach` the length of each station, in the mix's time unit, 1 to 10^9. Nothing is asked of the earlier
/// entries but their ranges. Takes no memory, and time proportional to the steps times stations times models.
pub fn verify_seq_entry(
    times: &Times,
    interval: u64,
    reach: u64,
    charges: Option<&Numbers>,
    before: &SeqEntries,
    entry: &SeqEntry,
    steps: u64,
) -> SeqEntryChecked
    requires times { AreTimes times.now }
    requires interval { IsPlace interval }
    requires reach { IsPlace reach }
    requires charges { AreChargesIf (length times.now.demands) (option_map (λ c. c.now) charges) }
    requires before { (k : ℕ) (e : Step) → slice_get before.now k ≡ Some e
        → IsEntry (length times.now.demands) times.now.stations (option_map (λ c. c.now) charges) e }
    requires entry { IsEntry (length times.now.demands) times.now.stations (option_map (λ c. c.now) charges) entry.now }
    ensures checked { IsChecked times.now interval reach (listed_charges (option_map (λ c. c.now) charges.entry))
        before.now entry.now steps result }
    ensures ruled_out { IsRuledOut times.now interval reach (listed_charges (option_map (λ c. c.now) charges.entry))
        before.now entry.now steps result }
{
    match charges {
        Some(charges) => check_after(
            times,
            interval,
            reach,
            charges.as_slice(),
            before,
            entry,
            steps,
        ),
        None => check_after(times, interval, reach, &[], before, entry, steps),
    }
}
