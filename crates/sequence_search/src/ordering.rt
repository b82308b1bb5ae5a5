//! The search for a sequence of least utility work, try by try.
//!
//! It begins with a first sequence and with entries that are kept, which may be none. Each try halves the room between
//! the bounds, or finds a sequence that does.
ghost use Rattle.std.specs.Prelude.{◌≡◌, ℕ, ◌+◌, ◌≤◌, ◌<◌, ◌++◌, List, length, replicate, sum, All, IfOk, OnOk};
ghost use Rattle.std.specs.Prelude.{slice_get, Some};
ghost use Rattle.sequence_rules.specs.States.{IsSequenceOf, state_bound, cost, root_starts};
ghost use Rattle.sequence_rules.specs.Charges.{listed_charges};
ghost use Rattle.sequence_rules.specs.Entries.{HasAnswer, IsDerived, row_units, units_of, entry_units, models_left};
ghost use Rattle.sequence_rules.specs.Ranges.{AreTimes, IsPlace, IsEntry, AreChargesIf};
ghost use Rattle.sequence_values.specs.declared.types.SeqEntry.{SeqEntry as Step};
ghost use Rattle.sequence_search.specs.About.{About, charges_of};
ghost use Rattle.sequence_search.specs.inner.Paths.{IsBook};
ghost use Rattle.sequence_search.specs.Outcomes.{model_order, Orders, OrdersFrom, IsRaised, IsStanding, cert_of};

use crate::book::Book;
use crate::frames::root_frame;
use crate::outcome::{Ordered, Tried};
use crate::trying::attempt;
use sequence_rules::{answered_need, listed_charges, sequence_cost, state_bound};
use sequence_values::{Numbers, SeqCert, SeqEntries, SeqEntry, SeqFrame, SeqFrames, SeqWhy, Times};
use std::alloc::{AllocError, Global};

/// Where a search is between two tries.
#[derive(Drop)]
struct Standing {
    charges: Option<Numbers>,
    lower: u64,
    upper: u64,
    sequence: Numbers,
    entries: Book,
}

/// Puts so many units of a model at the end of a sequence.
fn push_units(sequence: &mut Vec<u64>, model: u64, count: u64) -> Result<(), AllocError>
    ensures { OnOk result (sequence.new.items ≡ sequence.old.items ++ replicate count model) }
{
    for k in 0..count {
        let _so_far = k;
        sequence.push(model)?;
    }
    Ok(())
}

/// The sequence in the order of the models: each as often as it is wanted. An error where memory is wanting.
pub fn model_order(alloc: Global, demands: &[u64]) -> Result<Numbers, AllocError>
    ensures is { IfOk result (λ v. IsSequenceOf demands.now v) }
    ensures order { IfOk result (λ v. v ≡ model_order demands.now) }
{
    let mut sequence = Vec::new(alloc);
    for m in 0..demands.len() {
        push_units(&mut sequence, m as u64, demands[m])?;
    }
    Ok(Numbers::from_vec(sequence))
}

/// The greatest need of the root that an entry answers, or 0. One pass over the entries.
fn shown_need(charges: &[u64], entries: &SeqEntries, rem: &[u64], starts: &[u64]) -> u64
    requires limit { All (λ a. a ≤ 100000000000000) charges.now }
    requires few { sum rem.now ≤ 16000 }
    requires rows { (k : ℕ) (e : Step) → slice_get entries.now k ≡ Some e → row_units e ≤ 16000 }
    ensures shown { 0 < result → HasAnswer charges.now entries.now rem.now starts.now result }
    ensures most { (need : ℕ) → HasAnswer charges.now entries.now rem.now starts.now need → need ≤ result }
{
    let mut most = 0;
    for k in 0..entries.len() {
        most = most.max(answered_need(charges, entries.at(k), rem, starts));
    }
    most
}

/// The lower bound to begin with, and the kept entries; behind them one of the root by Bound, where that alone shows the
/// lower bound.
fn root_entries(
    alloc: Global,
    times: &Times,
    interval: u64,
    reach: u64,
    charges: &[u64],
    kept: &SeqEntries,
) -> Result<(u64, Book), AllocError>
    ghost about: { About }
    requires times { AreTimes times.now }
    requires interval { IsPlace interval }
    requires reach { IsPlace reach }
    requires charges { charges.now ≡ charges_of about }
    requires limit { AreChargesIf (length times.now.demands) about.charges }
    requires kept { kept.now ≡ about.kept }
    requires derived { IsDerived times.now interval reach (charges_of about) about.kept }
    requires range { (k : ℕ) (e : Step) → slice_get about.kept k ≡ Some e
        → IsEntry (length times.now.demands) times.now.stations about.charges e }
    requires bound { state_bound times.now interval reach times.now.demands (root_starts times.now)
        ≤ 65536000000000000 }
    ensures book { IfOk result (λ p. IsBook times.now interval reach about p.1 (p.0 + 1)) }
    ensures shown { IfOk result (λ p. 0 < p.0
        → HasAnswer (charges_of about) p.1 times.now.demands (root_starts times.now) p.0) }
    ensures raised { IfOk result (λ p. IsRaised times.now interval reach about p.0) }
    ensures none { IfOk result (λ p. units_of (charges_of about) p.1 ≡ units_of (charges_of about) about.kept) }
{
    let SeqFrame { rem, starts, .. } = root_frame(alloc, times, 0)?;
    let bound = state_bound(times, interval, reach, rem.as_slice(), starts.as_slice());
    let shown = shown_need(charges, kept, rem.as_slice(), starts.as_slice());
    let mut entries = Book::of(alloc, kept)?;
    if bound <= shown {
        return Ok((shown, entries));
    }
    entries.push(SeqEntry {
        rem,
        starts,
        least: bound,
        why: SeqWhy::Bound,
    })?;
    Ok((bound, entries))
}

/// The first sequence, the kept entries, and the lower bound to begin with.
fn begun(
    alloc: Global,
    times: &Times,
    interval: u64,
    reach: u64,
    first: Numbers,
    charges: Option<Numbers>,
    kept: SeqEntries,
) -> Result<Standing, AllocError>
    ghost about: { About }
    requires times { AreTimes times.now }
    requires interval { IsPlace interval }
    requires reach { IsPlace reach }
    requires first { first ≡ about.first }
    requires is { IsSequenceOf times.now.demands about.first }
    requires charges { charges ≡ about.charges }
    requires limit { AreChargesIf (length times.now.demands) about.charges }
    requires kept { kept ≡ about.kept }
    requires derived { IsDerived times.now interval reach (charges_of about) about.kept }
    requires range { (k : ℕ) (e : Step) → slice_get about.kept k ≡ Some e
        → IsEntry (length times.now.demands) times.now.stations about.charges e }
    ensures standing { IfOk result
        (λ s. IsStanding times.now interval reach about s.lower s.upper s.sequence s.entries) }
    ensures charges { IfOk result (λ s. s.charges ≡ about.charges) }
    ensures none { IfOk result (λ s. units_of (charges_of about) s.entries
        ≡ units_of (charges_of about) about.kept) }
{
    let upper = sequence_cost(times, interval, reach, first.as_slice());
    let (lower, entries) = root_entries(
        alloc,
        times,
        interval,
        reach,
        listed_charges(&charges),
        &kept,
    )?;
    Ok(Standing {
        charges,
        lower,
        upper,
        sequence: first,
        entries,
    })
}

/// Of how many models a unit is left.
fn models_left(rem: &[u64]) -> u64
    requires { length rem.now ≤ 16 }
    ensures { result ≡ models_left rem.now (length rem.now) }
{
    let mut models = 0;
    for m in 0..rem.len() {
        if rem[m] > 0 {
            models += 1;
        }
    }
    models
}

/// The units of an entry.
fn entry_units(charges: &[u64], entry: &SeqEntry) -> u64
    requires { length entry.now.rem ≤ 16 }
    ensures { result ≡ entry_units charges.now entry.now }
{
    match &entry.why {
        SeqWhy::Bound => 0,
        SeqWhy::Branch { .. } => models_left(entry.rem.as_slice()),
        SeqWhy::Charge { .. } => charges.len() as u64,
    }
}

/// The units of the entries.
fn entries_units(charges: &[u64], entries: &Book) -> u64
    requires few { units_of charges.now entries.now ≤ 3000000 }
    requires each { (k : ℕ) (e : Step) → slice_get entries.now k ≡ Some e → length e.rem ≤ 16 }
    ensures { result ≡ units_of charges.now entries.now }
{
    let mut units = 0;
    for k in 0..entries.len() {
        units += entry_units(charges, entries.at(k));
    }
    units
}

/// The units of the entries of a search that stands so.
fn spent(standing: &Standing) -> u64
    ghost about: { About }
    requires charges { standing.now.charges ≡ about.charges }
    requires few { units_of (charges_of about) standing.now.entries ≤ 3000000 }
    requires each { (k : ℕ) (e : Step) → slice_get standing.now.entries k ≡ Some e → length e.rem ≤ 16 }
    ensures { result ≡ units_of (charges_of about) standing.now.entries }
{
    entries_units(listed_charges(&standing.charges), &standing.entries)
}

/// The certificate of a search that stands so.
fn certified(times: &Times, standing: Standing, frames: SeqFrames) -> SeqCert
    requires { AreTimes times.now }
    ensures { result ≡ cert_of times.now standing.charges standing.lower standing.upper standing.sequence
        standing.entries frames }
{
    let Standing {
        charges,
        lower,
        upper,
        sequence,
        entries,
    } = standing;
    SeqCert {
        models: times.demands.len() as u32,
        stations: times.stations,
        charges,
        lower,
        upper,
        sequence,
        entries: entries.into_entries(),
        frames,
    }
}

/// Brings the bounds together, try by try, in at most `units` steps.
fn meet(
    alloc: Global,
    times: &Times,
    interval: u64,
    reach: u64,
    units: u64,
    begun: Standing,
) -> Ordered
    ghost about: { About }
    requires times { AreTimes times.now }
    requires interval { IsPlace interval }
    requires reach { IsPlace reach }
    requires units { units ≡ about.units }
    requires some { 1 ≤ units }
    requires few { units ≤ 1000000 }
    requires kept { length about.kept + units ≤ 1999999 }
    requires paid { units_of (charges_of about) about.kept + units ≤ 1999999 }
    requires charges { begun.charges ≡ about.charges }
    requires limit { AreChargesIf (length times.now.demands) about.charges }
    requires standing { IsStanding times.now interval reach about begun.lower begun.upper begun.sequence
        begun.entries }
    requires none { units_of (charges_of about) begun.entries ≡ units_of (charges_of about) about.kept }
    ensures { OrdersFrom times.now interval reach about result }
{
    let mut standing = begun;
    let paid = spent(&standing);
    'tries: while standing.lower < standing.upper {
        let need = (standing.lower + standing.upper + 1) / 2;
        let used = spent(&standing) - paid;
        let Ok(tried) = attempt(
            alloc,
            times,
            interval,
            reach,
            &mut standing.entries,
            need,
            units - used,
        ) else {
            return Ordered::Memory {
                lower: standing.lower,
                upper: standing.upper,
            };
        };
        match tried {
            Tried::Refuted => standing.lower = need,
            Tried::Found(sequence) => {
                standing.upper = sequence_cost(times, interval, reach, sequence.as_slice());
                standing.sequence = sequence;
                continue;
            }
            Tried::Stopped(frames) => {
                return Ordered::Stopped(certified(times, standing, frames));
            }
        }
    }
    let frames = SeqFrames::from_vec(Vec::new(alloc));
    Ordered::Solved(certified(times, standing, frames))
}

/// Searches as `order_from` does.
fn search(
    alloc: Global,
    times: &Times,
    interval: u64,
    reach: u64,
    units: u64,
    first: Numbers,
    charges: Option<Numbers>,
    kept: SeqEntries,
) -> Ordered
    ghost about: { About }
    requires times { AreTimes times.now }
    requires interval { IsPlace interval }
    requires reach { IsPlace reach }
    requires units { units ≡ about.units }
    requires some { 1 ≤ units }
    requires few { units ≤ 1000000 }
    requires first { first ≡ about.first }
    requires is { IsSequenceOf times.now.demands about.first }
    requires charges { charges ≡ about.charges }
    requires limit { AreChargesIf (length times.now.demands) about.charges }
    requires kept { kept ≡ about.kept }
    requires derived { IsDerived times.now interval reach (charges_of about) about.kept }
    requires range { (k : ℕ) (e : Step) → slice_get about.kept k ≡ Some e
        → IsEntry (length times.now.demands) times.now.stations about.charges e }
    requires many { length about.kept + units ≤ 1999999 }
    requires paid { units_of (charges_of about) about.kept + units ≤ 1999999 }
    ensures { OrdersFrom times.now interval reach about result }
{
    match begun(alloc, times, interval, reach, first, charges, kept) {
        Ok(standing) => meet(alloc, times, interval, reach, units, standing),
        Err(_) => Ordered::NoMemory,
    }
}

/// Finds a sequence of least utility work, in at most `units` steps, 1 to 1,000,000, from a first sequence and from
/// entries that are kept, which follow each from those before it.
///
/// `first` has each model as often as it is wanted. `charges` has the charge of each model, 0 to 10^14, where there are
/// entries by Charge. The kept entries stand before those of the search, and with them and the units both stay below
/// 2,000,000. The answer's bounds are no worse than those of the first sequence, of the root and of the kept entries.
/// `interval` is the launch interval and `reach` the length of each station, in the mix's time unit, 1 to 10^9. Each
/// step takes time proportional to stations times models, and to the entries that are gone over for an answer. Only
/// entries by Bound or Branch are.
pub fn order_from(
    alloc: Global,
    times: &Times,
    interval: u64,
    reach: u64,
    units: u64,
    first: Numbers,
    charges: Option<Numbers>,
    kept: SeqEntries,
) -> Ordered
    requires times { AreTimes times.now }
    requires interval { IsPlace interval }
    requires reach { IsPlace reach }
    requires some { 1 ≤ units }
    requires few { units ≤ 1000000 }
    requires first { IsSequenceOf times.now.demands first }
    requires charges { AreChargesIf (length times.now.demands) charges }
    requires derived { IsDerived times.now interval reach (listed_charges charges) kept }
    requires range { (k : ℕ) (e : Step) → slice_get kept k ≡ Some e
        → IsEntry (length times.now.demands) times.now.stations charges e }
    requires many { length kept + units ≤ 1999999 }
    requires paid { units_of (listed_charges charges) kept + units ≤ 1999999 }
    ensures { OrdersFrom times.now interval reach
        (record { units = units; first = first; charges = charges; kept = kept }) result }
{
    search(alloc, times, interval, reach, units, first, charges, kept)
}

/// Finds a sequence of least utility work, in at most `units` steps, 1 to 1,000,000.
///
/// `interval` is the launch interval and `reach` the length of each station, in the mix's time unit, 1 to 10^9. Each
/// step takes time proportional to stations times models, and to the entries that are gone over for an answer.
pub fn order(alloc: Global, times: &Times, interval: u64, reach: u64, units: u64) -> Ordered
    requires times { AreTimes times.now }
    requires interval { IsPlace interval }
    requires reach { IsPlace reach }
    requires some { 1 ≤ units }
    requires few { units ≤ 1000000 }
    ensures { Orders times.now interval reach units result }
{
    let Ok(first) = model_order(alloc, times.demands.as_slice()) else {
        return Ordered::NoMemory;
    };
    let kept = SeqEntries::from_vec(Vec::new(alloc));
    order_from(alloc, times, interval, reach, units, first, None, kept)
}
