//! The seek as it is called: what it begins with, and the tests of what it ends with.
ghost use Rattle.std.specs.Prelude.{◌≡◌, ℕ, ◌≤◌, List, length, IfOk};
ghost use Rattle.sequence_rules.specs.States.{IsSequenceOf};
ghost use Rattle.sequence_rules.specs.Ranges.{AreTimes, IsPlace, AreLight};
ghost use Rattle.sequence_seek.specs.Sought.{AreEntries, Seeks, IsFound};

use crate::orders::in_order;
use crate::rounds::{Found, seek_from};
use crate::testing::{are_entries, are_units, is_sequence};
use crate::types::SeqSought;
use sequence_rules::{MAX_MODELS, sequence_cost};
use sequence_table::{Tabled, open_table};
use sequence_values::{Numbers, SeqEntries, Times};
use sequence_walk::{Costed, are_at_most, listed};
use std::alloc::{AllocError, Global};

/// The greatest work that a seek is made for: a unit's charged cost stays below 10^15.
const MOST_WORK: u64 = 10_000_000_000;

/// The most lemmas.
const MOST_LEMMAS: usize = 999_999;

/// The utility work of a sequence; 0 where it isn't one of the models.
fn total_of(times: &Times, interval: u64, reach: u64, sequence: &[u64]) -> u64
    requires times { AreTimes times.now }
    requires reach { IsPlace reach }
{
    if !are_units(times, sequence) {
        return 0;
    }
    sequence_cost(times, interval, reach, sequence)
}

/// What is found without a unit: a sequence, and no lemma.
fn found_at_once(alloc: Global, best: Costed, limit: u64) -> Found
    ensures { result.left ≡ limit }
{
    Found {
        best,
        charges: [0; MAX_MODELS],
        lemmas: SeqEntries::from_vec(Vec::new(alloc)),
        left: limit,
    }
}

/// What is found. Nothing is sought where model order takes no utility work, or where a work is too great.
fn sought(
    alloc: Global,
    times: &Times,
    interval: u64,
    reach: u64,
    limit: u64,
) -> Result<Found, AllocError>
    requires times { AreTimes times.now }
    requires interval { IsPlace interval }
    requires reach { IsPlace reach }
    ensures { IfOk result (λ f. f.left ≤ limit) }
{
    let sequence = in_order(alloc, times.demands.as_slice())?;
    let total = total_of(times, interval, reach, sequence.as_slice());
    let best = Costed { sequence, total };
    if total == 0 {
        return Ok(found_at_once(alloc, best, limit));
    }
    if !are_at_most(times.work.as_slice(), MOST_WORK) {
        return Ok(found_at_once(alloc, best, limit));
    }
    match open_table(alloc, times, interval, reach) {
        Tabled::Done(table) => seek_from(alloc, table, best, limit),
        Tabled::NoMemory => Err(AllocError),
    }
}

/// The sequence, where it is one of the demands, and else that in model order.
fn tested_sequence(alloc: Global, times: &Times, sequence: Numbers) -> Result<Numbers, AllocError>
    ensures { IfOk result (λ v. IsSequenceOf times.now.demands v) }
{
    if is_sequence(times, sequence.as_slice()) {
        return Ok(sequence);
    }
    in_order(alloc, times.demands.as_slice())
}

/// The lemmas, where all are in their ranges, and else none.
fn tested_lemmas(alloc: Global, times: &Times, lemmas: SeqEntries) -> SeqEntries
    ensures few { length result ≤ 999999 }
    ensures range { (charges : List ℕ) → AreEntries times.now charges result }
{
    if lemmas.len() > MOST_LEMMAS {
        return SeqEntries::from_vec(Vec::new(alloc));
    }
    if !are_entries(times, &lemmas) {
        return SeqEntries::from_vec(Vec::new(alloc));
    }
    lemmas
}

/// What is found, after the tests.
fn tested(alloc: Global, times: &Times, found: Found, limit: u64) -> Result<SeqSought, AllocError>
    requires times { AreTimes times.now }
    requires left { found.left ≤ limit }
    ensures { IfOk result (λ s. Seeks times.now limit s) }
{
    let Found {
        best,
        charges,
        lemmas,
        left,
    } = found;
    let Costed { sequence, .. } = best;
    Ok(SeqSought::Done {
        sequence: tested_sequence(alloc, times, sequence)?,
        charges: listed(alloc, &charges, times.demands.len())?,
        lemmas: tested_lemmas(alloc, times, lemmas),
        used: limit - left,
    })
}

/// Seeks a sequence of little utility work, and lemmas that show how little there can be.
///
/// `interval` is the launch interval and `reach` the length of each station, in the mix's time unit, 1 to 10^9. A seek
/// takes up to `limit` units, 1 to 3,000,000: one for each node in a pass, and one for each step of a walk. None is
/// taken where model order takes no utility work, or where a work is above 10^10. Its time is proportional to the units
/// times models times units wanted; the answer says where memory is wanting.
pub fn seek_order(alloc: Global, times: &Times, interval: u64, reach: u64, limit: u64) -> SeqSought
    requires times { AreTimes times.now }
    requires interval { IsPlace interval }
    requires reach { IsPlace reach }
    ensures { Seeks times.now limit result }
{
    let Ok(found) = sought(alloc, times, interval, reach, limit) else {
        return SeqSought::NoMemory;
    };
    match tested(alloc, times, found, limit) {
        Ok(sought) => sought,
        Err(_) => SeqSought::NoMemory,
    }
}
