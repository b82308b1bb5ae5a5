//! Tests of what comes out of a seek.
//!
//! What a seek promises of its answer is shown by these tests, in the place of long proofs on how it came to it. Each
//! goes once over the numbers that it is about.
ghost use Rattle.std.specs.Prelude.{◌≡◌, ℕ, ◌≤◌, ◌<◌, List, length, All, IsTrue, Some};
ghost use Rattle.sequence_rules.specs.States.{IsSequenceOf};
ghost use Rattle.sequence_rules.specs.Ranges.{IsWhy, IsEntry, numbers_by};
ghost use Rattle.sequence_seek.specs.Sought.{AreEntries};

use sequence_rules::is_sequence_of;
use sequence_values::{SeqEntries, SeqEntry, SeqWhy, Times};
use sequence_walk::{are_at_most, is_state_of};

/// The greatest number of a certificate's text.
const MOST: u64 = 1_000_000_000_000_000_000;

/// Whether each number is below a limit.
fn are_below(numbers: &[u64], limit: usize) -> bool
    ensures { IsTrue result → All (λ n. n < limit) numbers.now }
{
    for n in numbers {
        if *n >= limit as u64 {
            return false;
        }
    }
    true
}

/// Whether there are at most 1,000 units, and each is of a model.
pub(crate) fn are_units(times: &Times, units: &[u64]) -> bool
    ensures few { IsTrue result → length units.now ≤ 1000 }
    ensures models { IsTrue result → All (λ u. u < length times.now.demands) units.now }
{
    if units.len() > 1000 {
        return false;
    }
    are_below(units, times.demands.len())
}

/// Whether a sequence has each model as often as it is wanted.
pub(crate) fn is_sequence(times: &Times, sequence: &[u64]) -> bool
    ensures { IsTrue result → IsSequenceOf times.now.demands sequence.now }
{
    if !are_units(times, sequence) {
        return false;
    }
    is_sequence_of(times.demands.as_slice(), sequence)
}

/// How many numbers of units an entry has, by its reason.
fn numbers_by(models: usize, why: &SeqWhy) -> usize
    ensures { result ≡ numbers_by models why.now }
{
    match why {
        SeqWhy::Bound => models,
        SeqWhy::Branch { .. } => models,
        SeqWhy::Charge { .. } => 1,
    }
}

/// Whether the cites of a reason are in the range of a certificate's text.
fn are_cites(why: &SeqWhy) -> bool
    ensures { IsTrue result → (charges : List ℕ) → IsWhy (Some charges) why.now }
{
    match why {
        SeqWhy::Bound => true,
        SeqWhy::Branch { cites } => are_at_most(cites.as_slice(), MOST),
        SeqWhy::Charge { cites } => are_at_most(cites.as_slice(), MOST),
    }
}

/// Whether an entry is in the ranges of the text of a certificate with charges.
fn is_entry(times: &Times, entry: &SeqEntry) -> bool
    ensures { IsTrue result → (charges : List ℕ)
        → IsEntry (length times.now.demands) times.now.stations (Some charges) entry.now }
{
    let numbers = numbers_by(times.demands.len(), &entry.why);
    let rem = entry.rem.as_slice();
    if !is_state_of(
        numbers,
        times.stations as usize,
        rem,
        entry.starts.as_slice(),
    ) {
        return false;
    }
    if entry.least > MOST {
        return false;
    }
    are_cites(&entry.why)
}

/// Whether all entries are in the ranges of the text of a certificate with charges.
pub(crate) fn are_entries(times: &Times, entries: &SeqEntries) -> bool
    ensures { IsTrue result → (charges : List ℕ) → AreEntries times.now charges entries.now }
{
    for k in 0..entries.len() {
        if !is_entry(times, entries.at(k)) {
            return false;
        }
    }
    true
}
