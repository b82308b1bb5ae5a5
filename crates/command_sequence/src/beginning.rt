//! With what a search for a sequence begins: with the sequence in the order of the models, or with what a seek found.
//!
//! Nothing of a seek is believed. Its sequence is counted again, and the better one of both is the first. Its lemmas are
//! tested one after the other, and those that follow from the kept ones are kept. The test takes time as a check of a
//! certificate does.
ghost use Rattle.std.specs.Prelude.{◌≡◌, ℕ, ◌↔◌, ◌≤◌, IfOk, IfSome, IsTrue, string_bytes};
ghost use Rattle.line_words.specs.Ranges.{AreSeekLoads, AreTryUnits, IsBetween};
ghost use Rattle.sequence_rules.specs.Ranges.{AreTimes, IsPlace};
ghost use Rattle.sequence_rules.specs.States.{IsSequenceOf, cost, root_starts};
ghost use Rattle.sequence_search.specs.Outcomes.{model_order};
ghost use Rattle.command_sequence.specs.Beginning.{AreChargesFor, HasRow, IsBegun};

use command_outcome::with_seek_line;
use sequence_rules::sequence_cost;
use sequence_search::model_order;
use sequence_seek::{SeqSought, seek_order};
use sequence_values::{Numbers, SeqEntries, SeqWhy, Times};
use std::alloc::{AllocError, Global};
use warm_sequence::{SeqWarmed, warm_seq};

/// The most entries, and the most units, that the kept entries and the search have together.
const MOST_UNITS: u64 = 1_999_999;

/// With what a search begins: a first sequence, the charges where a kept entry is by Charge, the kept entries, and the
/// line about a seek, where there was one.
#[derive(Drop)]
pub(crate) struct Beginning {
    pub first: Numbers,
    pub charges: Option<Numbers>,
    pub kept: SeqEntries,
    pub said: String,
}

/// Whether an entry of a list is by Charge.
fn has_row(entries: &SeqEntries) -> bool
    ensures { IsTrue result ↔ HasRow entries.now }
{
    for k in 0..entries.len() {
        if let SeqWhy::Charge { .. } = &entries.at(k).why {
            return true;
        }
    }
    false
}

/// The charges, where a kept entry is by Charge.
fn charges_for(kept: &SeqEntries, charges: Numbers) -> Option<Numbers>
    ensures charged { AreChargesFor kept.now result }
    ensures same { IfSome result (λ a. a ≡ charges) }
{
    if has_row(kept) { Some(charges) } else { None }
}

/// The one of two sequences of the demands that costs less; the second where they cost the same.
fn better(times: &Times, interval: u64, reach: u64, found: Numbers, order: Numbers) -> Numbers
    requires times { AreTimes times.now }
    requires interval { IsPlace interval }
    requires reach { IsPlace reach }
    requires found { IsSequenceOf times.now.demands found }
    requires order { IsSequenceOf times.now.demands order }
    ensures is { IsSequenceOf times.now.demands result }
    ensures no_worse { cost times.now interval reach (root_starts times.now) result
        ≤ cost times.now interval reach (root_starts times.now) order }
    ensures no_worse_than_found { cost times.now interval reach (root_starts times.now) result
        ≤ cost times.now interval reach (root_starts times.now) found }
{
    let total = sequence_cost(times, interval, reach, found.as_slice());
    if total < sequence_cost(times, interval, reach, order.as_slice()) {
        return found;
    }
    order
}

/// A beginning without a seek.
fn unsought(alloc: Global, times: &Times, units: u64) -> Result<Beginning, AllocError>
    requires times { AreTimes times.now }
    requires units { AreTryUnits units }
    ensures { (interval reach : ℕ) → IfOk result (λ b. IsBegun times.now interval reach units 0
        (record { units = units; first = b.first; charges = b.charges; kept = b.kept }) (string_bytes b.said)) }
{
    Ok(Beginning {
        first: model_order(alloc, times.demands.as_slice())?,
        charges: None,
        kept: SeqEntries::from_vec(Vec::new(alloc)),
        said: String::new(alloc),
    })
}

/// A beginning with a seek of so many units, 1 to 3,000,000.
fn sought(
    alloc: Global,
    times: &Times,
    interval: u64,
    reach: u64,
    units: u64,
    limit: u64,
) -> Result<Beginning, AllocError>
    requires times { AreTimes times.now }
    requires interval { IsPlace interval }
    requires reach { IsPlace reach }
    requires units { AreTryUnits units }
    requires limit { IsBetween 1 3000000 limit }
    ensures { IfOk result (λ b. IsBegun times.now interval reach units limit
        (record { units = units; first = b.first; charges = b.charges; kept = b.kept }) (string_bytes b.said)) }
{
    let order = model_order(alloc, times.demands.as_slice())?;
    let SeqSought::Done {
        sequence,
        charges,
        lemmas,
        used,
    } = seek_order(alloc, times, interval, reach, limit)
    else {
        return Err(AllocError);
    };
    let room = MOST_UNITS - units;
    let SeqWarmed::Done(kept) = warm_seq(alloc, times, interval, reach, &charges, &lemmas, room)
    else {
        return Err(AllocError);
    };
    let first = better(times, interval, reach, sequence, order);
    let said = with_seek_line(String::new(alloc), used, limit, kept.len() as u64)?;
    let charges = charges_for(&kept, charges);
    Ok(Beginning {
        first,
        charges,
        kept,
        said,
    })
}

/// The beginning of a search in so many units, with a seek of `seek` units before it, 0 to 3,000,000.
///
/// `interval` is the launch interval and `reach` the length of each station, in the mix's time unit. An error where
/// memory is wanting.
pub(crate) fn begin(
    alloc: Global,
    times: &Times,
    interval: u64,
    reach: u64,
    units: u64,
    seek: u64,
) -> Result<Beginning, AllocError>
    requires times { AreTimes times.now }
    requires interval { IsPlace interval }
    requires reach { IsPlace reach }
    requires units { AreTryUnits units }
    requires seek { AreSeekLoads seek }
    ensures { IfOk result (λ b. IsBegun times.now interval reach units seek
        (record { units = units; first = b.first; charges = b.charges; kept = b.kept }) (string_bytes b.said)) }
{
    if seek == 0 {
        return unsought(alloc, times, units);
    }
    sought(alloc, times, interval, reach, units, seek)
}
