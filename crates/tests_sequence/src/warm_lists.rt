//! Rows worked by hand: an entry that follows from a list of three models at one station, and what is kept of a list.
//!
//! The launch interval is 5 and the station's length 6. A unit of 7 costs 1 from the station's beginning and 2 from 1
//! on. One of 6 costs 0 or 1, and both lead to 1. Shorter ones cost 0 and lead to 0. A list is written as in the text
//! of a certificate, with a bar between its entries.
ghost use Rattle.std.specs.Prelude.{◌≡◌, ℕ, ◌≤◌, length, slice_get, Some, All, IsTrue, IfOk};
ghost use Rattle.sequence_values.specs.declared.types.SeqEntry.{SeqEntry as Step};
ghost use Rattle.sequence_rules.specs.Charges.{IsChargesOf};
ghost use Rattle.sequence_rules.specs.Ranges.{AreTimes, IsState, IsWhy, IsEntry, numbers_by};

use sequence_check::{SeqEntryChecked, verify_seq_entry};
use sequence_values::{Numbers, SeqEntries, SeqEntry, SeqWhy, Times};
use std::alloc::{AllocError, Global};
use std::test::Fail;
use warm_sequence::{SeqWarmed, warm_seq};

// A list of three models whose second entry says too much. The next one stands on it, and later cites move up.
const OLD: &str =
    "charge 1 0 1 -|charge 2 0 1002 0,0,0|charge 3 0 2002 1,1,1|charge 2 0 1001 0,0,0|\
    branch 0,2,1 1 1 -|branch 1,1,1 1 2 3|branch 1,2,1 0 2 4,5";

// One unit of A, which takes 7, two of B, which takes 6, and one of C, which takes 1: the charges are 0, 1,000 and
// 1,000.
const THREE: &str =
    "charge 1 0 1 -|charge 2 0 1001 0,0,0|branch 0,2,1 1 1 -|branch 1,1,1 1 2 1|branch 1,2,1 0 2 2,3";

fn three_models(alloc: Global) -> Result<Times, AllocError>
    ensures { IfOk result (λ t. AreTimes t) }
{
    Ok(Times {
        stations: 1,
        demands: Numbers::from_vec(vec![in alloc; 1, 2, 1]?),
        work: Numbers::from_vec(vec![in alloc; 7, 6, 1]?),
    })
}

// The numbers of a word, with commas between them.
fn numbers(alloc: Global, word: &str) -> Result<Numbers, AllocError> {
    let mut list = Vec::new(alloc);
    for part in word.split(',') {
        if let Ok(n) = part.parse::<u64>() {
            list.push(n)?;
        }
    }
    Ok(Numbers::from_vec(list))
}

fn entry(alloc: Global, text: &str) -> Result<SeqEntry, AllocError> {
    let mut words = text.split(' ');
    let kind = words.next().unwrap_or("");
    let rem = numbers(alloc, words.next().unwrap_or(""))?;
    let starts = numbers(alloc, words.next().unwrap_or(""))?;
    let least = words.next().unwrap_or("").parse::<u64>().unwrap_or(0);
    let cites = numbers(alloc, words.next().unwrap_or(""))?;
    let why = if kind == "charge" {
        SeqWhy::Charge { cites }
    } else {
        SeqWhy::Branch { cites }
    };
    Ok(SeqEntry {
        rem,
        starts,
        least,
        why,
    })
}

// The entries of a list, of which the one with this number is another.
fn entries(
    alloc: Global,
    list: &str,
    number: usize,
    other: &str,
) -> Result<SeqEntries, AllocError> {
    let mut made = Vec::new(alloc);
    for (k, text) in list.split('|').enumerate() {
        made.push(entry(alloc, if k == number { other } else { text })?)?;
    }
    Ok(SeqEntries::from_vec(made))
}

fn are_at_most(xs: &[u64], most: u64) -> bool
    ensures { IsTrue result → All (λ x. x ≤ most) xs.now }
{
    xs.iter().all(|x| *x <= most)
}

fn are_charges(models: usize, charges: &[u64]) -> bool
    ensures { IsTrue result → IsChargesOf models charges.now }
{
    charges.len() == models && are_at_most(charges, 100_000_000_000_000)
}

fn numbers_by(models: usize, why: &SeqWhy) -> usize
    ensures { result ≡ numbers_by models why.now }
{
    match why {
        SeqWhy::Bound | SeqWhy::Branch { .. } => models,
        SeqWhy::Charge { .. } => 1,
    }
}

fn is_why(charges: &Numbers, why: &SeqWhy) -> bool
    ensures { IsTrue result → IsWhy (Some charges.now) why.now }
{
    let _many = charges.len();
    match why {
        SeqWhy::Bound => true,
        SeqWhy::Branch { cites } => are_at_most(cites.as_slice(), 1_000_000_000_000_000_000),
        SeqWhy::Charge { cites } => are_at_most(cites.as_slice(), 1_000_000_000_000_000_000),
    }
}

fn is_state(models: usize, stations: u32, rem: &[u64], starts: &[u64]) -> bool
    ensures { IsTrue result → IsState models stations rem.now starts.now }
{
    rem.len() == models
        && starts.len() == stations as usize
        && are_at_most(rem, 1000)
        && are_at_most(starts, 1_000_000_000)
}

fn is_entry(models: usize, stations: u32, charges: &Numbers, entry: &SeqEntry) -> bool
    ensures { IsTrue result → IsEntry models stations (Some charges.now) entry.now }
{
    if entry.least > 1_000_000_000_000_000_000 || !is_why(charges, &entry.why) {
        return false;
    }
    let numbers = numbers_by(models, &entry.why);
    is_state(
        numbers,
        stations,
        entry.rem.as_slice(),
        entry.starts.as_slice(),
    )
}

fn are_entries(models: usize, stations: u32, charges: &Numbers, entries: &SeqEntries) -> bool
    ensures { IsTrue result → (k : ℕ) (e : Step) → slice_get entries.now k ≡ Some e
        → IsEntry models stations (Some charges.now) e }
{
    for k in 0..entries.len() {
        if !is_entry(models, stations, charges, entries.at(k)) {
            return false;
        }
    }
    true
}

// What the check of one entry after the first ones of the list of three models tells.
fn tells_entry(alloc: Global, text: &str, steps: u64) -> Result<String, AllocError> {
    let times = three_models(alloc)?;
    let charges = numbers(alloc, "0,1000,1000")?;
    let before = entries(alloc, THREE, 9, "")?;
    let entry = entry(alloc, text)?;
    let models = times.demands.len();
    if !are_charges(models, charges.as_slice())
        || !is_entry(models, times.stations, &charges, &entry)
        || !are_entries(models, times.stations, &charges, &before)
    {
        return format!(in alloc; "range");
    }
    match verify_seq_entry(&times, 5, 6, Some(&charges), &before, &entry, steps) {
        SeqEntryChecked::Right { units } => format!(in alloc; "right {units}"),
        SeqEntryChecked::Fails { units } => format!(in alloc; "fails {units}"),
        SeqEntryChecked::StepsEnded => format!(in alloc; "ended"),
    }
}

#[test]
fn one_entry_after_others(rt: HostRuntime) -> Result<(), Fail> {
    let alloc = rt.alloc();
    let right = tells_entry(alloc, "charge 2 0 1001 0,0,0", 3)?;
    let ended = tells_entry(alloc, "charge 2 0 1001 0,0,0", 2)?;
    let fails = tells_entry(alloc, "charge 2 0 1001 0", 3)?;
    assert!(rt;
        (right.as_str() == "right 3") & (ended.as_str() == "ended") & (fails.as_str() == "fails 2")
    );
    Ok(())
}

fn push_numbers(text: &mut String, numbers: &[u64]) -> Result<(), AllocError> {
    if numbers.is_empty() {
        text.push_str(" -")?;
    }
    for k in 0..numbers.len() {
        text.push_str(if k == 0 { " " } else { "," })?;
        let number = numbers[k];
        write!(text, "{number}")?;
    }
    Ok(())
}

fn push_entry(text: &mut String, entry: &SeqEntry) -> Result<(), AllocError> {
    match &entry.why {
        SeqWhy::Charge { .. } => text.push_str("charge")?,
        SeqWhy::Bound | SeqWhy::Branch { .. } => text.push_str("branch")?,
    }
    push_numbers(text, entry.rem.as_slice())?;
    push_numbers(text, entry.starts.as_slice())?;
    let least = entry.least;
    write!(text, " {least}")?;
    match &entry.why {
        SeqWhy::Bound => Ok(()),
        SeqWhy::Branch { cites } | SeqWhy::Charge { cites } => {
            push_numbers(text, cites.as_slice())
        }
    }
}

// All but the last of the list of three models.
const FOUR: &str = "charge 1 0 1 -|charge 2 0 1001 0,0,0|branch 0,2,1 1 1 -|branch 1,1,1 1 2 1";

// What is kept of the old list of three models, as a text.
fn kept(alloc: Global, room: u64) -> Result<String, AllocError> {
    let times = three_models(alloc)?;
    let charges = numbers(alloc, "0,1000,1000")?;
    let old = entries(alloc, OLD, 9, "")?;
    let mut text = String::new(alloc);
    let models = times.demands.len();
    if room > 1_999_999
        || !are_charges(models, charges.as_slice())
        || !are_entries(models, times.stations, &charges, &old)
    {
        return Ok(text);
    }
    let SeqWarmed::Done(kept) = warm_seq(alloc, &times, 5, 6, &charges, &old, room) else {
        return Ok(text);
    };
    for k in 0..kept.len() {
        text.push_str(if k == 0 { "" } else { "|" })?;
        push_entry(&mut text, kept.at(k))?;
    }
    Ok(text)
}

#[test]
fn what_is_kept_of_a_list(rt: HostRuntime) -> Result<(), Fail> {
    let alloc = rt.alloc();
    let all = kept(alloc, 14)?;
    let without_the_last = kept(alloc, 13)?;
    let one = kept(alloc, 4)?;
    assert!(rt; all.as_str() == THREE);
    assert!(rt; without_the_last.as_str() == FOUR);
    assert!(rt; one.as_str() == "charge 1 0 1 -");
    Ok(())
}
