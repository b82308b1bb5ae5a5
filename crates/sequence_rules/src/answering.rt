//! Which states and needs an entry answers.
//!
//! An entry by Bound or Branch answers its own state and those like it that begin later. One by Charge answers whatever
//! has as many units left: a sequence of these is a row, and its charges are known. So a base above these and above
//! 1000 for each of the need but one leaves at least the need to its utility work.
ghost use Rattle.std.specs.Prelude.{◌≡◌, ℕ, ◌+◌, ◌-◌, ◌*◌, ◌<◌, ◌≤◌, ◌↔◌, List, length, sum, All, IsTrue};
ghost use Rattle.sequence_rules.specs.Charges.{charges_left};
ghost use Rattle.sequence_rules.specs.Entries.{Answers, AnswersState, AnswersCharged, AnswersPlainly};
ghost use Rattle.sequence_rules.specs.Entries.{IsGreatestNeed, Serves, row_units};
ghost use Rattle.sequence_rules.specs.inner.Needs.{IsNeedIf};

use crate::comparing::{is_no_later, is_same};
use crate::steps::units_left;
use sequence_values::{SeqEntry, SeqWhy};

/// Whether an entry, as one by Bound or Branch, answers a state and a need: whether it has the same units left, starts
/// that are no later at any station, and a value of at least the need.
fn answers_state(entry: &SeqEntry, rem: &[u64], starts: &[u64], need: u64) -> bool
    ensures { IsTrue result ↔ AnswersState entry.now rem.now starts.now need }
{
    if entry.least < need {
        return false;
    }
    if !is_same(entry.rem.as_slice(), rem) {
        return false;
    }
    is_no_later(entry.starts.as_slice(), starts)
}

/// Whether an entry by Bound or Branch answers a state and a need. One by Charge doesn't.
pub fn answers_plainly(entry: &SeqEntry, rem: &[u64], starts: &[u64], need: u64) -> bool
    ensures { IsTrue result ↔ AnswersPlainly entry.now rem.now starts.now need }
{
    match &entry.why {
        SeqWhy::Charge { .. } => false,
        SeqWhy::Bound | SeqWhy::Branch { .. } => answers_state(entry, rem, starts, need),
    }
}

/// The charges of the units that are left.
fn charges_left(charges: &[u64], rem: &[u64]) -> u64
    requires each { length rem.now ≡ length charges.now }
    requires limit { All (λ a. a ≤ 100000000000000) charges.now }
    requires few { sum rem.now ≤ 16000 }
    ensures { result ≡ charges_left charges.now rem.now }
{
    let mut owed = 0;
    for m in 0..rem.len() {
        owed += rem[m] * charges[m];
    }
    owed
}

/// Whether a base is above 1000 for each of the need but one, and the charges that are owed. A need of at least 1.
fn is_above(base: u64, need: u64, owed: u64) -> bool
    requires { 1 ≤ need }
    ensures { IsTrue result ↔ 1000 * (need - 1) + owed < base }
{
    if base <= owed {
        return false;
    }
    need - 1 <= (base - 1 - owed) / 1000
}

/// Whether an entry, as one by Charge, answers a state and a need of at least 1.
fn answers_charged(
    charges: &[u64],
    entry: &SeqEntry,
    rem: &[u64],
    starts: &[u64],
    need: u64,
) -> bool
    requires limit { All (λ a. a ≤ 100000000000000) charges.now }
    requires few { sum rem.now ≤ 16000 }
    requires row { row_units entry.now ≤ 16000 }
    ensures { IsTrue result ↔ AnswersCharged charges.now entry.now rem.now starts.now need }
{
    if need == 0 {
        return false;
    }
    if rem.len() != charges.len() {
        return false;
    }
    if units_left(rem) != units_left(entry.rem.as_slice()) {
        return false;
    }
    if !is_no_later(entry.starts.as_slice(), starts) {
        return false;
    }
    is_above(entry.least, need, charges_left(charges, rem))
}

/// Whether an entry answers a state and a need.
///
/// `rem` has the units left of each model, at most 16,000 together, and `charges` the charge of each model, 0 to 10^14,
/// or nothing where there are none. An entry by Charge has at most 16,000 units. Takes no memory, and time proportional
/// to models and stations.
pub fn answers(charges: &[u64], entry: &SeqEntry, rem: &[u64], starts: &[u64], need: u64) -> bool
    requires limit { All (λ a. a ≤ 100000000000000) charges.now }
    requires few { sum rem.now ≤ 16000 }
    requires row { row_units entry.now ≤ 16000 }
    ensures { IsTrue result ↔ Answers charges.now entry.now rem.now starts.now need }
{
    match &entry.why {
        SeqWhy::Charge { .. } => answers_charged(charges, entry, rem, starts, need),
        SeqWhy::Bound | SeqWhy::Branch { .. } => answers_state(entry, rem, starts, need),
    }
}

/// The need that an entry would answer of a state of these units left, if it answers one: its value, or by Charge what
/// its base leaves above the charges of these units.
fn need_of(charges: &[u64], entry: &SeqEntry, rem: &[u64]) -> u64
    requires limit { All (λ a. a ≤ 100000000000000) charges.now }
    requires few { sum rem.now ≤ 16000 }
    ensures { (starts : List ℕ) → IsNeedIf charges.now entry.now rem.now starts result }
{
    match &entry.why {
        SeqWhy::Bound | SeqWhy::Branch { .. } => entry.least,
        SeqWhy::Charge { .. } => {
            if rem.len() != charges.len() {
                return 0;
            }
            let owed = charges_left(charges, rem);
            if entry.least <= owed {
                return 0;
            }
            (entry.least - 1 - owed) / 1000 + 1
        }
    }
}

/// The greatest need of a state that an entry answers, or 0.
///
/// Ranges and cost are those of `answers`.
pub fn answered_need(charges: &[u64], entry: &SeqEntry, rem: &[u64], starts: &[u64]) -> u64
    requires limit { All (λ a. a ≤ 100000000000000) charges.now }
    requires few { sum rem.now ≤ 16000 }
    requires row { row_units entry.now ≤ 16000 }
    ensures { IsGreatestNeed charges.now entry.now rem.now starts.now result }
{
    let need = need_of(charges, entry, rem);
    if answers(charges, entry, rem, starts, need) {
        need
    } else {
        0
    }
}

/// Whether an entry serves so many units from these starts and a need: whether it is by Charge and has as many units,
/// starts that are no later at any station, and a base of at least the need.
///
/// An entry has at most 16,000 units. Takes no memory, and time proportional to the stations.
pub fn serves(entry: &SeqEntry, units: u64, starts: &[u64], need: u64) -> bool
    requires row { row_units entry.now ≤ 16000 }
    ensures { IsTrue result ↔ Serves entry.now units starts.now need }
{
    let SeqWhy::Charge { .. } = &entry.why else {
        return false;
    };
    if units_left(entry.rem.as_slice()) != units {
        return false;
    }
    if entry.least < need {
        return false;
    }
    is_no_later(entry.starts.as_slice(), starts)
}
