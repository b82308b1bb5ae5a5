//! The check of a certificate, in the order of its parts: the sequence, the entries, the lower bound and the frames.
ghost use Rattle.std.specs.Prelude.{◌≡◌, ℕ, ◌↔◌, ◌≤◌, length, sum, IsTrue, IsNone, IfSome};
ghost use Rattle.sequence_rules.specs.Charges.{listed_charges};
ghost use Rattle.sequence_rules.specs.Entries.{HasAnswer};
ghost use Rattle.sequence_rules.specs.Trails.{IsAllowed};
ghost use Rattle.sequence_rules.specs.Accepted.{IsShownLower};
ghost use Rattle.sequence_rules.specs.Ranges.{AreTimes, IsPlace, IsInRange};
ghost use Rattle.sequence_check.specs.Walks.{AreCitable};
ghost use Rattle.sequence_check.specs.Verdicts.{IsOfLine, IsShown, FailsFirst, IsVerdict, IsTrueOf, IsRejectedSo};

use crate::entries::check_entries;
use crate::frames::check_frames;
use crate::types::{EntriesFound, FramesFound, SeqFrameFault, SeqPlace, SeqVerified};
use sequence_rules::{MAX_STATIONS, answers, is_sequence_of, sequence_cost};
use sequence_values::{SeqCert, SeqEntries, SeqFrames, Times};

/// The first thing that is wrong with the sequence of a certificate, if it isn't one of the demands that costs the
/// upper bound.
fn sequence_fault(times: &Times, interval: u64, reach: u64, cert: &SeqCert) -> Option<SeqPlace>
    requires times { AreTimes times.now }
    requires reach { IsPlace reach }
    requires range { IsInRange cert.now }
    ensures none { IsNone result → IsShown times.now interval reach cert.now }
    ensures some { IfSome result (λ place. (steps : ℕ) → FailsFirst times.now interval reach cert.now steps place) }
{
    if cert.models as usize != times.demands.len() {
        return Some(SeqPlace::Models(cert.models));
    }
    if cert.stations != times.stations {
        return Some(SeqPlace::Stations(cert.stations));
    }
    let sequence = cert.sequence.as_slice();
    if !is_sequence_of(times.demands.as_slice(), sequence) {
        return Some(SeqPlace::Sequence);
    }
    let total = sequence_cost(times, interval, reach, sequence);
    if total != cert.upper {
        return Some(SeqPlace::Total(total));
    }
    None
}

/// Whether an entry of a list answers a state and a need. One pass over the entries.
fn has_answer(charges: &[u64], entries: &SeqEntries, rem: &[u64], starts: &[u64], need: u64) -> bool
    requires citable { AreCitable charges.now entries.now }
    requires few { sum rem.now ≤ 16000 }
    ensures some { IsTrue result → HasAnswer charges.now entries.now rem.now starts.now need }
    ensures none { HasAnswer charges.now entries.now rem.now starts.now need → IsTrue result }
{
    for k in 0..entries.len() {
        if answers(charges, entries.at(k), rem, starts, need) {
            return true;
        }
    }
    false
}

/// Whether an entry shows the lower bound of the root, where that is above 0.
fn shows_lower(times: &Times, charges: &[u64], cert: &SeqCert) -> bool
    requires times { AreTimes times.now }
    requires charges { charges.now ≡ listed_charges cert.now.charges }
    requires citable { AreCitable charges.now cert.now.entries }
    ensures { IsTrue result ↔ IsShownLower times.now cert.now }
{
    if cert.lower == 0 {
        return true;
    }
    let noughts = [0; MAX_STATIONS];
    let starts = &noughts[..times.stations as usize];
    has_answer(
        charges,
        &cert.entries,
        times.demands.as_slice(),
        starts,
        cert.lower,
    )
}

/// Whether the first frame, where there is one, has a need between the bounds.
fn is_allowed(lower: u64, upper: u64, frames: &SeqFrames) -> bool
    ensures { IsTrue result ↔ IsAllowed lower upper frames.now }
{
    if frames.is_empty() {
        return true;
    }
    let need = frames.at(0).need;
    lower < need && need <= upper
}

/// What is found of a certificate with these charges.
fn judge_charged(
    times: &Times,
    interval: u64,
    reach: u64,
    charges: &[u64],
    cert: &SeqCert,
    steps: u64,
) -> SeqVerified
    requires times { AreTimes times.now }
    requires interval { IsPlace interval }
    requires reach { IsPlace reach }
    requires charges { charges.now ≡ listed_charges cert.now.charges }
    requires range { IsInRange cert.now }
    ensures { IsVerdict times.now interval reach cert.now steps result }
{
    if let Some(place) = sequence_fault(times, interval, reach, cert) {
        return SeqVerified::Refused(place);
    }
    let units = match check_entries(times, interval, reach, charges, &cert.entries, steps) {
        EntriesFound::Right { units } => units,
        EntriesFound::Refused { entry, why } => {
            return SeqVerified::Refused(SeqPlace::Entry { entry, why });
        }
        EntriesFound::StepsEnded => return SeqVerified::StepsEnded(steps),
    };
    if !shows_lower(times, charges, cert) {
        return SeqVerified::Refused(SeqPlace::Goal);
    }
    if !is_allowed(cert.lower, cert.upper, &cert.frames) {
        return SeqVerified::Refused(SeqPlace::Frame {
            frame: 0,
            why: SeqFrameFault::Allowed,
        });
    }
    match check_frames(
        times,
        interval,
        reach,
        charges,
        &cert.entries,
        &cert.frames,
        steps - units,
    ) {
        FramesFound::Right { units: more } => SeqVerified::Accepted {
            lower: cert.lower,
            upper: cert.upper,
            units: units + more,
        },
        FramesFound::Refused { frame, why } => {
            SeqVerified::Refused(SeqPlace::Frame { frame, why })
        }
        FramesFound::StepsEnded => SeqVerified::StepsEnded(steps),
    }
}

/// What is found of a certificate.
fn judge(times: &Times, interval: u64, reach: u64, cert: &SeqCert, steps: u64) -> SeqVerified
    requires times { AreTimes times.now }
    requires interval { IsPlace interval }
    requires reach { IsPlace reach }
    requires range { IsInRange cert.now }
    ensures { IsVerdict times.now interval reach cert.now steps result }
{
    match &cert.charges {
        Some(charges) => judge_charged(times, interval, reach, charges.as_slice(), cert, steps),
        None => judge_charged(times, interval, reach, &[], cert, steps),
    }
}

/// Checks a certificate: that its sequence is one of the demands that costs the upper bound, that each entry follows
/// from those before it, that an entry shows the lower bound, and that the frames of a search that stopped are a valid
/// trail.
///
/// `interval` is the launch interval and `reach` the length of each station, in the mix's time unit, 1 to 10^9. At most
/// `steps` steps are walked. Whatever is accepted is true: the sequence has this utility work, and no sequence of the
/// demands has less than the lower bound. Takes no memory, and time proportional to the steps times stations times
/// models, besides one pass over the entries and one over the sequence for each station and each model.
pub fn verify_seq(
    times: &Times,
    interval: u64,
    reach: u64,
    cert: &SeqCert,
    steps: u64,
) -> SeqVerified
    requires times { AreTimes times.now }
    requires interval { IsPlace interval }
    requires reach { IsPlace reach }
    requires range { IsInRange cert.now }
    ensures verdict { IsVerdict times.now interval reach cert.now steps result }
    ensures proved { IsTrueOf times.now interval reach cert.now result }
    ensures rejected { IsRejectedSo times.now interval reach cert.now steps result }
{
    judge(times, interval, reach, cert, steps)
}
