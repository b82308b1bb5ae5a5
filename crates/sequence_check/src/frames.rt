//! The check of the frames of a trail.
ghost use Rattle.std.specs.Prelude.{◌≡◌, ℕ, ◌<◌, ◌≤◌, ◌↔◌, length, replicate, slice_get, Some, IsTrue};
ghost use Rattle.sequence_values.specs.declared.types.SeqFrame.{SeqFrame as Open};
ghost use Rattle.sequence_rules.specs.Trails.{IsRoot, IsLeftBy, IsAskedAt, EndsWell, matched_to, is_deepest};
ghost use Rattle.sequence_rules.specs.Ranges.{IsLast, IsNumber};
ghost use Rattle.sequence_check.specs.Walks.{IsPosed, AreCitable};
ghost use Rattle.sequence_check.specs.Frames.{IsPosedFrame, IsReadyAt, IsFoundAt, AreFramesFound};

use crate::types::{Checked, FramesFound, SeqFrameFault, Walked};
use crate::walks::{first_late, walk};
use sequence_rules::{MAX_MODELS, MAX_STATIONS, is_same, launch, step};
use sequence_values::{SeqEntries, SeqFrame, SeqFrames, Times};

/// Whether there are so many starts, all of them 0.
fn are_noughts(starts: &[u64], stations: usize) -> bool
    ensures { IsTrue result ↔ starts.now ≡ replicate stations 0 }
{
    if starts.len() != stations {
        return false;
    }
    for k in 0..starts.len() {
        if starts[k] != 0 {
            return false;
        }
    }
    true
}

/// Whether a frame has the root.
fn is_root(times: &Times, frame: &SeqFrame) -> bool
    ensures { IsTrue result ↔ IsRoot times.now frame.now }
{
    if !is_same(frame.rem.as_slice(), times.demands.as_slice()) {
        return false;
    }
    are_noughts(frame.starts.as_slice(), times.stations as usize)
}

/// Whether a frame has what the step by the last model of the frame above it leaves.
fn is_left_by(times: &Times, interval: u64, reach: u64, above: &SeqFrame, frame: &SeqFrame) -> bool
    requires above { IsPosedFrame times.now interval reach above.now }
    requires need { IsNumber frame.now.need }
    ensures { IsTrue result ↔ IsLeftBy times.now interval reach above.now frame.now }
{
    let Some(model) = above.last else {
        return false;
    };
    let rem = above.rem.as_slice();
    let starts = above.starts.as_slice();
    let mut lefts = [0; MAX_MODELS];
    let mut nexts = [0; MAX_STATIONS];
    let left = &mut lefts[..rem.len()];
    let next = &mut nexts[..starts.len()];
    launch(rem, model as usize, left);
    let cost = step(times, interval, reach, model as usize, starts, next);
    if frame.need + cost != above.need {
        return false;
    }
    if !is_same(frame.rem.as_slice(), left) {
        return false;
    }
    is_same(frame.starts.as_slice(), next)
}

/// Whether the frame `j` has the question that it should have.
fn is_asked(
    times: &Times,
    interval: u64,
    reach: u64,
    frames: &SeqFrames,
    j: usize,
    frame: &SeqFrame,
) -> bool
    requires there { slice_get frames.now j ≡ Some frame.now }
    requires posed { (i : ℕ) (f : Open) → slice_get frames.now i ≡ Some f → IsPosedFrame times.now interval reach f }
    ensures { IsTrue result ↔ IsAskedAt times.now interval reach frames.now j frame.now }
{
    if j == 0 {
        return is_root(times, frame);
    }
    let _many = frames.len();
    is_left_by(times, interval, reach, frames.at(j - 1), frame)
}

/// Whether a unit of the last model is left; above the deepest frame there has to be a last model.
fn ends_well(deepest: bool, rem: &[u64], last: Option<u32>) -> bool
    requires { IsLast (length rem.now) last }
    ensures { IsTrue result ↔ EndsWell deepest rem.now last }
{
    match last {
        None => deepest,
        Some(model) => rem[model as usize] > 0,
    }
}

/// The steps below this number are matched with cites.
fn matched_to(deepest: bool, last: Option<u32>) -> usize
    ensures { result ≡ matched_to deepest last }
{
    match last {
        None => 0,
        Some(model) => {
            if deepest {
                model as usize + 1
            } else {
                model as usize
            }
        }
    }
}

/// Walks over the steps of a frame up to its last, where all that is asked before has held.
fn walk_frame(
    times: &Times,
    interval: u64,
    reach: u64,
    charges: &[u64],
    entries: &SeqEntries,
    frames: &SeqFrames,
    j: usize,
    frame: &SeqFrame,
    deepest: bool,
    steps: u64,
) -> Checked<SeqFrameFault>
    requires posed { IsPosedFrame times.now interval reach frame.now }
    requires citable { AreCitable charges.now entries.now }
    requires ready { IsReadyAt times.now interval reach charges.now entries.now frames.now j frame.now }
    requires deepest { deepest ≡ is_deepest frames.now j }
    ensures { IsFoundAt times.now interval reach charges.now entries.now frames.now j frame.now steps result }
{
    let matched = matched_to(deepest, frame.last);
    let cites = &frame.cites;
    let (mut units, taken) = match walk(
        times,
        interval,
        reach,
        charges,
        entries,
        entries.len(),
        frame.rem.as_slice(),
        frame.starts.as_slice(),
        frame.need,
        cites,
        matched,
        steps,
    ) {
        Walked::Through { units, taken } => (units, taken),
        Walked::Uncovered { model, units } => {
            return Checked::Fails {
                why: SeqFrameFault::Uncovered(model),
                units,
            };
        }
        Walked::StepsEnded => return Checked::StepsEnded,
    };
    if !deepest {
        if units >= steps {
            return Checked::StepsEnded;
        }
        units += 1;
    }
    if taken < cites.len() {
        return Checked::Fails {
            why: SeqFrameFault::Spare,
            units,
        };
    }
    Checked::Right { units }
}

/// Checks the frame `j` of a trail.
fn check_frame(
    times: &Times,
    interval: u64,
    reach: u64,
    charges: &[u64],
    entries: &SeqEntries,
    frames: &SeqFrames,
    j: usize,
    frame: &SeqFrame,
    steps: u64,
) -> Checked<SeqFrameFault>
    requires citable { AreCitable charges.now entries.now }
    requires few { length frames.now ≤ 1001 }
    requires there { slice_get frames.now j ≡ Some frame.now }
    requires posed { (i : ℕ) (f : Open) → slice_get frames.now i ≡ Some f → IsPosedFrame times.now interval reach f }
    ensures { IsFoundAt times.now interval reach charges.now entries.now frames.now j frame.now steps result }
{
    let many = frames.len();
    let deepest = j + 1 == many;
    if !is_asked(times, interval, reach, frames, j, frame) {
        return Checked::Fails {
            why: SeqFrameFault::Set,
            units: 0,
        };
    }
    if !ends_well(deepest, frame.rem.as_slice(), frame.last) {
        return Checked::Fails {
            why: SeqFrameFault::Last,
            units: 0,
        };
    }
    if let Some(cite) = first_late(&frame.cites, entries.len() as u64) {
        return Checked::Fails {
            why: SeqFrameFault::Cite(cite),
            units: 0,
        };
    }
    walk_frame(
        times, interval, reach, charges, entries, frames, j, frame, deepest, steps,
    )
}

/// Checks the frames of a trail in order, up to the first that isn't what it should be. Which need the first frame may
/// have isn't tested. At most `steps` steps are walked.
pub(crate) fn check_frames(
    times: &Times,
    interval: u64,
    reach: u64,
    charges: &[u64],
    entries: &SeqEntries,
    frames: &SeqFrames,
    steps: u64,
) -> FramesFound
    requires citable { AreCitable charges.now entries.now }
    requires few { length frames.now ≤ 1001 }
    requires posed { (i : ℕ) (f : Open) → slice_get frames.now i ≡ Some f → IsPosedFrame times.now interval reach f }
    ensures { AreFramesFound times.now interval reach charges.now entries.now frames.now steps result }
{
    let mut units: u64 = 0;
    for j in 0..frames.len() {
        let frame = frames.at(j);
        match check_frame(
            times,
            interval,
            reach,
            charges,
            entries,
            frames,
            j,
            frame,
            steps - units,
        ) {
            Checked::Right { units: more } => units += more,
            Checked::Fails { why, .. } => {
                return FramesFound::Refused {
                    frame: j as u32,
                    why,
                };
            }
            Checked::StepsEnded => return FramesFound::StepsEnded,
        }
    }
    FramesFound::Right { units }
}
