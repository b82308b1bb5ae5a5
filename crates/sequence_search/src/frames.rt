//! The frames of a try, and one step of a frame.
ghost use Rattle.std.specs.Prelude.{◌≡◌, ℕ, ◌-◌, ◌<◌, ◌≤◌, length, slice_index, true, false, IsNone, IfSome, IfOk};
ghost use Rattle.std.specs.Prelude.{replicate, sum, None, []};
ghost use Rattle.sequence_rules.specs.States.{step_cost, next_starts, less_one, state_bound, root_starts};
ghost use Rattle.sequence_rules.specs.Entries.{is_left};
ghost use Rattle.sequence_rules.specs.Ranges.{AreTimes, IsState};
ghost use Rattle.sequence_rules.specs.Trails.{up_to};
ghost use Rattle.sequence_search.specs.Steps.{IsNextModel, IsNoModel, StepsTo};

use crate::book::Book;
use crate::outcome::Stepped;
use sequence_rules::{MAX_STATIONS, launch, state_bound, step, units_left};
use sequence_values::{Numbers, SeqFrame, Times};
use std::alloc::{AllocError, Global};
use utility_work::MAX_MODELS;

/// A list of these numbers.
pub(crate) fn listed(alloc: Global, items: &[u64]) -> Result<Numbers, AllocError>
    ensures { IfOk result (λ v. v ≡ items.now) }
{
    Ok(Numbers::from_vec(Vec::from_slice(alloc, items)?))
}

/// The first model from `from` on of which a unit is left.
pub(crate) fn next_model(rem: &[u64], from: usize) -> Option<u32>
    requires { length rem.now ≤ 16 }
    ensures none { IsNone result → IsNoModel rem.now from }
    ensures some { IfSome result (IsNextModel rem.now from) }
{
    for m in from..rem.len() {
        if rem[m] > 0 {
            return Some(m as u32);
        }
    }
    None
}

/// How many models there are up to the last one that was tried.
pub(crate) fn up_to(last: Option<u32>) -> usize
    ensures { result ≡ up_to last }
{
    match last {
        None => 0,
        Some(model) => model as usize + 1,
    }
}

/// The frame of the root with a need.
pub(crate) fn root_frame(alloc: Global, times: &Times, need: u64) -> Result<SeqFrame, AllocError>
    ensures rem { IfOk result (λ f. f.rem ≡ times.now.demands) }
    ensures starts { IfOk result (λ f. f.starts ≡ root_starts times.now) }
    ensures need { IfOk result (λ f. f.need ≡ need) }
    ensures last { IfOk result (λ f. f.last ≡ None) }
    ensures cites { IfOk result (λ f. f.cites ≡ []) }
{
    Ok(SeqFrame {
        rem: times.demands.copy()?,
        starts: Numbers::from_vec(vec![in alloc; 0; times.stations as usize]?),
        need,
        last: None,
        cites: Numbers::from_vec(Vec::new(alloc)),
    })
}

/// What the step of a frame by a model comes to.
pub(crate) fn step_by(
    alloc: Global,
    times: &Times,
    interval: u64,
    reach: u64,
    entries: &Book,
    frame: &SeqFrame,
    model: usize,
) -> Result<Stepped, AllocError>
    requires times { AreTimes times.now }
    requires interval { interval ≤ 1000000000 }
    requires reach { reach ≤ 1000000000 }
    requires state { IsState (length times.now.demands) times.now.stations frame.now.rem frame.now.starts }
    requires few { sum frame.now.rem ≤ 16000 }
    requires model { model < length frame.now.rem }
    requires left { is_left frame.now.rem model ≡ true }
    ensures { IfOk result (λ s. StepsTo times.now interval reach entries.now frame.now model s) }
{
    let rem = frame.rem.as_slice();
    let starts = frame.starts.as_slice();
    let mut lefts = [0; MAX_MODELS];
    let mut nexts = [0; MAX_STATIONS];
    let left = &mut lefts[..rem.len()];
    let next = &mut nexts[..starts.len()];
    launch(rem, model, left);
    let cost = step(times, interval, reach, model, starts, next);
    if cost >= frame.need {
        return Ok(Stepped::Passed);
    }
    let need = frame.need - cost;
    if state_bound(times, interval, reach, left, next) >= need {
        return Ok(Stepped::Passed);
    }
    if let Some(id) = entries.last_answer(left, next, need) {
        return Ok(Stepped::Answered(id));
    }
    if units_left(left) == 0 {
        return Ok(Stepped::Ends);
    }
    Ok(Stepped::Opens(SeqFrame {
        rem: listed(alloc, left)?,
        starts: listed(alloc, next)?,
        need,
        last: None,
        cites: Numbers::from_vec(Vec::new(alloc)),
    }))
}
