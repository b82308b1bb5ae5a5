//! One try: whether some sequence costs less than a need.
//!
//! The frames are kept as those above and the deepest one. Each turn either takes a step of the deepest frame, which is
//! a unit, or publishes it, so that there are at most twice as many turns as units.
ghost use Rattle.std.specs.Prelude.{◌≡◌, ℕ, ◌+◌, ◌≤◌, ◌∷◌, ◌++◌, [], length, IfOk, OnOk};
ghost use Rattle.sequence_rules.specs.Entries.{units_of};
ghost use Rattle.sequence_rules.specs.Ranges.{AreTimes, IsPlace, IsNumber};
ghost use Rattle.sequence_search.specs.About.{About, charges_of};
ghost use Rattle.sequence_search.specs.inner.Paths.{lasts, IsBook};
ghost use Rattle.sequence_search.specs.inner.Tries.{entry_of, Tries};

use crate::book::Book;
use crate::frames::{next_model, root_frame, step_by, up_to};
use crate::outcome::{Stepped, Tried};
use sequence_values::{Numbers, SeqEntry, SeqFrame, SeqFrames, SeqWhy, Times};
use std::alloc::{AllocError, Global};

/// Publishes a frame whose models ended, and answers its entry's number.
fn publish(entries: &mut Book, frame: SeqFrame) -> Result<u64, AllocError>
    ensures number { IfOk result (λ id. id ≡ length entries.old) }
    ensures entries { OnOk result (entries.new ≡ entries.old ++ entry_of frame ∷ []) }
{
    let id = entries.len() as u64;
    let SeqFrame {
        rem,
        starts,
        need,
        last: _,
        cites,
    } = frame;
    entries.push(SeqEntry {
        rem,
        starts,
        least: need,
        why: SeqWhy::Branch { cites },
    })?;
    Ok(id)
}

/// The models of the frames' last steps, in order.
fn models_of(alloc: Global, frames: &SeqFrames) -> Result<Numbers, AllocError>
    ensures { IfOk result (λ v. v ≡ lasts frames.now) }
{
    let mut models = Vec::new(alloc);
    for k in 0..frames.len() {
        models.push(u64::from(frames.at(k).last.unwrap_or(0)))?;
    }
    Ok(Numbers::from_vec(models))
}

/// Asks whether some sequence costs less than a need, in at most `room` units.
pub(crate) fn attempt(
    alloc: Global,
    times: &Times,
    interval: u64,
    reach: u64,
    entries: &mut Book,
    need: u64,
    room: u64,
) -> Result<Tried, AllocError>
    ghost about: { About }
    requires times { AreTimes times.now }
    requires interval { IsPlace interval }
    requires reach { IsPlace reach }
    requires need { IsNumber need }
    requires book { IsBook times.now interval reach about entries.old need }
    requires few { units_of (charges_of about) entries.old + room ≤ 3000000 }
    requires kept { length about.kept ≤ 2000000 }
    ensures { IfOk result (λ tried. Tries times.now interval reach about need room entries.old entries.new tried) }
{
    let mut above = SeqFrames::from_vec(Vec::new(alloc));
    let mut top = root_frame(alloc, times, need)?;
    let mut used: u64 = 0;
    'turns: loop {
        let Some(model) = next_model(top.rem.as_slice(), up_to(top.last)) else {
            let id = publish(entries, top)?;
            let Some(frame) = above.pop() else {
                return Ok(Tried::Refuted);
            };
            top = frame;
            top.cites.push(id)?;
            continue;
        };
        if used >= room {
            above.push(top)?;
            return Ok(Tried::Stopped(above));
        }
        used += 1;
        top.last = Some(model);
        match step_by(alloc, times, interval, reach, entries, &top, model as usize)? {
            Stepped::Passed => {}
            Stepped::Answered(id) => top.cites.push(id)?,
            Stepped::Ends => {
                above.push(top)?;
                return Ok(Tried::Found(models_of(alloc, &above)?));
            }
            Stepped::Opens(frame) => {
                above.push(top)?;
                top = frame;
            }
        }
    }
}
