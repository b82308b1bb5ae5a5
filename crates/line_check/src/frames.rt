//! The check of the frames of a trail.
//!
//! The first frame asks about all tasks, and each further one about the rest of the last load above it, in one station
//! less. So a frame costs the loads up to its last one, and a trail has at most 1,024 frames. Which question the first
//! frame may ask is tested with the bounds of the certificate, so that a list with a trail needs no bounds.
ghost use Rattle.std.specs.Prelude.{◌≡◌, ◌<◌, ◌≤◌, ◌+◌, ◌↔◌, ℕ, length, slice_get, Some, IsTrue};
ghost use Rattle.line_instance.specs.Line.{IsTaskSet, tasks};
ghost use Rattle.line_rules.specs.Ranges.{IsCycle, IsFrame, IsTrailLike};
ghost use Rattle.line_rules.specs.declared.types.OpenFrame.{OpenFrame as Open};
ghost use Rattle.line_check.specs.Frames.{IsLeftBy, IsAskedAt, EndsWell, IsReadyAt, WalksTo, NeedsTo, IsFoundAt};
ghost use Rattle.line_check.specs.Frames.{AreFramesFound, is_deepest};
ghost use Rattle.line_check.specs.Walks.{AreBelow, Tells};

use crate::entries::{belongs, is_same};
use crate::pairs::is_load;
use crate::types::{Checked, FrameFault, FramesFound, Walked};
use crate::walks::{ended, first_late, walk_to};
use check_loads::full::is_full_load;
use check_loads::questions::{Question, rest, room};
use check_loads::sizes::times_in;
use line_instance::Instance;
use line_rules::{Entries, Frames, LineKind, OpenFrame, Trail};

/// Whether a frame has the question that the one above it leaves.
fn is_left_by(above: &OpenFrame, frame: &OpenFrame) -> bool
    ensures { IsTrue result ↔ IsLeftBy above.now frame.now }
{
    match &above.last {
        None => false,
        Some(load) => {
            if above.most == 0 {
                return false;
            }
            if !is_same(&frame.set, &rest(&above.set, load)) {
                return false;
            }
            frame.most == above.most - 1
        }
    }
}

/// Whether the frame `j` has the question that it should have.
fn is_asked(inst: &Instance, frames: &Frames, j: usize, frame: &OpenFrame) -> bool
    requires there { slice_get frames.now j ≡ Some frame.now }
    ensures { IsTrue result ↔ IsAskedAt inst.now frames.now j frame.now }
{
    let _tasks = inst.tasks();
    if j == 0 {
        return is_same(&frame.set, &inst.all());
    }
    let _many = frames.len();
    is_left_by(frames.at(j - 1), frame)
}

/// Whether the last load of a frame is one of its set; above the deepest frame there has to be one, and a full one.
fn ends_well(inst: &Instance, cycle: u64, frame: &OpenFrame, deepest: bool) -> bool
    requires range { (count : ℕ) × IsFrame (tasks inst.now) count frame.now }
    ensures { IsTrue result ↔ EndsWell deepest inst.now cycle frame.now.mode frame.now.set frame.now.last }
{
    match &frame.last {
        None => deepest,
        Some(load) => {
            if !is_load(inst, cycle, frame.mode, &frame.set, load) {
                return false;
            }
            if deepest {
                return true;
            }
            is_full_load(inst, cycle, &frame.set, frame.mode, load)
        }
    }
}

/// Walks over the loads of a frame up to its last.
fn walk_frame(
    inst: &Instance,
    kind: LineKind,
    entries: &Entries,
    cycle: u64,
    frame: &OpenFrame,
    deepest: bool,
    steps: u64,
) -> Walked
    requires set { IsTaskSet inst.now frame.now.set }
    requires cycle { IsCycle cycle }
    requires cites { AreBelow frame.now.cites (length entries.now) }
    requires last { EndsWell deepest inst.now cycle frame.now.mode frame.now.set frame.now.last }
    ensures { Tells inst.now (WalksTo inst.now cycle frame.now) (NeedsTo kind inst.now cycle deepest frame.now)
        entries.now frame.now.set frame.now.most cycle frame.now.cites steps result }
{
    match &frame.last {
        None => ended(&frame.cites, 0, 0),
        Some(end) => {
            let question = Question {
                kind,
                set: frame.set,
                most: frame.most,
                cycle,
                mode: frame.mode,
                times: times_in(inst, &frame.set),
                room: room(frame.most, cycle),
            };
            walk_to(inst, &question, entries, &frame.cites, end, deepest, steps)
        }
    }
}

/// Checks the frame `j` of a trail.
fn check_frame(
    inst: &Instance,
    kind: LineKind,
    entries: &Entries,
    cycle: u64,
    frames: &Frames,
    j: usize,
    frame: &OpenFrame,
    steps: u64,
) -> Checked<FrameFault>
    requires there { slice_get frames.now j ≡ Some frame.now }
    requires few { length frames.now ≤ 1024 }
    requires range { (count : ℕ) × IsFrame (tasks inst.now) count frame.now }
    requires cycle { IsCycle cycle }
    ensures { IsFoundAt kind inst.now cycle entries.now frames.now j frame.now steps result }
{
    let deepest = j + 1 == frames.len();
    if !is_asked(inst, frames, j, frame) {
        return Checked::Fails {
            why: FrameFault::Set,
            units: 0,
        };
    }
    if !belongs(kind, frame.mode) {
        return Checked::Fails {
            why: FrameFault::Mode,
            units: 0,
        };
    }
    if !ends_well(inst, cycle, frame, deepest) {
        return Checked::Fails {
            why: FrameFault::Last,
            units: 0,
        };
    }
    if let Some(cite) = first_late(&frame.cites, entries.len() as u64) {
        return Checked::Fails {
            why: FrameFault::Cite(cite),
            units: 0,
        };
    }
    match walk_frame(inst, kind, entries, cycle, frame, deepest, steps) {
        Walked::Right { units } => Checked::Right { units },
        Walked::Uncovered { load, units } => Checked::Fails {
            why: FrameFault::Uncovered(load),
            units,
        },
        Walked::Spare { units } => Checked::Fails {
            why: FrameFault::Spare,
            units,
        },
        Walked::StepsEnded => Checked::StepsEnded,
    }
}

/// Checks the frames of a trail in order, up to the first that isn't what it should be. Which question the first frame
/// may ask isn't tested. At most `steps` loads are walked. Takes no memory.
pub fn check_frames(
    inst: &Instance,
    kind: LineKind,
    entries: &Entries,
    trail: &Trail,
    steps: u64,
) -> FramesFound
    requires range { IsTrailLike (tasks inst.now) (length entries.now) trail.now }
    ensures { AreFramesFound kind inst.now trail.now.cycle entries.now trail.now.frames steps result }
{
    let mut units: u64 = 0;
    for j in 0..trail.frames.len() {
        let frame = trail.frames.at(j);
        match check_frame(
            inst,
            kind,
            entries,
            trail.cycle,
            &trail.frames,
            j,
            frame,
            steps - units,
        ) {
            Checked::Right { units: more } => units += more,
            Checked::Fails { why, .. } => {
                return FramesFound::Refused {
                    frame: j as u32,
                    why,
                };
            }
            Checked::StepsEnded => return FramesFound::StepsEnded,
        }
    }
    FramesFound::Right { units }
}
