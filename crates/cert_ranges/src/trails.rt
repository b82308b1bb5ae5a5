//! The open frames of a search within their ranges.
ghost use Rattle.std.specs.Prelude.{◌↔◌, IsTrue};
ghost use Rattle.line_rules.specs.Loads.{Suits};
ghost use Rattle.line_rules.specs.Ranges.{IsFrame, IsLast, IsLoadLike, IsTrailLike, IsTrailOrNone};

use crate::entries::{MAX_STATIONS, are_cites};
use crate::sets::{is_cycle, is_of};
use line_rules::{Load, Mode, OpenFrame, Trail};

/// The most frames of a trail.
const MAX_FRAMES: usize = 1024;

/// Whether the trail beside a list of `count` entries, where there is one, is within its ranges.
pub(crate) fn is_trail_or_none(trail: &Option<Trail>, tasks: u32, count: usize) -> bool
    ensures { IsTrue result ↔ IsTrailOrNone tasks count trail.now }
{
    match trail {
        None => true,
        Some(trail) => is_trail(trail, tasks, count),
    }
}

/// Whether a trail has 1 to 1,024 frames, each within its ranges.
fn is_trail(trail: &Trail, tasks: u32, count: usize) -> bool
    ensures { IsTrue result ↔ IsTrailLike tasks count trail.now }
{
    let many = trail.frames.len();
    if !is_cycle(trail.cycle) || many < 1 || many > MAX_FRAMES {
        return false;
    }
    for k in 0..many {
        if !is_frame(trail.frames.at(k), tasks, count) {
            return false;
        }
    }
    true
}

/// Whether a frame beside a list of `count` entries is within its ranges.
fn is_frame(frame: &OpenFrame, tasks: u32, count: usize) -> bool
    ensures { IsTrue result ↔ IsFrame tasks count frame.now }
{
    is_of(&frame.set, tasks)
        && frame.most <= MAX_STATIONS
        && is_last(&frame.last, frame.mode, tasks)
        && are_cites(&frame.cites, count)
}

/// Whether the last load of a frame, where there is one, is within its ranges.
fn is_last(last: &Option<Load>, mode: Mode, tasks: u32) -> bool
    ensures { IsTrue result ↔ IsLast tasks mode last.now }
{
    match last {
        None => true,
        Some(load) => is_load_like(load, mode, tasks),
    }
}

/// Whether a load has tasks of the line, and none in a part that its mode doesn't fill.
fn is_load_like(load: &Load, mode: Mode, tasks: u32) -> bool
    ensures { IsTrue result ↔ IsLoadLike tasks mode load.now }
{
    is_of(&load.front, tasks) && is_of(&load.back, tasks) && suits(mode, load)
}

/// Whether the part of a load that its mode doesn't fill is empty.
fn suits(mode: Mode, load: &Load) -> bool
    ensures { IsTrue result ↔ Suits mode load.now }
{
    match mode {
        Mode::Fore => load.back.is_empty(),
        Mode::Back => load.front.is_empty(),
        Mode::Both => true,
    }
}
