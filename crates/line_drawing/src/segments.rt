//! Where the tasks of a station are drawn.
//!
//! The tasks in front begin at the left, one behind the other in the order of their ranks; those at the back end at the
//! right in the same order. What isn't used stays free between them.
ghost use Rattle.std.specs.Prelude.{◌≡◌, ◌≤◌, ◌<◌, ◌^◌, ◌+◌, [], ◌∷◌, ◌++◌, All, cond, IfOk, OnOk, length};
ghost use Rattle.line_instance.specs.Line.{tasks};
ghost use Rattle.line_drawing.specs.Figures.{sum_at};
ghost use Rattle.line_drawing.specs.Segments.{backs_of, fronts_from, position, segments_at, stands, tasks_at, times_of};

use line_instance::Instance;
use line_rules::{Places, Seatplace, Side};
use std::alloc::{AllocError, Global};

/// How long a row is: the length of a cycle, in the units of the picture.
const ROW: u128 = 800;

/// A task in the row of its station.
#[derive(Clone, Copy, Debug)]
pub struct Segment {
    /// The task, from 0.
    pub task: u32,
    /// The side that it is done at.
    pub side: Side,
    /// Its time, in the instance's time unit.
    pub time: u64,
    /// Where the segment begins, 0 to 800.
    pub x: u64,
    /// How long it is, 0 to 800.
    pub width: u64,
}

/// Where a sum of times ends in a row that is a cycle long.
fn position(cycle: u64, sum: u64) -> u64
    requires some { 1 ≤ cycle }
    requires within { sum ≤ cycle }
    ensures place { result ≡ position cycle sum }
    ensures limit { result ≤ 800 }
{
    (ROW * u128::from(sum) / u128::from(cycle)) as u64
}

/// Whether a place is at a station, on a side.
fn stands(side: Side, station: u32, place: &Seatplace) -> bool
    ensures { result ≡ stands side station place.now }
{
    place.side == side && place.station == station
}

/// Puts a task behind others, where it is wanted.
fn keep(found: &mut Vec<u32>, task: u32, wanted: bool) -> Result<(), AllocError>
    ensures { OnOk result (found.new.items ≡ found.old.items ++ cond wanted (task ∷ []) []) }
{
    if wanted {
        found.push(task)?;
    }
    Ok(())
}

/// The tasks at a station on a side, in the order of their ranks.
fn tasks_at(
    alloc: Global,
    inst: &Instance,
    places: &Places,
    side: Side,
    station: u32,
) -> Result<Vec<u32>, AllocError>
    requires { length places.now ≡ tasks inst.now }
    ensures tasks { IfOk result (λ v. v.items ≡ tasks_at inst.now places.now side station) }
    ensures within { IfOk result (λ v. All (λ i. i < tasks inst.now) v.items) }
{
    let mut found = Vec::new(alloc);
    for rank in 0..inst.tasks() {
        let task = inst.at_rank(rank);
        let wanted = stands(side, station, places.at(task as usize));
        keep(&mut found, task, wanted)?;
    }
    Ok(found)
}

/// The times of tasks together.
fn times_of(inst: &Instance, ranked: &[u32]) -> u64
    requires tasks { All (λ i. i < tasks inst.now) ranked.now }
    requires fits { times_of inst.now ranked.now < 2 ^ 64 }
    ensures { result ≡ times_of inst.now ranked.now }
{
    let mut sum = 0;
    for task in ranked {
        sum += inst.time(*task);
    }
    sum
}

/// Puts the segments of tasks in front behind others.
fn push_fronts(
    segments: &mut Vec<Segment>,
    inst: &Instance,
    cycle: u64,
    ranked: &[u32],
) -> Result<(), AllocError>
    requires tasks { All (λ i. i < tasks inst.now) ranked.now }
    requires some { 1 ≤ cycle }
    requires fits { times_of inst.now ranked.now ≤ cycle }
    ensures { OnOk result (segments.new.items ≡ segments.old.items ++ fronts_from inst.now cycle 0 ranked.now) }
{
    let mut sum = 0;
    for task in ranked {
        let time = inst.time(*task);
        let x = position(cycle, sum);
        sum += time;
        segments.push(Segment {
            task: *task,
            side: Side::Front,
            time,
            x,
            width: position(cycle, sum) - x,
        })?;
    }
    Ok(())
}

/// Puts the segments of tasks at the back behind others.
fn push_backs(
    segments: &mut Vec<Segment>,
    inst: &Instance,
    cycle: u64,
    ranked: &[u32],
) -> Result<(), AllocError>
    requires tasks { All (λ i. i < tasks inst.now) ranked.now }
    requires some { 1 ≤ cycle }
    requires fits { times_of inst.now ranked.now ≤ cycle }
    ensures { OnOk result (segments.new.items ≡ segments.old.items ++ backs_of inst.now cycle ranked.now) }
{
    let mut left = times_of(inst, ranked);
    for task in ranked {
        let time = inst.time(*task);
        let from = position(cycle, left);
        left -= time;
        segments.push(Segment {
            task: *task,
            side: Side::Back,
            time,
            x: 800 - from,
            width: from - position(cycle, left),
        })?;
    }
    Ok(())
}

/// The segments of a station: those of its tasks in front, and then those at the back.
pub fn segments_at(
    alloc: Global,
    inst: &Instance,
    cycle: u64,
    places: &Places,
    station: u32,
) -> Result<Vec<Segment>, AllocError>
    requires each { length places.now ≡ tasks inst.now }
    requires some { 1 ≤ cycle }
    requires fits { sum_at inst.now places.now station ≤ cycle }
    ensures { IfOk result (λ v. v.items ≡ segments_at inst.now cycle places.now station) }
{
    let _tasks = inst.tasks();
    let front = tasks_at(alloc, inst, places, Side::Front, station)?;
    let back = tasks_at(alloc, inst, places, Side::Back, station)?;
    let mut segments = Vec::new(alloc);
    push_fronts(&mut segments, inst, cycle, &front)?;
    push_backs(&mut segments, inst, cycle, &back)?;
    Ok(segments)
}
