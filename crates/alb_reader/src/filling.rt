//! What the lines of a text say of its tasks: their times, and their pairs.
//!
//! This is the second pass, over the lines that were kept, when the number of tasks is known. A table with a place for
//! each task tells which task is named twice, and then which one isn't named. Each line is looked at once.
ghost use Rattle.std.specs.Prelude.{◌≡◌, ◌≤◌, ◌<◌, ◌^◌, ◌&&◌, nat_le, ℕ, None, List, length, map, replicate, IfOk};
ghost use Rattle.std.specs.Prelude.{IsTrue};
ghost use Rattle.in2_reader.specs.Contents.{Lines};
ghost use Rattle.alb_reader.specs.inner.Drafts.{time_line, pair_line};
ghost use Rattle.alb_reader.specs.inner.Fillings.{GivesTimes, GivesWhole, IsTimesRead, IsArcsRead, named_arc};

use crate::draft::{PairLine, TimeLine};
use crate::fault::{AlbError, AlbKind, fault};
use line_instance::Prec;
use std::alloc::{AllocError, Global};

// No time yet for any of so many tasks.
fn no_times(alloc: Global, tasks: usize) -> Result<Vec<Option<u64>>, AllocError>
    ensures { IfOk result (λ v. v.items ≡ replicate tasks None) }
{
    vec![in alloc; None; tasks]
}

// Whether a number is that of one of so many tasks.
fn is_task(number: u64, tasks: usize) -> bool
    ensures value { result ≡ (nat_le 1 number && nat_le number tasks) }
    ensures task { IsTrue result → (1 ≤ number) × (number ≤ tasks) }
{
    number >= 1 && number <= tasks as u64
}

// The time that is given to each task, or the first line of task times that names none of them, or one that was named
// before.
fn given_times(
    alloc: Global,
    tasks: usize,
    lines: &[TimeLine],
) -> Result<Vec<Option<u64>>, AlbError>
    requires { tasks ≤ 1024 }
    ensures given { (under : Lines) → lines.now ≡ map time_line under → GivesTimes tasks under result }
    ensures many { IfOk result (λ v. length v.items ≡ tasks) }
{
    let mut times = no_times(alloc, tasks)?;
    for k in 0..lines.len() {
        let line = lines[k];
        if !is_task(line.task, tasks) {
            return Err(fault(line.line, AlbKind::BadTask));
        }
        let task = (line.task - 1) as usize;
        if times[task].is_some() {
            return Err(fault(line.line, AlbKind::RepeatedTask));
        }
        times[task] = Some(line.time);
    }
    Ok(times)
}

// The times of all tasks, or the least task that has none; `end` is the line of the end mark.
fn whole_times(alloc: Global, given: &[Option<u64>], end: u64) -> Result<Vec<u64>, AlbError>
    requires { length given.now ≤ 1024 }
    ensures { GivesWhole given.now end result }
{
    let mut times = Vec::new(alloc);
    for i in 0..given.len() {
        match given[i] {
            Some(time) => times.push(time)?,
            None => return Err(fault(end, AlbKind::MissingTask(i as u32))),
        }
    }
    Ok(times)
}

/// The times of so many tasks, or what is wrong with them.
pub fn times_of(
    alloc: Global,
    tasks: usize,
    lines: &[TimeLine],
    end: u64,
) -> Result<Vec<u64>, AlbError>
    requires { tasks ≤ 1024 }
    ensures { (under : Lines) → lines.now ≡ map time_line under → IsTimesRead tasks under end result }
{
    let given = given_times(alloc, tasks, lines)?;
    whole_times(alloc, &given, end)
}

// The pair, where both of its members are of so many tasks.
fn named_arc(tasks: u32, arc: Option<Prec>) -> Option<Prec>
    ensures { result ≡ named_arc tasks arc }
{
    let arc = arc?;
    if arc.first < tasks && arc.then < tasks {
        return Some(arc);
    }
    None
}

/// The pairs, each of two of so many tasks, or the first line with a member that isn't one.
pub fn arcs_of(alloc: Global, tasks: u32, lines: &[PairLine]) -> Result<Vec<Prec>, AlbError>
    ensures { (under : Lines) → lines.now ≡ map pair_line under → IsArcsRead tasks under result }
{
    let mut arcs = Vec::new(alloc);
    for k in 0..lines.len() {
        let line = lines[k];
        match named_arc(tasks, line.arc) {
            Some(arc) => arcs.push(arc)?,
            None => return Err(fault(line.line, AlbKind::BadArc)),
        }
    }
    Ok(arcs)
}
