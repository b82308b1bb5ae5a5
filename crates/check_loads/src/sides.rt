//! The two sides of a load, front and back, by one code.
//!
//! The back is the front with before and after exchanged, and with ranks counted from the end. These small calls say so
//! once, and all other code goes over a side without asking which. They are inlined, and cost one comparison.
ghost use Rattle.std.specs.Prelude.{◌≡◌, ◌<◌, ◌↔◌, ℕ, IsNone, IfSome};
ghost use Rattle.line_instance.specs.Truths.{In, IsEmpty};
ghost use Rattle.line_instance.specs.Line.{IsTaskSet, tasks};
ghost use Rattle.line_rules.specs.Sides.{Ahead, part, fills, task_at};

use line_instance::{Instance, TaskSet};
use line_rules::{Load, Mode, Side};

/// Whether loads of the mode fill the side.
#[inline]
pub fn fills(mode: Mode, side: Side) -> bool
    ensures { result ≡ fills mode side }
{
    match (mode, side) {
        (Mode::Both, _) | (Mode::Fore, Side::Front) | (Mode::Back, Side::Back) => true,
        (Mode::Fore, Side::Back) | (Mode::Back, Side::Front) => false,
    }
}

/// The tasks that have to stand at the side where the task does: in front those before it, at the back those after it.
#[inline]
pub fn ahead(inst: &Instance, side: Side, task: u32) -> &TaskSet
    requires { task < tasks inst.now }
    ensures members { (j : ℕ) → In result.now j ↔ Ahead inst.now side j task }
{
    match side {
        Side::Front => inst.before(task),
        Side::Back => inst.after(task),
    }
}

/// The tasks that wait for the task at the side: in front those after it, at the back those before it.
#[inline]
pub fn waiting(inst: &Instance, side: Side, task: u32) -> &TaskSet
    requires { task < tasks inst.now }
    ensures members { (j : ℕ) → In result.now j ↔ Ahead inst.now side task j }
    ensures set { IsTaskSet inst.now result.now }
{
    match side {
        Side::Front => inst.after(task),
        Side::Back => inst.before(task),
    }
}

/// The task at a place of the side: the places of the front go by rank, those of the back from the last rank on.
#[inline]
pub fn task_at(inst: &Instance, side: Side, place: u32) -> u32
    requires { place < tasks inst.now }
    ensures task { result ≡ task_at inst.now side place }
    ensures within { result < tasks inst.now }
{
    match side {
        Side::Front => inst.at_rank(place),
        Side::Back => inst.at_rank(inst.tasks() - 1 - place),
    }
}

/// The place of a task at the side, below the number of tasks.
#[inline]
pub fn place_of(inst: &Instance, side: Side, task: u32) -> u32
    requires { task < tasks inst.now }
    ensures task { task_at inst.now side result ≡ task }
    ensures within { result < tasks inst.now }
{
    match side {
        Side::Front => inst.rank_of(task),
        Side::Back => inst.tasks() - 1 - inst.rank_of(task),
    }
}

/// The member of a set that is first looked at for the side: the least in front, the greatest at the back. Where tasks
/// are numbered along their precedences, nothing else of the set is ahead of it.
#[inline]
pub fn nearest(set: &TaskSet, side: Side) -> Option<u32>
    ensures none { IsNone result → IsEmpty set.now }
    ensures some { IfSome result (λ i. In set.now i) }
    ensures below { IfSome result (λ i. i < 1024) }
{
    let _most = set.capacity();
    match side {
        Side::Front => set.least(),
        Side::Back => set.greatest_below(1024),
    }
}

/// The tasks at the side.
#[inline]
pub fn part(load: &Load, side: Side) -> &TaskSet
    ensures { result.now ≡ part side load.now }
{
    match side {
        Side::Front => &load.front,
        Side::Back => &load.back,
    }
}
