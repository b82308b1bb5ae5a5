//! The two sides of a load, front and back, by one code.
ghost use Rattle.std.specs.Prelude.{◌≡◌, ◌-◌, ◌<◌, ◌↔◌, ℕ, true, false, IsNone, IfSome};
ghost use Rattle.line_instance.specs.Truths.{In, IsEmpty};
ghost use Rattle.line_instance.specs.Line.{IsTaskSet, tasks, has};
ghost use Rattle.line_rules.specs.Sides.{Ahead, part, changed, nothing_yet, fills, task_at};

use crate::marks::Marks;
use line_instance::{Instance, TaskSet};
use line_rules::{Load, Mode, Side};

/// Whether loads of the mode fill the side.
#[inline]
pub(crate) fn fills(mode: Mode, side: Side) -> bool
    ensures { result ≡ fills mode side }
{
    match (mode, side) {
        (Mode::Both, _) | (Mode::Fore, Side::Front) | (Mode::Back, Side::Back) => true,
        (Mode::Fore, Side::Back) | (Mode::Back, Side::Front) => false,
    }
}

/// The tasks that have to stand at the side where the task does: in front those before it, at the back those after it.
#[inline]
pub(crate) fn ahead(inst: &Instance, side: Side, task: u32) -> &TaskSet
    requires { task < tasks inst.now }
    ensures members { (j : ℕ) → In result.now j ↔ Ahead inst.now side j task }
    ensures set { IsTaskSet inst.now result.now }
{
    match side {
        Side::Front => inst.before(task),
        Side::Back => inst.after(task),
    }
}

/// The tasks that wait for the task at the side: in front those after it, at the back those before it.
#[inline]
pub(crate) fn waiting(inst: &Instance, side: Side, task: u32) -> &TaskSet
    requires { task < tasks inst.now }
    ensures members { (j : ℕ) → In result.now j ↔ Ahead inst.now side task j }
    ensures set { IsTaskSet inst.now result.now }
{
    match side {
        Side::Front => inst.after(task),
        Side::Back => inst.before(task),
    }
}

/// The task at a place of the side: the places of the front go by rank, those of the back from the last rank on.
#[inline]
pub(crate) fn task_at(inst: &Instance, side: Side, place: u32) -> u32
    requires { place < tasks inst.now }
    ensures task { result ≡ task_at inst.now side place }
    ensures within { result < tasks inst.now }
{
    match side {
        Side::Front => inst.at_rank(place),
        Side::Back => inst.at_rank(inst.tasks() - 1 - place),
    }
}

/// The place of a task at the side, below the number of tasks.
#[inline]
pub(crate) fn place_of(inst: &Instance, side: Side, task: u32) -> u32
    requires { task < tasks inst.now }
    ensures task { task_at inst.now side result ≡ task }
    ensures within { result < tasks inst.now }
{
    match side {
        Side::Front => inst.rank_of(task),
        Side::Back => inst.tasks() - 1 - inst.rank_of(task),
    }
}

/// The places of the tasks of a part of the side.
pub(crate) fn places_of(inst: &Instance, side: Side, part: &TaskSet) -> Marks
    requires { IsTaskSet inst.now part.now }
    ensures { (p : ℕ) → In result p ↔ (p < tasks inst.now) × In part.now (task_at inst.now side p) }
{
    let _tasks = inst.tasks();
    let mut places = Marks::none();
    let mut left = *part;
    while let Some(task) = nearest(inst, &left, Side::Front) {
        left.remove(task);
        places.mark(place_of(inst, side, task));
    }
    places
}

/// The task of a set that is first looked at for the side: the least in front, the greatest at the back. Where tasks
/// are numbered along their precedences, nothing else of the set is ahead of it.
#[inline(always)]
pub(crate) fn nearest(inst: &Instance, set: &TaskSet, side: Side) -> Option<u32>
    requires { (i : ℕ) → In set.now i → i < tasks inst.now }
    ensures none { IsNone result → IsEmpty set.now }
    ensures some { IfSome result (λ i. In set.now i) }
    ensures below { IfSome result (λ i. i < tasks inst.now) }
{
    let tasks = inst.tasks();
    if inst.is_empty(set) {
        return None;
    }
    match side {
        Side::Front => set.least(),
        Side::Back => set.greatest_below(tasks),
    }
}

/// A pair with no task at either side.
#[inline]
pub(crate) fn nothing() -> Load
    ensures { result ≡ nothing_yet }
{
    Load {
        front: TaskSet::empty(),
        back: TaskSet::empty(),
    }
}

/// Whether the task stands at the side.
#[inline]
pub(crate) fn stands(load: &Load, side: Side, task: u32) -> bool
    requires { task < 1024 }
    ensures { result ≡ has (part side load.now) task }
{
    match side {
        Side::Front => load.front.has(task),
        Side::Back => load.back.has(task),
    }
}

/// Puts the task at the side.
#[inline]
pub(crate) fn put(load: &mut Load, side: Side, task: u32)
    requires { task < 1024 }
    ensures { load.new ≡ changed side load.old task true }
{
    match side {
        Side::Front => load.front.insert(task),
        Side::Back => load.back.insert(task),
    };
}

/// Takes the task from the side.
#[inline]
pub(crate) fn take(load: &mut Load, side: Side, task: u32)
    requires { task < 1024 }
    ensures { load.new ≡ changed side load.old task false }
{
    match side {
        Side::Front => load.front.remove(task),
        Side::Back => load.back.remove(task),
    };
}

/// The tasks at the side.
#[inline]
pub(crate) fn part(load: &Load, side: Side) -> &TaskSet
    ensures { result.now ≡ part side load.now }
{
    match side {
        Side::Front => &load.front,
        Side::Back => &load.back,
    }
}
