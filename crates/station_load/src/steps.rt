//! The quick walk over the loads of a set, for all modes: it keeps the sum of times and the tasks that are ready, and
//! changes them with each task that comes or goes.
//!
//! The loads of a set are ordered by their truths, place by place: the front's by rank, then the back's from the last
//! rank on. The load after a load is found from the last place down: what stands there is given up, until a task may
//! join at a place where none stood. For each side that loads of the mode fill the walk keeps the places of its tasks
//! and of the tasks that are ready for it by precedence alone. Only these are gone over, by words of 64: at any other
//! place nothing stands and nothing may join. A task that is given up becomes ready and shuts what waits for it; one
//! that joins opens those that waited for it alone. So a turn costs a few operations on sets, and a step as many
//! turns as places are given up.
ghost use Rattle.std.specs.Prelude.{◌≡◌, ℕ, ◌<◌, ◌≤◌, ◌↔◌, ◌+◌, ◌-◌, IsTrue, IsNone, IfSome, IsSome, Some, None, true};
ghost use Rattle.std.specs.Prelude.{false, cond};
ghost use Rattle.line_instance.specs.Truths.{In, union};
ghost use Rattle.line_instance.specs.Line.{IsTaskSet, Apart, tasks, has};
ghost use Rattle.line_instance.specs.Sums.{sum_where};
ghost use Rattle.line_rules.specs.Loads.{IsLoad, IsFull, rest, taken};
ghost use Rattle.line_rules.specs.Order.{After, IsNext, IsFollowing};
ghost use Rattle.line_rules.specs.Sides.{MayJoin, fills, spot, nothing_yet};
ghost use Rattle.line_rules.specs.declared.types.Load.{Load as Pair};
ghost use Rattle.line_rules.specs.declared.types.Side.TheVariants.{Front, Back};
ghost use Rattle.line_rules.specs.inner.Scan.{Scan};
ghost use Rattle.line_rules.specs.Ends.{IsEnd};
ghost use Rattle.line_rules.specs.Sides.{pair_at};
ghost use Rattle.station_load.specs.Walking.{IsWalk, last_given};
ghost use Rattle.station_load.specs.inner.Steps.{AreEnds, AreOver, IsBefore, IsNextFrom, pair};

use crate::ends::End;
use crate::places;
use crate::sides::{fills, nothing, task_at};
use line_instance::{Instance, TaskSet};
use line_rules::{Load, Mode, Side};
use std::marker::Model;

/// A walk over the loads of a set of tasks at a cycle in a mode, in their order.
///
/// It is begun by `walk` or [`begin`] and is a value of about 900 bytes that needs no memory. A contract sees it as
/// the cycle, the mode, the set, the load given last, and what it keeps of that load from step to step.
#[derive(Drop)]
pub struct Walk {
    cycle: u64,
    mode: Mode,
    set: TaskSet,
    given: bool,
    ended: bool,
    sum: u64,
    front: End,
    back: End,
}

impl Model for Walk {
    ghost use Rattle.std.specs.Prelude.{Some, None, cond};
    ghost use Rattle.station_load.specs.Walking.{Walking};

    ghost Value = { Walking };

    ghost view = { λ w. record {
      cycle = w.cycle;
      mode = w.mode;
      set = w.set;
      last = cond w.given (Some (record { front = w.front.tasks; back = w.back.tasks })) None;
      ended = w.ended;
      sum = w.sum;
      front = w.front;
      back = w.back;
    } };
}

// Whether a task may stand beside these tasks of the two sides: it isn't at the other side, and nothing is apart from
// it.
#[inline(always)]
fn goes_with(inst: &Instance, here: &TaskSet, other: &TaskSet, task: u32) -> bool
    requires { task < tasks inst.now }
    ensures { IsTrue result ↔ (has other.now task ≡ false)
        × ((j : ℕ) → In (union here.now other.now) j → Apart inst.now j task → ⊥) }
{
    let _tasks = inst.tasks();
    if other.has(task) {
        return false;
    }
    let apart = inst.apart(task);
    if inst.is_empty(apart) {
        return true;
    }
    parted_from_none(inst, here, other, task)
}

// Whether none of these tasks of the two sides is apart from the task. Few lines have pairs apart, so this isn't inlined.
#[inline(never)]
fn parted_from_none(inst: &Instance, here: &TaskSet, other: &TaskSet, task: u32) -> bool
    requires { task < tasks inst.now }
    ensures { IsTrue result ↔ ((j : ℕ) → In (union here.now other.now) j → Apart inst.now j task → ⊥) }
{
    let _tasks = inst.tasks();
    let apart = inst.apart(task);
    if !inst.is_disjoint(apart, here) {
        return false;
    }
    inst.is_disjoint(apart, other)
}

// Goes over the places of a side from the last one down: gives up what stands there, up to the first place where a task
// may join. Whether one has joined. Loads of the mode fill the side. Clauses name the load that the scan began from,
// and the code has no need of it.
#[inline(always)]
fn go_over(
    inst: &Instance,
    cycle: u64,
    set: &TaskSet,
    mode: Mode,
    side: Side,
    other: &TaskSet,
    end: &mut End,
    sum: &mut u64,
) -> bool
    requires set { IsTaskSet inst.now set.now }
    requires filled { fills mode side ≡ true }
    requires scan { (base : Pair) × Scan inst.now cycle mode set.now base (pair_at side end.old.tasks other.now)
        (spot inst.now side (tasks inst.now)) }
    requires kept { fills mode side ≡ true → IsEnd inst.now side set.now end.old.tasks end.old.free end.old.places }
    requires sum { sum.old ≡ sum_where (has (taken (pair_at side end.old.tasks other.now))) inst.now.times }
    ensures joined { IsTrue result → (base : Pair) → Scan inst.now cycle mode set.now base
        (pair_at side end.old.tasks other.now) (spot inst.now side (tasks inst.now))
        → IsNext inst.now cycle mode set.now base (pair_at side end.new.tasks other.now) }
    ensures passed { result ≡ false → (base : Pair) → Scan inst.now cycle mode set.now base
        (pair_at side end.old.tasks other.now) (spot inst.now side (tasks inst.now))
        → Scan inst.now cycle mode set.now base (pair_at side end.new.tasks other.now) (spot inst.now side 0) }
    ensures kept { fills mode side ≡ true → IsEnd inst.now side set.now end.new.tasks end.new.free end.new.places }
    ensures sum { sum.new ≡ sum_where (has (taken (pair_at side end.new.tasks other.now))) inst.now.times }
{
    let mut left = end.places.all_below(inst.tasks());
    while end.places.go_down(&mut left) {
        let task = task_at(inst, side, left.below);
        if end.tasks.has(task) {
            end.give_up(inst, side, task);
            *sum -= inst.time(task);
        } else if inst.time(task) <= cycle - *sum && goes_with(inst, &end.tasks, other, task) {
            end.take_in(inst, set, side, task);
            *sum += inst.time(task);
            return true;
        }
    }
    false
}

// Goes over the front. Whether a task has joined; where none has, the front has its tasks again.
#[inline(always)]
fn front_goes_on(
    inst: &Instance,
    cycle: u64,
    set: &TaskSet,
    mode: Mode,
    front: &mut End,
    back: &End,
    sum: &mut u64,
) -> bool
    requires set { IsTaskSet inst.now set.now }
    requires filled { fills mode Front ≡ true }
    requires scan { IsBefore inst.now cycle mode set.now (tasks inst.now) (pair front.old back.now) }
    requires ends { AreEnds inst.now mode set.now front.old back.now sum.old }
    ensures next { IsTrue result
        → IsNextFrom inst.now cycle mode set.now (tasks inst.now) (pair front.old back.now) (pair front.new back.now) }
    ensures ends { IsTrue result → AreEnds inst.now mode set.now front.new back.now sum.new }
    ensures over { result ≡ false
        → AreOver inst.now cycle mode set.now (tasks inst.now) front.old back.now front.new back.now }
{
    let _tasks = inst.tasks();
    let tasks = front.tasks;
    if go_over(inst, cycle, set, mode, Side::Front, &back.tasks, front, sum) {
        return true;
    }
    front.tasks = tasks;
    false
}

// Goes over the back, and then over the front. Whether a task has joined; where none has, both have their tasks again.
#[inline(always)]
fn back_goes_on(
    inst: &Instance,
    cycle: u64,
    set: &TaskSet,
    mode: Mode,
    front: &mut End,
    back: &mut End,
    sum: &mut u64,
) -> bool
    requires set { IsTaskSet inst.now set.now }
    requires filled { fills mode Back ≡ true }
    requires scan { IsBefore inst.now cycle mode set.now (tasks inst.now + tasks inst.now) (pair front.old back.old) }
    requires ends { AreEnds inst.now mode set.now front.old back.old sum.old }
    ensures next { IsTrue result → IsNextFrom inst.now cycle mode set.now (tasks inst.now + tasks inst.now)
        (pair front.old back.old) (pair front.new back.new) }
    ensures ends { IsTrue result → AreEnds inst.now mode set.now front.new back.new sum.new }
    ensures over { result ≡ false → AreOver inst.now cycle mode set.now (tasks inst.now + tasks inst.now)
        front.old back.old front.new back.new }
{
    let _tasks = inst.tasks();
    let tasks = back.tasks;
    if go_over(inst, cycle, set, mode, Side::Back, &front.tasks, back, sum) {
        return true;
    }
    if fills(mode, Side::Front) && front_goes_on(inst, cycle, set, mode, front, back, sum) {
        return true;
    }
    back.tasks = tasks;
    false
}

// Goes over the sides that loads of the mode fill. Whether a task has joined; where none has, both sides have their
// tasks again.
#[inline(always)]
fn goes_on(
    inst: &Instance,
    cycle: u64,
    set: &TaskSet,
    mode: Mode,
    front: &mut End,
    back: &mut End,
    sum: &mut u64,
) -> bool
    requires set { IsTaskSet inst.now set.now }
    requires scan { IsBefore inst.now cycle mode set.now (tasks inst.now + tasks inst.now) (pair front.old back.old) }
    requires ends { AreEnds inst.now mode set.now front.old back.old sum.old }
    ensures next { IsTrue result → IsNextFrom inst.now cycle mode set.now (tasks inst.now + tasks inst.now)
        (pair front.old back.old) (pair front.new back.new) }
    ensures ends { IsTrue result → AreEnds inst.now mode set.now front.new back.new sum.new }
    ensures over { result ≡ false → AreOver inst.now cycle mode set.now (tasks inst.now + tasks inst.now)
        front.old back.old front.new back.new }
{
    let _tasks = inst.tasks();
    if fills(mode, Side::Back) {
        return back_goes_on(inst, cycle, set, mode, front, back, sum);
    }
    front_goes_on(inst, cycle, set, mode, front, back, sum)
}

// Whether a task that is ready for the side may join it.
#[inline(always)]
fn grows(
    inst: &Instance,
    cycle: u64,
    set: &TaskSet,
    mode: Mode,
    side: Side,
    end: &End,
    other: &TaskSet,
    sum: u64,
) -> bool
    requires set { IsTaskSet inst.now set.now }
    requires kept { fills mode side ≡ true → IsEnd inst.now side set.now end.now.tasks end.now.free end.now.places }
    requires sum { sum ≡ sum_where (has (taken (pair_at side end.now.tasks other.now))) inst.now.times }
    requires fits { sum ≤ cycle }
    ensures some { IsTrue result → (i : ℕ) × (fills mode side ≡ true)
        × MayJoin inst.now cycle set.now side (pair_at side end.now.tasks other.now) i }
    ensures none { result ≡ false → (i : ℕ) → fills mode side ≡ true
        → MayJoin inst.now cycle set.now side (pair_at side end.now.tasks other.now) i → ⊥ }
{
    if !fills(mode, side) {
        return false;
    }
    let mut left = end.places.all_below(inst.tasks());
    while end.places.go_down(&mut left) {
        let task = task_at(inst, side, left.below);
        if inst.time(task) <= cycle - sum
            && !end.tasks.has(task)
            && goes_with(inst, &end.tasks, other, task)
        {
            return true;
        }
    }
    false
}

// A walk that stands at a load with this sum, given last, or before the first load.
fn stand_at(
    inst: &Instance,
    cycle: u64,
    set: &TaskSet,
    mode: Mode,
    given: bool,
    load: &Load,
    sum: u64,
) -> Walk
    requires set { IsTaskSet inst.now set.now }
    requires load { given ≡ true → IsLoad inst.now cycle mode set.now load.now }
    requires nothing { given ≡ false → load.now ≡ nothing_yet }
    requires sum { sum ≡ sum_where (has (taken load.now)) inst.now.times }
    ensures walk { IsWalk inst.now result }
    ensures cycle { result.cycle ≡ cycle }
    ensures mode { result.mode ≡ mode }
    ensures set { result.set ≡ set.now }
    ensures last { result.last ≡ cond given (Some load.now) None }
    ensures sum { result.sum ≡ sum }
{
    let _tasks = inst.tasks();
    Walk {
        cycle,
        mode,
        set: *set,
        given,
        ended: false,
        sum,
        front: End::start(inst, set, mode, Side::Front, &load.front),
        back: End::start(inst, set, mode, Side::Back, &load.back),
    }
}

/// A walk over the loads of a set of tasks, before its first one. The cycle is in the instance's time unit.
pub fn begin(inst: &Instance, cycle: u64, set: &TaskSet, mode: Mode) -> Walk
    requires { IsTaskSet inst.now set.now }
    ensures walk { IsWalk inst.now result }
    ensures cycle { result.cycle ≡ cycle }
    ensures mode { result.mode ≡ mode }
    ensures set { result.set ≡ set.now }
    ensures last { result.last ≡ None }
    ensures sum { result.sum ≡ 0 }
{
    stand_at(inst, cycle, set, mode, false, &nothing(), 0)
}

/// A walk over the loads of a set of tasks that goes on after a load of the set, as if it had given that load last. The
/// cycle is in the instance's time unit.
pub fn resume(inst: &Instance, cycle: u64, set: &TaskSet, mode: Mode, last: &Load) -> Walk
    requires set { IsTaskSet inst.now set.now }
    requires load { IsLoad inst.now cycle mode set.now last.now }
    ensures walk { IsWalk inst.now result }
    ensures cycle { result.cycle ≡ cycle }
    ensures mode { result.mode ≡ mode }
    ensures set { result.set ≡ set.now }
    ensures last { result.last ≡ Some last.now }
    ensures sum { result.sum ≡ sum_where (has (taken last.now)) inst.now.times }
{
    let _tasks = inst.tasks();
    let sum = inst.sum(&last.front.union(&last.back));
    stand_at(inst, cycle, set, mode, true, last, sum)
}

impl Walk {
    /// The next load; None after the last one, where the walk stays.
    pub fn step(&mut self, inst: &Instance) -> Option<Load>
        requires { IsWalk inst.now self.old }
        ensures none { IsNone result → (l : Pair) → IsLoad inst.now self.old.cycle self.old.mode self.old.set l
            → After inst.now self.old.last l → ⊥ }
        ensures next { IfSome result (IsFollowing inst.now self.old.cycle self.old.mode self.old.set self.old.last) }
        ensures given { self.new.last ≡ last_given self.old.last result }
        ensures cycle { self.new.cycle ≡ self.old.cycle }
        ensures mode { self.new.mode ≡ self.old.mode }
        ensures set { self.new.set ≡ self.old.set }
        ensures walk { IsWalk inst.now self.new }
    {
        if self.go_on(inst) {
            return Some(self.load());
        }
        None
    }

    /// Goes on to the next load, which [`Walk::load`] tells. False after the last one, where the walk stays.
    #[inline]
    pub fn go_on(&mut self, inst: &Instance) -> bool
        requires { IsWalk inst.now self.old }
        ensures none { result ≡ false → (l : Pair) → IsLoad inst.now self.old.cycle self.old.mode self.old.set l
            → After inst.now self.old.last l → ⊥ }
        ensures next { IsTrue result → IfSome self.new.last
            (IsFollowing inst.now self.old.cycle self.old.mode self.old.set self.old.last) }
        ensures given { IsTrue result → IsSome self.new.last }
        ensures stays { result ≡ false → self.new.last ≡ self.old.last }
        ensures cycle { self.new.cycle ≡ self.old.cycle }
        ensures mode { self.new.mode ≡ self.old.mode }
        ensures set { self.new.set ≡ self.old.set }
        ensures walk { IsWalk inst.now self.new }
    {
        let _tasks = inst.tasks();
        if self.ended {
            return false;
        }
        let sum = self.sum;
        if goes_on(
            inst,
            self.cycle,
            &self.set,
            self.mode,
            &mut self.front,
            &mut self.back,
            &mut self.sum,
        ) {
            self.given = true;
            return true;
        }
        self.sum = sum;
        self.ended = true;
        false
    }

    /// The load given last; nothing is said of it before the first.
    #[inline]
    pub fn load(&self) -> Load
        ensures { IsSome self.now.last → self.now.last ≡ Some result }
    {
        Load {
            front: self.front.tasks,
            back: self.back.tasks,
        }
    }

    /// What the load given last leaves of the set.
    #[inline]
    pub fn rest(&self, inst: &Instance) -> TaskSet
        requires walk { IsWalk inst.now self.now }
        ensures rest { IfSome self.now.last (λ l. result ≡ rest self.now.set l) }
        ensures set { IsTaskSet inst.now result }
    {
        let _tasks = inst.tasks();
        let mut rest = self.set;
        inst.take_out(&mut rest, &self.front.tasks);
        inst.take_out(&mut rest, &self.back.tasks);
        rest
    }

    /// The total time of the load given last, in the instance's time unit; 0 before the first.
    #[inline]
    pub fn sum(&self) -> u64
        ensures { result ≡ self.now.sum }
    {
        self.sum
    }

    /// Whether the load given last is full: no further task of the set can be added to it so that it is a load.
    pub fn full(&self, inst: &Instance) -> bool
        requires walk { IsWalk inst.now self.now }
        requires given { IsSome self.now.last }
        ensures { IfSome self.now.last (λ l. IsTrue result ↔ IsFull inst.now self.now.cycle self.now.mode self.now.set
            l) }
    {
        let _tasks = inst.tasks();
        if self.ended {
            return places::full(inst, self.cycle, &self.set, self.mode, &self.load());
        }
        if grows(
            inst,
            self.cycle,
            &self.set,
            self.mode,
            Side::Front,
            &self.front,
            &self.back.tasks,
            self.sum,
        ) {
            return false;
        }
        if grows(
            inst,
            self.cycle,
            &self.set,
            self.mode,
            Side::Back,
            &self.back,
            &self.front.tasks,
            self.sum,
        ) {
            return false;
        }
        true
    }
}
