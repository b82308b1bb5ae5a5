//! A balance that drifts: which task is in which slot, and what a step does.
//!
//! A straight line has a slot for each station. A U-line has two: the fronts of the stations in their order, and then
//! the backs from the last station on. So slots never fall along the precedences. Each step keeps that, and brings no
//! tasks together that are apart.
ghost use Rattle.std.specs.Prelude.{◌≡◌, ◌<◌, ◌≤◌, IfOk, length};
ghost use Rattle.line_instance.specs.Line.{tasks};

use crate::chance::draw;
use crate::covers::Neighbours;
use crate::slots::Slots;
use crate::stations::{Change, Stations};
use line_instance::Instance;
use line_rules::{Balance, LineKind, Places, Seatplace, Side};
use rand_pcg::Lcg64Xsh32;
use std::alloc::{AllocError, Global};

/// The tasks of a line in slots.
#[derive(Drop)]
pub(crate) struct State {
    kind: LineKind,
    /// How many stations there are.
    most: u32,
    /// The last slot.
    last: u32,
    /// How many tasks there are.
    tasks: u32,
    times: [u64; 1024],
    slots: Slots,
    stations: Stations,
    /// The tasks that cover each task, and those that each task covers.
    ahead: Neighbours,
    behind: Neighbours,
    /// Whether some tasks of the line are apart.
    has_apart: bool,
    /// How many pairs of tasks that are apart share a station: some at the start alone.
    together: u32,
}

/// A task goes to another slot, and one of the tasks there, if any, to the slot that it leaves.
#[derive(Clone, Copy)]
struct Shift {
    task: u32,
    from: u32,
    to: u32,
    other: Option<u32>,
}

/// Whether the first task is before the other one.
#[inline]
fn is_before(inst: &Instance, first: u32, then: u32) -> bool {
    first < inst.tasks() && then < inst.tasks() && inst.before(then).has(first)
}

/// Whether two tasks are apart.
#[inline]
fn is_apart(inst: &Instance, first: u32, second: u32) -> bool {
    first < inst.tasks() && second < inst.tasks() && inst.apart(second).has(first)
}

/// The times of the tasks, and whether some of them are apart.
fn times_of(inst: &Instance) -> ([u64; 1024], bool) {
    let mut times = [0; 1024];
    let mut has_apart = false;
    for task in 0..inst.tasks() {
        times[(task % 1024) as usize] = inst.time(task);
        has_apart |= !inst.apart(task).is_empty();
    }
    (times, has_apart)
}

/// The slot at which a task begins in `most` stations, where a balance in so many has it at this place.
fn squeezed(kind: LineKind, place: &Seatplace, stations: u32, most: u32) -> u32
    requires { most ≤ 1024 }
{
    let ahead = place.station.saturating_sub(1).saturating_mul(most);
    let station = match ahead.checked_div(stations) {
        Some(station) => station,
        None => 0,
    };
    match (kind, place.side) {
        (LineKind::U, Side::Back) => (2 * most).saturating_sub(1).saturating_sub(station),
        _ => station,
    }
}

impl State {
    /// A balance, squeezed into `most` stations.
    pub(crate) fn begin(
        alloc: Global,
        inst: &Instance,
        kind: LineKind,
        cycle: u64,
        best: &Balance,
        most: u32,
    ) -> Result<State, AllocError>
        requires places { length best.now.place ≡ tasks inst.now }
        requires few { most ≤ 1024 }
        ensures { IfOk result (λ s. s.most ≡ most) }
    {
        let slots = match kind {
            LineKind::Straight => most,
            LineKind::U => 2 * most,
        };
        let (times, has_apart) = times_of(inst);
        let mut state = State {
            kind,
            most,
            last: slots.saturating_sub(1),
            tasks: inst.tasks(),
            times,
            slots: Slots::new(alloc, slots)?,
            stations: Stations::new(cycle),
            ahead: Neighbours::ahead(alloc, inst)?,
            behind: Neighbours::behind(alloc, inst)?,
            has_apart,
            together: 0,
        };
        state.squeeze(inst, best);
        state.count_together(inst);
        Ok(state)
    }

    /// The tasks enter the slots by their numbers.
    fn squeeze(&mut self, inst: &Instance, best: &Balance)
        requires places { length best.now.place ≡ tasks inst.now }
        requires few { self.old.most ≤ 1024 }
        ensures { self.new.most ≡ self.old.most }
    {
        for task in 0..inst.tasks() {
            let place = best.place.at(task as usize);
            let slot = squeezed(self.kind, place, best.stations, self.most);
            self.slots.enter(task, slot);
            let station = self.station(slot);
            let time = self.time(task);
            self.stations.add(station, time);
        }
        self.stations.list_long(self.most);
    }

    /// How many tasks below a task are apart from it and share its station.
    fn met_by(&self, inst: &Instance, task: u32) -> u32 {
        if task >= inst.tasks() {
            return 0;
        }
        let mut met = 0u32;
        for other in inst.apart(task) {
            if other < task && self.station_of(other) == self.station_of(task) {
                met = met.saturating_add(1);
            }
        }
        met
    }

    /// Counts the pairs of tasks that are apart and share a station.
    fn count_together(&mut self, inst: &Instance)
        ensures { self.new.most ≡ self.old.most }
    {
        let mut together = 0u32;
        for task in 0..inst.tasks() {
            together = together.saturating_add(self.met_by(inst, task));
        }
        self.together = together;
    }

    /// The station of a slot, from 0.
    #[inline]
    fn station(&self, slot: u32) -> u32 {
        if slot < self.most {
            slot
        } else {
            self.other_side(slot)
        }
    }

    /// The other slot of a slot's station, on a U-line.
    #[inline]
    fn other_side(&self, slot: u32) -> u32 {
        self.last.saturating_sub(slot)
    }

    /// The station of a task, from 0.
    #[inline]
    fn station_of(&self, task: u32) -> u32 {
        self.station(self.slots.slot(task))
    }

    /// The time of a task.
    #[inline]
    fn time(&self, task: u32) -> u64 {
        self.times[(task % 1024) as usize]
    }

    /// The time of a slot.
    fn time_of(&self, slot: u32) -> u64 {
        let mut time = 0u64;
        for place in 0..self.slots.count(slot) {
            time = time.saturating_add(self.time(self.slots.at(slot, place)));
        }
        time
    }

    /// Whether it is a balance: no station is too long, and no tasks that are apart share one.
    #[inline]
    pub(crate) fn is_balance(&self) -> bool {
        self.stations.long_ones() == 0 && self.together == 0
    }

    /// How many tasks of a slot, but for one, are apart from a task.
    fn apart_in(&self, inst: &Instance, task: u32, slot: u32, but: u32) -> u32 {
        let mut count = 0u32;
        for place in 0..self.slots.count(slot) {
            let other = self.slots.at(slot, place);
            if other != but && is_apart(inst, task, other) {
                count = count.saturating_add(1);
            }
        }
        count
    }

    /// How many tasks of a slot's station, but for one, are apart from a task.
    #[inline]
    fn apart_at(&self, inst: &Instance, task: u32, slot: u32, but: u32) -> u32 {
        if !self.has_apart {
            return 0;
        }
        let count = self.apart_in(inst, task, slot, but);
        match self.kind {
            LineKind::Straight => count,
            LineKind::U => {
                count.saturating_add(self.apart_in(inst, task, self.other_side(slot), but))
            }
        }
    }

    /// How many pairs of tasks that are apart two slots have, one task in each.
    fn apart_between(&self, inst: &Instance, first: u32, second: u32) -> u32 {
        if !self.has_apart {
            return 0;
        }
        let mut count = 0u32;
        for place in 0..self.slots.count(first) {
            let task = self.slots.at(first, place);
            count = count.saturating_add(self.apart_in(inst, task, second, task));
        }
        count
    }

    /// Makes the next step, which may make stations longer by no more than a threshold.
    #[inline]
    pub(crate) fn step(&mut self, inst: &Instance, random: &mut Lcg64Xsh32, threshold: u64)
        ensures { self.new.most ≡ self.old.most }
    {
        if draw(random, 8) == 0 {
            let slot = draw(random, self.last);
            self.exchange(inst, slot, threshold);
        } else {
            self.shift(inst, random, threshold);
        }
    }

    /// Whether a task of a slot is before one of the next slot. Then one covers another, since nothing lies between the
    /// slots.
    fn leads_on(&self, slot: u32, next: u32) -> bool {
        for place in 0..self.slots.count(next) {
            let task = self.slots.at(next, place);
            if self.ahead.is_in(&self.slots, task, slot) {
                return true;
            }
        }
        false
    }

    /// Whether tasks that are apart would come together where two slots of two stations change places.
    fn would_meet(&self, inst: &Instance, slot: u32, next: u32) -> bool {
        if self.kind == LineKind::Straight {
            return false;
        }
        self.apart_between(inst, slot, self.other_side(next)) > 0
            || self.apart_between(inst, next, self.other_side(slot)) > 0
    }

    /// Takes the pairs of tasks that are apart off the count that part where two slots of two stations change places.
    fn part_slots(&mut self, inst: &Instance, slot: u32, next: u32)
        ensures { self.new.most ≡ self.old.most }
    {
        if self.together > 0 && self.kind == LineKind::U {
            let here = self.apart_between(inst, slot, self.other_side(slot));
            let there = self.apart_between(inst, next, self.other_side(next));
            self.together = self.together.saturating_sub(here).saturating_sub(there);
        }
    }

    /// All tasks of a slot and of the next one change places, where they may.
    fn exchange(&mut self, inst: &Instance, slot: u32, threshold: u64)
        ensures { self.new.most ≡ self.old.most }
    {
        let next = slot.saturating_add(1);
        if self.leads_on(slot, next) {
            return;
        }
        let change = Change {
            first: self.station(slot),
            second: self.station(next),
            gone: self.time_of(slot),
            come: self.time_of(next),
        };
        if change.first == change.second {
            self.slots.exchange(slot, next);
            return;
        }
        if !self.stations.bears(&change, threshold) || self.would_meet(inst, slot, next) {
            return;
        }
        self.part_slots(inst, slot, next);
        self.slots.exchange(slot, next);
        self.stations.make(&change);
    }

    /// Draws a task: of the stations that are too long, one time of two, or of all tasks.
    fn draw_task(&self, random: &mut Lcg64Xsh32) -> u32 {
        let long_ones = self.stations.long_ones();
        if long_ones == 0 || draw(random, 2) != 0 {
            return draw(random, self.tasks);
        }
        let front = self.stations.long_at(draw(random, long_ones));
        let ahead = self.slots.count(front);
        let back = self.other_side(front);
        let behind = match self.kind {
            LineKind::Straight => 0,
            LineKind::U => self.slots.count(back),
        };
        let place = draw(random, ahead.saturating_add(behind));
        if place < ahead {
            self.slots.at(front, place)
        } else {
            self.slots.at(back, place.saturating_sub(ahead))
        }
    }

    /// Draws a task and where it goes, and shifts it where it may go there.
    fn shift(&mut self, inst: &Instance, random: &mut Lcg64Xsh32, threshold: u64)
        ensures { self.new.most ≡ self.old.most }
    {
        let task = self.draw_task(random);
        let from = self.slots.slot(task);
        let low = self.ahead.greatest(&self.slots, task, 0);
        let high = self.behind.least(&self.slots, task, self.last);
        let to = low.saturating_add(draw(random, high.saturating_sub(low).saturating_add(1)));
        if to == from {
            return;
        }
        let count = self.slots.count(to);
        let place = draw(random, count + 1);
        let other = if place < count {
            Some(self.slots.at(to, place))
        } else {
            None
        };
        let shift = Shift {
            task,
            from,
            to,
            other,
        };
        self.try_shift(inst, &shift, threshold);
    }

    /// Makes a shift, where it may be made.
    fn try_shift(&mut self, inst: &Instance, shift: &Shift, threshold: u64)
        ensures { self.new.most ≡ self.old.most }
    {
        let change = Change {
            first: self.station(shift.from),
            second: self.station(shift.to),
            gone: self.time(shift.task),
            come: match shift.other {
                Some(other) => self.time(other),
                None => 0,
            },
        };
        let moves = change.first != change.second;
        if moves && !self.stations.bears(&change, threshold) {
            return;
        }
        if !self.keeps(inst, shift) || moves && self.would_join(inst, shift) {
            return;
        }
        if moves {
            self.part_tasks(inst, shift);
            self.stations.make(&change);
        }
        self.slots.leave(shift.task);
        self.slots.enter(shift.task, shift.to);
        if let Some(other) = shift.other {
            self.slots.leave(other);
            self.slots.enter(other, shift.from);
        }
    }

    /// Whether a shift keeps the precedences of the task that comes in exchange.
    #[inline]
    fn keeps(&self, inst: &Instance, shift: &Shift) -> bool {
        let Some(other) = shift.other else {
            return true;
        };
        if is_before(inst, shift.task, other) || is_before(inst, other, shift.task) {
            return false;
        }
        self.ahead.greatest(&self.slots, other, 0) <= shift.from
            && shift.from <= self.behind.least(&self.slots, other, self.last)
    }

    /// Whether a shift between two stations would bring tasks together that are apart.
    #[inline]
    fn would_join(&self, inst: &Instance, shift: &Shift) -> bool {
        if !self.has_apart {
            return false;
        }
        match shift.other {
            None => self.apart_at(inst, shift.task, shift.to, shift.task) > 0,
            Some(other) => {
                self.apart_at(inst, shift.task, shift.to, other) > 0
                    || self.apart_at(inst, other, shift.from, shift.task) > 0
            }
        }
    }

    /// Takes the pairs of tasks that are apart off the count that part by a shift between two stations.
    fn part_tasks(&mut self, inst: &Instance, shift: &Shift)
        ensures { self.new.most ≡ self.old.most }
    {
        if self.together == 0 {
            return;
        }
        let here = self.apart_at(inst, shift.task, shift.from, shift.task);
        let there = match shift.other {
            Some(other) => self.apart_at(inst, other, shift.to, other),
            None => 0,
        };
        self.together = self.together.saturating_sub(here).saturating_sub(there);
    }

    /// The place of a task.
    fn place(&self, task: u32) -> Seatplace {
        let slot = self.slots.slot(task);
        let side = if slot < self.most {
            Side::Front
        } else {
            Side::Back
        };
        Seatplace {
            station: self.station(slot).saturating_add(1),
            side,
        }
    }

    /// The balance, as it stands.
    pub(crate) fn balance(&self, alloc: Global, inst: &Instance) -> Result<Balance, AllocError>
        ensures stations { IfOk result (λ b. b.stations ≡ self.now.most) }
        ensures places { IfOk result (λ b. length b.place ≤ tasks inst.now) }
    {
        let first = Seatplace {
            station: 1,
            side: Side::Front,
        };
        let mut places = vec![in alloc; first; inst.tasks() as usize]?;
        for task in 0..places.len() {
            places[task] = self.place(task as u32);
        }
        Ok(Balance {
            stations: self.most,
            place: Places::from_vec(places),
        })
    }
}
