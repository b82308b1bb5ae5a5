//! One side of the load that a walk has come to, with the tasks that are ready for it.
ghost use Rattle.std.specs.Prelude.{◌≡◌, ◌<◌, ◌⊎◌, ◌↔◌, ℕ, false, true, slice_set};
ghost use Rattle.line_instance.specs.Truths.{In};
ghost use Rattle.line_instance.specs.Line.{IsTaskSet, tasks, has};
ghost use Rattle.line_rules.specs.Sides.{Ahead, IsReady, fills};
ghost use Rattle.line_rules.specs.Ends.{AreMarked, IsEnd};

use crate::marks::Marks;
use crate::sides::{ahead, fills, nearest, place_of, places_of, waiting};
use line_instance::{Instance, TaskSet};
use line_rules::{Mode, Side};

/// The tasks of a side; the tasks that are free to join it by precedence alone: in the walk's set, not at the side,
/// with all that is ahead of them in the set at the side; and the places of both.
#[derive(Clone, Copy)]
pub struct End {
    pub tasks: TaskSet,
    pub free: TaskSet,
    pub places: Marks,
}

impl End {
    /// A side with these tasks, and where loads of the mode fill the side, with the tasks of the set that are free to
    /// join them.
    pub(crate) fn start(
        inst: &Instance,
        set: &TaskSet,
        mode: Mode,
        side: Side,
        part: &TaskSet,
    ) -> End
        requires set { IsTaskSet inst.now set.now }
        requires part { IsTaskSet inst.now part.now }
        ensures tasks { result.tasks ≡ part.now }
        ensures kept { fills mode side ≡ true → IsEnd inst.now side set.now result.tasks result.free result.places }
    {
        let mut end = End {
            tasks: *part,
            free: TaskSet::empty(),
            places: Marks::none(),
        };
        if fills(mode, side) {
            end.places = places_of(inst, side, part);
            end.add_ready(inst, set, side, set.minus(part));
        }
        end
    }

    // Makes those of the candidates free that are ready. What waits for a candidate isn't ready, so it is no candidate
    // any more.
    #[inline(always)]
    fn add_ready(&mut self, inst: &Instance, set: &TaskSet, side: Side, candidates: TaskSet)
        requires set { IsTaskSet inst.now set.now }
        requires candidates { (i : ℕ) → In candidates i → In set.now i × (has self.old.tasks i ≡ false) }
        requires marked { AreMarked inst.now side self.old.tasks self.old.free self.old.places }
        ensures tasks { self.new.tasks ≡ self.old.tasks }
        ensures free { (i : ℕ) → In self.new.free i ↔ In self.old.free i
            ⊎ (In candidates i × IsReady inst.now side set.now self.old.tasks i) }
        ensures marked { AreMarked inst.now side self.new.tasks self.new.free self.new.places }
    {
        let _tasks = inst.tasks();
        let mut left = candidates;
        while let Some(task) = nearest(inst, &left, side) {
            if inst.is_covered(ahead(inst, side, task), set, &self.tasks) {
                self.free.insert(task);
                self.places.mark(place_of(inst, side, task));
            }
            left.remove(task);
            inst.take_out(&mut left, waiting(inst, side, task));
        }
    }

    /// Gives up a task of the side: it is free again, and what waits for it isn't.
    #[inline(always)]
    pub(crate) fn give_up(&mut self, inst: &Instance, side: Side, task: u32)
        requires task { In self.old.tasks task }
        requires within { task < tasks inst.now }
        requires apart { (i : ℕ) → In self.old.free i → has self.old.tasks i ≡ false }
        requires marked { AreMarked inst.now side self.old.tasks self.old.free self.old.places }
        ensures tasks { self.new.tasks ≡ slice_set self.old.tasks task false }
        ensures free { (i : ℕ) → In self.new.free i ↔ (In self.old.free i ⊎ (i ≡ task))
            × (Ahead inst.now side task i → ⊥) }
        ensures marked { AreMarked inst.now side self.new.tasks self.new.free self.new.places }
    {
        let _tasks = inst.tasks();
        self.tasks.remove(task);
        self.free.insert(task);
        let waiting = waiting(inst, side, task);
        if inst.is_disjoint(waiting, &self.free) {
            return;
        }
        self.shut(inst, side, task);
    }

    // Shuts out what waits for a free task that isn't at the side.
    #[inline(never)]
    fn shut(&mut self, inst: &Instance, side: Side, task: u32)
        requires task { In self.old.free task }
        requires gone { has self.old.tasks task ≡ false }
        requires within { task < tasks inst.now }
        requires apart { (i : ℕ) → In self.old.free i → has self.old.tasks i ≡ false }
        requires marked { AreMarked inst.now side self.old.tasks self.old.free self.old.places }
        ensures tasks { self.new.tasks ≡ self.old.tasks }
        ensures free { (i : ℕ) → In self.new.free i ↔ In self.old.free i × (Ahead inst.now side task i → ⊥) }
        ensures marked { AreMarked inst.now side self.new.tasks self.new.free self.new.places }
    {
        let _tasks = inst.tasks();
        let waiting = waiting(inst, side, task);
        while let Some(other) = inst.least_common(waiting, &self.free) {
            self.free.remove(other);
            self.places.unmark(place_of(inst, side, other));
        }
    }

    /// Takes in a task that is free: what waits for it may be free now.
    #[inline(always)]
    pub(crate) fn take_in(&mut self, inst: &Instance, set: &TaskSet, side: Side, task: u32)
        requires set { IsTaskSet inst.now set.now }
        requires free { In self.old.free task }
        requires end { IsEnd inst.now side set.now self.old.tasks self.old.free self.old.places }
        requires closed { (i j : ℕ) → In set.now i → In self.old.tasks j → Ahead inst.now side i j
            → In self.old.tasks i }
        ensures tasks { self.new.tasks ≡ slice_set self.old.tasks task true }
        ensures end { IsEnd inst.now side set.now self.new.tasks self.new.free self.new.places }
    {
        let _tasks = inst.tasks();
        self.tasks.insert(task);
        self.free.remove(task);
        let waiting = waiting(inst, side, task);
        if inst.is_disjoint(waiting, set) {
            return;
        }
        self.open(inst, set, side, task);
    }

    // Makes those free that wait for a task of the side and are ready.
    #[inline(never)]
    fn open(&mut self, inst: &Instance, set: &TaskSet, side: Side, task: u32)
        requires set { IsTaskSet inst.now set.now }
        requires within { task < tasks inst.now }
        requires absent { (i : ℕ) → In set.now i → Ahead inst.now side task i → has self.old.tasks i ≡ false }
        requires marked { AreMarked inst.now side self.old.tasks self.old.free self.old.places }
        ensures tasks { self.new.tasks ≡ self.old.tasks }
        ensures free { (i : ℕ) → In self.new.free i ↔ In self.old.free i
            ⊎ (In set.now i × Ahead inst.now side task i × IsReady inst.now side set.now self.old.tasks i) }
        ensures marked { AreMarked inst.now side self.new.tasks self.new.free self.new.places }
    {
        let _tasks = inst.tasks();
        self.add_ready(inst, set, side, inst.meet(waiting(inst, side, task), set));
    }
}
