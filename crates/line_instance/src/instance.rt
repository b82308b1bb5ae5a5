//! Instances: tasks with times, the tasks before each one, and a rank for each.
//!
//! What a search asks for in its inner loops is kept and not computed. Each task has three sets, of the tasks before
//! it, after it and apart from it, with its rank and its kept partners. That is 384 bytes of sets and 52 more a task,
//! so 1,024 tasks take less than half a megabyte. Only pairs apart can be changed later.
ghost use Rattle.std.specs.Prelude.{◌≡◌, ◌≤◌, ◌<◌, ◌↔◌, ℕ, List, [], length, slice_index_or, IsTrue, IfOk};
ghost use Rattle.std.specs.Prelude.{IsNone, IfSome};
ghost use Rattle.line_instance.specs.Walks.{ArePairs, IsGiven};
ghost use Rattle.line_instance.specs.Partners.{IsKeptAt};
ghost use Rattle.line_instance.specs.Line.{Line, IsLine, IsRanked, IsTaskSet, Before, Apart, Covers, tasks, time};
ghost use Rattle.line_instance.specs.Line.{at_rank, has};
ghost use Rattle.line_instance.specs.Sums.{sum_where};
ghost use Rattle.line_instance.specs.Truths.{In, IsEmpty, IsSubset, IsLeast, count, full_to, meet, minus};

use crate::arcs::Prec;
use crate::partners::{Kept, kept_at, part};
use crate::sets::TaskSet;
use std::alloc::{AllocError, Global};
use std::marker::Model;

/// The most tasks that an instance has: as many as a set has bits, 16 words of 64.
pub const MAX_TASKS: usize = 1024;

/// The greatest time of a task, in the instance's time unit. It is above the 1.6 * 10^14 that a task of a combined
/// instance may take: 16 models, 10,000 units of each, 10^9 for each unit. All tasks together take at most
/// 2.048 * 10^17, less than the greatest cycle time, so sums of times fit into 64 bits.
pub const MAX_TIME: u64 = 200_000_000_000_000;

// Where there are at most so many tasks, the first two words of a set have all of them.
const LOW_TASKS: u32 = 128;

/// Tasks with times, the set of tasks before each one, the set of tasks apart from each one, and the order of the tasks
/// by rank. Tasks are counted from 0.
pub struct Instance {
    pub(crate) times: Vec<u64>,
    pub(crate) before: Vec<TaskSet>,
    pub(crate) after: Vec<TaskSet>,
    pub(crate) apart: Vec<TaskSet>,
    pub(crate) order: Vec<u32>,
    pub(crate) ranks: Vec<u32>,
    pub(crate) partners: Vec<Kept>,
}

// By hand, and so a call: where an instance is let go its caller then has one goal for it, and not one for each vector.
impl Drop for Instance {
    fn drop(self) {
        let Instance {
            times: _times,
            before: _before,
            after: _after,
            apart: _apart,
            order: _order,
            ranks: _ranks,
            partners: _partners,
        } = self;
    }
}

impl Model for Instance {
    ghost use Rattle.line_instance.specs.Line.{Line};
    ghost use Rattle.line_instance.specs.inner.Inside.{IsSound};

    ghost Value = { Line };

    ghost view = { λ s. record {
      times = s.times.items;
      before = s.before.items;
      apart = s.apart.items;
      order = s.order.items;
    } };

    ghost invariant = { λ s. IsSound s.after.items s.ranks.items s.partners.items
        (record { times = s.times.items; before = s.before.items; apart = s.apart.items; order = s.order.items }) };
}

impl Instance {
    /// The number of tasks, 1 to 1,024.
    #[inline]
    pub fn tasks(&self) -> u32
        ensures tasks { result ≡ tasks self.now }
        ensures line { IsLine self.now }
        ensures ranked { IsRanked self.now }
    {
        self.times.len() as u32
    }

    /// The time of task `i`, in the instance's time unit, at most 200,000,000,000,000.
    #[inline]
    pub fn time(&self, i: u32) -> u64
        requires { i < tasks self.now }
        ensures time { result ≡ time self.now i }
        ensures limit { result ≤ 200000000000000 }
    {
        self.times[i as usize]
    }

    /// The tasks before task `i`: those from which a nonempty walk of arcs leads to it.
    #[inline]
    pub fn before(&self, i: u32) -> &TaskSet
        requires { i < tasks self.now }
        ensures row { result.now ≡ slice_index_or self.now.before i [] }
        ensures set { IsTaskSet self.now result.now }
        ensures members { (j : ℕ) → In result.now j ↔ Before self.now j i }
    {
        &self.before[i as usize]
    }

    /// The tasks after task `i`: those to which a nonempty walk of arcs leads from it.
    #[inline]
    pub fn after(&self, i: u32) -> &TaskSet
        requires { i < tasks self.now }
        ensures members { (j : ℕ) → In result.now j ↔ Before self.now i j }
        ensures set { IsTaskSet self.now result.now }
    {
        &self.after[i as usize]
    }

    /// Whether task `i` is before task `j` with no task between them.
    #[inline]
    pub fn covers(&self, i: u32, j: u32) -> bool
        requires first { i < tasks self.now }
        requires then { j < tasks self.now }
        ensures { IsTrue result ↔ Covers self.now i j }
    {
        let before = &self.before[j as usize];
        before.has(i) && self.after[i as usize].meet(before).is_empty()
    }

    /// The tasks apart from task `i`.
    #[inline]
    pub fn apart(&self, i: u32) -> &TaskSet
        requires { i < tasks self.now }
        ensures row { result.now ≡ slice_index_or self.now.apart i [] }
        ensures set { IsTaskSet self.now result.now }
        ensures members { (j : ℕ) → In result.now j ↔ Apart self.now j i }
    {
        &self.apart[i as usize]
    }

    /// The task of rank `k`, counted from 0. What is before a task has a lower rank.
    #[inline]
    pub fn at_rank(&self, k: u32) -> u32
        requires { k < tasks self.now }
        ensures task { result ≡ at_rank self.now k }
        ensures within { result < tasks self.now }
    {
        self.order[k as usize]
    }

    /// The rank of task `i`, counted from 0.
    #[inline]
    pub fn rank_of(&self, i: u32) -> u32
        requires { i < tasks self.now }
        ensures rank { at_rank self.now result ≡ i }
        ensures within { result < tasks self.now }
    {
        self.ranks[i as usize]
    }

    /// The `k`-th kept partner of task `i`, counted from 0; None where fewer are kept.
    #[inline]
    pub fn partner(&self, i: u32, k: u32) -> Option<u32>
        requires { i < tasks self.now }
        ensures { IsKeptAt self.now i k result }
    {
        kept_at(&self.partners[i as usize], k)
    }

    /// Makes two tasks apart exactly where a pair of them is given, in either order. Takes no memory.
    pub fn set_apart(&mut self, pairs: &[Prec])
        requires { ArePairs (tasks self.old) pairs.now }
        ensures apart { (i j : ℕ) → Apart self.new i j ↔ IsGiven pairs.now i j }
        ensures times { self.new.times ≡ self.old.times }
        ensures before { self.new.before ≡ self.old.before }
        ensures order { self.new.order ≡ self.old.order }
    {
        part(
            &self.times,
            &self.before,
            &self.after,
            &mut self.apart,
            &mut self.partners,
            pairs,
        );
    }

    /// An equal instance; an error where memory is wanting.
    pub fn copy(&self, alloc: Global) -> Result<Instance, AllocError>
        ensures { IfOk result (λ c. c ≡ self.now) }
    {
        Ok(Instance {
            times: Vec::from_slice(alloc, &self.times)?,
            before: Vec::from_slice(alloc, &self.before)?,
            after: Vec::from_slice(alloc, &self.after)?,
            apart: Vec::from_slice(alloc, &self.apart)?,
            order: Vec::from_slice(alloc, &self.order)?,
            ranks: Vec::from_slice(alloc, &self.ranks)?,
            partners: Vec::from_slice(alloc, &self.partners)?,
        })
    }

    /// The set of all tasks.
    #[inline]
    pub fn all(&self) -> TaskSet
        ensures value { result ≡ full_to (tasks self.now) }
        ensures members { (i : ℕ) → In result i ↔ i < tasks self.now }
        ensures set { IsTaskSet self.now result }
    {
        TaskSet::full_to(self.times.len() as u32)
    }

    /// Whether a set of tasks has none. Like the six below, it reads the first two words of a set where there are at
    /// most 128 tasks.
    #[inline]
    pub fn is_empty(&self, set: &TaskSet) -> bool
        requires { (i : ℕ) → In set.now i → i < tasks self.now }
        ensures { IsTrue result ↔ IsEmpty set.now }
    {
        if self.tasks() <= LOW_TASKS {
            return set.is_empty_low();
        }
        set.is_empty()
    }

    /// Whether a set of tasks has none in common with another set.
    #[inline]
    pub fn is_disjoint(&self, set: &TaskSet, other: &TaskSet) -> bool
        requires { (i : ℕ) → In set.now i → i < tasks self.now }
        ensures { IsTrue result ↔ IsEmpty (meet set.now other.now) }
    {
        if self.tasks() <= LOW_TASKS {
            return set.is_disjoint_low(other);
        }
        set.meet(other).is_empty()
    }

    /// The members that a set of tasks has in common with another set.
    #[inline]
    pub fn meet(&self, set: &TaskSet, other: &TaskSet) -> TaskSet
        requires { (i : ℕ) → In set.now i → i < tasks self.now }
        ensures value { result ≡ meet set.now other.now }
        ensures truths { length result ≡ 1024 }
    {
        if self.tasks() <= LOW_TASKS {
            return set.meet_low(other);
        }
        set.meet(other)
    }

    /// How many members a set of tasks has in common with another set, at most 1,024.
    #[inline(always)]
    pub fn count_common(&self, set: &TaskSet, other: &TaskSet) -> u32
        requires { (i : ℕ) → In set.now i → i < tasks self.now }
        ensures value { result ≡ count (meet set.now other.now) }
        ensures most { result ≤ 1024 }
    {
        if self.tasks() <= LOW_TASKS {
            return set.meet_low(other).count_low();
        }
        set.meet(other).count()
    }

    /// The least member that a set of tasks has in common with another set; None where there is none.
    #[inline]
    pub fn least_common(&self, set: &TaskSet, other: &TaskSet) -> Option<u32>
        requires { (i : ℕ) → In set.now i → i < tasks self.now }
        ensures none { IsNone result ↔ IsEmpty (meet set.now other.now) }
        ensures some { IfSome result (IsLeast (meet set.now other.now)) }
    {
        if self.tasks() <= LOW_TASKS {
            return set.meet_low(other).least_low();
        }
        set.meet(other).least()
    }

    /// Whether each member that a set of tasks has in common with another set is in a third one.
    #[inline]
    pub fn is_covered(&self, set: &TaskSet, other: &TaskSet, by: &TaskSet) -> bool
        requires { (i : ℕ) → In set.now i → i < tasks self.now }
        ensures { IsTrue result ↔ IsSubset (meet set.now other.now) by.now }
    {
        if self.tasks() <= LOW_TASKS {
            let mut left = set.meet_low(other);
            left.take_out_low(by);
            return left.is_empty_low();
        }
        set.meet(other).is_subset(by)
    }

    /// Takes the members of another set out of a set of tasks.
    #[inline]
    pub fn take_out(&self, set: &mut TaskSet, other: &TaskSet)
        requires { (i : ℕ) → In set.old i → i < tasks self.now }
        ensures value { set.new ≡ minus set.old other.now }
        ensures truths { length set.new ≡ 1024 }
    {
        if self.tasks() <= LOW_TASKS {
            set.take_out_low(other);
            return;
        }
        *set = set.minus(other);
    }

    /// The total time of a set of tasks, in the instance's time unit, at most 204,800,000,000,000,000.
    pub fn sum(&self, set: &TaskSet) -> u64
        requires { IsTaskSet self.now set.now }
        ensures sum { result ≡ sum_where (has set.now) self.now.times }
        ensures limit { result ≤ 204800000000000000 }
    {
        sum_of(&self.times, set)
    }
}

// The sum of the times of the members, from the greatest member down.
fn sum_of(times: &[u64], set: &TaskSet) -> u64
    requires few { length times.now ≤ 1024 }
    requires times { (i : ℕ) → slice_index_or times.now i 0 ≤ 200000000000000 }
    requires set { (i : ℕ) → In set.now i → i < length times.now }
    ensures sum { result ≡ sum_where (has set.now) times.now }
    ensures limit { result ≤ 204800000000000000 }
{
    let mut sum = 0;
    let mut bound = 1024;
    while let Some(i) = set.greatest_below(bound) {
        sum += times[i as usize];
        bound = i;
    }
    sum
}
