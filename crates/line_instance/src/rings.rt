//! Rings: closed walks of arcs, found where no task is free.
//!
//! Where no task is free, each task that is left has an arc from another one that is left. So a walk back along such
//! arcs has to meet itself again, after at most as many steps as there are tasks. The part that repeats is the ring. It
//! is turned so that its least task stands first, and told in the direction of its arcs.
ghost use Rattle.std.specs.Prelude.{◌≡◌, ℕ, ◌+◌, ◌<◌, ◌≤◌, ◌++◌, ◌∷◌, List, [], false, length, slice_index};
ghost use Rattle.std.specs.Prelude.{slice_index_or, IfOk, OnOk, OnErr};
ghost use Rattle.line_instance.specs.Walks.{IsRingOf, at as at_place};
ghost use Rattle.line_instance.specs.inner.Inside.{AreRows, IsStuck, LeadsIn, IsBackWalk, IsAppended};
ghost use Rattle.line_instance.specs.Truths.{In};

use crate::sets::TaskSet;
use std::alloc::{AllocError, Global};
use std::marker::Model;

/// A list of tasks, counted from 0. Contracts see the list.
#[derive(Drop)]
pub struct Ring {
    items: Vec<u32>,
}

impl Model for Ring {
    ghost use Rattle.std.specs.Prelude.{List, ℕ};

    ghost Value = { List ℕ };

    ghost view = { λ s. s.items.items };
}

impl Ring {
    /// The list of these tasks.
    pub fn from_vec(items: Vec<u32>) -> Ring
        ensures { result ≡ items.items }
    {
        Ring { items }
    }

    /// The number of members.
    pub fn len(&self) -> usize
        ensures { result ≡ length self.now }
    {
        self.items.len()
    }

    /// The member at place `k`, counted from 0.
    pub fn at(&self, k: usize) -> u32
        requires { k < length self.now }
        ensures { result ≡ slice_index self.now k }
    {
        self.items[k]
    }

    /// Appends a task. Without memory the list stays as it was.
    pub fn push(&mut self, task: u32) -> Result<(), AllocError>
        ensures ok { OnOk result (self.new ≡ self.old ++ task ∷ []) }
        ensures err { OnErr result (self.new ≡ self.old) }
    {
        self.items.push(task)?;
        Ok(())
    }

    /// An equal list.
    pub fn copy(&self) -> Result<Ring, AllocError>
        ensures { IfOk result (λ r. r ≡ self.now) }
    {
        Ok(Ring {
            items: self.items.clone()?,
        })
    }
}

// A way back along arcs, and the task of it to which a further arc leads back.
#[derive(Drop)]
pub struct BackWalk {
    pub path: Vec<u32>,
    pub again: u32,
}

// The least task that isn't placed.
fn first_left(n: u32, placed: &TaskSet) -> u32
    requires few { n ≤ 1024 }
    requires some { (t : ℕ) × (t < n) × (slice_index_or placed.now t false ≡ false) }
    ensures task { result < n }
    ensures left { slice_index_or placed.now result false ≡ false }
{
    for t in 0..n {
        if !placed.has(t) {
            return t;
        }
    }
    unreachable!()
}

// A task that isn't placed, with an arc to the task.
fn left_before(direct: &[TaskSet], placed: &TaskSet, task: u32) -> u32
    requires rows { AreRows (length direct.now) direct.now }
    requires stuck { IsStuck direct.now placed.now }
    requires task { task < length direct.now }
    requires left { slice_index_or placed.now task false ≡ false }
    ensures task { result < length direct.now }
    ensures left { slice_index_or placed.now result false ≡ false }
    ensures arc { LeadsIn direct.now result task }
{
    match direct[task as usize].minus(placed).least() {
        Some(i) => i,
        None => unreachable!(),
    }
}

// The way back from a task that isn't placed, until a task repeats.
fn walk_back(
    alloc: Global,
    direct: &[TaskSet],
    placed: &TaskSet,
    start: u32,
) -> Result<BackWalk, AllocError>
    requires few { length direct.now ≤ 1024 }
    requires rows { AreRows (length direct.now) direct.now }
    requires stuck { IsStuck direct.now placed.now }
    requires task { start < length direct.now }
    requires left { slice_index_or placed.now start false ≡ false }
    ensures { IfOk result (λ b. IsBackWalk direct.now b.path.items b.again) }
{
    let mut path = Vec::new(alloc);
    let mut seen = TaskSet::empty();
    let mut task = start;
    'back: while !seen.has(task) {
        path.push(task)?;
        seen = seen.with(task);
        task = left_before(direct, placed, task);
    }
    Ok(BackWalk { path, again: task })
}

// The place of a task of the path.
fn place_of(path: &[u32], task: u32) -> usize
    requires { (k : ℕ) × (k < length path.now) × (at_place path.now k ≡ task) }
    ensures place { result < length path.now }
    ensures task { at_place path.now result ≡ task }
{
    for k in 0..path.len() {
        if path[k] == task {
            return k;
        }
    }
    unreachable!()
}

// The place of the least member from a place on.
fn least_from(path: &[u32], from: usize) -> usize
    requires { from < length path.now }
    ensures low { from ≤ result }
    ensures high { result < length path.now }
    ensures least { (k : ℕ) → from ≤ k → k < length path.now → at_place path.now result ≤ at_place path.now k }
{
    let mut least = from;
    for k in from + 1..path.len() {
        if path[k] < path[least] {
            least = k;
        }
    }
    least
}

// Appends the members of the path below place `to`, down to place `from`.
fn append_back(list: &mut Vec<u32>, path: &[u32], from: usize, to: usize) -> Result<(), AllocError>
    requires order { from ≤ to }
    requires within { to ≤ length path.now }
    ensures { OnOk result (IsAppended list.old.items path.now from to list.new.items) }
{
    for i in (from..to).rev() {
        list.push(path[i])?;
    }
    Ok(())
}

// A ring of arcs between tasks that aren't placed, where none of them is free.
pub fn ring_of(alloc: Global, direct: &[TaskSet], placed: &TaskSet) -> Result<Ring, AllocError>
    requires few { length direct.now ≤ 1024 }
    requires rows { AreRows (length direct.now) direct.now }
    requires stuck { IsStuck direct.now placed.now }
    ensures { IfOk result (IsRingOf (LeadsIn direct.now)) }
{
    let start = first_left(direct.len() as u32, placed);
    let back = walk_back(alloc, direct, placed, start)?;
    let from = place_of(&back.path, back.again);
    let least = least_from(&back.path, from);
    let mut items = Vec::new(alloc);
    append_back(&mut items, &back.path, from, least + 1)?;
    append_back(&mut items, &back.path, least + 1, back.path.len())?;
    Ok(Ring { items })
}
