//! The tasks before each task, as rows of sets.
//!
//! A row is a set of tasks for each task. What is before a task is its direct predecessors with what is before them. In
//! the order of ranks the rows of these are made already, so each arc costs one union. Turned round, the same rows tell
//! what is after each task.
ghost use Rattle.std.specs.Prelude.{◌≡◌, ◌≤◌, ◌<◌, ℕ, List, [], length, IfOk, slice_index_or, replicate, false};
ghost use Rattle.line_instance.specs.Walks.{AreArcs};
ghost use Rattle.line_instance.specs.inner.Inside.{AreRows, AreEmpty, AreDirect, IsJoined, AreJoined, IsWhole};
ghost use Rattle.line_instance.specs.inner.Inside.{AreMarked, AreTurned, ArePaired};
ghost use Rattle.line_instance.specs.Truths.{In};

use crate::arcs::Prec;
use crate::sets::TaskSet;
use std::alloc::{AllocError, Global};

// So many empty sets.
pub fn empty_rows(alloc: Global, n: usize) -> Result<Vec<TaskSet>, AllocError>
    ensures many { IfOk result (λ v. length v.items ≡ n) }
    ensures empty { IfOk result (λ v. (t : ℕ) → t < n → slice_index_or v.items t [] ≡ replicate 1024 false) }
{
    vec![in alloc; TaskSet::empty(); n]
}

// For each task the tasks with an arc to it.
pub fn direct_rows(alloc: Global, n: usize, arcs: &[Prec]) -> Result<Vec<TaskSet>, AllocError>
    requires few { n ≤ 1024 }
    requires arcs { AreArcs n arcs.now }
    ensures { IfOk result (λ v. AreDirect n arcs.now v.items) }
{
    let mut rows = empty_rows(alloc, n)?;
    for arc in arcs {
        let arc = *arc;
        let row = &mut rows[arc.then as usize];
        *row = row.with(arc.first);
    }
    Ok(rows)
}

// The tasks of a direct row, and those of their rows.
fn joined_row(direct: &TaskSet, rows: &[TaskSet]) -> TaskSet
    requires few { length rows.now ≤ 1024 }
    requires tasks { (j : ℕ) → In direct.now j → j < length rows.now }
    ensures { IsJoined direct.now rows.now result }
{
    let mut row = TaskSet::empty();
    let mut bound = 1024;
    while let Some(j) = direct.greatest_below(bound) {
        row = row.union(&rows[j as usize]).with(j);
        bound = j;
    }
    row
}

// For each task the tasks before it: a row of direct ones is joined where their rows are.
pub fn closed_rows(
    alloc: Global,
    direct: &[TaskSet],
    order: &[u32],
) -> Result<Vec<TaskSet>, AllocError>
    requires few { length direct.now ≤ 1024 }
    requires rows { AreRows (length direct.now) direct.now }
    requires order { IsWhole direct.now order.now }
    ensures { IfOk result (λ v. AreJoined direct.now v.items) }
{
    let mut rows = empty_rows(alloc, direct.len())?;
    for k in 0..order.len() {
        let task = order[k] as usize;
        rows[task] = joined_row(&direct[task], &rows);
    }
    Ok(rows)
}

// Puts a mark into the row of each member.
fn mark_rows(rows: &mut [TaskSet], chosen: &TaskSet, mark: u32)
    requires few { length rows.old ≤ 1024 }
    requires truths { (t : ℕ) → t < length rows.old → length (slice_index_or rows.old t []) ≡ 1024 }
    requires tasks { (t : ℕ) → In chosen.now t → t < length rows.old }
    requires mark { mark < 1024 }
    ensures { AreMarked rows.old chosen.now mark rows.new }
{
    let mut bound = 1024;
    while let Some(t) = chosen.greatest_below(bound) {
        let row = &mut rows[t as usize];
        *row = row.with(mark);
        bound = t;
    }
}

// The rows turned round: row i has the tasks whose row has i.
pub fn turned_rows(alloc: Global, rows: &[TaskSet]) -> Result<Vec<TaskSet>, AllocError>
    requires few { length rows.now ≤ 1024 }
    requires rows { AreRows (length rows.now) rows.now }
    ensures { IfOk result (λ v. AreTurned rows.now v.items) }
{
    let mut turned = empty_rows(alloc, rows.len())?;
    for j in 0..rows.len() {
        mark_rows(&mut turned, &rows[j], j as u32);
    }
    Ok(turned)
}

// Empties each row.
pub fn clear_rows(rows: &mut [TaskSet])
    ensures { AreEmpty (length rows.old) rows.new }
{
    for t in 0..rows.len() {
        rows[t] = TaskSet::empty();
    }
}

// Puts each task of a pair into the row of the other one.
pub fn mark_pairs(rows: &mut [TaskSet], pairs: &[Prec])
    requires few { length rows.old ≤ 1024 }
    requires rows { AreEmpty (length rows.old) rows.old }
    requires pairs { AreArcs (length rows.old) pairs.now }
    ensures { ArePaired (length rows.old) pairs.now rows.new }
{
    for pair in pairs {
        let pair = *pair;
        let row = &mut rows[pair.then as usize];
        *row = row.with(pair.first);
        let other = &mut rows[pair.first as usize];
        *other = other.with(pair.then);
    }
}
