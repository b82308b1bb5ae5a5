//! The order of the tasks by rank.
//!
//! Each rank goes to the least task that has none yet and whose direct predecessors all have one. The search for it
//! begins anew for each rank, so n tasks take up to n^2 tests on sets; this is done once an instance. Where no task is
//! free, some arcs have a ring among the tasks that are left.
ghost use Rattle.std.specs.Prelude.{◌≡◌, ℕ, ◌≤◌, ◌<◌, length, IsNone, IfOk, IfSome};
ghost use Rattle.line_instance.specs.inner.Inside.{AreRows, MayCome, IsLeastFree, IsWhole, IsStuck, IsPermutation};
ghost use Rattle.line_instance.specs.inner.Inside.{AreRanksOf};
ghost use Rattle.line_instance.specs.inner.Ordered.{IsOrdered};

use crate::sets::TaskSet;
use std::alloc::{AllocError, Global};

// An order of all tasks, or the tasks that were placed where none was free.
#[derive(Drop)]
pub enum Ordered {
    Whole(Vec<u32>),
    Stuck(TaskSet),
}

// The least task that isn't placed, after tasks that are.
fn free_task(direct: &[TaskSet], placed: &TaskSet) -> Option<u32>
    requires { length direct.now ≤ 1024 }
    ensures none { IsNone result → (t : ℕ) → MayCome direct.now placed.now t → ⊥ }
    ensures some { IfSome result (IsLeastFree direct.now placed.now) }
{
    for t in 0..direct.len() {
        if !placed.has(t as u32) && direct[t].is_subset(placed) {
            return Some(t as u32);
        }
    }
    None
}

// The order that always takes the least free task, where there is one.
pub fn order_of(alloc: Global, direct: &[TaskSet]) -> Result<Ordered, AllocError>
    requires many { length direct.now ≤ 1024 }
    requires rows { AreRows (length direct.now) direct.now }
    ensures { IfOk result (IsOrdered direct.now) }
{
    let mut placed = TaskSet::empty();
    let mut order = Vec::new(alloc);
    for _rank in 0..direct.len() {
        match free_task(direct, &placed) {
            None => return Ok(Ordered::Stuck(placed)),
            Some(task) => {
                order.push(task)?;
                placed = placed.with(task);
            }
        }
    }
    Ok(Ordered::Whole(order))
}

// The rank of each task.
pub fn ranks_of(alloc: Global, order: &[u32]) -> Result<Vec<u32>, AllocError>
    requires few { length order.now ≤ 1024 }
    requires order { IsPermutation order.now }
    ensures { IfOk result (λ v. AreRanksOf order.now v.items) }
{
    let mut ranks = vec![in alloc; 0; order.len()]?;
    for k in 0..order.len() {
        ranks[order[k] as usize] = k as u32;
    }
    Ok(ranks)
}
