//! Making an instance of times and arcs, with each refusal.
//!
//! The four refusals that need no memory come first: no task, too many, a time above the limit, an arc that names no
//! task. Then the order of ranks is sought, and where it gets stuck there is a ring. At last each row is closed in that
//! order. An arc costs one union of sets, and the partners cost a test of each two tasks.
ghost use Rattle.std.specs.Prelude.{◌≡◌, ◌≤◌, ◌<◌, ℕ, List, [], length, slice_index_or, IsNone, IfSome, IfOk};
ghost use Rattle.line_instance.specs.Made.{IsMade, IsFirstLong, AreTimes};
ghost use Rattle.line_instance.specs.Walks.{AreArcs};

use crate::arcs::{Prec, first_bad_arc};
use crate::instance::{Instance, MAX_TASKS, MAX_TIME};
use crate::order::{Ordered, order_of, ranks_of};
use crate::partners::partners_of;
use crate::rings::{Ring, ring_of};
use crate::rows::{closed_rows, direct_rows, empty_rows, turned_rows};
use std::alloc::{AllocError, Global};

/// What `make` answers.
#[derive(Drop)]
pub enum Made {
    /// The instance.
    Good(Instance),
    /// There is no time.
    NoTasks,
    /// There are more than 1,024 times; the number of times.
    TooManyTasks(usize),
    /// A time is above the limit; the least such task.
    BadTime(u32),
    /// An arc names something other than a task; the least place of such an arc.
    BadArc(usize),
    /// The arcs have a cycle; a closed walk of arcs without a repeated task, written from its least task.
    Cycle(Ring),
    /// Memory is wanting.
    NoMemory,
}

// The least task whose time is above the limit.
fn first_long(times: &[u64]) -> Option<u32>
    requires { length times.now ≤ 1024 }
    ensures none { IsNone result → (i : ℕ) → slice_index_or times.now i 0 ≤ 200000000000000 }
    ensures some { IfSome result (IsFirstLong times.now) }
{
    for i in 0..times.len() {
        if times[i] > MAX_TIME {
            return Some(i as u32);
        }
    }
    None
}

/// Makes the instance of these times, in any time unit, and arcs.
pub fn make(alloc: Global, times: Vec<u64>, arcs: &[Prec]) -> Made
    ensures { IsMade times.items arcs.now result }
{
    let n = times.len();
    if n == 0 {
        return Made::NoTasks;
    }
    if n > MAX_TASKS {
        return Made::TooManyTasks(n);
    }
    if let Some(i) = first_long(&times) {
        return Made::BadTime(i);
    }
    if let Some(k) = first_bad_arc(arcs, n as u32) {
        return Made::BadArc(k);
    }
    match made_of(alloc, times, arcs) {
        Ok(made) => made,
        Err(_) => Made::NoMemory,
    }
}

// The instance of right times and arcs of tasks, or the ring that they have.
fn made_of(alloc: Global, times: Vec<u64>, arcs: &[Prec]) -> Result<Made, AllocError>
    requires times { AreTimes times.items }
    requires arcs { AreArcs (length times.items) arcs.now }
    ensures { IfOk result (IsMade times.items arcs.now) }
{
    let n = times.len();
    let direct = direct_rows(alloc, n, arcs)?;
    let order = match order_of(alloc, &direct)? {
        Ordered::Whole(order) => order,
        Ordered::Stuck(placed) => return Ok(Made::Cycle(ring_of(alloc, &direct, &placed)?)),
    };
    let before = closed_rows(alloc, &direct, &order)?;
    let after = turned_rows(alloc, &before)?;
    let apart = empty_rows(alloc, n)?;
    let ranks = ranks_of(alloc, &order)?;
    let partners = partners_of(alloc, &times, &before, &after, &apart)?;
    Ok(Made::Good(Instance {
        times,
        before,
        after,
        apart,
        order,
        ranks,
        partners,
    }))
}
