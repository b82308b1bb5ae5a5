//! The Swap rule: a rest is refuted where an entry refutes the set in which one of its tasks gives way to a task that
//! can stand in for it.
//!
//! At most 32 looks are made for a rest, with the kept partners of its tasks. One set serves all looks: a task is taken
//! out and its partner put in, and both are turned back after the look, so nothing is copied.
ghost use Rattle.std.specs.Prelude.{◌≡◌, false, slice_set, ◌<◌, ◌≤◌, ◌&&◌, true, Option, IsNone, IfSome, IfOk, OnErr};
ghost use Rattle.line_instance.specs.Truths.{In};
ghost use Rattle.line_instance.specs.Line.{IsTaskSet};
ghost use Rattle.line_rules.specs.Entries.{IsUnanswered, FollowsBySwap};
ghost use Rattle.line_rules.specs.Ranges.{IsCycle};
ghost use Rattle.line_rules.specs.declared.types.Mode.{Mode};
ghost use Rattle.lemma_core.specs.Desks.{entries, Keeps, Waits};
ghost use Rattle.station_search.specs.Decide.{IsFor, IsAnswered};
ghost use Rattle.station_search.specs.inner.Work.{DoesFor, may_swap, swap_of};

use crate::looking::Looker;
use lemma_core::{Desk, Published};
use line_instance::{Instance, TaskSet};
use line_rules::{Entry, LineKind, Why};
use std::alloc::AllocError;

/// The most looks that are made for one rest.
const MAX_LOOKS: u32 = 32;

/// The most partners that are kept of a task.
const MAX_PARTNERS: u32 = 8;

/// A way to refute a set by an entry: without one task and with another.
#[derive(Clone, Copy)]
struct Swap {
    /// The number of the entry.
    cite: u64,
    /// The task of the set that gives way.
    out_task: u32,
    /// The task that stands in for it.
    in_task: u32,
}

// Looks for a set in which a partner stands in for the task, while looks are left. `swapped` is the set without the task,
// and is so again in the end.
fn swap_out<L: Looker<D>, D: Desk>(
    desk: &mut D,
    inst: &Instance,
    kind: LineKind,
    cycle: u64,
    set: &TaskSet,
    most: u32,
    out_task: u32,
    swapped: &mut TaskSet,
    looks: &mut u32,
) -> Option<Swap>
    requires desk { IsFor (D.desk desk.old) inst.now kind cycle }
    requires set { IsTaskSet inst.now set.now }
    requires task { In set.now out_task }
    requires swapped { swapped.old ≡ slice_set set.now out_task false }
    ensures swapped { swapped.new ≡ swapped.old }
    ensures waits { Waits (D.desk desk.old) (D.desk desk.new) }
    ensures found { IfSome result (λ s. let swap = swap_of cycle set.now most s.cite s.out_task s.in_task in
        FollowsBySwap inst.now (entries (D.desk desk.new)) swap s.cite s.out_task s.in_task) }
{
    let _tasks = inst.tasks();
    for k in 0..MAX_PARTNERS {
        let Some(in_task) = inst.partner(out_task, k) else {
            return None;
        };
        if set.has(in_task) {
            continue;
        }
        if *looks == 0 {
            return None;
        }
        *looks -= 1;
        swapped.insert(in_task);
        let found = L::find(desk, swapped, most);
        swapped.remove(in_task);
        if let Some(cite) = found {
            return Some(Swap {
                cite,
                out_task,
                in_task,
            });
        }
    }
    None
}

// Looks for a way to refute the set by an entry, its tasks ascending.
fn find_swap<L: Looker<D>, D: Desk>(
    desk: &mut D,
    inst: &Instance,
    kind: LineKind,
    cycle: u64,
    set: &TaskSet,
    most: u32,
) -> Option<Swap>
    requires desk { IsFor (D.desk desk.old) inst.now kind cycle }
    requires set { IsTaskSet inst.now set.now }
    ensures waits { Waits (D.desk desk.old) (D.desk desk.new) }
    ensures found { IfSome result (λ s. let swap = swap_of cycle set.now most s.cite s.out_task s.in_task in
        FollowsBySwap inst.now (entries (D.desk desk.new)) swap s.cite s.out_task s.in_task) }
{
    let mut looks = MAX_LOOKS;
    let mut swapped = *set;
    for task in set {
        swapped.remove(task);
        if let Some(swap) = swap_out::<L, D>(
            desk,
            inst,
            kind,
            cycle,
            set,
            most,
            task,
            &mut swapped,
            &mut looks,
        ) {
            return Some(swap);
        }
        swapped.insert(task);
        if looks == 0 {
            return None;
        }
    }
    None
}

/// Publishes that a set is refuted by the Swap rule, where an entry is found for that, and gives the number of an entry
/// that answers the set.
pub fn publish_swap<L: Looker<D>, D: Desk>(
    desk: &mut D,
    inst: &Instance,
    kind: LineKind,
    cycle: u64,
    set: &TaskSet,
    most: u32,
) -> Result<Option<u64>, AllocError>
    requires desk { IsFor (D.desk desk.old) inst.now kind cycle }
    requires set { IsTaskSet inst.now set.now }
    requires cycle { IsCycle cycle }
    requires few { most ≤ 1024 }
    requires unanswered { (L.exact && (D.desk desk.old).alone) ≡ true
        → IsUnanswered (entries (D.desk desk.old)) set.now most cycle }
    ensures keeps { Keeps (D.desk desk.old) (D.desk desk.new) }
    ensures publishes { (asked : Option Mode) → IfOk result (λ found.
        DoesFor asked kind inst.now cycle (D.desk desk.old) (D.desk desk.new) set.now (may_swap found) 0) }
    ensures fails { OnErr result (Waits (D.desk desk.old) (D.desk desk.new)) }
    ensures answered { IfOk result (λ found.
        IfSome found (λ id. IsAnswered (entries (D.desk desk.new)) id set.now most cycle)) }
    ensures unanswered { IfOk result (λ found. IsNone found
        → (L.exact && (D.desk desk.old).alone) ≡ true
        → IsUnanswered (entries (D.desk desk.new)) set.now most cycle) }
{
    let Some(swap) = find_swap::<L, D>(desk, inst, kind, cycle, set, most) else {
        return Ok(None);
    };
    let step = Entry {
        set: *set,
        most,
        cycle,
        why: Why::Swap {
            cite: swap.cite,
            out_task: swap.out_task,
            in_task: swap.in_task,
        },
    };
    match desk.publish(step) {
        Published::Known(id) => Ok(Some(id)),
        Published::Added(id) => Ok(Some(id)),
        Published::NoMemory => Err(AllocError),
    }
}
