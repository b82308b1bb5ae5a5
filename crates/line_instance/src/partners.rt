//! Partners: the tasks that may stand in for a task.
//!
//! A partner takes no more time than the task, and nothing binds it that doesn't bind the task. The table is made with
//! a test of each two tasks, and anew when tasks are set apart. At most 8 partners of a task are kept, so that a task's
//! list has a fixed size and needs no memory of its own.
ghost use Rattle.std.specs.Prelude.{◌≡◌, ◌≤◌, ◌<◌, ◌↔◌, ℕ, List, [], length, IsTrue, IfOk, slice_get, slice_index_or};
ghost use Rattle.std.specs.Prelude.{Some};
ghost use Rattle.line_instance.specs.inner.Inside.{AreRows, AreTurned, ArePaired, ArePartners, LeadsIn, of_rows};
ghost use Rattle.line_instance.specs.inner.Inside.{kept_of};
ghost use Rattle.line_instance.specs.Walks.{AreArcs};
ghost use Rattle.line_instance.specs.Partners.{IsPartner, AreKept};

use crate::arcs::Prec;
use crate::rows::{clear_rows, mark_pairs};
use crate::sets::TaskSet;
use std::alloc::{AllocError, Global};

// The most partners that are kept of a task: few, since the table has a place for each.
const MAX_KEPT: u32 = 8;

/// The kept partners of a task: the first `many` of `tasks`.
#[derive(Clone, Copy)]
pub struct Kept {
    pub tasks: [u32; 8],
    pub many: u32,
}

// Whether each member of row j but i is in row i.
fn is_within(rows: &[TaskSet], i: u32, j: u32) -> bool
    requires few { length rows.now ≤ 1024 }
    requires task { i < length rows.now }
    requires other { j < length rows.now }
    ensures { IsTrue result ↔ ((k : ℕ) → LeadsIn rows.now k j → (k ≡ i → ⊥) → LeadsIn rows.now k i) }
{
    rows[j as usize].without(i).is_subset(&rows[i as usize])
}

// Whether j is a partner of i.
fn is_partner(
    times: &[u64],
    before: &[TaskSet],
    after: &[TaskSet],
    apart: &[TaskSet],
    i: u32,
    j: u32,
) -> bool
    requires few { length times.now ≤ 1024 }
    requires before { length before.now ≡ length times.now }
    requires after { AreTurned before.now after.now }
    requires apart { length apart.now ≡ length times.now }
    requires task { i < length times.now }
    requires other { j < length times.now }
    ensures { IsTrue result ↔ IsPartner (of_rows times.now before.now apart.now) i j }
{
    if i == j || times[j as usize] > times[i as usize] {
        return false;
    }
    is_within(before, i, j) && is_within(after, i, j) && is_within(apart, i, j)
}

// The kept partners of i.
fn first_partners(
    times: &[u64],
    before: &[TaskSet],
    after: &[TaskSet],
    apart: &[TaskSet],
    i: u32,
) -> Kept
    requires few { length times.now ≤ 1024 }
    requires before { length before.now ≡ length times.now }
    requires after { AreTurned before.now after.now }
    requires apart { length apart.now ≡ length times.now }
    requires task { i < length times.now }
    ensures many { result.many ≤ 8 }
    ensures room { length result.tasks ≡ 8 }
    ensures kept { AreKept (of_rows times.now before.now apart.now) i (kept_of result) }
{
    let mut kept = Kept {
        tasks: [0; 8],
        many: 0,
    };
    for j in 0..times.len() as u32 {
        if kept.many < MAX_KEPT && is_partner(times, before, after, apart, i, j) {
            kept.tasks[kept.many as usize] = j;
            kept.many += 1;
        }
    }
    kept
}

// The k-th kept partner.
pub fn kept_at(kept: &Kept, k: u32) -> Option<u32>
    requires many { kept.now.many ≤ 8 }
    requires room { length kept.now.tasks ≡ 8 }
    ensures { result ≡ slice_get (kept_of kept.now) k }
{
    if k < kept.many {
        return Some(kept.tasks[k as usize]);
    }
    None
}

// Makes the table of kept partners anew.
pub fn keep_partners(
    times: &[u64],
    before: &[TaskSet],
    after: &[TaskSet],
    apart: &[TaskSet],
    partners: &mut [Kept],
)
    requires few { length times.now ≤ 1024 }
    requires before { length before.now ≡ length times.now }
    requires after { AreTurned before.now after.now }
    requires apart { length apart.now ≡ length times.now }
    requires many { length partners.old ≡ length times.now }
    ensures { ArePartners (of_rows times.now before.now apart.now) partners.new }
{
    for i in 0..partners.len() {
        partners[i] = first_partners(times, before, after, apart, i as u32);
    }
}

// Makes the rows of tasks that are apart anew, and then the table of kept partners.
pub fn part(
    times: &[u64],
    before: &[TaskSet],
    after: &[TaskSet],
    apart: &mut [TaskSet],
    partners: &mut [Kept],
    pairs: &[Prec],
)
    requires few { length times.now ≤ 1024 }
    requires before { length before.now ≡ length times.now }
    requires after { AreTurned before.now after.now }
    requires apart { length apart.old ≡ length times.now }
    requires many { length partners.old ≡ length times.now }
    requires pairs { AreArcs (length times.now) pairs.now }
    ensures apart { ArePaired (length times.now) pairs.now apart.new }
    ensures partners { ArePartners (of_rows times.now before.now apart.new) partners.new }
{
    clear_rows(apart);
    mark_pairs(apart, pairs);
    keep_partners(times, before, after, apart, partners);
}

// So many tasks with no kept partner.
fn no_partners(alloc: Global, n: usize) -> Result<Vec<Kept>, AllocError>
    ensures { IfOk result (λ v. length v.items ≡ n) }
{
    vec![in alloc; Kept {
        tasks: [0; 8],
        many: 0
    }; n]
}

// The table of kept partners.
pub fn partners_of(
    alloc: Global,
    times: &[u64],
    before: &[TaskSet],
    after: &[TaskSet],
    apart: &[TaskSet],
) -> Result<Vec<Kept>, AllocError>
    requires few { length times.now ≤ 1024 }
    requires before { length before.now ≡ length times.now }
    requires after { AreTurned before.now after.now }
    requires apart { length apart.now ≡ length times.now }
    ensures { IfOk result (λ v. ArePartners (of_rows times.now before.now apart.now) v.items) }
{
    let mut partners = no_partners(alloc, times.len())?;
    keep_partners(times, before, after, apart, &mut partners);
    Ok(partners)
}
