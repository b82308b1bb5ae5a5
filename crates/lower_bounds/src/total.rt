//! What is known of a whole line before any search: its total time, the bound from that time alone, and a task that
//! no station can hold.
//!
//! The total time in cycles, rounded up, is Scholl's LM1 of all tasks, and 1 at least. Each call takes one pass over
//! the tasks.
ghost use Rattle.std.specs.Prelude.{◌≡◌, ◌≤◌, ◌<◌, ℕ, IsNone, IfSome};
ghost use Rattle.line_rules.specs.Bounds.{total_bound, total_time, IsTooLong};
ghost use Rattle.line_rules.specs.Accepted.{IsBelowAll};
ghost use Rattle.line_rules.specs.Checked.{IsLeastWhere};

use line_instance::Instance;

/// The times of all tasks together, in the instance's time unit, at most 204,800,000,000,000,000.
pub fn total_time(inst: &Instance) -> u64
    ensures total { result ≡ total_time inst.now }
    ensures limit { result ≤ 204800000000000000 }
{
    let _tasks = inst.tasks();
    inst.sum(&inst.all())
}

/// The greater of 1 and the total time divided by the cycle, rounded up (Scholl's LM1): no balance of either kind has
/// fewer stations. The cycle is at least 1.
pub fn total_bound(inst: &Instance, cycle: u64) -> u64
    requires { 1 ≤ cycle }
    ensures value { result ≡ total_bound inst.now cycle }
    ensures below_all { IsBelowAll inst.now cycle result }
{
    let _tasks = inst.tasks();
    by_total_time(inst, cycle)
}

// The same number, as it is computed.
fn by_total_time(inst: &Instance, cycle: u64) -> u64
    requires { 1 ≤ cycle }
    ensures { result ≡ total_bound inst.now cycle }
{
    total_time(inst).div_ceil(cycle).max(1)
}

/// The least task whose time exceeds the cycle, None exactly where there is none.
pub fn first_too_long(inst: &Instance, cycle: u64) -> Option<u32>
    ensures none { IsNone result → (i : ℕ) → IsTooLong inst.now cycle i → ⊥ }
    ensures some { IfSome result (IsLeastWhere (IsTooLong inst.now cycle)) }
{
    for i in 0..inst.tasks() {
        if inst.time(i) > cycle {
            return Some(i);
        }
    }
    None
}
