//! Sets of tasks and cycles within their ranges.
ghost use Rattle.std.specs.Prelude.{◌↔◌, IsTrue};
ghost use Rattle.line_rules.specs.Ranges.{IsCycle, IsOf};

use line_instance::TaskSet;

/// The greatest cycle.
const MAX_CYCLE: u64 = 1_000_000_000_000_000_000;

/// Whether a cycle, or a bound on one, is 1 to 10^18.
pub(crate) fn is_cycle(cycle: u64) -> bool
    ensures { IsTrue result ↔ IsCycle cycle }
{
    1 <= cycle && cycle <= MAX_CYCLE
}

/// Whether a set has none but the first `tasks` tasks.
pub(crate) fn is_of(set: &TaskSet, tasks: u32) -> bool
    ensures { IsTrue result ↔ IsOf tasks set.now }
{
    match set.greatest_below(set.capacity()) {
        None => true,
        Some(last) => last < tasks,
    }
}
