//! Arcs between tasks, and the first one that names no task.
//!
//! An arc is a precedence as a text gives it, before it is known that the tasks exist and that there is no cycle. One
//! look at each arc finds the first that names something else than two tasks.
ghost use Rattle.std.specs.Prelude.{◌≡◌, ℕ, ◌<◌, IsNone, IfSome};
ghost use Rattle.line_instance.specs.Walks.{AreArcs};
ghost use Rattle.line_instance.specs.Made.{IsFirstBad};

/// An arc: the task `first` is done before the task `then`. Tasks are counted from 0.
#[derive(Clone, Copy, Debug, PartialEq, Eq)]
pub struct Prec {
    /// The task that is done first.
    pub first: u32,
    /// The task that is done later.
    pub then: u32,
}

// The least place of an arc that doesn't name two tasks below `n`.
pub(crate) fn first_bad_arc(arcs: &[Prec], n: u32) -> Option<usize>
    ensures none { IsNone result → AreArcs n arcs.now }
    ensures some { IfSome result (IsFirstBad n arcs.now) }
{
    for k in 0..arcs.len() {
        let arc = arcs[k];
        if arc.first >= n || arc.then >= n {
            return Some(k);
        }
    }
    None
}
