//! How a search looks for an entry that answers a question: exactly, or by what a desk beside others finds at once.
//!
//! The tests of a load and the Swap rule are written once, over either way. The way is known where the code is built,
//! so it costs nothing.
ghost use Rattle.std.specs.Prelude.{◌≡◌, Bool, true, false, IfSome, IsNone};
ghost use Rattle.line_rules.specs.Entries.{IsUnanswered};
ghost use Rattle.lemma_core.specs.Desks.{entries, Waits};
ghost use Rattle.station_search.specs.Decide.{IsAnswered};

use crate::beside::Beside;
use lemma_core::{Desk, Looked};
use line_instance::TaskSet;

/// A way to look for an entry at a desk.
pub trait Looker<D: Desk> {
    // whether None says that no entry answers
    ghost exact: { Bool };

    /// The number of an entry seen that answers the question of the set and so many stations.
    fn find(desk: &mut D, set: &TaskSet, most: u32) -> Option<u64>
        ensures waits { Waits (D.desk desk.old) (D.desk desk.new) }
        ensures finds { IfSome result (λ id.
            IsAnswered (entries (D.desk desk.new)) id set.now most (D.desk desk.new).about.cycle) }
        ensures absent { IsNone result → exact ≡ true
            → IsUnanswered (entries (D.desk desk.new)) set.now most (D.desk desk.new).about.cycle };
}

/// By the desk's look, which is exact.
pub struct ByLook;

impl<D: Desk> Looker<D> for ByLook {
    ghost exact = { true };

    #[inline]
    fn find(desk: &mut D, set: &TaskSet, most: u32) -> Option<u64> {
        match desk.look(set, most) {
            Looked::Found { id, .. } => Some(id),
            Looked::Absent => None,
        }
    }
}

/// By what a desk beside others finds without waiting.
pub struct ByFind;

impl<D: Beside> Looker<D> for ByFind {
    ghost exact = { false };

    #[inline]
    fn find(desk: &mut D, set: &TaskSet, most: u32) -> Option<u64> {
        desk.find(set, most)
    }
}
