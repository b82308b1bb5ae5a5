//! The bound of all tasks as an entry of a book.
ghost use Rattle.std.specs.Prelude.{◌≡◌, ◌<◌, ◌≤◌, OnOk};
ghost use Rattle.line_rules.specs.Balance.{all_tasks};
ghost use Rattle.line_rules.specs.Bounds.{bound};
ghost use Rattle.line_rules.specs.Entries.{HasAnswer};
ghost use Rattle.line_rules.specs.Ranges.{IsCycle};
ghost use Rattle.lemma_core.specs.Books.{IsReserved};
ghost use Rattle.round_run.specs.Rounds.{AddsBound};

use lemma_core::{Book, Published};
use line_instance::Instance;
use line_rules::{Entry, Why};
use std::alloc::AllocError;

/// Publishes that all tasks have no balance in `most` stations at the book's cycle, since the bound exceeds that
/// number. Out of memory, the book stays as it was.
pub(crate) fn refute_by_bound(inst: &Instance, book: &mut Book, most: u32) -> Result<(), AllocError>
    requires same { book.old.about.line ≡ inst.now }
    requires cycle { IsCycle book.old.about.cycle }
    requires few { most ≤ 1024 }
    requires exceeds { most < bound book.old.about.kind inst.now book.old.about.cycle (all_tasks inst.now) }
    ensures adds { AddsBound most book.old book.new }
    ensures answered { OnOk result (HasAnswer book.new.state.entries (all_tasks inst.now) most book.old.about.cycle) }
    ensures reserved { IsReserved book.old → IsReserved book.new }
{
    let step = Entry {
        set: inst.all(),
        most,
        cycle: book.cycle(),
        why: Why::Bound,
    };
    match book.publish(step) {
        Published::Known(_) | Published::Added(_) => Ok(()),
        Published::NoMemory => Err(AllocError),
    }
}
