//! The first balance and the first book of a search.
ghost use Rattle.std.specs.Prelude.{◌≡◌, ◌≤◌, ℕ, IfOk, OnOk};
ghost use Rattle.lemma_core.specs.Books.{IsReserved};
ghost use Rattle.cycle_search.specs.rounds.declared.plans.Plan.{Plan as Planned};
ghost use Rattle.effic_check.specs.Accepted.{NoneApart};
ghost use Rattle.effic_search.specs.inner.Going.{IsFloored, IsGoing, IsPaid};
ghost use Rattle.effic_search.specs.inner.Opening.{AddsGoal};

use crate::counting::Listed;
use crate::lowering::{Lowering, Wanted};
use cycle_search::{Seeks, all_at_first, first_ends, open_book};
use lemma_core::{Book, Published};
use line_instance::Instance;
use line_rules::{Entry, Why};
use std::alloc::{AllocError, Global};

// Publishes that all tasks have no balance in so many stations below the first lower end, where that is above 1.
fn refute_below(inst: &Instance, book: &mut Book, stations: u32) -> Result<(), AllocError>
    requires same { book.old.about.line ≡ inst.now }
    requires some { 1 ≤ stations }
    requires few { stations ≤ 1024 }
    ensures about { book.new.about ≡ book.old.about }
    ensures adds { AddsGoal inst.now book.old.state.entries book.new.state.entries }
    ensures floored { OnOk result (IsFloored inst.now book.new.state.entries stations) }
    ensures reserved { IsReserved book.old → IsReserved book.new }
{
    let _tasks = inst.tasks();
    let ends = first_ends(inst, stations);
    if ends.lower <= 1 {
        return Ok(());
    }
    let step = Entry {
        set: inst.all(),
        most: stations,
        cycle: ends.lower - 1,
        why: Why::Bound,
    };
    match book.publish(step) {
        Published::Known(_) | Published::Added(_) => Ok(()),
        Published::NoMemory => Err(AllocError),
    }
}

/// The search before its first try: all tasks at the first of the fewest stations, and a book that refutes each number
/// of stations below its first lower end.
pub(crate) fn begin(alloc: Global, inst: &Instance, wanted: Wanted) -> Result<Lowering, AllocError>
    requires none { NoneApart inst.now }
    requires some { 1 ≤ wanted.least }
    requires order { wanted.least ≤ wanted.most }
    requires few { wanted.most ≤ 1024 }
    ensures going { IfOk result (IsGoing wanted.kind inst.now wanted.least wanted.most wanted.least) }
    ensures paid { IfOk result (λ h. (plan : Planned) → (tries : ℕ) → IsPaid plan tries h) }
{
    let _tasks = inst.tasks();
    let ends = first_ends(inst, wanted.least);
    let first = all_at_first(alloc, inst, 1)?;
    let mut book = open_book(alloc, inst, wanted.kind, ends.upper, first)?;
    for stations in wanted.least..wanted.most + 1 {
        refute_below(inst, &mut book, stations)?;
    }
    Ok(Lowering {
        cycle: ends.upper,
        balance: all_at_first(alloc, inst, wanted.least)?,
        book,
        listed: Listed {
            entries: 0,
            units: 0,
        },
        seeks: Seeks::none(),
    })
}
