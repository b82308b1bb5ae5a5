//! The first book of a search, and its entry that shows the first lower end.
ghost use Rattle.std.specs.Prelude.{◌≡◌, ◌<◌, ◌≤◌, [], ◌∷◌, IfOk, OnOk};
ghost use Rattle.line_rules.specs.Balance.{all_tasks};
ghost use Rattle.line_rules.specs.Bounds.{bound};
ghost use Rattle.line_rules.specs.Ranges.{IsCycle};
ghost use Rattle.lemma_core.specs.Books.{IsReserved, MayBeBest};
ghost use Rattle.round_run.specs.Rounds.{by_bound};
ghost use Rattle.round_run.specs.declared.plans.Plan.{Plan};
ghost use Rattle.cycle_search.specs.Ends.{NoneApart, first_lower, first_upper};
ghost use Rattle.cycle_search.specs.inner.Searching.{IsBetween, IsFirstBook};

use crate::ends::{Ends, all_at_first, first_ends};
use crate::halving::Halving;
use crate::seek::Seeks;
use lemma_core::{Book, Published};
use line_instance::Instance;
use line_rules::{Balance, Entries, Entry, LineKind, Why};
use std::alloc::{AllocError, Global};

/// A book without entries, with a first best balance and with room for the better ones.
pub fn open_book(
    alloc: Global,
    inst: &Instance,
    kind: LineKind,
    cycle: u64,
    best: Balance,
) -> Result<Book, AllocError>
    requires { MayBeBest (record { line = inst.now; kind = kind; cycle = cycle }) best }
    ensures about { IfOk result (λ b. b.about ≡ record { line = inst.now; kind = kind; cycle = cycle }) }
    ensures state { IfOk result (λ b. b.state ≡ record { entries = []; best = best }) }
    ensures reserved { IfOk result (λ b. IsReserved b) }
{
    let mut book = Book::make(alloc, inst.copy(alloc)?, kind, cycle, best);
    book.reserve_offers()?;
    Ok(book)
}

// Publishes into an empty book that all tasks have no balance in so many stations at a cycle, since the bound at that
// cycle exceeds them.
fn refute_at(inst: &Instance, book: &mut Book, stations: u32, cycle: u64) -> Result<(), AllocError>
    requires same { book.old.about.line ≡ inst.now }
    requires empty { book.old.state.entries ≡ [] }
    requires cycle { IsCycle cycle }
    requires few { stations ≤ 1024 }
    requires exceeds { stations < bound book.old.about.kind inst.now cycle (all_tasks inst.now) }
    ensures about { book.new.about ≡ book.old.about }
    ensures entries { OnOk result (book.new.state.entries ≡ by_bound inst.now stations cycle ∷ []) }
    ensures reserved { IsReserved book.old → IsReserved book.new }
{
    let step = Entry {
        set: inst.all(),
        most: stations,
        cycle,
        why: Why::Bound,
    };
    match book.publish(step) {
        Published::Known(_) | Published::Added(_) => Ok(()),
        Published::NoMemory => Err(AllocError),
    }
}

// A book at the first upper end, with the entry that shows the first lower end where that is above 1.
fn first_book(
    alloc: Global,
    inst: &Instance,
    kind: LineKind,
    stations: u32,
    ends: Ends,
) -> Result<Book, AllocError>
    requires none { NoneApart inst.now }
    requires few { stations ≤ 1024 }
    requires lower { ends.lower ≡ first_lower inst.now stations }
    requires upper { ends.upper ≡ first_upper inst.now }
    requires limit { ends.upper ≤ 204800000000000000 }
    requires some { 1 ≤ stations }
    ensures { IfOk result (IsFirstBook kind inst.now stations) }
{
    let _tasks = inst.tasks();
    let best = all_at_first(alloc, inst, 1)?;
    let mut book = open_book(alloc, inst, kind, ends.upper, best)?;
    if ends.lower > 1 {
        refute_at(inst, &mut book, stations, ends.lower - 1)?;
    }
    Ok(book)
}

/// The search before its first try, for 1 to 1,024 stations, of an instance without pairs that are apart.
pub(crate) fn begin(
    alloc: Global,
    inst: &Instance,
    kind: LineKind,
    stations: u32,
) -> Result<Halving, AllocError>
    requires none { NoneApart inst.now }
    requires some { 1 ≤ stations }
    requires few { stations ≤ 1024 }
    ensures { IfOk result (λ h. (plan : Plan) → IsBetween kind inst.now stations plan h) }
{
    let _tasks = inst.tasks();
    let ends = first_ends(inst, stations);
    Ok(Halving {
        lower: ends.lower,
        upper: ends.upper,
        balance: all_at_first(alloc, inst, stations)?,
        proof: Entries::from_vec(Vec::new(alloc)),
        book: first_book(alloc, inst, kind, stations, ends)?,
        paid: 0,
        seeks: Seeks::none(),
    })
}
