//! The least number of stations of a line at a cycle (Scholl's SALBP-1, and its counterpart for U-lines).
//!
//! The bound of all tasks is the first lower bound and the ranked balance the first best one. While the lower bound is
//! below the best balance, the question is decided whether all tasks have a balance in so many stations: a refuted one
//! raises the lower bound by one, and a balance ends the run. All questions share one book, so what one refuted the
//! next one cites. The cost is that of the searches: a unit for each load that is listed, of which a plan has so many
//! for its closing passes and as many again for all its helpers.
ghost use Rattle.std.specs.Prelude.{◌≡◌, ◌-◌, ◌<◌, ◌≤◌, ℕ, List, [], IfOk, OnOk};
ghost use Rattle.line_rules.specs.Balance.{all_tasks};
ghost use Rattle.line_rules.specs.Bounds.{bound};
ghost use Rattle.line_rules.specs.Entries.{HasAnswer};
ghost use Rattle.line_rules.specs.Ranges.{IsCycle};
ghost use Rattle.line_rules.specs.declared.types.Entry.{Entry as EntryOf};
ghost use Rattle.lemma_core.specs.Books.{IsReserved, MayBeBest};
ghost use Rattle.round_run.specs.Plans.{IsPlan};
ghost use Rattle.round_run.specs.declared.plans.Plan.{Plan as PlanOf};
ghost use Rattle.round_run.specs.inner.Questions.{IsRun, HasAsked};
ghost use Rattle.round_run.specs.Rounds.{AddsBound};
ghost use Rattle.round_run.specs.Solving.{FitsAll, IsBelow, SolvesFrom, Solves};

use crate::bounding::refute_by_bound;
use crate::plans::{Plan, fill};
use crate::questions::{Asked, ask_all};
use first_fit::{Ranked, ranked_balance};
use lemma_core::Book;
use line_instance::Instance;
use line_rules::{Balance, Frames, LineKind};
use lower_bounds::bound;
use round_helpers::Gate;
use std::alloc::{AllocError, Global};
use std::sync::Wait;
use std::thread::Threads;

/// Why a run stopped before the least number of stations was known.
#[derive(Clone, Copy, Debug, PartialEq, Eq)]
pub enum Cause {
    /// Its closing passes used all units and needed one more load.
    Units,
    /// Out of memory.
    Memory,
}

/// What a run comes to.
#[derive(Drop)]
pub enum Outcome {
    /// The least task that is longer than the cycle, from 0: there is no balance.
    TooLong(u32),
    /// The best balance of the book has the least number of stations, and above 1 an entry of the book shows it.
    Solved {
        book: Book,
    },
    /// The least number is at least `lower`, and below the stations of the best balance or equal to them. The trail has
    /// the open frames of the search; where memory ended it may have none.
    Stopped {
        cause: Cause,
        lower: u32,
        book: Book,
        trail: Frames,
    },
    /// Out of memory before there were bounds with their proof.
    NoMemory,
}

/// The least number of stations in which a line of this kind has a balance at a cycle of 1 to 10^18, in the instance's
/// time unit; or bounds on it, where the units of the plan ended first. Helpers run in threads, in any order; they meet
/// the gate before each publish. Without helpers the same plan gives the same answer each time.
pub fn solve<R: Threads + Wait + Sync, G: Gate>(
    rt: &R,
    alloc: Global,
    inst: &Instance,
    kind: LineKind,
    cycle: u64,
    plan: &Plan,
    gate: &G,
) -> Outcome
    requires cycle { IsCycle cycle }
    requires plan { IsPlan plan.now }
    ensures { Solves kind inst.now cycle plan.now result }
{
    match ranked_balance(alloc, inst, kind, cycle) {
        Ranked::TooLong(task) => Outcome::TooLong(task),
        Ranked::NoMemory => Outcome::NoMemory,
        Ranked::Good(best) => match open_book(alloc, inst, kind, cycle, best) {
            Ok(book) => solve_from(rt, alloc, inst, book, plan, gate),
            Err(_) => Outcome::NoMemory,
        },
    }
}

/// An empty book about the instance, with its first best balance, and with room for the better ones. An error where
/// memory is out.
pub fn open_book(
    alloc: Global,
    inst: &Instance,
    kind: LineKind,
    cycle: u64,
    best: Balance,
) -> Result<Book, AllocError>
    requires { MayBeBest (record { line = inst.now; kind = kind; cycle = cycle }) best }
    ensures about { IfOk result (λ b. b.about ≡ record { line = inst.now; kind = kind; cycle = cycle }) }
    ensures state { IfOk result (λ b. b.state ≡ record { entries = []; best = best }) }
    ensures reserved { IfOk result (λ b. IsReserved b) }
{
    let mut book = Book::make(alloc, inst.copy(alloc)?, kind, cycle, best);
    book.reserve_offers()?;
    Ok(book)
}

/// The same over a book that may have entries: the least number of stations at the book's cycle, or bounds on it. The
/// book is about the instance, no task is longer than its cycle, and `reserve_offers` was done. The entries that the
/// run adds stand behind those of the book, and are all at its cycle; its units are counted from here on. The first
/// best balance is the book's.
pub fn solve_from<R: Threads + Wait + Sync, G: Gate>(
    rt: &R,
    alloc: Global,
    inst: &Instance,
    book: Book,
    plan: &Plan,
    gate: &G,
) -> Outcome
    requires same { book.about.line ≡ inst.now }
    requires cycle { IsCycle book.about.cycle }
    requires fits { FitsAll inst.now book.about.cycle }
    requires reserved { IsReserved book }
    requires plan { IsPlan plan.now }
    ensures { let state = book.state in
        SolvesFrom book.about.kind inst.now book.about.cycle plan.now state.entries state.best.stations result }
{
    let Ok(purse) = fill(alloc, plan) else {
        return Outcome::NoMemory;
    };
    let _tasks = inst.tasks();
    let _right = book.best();
    let first = bound(inst, book.kind(), book.cycle(), &inst.all());
    let asked = ask_all(rt, alloc, inst, book, first, plan.pairs, purse, gate);
    concluded(inst, first, asked)
}

// What a run comes to whose questions ended.
fn concluded(inst: &Instance, first: u32, asked: Asked) -> Outcome
    requires cycle { IsCycle asked.book.about.cycle }
    requires run { (before : List EntryOf) × (added : List EntryOf) × (top : ℕ)
        × IsRun asked.book.about.kind inst.now asked.book.about.cycle before added top first asked.lower asked.book }
    requires first { first ≡ bound asked.book.about.kind inst.now asked.book.about.cycle (all_tasks inst.now) }
    requires fits { FitsAll inst.now asked.book.about.cycle }
    ensures { (before : List EntryOf) (top : ℕ) (plan : PlanOf) (helpers : ℕ) → helpers ≤ plan.units
        → (plan.helpers ≡ 0 → helpers ≡ 0)
        → HasAsked asked.book.about.kind inst.now asked.book.about.cycle before top plan.units helpers first asked
        → SolvesFrom asked.book.about.kind inst.now asked.book.about.cycle plan before top result }
{
    let _tasks = inst.tasks();
    let Asked {
        mut book,
        lower,
        stop,
    } = asked;
    let Ok(()) = show_lower(inst, &mut book, first, lower) else {
        return Outcome::NoMemory;
    };
    let _len = book.len();
    match stop {
        None => Outcome::Solved { book },
        Some(stop) => Outcome::Stopped {
            cause: stop.cause,
            lower,
            book,
            trail: stop.trail,
        },
    }
}

// Makes sure that an entry shows the lower bound where that is above 1: where no question was refuted, the bound of all
// tasks shows it.
fn show_lower(inst: &Instance, book: &mut Book, first: u32, lower: u32) -> Result<(), AllocError>
    requires same { book.old.about.line ≡ inst.now }
    requires cycle { IsCycle book.old.about.cycle }
    requires first { first ≡ bound book.old.about.kind inst.now book.old.about.cycle (all_tasks inst.now) }
    requires few { first ≤ 1024 }
    requires from { first ≤ lower }
    requires refuted { first < lower
        → HasAnswer book.old.state.entries (all_tasks inst.now) (lower - 1) book.old.about.cycle }
    ensures adds { AddsBound (first - 1) book.old book.new }
    ensures shown { OnOk result (IsBelow inst.now book.old.about.cycle book.new lower) }
{
    if lower == first && first > 1 {
        refute_by_bound(inst, book, first - 1)?;
    }
    Ok(())
}
