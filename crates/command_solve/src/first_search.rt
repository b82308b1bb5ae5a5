//! The first search of a run: few units, no helpers, and what it proved stays in the book.
//!
//! Where its bounds meet, it ends the run. Where its units end, its trail is dropped, and the run goes on with its
//! book: the entries are cited by what comes behind, and the best balance is where the seek begins. It costs its units.
ghost use Rattle.std.specs.Prelude.{◌≡◌, ℕ, List, Option, string_bytes};
ghost use Rattle.line_rules.specs.Ranges.{IsCycle};
ghost use Rattle.line_rules.specs.declared.types.Entry.{Entry as Lemma};
ghost use Rattle.line_rules.specs.declared.types.LineKind.{LineKind as Kind};
ghost use Rattle.lemma_core.specs.Books.{IsReserved};
ghost use Rattle.round_run.specs.Solving.{FitsAll};
ghost use Rattle.command_solve.specs.Effort.{IsEffort};
ghost use Rattle.command_solve.specs.inner.Begun.{IsReady};
ghost use Rattle.command_solve.specs.inner.FirstSearch.{GoesOn, IsSearchedFirst};

use crate::effort::Effort;
use crate::warm_start::Taken;
use lemma_core::Book;
use line_instance::Instance;
use round_run::{Cause, Gate, Outcome, Plan, solve_from};
use std::alloc::Global;
use std::sync::Wait;
use std::thread::Threads;

/// What a first search comes to.
#[derive(Drop)]
pub(crate) enum FirstSearch {
    /// Its bounds met: the book has the optimum. The first lines of the text are with it.
    Solved { book: Book, first: String },
    /// Its units ended, or there was none: the run goes on with this.
    Open(Taken),
    /// Memory ended it, with this lower bound and the best balance of the book.
    Memory { lower: u32, book: Book },
    /// Out of memory before there were bounds.
    NoMemory,
}

/// Goes on with the book of a first search whose units ended.
fn go_on(book: Book, kept: u32, units: u64, first: String) -> FirstSearch
    ensures { GoesOn book kept units (string_bytes first) result }
{
    let mut book = book;
    match book.reserve_offers() {
        Ok(()) => FirstSearch::Open(Taken {
            book,
            kept,
            units,
            first,
        }),
        Err(_) => FirstSearch::NoMemory,
    }
}

/// The first search over a book that took in the old entries, where the effort has one.
pub(crate) fn search_first<R: Threads + Wait + Sync, G: Gate>(
    rt: &R,
    alloc: Global,
    inst: &Instance,
    taken: Taken,
    effort: Effort,
    plan: &Plan,
    gate: &G,
) -> FirstSearch
    requires same { taken.book.about.line ≡ inst.now }
    requires cycle { IsCycle taken.book.about.cycle }
    requires fits { FitsAll inst.now taken.book.about.cycle }
    requires reserved { IsReserved taken.book }
    requires effort { IsEffort effort }
    ensures { (kind : Kind) (cycle : ℕ) (olds : Option (List Lemma))
        → IsReady kind inst.now cycle plan.now 0 olds taken (string_bytes taken.first)
        → IsSearchedFirst kind inst.now cycle plan.now effort.first olds taken result }
{
    if effort.first == 0 {
        return FirstSearch::Open(taken);
    }
    let Taken {
        book,
        kept,
        units,
        first,
    } = taken;
    match solve_from(rt, alloc, inst, book, &effort.first_plan(plan), gate) {
        Outcome::TooLong(_) => unreachable!(),
        Outcome::Solved { book } => FirstSearch::Solved { book, first },
        Outcome::Stopped {
            cause,
            lower,
            book,
            ..
        } => match cause {
            Cause::Units => go_on(book, kept, units, first),
            Cause::Memory => FirstSearch::Memory { lower, book },
        },
        Outcome::NoMemory => FirstSearch::NoMemory,
    }
}
