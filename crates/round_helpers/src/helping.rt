//! The help for a question, from a book to the book that comes back: the book is shared, the helpers search the question
//! in threads, each beside the others, and the share is closed again. Every lemma of a helper enters the book through
//! that close alone.
ghost use Rattle.std.specs.Prelude.{◌≡◌, ℕ, ◌+◌, ◌-◌, ◌<◌, ◌≤◌, ◌⊎◌, ◌↔◌, IsTrue, length};
ghost use Rattle.line_rules.specs.Balance.{all_tasks};
ghost use Rattle.line_rules.specs.Bounds.{bound};
ghost use Rattle.line_rules.specs.Entries.{HasAnswer};
ghost use Rattle.line_rules.specs.Ranges.{IsCycle};
ghost use Rattle.lemma_core.specs.Books.{BookView, IsBook, IsReserved};
ghost use Rattle.book_share.specs.Calls.{IsPassOf};
ghost use Rattle.book_share.specs.Rule.{newcomer};
ghost use Rattle.round_helpers.specs.inner.Equipment.{IsEquipped};
ghost use Rattle.round_helpers.specs.Growth.{Helps};
ghost use Rattle.round_helpers.specs.Helping.{IsTeam, all_used, HaveSpent, IsUnneeded, HasHelped};
ghost use Rattle.round_helpers.specs.Jobs.{AreJobs};
ghost use Rattle.round_helpers.specs.declared.helping.Helped.TheVariants.{Unneeded};

use crate::equipment::{Equipment, equip};
use crate::gates::Gate;
use crate::job_list::{Job, jobs};
use crate::question_work::Question;
use crate::teams::{join_all, settle, split_off, tell, worked};
use book_share::{Pass, Share, Started};
use lemma_core::{Book, Looked};
use line_instance::Instance;
use lower_bounds::exceeds;
use station_search::Units;
use std::alloc::Global;
use std::sync::Wait;
use std::thread::Threads;

/// What the helpers did for a question.
#[derive(Clone, Copy, Debug, PartialEq, Eq)]
pub enum Helped {
    /// They weren't needed: there are none, or the bound or an entry of the book refutes the question.
    Unneeded,
    /// The question is answered: an entry of the book refutes it, or the best balance has as few stations.
    Whole,
    /// The helper of this number, from 1, used all its units.
    Cut(u32),
    /// Out of memory.
    NoMemory,
}

/// The book after the help, and what the helpers did.
#[derive(Drop)]
pub struct Help {
    pub book: Book,
    pub helped: Helped,
}

// Whether the bound of all tasks or an entry of the book refutes the question.
fn is_refuted(inst: &Instance, book: &Book, most: u32) -> bool
    requires same { book.now.about.line ≡ inst.now }
    requires cycle { IsCycle book.now.about.cycle }
    ensures { IsTrue result ↔ ((most < bound book.now.about.kind book.now.about.line book.now.about.cycle
        (all_tasks book.now.about.line)) ⊎ HasAnswer book.now.state.entries (all_tasks book.now.about.line) most
        book.now.about.cycle) }
{
    let all = inst.all();
    if exceeds(inst, book.kind(), book.cycle(), &all, most) {
        return true;
    }
    match book.look(&all, most) {
        Looked::Found { .. } => true,
        Looked::Absent => false,
    }
}

/// The help of a team at a share that was just started.
pub fn help_at<R: Threads + Wait + Sync, G: Gate>(
    rt: &R,
    alloc: Global,
    inst: &Instance,
    question: Question,
    jobs: &[Job],
    equipment: Equipment,
    share: Share,
    pass: Pass,
    units: &mut [Units],
    gate: &G,
) -> Help
    requires pass { IsPassOf share pass }
    requires started { (book : BookView) × ((pass.view ≡ newcomer book)
        × (book.about ≡ record { line = inst.now; kind = question.kind; cycle = question.cycle })) }
    requires are { AreJobs question.kind inst.now question.cycle question.most jobs.now }
    requires cycle { IsCycle question.cycle }
    requires some { 1 ≤ question.most }
    requires few { question.most ≤ 1024 }
    requires team { IsTeam units.old }
    requires helper { 0 < length units.old }
    requires bounded { bound question.kind inst.now question.cycle (all_tasks inst.now) ≤ question.most }
    requires equipped { IsEquipped jobs.now question.most (length units.old) equipment }
    ensures help { (book : BookView) → IsBook book → pass.view ≡ newcomer book
        → book.about ≡ record { line = inst.now; kind = question.kind; cycle = question.cycle }
        → Helps book result.book (all_used units.new - all_used units.old)
        × HasHelped book result.book question.most units.new result.helped }
    ensures reserved { IsReserved result.book }
    ensures spent { HaveSpent units.old units.new }
{
    let Equipment {
        pool,
        hands,
        board,
        helpers,
    } = equipment;
    let mut pass = pass;
    let ready = split_off(&share, &mut pass, units, hands, helpers);
    let helpers = worked(
        rt, alloc, &share, inst, question, jobs, &pool, &board, gate, ready,
    );
    settle(&helpers, units);
    let told = tell(&helpers);
    join_all(&share, &mut pass, helpers);
    let book = share.close(rt, pass);
    let _len = book.len();
    let _log = book.log_len();
    if book.least() <= question.most {
        return Help {
            book,
            helped: Helped::Whole,
        };
    }
    Help { book, helped: told }
}

/// Has helpers decide the question whether all tasks have a balance in `most` stations, 1 to 1,024, at the book's cycle,
/// which is 1 to 10^18 in the instance's time unit. There is a helper for each of the units, at most 64, and each uses
/// its own: one for each piece, one for its last question, and one for each load whenever it is listed. The book is
/// about this instance, and `reserve_offers` was done for it. Each helper runs in a thread of its own and meets the gate
/// before each publish. With `pairs` its searches ask the pairs, by a table of its own.
pub fn call_helpers<R: Threads + Wait + Sync, G: Gate>(
    rt: &R,
    alloc: Global,
    inst: &Instance,
    book: Book,
    most: u32,
    pairs: bool,
    units: &mut [Units],
    gate: &G,
) -> Help
    requires same { book.about.line ≡ inst.now }
    requires cycle { IsCycle book.about.cycle }
    requires reserved { IsReserved book }
    requires some { 1 ≤ most }
    requires few { most ≤ 1024 }
    requires team { IsTeam units.old }
    ensures helps { Helps book result.book (all_used units.new - all_used units.old) }
    ensures helped { HasHelped book result.book most units.new result.helped }
    ensures unneeded { IsUnneeded book most units.old
        → (result.helped ≡ Unneeded) × (result.book ≡ book) × (units.new ≡ units.old) }
    ensures reserved { IsReserved result.book }
    ensures spent { HaveSpent units.old units.new }
{
    let _kept = book.len();
    if units.is_empty() || is_refuted(inst, &book, most) {
        return Help {
            book,
            helped: Helped::Unneeded,
        };
    }
    let question = Question {
        kind: book.kind(),
        cycle: book.cycle(),
        most,
        pairs,
    };
    let wanting = Helped::NoMemory;
    let Ok(jobs) = jobs(alloc, inst, question.kind, question.cycle, most) else {
        return Help {
            book,
            helped: wanting,
        };
    };
    let Ok(equipment) = equip(alloc, &jobs, most, units.len()) else {
        return Help {
            book,
            helped: wanting,
        };
    };
    match Share::start(alloc, book) {
        Started::Good(share, pass) => help_at(
            rt, alloc, inst, question, &jobs, equipment, share, pass, units, gate,
        ),
        Started::NoMemory(book) => Help {
            book,
            helped: wanting,
        },
    }
}
