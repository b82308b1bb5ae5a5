//! The questions of a run, one after the other over one book.
//!
//! Each round but the last refutes its question, so the next one asks for one station more.
ghost use Rattle.std.specs.Prelude.{◌≡◌, []};
ghost use Rattle.line_rules.specs.Ranges.{IsCycle};
ghost use Rattle.round_helpers.specs.Helping.{IsTeam, all_used};
ghost use Rattle.round_run.specs.Plans.{all_left};
ghost use Rattle.round_run.specs.inner.Questions.{IsRun, HasAsked, stop_of};

use crate::closing::Verdict;
use crate::plans::Purse;
use crate::rounds::decide_round;
use crate::solving::Cause;
use lemma_core::Book;
use line_instance::Instance;
use line_rules::Frames;
use round_helpers::Gate;
use std::alloc::Global;
use std::sync::Wait;
use std::thread::Threads;

/// Why the questions of a run stopped, and the open frames of its last search.
#[derive(Drop)]
pub(crate) struct Stop {
    pub cause: Cause,
    pub trail: Frames,
}

/// A run whose questions ended.
#[derive(Drop)]
pub(crate) struct Asked {
    pub book: Book,
    /// The question that was asked last, or the one that was not asked any more: a number of stations.
    pub lower: u32,
    /// None where the best balance has at most `lower` stations.
    pub stop: Option<Stop>,
}

// Where a run stops with this answer: nowhere with a balance.
fn stop_of(verdict: Verdict) -> Option<Stop>
    ensures { result ≡ stop_of verdict }
{
    match verdict {
        Verdict::Refuted | Verdict::Found => None,
        Verdict::Spent(trail) => Some(Stop {
            cause: Cause::Units,
            trail,
        }),
        Verdict::NoMemory(trail) => Some(Stop {
            cause: Cause::Memory,
            trail,
        }),
    }
}

/// Asks whether all tasks have a balance in `first` stations, in one more, and so on, until the best balance of the
/// book has at most as many, or the units of the purse's closing pass or memory end. The purse is as a plan fills it.
pub(crate) fn ask_all<R: Threads + Wait + Sync, G: Gate>(
    rt: &R,
    alloc: Global,
    inst: &Instance,
    book: Book,
    first: u32,
    pairs: bool,
    purse: Purse,
    gate: &G,
) -> Asked
    requires cycle { IsCycle book.about.cycle }
    requires begun { let state = book.state in
        IsRun book.about.kind inst.now book.about.cycle state.entries [] state.best.stations first first book }
    requires team { IsTeam purse.helper.items }
    requires fresh { (purse.closing.used ≡ 0) × (all_used purse.helper.items ≡ 0) }
    ensures { let state = book.state in
        HasAsked book.about.kind inst.now book.about.cycle state.entries state.best.stations purse.closing.left
        (all_left purse.helper.items) first result }
{
    let mut purse = purse;
    let mut book = book;
    let mut lower = first;
    'asking: while lower < book.best().stations {
        let round = decide_round(rt, alloc, inst, book, lower, pairs, &mut purse, gate);
        book = round.book;
        match round.verdict {
            Verdict::Refuted => lower += 1,
            verdict => {
                return Asked {
                    book,
                    lower,
                    stop: stop_of(verdict),
                };
            }
        }
    }
    Asked {
        book,
        lower,
        stop: None,
    }
}
