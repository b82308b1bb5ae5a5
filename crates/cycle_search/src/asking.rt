//! One question over a book, with a purse of its own.
ghost use Rattle.std.specs.Prelude.{◌≤◌, ◌≡◌, IfOk};
ghost use Rattle.line_rules.specs.Ranges.{IsCycle};
ghost use Rattle.lemma_core.specs.Books.{IsReserved};
ghost use Rattle.round_helpers.specs.Helping.{all_used};
ghost use Rattle.round_run.specs.Plans.{IsPlan};
ghost use Rattle.cycle_search.specs.Asking.{HasAskedBook};

use lemma_core::Book;
use line_instance::Instance;
use line_seek::Units;
use round_run::{Gate, Plan, Verdict, decide_round, fill};
use std::alloc::{AllocError, Global};
use std::sync::Wait;
use std::thread::Threads;

/// What asking a question came to.
#[derive(Drop)]
pub struct Asked {
    /// The book after the round.
    pub book: Book,
    /// The answer.
    pub verdict: Verdict,
    /// The units that the closing pass and the helpers used together.
    pub used: u64,
}

// The units that helpers have used.
fn used_by(team: &[Units]) -> u64
    requires { all_used team.now ≤ 3000000 }
    ensures { result ≡ all_used team.now }
{
    let mut used = 0;
    for units in team {
        used += units.used;
    }
    used
}

/// Asks whether all tasks have a balance in so many stations, 1 to 1,024, at the cycle of the book, with the units of
/// the plan. An error where memory is wanting before the round begins.
pub fn ask_book<R: Threads + Wait + Sync, G: Gate>(
    rt: &R,
    alloc: Global,
    inst: &Instance,
    book: Book,
    stations: u32,
    plan: &Plan,
    gate: &G,
) -> Result<Asked, AllocError>
    requires plan { IsPlan plan.now }
    requires some { 1 ≤ stations }
    requires few { stations ≤ 1024 }
    requires same { book.about.line ≡ inst.now }
    requires cycle { IsCycle book.about.cycle }
    requires reserved { IsReserved book }
    ensures { IfOk result (HasAskedBook stations plan.now book) }
{
    let mut purse = fill(alloc, plan)?;
    let round = decide_round(
        rt, alloc, inst, book, stations, plan.pairs, &mut purse, gate,
    );
    Ok(Asked {
        book: round.book,
        verdict: round.verdict,
        used: purse.closing.used + used_by(&purse.helper),
    })
}
