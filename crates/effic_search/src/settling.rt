//! All tries at one number of stations, until no smaller product is left open there.
ghost use Rattle.std.specs.Prelude.{◌≡◌, ◌≤◌, ◌<◌, ◌⊎◌, true, false, IfOk};
ghost use Rattle.cycle_search.specs.rounds.Plans.{IsPlan};
ghost use Rattle.effic_search.specs.Counted.{most_ended};
ghost use Rattle.effic_search.specs.inner.Going.{IsGoing, IsPaid, IsSettled, product_of};

use crate::counting::{Listed, is_closed};
use crate::lowering::{Lowering, Wanted};
use crate::trying::{Tried, try_cycle};
use cycle_search::{Gate, Plan};
use line_instance::Instance;
use line_rules::Frames;
use std::alloc::{AllocError, Global};
use std::sync::Wait;
use std::thread::Threads;

/// The most entries other than those by Bound with which a try is made, and the most units of the entries. So the check
/// of what a search writes stays well within its 20,000,000 steps, and with those by Bound the text is within the 4 GiB
/// that the check reads.
const MOST: u64 = 4_000_000;

/// What the tries at one number of stations come to.
#[derive(Drop)]
pub(crate) enum Settled {
    /// No smaller product is left open there.
    Goes(Lowering),
    /// A try is due, and the book is too large for it.
    Large(Lowering),
    /// The units of a try ended first: the open frames of its search at the cycle of the book, and how many entries
    /// stand before those of its round.
    Spent {
        search: Lowering,
        frames: Frames,
        closing_from: u64,
    },
    /// Memory ended first.
    NoMemory(Lowering),
}

/// Whether a book is too large for a try.
fn is_large(listed: Listed) -> bool
    ensures large { result ≡ true → (4000000 < listed.units) ⊎ (4000000 < listed.entries) }
    ensures small { result ≡ false → listed.units ≤ 4000000 }
    ensures few { result ≡ false → listed.entries ≤ 4000000 }
{
    if listed.units > MOST {
        return true;
    }
    listed.entries > MOST
}

/// Tries cycles at one number of stations, from the greatest whose product is below the best one.
pub(crate) fn settle<R: Threads + Wait + Sync, G: Gate>(
    rt: &R,
    alloc: Global,
    inst: &Instance,
    wanted: Wanted,
    stations: u32,
    plan: &Plan,
    gate: &G,
    search: Lowering,
) -> Result<Settled, AllocError>
    requires plan { IsPlan plan.now }
    requires some { 1 ≤ wanted.least }
    requires from { wanted.least ≤ stations }
    requires to { stations ≤ wanted.most }
    requires few { wanted.most ≤ 1024 }
    requires going { IsGoing wanted.kind inst.now wanted.least wanted.most stations search }
    requires paid { IsPaid plan.now (most_ended inst.now wanted.least stations (product_of search)) search }
    ensures { IfOk result (IsSettled wanted.kind inst.now wanted.least wanted.most stations plan.now) }
{
    let _tasks = inst.tasks();
    let mut search = search;
    'tries: loop {
        let cycle = search.cycle_below(stations);
        if is_closed(inst, search.book.entries(), stations, cycle) {
            return Ok(Settled::Goes(search));
        }
        if is_large(search.listed) {
            return Ok(Settled::Large(search));
        }
        match try_cycle(rt, alloc, inst, wanted, stations, plan, gate, search, cycle)? {
            Tried::Refuted(closed) => return Ok(Settled::Goes(closed)),
            Tried::Found(better) => search = better,
            Tried::Spent {
                search,
                frames,
                closing_from,
            } => {
                return Ok(Settled::Spent {
                    search,
                    frames,
                    closing_from,
                });
            }
            Tried::NoMemory(left) => return Ok(Settled::NoMemory(left)),
        }
    }
}
