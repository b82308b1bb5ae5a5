//! The closing pass of a question: decides it on the book itself, with the units of the purse, and with the pairs where
//! they are asked.
//!
//! What the bound refutes at once is published as a lemma, so that every refuted question has one; what is found is
//! offered as a balance. Each load that the search lists costs a unit, and nothing else does.
ghost use Rattle.std.specs.Prelude.{◌≡◌, ◌+◌, ◌-◌, ◌^◌, ◌<◌, ◌≤◌, [], length, IfSome, OnOk, OnErr};
ghost use Rattle.line_rules.specs.Balance.{all_tasks};
ghost use Rattle.line_rules.specs.Bounds.{bound};
ghost use Rattle.line_rules.specs.Entries.{HasAnswer};
ghost use Rattle.line_rules.specs.Ranges.{IsCycle};
ghost use Rattle.line_rules.specs.Seats.{AreSeated};
ghost use Rattle.lemma_core.specs.Books.{IsReserved};
ghost use Rattle.station_search.specs.Decide.{IsPairing};
ghost use Rattle.round_helpers.specs.Growth.{GoesOn};
ghost use Rattle.round_run.specs.Rounds.{Gains, IsAnswer, StaysAbove, WasOpen};

use crate::bounding::refute_by_bound;
use lemma_core::Book;
use line_instance::Instance;
use line_rules::{Frames, Loads};
use lower_bounds::exceeds;
use station_search::{Decided, PairTable, Units, balance_of, decide_in};
use std::alloc::{AllocError, Global};

/// The answer to a question.
#[derive(Drop)]
pub enum Verdict {
    /// There is no such balance: an entry of the book says so.
    Refuted,
    /// There is one: the best balance of the book has at most so many stations.
    Found,
    /// The units of the closing pass ended first: the open frames of its search, from the question down.
    Spent(Frames),
    /// Memory ended first: open frames of the search, or none.
    NoMemory(Frames),
}

/// Decides the question on the book itself, by the bound or by a search. Where an entry of the book answers it, no unit
/// is used.
pub fn closing_pass(
    alloc: Global,
    inst: &Instance,
    book: &mut Book,
    most: u32,
    pairs: &mut Option<PairTable>,
    units: &mut Units,
) -> Verdict
    requires same { book.old.about.line ≡ inst.now }
    requires cycle { IsCycle book.old.about.cycle }
    requires reserved { IsReserved book.old }
    requires few { most ≤ 1024 }
    requires pairs { IfSome pairs.old (IsPairing inst.now book.old.about.kind book.old.about.cycle) }
    requires units { units.old.used + units.old.left < 2 ^ 64 }
    ensures gains { Gains book.old book.new result (units.new.used - units.old.used) }
    ensures known { HasAnswer book.old.state.entries (all_tasks inst.now) most book.old.about.cycle
        → units.new.used ≡ units.old.used }
    ensures was_open { WasOpen book.old most result }
    ensures answer { IsAnswer book.new most units.new.left result }
    ensures above { StaysAbove most book.old book.new result }
    ensures reserved { IsReserved book.new }
    ensures units { units.new.used + units.new.left ≡ units.old.used + units.old.left }
    ensures spent { units.old.used ≤ units.new.used }
{
    if exceeds(inst, book.kind(), book.cycle(), &inst.all(), most) {
        return match refute_by_bound(inst, book, most) {
            Ok(()) => Verdict::Refuted,
            Err(_) => Verdict::NoMemory(Frames::from_vec(Vec::new(alloc))),
        };
    }
    // The units of this search alone are counted from 0.
    let mut asked = Units {
        left: units.left,
        used: 0,
    };
    let verdict = search_all(alloc, inst, book, most, pairs, &mut asked);
    units.left = asked.left;
    units.used += asked.used;
    verdict
}

// Searches all tasks, which the bound doesn't refute, and offers what is found.
fn search_all(
    alloc: Global,
    inst: &Instance,
    book: &mut Book,
    most: u32,
    pairs: &mut Option<PairTable>,
    units: &mut Units,
) -> Verdict
    requires same { book.old.about.line ≡ inst.now }
    requires cycle { IsCycle book.old.about.cycle }
    requires reserved { IsReserved book.old }
    requires few { most ≤ 1024 }
    requires pairs { IfSome pairs.old (IsPairing inst.now book.old.about.kind book.old.about.cycle) }
    requires bounded { bound book.old.about.kind inst.now book.old.about.cycle (all_tasks inst.now) ≤ most }
    requires fresh { units.old.used ≡ 0 }
    requires units { units.old.left < 2 ^ 64 }
    ensures gains { Gains book.old book.new result units.new.used }
    ensures known { HasAnswer book.old.state.entries (all_tasks inst.now) most book.old.about.cycle
        → units.new.used ≡ 0 }
    ensures was_open { WasOpen book.old most result }
    ensures answer { IsAnswer book.new most units.new.left result }
    ensures above { StaysAbove most book.old book.new result }
    ensures reserved { IsReserved book.new }
    ensures units { units.new.used + units.new.left ≡ units.old.left }
{
    let _before = book.len();
    let (kind, cycle) = (book.kind(), book.cycle());
    let all = inst.all();
    let decided = decide_in(
        alloc, book, inst, kind, cycle, &all, most, None, pairs, units,
    );
    let _after = book.len();
    match decided {
        Decided::Refuted(_) => Verdict::Refuted,
        Decided::Found(loads) => match offer_loads(alloc, inst, book, &loads) {
            Ok(()) => Verdict::Found,
            Err(_) => Verdict::NoMemory(Frames::from_vec(Vec::new(alloc))),
        },
        Decided::Spent(frames) => Verdict::Spent(frames),
        Decided::NoMemory(frames) => Verdict::NoMemory(frames),
    }
}

// Offers the balance of loads that a search found, with as many stations as there are loads.
fn offer_loads(
    alloc: Global,
    inst: &Instance,
    book: &mut Book,
    loads: &Loads,
) -> Result<(), AllocError>
    requires same { book.old.about.line ≡ inst.now }
    requires reserved { IsReserved book.old }
    requires few { length loads.now ≤ 1024 }
    requires seated { AreSeated book.old.about.kind inst.now book.old.about.cycle (all_tasks inst.now) loads.now }
    ensures goes_on { GoesOn book.old book.new [] }
    ensures best { OnOk result (book.new.state.best.stations ≤ length loads.now) }
    ensures same { OnErr result (book.new ≡ book.old) }
    ensures reserved { IsReserved book.new }
{
    let stations = loads.len() as u32;
    let balance = balance_of(alloc, inst, book.kind(), stations, loads)?;
    book.offer(balance);
    Ok(())
}
