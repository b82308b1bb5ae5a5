//! What a search for the least cycle comes to.
ghost use Rattle.std.specs.Prelude.{◌≡◌, ◌<◌, ◌≤◌, [], length, IfOk};
ghost use Rattle.line_rules.specs.declared.types.Entry.{Entry};
ghost use Rattle.round_run.specs.Plans.{IsPlan};
ghost use Rattle.round_run.specs.declared.plans.Plan.{Plan as Planned};
ghost use Rattle.cycle_search.specs.Ends.{NoneApart};
ghost use Rattle.cycle_search.specs.inner.Joined.{behind, HaveCites, HaveFrameCites};
ghost use Rattle.cycle_search.specs.Outcomes.{Searches};
ghost use Rattle.cycle_search.specs.inner.Searching.{IsBetween, IsStuck};

use crate::halving::Halving;
use crate::joining::{joined, raise_frames};
use crate::opening::begin;
use crate::seek::Seeks;
use crate::trying::{Tried, try_cycle};
use line_instance::Instance;
use line_rules::{Balance, Entries, Frames, LineKind, Trail};
use round_run::{Cause, Gate, Plan};
use std::alloc::{AllocError, Global};
use std::sync::Wait;
use std::thread::Threads;

/// What a search for the least cycle comes to, in the instance's time unit.
#[derive(Drop)]
pub enum CycleOutcome {
    /// The least cycle, a balance at it in the stations that were asked for, and entries of which one shows that there
    /// is none at the cycle below; no entry where the answer is 1. And the seeks of the search.
    Solved {
        cycle: u64,
        balance: Balance,
        entries: Entries,
        seeks: Seeks,
    },
    /// The least cycle is at least `lower`, which above 1 an entry shows, and at most `upper`, at which the balance is
    /// right. The trail has the open frames of the search at the cycle that was tried last; where memory ended it has
    /// none. The entries of the last round are those from number `closing_from` on. And the seeks of the search.
    Stopped {
        cause: Cause,
        lower: u64,
        upper: u64,
        balance: Balance,
        entries: Entries,
        trail: Trail,
        closing_from: u64,
        seeks: Seeks,
    },
    /// Out of memory before there were bounds with their proof.
    NoMemory,
}

// The entries that show the answer: none where it is 1.
fn shown(alloc: Global, lower: u64, proof: Entries, entries: Entries) -> Result<Entries, AllocError>
    requires cites { HaveCites (length entries) entries }
    requires count { length entries ≤ 20000000 }
    requires earlier { length proof ≤ 20000000 }
    ensures one { IfOk result (λ es. lower ≡ 1 → es ≡ []) }
    ensures more { IfOk result (λ es. (lower ≡ 1 → ⊥) → es ≡ behind proof entries) }
{
    if lower == 1 {
        return Ok(Entries::from_vec(Vec::new(alloc)));
    }
    joined(alloc, proof, entries)
}

// What a search comes to whose ends met.
fn solved(alloc: Global, inst: &Instance, search: Halving) -> Result<CycleOutcome, AllocError>
    requires count { length search.book.state.entries ≤ 20000000 }
    requires earlier { length search.proof ≤ 20000000 }
    ensures { IfOk result (λ o. (plan : Planned)
        → IsBetween search.book.about.kind inst.now search.balance.stations plan search
        → search.lower ≡ search.upper
        → Searches search.book.about.kind inst.now search.balance.stations plan o) }
{
    let _tasks = inst.tasks();
    let Halving {
        lower,
        upper,
        balance,
        proof,
        book,
        paid: _,
        seeks,
    } = search;
    let (entries, _best) = book.into_parts();
    Ok(CycleOutcome::Solved {
        cycle: upper,
        balance,
        entries: shown(alloc, lower, proof, entries)?,
        seeks,
    })
}

// What a search comes to that stopped at the cycle of its book.
fn stopped(
    alloc: Global,
    inst: &Instance,
    cause: Cause,
    search: Halving,
    frames: Frames,
    closing_from: u64,
) -> Result<CycleOutcome, AllocError>
    requires count { length search.book.state.entries ≤ 20000000 }
    requires earlier { length search.proof ≤ 20000000 }
    requires begun { closing_from ≤ length search.book.state.entries }
    requires cites { HaveFrameCites (length search.book.state.entries) frames }
    ensures { IfOk result (λ o. (plan : Planned)
        → IsStuck search.book.about.kind inst.now search.balance.stations plan cause search frames closing_from
        → Searches search.book.about.kind inst.now search.balance.stations plan o) }
{
    let _tasks = inst.tasks();
    let cycle = search.book.cycle();
    let Halving {
        lower,
        upper,
        balance,
        proof,
        book,
        paid: _,
        seeks,
    } = search;
    let (entries, _best) = book.into_parts();
    let (count, earlier) = (entries.len() as u64, proof.len() as u64);
    let frames = raise_frames(alloc, frames, count, earlier)?;
    Ok(CycleOutcome::Stopped {
        cause,
        lower,
        upper,
        balance,
        entries: joined(alloc, proof, entries)?,
        trail: Trail { cycle, frames },
        closing_from: earlier + closing_from,
        seeks,
    })
}

// Tries cycles between the ends until they meet.
fn halve<R: Threads + Wait + Sync, G: Gate>(
    rt: &R,
    alloc: Global,
    inst: &Instance,
    kind: LineKind,
    stations: u32,
    plan: &Plan,
    gate: &G,
) -> Result<CycleOutcome, AllocError>
    requires none { NoneApart inst.now }
    requires some { 1 ≤ stations }
    requires few { stations ≤ 1024 }
    requires plan { IsPlan plan.now }
    ensures { IfOk result (Searches kind inst.now stations plan.now) }
{
    let _tasks = inst.tasks();
    let mut search = begin(alloc, inst, kind, stations)?;
    'halving: while search.lower < search.upper {
        let cycle = search.lower + (search.upper - search.lower) / 2;
        match try_cycle(rt, alloc, inst, kind, stations, plan, gate, search, cycle)? {
            Tried::Goes(closer) => search = closer,
            Tried::Stops {
                cause,
                search,
                frames,
                closing_from,
            } => return stopped(alloc, inst, cause, search, frames, closing_from),
        }
    }
    solved(alloc, inst, search)
}

/// The least cycle, from 1 on and in the instance's time unit, at which a line of this kind has a balance in 1 to 1,024
/// stations; or bounds on it, where the units of a try ended first. Of the instance no pair is apart. Each cycle that
/// is tried has the units of the plan anew, and so has each helper its part of them; and where the ranked balance has
/// too many stations, a seek with the loads of the plan comes first. Helpers run in threads, in any order; they meet
/// the gate before each publish.
pub fn least_cycle<R: Threads + Wait + Sync, G: Gate>(
    rt: &R,
    alloc: Global,
    inst: &Instance,
    kind: LineKind,
    stations: u32,
    plan: &Plan,
    gate: &G,
) -> CycleOutcome
    requires none { NoneApart inst.now }
    requires some { 1 ≤ stations }
    requires few { stations ≤ 1024 }
    requires plan { IsPlan plan.now }
    ensures { Searches kind inst.now stations plan.now result }
{
    match halve(rt, alloc, inst, kind, stations, plan, gate) {
        Ok(outcome) => outcome,
        Err(_) => CycleOutcome::NoMemory,
    }
}
