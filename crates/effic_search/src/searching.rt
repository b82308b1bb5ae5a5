//! What a search for the least product comes to.
ghost use Rattle.std.specs.Prelude.{◌≡◌, ◌≤◌, ◌+◌, IfOk};
ghost use Rattle.line_rules.specs.Entries.{IsDerived, IsFresh};
ghost use Rattle.cycle_search.specs.rounds.Plans.{IsPlan};
ghost use Rattle.cycle_search.specs.rounds.declared.plans.Plan.{Plan as Planned};
ghost use Rattle.cycle_search.specs.Seek.{AreSeeks};
ghost use Rattle.effic_check.specs.Accepted.{NoneApart};
ghost use Rattle.effic_search.specs.inner.Going.{IsLowering, IsGoing, IsSettled, HasTrailBy, HasFewUnits};
ghost use Rattle.effic_search.specs.inner.Going.{product_of, entries_of};
ghost use Rattle.effic_search.specs.Outcomes.{IsCertified, Lowers};

use crate::counting::lowest;
use crate::lowering::{Lowering, Wanted};
use crate::opening::begin;
use crate::settling::{Settled, settle};
use cycle_search::{Gate, Plan, Seeks};
use line_instance::Instance;
use line_rules::{EfficCert, LineKind, Trail};
use std::alloc::{AllocError, Global};
use std::sync::Wait;
use std::thread::Threads;

/// Why a search stopped.
#[derive(Clone, Copy, Debug, PartialEq, Eq)]
pub enum Ended {
    /// The units of a try.
    Units,
    /// A try was due, and the book was too large for it.
    Size,
}

/// What a search for the least product comes to, in the instance's time unit.
#[derive(Drop)]
pub enum EfficOutcome {
    /// The least product, with its certificate: both bounds are it.
    Solved {
        cert: EfficCert,
        seeks: Seeks,
    },
    /// Bounds on the least product that differ, with their certificate. So many of its entries stand before those of
    /// the last round: all of them, where no round stopped.
    Stopped {
        why: Ended,
        cert: EfficCert,
        closing_from: u64,
        seeks: Seeks,
    },
    /// Out of memory, with bounds on the least product that differ.
    Memory {
        lower: u128,
        upper: u128,
    },
    /// Out of memory before there were bounds.
    NoMemory,
}

// The certificate of a search, with the trail of a try that stopped.
fn certified(inst: &Instance, wanted: Wanted, search: Lowering, trail: Option<Trail>) -> EfficCert
    requires some { 1 ≤ wanted.least }
    requires order { wanted.least ≤ wanted.most }
    requires few { wanted.most ≤ 1024 }
    requires lowering { IsLowering wanted.kind inst.now wanted.least wanted.most search }
    requires trail { HasTrailBy wanted.kind inst.now wanted.least wanted.most search trail }
    requires units { HasFewUnits inst.now trail }
    ensures certified { IsCertified wanted.kind inst.now wanted.least wanted.most result }
    ensures upper { result.upper ≡ product_of search }
    ensures entries { result.entries ≡ entries_of search }
    ensures trail { result.trail ≡ trail }
    ensures fresh { IsFresh (entries_of search) }
    ensures derived { IsDerived wanted.kind inst.now (entries_of search) }
{
    let tasks = inst.tasks();
    let upper = search.product();
    let entries = search.book.entries();
    let lower = lowest(inst, entries, wanted.least, wanted.most, upper);
    let Lowering {
        cycle,
        balance,
        book,
        listed: _,
        seeks: _,
    } = search;
    let (entries, _best) = book.into_parts();
    EfficCert {
        kind: wanted.kind,
        tasks,
        least_m: wanted.least,
        most_m: wanted.most,
        cycle,
        lower,
        upper,
        balance,
        entries,
        trail,
    }
}

// What a search comes to, after the last number of stations or where it stopped.
fn come_to(inst: &Instance, wanted: Wanted, settled: Settled) -> EfficOutcome
    requires some { 1 ≤ wanted.least }
    requires order { wanted.least ≤ wanted.most }
    requires few { wanted.most ≤ 1024 }
    requires settled { let settles = IsSettled wanted.kind inst.now wanted.least wanted.most wanted.most in
        (plan : Planned) × settles plan settled }
    ensures { (plan : Planned) → IsSettled wanted.kind inst.now wanted.least wanted.most wanted.most plan settled
        → Lowers wanted.kind inst.now wanted.least wanted.most plan result }
{
    let _tasks = inst.tasks();
    match settled {
        Settled::Goes(search) => {
            let seeks = search.seeks;
            let cert = certified(inst, wanted, search, None);
            EfficOutcome::Solved { cert, seeks }
        }
        Settled::Large(search) => {
            let seeks = search.seeks;
            let closing_from = search.book.len();
            EfficOutcome::Stopped {
                why: Ended::Size,
                cert: certified(inst, wanted, search, None),
                closing_from,
                seeks,
            }
        }
        Settled::Spent {
            search,
            frames,
            closing_from,
        } => {
            let seeks = search.seeks;
            let cycle = search.book.cycle();
            let trail = Trail { cycle, frames };
            EfficOutcome::Stopped {
                why: Ended::Units,
                cert: certified(inst, wanted, search, Some(trail)),
                closing_from,
                seeks,
            }
        }
        Settled::NoMemory(search) => {
            let seeks = search.seeks;
            let cert = certified(inst, wanted, search, None);
            if cert.lower == cert.upper {
                return EfficOutcome::Solved { cert, seeks };
            }
            EfficOutcome::Memory {
                lower: cert.lower,
                upper: cert.upper,
            }
        }
    }
}

// Goes through the numbers of stations.
fn lowered<R: Threads + Wait + Sync, G: Gate>(
    rt: &R,
    alloc: Global,
    inst: &Instance,
    wanted: Wanted,
    plan: &Plan,
    gate: &G,
) -> Result<EfficOutcome, AllocError>
    requires none { NoneApart inst.now }
    requires some { 1 ≤ wanted.least }
    requires order { wanted.least ≤ wanted.most }
    requires few { wanted.most ≤ 1024 }
    requires plan { IsPlan plan.now }
    ensures { IfOk result (Lowers wanted.kind inst.now wanted.least wanted.most plan.now) }
{
    let mut search = begin(alloc, inst, wanted)?;
    for stations in wanted.least..wanted.most + 1 {
        match settle(rt, alloc, inst, wanted, stations, plan, gate, search)? {
            Settled::Goes(further) => search = further,
            settled => return Ok(come_to(inst, wanted, settled)),
        }
    }
    Ok(come_to(inst, wanted, Settled::Goes(search)))
}

/// The least product of stations and cycle, in `least_m` to `most_m` stations, 1 to 1,024, and at a cycle from 1 on in
/// the instance's time unit, of which a line of this kind has a balance; or bounds on it, where the units of a try
/// ended first, or the book grew too large for a try. Of the instance no pair is apart. Each cycle that is tried has
/// the units of the plan anew, and so has each helper its part of them. Where the plan has a seek, each cycle at which
/// the ranked balance fails has one of its own before. Helpers run in threads, in any order; they meet the gate before
/// each publish.
pub fn least_product<R: Threads + Wait + Sync, G: Gate>(
    rt: &R,
    alloc: Global,
    inst: &Instance,
    kind: LineKind,
    least_m: u32,
    most_m: u32,
    plan: &Plan,
    gate: &G,
) -> EfficOutcome
    requires none { NoneApart inst.now }
    requires some { 1 ≤ least_m }
    requires order { least_m ≤ most_m }
    requires few { most_m ≤ 1024 }
    requires plan { IsPlan plan.now }
    ensures { Lowers kind inst.now least_m most_m plan.now result }
{
    let wanted = Wanted {
        kind,
        least: least_m,
        most: most_m,
    };
    match lowered(rt, alloc, inst, wanted, plan, gate) {
        Ok(outcome) => outcome,
        Err(_) => EfficOutcome::NoMemory,
    }
}
