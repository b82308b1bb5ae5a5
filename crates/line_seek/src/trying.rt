//! One try: a drift or a beam that looks for a balance in so many stations, or a search that decides whether there is
//! one.
//!
//! A search publishes what it refutes in the scratch book, which later searches of the same seek go on with.
ghost use Rattle.std.specs.Prelude.{◌≡◌, ◌+◌, ◌^◌, ◌<◌, ◌≤◌, IfOk, IfSome};
ghost use Rattle.line_instance.specs.Line.{IsTaskSet};
ghost use Rattle.line_rules.specs.Balance.{IsRight, all_tasks};
ghost use Rattle.line_rules.specs.Bounds.{bound};
ghost use Rattle.line_rules.specs.Loads.{Belongs};
ghost use Rattle.line_rules.specs.Ranges.{IsCycle};
ghost use Rattle.station_search.specs.Decide.{IsPairing};
ghost use Rattle.line_seek.specs.inner.Trying.{IsTold, Gains, may_add};

use beam_search::{Wanted, beam};
use lemma_core::Book;
use line_instance::Instance;
use line_rules::{Balance, Mode};
use station_search::{Decided, PairTable, Units, balance_of, decide_in};
use std::alloc::{AllocError, Global};
use threshold_search::{Lcg64Xsh32, drift};

/// How many loads a beam lists of a rest at most. With fewer a rest, it gets through more stations for as many loads.
const LOADS: u64 = 100;

/// What is found of the question whether all tasks have a balance in so many stations.
#[derive(Drop)]
pub(crate) enum Told {
    /// They have: this balance is right, and has no more stations.
    Found(Balance),
    /// They have none: an entry of the scratch book says so.
    Refuted,
    /// Neither was found out.
    Open,
}

/// What a try comes to: what it found, and how many loads it listed.
#[derive(Drop)]
pub(crate) struct Tried {
    pub(crate) told: Told,
    pub(crate) listed: u64,
}

/// The width of a beam in a round of this size: so many rests that a round has loads for all of them at all stations.
fn width(size: u64, most: u32) -> usize {
    match size.checked_div(LOADS * u64::from(most)) {
        Some(width) => width.max(1) as usize,
        None => 1,
    }
}

/// A try by a balance that drifts from the best one, for one in `most` stations.
pub(crate) fn try_drift(
    alloc: Global,
    inst: &Instance,
    scratch: &Book,
    best: &Balance,
    random: &mut Lcg64Xsh32,
    most: u32,
    purse: u64,
) -> Result<Tried, AllocError>
    requires same { scratch.now.about.line ≡ inst.now }
    requires few { most ≤ 1024 }
    requires best { IsRight scratch.now.about.kind scratch.now.about.line scratch.now.about.cycle best.now }
    ensures told { IfOk result (λ t. IsTold scratch.now most t.told) }
    ensures open { IfOk result (λ t. may_add t.told ≡ 0) }
    ensures within { IfOk result (λ t. t.listed ≤ purse) }
{
    let (kind, cycle) = (scratch.kind(), scratch.cycle());
    let drifted = drift(alloc, inst, kind, cycle, best, most, random, purse)?;
    let listed = drifted.used;
    match drifted.balance {
        Some(balance) => Ok(Tried {
            told: Told::Found(balance),
            listed,
        }),
        None => Ok(Tried {
            told: Told::Open,
            listed,
        }),
    }
}

/// A try by a beam, for a balance in `most` stations.
pub(crate) fn try_beam(
    alloc: Global,
    inst: &Instance,
    scratch: &Book,
    pairs: &mut Option<PairTable>,
    mode: Mode,
    most: u32,
    size: u64,
    purse: u64,
) -> Result<Tried, AllocError>
    requires same { scratch.now.about.line ≡ inst.now }
    requires cycle { IsCycle scratch.now.about.cycle }
    requires few { most ≤ 1024 }
    requires pairs { IfSome pairs.old (IsPairing inst.now scratch.now.about.kind scratch.now.about.cycle) }
    ensures pairs { pairs.new ≡ pairs.old }
    ensures told { IfOk result (λ t. IsTold scratch.now most t.told) }
    ensures open { IfOk result (λ t. may_add t.told ≡ 0) }
    ensures within { IfOk result (λ t. t.listed ≤ purse) }
{
    let wanted = Wanted {
        kind: scratch.kind(),
        mode,
        cycle: scratch.cycle(),
        most,
    };
    let beamed = beam(alloc, inst, wanted, pairs, width(size, most), purse)?;
    let listed = beamed.listed;
    match beamed.balance {
        Some(balance) => Ok(Tried {
            told: Told::Found(balance),
            listed,
        }),
        None => Ok(Tried {
            told: Told::Open,
            listed,
        }),
    }
}

/// A try by a search, which goes on with the scratch book; the bound leaves the question open.
pub(crate) fn try_search(
    alloc: Global,
    inst: &Instance,
    scratch: &mut Book,
    pairs: &mut Option<PairTable>,
    mode: Mode,
    most: u32,
    purse: u64,
) -> Result<Tried, AllocError>
    requires same { scratch.old.about.line ≡ inst.now }
    requires cycle { IsCycle scratch.old.about.cycle }
    requires mode { Belongs scratch.old.about.kind mode }
    requires few { most ≤ 1024 }
    requires bounded { bound scratch.old.about.kind inst.now scratch.old.about.cycle (all_tasks inst.now) ≤ most }
    requires pairs { IfSome pairs.old (IsPairing inst.now scratch.old.about.kind scratch.old.about.cycle) }
    ensures pairs { pairs.new ≡ pairs.old }
    ensures told { IfOk result (λ t. IsTold scratch.new most t.told) }
    ensures gains { IfOk result (λ t. Gains scratch.old scratch.new t.listed (t.listed + may_add t.told)) }
    ensures within { IfOk result (λ t. t.listed ≤ purse) }
{
    let _before = scratch.len();
    let (kind, cycle) = (scratch.kind(), scratch.cycle());
    let mut units = Units {
        left: purse,
        used: 0,
    };
    let all = inst.all();
    let decided = decide_in(
        alloc,
        scratch,
        inst,
        kind,
        cycle,
        &all,
        most,
        Some(mode),
        pairs,
        &mut units,
    );
    let _after = scratch.len();
    let listed = units.used;
    match decided {
        Decided::Refuted(_) => Ok(Tried {
            told: Told::Refuted,
            listed,
        }),
        Decided::Found(loads) => {
            let balance = balance_of(alloc, inst, kind, loads.len() as u32, &loads)?;
            Ok(Tried {
                told: Told::Found(balance),
                listed,
            })
        }
        Decided::Spent(_) => Ok(Tried {
            told: Told::Open,
            listed,
        }),
        Decided::NoMemory(_) => Err(AllocError),
    }
}
