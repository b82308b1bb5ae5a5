//! One try: whether all tasks have a balance in so many stations at a cycle.
//!
//! The ranked balance is made first, and where it has few enough stations nothing is searched. Else the book is
//! reopened at the cycle, and the seek of the plan looks for a balance. Where it finds none, the question is decided
//! over the book, with what the seek refuted.
ghost use Rattle.std.specs.Prelude.{◌≡◌, ◌≤◌, ◌<◌, ℕ, length, IfOk};
ghost use Rattle.line_instance.specs.Line.{tasks};
ghost use Rattle.line_rules.specs.Balance.{IsRight};
ghost use Rattle.line_rules.specs.Bounds.{IsTooLong};
ghost use Rattle.line_rules.specs.Ranges.{IsCycle};
ghost use Rattle.lemma_core.specs.Books.{IsReserved, MayBeBest};
ghost use Rattle.cycle_search.specs.rounds.Plans.{IsPlan};
ghost use Rattle.effic_search.specs.Counted.{IsCounted};
ghost use Rattle.effic_search.specs.inner.Going.{IsTry, IsTight, IsImproved, IsTried, HasSought, HasAsked, may_bound};
ghost use Rattle.effic_search.specs.inner.Going.{product_of, entries_of};

use crate::counting::{counted, ends_with_all, has_all_from, has_stray_bound};
use crate::lowering::{Lowering, Wanted};
use cycle_search::{Gate, Plan, Verdict, ask_book, seek_book, widened};
use first_fit::{Ranked, ranked_balance};
use line_instance::Instance;
use line_rules::{Balance, BalanceCheck, Frames, LineKind, check_balance};
use std::alloc::{AllocError, Global};
use std::sync::Wait;
use std::thread::Threads;

/// What a try comes to.
#[derive(Drop)]
pub(crate) enum Tried {
    /// There is none: an entry of the book says so.
    Refuted(Lowering),
    /// There is one, of a smaller product than the best.
    Found(Lowering),
    /// The units of the try ended first: the open frames of its search at the cycle of the book, and how many entries
    /// stand before those of its round.
    Spent {
        search: Lowering,
        frames: Frames,
        closing_from: u64,
    },
    /// Memory ended first.
    NoMemory(Lowering),
}

/// The longest station of a balance that is right at a cycle. Each look at the balance finds a longer station than the
/// one before.
fn longest_station(inst: &Instance, kind: LineKind, balance: &Balance, cycle: u64) -> u64
    requires right { IsRight kind inst.now cycle balance.now }
    requires few { balance.now.stations ≤ 1024 }
    ensures right { IsRight kind inst.now result balance.now }
    ensures least_one { (c : ℕ) → IsRight kind inst.now c balance.now → result ≤ c }
{
    let _tasks = inst.tasks();
    let mut longest = 0;
    'looks: loop {
        match check_balance(inst, kind, longest, balance) {
            BalanceCheck::Overfull(_, time) => longest = time,
            _ => return longest,
        }
    }
}

/// The search with a balance that is right at a cycle, at the greater of 1 and its longest station.
fn improved(
    inst: &Instance,
    kind: LineKind,
    search: Lowering,
    cycle: u64,
    balance: Balance,
) -> Lowering
    requires right { IsRight kind inst.now cycle balance }
    requires few { balance.stations ≤ 1024 }
    requires one { 1 ≤ cycle }
    ensures book { result.book ≡ search.book }
    ensures listed { result.listed ≡ search.listed }
    ensures seeks { result.seeks ≡ search.seeks }
    ensures balance { result.balance ≡ balance }
    ensures right { IsRight kind inst.now result.cycle balance }
    ensures tight { IsTight kind inst.now balance result.cycle }
    ensures some { 1 ≤ result.cycle }
    ensures less { result.cycle ≤ cycle }
{
    let longest = longest_station(inst, kind, &balance, cycle);
    let Lowering {
        cycle: _,
        balance: _,
        book,
        listed,
        seeks,
    } = search;
    Lowering {
        cycle: longest.max(1),
        balance,
        book,
        listed,
        seeks,
    }
}

/// The search with a balance that is right at a cycle, in so many stations.
fn taken(
    inst: &Instance,
    kind: LineKind,
    stations: u32,
    search: Lowering,
    cycle: u64,
    balance: &Balance,
) -> Result<Lowering, AllocError>
    requires right { IsRight kind inst.now cycle balance.now }
    requires one { 1 ≤ cycle }
    requires few { stations ≤ 1024 }
    requires fits { balance.now.stations ≤ stations }
    ensures { IfOk result (IsImproved kind inst.now stations cycle search) }
{
    let balance = widened(balance, stations)?;
    Ok(improved(inst, kind, search, cycle, balance))
}

/// The search after a seek at a cycle, over its book with this best balance, and a balance that the seek found. What a
/// seek keeps has nothing by Bound, but no clause says so: where it had, the answer is as out of memory.
fn sought<R: Threads + Sync>(
    rt: &R,
    alloc: Global,
    inst: &Instance,
    stations: u32,
    plan: &Plan,
    search: Lowering,
    cycle: u64,
    best: Balance,
) -> Result<(Lowering, Option<Balance>), AllocError>
    requires plan { IsPlan plan.now }
    requires some { 1 ≤ stations }
    requires few { stations ≤ 1024 }
    requires same { search.book.about.line ≡ inst.now }
    requires cycle { IsCycle cycle }
    requires reserved { IsReserved search.book }
    requires best { MayBeBest (record { line = inst.now; kind = search.book.about.kind; cycle = cycle }) best }
    requires counted { IsCounted inst.now (entries_of search) (length (entries_of search)) search.listed }
    requires small { search.listed.units ≤ 4000000 }
    requires room { length (entries_of search) ≤ 4002048 }
    ensures { IfOk result (λ r. HasSought stations plan.now cycle search r.0 r.1) }
{
    let Lowering {
        cycle: reached,
        balance,
        book,
        listed,
        seeks,
    } = search;
    let from = book.len() as usize;
    let kind = book.kind();
    let book = book.reopen(cycle, best);
    let sought = seek_book(rt, alloc, inst, book, stations, plan, seeks)?;
    let listed = counted(inst, kind, sought.book.entries(), from, listed, sought.paid);
    if has_stray_bound(inst, sought.book.entries(), from, 0) {
        return Err(AllocError);
    }
    let search = Lowering {
        cycle: reached,
        balance,
        book: sought.book,
        listed,
        seeks: sought.seeks,
    };
    Ok((search, sought.found))
}

/// How many entries by Bound a round may add: one where it refuted its question.
fn may_bound(verdict: &Verdict) -> u64
    ensures { result ≡ may_bound verdict.now }
{
    match verdict {
        Verdict::Refuted => 1,
        Verdict::Found | Verdict::Spent(_) | Verdict::NoMemory(_) => 0,
    }
}

/// The search after a question was asked over its book, and the answer. By Bound a round publishes at most the question
/// that it refutes, but no clause says so: where it did more, the answer is as out of memory.
fn ask<R: Threads + Wait + Sync, G: Gate>(
    rt: &R,
    alloc: Global,
    inst: &Instance,
    stations: u32,
    plan: &Plan,
    gate: &G,
    search: Lowering,
) -> Result<(Lowering, Verdict), AllocError>
    requires plan { IsPlan plan.now }
    requires some { 1 ≤ stations }
    requires few { stations ≤ 1024 }
    requires same { search.book.about.line ≡ inst.now }
    requires cycle { IsCycle search.book.about.cycle }
    requires reserved { IsReserved search.book }
    requires counted { IsCounted inst.now (entries_of search) (length (entries_of search)) search.listed }
    requires small { search.listed.units ≤ 10000000 }
    requires room { length (entries_of search) ≤ 20000000 }
    ensures { IfOk result (λ r. HasAsked stations plan.now search r.0 r.1) }
{
    let Lowering {
        cycle,
        balance,
        book,
        listed,
        seeks,
    } = search;
    let from = book.len() as usize;
    let kind = book.kind();
    let asked = ask_book(rt, alloc, inst, book, stations, plan, gate)?;
    let listed = counted(
        inst,
        kind,
        asked.book.entries(),
        from,
        listed,
        2 * plan.units,
    );
    if has_stray_bound(inst, asked.book.entries(), from, may_bound(&asked.verdict)) {
        return Err(AllocError);
    }
    let search = Lowering {
        cycle,
        balance,
        book: asked.book,
        listed,
        seeks,
    };
    Ok((search, asked.verdict))
}

/// The search with the best balance of its book, in so many stations.
fn found(
    inst: &Instance,
    kind: LineKind,
    stations: u32,
    search: Lowering,
) -> Result<Lowering, AllocError>
    requires same { search.book.about.line ≡ inst.now }
    requires kind { search.book.about.kind ≡ kind }
    requires one { 1 ≤ search.book.about.cycle }
    requires few { stations ≤ 1024 }
    requires fits { search.book.state.best.stations ≤ stations }
    ensures { IfOk result (IsImproved kind inst.now stations search.book.about.cycle search) }
{
    let cycle = search.book.cycle();
    let balance = widened(search.book.best(), stations)?;
    Ok(improved(inst, kind, search, cycle, balance))
}

/// The ranked balance at a cycle that no task is longer than.
fn ranked(alloc: Global, inst: &Instance, kind: LineKind, cycle: u64) -> Result<Balance, AllocError>
    requires short { (i : ℕ) → IsTooLong inst.now cycle i → ⊥ }
    requires some { 1 ≤ cycle }
    ensures right { IfOk result (λ b. IsRight kind inst.now cycle b) }
    ensures few { IfOk result (λ b. b.stations ≤ tasks inst.now) }
{
    match ranked_balance(alloc, inst, kind, cycle) {
        Ranked::Good(best) => Ok(best),
        Ranked::TooLong(_) => unreachable!(),
        Ranked::NoMemory => Err(AllocError),
    }
}

/// Tries the greatest cycle of a smaller product in so many stations, at which no entry refutes all tasks: by the
/// ranked balance, by a seek, and by a search.
pub(crate) fn try_cycle<R: Threads + Wait + Sync, G: Gate>(
    rt: &R,
    alloc: Global,
    inst: &Instance,
    wanted: Wanted,
    stations: u32,
    plan: &Plan,
    gate: &G,
    search: Lowering,
    cycle: u64,
) -> Result<Tried, AllocError>
    requires plan { IsPlan plan.now }
    requires some { 1 ≤ wanted.least }
    requires from { wanted.least ≤ stations }
    requires to { stations ≤ wanted.most }
    requires few { wanted.most ≤ 1024 }
    requires due { IsTry wanted.kind inst.now wanted.least wanted.most stations cycle plan.now search }
    ensures { let tried = IsTried wanted.kind inst.now wanted.least wanted.most stations in
        IfOk result (tried plan.now (product_of search)) }
{
    let _tasks = inst.tasks();
    let best = ranked(alloc, inst, wanted.kind, cycle)?;
    if best.stations <= stations {
        let better = taken(inst, wanted.kind, stations, search, cycle, &best)?;
        return Ok(Tried::Found(better));
    }
    let (search, balance) = sought(rt, alloc, inst, stations, plan, search, cycle, best)?;
    if let Some(balance) = balance {
        let better = taken(inst, wanted.kind, stations, search, cycle, &balance)?;
        return Ok(Tried::Found(better));
    }
    let from = search.book.len() as usize;
    let (search, verdict) = ask(rt, alloc, inst, stations, plan, gate, search)?;
    match verdict {
        Verdict::Refuted => {
            if !ends_with_all(inst, search.book.entries()) {
                return Ok(Tried::NoMemory(search));
            }
            Ok(Tried::Refuted(search))
        }
        Verdict::Found => Ok(Tried::Found(found(inst, wanted.kind, stations, search)?)),
        Verdict::Spent(frames) => {
            if has_all_from(inst, search.book.entries(), from) {
                return Ok(Tried::NoMemory(search));
            }
            Ok(Tried::Spent {
                search,
                frames,
                closing_from: from as u64,
            })
        }
        Verdict::NoMemory(_) => Ok(Tried::NoMemory(search)),
    }
}
