//! One try of a cycle between the ends.
//!
//! The ranked balance is made first, and where it has few enough stations nothing is searched. Else a seek is made over
//! the book, where the plan asks for one, and where it finds no balance the question is decided. The book is reopened
//! at the cycle before; one that has grown too large is given up for a new one, and of its entries only the proof of
//! the lower end is kept.
ghost use Rattle.std.specs.Prelude.{◌≡◌, ◌+◌, ◌-◌, ◌<◌, ◌≤◌, ℕ, [], length, IfOk};
ghost use Rattle.line_instance.specs.Truths.{full_to};
ghost use Rattle.line_instance.specs.Line.{Line, tasks as count_tasks};
ghost use Rattle.line_rules.specs.Entries.{HasAnswer};
ghost use Rattle.line_rules.specs.Ranges.{IsCycle};
ghost use Rattle.line_rules.specs.declared.types.LineKind.{LineKind as Kind};
ghost use Rattle.lemma_core.specs.Books.{IsReserved, MayBeBest};
ghost use Rattle.entry_lists.specs.Trim.{CitesEarlier};
ghost use Rattle.round_run.specs.Plans.{IsPlan};
ghost use Rattle.round_run.specs.declared.plans.Plan.{Plan as Planned};
ghost use Rattle.cycle_search.specs.inner.Searching.{IsBetween, IsReopened, IsAsking, HasSought, HasAsked, IsTried};
ghost use Rattle.cycle_search.specs.inner.Searching.{IsKept, IsTriedAt};
ghost use Rattle.cycle_search.specs.Outcomes.{halfway};

use crate::asking::ask_book;
use crate::halving::Halving;
use crate::opening::open_book;
use crate::seek::seek_book;
use entry_lists::trim;
use first_fit::{Ranked, ranked_balance};
use line_instance::Instance;
use line_rules::{Balance, Entries, Frames, LineKind};
use round_run::{Cause, Gate, Plan, Verdict};
use std::alloc::{AllocError, Global};
use std::sync::Wait;
use std::thread::Threads;

/// A book with more entries, or one on which more units were spent, isn't reopened. So a certificate, of a proof that
/// was kept and a book, stays below 20,000,000 entries: a try adds at most one more than twice its units, and what its
/// seek may.
const MAX_ENTRIES: u64 = 1_000_000;

/// The most units of a book that is reopened.
const MAX_PAID: u64 = 1_000_000;

/// What a try comes to.
#[derive(Drop)]
pub(crate) enum Tried {
    /// The ends are closer.
    Goes(Halving),
    /// Units or memory ended first: the ends stay, and the open frames of the search over the book are these. The
    /// entries of the last round are those from number `closing_from` on.
    Stops {
        cause: Cause,
        search: Halving,
        frames: Frames,
        closing_from: u64,
    },
}

// The proof of the lower end beside a new book: the one that is kept, else what the entries of the book have of it.
fn kept_proof(
    alloc: Global,
    tasks: u32,
    stations: u32,
    lower: u64,
    proof: Entries,
    entries: Entries,
) -> Result<Entries, AllocError>
    requires few { tasks ≤ 1024 }
    requires some { 1 ≤ lower }
    requires goal { 1 < lower → length proof ≡ 0 → HasAnswer entries (full_to tasks) stations (lower - 1) }
    requires earlier { CitesEarlier entries }
    ensures { IfOk result (λ kept. (kind : Kind) (line : Line) (P upper : ℕ) → tasks ≡ count_tasks line
        → IsKept kind line stations P lower upper proof
        → (length proof ≡ 0 → IsKept kind line stations P lower upper entries)
        → IsKept kind line stations P lower upper kept × (length kept ≡ 0 → lower ≤ 1)) }
{
    if lower == 1 || !proof.is_empty() {
        return Ok(proof);
    }
    let kept = trim(alloc, entries, tasks, stations, lower - 1)?;
    Ok(kept)
}

// The search with a new book at a cycle between the ends.
fn begun_anew(
    alloc: Global,
    inst: &Instance,
    kind: LineKind,
    stations: u32,
    search: Halving,
    cycle: u64,
    best: Balance,
) -> Result<Halving, AllocError>
    requires between { (plan : Planned) × IsBetween kind inst.now stations plan search }
    requires from { search.lower ≤ cycle }
    requires to { cycle < search.upper }
    requires best { MayBeBest (record { line = inst.now; kind = kind; cycle = cycle }) best }
    requires above { stations < best.stations }
    requires tried { IsTriedAt kind inst.now stations cycle search }
    ensures same { IfOk result (λ h. (h.lower ≡ search.lower) × (h.upper ≡ search.upper)) }
    ensures reopened { IfOk result (λ h. (plan : Planned) → IsBetween kind inst.now stations plan search
        → IsReopened kind inst.now stations plan cycle h) }
{
    let Halving {
        lower,
        upper,
        balance,
        proof,
        book,
        paid: _,
        seeks,
    } = search;
    let (entries, _best) = book.into_parts();
    let proof = kept_proof(alloc, inst.tasks(), stations, lower, proof, entries)?;
    Ok(Halving {
        lower,
        upper,
        balance,
        proof,
        book: open_book(alloc, inst, kind, cycle, best)?,
        paid: 0,
        seeks,
    })
}

// The search with its book at a cycle between the ends.
fn reopened(
    alloc: Global,
    inst: &Instance,
    kind: LineKind,
    stations: u32,
    search: Halving,
    cycle: u64,
    best: Balance,
) -> Result<Halving, AllocError>
    requires between { (plan : Planned) × IsBetween kind inst.now stations plan search }
    requires from { search.lower ≤ cycle }
    requires to { cycle < search.upper }
    requires best { MayBeBest (record { line = inst.now; kind = kind; cycle = cycle }) best }
    requires above { stations < best.stations }
    requires tried { IsTriedAt kind inst.now stations cycle search }
    ensures same { IfOk result (λ h. (h.lower ≡ search.lower) × (h.upper ≡ search.upper)) }
    ensures reopened { IfOk result (λ h. (plan : Planned) → IsBetween kind inst.now stations plan search
        → IsReopened kind inst.now stations plan cycle h) }
{
    if search.book.len() > MAX_ENTRIES || search.paid > MAX_PAID {
        return begun_anew(alloc, inst, kind, stations, search, cycle, best);
    }
    let Halving {
        lower,
        upper,
        balance,
        proof,
        book,
        paid,
        seeks,
    } = search;
    Ok(Halving {
        lower,
        upper,
        balance,
        proof,
        book: book.reopen(cycle, best),
        paid,
        seeks,
    })
}

// The search after its question was asked at the cycle of its book, and the answer.
fn ask<R: Threads + Wait + Sync, G: Gate>(
    rt: &R,
    alloc: Global,
    inst: &Instance,
    stations: u32,
    plan: &Plan,
    gate: &G,
    search: Halving,
) -> Result<(Halving, Verdict), AllocError>
    requires plan { IsPlan plan.now }
    requires some { 1 ≤ stations }
    requires few { stations ≤ 1024 }
    requires same { search.book.about.line ≡ inst.now }
    requires cycle { IsCycle search.book.about.cycle }
    requires reserved { IsReserved search.book }
    requires paid { search.paid ≤ 3500000 }
    ensures { IfOk result (λ r. HasAsked stations plan.now search r.0 r.1) }
{
    let Halving {
        lower,
        upper,
        balance,
        proof,
        book,
        paid,
        seeks,
    } = search;
    let asked = ask_book(rt, alloc, inst, book, stations, plan, gate)?;
    let search = Halving {
        lower,
        upper,
        balance,
        proof,
        book: asked.book,
        paid: paid + asked.used,
        seeks,
    };
    Ok((search, asked.verdict))
}

/// The balance in so many stations, the last ones perhaps empty. An error where memory is wanting.
pub fn widened(balance: &Balance, stations: u32) -> Result<Balance, AllocError>
    ensures { IfOk result (λ b. b ≡ record { stations = stations; place = balance.now.place }) }
{
    Ok(Balance {
        stations,
        place: balance.place.copy()?,
    })
}

// The search after its question was refuted at the cycle of its book.
fn refuted(alloc: Global, search: Halving) -> Halving
    requires { IsCycle search.book.about.cycle }
    ensures { result ≡ record search { lower = search.book.about.cycle + 1; proof = [] } }
{
    let lower = search.book.cycle() + 1;
    let Halving {
        lower: _,
        upper,
        balance,
        proof: _,
        book,
        paid,
        seeks,
    } = search;
    Halving {
        lower,
        upper,
        balance,
        proof: Entries::from_vec(Vec::new(alloc)),
        book,
        paid,
        seeks,
    }
}

// The search after a balance was found at the cycle of its book.
fn found(stations: u32, search: Halving) -> Result<Halving, AllocError>
    ensures right { MayBeBest search.book.about search.book.state.best }
    ensures found { IfOk result (λ h. h ≡ record search {
      upper = search.book.about.cycle;
      balance = record { stations = stations; place = search.book.state.best.place };
    }) }
{
    let upper = search.book.cycle();
    let balance = widened(search.book.best(), stations)?;
    let Halving {
        lower,
        upper: _,
        balance: _,
        proof,
        book,
        paid,
        seeks,
    } = search;
    Ok(Halving {
        lower,
        upper,
        balance,
        proof,
        book,
        paid,
        seeks,
    })
}

// Asks the question of so many stations at the cycle of the book. The entries of this round are those from number
// `closing_from` on.
fn asked<R: Threads + Wait + Sync, G: Gate>(
    rt: &R,
    alloc: Global,
    inst: &Instance,
    stations: u32,
    plan: &Plan,
    gate: &G,
    search: Halving,
) -> Result<Tried, AllocError>
    requires plan { IsPlan plan.now }
    requires some { 1 ≤ stations }
    requires few { stations ≤ 1024 }
    requires asking { let kind = search.book.about.kind in
        IsAsking kind inst.now stations plan.now search.book.about.cycle search }
    ensures { IfOk result (IsTried search.book.about.kind inst.now stations plan.now search.lower search.upper) }
{
    let _tasks = inst.tasks();
    let closing_from = search.book.len();
    let (search, verdict) = ask(rt, alloc, inst, stations, plan, gate, search)?;
    match verdict {
        Verdict::Refuted => Ok(Tried::Goes(refuted(alloc, search))),
        Verdict::Found => Ok(Tried::Goes(found(stations, search)?)),
        Verdict::Spent(frames) => Ok(Tried::Stops {
            cause: Cause::Units,
            search,
            frames,
            closing_from,
        }),
        Verdict::NoMemory(_) => Ok(Tried::Stops {
            cause: Cause::Memory,
            search,
            frames: Frames::from_vec(Vec::new(alloc)),
            closing_from,
        }),
    }
}

// Where a balance at a cycle has few enough stations, the search with it at the upper end.
fn with_balance(
    stations: u32,
    search: Halving,
    cycle: u64,
    best: &Balance,
) -> Result<Halving, AllocError>
    ensures { IfOk result (λ h. h ≡ record search {
      upper = cycle;
      balance = record { stations = stations; place = best.now.place };
    }) }
{
    let Halving {
        lower,
        upper: _,
        balance: _,
        proof,
        book,
        paid,
        seeks,
    } = search;
    Ok(Halving {
        lower,
        upper: cycle,
        balance: widened(best, stations)?,
        proof,
        book,
        paid,
        seeks,
    })
}

// The search after a seek at the cycle of its book, and the balance that it found, if any.
fn sought<R: Threads + Sync>(
    rt: &R,
    alloc: Global,
    inst: &Instance,
    stations: u32,
    plan: &Plan,
    search: Halving,
) -> Result<(Halving, Option<Balance>), AllocError>
    requires plan { IsPlan plan.now }
    requires some { 1 ≤ stations }
    requires few { stations ≤ 1024 }
    requires same { search.book.about.line ≡ inst.now }
    requires cycle { IsCycle search.book.about.cycle }
    requires reserved { IsReserved search.book }
    requires paid { search.paid ≤ 1000000 }
    ensures { IfOk result (λ r. HasSought stations plan.now search r.0 r.1) }
{
    let Halving {
        lower,
        upper,
        balance,
        proof,
        book,
        paid,
        seeks,
    } = search;
    let sought = seek_book(rt, alloc, inst, book, stations, plan, seeks)?;
    let search = Halving {
        lower,
        upper,
        balance,
        proof,
        book: sought.book,
        paid: paid + sought.paid,
        seeks: sought.seeks,
    };
    Ok((search, sought.found))
}

// Seeks at the cycle of the book, and asks the question where no balance was found.
fn decided<R: Threads + Wait + Sync, G: Gate>(
    rt: &R,
    alloc: Global,
    inst: &Instance,
    stations: u32,
    plan: &Plan,
    gate: &G,
    search: Halving,
) -> Result<Tried, AllocError>
    requires plan { IsPlan plan.now }
    requires some { 1 ≤ stations }
    requires few { stations ≤ 1024 }
    requires reopened { let kind = search.book.about.kind in
        IsReopened kind inst.now stations plan.now search.book.about.cycle search }
    ensures { IfOk result (IsTried search.book.about.kind inst.now stations plan.now search.lower search.upper) }
{
    let _tasks = inst.tasks();
    let cycle = search.book.cycle();
    let (search, found) = sought(rt, alloc, inst, stations, plan, search)?;
    match found {
        Some(best) => Ok(Tried::Goes(with_balance(stations, search, cycle, &best)?)),
        None => asked(rt, alloc, inst, stations, plan, gate, search),
    }
}

/// Tries a cycle between the ends.
pub(crate) fn try_cycle<R: Threads + Wait + Sync, G: Gate>(
    rt: &R,
    alloc: Global,
    inst: &Instance,
    kind: LineKind,
    stations: u32,
    plan: &Plan,
    gate: &G,
    search: Halving,
    cycle: u64,
) -> Result<Tried, AllocError>
    requires plan { IsPlan plan.now }
    requires some { 1 ≤ stations }
    requires few { stations ≤ 1024 }
    requires between { IsBetween kind inst.now stations plan.now search }
    requires from { search.lower ≤ cycle }
    requires to { cycle < search.upper }
    requires half { cycle ≡ halfway search.lower search.upper }
    ensures { IfOk result (IsTried kind inst.now stations plan.now search.lower search.upper) }
{
    let _tasks = inst.tasks();
    let best = match ranked_balance(alloc, inst, kind, cycle) {
        Ranked::Good(best) => best,
        Ranked::TooLong(_) => unreachable!(),
        Ranked::NoMemory => return Err(AllocError),
    };
    if best.stations <= stations {
        return Ok(Tried::Goes(with_balance(stations, search, cycle, &best)?));
    }
    let search = reopened(alloc, inst, kind, stations, search, cycle, best)?;
    decided(rt, alloc, inst, stations, plan, gate, search)
}
