//! One question over a book: whether all tasks have a balance in so many stations at the book's cycle.
//!
//! Where pairs are asked and refute the question, the closing pass says so at once, and no helper is called. Else, where
//! it has helpers, these first do the jobs of the question side by side, and what they prove is in the book that
//! comes back. Unless the best balance answers the question then, the closing pass decides it on that book, alone. So
//! whatever the helpers did, in whatever order, the book and the answer are those of one caller.
ghost use Rattle.std.specs.Prelude.{◌≡◌, ◌+◌, ◌-◌, ◌^◌, ◌<◌, ◌≤◌, ℕ, true, IfSome};
ghost use Rattle.line_rules.specs.Ranges.{IsCycle};
ghost use Rattle.lemma_core.specs.Books.{IsReserved};
ghost use Rattle.station_search.specs.Decide.{IsPairing};
ghost use Rattle.round_helpers.specs.Growth.{Helps};
ghost use Rattle.round_helpers.specs.Helping.{IsTeam, all_used, HaveSpent, IsUnneeded, HasHelped};
ghost use Rattle.round_helpers.specs.declared.helping.Helped.TheVariants.{Unneeded};
ghost use Rattle.round_run.specs.Rounds.{ArePaired, IsAnswer, StaysAbove, IsRound};
ghost use Rattle.round_run.specs.inner.Closed.{IsClosed};

use crate::closing::{Verdict, closing_pass};
use crate::plans::Purse;
use lemma_core::Book;
use line_instance::Instance;
use line_rules::{Frames, LineKind};
use round_helpers::{Gate, Help, Helped, call_helpers};
use station_search::{PairTable, Paired, Units, ask_pairs, table_for};
use std::alloc::Global;
use std::sync::Wait;
use std::thread::Threads;

/// The book after a question, and its answer.
#[derive(Drop)]
pub struct Round {
    pub book: Book,
    /// How many entries the book had when the closing pass began.
    pub closing_from: u64,
    pub helped: Helped,
    pub verdict: Verdict,
}

// Has the helpers do the jobs of a question, each with its own units.
fn help<R: Threads + Wait + Sync, G: Gate>(
    rt: &R,
    alloc: Global,
    inst: &Instance,
    book: Book,
    most: u32,
    pairs: bool,
    team: &mut Vec<Units>,
    gate: &G,
) -> Help
    requires same { book.about.line ≡ inst.now }
    requires cycle { IsCycle book.about.cycle }
    requires reserved { IsReserved book }
    requires some { 1 ≤ most }
    requires few { most ≤ 1024 }
    requires team { IsTeam team.old.items }
    ensures helps { Helps book result.book (all_used team.new.items - all_used team.old.items) }
    ensures helped { HasHelped book result.book most team.new.items result.helped }
    ensures unneeded { IsUnneeded book most team.old.items → (result.helped ≡ Unneeded) × (result.book ≡ book) }
    ensures still { result.helped ≡ Unneeded → result.book ≡ book }
    ensures reserved { IsReserved result.book }
    ensures spent { HaveSpent team.old.items team.new.items }
{
    call_helpers(
        rt,
        alloc,
        inst,
        book,
        most,
        pairs,
        team.as_mut_slice(),
        gate,
    )
}

// Whether pairs refute that all tasks have a balance in `most` stations, where they are asked.
fn pairs_refute(
    inst: &Instance,
    kind: LineKind,
    cycle: u64,
    most: u32,
    table: &mut Option<PairTable>,
) -> bool
    requires few { most ≤ 1024 }
    requires table { IfSome table.old (IsPairing inst.now kind cycle) }
    ensures table { table.new ≡ table.old }
    ensures refuted { result ≡ true → ArePaired kind inst.now cycle most }
{
    match ask_pairs(table, inst, kind, cycle, &inst.all(), most) {
        Paired::Refuted { .. } => true,
        Paired::Open => false,
    }
}

// The round without a closing pass, for want of memory; the helpers may have found a balance.
fn without_memory(alloc: Global, book: Book, most: u32, helped: Helped, closing: &Units) -> Round
    requires reserved { IsReserved book }
    ensures closed { IsClosed book most (closing.now.used - closing.now.used) closing.now.left result }
    ensures helped { result.helped ≡ helped }
{
    let from = book.len();
    let is_found = book.least() <= most;
    if is_found {
        return Round {
            book,
            closing_from: from,
            helped,
            verdict: Verdict::Found,
        };
    }
    Round {
        book,
        closing_from: from,
        helped,
        verdict: Verdict::NoMemory(Frames::from_vec(Vec::new(alloc))),
    }
}

// The round with its closing pass, unless the best balance answers the question by now.
fn closed(
    alloc: Global,
    inst: &Instance,
    book: Book,
    most: u32,
    helped: Helped,
    table: &mut Option<PairTable>,
    closing: &mut Units,
) -> Round
    requires same { book.about.line ≡ inst.now }
    requires cycle { IsCycle book.about.cycle }
    requires reserved { IsReserved book }
    requires few { most ≤ 1024 }
    requires table { IfSome table.old (IsPairing inst.now book.about.kind book.about.cycle) }
    requires units { closing.old.used + closing.old.left < 2 ^ 64 }
    ensures closed { IsClosed book most (closing.new.used - closing.old.used) closing.new.left result }
    ensures helped { result.helped ≡ helped }
    ensures units { closing.new.used + closing.new.left ≡ closing.old.used + closing.old.left }
    ensures spent { closing.old.used ≤ closing.new.used }
{
    let mut book = book;
    let closing_from = book.len();
    if book.least() <= most {
        return Round {
            book,
            closing_from,
            helped,
            verdict: Verdict::Found,
        };
    }
    let verdict = closing_pass(alloc, inst, &mut book, most, table, closing);
    Round {
        book,
        closing_from,
        helped,
        verdict,
    }
}

/// Decides whether all tasks have a balance in `most` stations, 1 to 1,024, at the cycle of the book, which is 1 to
/// 10^18 in the instance's time unit. The book is about this instance, and `reserve_offers` was done for it. The purse
/// has the units of the closing pass, and those of each helper, of which there are at most 64: a load that is listed
/// takes one from who lists it, and a helper's job one from the helper. Helpers run in threads and meet the gate before
/// each publish. With `pairs` the question and its searches ask the pairs, each by a table of its own.
pub fn decide_round<R: Threads + Wait + Sync, G: Gate>(
    rt: &R,
    alloc: Global,
    inst: &Instance,
    book: Book,
    most: u32,
    pairs: bool,
    purse: &mut Purse,
    gate: &G,
) -> Round
    requires same { book.about.line ≡ inst.now }
    requires cycle { IsCycle book.about.cycle }
    requires reserved { IsReserved book }
    requires some { 1 ≤ most }
    requires few { most ≤ 1024 }
    requires units { purse.old.closing.used + purse.old.closing.left < 2 ^ 64 }
    requires team { IsTeam purse.old.helper.items }
    ensures round { let closing = purse.new.closing.used - purse.old.closing.used in
        let helpers = all_used purse.new.helper.items - all_used purse.old.helper.items in
        IsRound book result most purse.new.helper.items helpers closing }
    ensures answer { IsAnswer result.book most purse.new.closing.left result.verdict }
    ensures above { StaysAbove most book result.book result.verdict }
    ensures reserved { IsReserved result.book }
    ensures units { purse.new.closing.used + purse.new.closing.left ≡ purse.old.closing.used + purse.old.closing.left }
    ensures spent { purse.old.closing.used ≤ purse.new.closing.used }
    ensures team { HaveSpent purse.old.helper.items purse.new.helper.items }
    ensures unneeded { IsUnneeded book most purse.old.helper.items → result.helped ≡ Unneeded }
{
    let (kind, cycle) = (book.kind(), book.cycle());
    let Ok(mut table) = table_for(alloc, inst, kind, cycle, pairs) else {
        let Help { book, helped } = help(
            rt,
            alloc,
            inst,
            book,
            most,
            false,
            &mut purse.helper,
            gate,
        );
        return without_memory(alloc, book, most, helped, &purse.closing);
    };
    if pairs_refute(inst, kind, cycle, most, &mut table) {
        return closed(
            alloc,
            inst,
            book,
            most,
            Helped::Unneeded,
            &mut table,
            &mut purse.closing,
        );
    }
    let Help { book, helped } = help(rt, alloc, inst, book, most, pairs, &mut purse.helper, gate);
    closed(
        alloc,
        inst,
        book,
        most,
        helped,
        &mut table,
        &mut purse.closing,
    )
}
