//! A seek, from try to try.
//!
//! What it keeps is the best balance, the scratch book of its searches, the generator of its drifts, and how many loads
//! were listed. A try counts as a load at least, or it is a drift: that one finds a better balance, or another try
//! follows. So a seek ends. `seek` and `seek_for` differ in their aim alone.
ghost use Rattle.std.specs.Prelude.{◌≡◌, ℕ, ◌+◌, ◌-◌, ◌^◌, ◌<◌, ◌≤◌, length, [], true, false, IfOk, OnOk, IfSome};
ghost use Rattle.line_instance.specs.Line.{tasks};
ghost use Rattle.line_rules.specs.Balance.{IsRight, all_tasks};
ghost use Rattle.line_rules.specs.Bounds.{bound};
ghost use Rattle.line_rules.specs.Entries.{HasAnswer, IsDerived};
ghost use Rattle.line_rules.specs.Ranges.{AreEntries, IsCycle};
ghost use Rattle.line_rules.specs.Units.{UnitsOf};
ghost use Rattle.round_helpers.specs.Growth.{AreAtCycle};
ghost use Rattle.station_search.specs.Decide.{IsPairing};
ghost use Rattle.line_seek.specs.inner.Tries.{counted, lag};
ghost use Rattle.line_seek.specs.inner.Trying.{IsTold, may_add};
ghost use Rattle.line_seek.specs.Seeking.{IfDone, IsSeeking, AreSought, RefuteIn, IsOver, HasSoughtFor};

use crate::aims::Aim;
use crate::answering::is_refuted;
use crate::tries::Try;
use crate::trying::{Told, Tried, try_beam, try_drift, try_search};
use beam_search::bound;
use entry_lists::trim;
use lemma_core::Book;
use line_instance::Instance;
use line_rules::{Balance, Entries, LineKind};
use rand_core::SeedableRng;
use station_search::{PairTable, table_for};
use std::alloc::{AllocError, Global};
use threshold_search::Lcg64Xsh32;

/// How many loads a try of the first round may list: few, so that a seek that finds at once is short.
const FIRST_SIZE: u64 = 1_000;

/// How many times as many a try of the next round may list. With as many tries a round, all rounds before one list a
/// third of its loads.
const GROWTH: u64 = 4;

/// What a seek comes to.
#[derive(Drop)]
pub enum Sought {
    /// The best balance; the entries that show that there is none in as many stations as the last try asked for, or
    /// none at all; and how many loads were listed.
    Done {
        best: Balance,
        lemmas: Entries,
        used: u64,
    },
    /// Out of memory.
    NoMemory,
}

/// A seek on its way.
#[derive(Drop)]
struct Seeker {
    best: Balance,
    /// What the searches refuted.
    scratch: Book,
    /// How many loads were listed.
    used: u64,
    /// How many loads a try of this round may list.
    size: u64,
    /// The next try.
    turn: Try,
    /// What the drifts draw from.
    random: Lcg64Xsh32,
}

/// An equal balance.
fn copy_of(balance: &Balance) -> Result<Balance, AllocError>
    ensures { IfOk result (λ b. b ≡ balance.now) }
{
    Ok(Balance {
        stations: balance.stations,
        place: balance.place.copy()?,
    })
}

impl Seeker {
    /// A seek that begins with the best balance of a book, and with an empty scratch book.
    fn begin(alloc: Global, inst: &Instance, book: &Book) -> Result<Seeker, AllocError>
        requires same { book.now.about.line ≡ inst.now }
        requires cycle { IsCycle book.now.about.cycle }
        ensures about { IfOk result (λ s. s.scratch.about ≡ book.now.about) }
        ensures best { IfOk result (λ s. s.best.stations ≡ book.now.state.best.stations) }
        ensures used { IfOk result (λ s. s.used ≡ 0) }
        ensures seeking { IfOk result (IsSeeking 0) }
    {
        let best = copy_of(book.best())?;
        let first = copy_of(book.best())?;
        let (kind, cycle) = (book.kind(), book.cycle());
        Ok(Seeker {
            best,
            scratch: Book::make(alloc, inst.copy(alloc)?, kind, cycle, first),
            used: 0,
            size: FIRST_SIZE,
            turn: Try::first(kind),
            random: Lcg64Xsh32::seed_from_u64(0),
        })
    }

    /// Whether nothing more is to be tried, where the next try would ask for `most` stations: the bound exceeds them,
    /// the best balance has no more, the loads are used, or an entry of the book or pairs refute them.
    fn is_over(
        &self,
        inst: &Instance,
        book: &Book,
        pairs: &mut Option<PairTable>,
        most: u32,
        lower: u32,
        limit: u64,
    ) -> bool
        requires same { book.now.about.line ≡ inst.now }
        requires few { self.now.best.stations ≤ 1024 }
        requires lower { let about = book.now.about in
            lower ≡ bound about.kind about.line about.cycle (all_tasks about.line) }
        requires pairs { IfSome pairs.old (IsPairing inst.now book.now.about.kind book.now.about.cycle) }
        ensures pairs { pairs.new ≡ pairs.old }
        ensures over { result ≡ true → IsOver book.now limit most self.now.best self.now.used }
        ensures left { result ≡ false → self.now.used < limit }
        ensures above { result ≡ false → lower ≤ most }
        ensures fewer { result ≡ false → most < self.now.best.stations }
    {
        if self.used >= limit {
            return true;
        }
        if most >= self.best.stations {
            return true;
        }
        if most == 0 {
            return true;
        }
        if most < lower {
            return true;
        }
        is_refuted(inst, book, pairs, most)
    }

    /// Makes the next try, for a balance in `most` stations, with at most so many loads. A beam and a search count as a
    /// load at least.
    fn make_try(
        &mut self,
        alloc: Global,
        inst: &Instance,
        pairs: &mut Option<PairTable>,
        most: u32,
        left: u64,
    ) -> Result<Tried, AllocError>
        requires same { self.old.scratch.about.line ≡ inst.now }
        requires seeking { IsSeeking 0 self.old }
        requires few { most ≤ 1024 }
        requires some { 1 ≤ left }
        requires room { self.old.used + left < 2 ^ 64 }
        requires bounded { let about = self.old.scratch.about in
            bound about.kind inst.now about.cycle (all_tasks inst.now) ≤ most }
        requires pairs { let about = self.old.scratch.about in
            IfSome pairs.old (IsPairing inst.now about.kind about.cycle) }
        ensures pairs { pairs.new ≡ pairs.old }
        ensures about { OnOk result (self.new.scratch.about ≡ self.old.scratch.about) }
        ensures best { OnOk result (self.new.best ≡ self.old.best) }
        ensures told { IfOk result (λ t. IsTold self.new.scratch most t.told) }
        ensures seeking { IfOk result (λ t. IsSeeking (may_add t.told) self.new) }
        ensures turn { OnOk result (self.new.turn ≡ self.old.turn) }
        ensures used { IfOk result (λ t. self.new.used ≡ self.old.used + counted self.old.turn t.listed) }
        ensures within { OnOk result (self.new.used ≤ self.old.used + left) }
    {
        let purse = self.size.min(left);
        match self.turn {
            Try::Drift => {
                let drifted = try_drift(
                    alloc,
                    inst,
                    &self.scratch,
                    &self.best,
                    &mut self.random,
                    most,
                    purse,
                )?;
                self.used += drifted.listed;
                Ok(drifted)
            }
            Try::Beam(mode) => {
                let beamed = try_beam(
                    alloc,
                    inst,
                    &self.scratch,
                    pairs,
                    mode,
                    most,
                    self.size,
                    purse,
                )?;
                self.used += beamed.listed.max(1);
                Ok(beamed)
            }
            Try::Search(mode) => {
                let tried = try_search(alloc, inst, &mut self.scratch, pairs, mode, most, purse)?;
                self.used += tried.listed.max(1);
                Ok(tried)
            }
        }
    }

    /// Goes to the next try of the round, or to the first one of the next round.
    fn go_on(&mut self, inst: &Instance)
        requires seeking { IsSeeking 0 self.old }
        ensures about { self.new.scratch.about ≡ self.old.scratch.about }
        ensures best { self.new.best ≡ self.old.best }
        ensures used { self.new.used ≡ self.old.used }
        ensures turn { lag self.new.turn + lag self.old.turn ≤ 1 }
        ensures seeking { IsSeeking 0 self.new }
    {
        let kind = self.scratch.kind();
        match self.turn.next(kind) {
            Some(turn) => self.turn = turn,
            None => {
                self.turn = Try::first_again(kind, inst.tasks());
                self.size = self.size.saturating_mul(GROWTH);
            }
        }
    }

    /// The end of a seek that refuted `most` stations: with the entries of the scratch book that show it.
    fn refuted(self, alloc: Global, inst: &Instance, most: u32) -> Result<Sought, AllocError>
        requires same { self.scratch.about.line ≡ inst.now }
        requires seeking { IsSeeking 1 self }
        requires answered { let book = self.scratch in
            HasAnswer book.state.entries (all_tasks inst.now) most book.about.cycle }
        ensures same { IfOk result (λ r. IfDone r (λ best lemmas used. (best ≡ self.best) × (used ≡ self.used))) }
        ensures lemmas { IfOk result (λ r. IfDone r (λ best lemmas used.
            AreSought inst.now self.scratch.about.cycle used lemmas)) }
        ensures derived { IfOk result (λ r. IfDone r (λ best lemmas used.
            IsDerived self.scratch.about.kind self.scratch.about.line lemmas)) }
        ensures answers { IfOk result (λ r. IfDone r (λ best lemmas used.
            HasAnswer lemmas (all_tasks inst.now) most self.scratch.about.cycle)) }
    {
        let Seeker {
            best,
            scratch,
            used,
            ..
        } = self;
        let cycle = scratch.cycle();
        let tasks = inst.tasks();
        let (entries, _) = scratch.into_parts();
        let lemmas = trim(alloc, entries, tasks, most, cycle)?;
        Ok(Sought::Done { best, lemmas, used })
    }

    /// The end of a seek that refuted nothing: without lemmas.
    fn ended(self, alloc: Global) -> Sought
        ensures { IfDone result (λ best lemmas used. (best ≡ self.best) × (used ≡ self.used) × (lemmas ≡ [])) }
    {
        Sought::Done {
            best: self.best,
            lemmas: Entries::from_vec(Vec::new(alloc)),
            used: self.used,
        }
    }
}

/// A seek over a book with an aim; an error where memory is wanting.
fn go_through(
    alloc: Global,
    inst: &Instance,
    book: &Book,
    aim: Aim,
    limit: u64,
    pairs: bool,
) -> Result<Sought, AllocError>
    requires same { book.now.about.line ≡ inst.now }
    requires cycle { IsCycle book.now.about.cycle }
    ensures { IfOk result (λ r. IfDone r (HasSoughtFor aim book.now limit)) }
{
    let _best = book.best();
    let _tasks = inst.tasks();
    let mut seeker = Seeker::begin(alloc, inst, book)?;
    let mut pairs = table_for(alloc, inst, book.kind(), book.cycle(), pairs)?;
    let lower = bound(inst, book.kind(), book.cycle(), &inst.all());
    'tries: loop {
        let most = aim.asked_for(seeker.best.stations);
        if seeker.is_over(inst, book, &mut pairs, most, lower, limit) {
            return Ok(seeker.ended(alloc));
        }
        let left = limit - seeker.used;
        let Tried { told, .. } = seeker.make_try(alloc, inst, &mut pairs, most, left)?;
        match told {
            Told::Found(balance) => seeker.best = balance,
            Told::Refuted => return seeker.refuted(alloc, inst, most),
            Told::Open => seeker.go_on(inst),
        }
    }
}

/// Seeks a balance in fewer stations than the best of a book, at the book's cycle, and entries that show that there is
/// none, listing at most so many loads. The book is about the instance, and its cycle is 1 to 10^18 in the instance's
/// time unit.
///
/// Rounds follow in which a try may list 1,000, 4,000, 16,000 loads and so on. A round has a beam from the front and
/// one from the back, and then a search from the front and one from the back; on a U-line a beam and a search from both
/// ends. On a line of at least 150 tasks each round but the first begins with a drift: a unit of it, which pays one step
/// for every eight tasks, counts as a load. A try asks for one station less than the best balance has, and is made again
/// where it finds one. The seek ends where the best balance has as many stations as the bound, where the loads are used,
/// where an entry of the book or, if they are asked, pairs refute one station less, and where a search does; then the
/// lemmas are the entries of the searches that show that, and in every other case there are none. With pairs the searches
/// and the beams ask them too.
pub fn seek(alloc: Global, inst: &Instance, book: &Book, limit: u64, pairs: bool) -> Sought
    requires same { book.now.about.line ≡ inst.now }
    requires cycle { IsCycle book.now.about.cycle }
    ensures used { IfDone result (λ best lemmas used. used ≤ limit) }
    ensures right { let about = book.now.about in
        IfDone result (λ best lemmas used. IsRight about.kind inst.now about.cycle best) }
    ensures few { IfDone result (λ best lemmas used. best.stations ≤ book.now.state.best.stations) }
    ensures ranges { limit < 20000000 → IfDone result (λ best lemmas used. AreEntries (tasks inst.now) lemmas) }
    ensures cycles { IfDone result (λ best lemmas used. AreAtCycle book.now.about.cycle lemmas) }
    ensures units { IfDone result (λ best lemmas used. (units : ℕ) × UnitsOf inst.now lemmas units × (units ≤ used)) }
    ensures members { IfDone result (λ best lemmas used. length lemmas ≤ used + 1) }
    ensures derived { let about = book.now.about in
        IfDone result (λ best lemmas used. IsDerived about.kind about.line lemmas) }
    ensures shown { IfDone result (λ best lemmas used.
        RefuteIn inst.now book.now.about.cycle (best.stations - 1) lemmas) }
    ensures over { IfDone result (λ best lemmas used.
        lemmas ≡ [] → IsOver book.now limit (best.stations - 1) best used) }
{
    match go_through(alloc, inst, book, Aim::Fewer, limit, pairs) {
        Ok(sought) => sought,
        Err(_) => Sought::NoMemory,
    }
}

/// Seeks a balance in at most `most` stations, 1 to 1,024, at the cycle of a book, and entries that show that there is
/// none, listing at most so many loads. The book is about the instance, and its cycle is 1 to 10^18 in the instance's
/// time unit.
///
/// The tries are those of `seek`, but each asks for `most` stations itself, however many the best balance has. The seek
/// ends where the best balance has at most so many, where the loads are used, and where so many are refuted: by the
/// bound, by an entry of the book, by pairs if they are asked, or by a search. Where a search refutes them the lemmas
/// are its entries that show it, and in every other case there are none.
pub fn seek_for(
    alloc: Global,
    inst: &Instance,
    book: &Book,
    most: u32,
    limit: u64,
    pairs: bool,
) -> Sought
    requires same { book.now.about.line ≡ inst.now }
    requires cycle { IsCycle book.now.about.cycle }
    requires some { 1 ≤ most }
    requires few { most ≤ 1024 }
    ensures used { IfDone result (λ best lemmas used. used ≤ limit) }
    ensures right { let about = book.now.about in
        IfDone result (λ best lemmas used. IsRight about.kind inst.now about.cycle best) }
    ensures few { IfDone result (λ best lemmas used. best.stations ≤ book.now.state.best.stations) }
    ensures ranges { limit < 20000000 → IfDone result (λ best lemmas used. AreEntries (tasks inst.now) lemmas) }
    ensures cycles { IfDone result (λ best lemmas used. AreAtCycle book.now.about.cycle lemmas) }
    ensures units { IfDone result (λ best lemmas used. (units : ℕ) × UnitsOf inst.now lemmas units × (units ≤ used)) }
    ensures members { IfDone result (λ best lemmas used. length lemmas ≤ used + 1) }
    ensures derived { let about = book.now.about in
        IfDone result (λ best lemmas used. IsDerived about.kind about.line lemmas) }
    ensures shown { IfDone result (λ best lemmas used. RefuteIn inst.now book.now.about.cycle most lemmas) }
    ensures over { IfDone result (λ best lemmas used. lemmas ≡ [] → IsOver book.now limit most best used) }
{
    match go_through(alloc, inst, book, Aim::AtMost(most), limit, pairs) {
        Ok(sought) => sought,
        Err(_) => Sought::NoMemory,
    }
}
