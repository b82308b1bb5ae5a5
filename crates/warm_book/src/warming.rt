//! One pass over old entries, with the book that takes them in.
//!
//! For each old entry gone over, its number in the book is kept, which takes 16 bytes: so cites are renumbered without
//! a search. The room for these numbers is taken at the start.
ghost use Rattle.std.specs.Prelude.{◌≡◌, ◌+◌, ◌-◌, ◌^◌, ◌<◌, ◌≤◌, ◌∷◌, [], length, vec_len, vec_capacity, OnOk, OnErr};
ghost use Rattle.std.specs.Prelude.{IfOk, IfSome};
ghost use Rattle.line_instance.specs.Line.{IsTaskSet, tasks};
ghost use Rattle.line_rules.specs.Entries.{Follows, IsDerived, IsFresh};
ghost use Rattle.line_rules.specs.Ranges.{AreEntries, IsCycle};
ghost use Rattle.lemma_core.specs.declared.types.Event.TheVariants as event;
ghost use Rattle.lemma_core.specs.Own.{IsStatable};
ghost use Rattle.lemma_core.specs.Books.{IsReserved, ran};
ghost use Rattle.warm_book.specs.Warm.{number_of, Takes, IsWarmed, GivesWarmer, OfBook};
ghost use Rattle.line_check.specs.Faults.{IsChecked};
ghost use Rattle.warm_book.specs.inner.Takings.{taking, IsJudged};
ghost use Rattle.warm_book.specs.inner.Walked.{IsWalked, IsSpared};

use crate::numbers::renumbered;
use lemma_core::{Book, Published};
use line_check::{EntryChecked, verify_entry};
use line_instance::Instance;
use line_rules::{Entries, Entry};
use std::alloc::{AllocError, Global};

/// What a book is after it took in old entries.
#[derive(Drop)]
pub enum Warmed {
    /// All old entries were gone over, and so many of them were kept.
    Done { book: Book, kept: u32 },
    /// Out of memory: the book with what was kept before.
    NoMemory(Book),
}

/// A book that takes in old entries.
#[derive(Drop)]
pub(crate) struct Warming {
    pub(crate) book: Book,
    /// For each old entry gone over, its number in the book, where it was kept.
    pub(crate) numbers: Vec<Option<u64>>,
    /// How many were kept.
    pub(crate) kept: u32,
    /// The sum of the units of these.
    pub(crate) units: u64,
}

/// An old entry that is kept: with its cites renumbered, and with its units.
#[derive(Drop)]
struct Judged {
    entry: Entry,
    units: u64,
}

impl Warming {
    // What is found of an entry after those of the book. It is walked, unless a walk is known to find it right with so
    // many units.
    fn check(&self, inst: &Instance, entry: &Entry, walked: Option<u64>, steps: u64) -> EntryChecked
        requires set { IsTaskSet inst.now entry.now.set }
        requires cycle { IsCycle entry.now.cycle }
        requires walked { let b = self.now.book in
            IfSome walked (IsWalked b.about.kind inst.now b.state.entries entry.now) }
        ensures { let b = self.now.book in
            IsChecked b.about.kind inst.now b.state.entries entry.now steps result }
    {
        match walked {
            Some(units) if units <= steps => EntryChecked::Right { units },
            _ => verify_entry(inst, self.book.kind(), self.book.entries(), entry, steps),
        }
    }

    // Whether an old entry is kept, and as which entry. `walked` are its units, where a walk among the old entries
    // found it right.
    fn judge(
        &self,
        alloc: Global,
        inst: &Instance,
        old: &Entry,
        walked: Option<u64>,
        room: u64,
    ) -> Result<Option<Judged>, AllocError>
        requires same { self.now.book.about.line ≡ inst.now }
        requires set { IsTaskSet inst.now old.now.set }
        requires cycle { IsCycle old.now.cycle }
        requires walked { IsSpared (taking self.now) old.now walked }
        requires within { self.now.units ≤ room }
        ensures { IfOk result (IsJudged room (taking self.now) old.now) }
    {
        if old.cycle < self.book.cycle() || u64::from(self.kept) >= room {
            return Ok(None);
        }
        let renumbered = renumbered(alloc, &self.numbers, old)?;
        let Some(entry) = renumbered else {
            return Ok(None);
        };
        let steps = room - self.units;
        match self.check(inst, &entry, walked, steps) {
            EntryChecked::Right { units } => Ok(Some(Judged { entry, units })),
            EntryChecked::Fails { units: _ } => Ok(None),
            EntryChecked::StepsEnded => Ok(None),
        }
    }

    // Publishes an entry, and answers its number in the book. Out of memory, nothing changes.
    fn publish(&mut self, entry: Entry) -> Result<u64, AllocError>
        requires follows { let b = self.old.book in Follows b.about.kind b.about.line b.state.entries entry }
        requires range { IsStatable entry }
        ensures number { IfOk result (λ n. n ≡ number_of self.old.book.state entry) }
        ensures ok { OnOk result (self.new ≡ record self.old { book = ran self.old.book (event.Publish entry ∷ []) }) }
        ensures err { OnErr result (self.new ≡ self.old) }
        ensures reserved { IsReserved self.old.book → IsReserved self.new.book }
    {
        match self.book.publish(entry) {
            Published::Known(id) => Ok(id),
            Published::Added(id) => Ok(id),
            Published::NoMemory => Err(AllocError),
        }
    }

    // Takes an old entry in, or passes it over. `walked` are its units, where a walk among the old entries found it
    // right. Out of memory, the book stays as it was.
    pub(crate) fn take(
        &mut self,
        alloc: Global,
        inst: &Instance,
        old: &Entry,
        walked: Option<u64>,
        room: u64,
    ) -> Result<(), AllocError>
        requires same { self.old.book.about.line ≡ inst.now }
        requires set { IsTaskSet inst.now old.now.set }
        requires range { IsStatable old.now }
        requires walked { IsSpared (taking self.old) old.now walked }
        requires within { self.old.units ≤ room }
        requires kept { self.old.kept < 2 ^ 32 - 1 }
        requires free { vec_len self.old.numbers < vec_capacity self.old.numbers }
        ensures ok { OnOk result (Takes room (taking self.old) old.now (taking self.new)) }
        ensures err { OnErr result (self.new ≡ self.old) }
        ensures filled { OnOk result (vec_len self.new.numbers ≡ vec_len self.old.numbers + 1) }
        ensures capacity { vec_capacity self.new.numbers ≡ vec_capacity self.old.numbers }
        ensures reserved { IsReserved self.old.book → IsReserved self.new.book }
    {
        let judged = self.judge(alloc, inst, old, walked, room)?;
        let Some(Judged { entry, units }) = judged else {
            self.numbers.push_reserved(None);
            return Ok(());
        };
        let number = self.publish(entry)?;
        self.numbers.push_reserved(Some(number));
        self.kept += 1;
        self.units += units;
        Ok(())
    }
}

/// Takes old entries into a book about this instance, in their order and with their cites renumbered. An entry is kept
/// where its cycle is at least the book's, what it cites was kept, it follows from the entries of the book, and neither
/// the number of kept entries nor the sum of their units passes `room` with it. Only loads up to `room` are walked. The
/// old entries are of sets of the instance's tasks, and within the ranges of a certificate.
pub fn warm(alloc: Global, inst: &Instance, book: Book, old: &Entries, room: u64) -> Warmed
    requires same { book.about.line ≡ inst.now }
    requires range { AreEntries (tasks inst.now) old.now }
    ensures warmed { IsWarmed room book old.now result }
    ensures warmer { GivesWarmer room book result }
    ensures derived { OfBook (λ b. IsDerived b.about.kind b.about.line b.state.entries) result }
    ensures fresh { OfBook (λ b. IsFresh b.state.entries) result }
    ensures reserved { OfBook (λ b. IsReserved book → IsReserved b) result }
{
    let Ok(numbers) = Vec::with_capacity(alloc, old.len()) else {
        let _entries = book.entries();
        return Warmed::NoMemory(book);
    };
    let mut warming = Warming {
        book,
        numbers,
        kept: 0,
        units: 0,
    };
    for k in 0..old.len() {
        let Ok(()) = warming.take(alloc, inst, old.at(k), None, room) else {
            let _entries = warming.book.entries();
            return Warmed::NoMemory(warming.book);
        };
    }
    let _entries = warming.book.entries();
    Warmed::Done {
        book: warming.book,
        kept: warming.kept,
    }
}
