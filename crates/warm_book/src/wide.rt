//! The same pass over old entries in threads, as many as there are processors.
//!
//! An old list is gone over in batches. The entries of a batch are first walked side by side, each among the old
//! entries before it, for a few loads. What follows there follows in the book too, and with as many units: where the
//! book has an old entry, it has one under its number that says at least as much. So when the batch is then gone over
//! in order, as in the plain form, such an entry is kept without a further walk, and the others are walked there.
//!
//! A walk beside the others is spared where the entry's cycle is too small, or where it cites one that an earlier batch
//! passed over. It is in vain where the entry cites one that is passed over in its own batch, and where it doesn't
//! follow: an entry costs up to so many loads more than in the plain form. So a batch has at most half as many entries
//! as were kept before it, and once more than one in seventeen was passed over, batches are gone over as in the plain
//! form alone. A batch takes 16 bytes an entry.
ghost use Rattle.std.specs.Prelude.{◌≡◌, ◌↔◌, ◌-◌, ◌/◌, ◌<◌, ◌≤◌, ℕ, IsTrue, Some, not, length, take, slice_get};
ghost use Rattle.std.specs.Prelude.{vec_len, vec_capacity};
ghost use Rattle.std.specs.Prelude.{OnOk, OnErr, IfOk, IfSome};
ghost use Rattle.std.specs.List.{list_all};
ghost use Rattle.line_instance.specs.Line.{tasks};
ghost use Rattle.line_rules.specs.Entries.{IsDerived, IsFresh};
ghost use Rattle.line_rules.specs.Ranges.{AreEntries};
ghost use Rattle.lemma_core.specs.Books.{BookView, IsReserved};
ghost use Rattle.warm_book.specs.Warm.{TakesAll, untaken, IsWarmed, IsOneWarmed, GivesWarmer, OfBook};
ghost use Rattle.warm_book.specs.Counted.{warmed_of, AreCounted};
ghost use Rattle.warm_book.specs.inner.Takings.{taking};
ghost use Rattle.warm_book.specs.inner.Walked.{is_dropped, has_hope, may_stand, IsWalkedAt, AreWalked};

use crate::warming::{Warmed, Warming};
use lemma_core::Book;
use line_check::{Checked, check_entry};
use line_instance::Instance;
use line_rules::{Entries, Entry, LineKind, Why};
use rayon::prelude::*;
use std::alloc::{AllocError, Global};
use std::thread::Threads;

/// The fewest old entries of a batch, so that threads have something to share from the start.
const FEWEST: usize = 16;

/// The most old entries of a batch, as many as a check walks side by side.
const MOST: usize = 4096;

/// The most loads that an old entry is walked for beside others, as in a check. One that needs more is walked alone.
const QUICK: u64 = 65_536;

/// How many old entries the next batch has, where so many were kept: half as many, within limits.
fn batch_size(kept: u32) -> usize
    ensures some { 1 ≤ result }
    ensures most { result ≤ 4096 }
{
    (kept as usize / 2).max(FEWEST).min(MOST)
}

/// Whether so few of the old entries gone over were passed over that walks beside others are hardly in vain.
fn is_worth(gone_over: usize, kept: u32) -> bool
    ensures { IsTrue result ↔ gone_over - kept ≤ kept / 16 }
{
    gone_over.saturating_sub(kept as usize) <= kept as usize / 16
}

/// Whether the old entry that is cited was gone over, and passed over.
fn is_dropped(numbers: &[Option<u64>], cite: u64) -> bool
    ensures { result ≡ is_dropped numbers.now cite }
{
    match numbers.get(cite as usize) {
        Some(number) => number.is_none(),
        None => false,
    }
}

/// Whether none of the cites is of an old entry that was passed over.
fn are_kept(numbers: &[Option<u64>], cites: &[u64]) -> bool
    ensures { result ≡ list_all (λ cite. not (is_dropped numbers.now cite)) cites.now }
{
    cites.iter().all(|cite| !is_dropped(numbers, *cite))
}

/// Whether no cite of a reason is of an old entry that was passed over.
fn has_hope(numbers: &[Option<u64>], why: &Why) -> bool
    ensures { result ≡ has_hope numbers.now why.now }
{
    match why {
        Why::Bound => true,
        Why::Branch { cites, .. } => are_kept(numbers, cites.as_slice()),
        Why::Swap { cite, .. } => !is_dropped(numbers, *cite),
        Why::Pairs { .. } => true,
    }
}

/// Whether an old entry may still be kept in a book of this cycle, by what is known of the old entries gone over.
fn may_stand(numbers: &[Option<u64>], cycle: u64, old: &Entry) -> bool
    ensures { result ≡ may_stand numbers.now cycle old.now }
{
    cycle <= old.cycle && has_hope(numbers, &old.why)
}

/// The units of the old entry of number `k`, where it may still be kept, and a walk of a few loads finds that it
/// follows from the old entries before it.
fn units_walked(
    inst: &Instance,
    kind: LineKind,
    cycle: u64,
    numbers: &[Option<u64>],
    old: &Entries,
    k: usize,
) -> Option<u64>
    requires range { AreEntries (tasks inst.now) old.now }
    requires k { k < length old.now }
    ensures { IfSome result (IsWalkedAt kind inst.now old.now k) }
{
    let entry = old.at(k);
    if !may_stand(numbers, cycle, entry) {
        return None;
    }
    match check_entry(inst, kind, old, k, entry, QUICK) {
        Checked::Right { units } => Some(units),
        _ => None,
    }
}

/// The units of the old entries from number `from` up to below `to`, walked side by side.
fn batch_walked<R: Threads + Sync>(
    rt: &R,
    alloc: Global,
    inst: &Instance,
    kind: LineKind,
    cycle: u64,
    numbers: &[Option<u64>],
    old: &Entries,
    from: usize,
    to: usize,
) -> Result<Vec<Option<u64>>, AllocError>
    requires range { AreEntries (tasks inst.now) old.now }
    requires from { from ≤ to }
    requires to { to ≤ length old.now }
    ensures { IfOk result (λ v. AreWalked kind inst.now old.now from v.items) }
{
    (from..to)
        .into_par_iter()
        .with_min_len(1)
        .map(
            |k: usize| -> Option<u64>
                requires { (k < length old.now) × AreEntries (tasks inst.now) old.now }
                ensures { IfSome result (IsWalkedAt kind inst.entry.now old.entry.now k) }
            { units_walked(inst, kind, cycle, numbers, old, k) },
        )
        .collect(rt, alloc)
}

/// The units of an old entry of a batch, where a walk found it right.
fn units_at(walked: &[Option<u64>], place: usize) -> Option<u64>
    ensures { IfSome result (λ units. slice_get walked.now place ≡ Some (Some units)) }
{
    match walked.get(place) {
        Some(units) => *units,
        None => None,
    }
}

impl Warming {
    // The units of the old entries from number `from` up to below `to`, where walks side by side found them right; none
    // where such walks aren't worth it, or where there is no memory for them.
    fn batch_walks<R: Threads + Sync>(
        &self,
        rt: &R,
        alloc: Global,
        inst: &Instance,
        old: &Entries,
        from: usize,
        to: usize,
    ) -> Vec<Option<u64>>
        requires range { AreEntries (tasks inst.now) old.now }
        requires from { from ≤ to }
        requires to { to ≤ length old.now }
        ensures { AreWalked self.now.book.about.kind inst.now old.now from result.items }
    {
        if !is_worth(from, self.kept) {
            return Vec::new(alloc);
        }
        let kind = self.book.kind();
        let cycle = self.book.cycle();
        match batch_walked(rt, alloc, inst, kind, cycle, &self.numbers, old, from, to) {
            Ok(walked) => walked,
            Err(_) => Vec::new(alloc),
        }
    }

    // Takes the old entries from number `from` up to below `to`, whose units `walked` has where a walk found them
    // right. Out of memory, those before some of them were taken.
    fn take_batch(
        &mut self,
        alloc: Global,
        inst: &Instance,
        old: &Entries,
        from: usize,
        to: usize,
        walked: &[Option<u64>],
        room: u64,
    ) -> Result<(), AllocError>
        requires same { self.old.book.about.line ≡ inst.now }
        requires range { AreEntries (tasks inst.now) old.now }
        requires from { from ≤ to }
        requires to { to ≤ length old.now }
        requires walked { AreWalked self.old.book.about.kind inst.now old.now from walked.now }
        requires taken { (b : BookView) × TakesAll room (untaken b) (take from old.now) (taking self.old) }
        requires filled { vec_len self.old.numbers ≡ from }
        requires free { length old.now ≤ vec_capacity self.old.numbers }
        ensures ok { OnOk result ((b : BookView) → TakesAll room (untaken b) (take from old.now) (taking self.old)
            → TakesAll room (untaken b) (take to old.now) (taking self.new)) }
        ensures err { OnErr result ((b : BookView) → TakesAll room (untaken b) (take from old.now) (taking self.old)
            → (k : ℕ) × TakesAll room (untaken b) (take k old.now) (taking self.new)) }
        ensures filled { OnOk result (vec_len self.new.numbers ≡ to) }
        ensures free { length old.now ≤ vec_capacity self.new.numbers }
        ensures reserved { IsReserved self.old.book → IsReserved self.new.book }
    {
        for k in from..to {
            let units = units_at(walked, k - from);
            self.take(alloc, inst, old.at(k), units, room)?;
        }
        Ok(())
    }

    // Walks the old entries from number `from` up to below `to` side by side, and takes them. Out of memory, those
    // before some of them were taken.
    fn walk_batch<R: Threads + Sync>(
        &mut self,
        rt: &R,
        alloc: Global,
        inst: &Instance,
        old: &Entries,
        from: usize,
        to: usize,
        room: u64,
    ) -> Result<(), AllocError>
        requires same { self.old.book.about.line ≡ inst.now }
        requires range { AreEntries (tasks inst.now) old.now }
        requires from { from ≤ to }
        requires to { to ≤ length old.now }
        requires taken { (b : BookView) × TakesAll room (untaken b) (take from old.now) (taking self.old) }
        requires filled { vec_len self.old.numbers ≡ from }
        requires free { length old.now ≤ vec_capacity self.old.numbers }
        ensures ok { OnOk result ((b : BookView) → TakesAll room (untaken b) (take from old.now) (taking self.old)
            → TakesAll room (untaken b) (take to old.now) (taking self.new)) }
        ensures err { OnErr result ((b : BookView) → TakesAll room (untaken b) (take from old.now) (taking self.old)
            → (k : ℕ) × TakesAll room (untaken b) (take k old.now) (taking self.new)) }
        ensures filled { OnOk result (vec_len self.new.numbers ≡ to) }
        ensures free { length old.now ≤ vec_capacity self.new.numbers }
        ensures reserved { IsReserved self.old.book → IsReserved self.new.book }
    {
        let walked = self.batch_walks(rt, alloc, inst, old, from, to);
        self.take_batch(alloc, inst, old, from, to, &walked, room)
    }
}

/// What a book is after it took in old entries, with the units of those that were kept.
#[derive(Drop)]
pub enum Counted {
    /// All old entries were gone over, and so many of them were kept, with so many units together.
    Done { book: Book, kept: u32, units: u64 },
    /// Out of memory: the book with what was kept before.
    NoMemory(Book),
}

/// Takes old entries into a book as [`warm`](crate::warm) does, and answers the same, with the old entries walked side
/// by side. More loads than `room` may be walked.
pub fn warm_wide<R: Threads + Sync>(
    rt: &R,
    alloc: Global,
    inst: &Instance,
    book: Book,
    old: &Entries,
    room: u64,
) -> Warmed
    requires same { book.about.line ≡ inst.now }
    requires range { AreEntries (tasks inst.now) old.now }
    ensures warmed { IsWarmed room book old.now result }
    ensures in_order { IsOneWarmed room book old.now result }
    ensures warmer { GivesWarmer room book result }
    ensures derived { OfBook (λ b. IsDerived b.about.kind b.about.line b.state.entries) result }
    ensures fresh { OfBook (λ b. IsFresh b.state.entries) result }
    ensures reserved { OfBook (λ b. IsReserved book → IsReserved b) result }
{
    match warm_counted(rt, alloc, inst, book, old, room) {
        Counted::Done {
            book,
            kept,
            units: _,
        } => Warmed::Done { book, kept },
        Counted::NoMemory(book) => Warmed::NoMemory(book),
    }
}

/// The same, with the units of the entries that were kept.
pub fn warm_counted<R: Threads + Sync>(
    rt: &R,
    alloc: Global,
    inst: &Instance,
    book: Book,
    old: &Entries,
    room: u64,
) -> Counted
    requires same { book.about.line ≡ inst.now }
    requires range { AreEntries (tasks inst.now) old.now }
    ensures warmed { IsWarmed room book old.now (warmed_of result) }
    ensures units { AreCounted room book old.now result }
    ensures in_order { IsOneWarmed room book old.now (warmed_of result) }
    ensures warmer { GivesWarmer room book (warmed_of result) }
    ensures derived { OfBook (λ b. IsDerived b.about.kind b.about.line b.state.entries) (warmed_of result) }
    ensures fresh { OfBook (λ b. IsFresh b.state.entries) (warmed_of result) }
    ensures reserved { OfBook (λ b. IsReserved book → IsReserved b) (warmed_of result) }
{
    let Ok(numbers) = Vec::with_capacity(alloc, old.len()) else {
        let _entries = book.entries();
        return Counted::NoMemory(book);
    };
    let mut warming = Warming {
        book,
        numbers,
        kept: 0,
        units: 0,
    };
    let mut from = 0;
    while from < old.len() {
        let to = old.len().min(from + batch_size(warming.kept));
        let Ok(()) = warming.walk_batch(rt, alloc, inst, old, from, to, room) else {
            let _entries = warming.book.entries();
            return Counted::NoMemory(warming.book);
        };
        from = to;
    }
    let _entries = warming.book.entries();
    Counted::Done {
        book: warming.book,
        kept: warming.kept,
        units: warming.units,
    }
}
